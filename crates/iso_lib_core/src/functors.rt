//! The name and the arity of a term, and the term of a name and an arity (8.5.1).
ghost use Rattle.std.specs.Prelude.{◌≡◌, pos, ◌+◌, ◌<◌, ◌^◌, IfOk, Err, length, [], ◌∷◌};
ghost use Rattle.std.specs.List.{All};
ghost use Rattle.iso_atoms.specs.Texts.{text_at};
ghost use Rattle.iso_model.specs.Terms.Trees.{Apply, Integer, row, Tree};
ghost use Rattle.iso_model.specs.Terms.Sizes.{size};
ghost use Rattle.iso_model.specs.Terms.TermOf.{term_of};
ghost use Rattle.iso_model.specs.Terms.Arguments.{arity, variables_from};
ghost use Rattle.iso_model.specs.Search.Replies.{Equate};
ghost use Rattle.iso_model.specs.Search.Library.{library_answer, name_of, new_term, new_term_of, new_compound};
ghost use Rattle.iso_model.specs.declared.kinds.Library.TheVariants as library;
ghost use Rattle.iso_store_core.specs.Presents.{Holds, meaning, IsUnification};
ghost use Rattle.iso_store_core.specs.Retaining.{Retains, RetainsAll, Takes};
ghost use Rattle.iso_store_core.specs.ArgumentWords.{AreArguments};
ghost use Rattle.iso_lib_core.specs.Cells.{made_for};
ghost use Rattle.iso_lib_core.specs.Replies.{IsReply, MeetsCopy};

use super::copies::unify_copy;
use super::outcomes::{Fault, Reply, tested};
use super::{culprits, errors};
use iso_atoms::Atom;
use iso_model::{MAX_ARITY, Term};
use iso_store_core::{Shape, Store, StoreFault};
use std::alloc::{AllocError, Global};

/// A compound of this name, whose arguments are so many variables, from 0 on.
fn with_variables(alloc: Global, name: &str, count: usize) -> Result<Term, AllocError>
    requires { count < 256 }
    ensures { IfOk result (λ t. term_of t ≡ Apply name.now (variables_from 0 count)) }
{
    let mut arguments = Vec::with_capacity(alloc, count)?;
    for number in 0..count {
        arguments.push(Term::Var(number as u64))?;
    }
    Ok(Term::Compound(String::from_str(alloc, name)?, arguments))
}

/// Unifies the word with a compound of this name and so many new variables. The errors: the store is full, or memory
/// was refused.
fn unify_new<S: Store>(
    alloc: Global,
    store: &mut S,
    word: S::Word,
    name: Atom,
    count: usize,
) -> Result<bool, StoreFault>
    requires word { Holds (S.present store.old) word }
    requires name { name < length (S.names store.old) }
    requires some { 0 < count }
    requires few { count < 256 }
    requires next { (S.present store.old).next < 2 ^ 63 }
    ensures unified { IfOk result (MeetsCopy (S.present store.old) (S.present store.new) (meaning (S.present store.old) word) (Apply (text_at (S.names store.old) name) (variables_from 0 count))) }
    ensures full { result ≡ Err StoreFault.Full → S.full store.new }
    ensures cells { Takes S.Store store.old store.new
        (1 + size (Apply (text_at (S.names store.old) name) (variables_from 0 count))) }
    ensures rest { Retains S.Store store.old store.new }
{
    let made = with_variables(alloc, store.text(name), count)?;
    unify_copy(alloc, store, word, &made)
}

/// The same by a name that is to be an atom. The errors are those of `functor`.
fn new_compound<S: Store>(
    alloc: Global,
    store: &mut S,
    word: S::Word,
    name: S::Word,
    count: usize,
) -> Result<Reply, Fault>
    requires word { Holds (S.present store.old) word }
    requires name { Holds (S.present store.old) name }
    requires some { 0 < count }
    requires few { count < 256 }
    requires next { (S.present store.old).next < 2 ^ 63 }
    ensures replies { IsReply (S.present store.old) (S.present store.new) (new_compound (meaning (S.present store.old) word) (meaning (S.present store.old) name) count) result }
    ensures full { result ≡ Err Fault.Full → S.full store.new }
    ensures cells { Takes S.Store store.old store.new
        (made_for (new_compound (meaning (S.present store.old) word) (meaning (S.present store.old) name) count)) }
    ensures rest { Retains S.Store store.old store.new }
{
    let Shape::Atom(atom) = store.shape(name) else {
        return Err(culprits::wrong_type(alloc, store, "atom", name, "functor", 3));
    };
    Ok(tested(unify_new(alloc, store, word, atom, count)?))
}

/// Unifies the word with the term of this name and so many new variables. The errors are those of `functor`.
fn new_term_of<S: Store>(
    alloc: Global,
    store: &mut S,
    word: S::Word,
    name: S::Word,
    number: i128,
) -> Result<Reply, Fault>
    requires word { Holds (S.present store.old) word }
    requires name { Holds (S.present store.old) name }
    requires next { (S.present store.old).next < 2 ^ 63 }
    ensures replies { IsReply (S.present store.old) (S.present store.new) (new_term_of (meaning (S.present store.old) word) (meaning (S.present store.old) name) number) result }
    ensures full { result ≡ Err Fault.Full → S.full store.new }
    ensures cells { Takes S.Store store.old store.new
        (made_for (new_term_of (meaning (S.present store.old) word) (meaning (S.present store.old) name) number)) }
    ensures rest { Retains S.Store store.old store.new }
{
    if number < 0 {
        let culprit = Term::Int(number);
        let ball = errors::out_of_domain(alloc, "not_less_than_zero", culprit, "functor", 3)?;
        return Err(Fault::Raise(ball));
    }
    if number == 0 {
        return Ok(tested(store.unify(word, name)?));
    }
    if number > MAX_ARITY as i128 {
        let ball = errors::too_many_arguments(alloc, "functor", 3)?;
        return Err(Fault::Raise(ball));
    }
    new_compound(alloc, store, word, name, number as usize)
}

/// Unifies the word with the term of this name and arity. The errors are those of `functor`.
fn new_term<S: Store>(
    alloc: Global,
    store: &mut S,
    word: S::Word,
    name: S::Word,
    count: S::Word,
) -> Result<Reply, Fault>
    requires word { Holds (S.present store.old) word }
    requires name { Holds (S.present store.old) name }
    requires count { Holds (S.present store.old) count }
    requires next { (S.present store.old).next < 2 ^ 63 }
    ensures replies { IsReply (S.present store.old) (S.present store.new)
        (new_term (meaning (S.present store.old) word) (meaning (S.present store.old) name) (meaning (S.present store.old) count)) result }
    ensures full { result ≡ Err Fault.Full → S.full store.new }
    ensures cells { Takes S.Store store.old store.new
        (made_for (new_term (meaning (S.present store.old) word) (meaning (S.present store.old) name)
        (meaning (S.present store.old) count))) }
    ensures rest { Retains S.Store store.old store.new }
{
    let (name_shape, count_shape) = (store.shape(name), store.shape(count));
    if matches!(name_shape, Shape::Var(_)) || matches!(count_shape, Shape::Var(_)) {
        return Err(Fault::Raise(errors::instantiation(alloc, "functor", 3)?));
    }
    if matches!(name_shape, Shape::Compound(_, _)) {
        return Err(culprits::wrong_type(alloc, store, "atomic", name, "functor", 3));
    }
    let Shape::Int(number) = count_shape else {
        return Err(culprits::wrong_type(alloc, store, "integer", count, "functor", 3));
    };
    new_term_of(alloc, store, word, name, number)
}

/// Unifies the first word with the second, and then the third with the fourth. The errors: the store is full, or
/// memory was refused.
fn unify_both<S: Store>(
    store: &mut S,
    first: (S::Word, S::Word),
    second: (S::Word, S::Word),
) -> Result<bool, StoreFault>
    requires one { Holds (S.present store.old) first.0 }
    requires other { Holds (S.present store.old) first.1 }
    requires second_one { Holds (S.present store.old) second.0 }
    requires second_other { Holds (S.present store.old) second.1 }
    ensures unified { IfOk result (IsUnification (S.present store.old) (S.present store.new)
        (row (meaning (S.present store.old) first.0 ∷ meaning (S.present store.old) second.0 ∷ []))
        (row (meaning (S.present store.old) first.1 ∷ meaning (S.present store.old) second.1 ∷ []))) }
    ensures full { result ≡ Err StoreFault.Full → S.full store.new }
    ensures cells { Takes S.Store store.old store.new 0 }
    ensures rest { RetainsAll S.Store store.old store.new }
{
    if !store.unify(first.0, first.1)? {
        return Ok(false);
    }
    store.unify(second.0, second.1)
}

/// Unifies the words with the name and the arity of the term that the last word stands for; of a term that is no
/// compound the name is the term itself. The errors: the store is full, or memory was refused.
fn equate_name<S: Store>(
    store: &mut S,
    name: S::Word,
    count: S::Word,
    term: S::Word,
) -> Result<Reply, Fault>
    requires name { Holds (S.present store.old) name }
    requires count { Holds (S.present store.old) count }
    requires term { Holds (S.present store.old) term }
    ensures replies { IsReply (S.present store.old) (S.present store.new) (Equate 4
        (row (meaning (S.present store.old) name ∷ meaning (S.present store.old) count ∷ []))
        (row (name_of (meaning (S.present store.old) term)
        ∷ Integer (pos (arity (meaning (S.present store.old) term))) ∷ []))) result }
    ensures full { result ≡ Err Fault.Full → S.full store.new }
    ensures cells { Takes S.Store store.old store.new 0 }
    ensures rest { RetainsAll S.Store store.old store.new }
{
    let (own_name, arity) = match store.shape(term) {
        Shape::Compound(atom, arity) => (store.atom(atom)?, arity),
        _ => (term, 0),
    };
    let own_count = store.int(arity as i128)?;
    Ok(tested(unify_both(store, (name, own_name), (count, own_count))?))
}

/// `functor/3` (8.5.1). The errors: one is raised, the store is full, or memory was refused.
pub fn functor<S: Store>(
    alloc: Global,
    store: &mut S,
    arguments: &[S::Word],
) -> Result<Reply, Fault>
    requires arguments { All (λ w. Holds (S.present store.old) w) arguments.now }
    requires count { length arguments.now ≡ 3 }
    requires next { (S.present store.old).next < 2 ^ 63 }
    ensures replies { (t : Tree) → AreArguments (S.present store.old) arguments.now t
        → IsReply (S.present store.old) (S.present store.new) (library_answer library.Functor t) result }
    ensures full { result ≡ Err Fault.Full → S.full store.new }
    ensures cells { (t : Tree) → AreArguments (S.present store.old) arguments.now t
        → Takes S.Store store.old store.new (made_for (library_answer library.Functor t)) }
    ensures rest { Retains S.Store store.old store.new }
{
    let (term, name, count) = (arguments[0], arguments[1], arguments[2]);
    if matches!(store.shape(term), Shape::Var(_)) {
        return new_term(alloc, store, term, name, count);
    }
    equate_name(store, name, count, term)
}
