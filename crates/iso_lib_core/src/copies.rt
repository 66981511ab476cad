//! Copies of terms, with new variables.
ghost use Rattle.std.specs.Prelude.{◌≡◌, ◌+◌, ◌<◌, ◌≤◌, ◌^◌, IfOk, OnOk, Err, true, false, length};
ghost use Rattle.std.specs.List.{All};
ghost use Rattle.iso_model.specs.Terms.Sizes.{size};
ghost use Rattle.iso_model.specs.Terms.TermOf.{term_of};
ghost use Rattle.iso_model.specs.Terms.Trees.{arities_fit, Tree};
ghost use Rattle.iso_model.specs.Terms.Copies.{copy_from};
ghost use Rattle.iso_model.specs.Terms.Substitutions.{Subst, apply};
ghost use Rattle.iso_model.specs.Terms.Unifiers.{NeverEqual};
ghost use Rattle.iso_model.specs.Terms.Variables.{variable_count};
ghost use Rattle.iso_model.specs.Search.Library.{library_answer};
ghost use Rattle.iso_model.specs.declared.kinds.Library.TheVariants as row;
ghost use Rattle.iso_store_core.specs.Presents.{Grows, Holds, Makes, MovesOn, meaning};
ghost use Rattle.iso_store_core.specs.Retaining.{CountsCells, Retains, Takes};
ghost use Rattle.iso_store_core.specs.ArgumentWords.{AreArguments};
ghost use Rattle.iso_lib_core.specs.Cells.{copy_cells, made_for};
ghost use Rattle.iso_lib_core.specs.Replies.{IsReply, MeetsCopy, most_copied};

use super::outcomes::{Fault, Reply, tested};
use iso_model::{NoMemory, Numbering, Term};
use iso_store_core::{Shape, Store, StoreFault};
use std::alloc::Global;

/// The most variables of a term that is copied for a goal; one with more is refused as memory is.
const MOST_VARIABLES: usize = 536_870_912;

/// How many distinct variables the term has. The error is that memory was refused.
fn count_variables(alloc: Global, term: &Term) -> Result<usize, NoMemory>
    ensures { IfOk result (λ count. count ≡ variable_count (term_of term.now)) }
{
    let mut variables = Numbering::new(alloc);
    variables.note_all(alloc, term)?;
    Ok(variables.len())
}

/// The copy of the term, with new variables; one of an integer or of an atom takes as many cells as those do. The
/// errors: the store is full, or memory was refused.
fn copied<S: Store>(store: &mut S, term: &Term) -> Result<S::Word, StoreFault>
    requires next { (S.present store.old).next < 2 ^ 63 }
    requires fits { arities_fit (term_of term.now) ≡ true }
    ensures made { IfOk result (λ w. Makes (S.present store.old) (S.present store.new) w (copy_from (term_of term.now) (S.present store.old).next)) }
    ensures numbers { OnOk result (MovesOn (S.present store.old) (S.present store.new) (variable_count (term_of term.now))) }
    ensures full { result ≡ Err StoreFault.Full → S.full store.new }
    ensures cells { CountsCells S.Store → Grows (S.present store.old) (S.present store.new)
        (copy_cells (term_of term.now)) (variable_count (term_of term.now)) }
    ensures rest { Retains S.Store store.old store.new }
{
    match term {
        Term::Int(value) => store.int(*value),
        Term::Atom(name) => {
            let atom = store.intern(name.as_str())?;
            store.atom(atom)
        }
        Term::Var(_) | Term::Compound(_, _) => store.build(term),
    }
}

/// The copy of the term, with new variables. The errors: the store is full, or memory was refused, as it is for a
/// term of more than 536,870,912 variables.
pub(crate) fn copied_few<S: Store>(
    alloc: Global,
    store: &mut S,
    term: &Term,
) -> Result<S::Word, StoreFault>
    requires next { (S.present store.old).next < 2 ^ 63 }
    requires fits { arities_fit (term_of term.now) ≡ true }
    ensures made { IfOk result (λ w. Makes (S.present store.old) (S.present store.new) w (copy_from (term_of term.now) (S.present store.old).next)) }
    ensures numbers { OnOk result (MovesOn (S.present store.old) (S.present store.new) (variable_count (term_of term.now))) }
    ensures few { OnOk result (variable_count (term_of term.now) ≤ most_copied) }
    ensures full { result ≡ Err StoreFault.Full → S.full store.new }
    ensures cells { Takes S.Store store.old store.new (size (term_of term.now)) }
    ensures rest { Retains S.Store store.old store.new }
{
    if count_variables(alloc, term)? > MOST_VARIABLES {
        return Err(StoreFault::NoMemory);
    }
    copied(store, term)
}

/// Whether the term that the word stands for may unify with a copy of the other one: one of them is a variable, or they
/// are the same integer or atom, or compounds of one name with as many arguments.
fn may_meet<S: Store>(store: &S, word: S::Word, term: &Term) -> bool
    requires { Holds (S.present store.now) word }
    ensures { result ≡ false → (r s : Subst)
        → NeverEqual (meaning (S.present store.now) word) (apply s (apply r (term_of term.now))) }
{
    match term {
        Term::Var(_) => true,
        Term::Int(value) => match store.shape(word) {
            Shape::Var(_) => true,
            Shape::Int(own) => own == *value,
            Shape::Atom(_) | Shape::Compound(_, _) => false,
        },
        Term::Atom(name) => match store.shape(word) {
            Shape::Var(_) => true,
            Shape::Atom(own) => store.text(own) == name.as_str(),
            Shape::Int(_) | Shape::Compound(_, _) => false,
        },
        Term::Compound(name, arguments) => match store.shape(word) {
            Shape::Var(_) => true,
            Shape::Compound(own, count) => {
                count == arguments.len() && store.text(own) == name.as_str()
            }
            Shape::Int(_) | Shape::Atom(_) => false,
        },
    }
}

/// Whether the term that the word stands for unifies with a copy of the other one, which has new variables; then
/// their unifier is bound. The errors: the store is full, or memory was refused, as it is for a term of more than
/// 536,870,912 variables.
pub fn unify_copy<S: Store>(
    alloc: Global,
    store: &mut S,
    word: S::Word,
    term: &Term,
) -> Result<bool, StoreFault>
    requires word { Holds (S.present store.old) word }
    requires next { (S.present store.old).next < 2 ^ 63 }
    requires fits { arities_fit (term_of term.now) ≡ true }
    ensures unified { IfOk result (MeetsCopy (S.present store.old) (S.present store.new) (meaning (S.present store.old) word) (term_of term.now)) }
    ensures full { result ≡ Err StoreFault.Full → S.full store.new }
    ensures cells { Takes S.Store store.old store.new (1 + size (term_of term.now)) }
    ensures copied { CountsCells S.Store → Grows (S.present store.old) (S.present store.new)
        (copy_cells (term_of term.now)) (variable_count (term_of term.now)) }
    ensures rest { Retains S.Store store.old store.new }
{
    if !may_meet(store, word, term) {
        return Ok(false);
    }
    if count_variables(alloc, term)? > MOST_VARIABLES {
        return Err(StoreFault::NoMemory);
    }
    let copy = copied(store, term)?;
    store.unify(word, copy)
}

/// `copy_term/2` (8.5.4). The errors: the store is full, or memory was refused.
pub fn copy_term<S: Store>(
    alloc: Global,
    store: &mut S,
    arguments: &[S::Word],
) -> Result<Reply, Fault>
    requires arguments { All (λ w. Holds (S.present store.old) w) arguments.now }
    requires count { length arguments.now ≡ 2 }
    requires next { (S.present store.old).next < 2 ^ 63 }
    ensures replies { (t : Tree) → AreArguments (S.present store.old) arguments.now t
        → IsReply (S.present store.old) (S.present store.new) (library_answer row.CopyTerm t) result }
    ensures full { result ≡ Err Fault.Full → S.full store.new }
    ensures cells { (t : Tree) → AreArguments (S.present store.old) arguments.now t
        → Takes S.Store store.old store.new (made_for (library_answer row.CopyTerm t)) }
    ensures rest { Retains S.Store store.old store.new }
{
    let (original, other) = (arguments[0], arguments[1]);
    let copy = store.copy(original)?;
    Ok(tested(store.unify(other, copy)?))
}
