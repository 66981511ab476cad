//! The list of a term's parts, and the term of such a list (8.5.3).
ghost use Rattle.std.specs.Prelude.{◌≡◌, ◌<◌, ◌++◌, IfOk, OnOk, Err, length, map};
ghost use Rattle.std.specs.List.{All};
ghost use Rattle.iso_model.specs.Terms.Trees.{Variable, Tree};
ghost use Rattle.iso_model.specs.Terms.Arguments.{arity, arguments, listed};
ghost use Rattle.iso_model.specs.Search.Library.{library_answer, equate_list, parts, compound_of_parts, term_of_parts, term_of_list};
ghost use Rattle.iso_model.specs.declared.kinds.Library.TheVariants as library;
ghost use Rattle.iso_store_core.specs.Presents.{Holds, meaning, KeepsNumbers, KeepsWords};
ghost use Rattle.iso_store_core.specs.Retaining.{Retains, RetainsAll, Takes};
ghost use Rattle.iso_store_core.specs.ArgumentWords.{AreArguments};
ghost use Rattle.iso_lib_core.specs.Cells.{made_for};
ghost use Rattle.iso_lib_core.specs.Replies.{IsReply, IsUnbound};

use super::equated::equate_list;
use super::lists::{elements, see_partial_list, tail};
use super::outcomes::{Fault, Reply, tested};
use super::{culprits, errors};
use iso_model::{MAX_ARITY, NoMemory};
use iso_store_core::{Shape, Store, StoreFault};
use std::alloc::Global;

/// Adds words for the arguments of the term that the word stands for, which has so many. The error is that memory was
/// refused.
fn push_arguments<S: Store>(
    store: &S,
    word: S::Word,
    count: usize,
    words: &mut Vec<S::Word>,
) -> Result<(), NoMemory>
    requires word { Holds (S.present store.now) word }
    requires count { count ≡ arity (meaning (S.present store.now) word) }
    requires words { All (λ w. Holds (S.present store.now) w) words.old.items }
    ensures hold { OnOk result (All (λ w. Holds (S.present store.now) w) words.new.items) }
    ensures values { OnOk result (map (meaning (S.present store.now)) words.new.items
        ≡ map (meaning (S.present store.now)) words.old.items ++ listed (arguments (meaning (S.present store.now) word))) }
{
    for index in 0..count {
        words.push(store.arg(word, index))?;
    }
    Ok(())
}

/// Words for the parts of the term that the word stands for, which is bound. The errors: the store is full, or memory
/// was refused.
fn parts<S: Store>(alloc: Global, store: &mut S, word: S::Word) -> Result<Vec<S::Word>, StoreFault>
    requires word { Holds (S.present store.old) word }
    ensures words { OnOk result (KeepsWords (S.present store.old) (S.present store.new)) }
    ensures substitution { OnOk result ((S.present store.new).substitution ≡ (S.present store.old).substitution) }
    ensures numbers { OnOk result (KeepsNumbers (S.present store.old) (S.present store.new)) }
    ensures hold { IfOk result (λ ws. All (λ w. Holds (S.present store.new) w) ws.items) }
    ensures values { IfOk result (λ ws. map (meaning (S.present store.new)) ws.items ≡ parts (meaning (S.present store.old) word)) }
    ensures full { result ≡ Err StoreFault.Full → S.full store.new }
    ensures cells { Takes S.Store store.old store.new 0 }
    ensures rest { RetainsAll S.Store store.old store.new }
{
    let mut words = Vec::new(alloc);
    let Shape::Compound(name, count) = store.shape(word) else {
        words.push(word)?;
        return Ok(words);
    };
    let name = store.atom(name)?;
    words.push(name)?;
    push_arguments(store, word, count, &mut words)?;
    Ok(words)
}

/// Unifies the word with the list of the parts of the term that the other word stands for. The errors: the store is
/// full, or memory was refused.
fn equate_parts<S: Store>(
    alloc: Global,
    store: &mut S,
    list: S::Word,
    term: S::Word,
) -> Result<Reply, Fault>
    requires list { Holds (S.present store.old) list }
    requires term { Holds (S.present store.old) term }
    ensures replies { IsReply (S.present store.old) (S.present store.new)
        (equate_list (meaning (S.present store.old) list) (parts (meaning (S.present store.old) term))) result }
    ensures full { result ≡ Err Fault.Full → S.full store.new }
    ensures cells { Takes S.Store store.old store.new
        (made_for (equate_list (meaning (S.present store.old) list) (parts (meaning (S.present store.old) term)))) }
    ensures rest { Retains S.Store store.old store.new }
{
    let parts = parts(alloc, store, term)?;
    equate_list(alloc, store, list, parts.as_slice())
}

/// Unifies the word with the compound of this name and these arguments. The errors are those of `univ`.
fn compound_of_parts<S: Store>(
    alloc: Global,
    store: &mut S,
    word: S::Word,
    name: S::Word,
    arguments: &[S::Word],
) -> Result<Reply, Fault>
    requires word { Holds (S.present store.old) word }
    requires name { Holds (S.present store.old) name }
    requires arguments { All (λ w. Holds (S.present store.old) w) arguments.now }
    requires some { 0 < length arguments.now }
    ensures replies { IsReply (S.present store.old) (S.present store.new)
        (compound_of_parts (meaning (S.present store.old) word) (meaning (S.present store.old) name) (map (meaning (S.present store.old)) arguments.now)) result }
    ensures full { result ≡ Err Fault.Full → S.full store.new }
    ensures cells { Takes S.Store store.old store.new
        (made_for (compound_of_parts (meaning (S.present store.old) word) (meaning (S.present store.old) name)
        (map (meaning (S.present store.old)) arguments.now))) }
    ensures rest { RetainsAll S.Store store.old store.new }
{
    let Shape::Atom(atom) = store.shape(name) else {
        return Err(culprits::wrong_type(alloc, store, "atom", name, "=..", 2));
    };
    if arguments.len() > MAX_ARITY {
        return Err(Fault::Raise(errors::too_many_arguments(alloc, "=..", 2)?));
    }
    let made = store.compound(atom, arguments)?;
    Ok(tested(store.unify(word, made)?))
}

/// Unifies the word with the term of this name and these arguments. The errors are those of `univ`.
fn term_of_parts<S: Store>(
    alloc: Global,
    store: &mut S,
    word: S::Word,
    name: S::Word,
    arguments: &[S::Word],
) -> Result<Reply, Fault>
    requires word { Holds (S.present store.old) word }
    requires name { Holds (S.present store.old) name }
    requires arguments { All (λ w. Holds (S.present store.old) w) arguments.now }
    ensures replies { IsReply (S.present store.old) (S.present store.new)
        (term_of_parts (meaning (S.present store.old) word) (meaning (S.present store.old) name) (map (meaning (S.present store.old)) arguments.now)) result }
    ensures full { result ≡ Err Fault.Full → S.full store.new }
    ensures cells { Takes S.Store store.old store.new
        (made_for (term_of_parts (meaning (S.present store.old) word) (meaning (S.present store.old) name)
        (map (meaning (S.present store.old)) arguments.now))) }
    ensures rest { RetainsAll S.Store store.old store.new }
{
    let shape = store.shape(name);
    if matches!(shape, Shape::Var(_)) {
        return Err(Fault::Raise(errors::instantiation(alloc, "=..", 2)?));
    }
    if !arguments.is_empty() {
        return compound_of_parts(alloc, store, word, name, arguments);
    }
    if matches!(shape, Shape::Compound(_, _)) {
        return Err(culprits::wrong_type(alloc, store, "atomic", name, "=..", 2));
    }
    Ok(tested(store.unify(word, name)?))
}

/// Unifies the word with the term of these parts. The errors are those of `univ`.
fn term_of_list<S: Store>(
    alloc: Global,
    store: &mut S,
    word: S::Word,
    parts: &[S::Word],
) -> Result<Reply, Fault>
    requires word { Holds (S.present store.old) word }
    requires parts { All (λ w. Holds (S.present store.old) w) parts.now }
    ensures replies { IsReply (S.present store.old) (S.present store.new)
        (term_of_list (meaning (S.present store.old) word) (map (meaning (S.present store.old)) parts.now)) result }
    ensures full { result ≡ Err Fault.Full → S.full store.new }
    ensures cells { Takes S.Store store.old store.new
        (made_for (term_of_list (meaning (S.present store.old) word) (map (meaning (S.present store.old)) parts.now))) }
    ensures rest { RetainsAll S.Store store.old store.new }
{
    let Some((name, arguments)) = parts.split_first() else {
        let culprit = errors::atom(alloc, "[]")?;
        let ball = errors::out_of_domain(alloc, "non_empty_list", culprit, "=..", 2)?;
        return Err(Fault::Raise(ball));
    };
    term_of_parts(alloc, store, word, *name, arguments)
}

/// `=../2` (8.5.3). The errors: one is raised, the store is full, or memory was refused.
pub fn univ<S: Store>(alloc: Global, store: &mut S, arguments: &[S::Word]) -> Result<Reply, Fault>
    requires arguments { All (λ w. Holds (S.present store.old) w) arguments.now }
    requires count { length arguments.now ≡ 2 }
    ensures replies { (t : Tree) → AreArguments (S.present store.old) arguments.now t
        → IsReply (S.present store.old) (S.present store.new) (library_answer library.Univ t) result }
    ensures full { result ≡ Err Fault.Full → S.full store.new }
    ensures cells { (t : Tree) → AreArguments (S.present store.old) arguments.now t
        → Takes S.Store store.old store.new (made_for (library_answer library.Univ t)) }
    ensures rest { Retains S.Store store.old store.new }
{
    let (term, list) = (arguments[0], arguments[1]);
    see_partial_list(alloc, store, list, "=..", 2)?;
    if !matches!(store.shape(term), Shape::Var(_)) {
        return equate_parts(alloc, store, list, term);
    }
    if matches!(store.shape(tail(store, list)), Shape::Var(_)) {
        return Err(Fault::Raise(errors::instantiation(alloc, "=..", 2)?));
    }
    let parts = elements(alloc, store, list)?.elements;
    term_of_list(alloc, store, term, parts.as_slice())
}
