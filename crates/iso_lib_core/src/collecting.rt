//! What bagof/3 and setof/3 come to: the witness is unified with those of a group of solutions, and then the result
//! with the list of its items (8.10.2, 8.10.3).
ghost use Rattle.std.specs.Prelude.{◌≡◌, ◌+◌, ◌<◌, ◌^◌, true, IfOk, OnOk, Err, map, length};
ghost use Rattle.std.specs.List.{All};
ghost use Rattle.iso_model.specs.Terms.Trees.{row, arities_fit};
ghost use Rattle.iso_model.specs.Terms.Sizes.{size};
ghost use Rattle.iso_model.specs.Terms.Arguments.{argument};
ghost use Rattle.iso_model.specs.Terms.Lists.{list_of};
ghost use Rattle.iso_model.specs.Terms.Substitutions.{Subst};
ghost use Rattle.iso_model.specs.Terms.Unifiers.{Unifier, NeverEqual};
ghost use Rattle.iso_model.specs.Search.Groups.{pair, collection, witnesses};
ghost use Rattle.iso_model.specs.Search.Library.{equate_list, list_made};
ghost use Rattle.iso_model.specs.Search.Walker.{repeated};
ghost use Rattle.iso_store_core.specs.Presents.{Holds, meaning, IsUnification, KeepsNumbers};
ghost use Rattle.iso_store_core.specs.Retaining.{Retains, RetainsAll, Takes};
ghost use Rattle.iso_lib_core.specs.Cells.{made_for};
ghost use Rattle.iso_lib_core.specs.Collecting.{HasArgument, IsCollected, IsMet, CopiesSolutions, collected_made, copy_in, group_made};
ghost use Rattle.iso_lib_core.specs.Groupings.{IsWhole, solutions_of};
ghost use Rattle.iso_lib_core.specs.Lists.{Comes, MakesList};
ghost use Rattle.iso_lib_core.specs.Replies.{IsReply};

use super::copies::copied_few;
use super::equated::equate_list;
use super::groups::Group;
use super::lists::{elements, make_list};
use super::merging::Sorting;
use super::outcomes::{Fault, Reply};
use super::sorting::equate_ordered;
use iso_model::NoMemory;
use iso_store_core::{Store, StoreFault};
use std::alloc::Global;

/// How the solutions of a goal of bagof/3 or setof/3 come: its witness, its result, and whether its lists are sorted.
#[derive(Clone, Copy)]
pub struct Meeting<W> {
    pub witness: W,
    pub result: W,
    pub sorts: bool,
}

/// Whether the term that the word stands for unifies with all of the others at once; then their unifier is bound. The
/// errors: the store is full, or memory was refused.
pub fn unify_all<S: Store>(
    store: &mut S,
    word: S::Word,
    others: &[S::Word],
) -> Result<bool, StoreFault>
    requires word { Holds (S.present store.old) word }
    requires others { All (λ w. Holds (S.present store.old) w) others.now }
    ensures unified { IfOk result (IsUnification (S.present store.old) (S.present store.new)
        (repeated (meaning (S.present store.old) word) (map (meaning (S.present store.old)) others.now))
        (row (map (meaning (S.present store.old)) others.now))) }
    ensures full { result ≡ Err StoreFault.Full → S.full store.new }
    ensures cells { Takes S.Store store.old store.new 0 }
    ensures rest { RetainsAll S.Store store.old store.new }
{
    for other in others {
        if !store.unify(word, *other)? {
            return Ok(false);
        }
    }
    Ok(true)
}

/// Unifies the word with the list of what the others stand for, in the standard order and each once where it sorts. The
/// errors: the store is full, or memory was refused.
fn equate_collection<S: Store>(
    alloc: Global,
    store: &mut S,
    sorts: bool,
    words: &[S::Word],
    other: S::Word,
) -> Result<Reply, Fault>
    requires words { All (λ w. Holds (S.present store.old) w) words.now }
    requires other { Holds (S.present store.old) other }
    ensures replies { IsReply (S.present store.old) (S.present store.new)
        (equate_list (meaning (S.present store.old) other) (collection sorts (map (meaning (S.present store.old)) words.now))) result }
    ensures full { result ≡ Err Fault.Full → S.full store.new }
    ensures cells { Takes S.Store store.old store.new
        (made_for (equate_list (meaning (S.present store.old) other)
        (collection sorts (map (meaning (S.present store.old)) words.now)))) }
    ensures rest { Retains S.Store store.old store.new }
{
    if sorts {
        return equate_ordered(alloc, store, Sorting::Terms, words, other);
    }
    equate_list(alloc, store, other, words)
}

/// Words for the arguments at this place, from 0 on, of the compounds that the words stand for. The error is that
/// memory was refused.
fn arguments_at<S: Store>(
    alloc: Global,
    store: &S,
    words: &[S::Word],
    index: usize,
) -> Result<Vec<S::Word>, NoMemory>
    requires words { All (λ w. HasArgument (S.present store.now) index w) words.now }
    ensures hold { IfOk result (λ ws. All (λ w. Holds (S.present store.now) w) ws.items) }
    ensures values { IfOk result (λ ws. map (meaning (S.present store.now)) ws.items
        ≡ map (argument index) (map (meaning (S.present store.now)) words.now)) }
{
    let mut arguments = Vec::new(alloc);
    for word in words {
        arguments.push(store.arg(*word, index))?;
    }
    Ok(arguments)
}

/// The pair of what the two words stand for. The errors: the store is full, or memory was refused.
fn make_pair<S: Store>(
    alloc: Global,
    store: &mut S,
    first: S::Word,
    second: S::Word,
) -> Result<S::Word, StoreFault>
    requires first { Holds (S.present store.old) first }
    requires second { Holds (S.present store.old) second }
    ensures made { IfOk result (λ w. Comes (S.present store.old) (S.present store.new) w
        (pair (meaning (S.present store.old) first) (meaning (S.present store.old) second))) }
    ensures numbers { OnOk result (KeepsNumbers (S.present store.old) (S.present store.new)) }
    ensures full { result ≡ Err StoreFault.Full → S.full store.new }
    ensures cells { Takes S.Store store.old store.new 3 }
    ensures rest { Retains S.Store store.old store.new }
{
    let name = store.intern("-")?;
    let mut parts = Vec::with_capacity(alloc, 2)?;
    parts.push(first)?;
    parts.push(second)?;
    store.compound(name, parts.as_slice())
}

/// The template of bagof/3 and setof/3: the witness, which is the list of what these words stand for, and the pair of
/// it and the term of another word. The errors: the store is full, or memory was refused.
pub fn make_template<S: Store>(
    alloc: Global,
    store: &mut S,
    free: &[S::Word],
    item: S::Word,
) -> Result<(S::Word, S::Word), StoreFault>
    requires free { All (λ w. Holds (S.present store.old) w) free.now }
    requires item { Holds (S.present store.old) item }
    ensures witness { IfOk result (λ r. MakesList (S.present store.old) (S.present store.new) free.now r.0) }
    ensures pair { IfOk result (λ r. Comes (S.present store.old) (S.present store.new) r.1
        (pair (list_of (map (meaning (S.present store.old)) free.now)) (meaning (S.present store.old) item))) }
    ensures numbers { OnOk result (KeepsNumbers (S.present store.old) (S.present store.new)) }
    ensures full { result ≡ Err StoreFault.Full → S.full store.new }
    ensures cells { Takes S.Store store.old store.new (3 + list_made (length free.now)) }
    ensures rest { Retains S.Store store.old store.new }
{
    let witness = make_list(alloc, store, free)?;
    let pair = make_pair(alloc, store, witness, item)?;
    Ok((witness, pair))
}

/// Unifies the witness with each of these, and then the result with the list of the items, in the standard order and
/// each once where it sorts. The errors: the store is full, or memory was refused.
fn meet_copied<S: Store>(
    alloc: Global,
    store: &mut S,
    by: Meeting<S::Word>,
    witnesses: &[S::Word],
    items: &[S::Word],
) -> Result<Reply, Fault>
    requires witness { Holds (S.present store.old) by.witness }
    requires result { Holds (S.present store.old) by.result }
    requires witnesses { All (λ w. Holds (S.present store.old) w) witnesses.now }
    requires items { All (λ w. Holds (S.present store.old) w) items.now }
    ensures collected { IsCollected (S.present store.old) (S.present store.new) (meaning (S.present store.old) by.witness)
        (meaning (S.present store.old) by.result) by.sorts (map (meaning (S.present store.old)) witnesses.now)
        (map (meaning (S.present store.old)) items.now) result }
    ensures full { result ≡ Err Fault.Full → S.full store.new }
    ensures cells { (u : Subst) → Unifier (repeated (meaning (S.present store.old) by.witness)
        (map (meaning (S.present store.old)) witnesses.now)) (row (map (meaning (S.present store.old)) witnesses.now)) u
        → Takes S.Store store.old store.new (collected_made by.sorts (map (meaning (S.present store.old)) items.now) u) }
    ensures unmet { NeverEqual (repeated (meaning (S.present store.old) by.witness)
        (map (meaning (S.present store.old)) witnesses.now)) (row (map (meaning (S.present store.old)) witnesses.now))
        → Takes S.Store store.old store.new 0 }
    ensures rest { Retains S.Store store.old store.new }
{
    if !unify_all(store, by.witness, witnesses)? {
        return Ok(Reply::Fail);
    }
    equate_collection(alloc, store, by.sorts, items, by.result)
}

/// Words for the witnesses and the items of solutions.
#[derive(Drop)]
struct Copied<W: Copy> {
    witnesses: Vec<W>,
    items: Vec<W>,
}

/// The copy of the list of a group's solutions, with new variables, taken apart. The errors: the store is full, or
/// memory was refused, as it is for a list of more than 536,870,912 variables.
fn copy_solutions<S: Store>(
    alloc: Global,
    store: &mut S,
    group: Group,
) -> Result<Copied<S::Word>, StoreFault>
    requires whole { IsWhole group }
    requires next { (S.present store.old).next < 2 ^ 63 }
    requires fits { arities_fit (list_of (solutions_of group)) ≡ true }
    ensures copied { IfOk result (λ r. CopiesSolutions (S.present store.old) (S.present store.new) (list_of (solutions_of group))
        r.witnesses.items r.items.items) }
    ensures full { result ≡ Err StoreFault.Full → S.full store.new }
    ensures cells { Takes S.Store store.old store.new (size (list_of (solutions_of group))) }
    ensures rest { Retains S.Store store.old store.new }
{
    let solutions = group.into_list(alloc)?;
    let list = copied_few(alloc, store, &solutions)?;
    let pairs = elements(alloc, store, list)?.elements;
    let witnesses = arguments_at(alloc, store, pairs.as_slice(), 0)?;
    let items = arguments_at(alloc, store, pairs.as_slice(), 1)?;
    Ok(Copied { witnesses, items })
}

/// Tries a group: a copy of its solutions comes, with new variables; the witness is unified with each of theirs, and
/// then the result with the list of their items, in the standard order and each once where it sorts (8.10.2, 8.10.3).
/// The errors: the store is full, or memory was refused, as it is for more than 536,870,912 variables.
pub fn meet_group<S: Store>(
    alloc: Global,
    store: &mut S,
    by: Meeting<S::Word>,
    group: Group,
) -> Result<Reply, Fault>
    requires witness { Holds (S.present store.old) by.witness }
    requires result { Holds (S.present store.old) by.result }
    requires whole { IsWhole group }
    requires next { (S.present store.old).next < 2 ^ 63 }
    requires fits { arities_fit (list_of (solutions_of group)) ≡ true }
    ensures met { IsMet (S.present store.old) (S.present store.new) (meaning (S.present store.old) by.witness)
        (meaning (S.present store.old) by.result) by.sorts (list_of (solutions_of group)) result }
    ensures full { result ≡ Err Fault.Full → S.full store.new }
    ensures cells { (u : Subst) → Unifier (repeated (meaning (S.present store.old) by.witness)
        (witnesses (copy_in (S.present store.old) (list_of (solutions_of group)))))
        (row (witnesses (copy_in (S.present store.old) (list_of (solutions_of group))))) u
        → Takes S.Store store.old store.new (group_made (S.present store.old) by.sorts (list_of (solutions_of group)) u) }
    ensures unmet { NeverEqual (repeated (meaning (S.present store.old) by.witness)
        (witnesses (copy_in (S.present store.old) (list_of (solutions_of group)))))
        (row (witnesses (copy_in (S.present store.old) (list_of (solutions_of group)))))
        → Takes S.Store store.old store.new (size (list_of (solutions_of group))) }
    ensures rest { Retains S.Store store.old store.new }
{
    let copied = copy_solutions(alloc, store, group)?;
    let (witnesses, items) = (copied.witnesses.as_slice(), copied.items.as_slice());
    meet_copied(alloc, store, by, witnesses, items)
}
