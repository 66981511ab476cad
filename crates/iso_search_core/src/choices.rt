//! Choices, and what is left to be tried at each.
ghost use Rattle.std.specs.Prelude.{◌≡◌, ℕ, ◌+◌, ◌<◌, ◌≤◌, IfOk, OnOk, OnErr, length, slice_get, Some, Vec};
ghost use Rattle.std.specs.Global.{Global};
ghost use Rattle.iso_store_core.specs.Retaining.{Retains};
ghost use Rattle.iso_search_core.specs.Standing.{GainsChoice};
ghost use Rattle.iso_search_core.specs.Solutions.{Gains};
ghost use Rattle.iso_search_core.specs.Gathering.{ChangesAt, SameCopies};
ghost use Rattle.iso_search_core.specs.GroupsLeft.{LeavesGroups, AreGroupsLeft};
ghost use Rattle.iso_model.specs.Terms.Trees.{Tree};
ghost use Rattle.iso_search_core.specs.Offers.{AreRows, rows_in};
ghost use Rattle.iso_search_core.specs.Taking.{TakesOffer};
ghost use Rattle.iso_search_core.specs.declared.offers.Offers as kept_rows;
ghost use Rattle.iso_search_core.specs.declared.choices.Left.TheVariants as left;
ghost use Rattle.iso_search_core.specs.declared.choices.Choice as kept;
ghost use Rattle.iso_model.specs.Terms.TermOf.{term_of};

use super::offers::{OfferedRow, Offers};
use super::pairs::Pairs;
use super::solutions::Gathered;
use iso_db::{ClauseId, KeyedView};
use iso_lib::{Group, Meeting, groups};
use iso_model::{NoMemory, Term};
use iso_program::showing::Showing;
use iso_store_core::Store;
use std::alloc::{AllocError, Global};

/// A clause to be entered for a call, and a view of those behind it.
#[derive(Clone, Copy)]
pub struct Attempt<C> {
    pub clause: ClauseId,
    pub later: KeyedView,
    pub call: C,
}

/// What is left to be tried at a choice, before the list behind it.
#[derive(Drop)]
pub enum Left<W, C> {
    /// The list as it is.
    AsIs,
    /// The list, again and again (8.15.3).
    Again,
    /// The clauses from this one on.
    Clauses(Attempt<C>),
    /// Nothing: it is the entry of the catch that this goal calls (7.8.9).
    Catching(W),
    /// To unify this word, the result of a findall/3, with the list of what was gathered (8.10.1).
    Gathering(W, Gathered),
    /// The groups of what was gathered for a bagof/3 or setof/3, which come so (8.10.2, 8.10.3).
    Grouping(Meeting<W>, Pairs),
    /// These groups, the last of which comes first.
    Groups(Meeting<W>, Vec<Group>),
    /// To unify the arguments of this goal with rows.
    Offered(W, Offers),
    /// The heads and bodies of the clauses from this one on.
    Shown(Showing<W>),
}

/// What is left to be tried, what to go back to first, and where the list behind it begins.
#[derive(Drop)]
pub struct Choice<W, M, K, P, C> {
    pub mark: M,
    /// How much of lists stood when it was made.
    pub kept: K,
    pub rest: P,
    pub left: Left<W, C>,
}

/// Appends a choice at which this is left to be tried, with a mark of the store as it is. The error is that memory was
/// refused.
#[inline(always)]
pub fn keep_choice<S: Store, K: Copy, P: Copy, C: Copy>(
    store: &mut S,
    choices: &mut Vec<Choice<S::Word, S::Mark, K, P, C>>,
    kept: K,
    rest: P,
    left: Left<S::Word, C>,
) -> Result<(), AllocError>
    ensures present { S.present store.new ≡ S.present store.old }
    ensures rest { Retains S.Store store.old store.new }
    ensures gains { OnOk result (GainsChoice (S.stands store.old) (S.stands store.new) S.older (S.present store.old) kept rest left
        choices.old.items choices.new.items) }
    ensures kept { OnErr result (choices.new.items ≡ choices.old.items) }
    ensures count { length choices.new.items ≤ length choices.old.items + 1 }
{
    let mark = store.mark();
    choices.push(Choice {
        mark,
        kept,
        rest,
        left,
    })?;
    Ok(())
}

/// Adds a copy of the solution to what is gathered at the choice at this place; where none stands there, or it
/// gathers nothing, nothing changes. The error is that memory was refused.
pub fn gather<W, M, K, P, C>(
    alloc: Global,
    choices: &mut Vec<Choice<W, M, K, P, C>>,
    place: usize,
    solution: &Term,
) -> Result<(), NoMemory>
    ensures gains { OnOk result (ChangesAt (Gains (term_of solution.now)) place choices.old.items choices.new.items) }
    ensures kept { OnErr result (ChangesAt SameCopies place choices.old.items choices.new.items) }
{
    if place >= choices.len() {
        return Ok(());
    }
    match &mut choices[place].left {
        Left::Gathering(_, gathered) => gathered.add(alloc, solution),
        Left::Grouping(_, pairs) => pairs.add(alloc, solution),
        _ => Ok(()),
    }
}

/// Takes the row that comes first at the choice at this place, where it has rows; and whether it was the last one.
pub fn take_offer<W, M, K, P, C>(
    choices: &mut Vec<Choice<W, M, K, P, C>>,
    place: usize,
) -> Option<(OfferedRow, bool)>
    requires there { place < length choices.old.items }
    requires each { (c : kept.Choice W M K P C) (goal : W) (offers : kept_rows.Offers) → slice_get choices.old.items place ≡ Some c
        → c.left ≡ left.Offered goal offers → (t : Tree) × AreRows t offers }
    ensures { (c : kept.Choice W M K P C) (goal : W) (offers : kept_rows.Offers) → slice_get choices.old.items place ≡ Some c
        → c.left ≡ left.Offered goal offers → 0 < length (rows_in offers)
        → TakesOffer c goal offers place choices.old.items choices.new.items result }
{
    match &mut choices[place].left {
        Left::Offered(_, offers) => {
            let row = offers.take()?;
            Some((row, offers.is_empty()))
        }
        _ => None,
    }
}

/// How the groups come that this leaves to be met, and these groups, the last of which comes first. The error is that
/// memory was refused.
pub fn groups_left<W: Copy, C: Copy>(
    alloc: Global,
    left: Left<W, C>,
) -> Result<(Meeting<W>, Vec<Group>), NoMemory>
    requires { LeavesGroups left }
    ensures { IfOk result (λ r. AreGroupsLeft left r.0 r.1.items) }
{
    match left {
        Left::Groups(by, groups) => Ok((by, groups)),
        Left::Grouping(by, pairs) => {
            let mut groups = groups(alloc, pairs.pairs)?;
            groups.reverse();
            Ok((by, groups))
        }
        _ => unreachable!(),
    }
}
