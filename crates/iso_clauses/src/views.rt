//! Views: the clauses of a procedure as they were at some time (7.5.4).
ghost use Rattle.std.specs.Prelude.{◌≡◌, ◌≤◌, ◌<◌, ◌+◌, ◌-◌, ◌^◌, ◌∷◌, [], ℕ, List, Some, length, drop, take, IfSome, MatchOption};
ghost use Rattle.std.specs.List.{slice_get};
ghost use Rattle.iso_clauses.specs.Blocks.{ids_from};
ghost use Rattle.iso_clauses.specs.Clauses.{Clause};
ghost use Rattle.iso_clauses.specs.Slots.{given, value_at};
ghost use Rattle.iso_clauses.specs.Stepping.{Steps, first_number, behind};
ghost use Rattle.iso_clauses.specs.Kept.{Giving, view_now};

use super::blocks::Entry;
use super::ids::ClauseId;
use super::numbers::Block;
use super::slots::{Slot, is_given};

/// The clauses of a procedure at the making of the view that it has still to give.
#[derive(Clone, Copy, Debug)]
pub struct View {
    /// The place of the procedure.
    pub procedure: usize,
    /// The number of its block.
    pub block: usize,
    /// How many numbers the front of the block had.
    pub outer: usize,
    /// The position of the next number.
    pub next: usize,
    /// The position behind the last number.
    pub end: usize,
    /// How many clauses had been removed.
    pub made: usize,
}

/// A view of the clauses of a list as they are now.
#[inline(always)]
pub fn view_of(entry: &Entry, list: usize, removals: usize) -> View
    ensures { result ≡ view_now list removals entry.now }
{
    let numbers = entry.current();
    View {
        procedure: list,
        block: entry.latest(),
        outer: numbers.outer(),
        next: entry.first(),
        end: numbers.len(),
        made: removals,
    }
}

/// The next clause of the view, whose block this is, and the position behind it.
#[inline(always)]
fn step<C>(slots: &[Slot<C>], block: &Block, view: View) -> (Option<ClauseId>, usize)
    requires outer { view.outer ≤ length block.now.front }
    requires end { view.end ≤ view.outer + length block.now.back }
    ensures steps { Steps (given slots.now view.made (drop view.next (take view.end (ids_from block.now view.outer)))) result.0
        (given slots.now view.made (drop result.1 (take view.end (ids_from block.now view.outer)))) }
    ensures few { view.end - result.1 < 2 ^ 64 }
    ensures later { view.end - result.1 ≤ view.end - view.next }
    ensures falls { IfSome result.0 (λ id. view.end - result.1 < view.end - view.next) }
{
    let mut next = view.next;
    while next < view.end {
        let id = block.at(view.outer, next);
        next += 1;
        if is_given(slots, id, view.made) {
            return (Some(id), next);
        }
    }
    (None, next)
}

/// The next clause of a view of one of these lists.
#[inline(always)]
pub fn next_from<C>(slots: &Vec<Slot<C>>, lists: &Vec<Entry>, view: &mut View) -> Option<ClauseId>
    requires { (removals : ℕ) × (cs : List (Clause C)) × Giving slots.now.items removals lists.now.items view.old cs }
    ensures first { (removals : ℕ) (cs : List (Clause C)) → Giving slots.now.items removals lists.now.items view.old cs
        → result ≡ first_number cs }
    ensures rest { (removals : ℕ) (cs : List (Clause C)) → Giving slots.now.items removals lists.now.items view.old cs
        → Giving slots.now.items removals lists.now.items view.new (behind cs) }
    ensures stand { (removals : ℕ) (cs : List (Clause C)) → Giving slots.now.items removals lists.now.items view.old cs
        → (k : ℕ) (c : Clause C) → slice_get cs k ≡ Some c → value_at slots.now.items c.number ≡ Some c.value }
    ensures there { IfSome result (λ id. (value : C) × (value_at slots.now.items id ≡ Some value)) }
    ensures falls { IfSome result (λ id. view.new.end - view.new.next < view.old.end - view.old.next) }
    ensures never_rises { view.new.end - view.new.next ≤ view.old.end - view.old.next }
    ensures few { view.new.end - view.new.next < 2 ^ 64 }
{
    if view.next >= view.end {
        return None;
    }
    let block = lists[view.procedure].block(view.block);
    let (clause, next) = step(slots.as_slice(), block, *view);
    view.next = next;
    clause
}
