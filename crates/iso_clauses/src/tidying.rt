//! What makes the database handier once clauses were removed. Nothing that a call answers changes by it.
ghost use Rattle.std.specs.Prelude.{◌≡◌, ◌≤◌, ◌+◌, ℕ, false, is_some, length, take, filter, map, IfOk};
ghost use Rattle.std.specs.List.{All};
ghost use Rattle.iso_clauses.specs.Blocks.{ids, passing, forgotten};
ghost use Rattle.iso_clauses.specs.Slots.{clause_at, IsCounted, Cleans, cleaned};
ghost use Rattle.iso_clauses.specs.Kept.{IsKept, Tidies};
ghost use Rattle.iso_clauses.specs.declared.slots.Label.{Label};

use super::blocks::Entry;
use super::ids::ClauseId;
use super::numbers::Block;
use super::slots::{Slot, is_given};
use std::alloc::{AllocError, Global};

/// How many of a block's first numbers are those of removed clauses, where so many are.
fn passed<C>(slots: &[Slot<C>], removals: usize, block: &Block, first: usize) -> usize
    requires within { first ≤ length block.now.front + length block.now.back }
    requires dead { All (λ n. is_some (clause_at slots.now removals n) ≡ false) (take first (ids block.now)) }
    ensures within { result ≤ length block.now.front + length block.now.back }
    ensures dead { All (λ n. is_some (clause_at slots.now removals n) ≡ false) (take result (ids block.now)) }
{
    let outer = block.outer();
    let end = block.len();
    for position in first..end {
        if is_given(slots, block.at(outer, position), removals) {
            return position;
        }
    }
    end
}

/// Lets new views of the procedure at this place begin behind the removed clauses that come first.
pub fn trim<C>(entries: &mut Vec<Entry>, slots: &[Slot<C>], removals: usize, place: usize)
    requires { (of : Label → ℕ) × (size : ℕ) × IsKept of slots.now removals size entries.old.items }
    ensures { (of : Label → ℕ) → Tidies of slots.now removals entries.old.items entries.new.items }
{
    if place >= entries.len() {
        return;
    }
    let entry = &mut entries[place];
    let first = passed(slots, removals, entry.current(), entry.first());
    entry.set_first(first);
}

/// Those of the numbers whose clauses are there still. The error is that memory was refused.
fn there<C>(
    alloc: Global,
    slots: &[Slot<C>],
    removals: usize,
    numbers: &[ClauseId],
) -> Result<Vec<ClauseId>, AllocError>
    ensures { IfOk result (λ v. v.items ≡ filter (λ n. is_some (clause_at slots.now removals n)) numbers.now) }
{
    numbers
        .iter()
        .copied()
        .filter(|id| is_given(slots, *id, removals))
        .collect(alloc)
}

/// A block of those of its numbers whose clauses are there still. The error is that memory was refused.
fn thinned<C>(
    alloc: Global,
    slots: &[Slot<C>],
    removals: usize,
    block: &Block,
) -> Result<Block, AllocError>
    ensures { IfOk result (λ b. b ≡ passing (λ n. is_some (clause_at slots.now removals n)) block.now) }
{
    let front = there(alloc, slots, removals, block.front())?;
    let back = there(alloc, slots, removals, block.back())?;
    Block::of(front, back)
}

/// Counts a removal for the procedure at this place, and gives it a block of the clauses that are there still once
/// more than half of its own were removed. Where memory is refused, it keeps its block.
fn thin_out<C>(
    alloc: Global,
    entries: &mut Vec<Entry>,
    slots: &[Slot<C>],
    removals: usize,
    place: usize,
)
    requires { (of : Label → ℕ) × (size : ℕ) × IsKept of slots.now removals size entries.old.items }
    ensures { (of : Label → ℕ) → Tidies of slots.now removals entries.old.items entries.new.items }
{
    if place >= entries.len() {
        return;
    }
    let entry = &mut entries[place];
    if !entry.count_removal() {
        return;
    }
    let Ok(block) = thinned(alloc, slots, removals, entry.current()) else {
        return;
    };
    if entry.renew(block).is_err() {
        return;
    }
}

/// Lets new views of the part of this clause begin behind the removed clauses that come first.
fn trim_part<C>(lists: &mut Vec<Entry>, slots: &[Slot<C>], removals: usize, id: ClauseId)
    requires { (of : Label → ℕ) × (size : ℕ) × IsKept of slots.now removals size lists.old.items }
    ensures { (of : Label → ℕ) → Tidies of slots.now removals lists.old.items lists.new.items }
{
    if let Some(slot) = slots.get(id.number()) {
        trim(lists, slots, removals, slot.label.part);
    }
}

/// Lets new views of the parts of these clauses begin behind the removed clauses that come first.
pub fn trim_parts<C>(lists: &mut Vec<Entry>, slots: &[Slot<C>], removals: usize, block: &Block)
    requires { (of : Label → ℕ) × (size : ℕ) × IsKept of slots.now removals size lists.old.items }
    ensures { (of : Label → ℕ) → Tidies of slots.now removals lists.old.items lists.new.items }
{
    let outer = block.outer();
    for position in 0..block.len() {
        let id = block.at(outer, position);
        trim_part(lists, slots, removals, id);
    }
}

/// Tidies a list of which a clause was removed.
fn tidy_list<C>(
    alloc: Global,
    lists: &mut Vec<Entry>,
    slots: &[Slot<C>],
    removals: usize,
    place: usize,
)
    requires { (of : Label → ℕ) × (size : ℕ) × IsKept of slots.now removals size lists.old.items }
    ensures { (of : Label → ℕ) → Tidies of slots.now removals lists.old.items lists.new.items }
{
    trim(lists, slots, removals, place);
    thin_out(alloc, lists, slots, removals, place);
}

/// Tidies the procedure and the part of a clause that was removed.
pub fn tidy<C>(
    alloc: Global,
    entries: &mut Vec<Entry>,
    lists: &mut Vec<Entry>,
    slots: &[Slot<C>],
    removals: usize,
    id: ClauseId,
)
    requires whole { (of : Label → ℕ) × (size : ℕ) × IsKept of slots.now removals size entries.old.items }
    requires parts { (of : Label → ℕ) × (size : ℕ) × IsKept of slots.now removals size lists.old.items }
    ensures whole { (of : Label → ℕ) → Tidies of slots.now removals entries.old.items entries.new.items }
    ensures parts { (of : Label → ℕ) → Tidies of slots.now removals lists.old.items lists.new.items }
{
    if let Some(slot) = slots.get(id.number()) {
        tidy_list(alloc, entries, slots, removals, slot.label.procedure);
        tidy_list(alloc, lists, slots, removals, slot.label.part);
    }
}

/// Gives the blocks back that only views made before need.
pub fn forget_blocks(entries: &mut Vec<Entry>)
    ensures { entries.new.items ≡ map forgotten entries.old.items }
{
    for entry in entries.iter_mut() {
        entry.forget_older();
    }
}

/// Drops what is kept of a clause that was removed.
fn forget_value<C: Drop>(slot: &mut Slot<C>)
    ensures { slot.new ≡ cleaned slot.old }
{
    if slot.died.is_some() {
        slot.value = None;
    }
}

/// Drops what is kept of clauses that were removed.
pub fn forget_values<C: Drop>(slots: &mut Vec<Slot<C>>, removals: usize)
    requires { IsCounted slots.old.items removals }
    ensures { Cleans slots.old.items slots.new.items removals }
{
    for place in 0..slots.len() {
        forget_value(&mut slots[place]);
    }
}
