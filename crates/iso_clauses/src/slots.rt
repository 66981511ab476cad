//! What is kept of each clause that was ever added.
ghost use Rattle.std.specs.Prelude.{◌≡◌, ◌<◌, ℕ, length, is_some};
ghost use Rattle.iso_clauses.specs.Slots.{lives, given_by, clause_at, procedure_at, is_place, is_front, IsCounted, Removes, Clears};
ghost use Rattle.iso_clauses.specs.Blocks.{ids};

use super::blocks::Side;
use super::ids::ClauseId;
use super::keys::FirstKey;
use super::numbers::Block;

/// Where a clause stands.
#[derive(Clone, Copy)]
pub struct Label {
    /// The place of its procedure.
    pub procedure: usize,
    /// The number of its part of the procedure: of the clauses with the same key.
    pub part: usize,
    /// The side at which it was added.
    pub side: Side,
    /// Its key, if it has one.
    pub key: Option<FirstKey>,
}

/// What is kept of a clause.
#[derive(Drop)]
pub struct Slot<C> {
    /// How many clauses had been removed before it was.
    pub died: Option<usize>,
    /// What the engine keeps of it, as long as the database or a view can give it. It begins in the cache line that each
    /// look for a clause reads.
    pub value: Option<C>,
    /// Where it stands.
    pub label: Label,
}

/// Whether a view that was made after so many removals gives a clause that died then.
#[inline(always)]
fn lives(died: Option<usize>, made: usize) -> bool
    ensures { result ≡ lives made died }
{
    match died {
        None => true,
        Some(removals) => made <= removals,
    }
}

/// Whether a view that was made after so many removals gives the clause of this slot, if its block has it.
#[inline(always)]
pub fn is_there<C>(slot: &Slot<C>, made: usize) -> bool
    ensures { (number : ℕ) → result ≡ is_some (given_by made number slot.now) }
{
    slot.value.is_some() && lives(slot.died, made)
}

/// Whether a view that was made after so many removals gives the clause of this number, if its block has it.
#[inline(always)]
pub fn is_given<C>(slots: &[Slot<C>], id: ClauseId, made: usize) -> bool
    ensures { result ≡ is_some (clause_at slots.now made id) }
{
    let place = id.number();
    if place >= slots.len() {
        return false;
    }
    is_there(&slots[place], made)
}

/// Whether the clause of this number was added to the procedure at this place.
pub fn belongs<C>(slots: &[Slot<C>], id: ClauseId, place: usize) -> bool
    ensures { result ≡ is_place place (procedure_at slots.now id) }
{
    let number = id.number();
    number < slots.len() && slots[number].label.procedure == place
}

/// Whether the clause of this number was added at the front.
pub fn is_front<C>(slots: &[Slot<C>], id: ClauseId) -> bool
    ensures { result ≡ is_front slots.now id }
{
    let number = id.number();
    if number >= slots.len() {
        return false;
    }
    match slots[number].label.side {
        Side::First => true,
        Side::Last => false,
    }
}

/// Removes the clause of this number, unless it was removed before.
pub fn kill<C>(slots: &mut Vec<Slot<C>>, removals: &mut usize, id: ClauseId) -> bool
    requires { IsCounted slots.old.items removals.old }
    ensures removed { result ≡ is_some (clause_at slots.old.items removals.old id) }
    ensures removes { Removes id slots.old.items removals.old slots.new.items removals.new }
    ensures counted { IsCounted slots.new.items removals.new }
{
    if !is_given(slots.as_slice(), id, *removals) {
        return false;
    }
    slots[id.number()].died = Some(*removals);
    *removals += 1;
    true
}

/// Removes the clauses of a block that were not removed before.
pub fn kill_all<C>(slots: &mut Vec<Slot<C>>, removals: &mut usize, block: &Block)
    requires { IsCounted slots.old.items removals.old }
    ensures cleared { Clears (ids block.now) slots.old.items removals.old slots.new.items removals.new }
    ensures counted { IsCounted slots.new.items removals.new }
{
    let outer = block.outer();
    for position in 0..block.len() {
        let id = block.at(outer, position);
        let _removed = kill(slots, removals, id);
    }
}
