//! How two words of a heap meet that are at the end of their bindings, with variables that are bound at once.
ghost use Rattle.std.specs.Prelude.{◌≡◌, ◌≢◌, ℕ, IfOk, OnOk, MatchOption, Some, None, take, true, false};
ghost use Rattle.std.specs.List.{slice_get};
ghost use Rattle.iso_model.specs.Terms.Sorts.{is_term};
ghost use Rattle.iso_model.specs.Terms.Trees.{Variable};
ghost use Rattle.iso_model.specs.Terms.Substitutions.{Subst, apply};
ghost use Rattle.iso_model.specs.Terms.Variables.{occurs};
ghost use Rattle.iso_store_core.specs.Presents.{Holds, meaning, Binds, Grows, IsUnification, KeepsMarks};
ghost use Rattle.iso_store.specs.FlatCells.{is_unbound};
ghost use Rattle.iso_store.specs.HeapStores.{next_word};
ghost use Rattle.iso_store.specs.Meetings.{IsYounger, IsMeeting, IsMetFirst};

use super::heap::Heap;
use super::heap_cells::HeapWord;
use super::meetings::{Meeting, meet};
use super::primitives::Primitives;
use iso_area::Full;
use iso_store_core::{Shape, StoreFault};

/// Binds the unbound variable whose cell is at this place to what the word stands for, which is at the end of its
/// bindings.
#[inline(always)]
fn bind_end(heap: &mut Heap, place: usize, target: HeapWord) -> Result<(), StoreFault>
    requires unbound { is_unbound (slice_get heap.old.area.low place) ≡ true }
    requires holds { Holds (⟦<Heap as Primitives>⟧.present heap.old) target }
    requires end { next_word heap.old.area.low target ≡ None }
    requires absent { (n : ℕ) → meaning (⟦<Heap as Primitives>⟧.present heap.old) (HeapWord.Var place) ≡ Variable n → occurs n (meaning (⟦<Heap as Primitives>⟧.present heap.old) target) ≡ false }
    requires younger { (n : ℕ) → meaning (⟦<Heap as Primitives>⟧.present heap.old) (HeapWord.Var place) ≡ Variable n → IsYounger n (meaning (⟦<Heap as Primitives>⟧.present heap.old) target) }
    ensures unified { OnOk result (IsUnification (⟦<Heap as Primitives>⟧.present heap.old) (⟦<Heap as Primitives>⟧.present heap.new)
        (meaning (⟦<Heap as Primitives>⟧.present heap.old) (HeapWord.Var place)) (meaning (⟦<Heap as Primitives>⟧.present heap.old) target) true) }
    ensures places { OnOk result ((s : Subst) × Binds (⟦<Heap as Primitives>⟧.present heap.old) (⟦<Heap as Primitives>⟧.present heap.new) s
        × ((k : ℕ) → ⟦<Heap as Primitives>⟧.at_place heap.new k ≡ apply s (⟦<Heap as Primitives>⟧.at_place heap.old k))) }
    ensures cells { Grows (⟦<Heap as Primitives>⟧.present heap.old) (⟦<Heap as Primitives>⟧.present heap.new) 0 0 }
    ensures full { result ≡ Err StoreFault.Full → ⟦<Heap as Primitives>⟧.full heap.new }
    ensures names { heap.new.atoms ≡ heap.old.atoms }
    ensures marks { KeepsMarks (⟦<Heap as Primitives>⟧.stands heap.old) (⟦<Heap as Primitives>⟧.stands heap.new) }
{
    let number = heap.area.number(place);
    match heap.bind_place(number, place, target) {
        Ok(()) => Ok(()),
        Err(Full) => Err(StoreFault::Full),
    }
}

/// Makes two unbound variables one, whose cells are at these places: the younger is bound to the older.
#[inline(always)]
fn join_variables(heap: &mut Heap, one: usize, other: usize) -> Result<(), StoreFault>
    requires one { is_unbound (slice_get heap.old.area.low one) ≡ true }
    requires other { is_unbound (slice_get heap.old.area.low other) ≡ true }
    ensures unified { OnOk result (IsUnification (⟦<Heap as Primitives>⟧.present heap.old) (⟦<Heap as Primitives>⟧.present heap.new)
        (meaning (⟦<Heap as Primitives>⟧.present heap.old) (HeapWord.Var one)) (meaning (⟦<Heap as Primitives>⟧.present heap.old) (HeapWord.Var other)) true) }
    ensures places { OnOk result ((s : Subst) × Binds (⟦<Heap as Primitives>⟧.present heap.old) (⟦<Heap as Primitives>⟧.present heap.new) s
        × ((k : ℕ) → ⟦<Heap as Primitives>⟧.at_place heap.new k ≡ apply s (⟦<Heap as Primitives>⟧.at_place heap.old k))) }
    ensures cells { Grows (⟦<Heap as Primitives>⟧.present heap.old) (⟦<Heap as Primitives>⟧.present heap.new) 0 0 }
    ensures full { result ≡ Err StoreFault.Full → ⟦<Heap as Primitives>⟧.full heap.new }
    ensures names { heap.new.atoms ≡ heap.old.atoms }
    ensures marks { KeepsMarks (⟦<Heap as Primitives>⟧.stands heap.old) (⟦<Heap as Primitives>⟧.stands heap.new) }
{
    let first = heap.area.number(one);
    let second = heap.area.number(other);
    if first < second {
        return bind_end(heap, other, HeapWord::Var(one));
    }
    if second < first {
        return bind_end(heap, one, HeapWord::Var(other));
    }
    Ok(())
}

/// Binds the unbound variable whose cell is at this place to what the word stands for, which is no variable, and at the
/// end of its bindings; none then. Where it does not show that the variable does not occur there, its number; nothing
/// is bound then.
#[inline(always)]
fn bind_at_once(heap: &mut Heap, place: usize, target: HeapWord) -> Result<Option<u64>, StoreFault>
    requires unbound { is_unbound (slice_get heap.old.area.low place) ≡ true }
    requires holds { Holds (⟦<Heap as Primitives>⟧.present heap.old) target }
    requires end { next_word heap.old.area.low target ≡ None }
    requires other { (a : ℕ) → target ≢ HeapWord.Var a }
    ensures met { IfOk result (λ left. MatchOption left
        (IsUnification (⟦<Heap as Primitives>⟧.present heap.old) (⟦<Heap as Primitives>⟧.present heap.new)
        (meaning (⟦<Heap as Primitives>⟧.present heap.old) (HeapWord.Var place)) (meaning (⟦<Heap as Primitives>⟧.present heap.old) target) true)
        (λ number. (⟦<Heap as Primitives>⟧.present heap.new ≡ ⟦<Heap as Primitives>⟧.present heap.old)
        × (meaning (⟦<Heap as Primitives>⟧.present heap.old) (HeapWord.Var place) ≡ Variable number)
        × IsYounger number (meaning (⟦<Heap as Primitives>⟧.present heap.old) target))) }
    ensures places { OnOk result ((s : Subst) × Binds (⟦<Heap as Primitives>⟧.present heap.old) (⟦<Heap as Primitives>⟧.present heap.new) s
        × ((k : ℕ) → ⟦<Heap as Primitives>⟧.at_place heap.new k ≡ apply s (⟦<Heap as Primitives>⟧.at_place heap.old k))) }
    ensures cells { Grows (⟦<Heap as Primitives>⟧.present heap.old) (⟦<Heap as Primitives>⟧.present heap.new) 0 0 }
    ensures full { result ≡ Err StoreFault.Full → ⟦<Heap as Primitives>⟧.full heap.new }
    ensures names { heap.new.atoms ≡ heap.old.atoms }
    ensures marks { KeepsMarks (⟦<Heap as Primitives>⟧.stands heap.old) (⟦<Heap as Primitives>⟧.stands heap.new) }
{
    if !heap.is_end_apart(place, &target) {
        return Ok(Some(heap.area.number(place)));
    }
    match bind_end(heap, place, target) {
        Ok(()) => Ok(None),
        Err(fault) => Err(fault),
    }
}

/// How a variable meets what the other word stands for: its cell is at this place.
#[inline(always)]
fn meet_variable(heap: &mut Heap, place: usize, other: HeapWord) -> Result<Meeting, StoreFault>
    requires unbound { is_unbound (slice_get heap.old.area.low place) ≡ true }
    requires holds { Holds (⟦<Heap as Primitives>⟧.present heap.old) other }
    requires end { next_word heap.old.area.low other ≡ None }
    ensures met { IfOk result (IsMetFirst (⟦<Heap as Primitives>⟧.present heap.old) (⟦<Heap as Primitives>⟧.present heap.new)
        (meaning (⟦<Heap as Primitives>⟧.present heap.old) (HeapWord.Var place)) (meaning (⟦<Heap as Primitives>⟧.present heap.old) other)) }
    ensures places { OnOk result ((s : Subst) × Binds (⟦<Heap as Primitives>⟧.present heap.old) (⟦<Heap as Primitives>⟧.present heap.new) s
        × ((k : ℕ) → ⟦<Heap as Primitives>⟧.at_place heap.new k ≡ apply s (⟦<Heap as Primitives>⟧.at_place heap.old k))) }
    ensures cells { Grows (⟦<Heap as Primitives>⟧.present heap.old) (⟦<Heap as Primitives>⟧.present heap.new) 0 0 }
    ensures full { result ≡ Err StoreFault.Full → ⟦<Heap as Primitives>⟧.full heap.new }
    ensures names { heap.new.atoms ≡ heap.old.atoms }
    ensures marks { KeepsMarks (⟦<Heap as Primitives>⟧.stands heap.old) (⟦<Heap as Primitives>⟧.stands heap.new) }
{
    if let HeapWord::Var(at) = other {
        join_variables(heap, place, at)?;
        return Ok(Meeting::Same);
    }
    match bind_at_once(heap, place, other)? {
        None => Ok(Meeting::Same),
        Some(number) => Ok(Meeting::FirstVariable(number)),
    }
}

/// How what the words stand for meets. It is told apart first what the first one is: so no shape goes through memory.
#[inline(never)]
fn meet_shapes(heap: &Heap, one: HeapWord, other: HeapWord) -> Meeting
    requires one { Holds (⟦<Heap as Primitives>⟧.present heap.now) one }
    requires other { Holds (⟦<Heap as Primitives>⟧.present heap.now) other }
    ensures meeting { IsMeeting result (meaning (⟦<Heap as Primitives>⟧.present heap.now) one) (meaning (⟦<Heap as Primitives>⟧.present heap.now) other) }
    ensures one_term { is_term (meaning (⟦<Heap as Primitives>⟧.present heap.now) one) ≡ true }
    ensures other_term { is_term (meaning (⟦<Heap as Primitives>⟧.present heap.now) other) ≡ true }
{
    match Primitives::shape(heap, one) {
        Shape::Var(number) => meet(Shape::Var(number), Primitives::shape(heap, other)),
        Shape::Int(value) => meet(Shape::Int(value), Primitives::shape(heap, other)),
        Shape::Atom(name) => meet(Shape::Atom(name), Primitives::shape(heap, other)),
        Shape::Compound(name, count) => {
            meet(Shape::Compound(name, count), Primitives::shape(heap, other))
        }
    }
}

/// How two compounds meet whose functors are at these places.
#[inline(always)]
fn meet_compounds(heap: &Heap, one: usize, other: usize) -> Meeting
    requires one { Holds (⟦<Heap as Primitives>⟧.present heap.now) (HeapWord.Structure one) }
    requires other { Holds (⟦<Heap as Primitives>⟧.present heap.now) (HeapWord.Structure other) }
    ensures meeting { IsMeeting result (meaning (⟦<Heap as Primitives>⟧.present heap.now) (HeapWord.Structure one)) (meaning (⟦<Heap as Primitives>⟧.present heap.now) (HeapWord.Structure other)) }
    ensures one_term { is_term (meaning (⟦<Heap as Primitives>⟧.present heap.now) (HeapWord.Structure one)) ≡ true }
    ensures other_term { is_term (meaning (⟦<Heap as Primitives>⟧.present heap.now) (HeapWord.Structure other)) ≡ true }
{
    meet(heap.compound_shape(one), heap.compound_shape(other))
}

/// As `meet_shapes`, with compounds told apart at once.
#[inline(always)]
fn meet_bodies(heap: &Heap, one: HeapWord, other: HeapWord) -> Meeting
    requires one { Holds (⟦<Heap as Primitives>⟧.present heap.now) one }
    requires other { Holds (⟦<Heap as Primitives>⟧.present heap.now) other }
    ensures meeting { IsMeeting result (meaning (⟦<Heap as Primitives>⟧.present heap.now) one) (meaning (⟦<Heap as Primitives>⟧.present heap.now) other) }
    ensures one_term { is_term (meaning (⟦<Heap as Primitives>⟧.present heap.now) one) ≡ true }
    ensures other_term { is_term (meaning (⟦<Heap as Primitives>⟧.present heap.now) other) ≡ true }
{
    let HeapWord::Structure(first) = one else {
        return meet_shapes(heap, one, other);
    };
    let HeapWord::Structure(second) = other else {
        return meet_shapes(heap, one, other);
    };
    meet_compounds(heap, first, second)
}

/// How two words meet that are at the end of their bindings, the first of which is no variable.
#[inline(always)]
fn meet_bound(heap: &mut Heap, one: HeapWord, other: HeapWord) -> Result<Meeting, StoreFault>
    requires one { Holds (⟦<Heap as Primitives>⟧.present heap.old) one }
    requires other { Holds (⟦<Heap as Primitives>⟧.present heap.old) other }
    requires one_end { next_word heap.old.area.low one ≡ None }
    requires other_end { next_word heap.old.area.low other ≡ None }
    requires bound { (a : ℕ) → one ≢ HeapWord.Var a }
    ensures met { IfOk result (IsMetFirst (⟦<Heap as Primitives>⟧.present heap.old) (⟦<Heap as Primitives>⟧.present heap.new)
        (meaning (⟦<Heap as Primitives>⟧.present heap.old) one) (meaning (⟦<Heap as Primitives>⟧.present heap.old) other)) }
    ensures places { OnOk result ((s : Subst) × Binds (⟦<Heap as Primitives>⟧.present heap.old) (⟦<Heap as Primitives>⟧.present heap.new) s
        × ((k : ℕ) → ⟦<Heap as Primitives>⟧.at_place heap.new k ≡ apply s (⟦<Heap as Primitives>⟧.at_place heap.old k))) }
    ensures cells { Grows (⟦<Heap as Primitives>⟧.present heap.old) (⟦<Heap as Primitives>⟧.present heap.new) 0 0 }
    ensures full { result ≡ Err StoreFault.Full → ⟦<Heap as Primitives>⟧.full heap.new }
    ensures names { heap.new.atoms ≡ heap.old.atoms }
    ensures marks { KeepsMarks (⟦<Heap as Primitives>⟧.stands heap.old) (⟦<Heap as Primitives>⟧.stands heap.new) }
{
    if let HeapWord::Var(place) = other {
        return match bind_at_once(heap, place, one)? {
            None => Ok(Meeting::Same),
            Some(number) => Ok(Meeting::SecondVariable(number)),
        };
    }
    if one == other {
        return Ok(Meeting::Same);
    }
    Ok(meet_bodies(heap, one, other))
}

/// How two words meet that are at the end of their bindings. A variable is bound at once where it shows without a
/// search that it may be: then they are the same.
#[inline(always)]
pub(crate) fn meet_at_once(
    heap: &mut Heap,
    one: HeapWord,
    other: HeapWord,
) -> Result<Meeting, StoreFault>
    requires one { Holds (⟦<Heap as Primitives>⟧.present heap.old) one }
    requires other { Holds (⟦<Heap as Primitives>⟧.present heap.old) other }
    requires one_end { next_word heap.old.area.low one ≡ None }
    requires other_end { next_word heap.old.area.low other ≡ None }
    ensures met { IfOk result (IsMetFirst (⟦<Heap as Primitives>⟧.present heap.old) (⟦<Heap as Primitives>⟧.present heap.new)
        (meaning (⟦<Heap as Primitives>⟧.present heap.old) one) (meaning (⟦<Heap as Primitives>⟧.present heap.old) other)) }
    ensures places { OnOk result ((s : Subst) × Binds (⟦<Heap as Primitives>⟧.present heap.old) (⟦<Heap as Primitives>⟧.present heap.new) s
        × ((k : ℕ) → ⟦<Heap as Primitives>⟧.at_place heap.new k ≡ apply s (⟦<Heap as Primitives>⟧.at_place heap.old k))) }
    ensures cells { Grows (⟦<Heap as Primitives>⟧.present heap.old) (⟦<Heap as Primitives>⟧.present heap.new) 0 0 }
    ensures full { result ≡ Err StoreFault.Full → ⟦<Heap as Primitives>⟧.full heap.new }
    ensures names { heap.new.atoms ≡ heap.old.atoms }
    ensures marks { KeepsMarks (⟦<Heap as Primitives>⟧.stands heap.old) (⟦<Heap as Primitives>⟧.stands heap.new) }
{
    match one {
        HeapWord::Var(place) => meet_variable(heap, place, other),
        HeapWord::Structure(_) | HeapWord::Int(_) | HeapWord::Boxed(_) | HeapWord::Atom(_) => {
            meet_bound(heap, one, other)
        }
    }
}
