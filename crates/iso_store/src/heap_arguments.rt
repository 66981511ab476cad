//! The arguments of compounds, pushed behind the cells of a heap.
ghost use Rattle.std.specs.Prelude.{◌≡◌, ◌≢◌, ℕ, ◌+◌, ◌≤◌, ◌++◌, OnOk, length, map, take, true};
ghost use Rattle.std.specs.List.{All, list_any};
ghost use Rattle.iso_store.specs.HeapStores.{has_cell_number, is_word};
ghost use Rattle.iso_store.specs.HeapTerms.{variable_cells};
ghost use Rattle.iso_store.specs.HeapBuilds.{GoesOn};
ghost use Rattle.iso_store.specs.Writing.{IsPlace, picked};

use super::heap::Heap;
use super::heap_cells::{Cell, HeapWord};
use iso_store_core::{Part, StoreFault};

/// Pushes the arguments of a compound; some of them where there is no room for all.
pub(crate) fn push_arguments(heap: &mut Heap, arguments: &[HeapWord]) -> Result<(), StoreFault>
    requires { All (λ w. is_word (take heap.old.named heap.old.atoms) heap.old.area.low w ≡ true) arguments.now }
    ensures pushed { OnOk result (heap.new.area.low ≡ heap.old.area.low ++ map Cell.Argument arguments.now) }
    ensures few { length heap.new.area.low ≤ length heap.old.area.low + length arguments.now }
    ensures goes_on { GoesOn 0 heap.old heap.new }
    ensures taken { (n : ℕ) → list_any (has_cell_number n) heap.new.area.low ≡ list_any (has_cell_number n) heap.old.area.low }
    ensures variables { variable_cells heap.new.area.low ≡ variable_cells heap.old.area.low }
    ensures never { result ≢ Err StoreFault.NoMemory }
    ensures full { result ≡ Err StoreFault.Full → heap.new.area.capacity ≤ length heap.new.area.low + length heap.new.area.high }
{
    let mut done = 0;
    while done < arguments.len() {
        heap.push(Cell::Argument(arguments[done]))?;
        done += 1;
    }
    Ok(())
}

/// Pushes the words at the places of these parts, each a variable, as arguments; some of them where there is no room
/// for all.
pub(crate) fn push_places(
    heap: &mut Heap,
    places: &[Part],
    variables: &[HeapWord],
) -> Result<(), StoreFault>
    requires places { All (IsPlace (length variables.now)) places.now }
    requires variables { All (λ w. is_word (take heap.old.named heap.old.atoms) heap.old.area.low w ≡ true) variables.now }
    ensures pushed { OnOk result (heap.new.area.low ≡ heap.old.area.low ++ map Cell.Argument (picked variables.now places.now)) }
    ensures few { length heap.new.area.low ≤ length heap.old.area.low + length places.now }
    ensures goes_on { GoesOn 0 heap.old heap.new }
    ensures taken { (n : ℕ) → list_any (has_cell_number n) heap.new.area.low ≡ list_any (has_cell_number n) heap.old.area.low }
    ensures variables { variable_cells heap.new.area.low ≡ variable_cells heap.old.area.low }
    ensures never { result ≢ Err StoreFault.NoMemory }
    ensures full { result ≡ Err StoreFault.Full → heap.new.area.capacity ≤ length heap.new.area.low + length heap.new.area.high }
{
    let mut done = 0;
    while done < places.len() {
        let part = places[done];
        let Part::Variable(place) = part else {
            unreachable!()
        };
        heap.push(Cell::Argument(variables[place]))?;
        done += 1;
    }
    Ok(())
}
