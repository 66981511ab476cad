//! Copies of terms inside a heap, where the cell of a variable is the place of its first argument. What stands at one
//! place is copied once.
ghost use Rattle.std.specs.Prelude.{◌≡◌, ℕ, ◌+◌, ◌<◌, ◌≤◌, ◌^◌, IfOk, OnOk, length, map, take, slice_index_or, true};
ghost use Rattle.std.specs.List.{All};
ghost use Rattle.iso_model.specs.Terms.Trees.{Tree};
ghost use Rattle.iso_model.specs.Terms.Sizes.{size};
ghost use Rattle.iso_model.specs.Terms.Variables.{variable_count};
ghost use Rattle.iso_model.specs.Terms.Copies.{copy_from, numbers_from};
ghost use Rattle.iso_store_core.specs.Presents.{Holds, meaning, Gathers, Makes, MovesOn, Grows, NumbersHaveCells, KeepsMarks};
ghost use Rattle.iso_store_core.specs.Copying.{cells_of};
ghost use Rattle.iso_store_core.specs.Patterns.{IsNamed};
ghost use Rattle.iso_store.specs.Writing.{IsReady, part_cells};
ghost use Rattle.iso_store.specs.Plans.{IsPlan, sketch_of, with_part};
ghost use Rattle.iso_store.specs.HeapBuilds.{GoesOn, HaveCells, built, is_piece, known_pieces};

use super::duplicates::plan_copy;
use super::heap::Heap;
use super::heap_builds::{gather, make_integer, no_places};
use super::heap_cells::{HeapWord, Piece};
use super::primitives::Primitives;
use super::scratch::{keep, take_scratch};
use iso_store_core::{Part, StoreFault};
use std::alloc::Global;

/// What is known at this place: first the variables, by their places, and then these compounds.
fn known_piece(places: &[Option<usize>], compounds: &[HeapWord], place: usize) -> Piece
    requires { place < length places.now + length compounds.now }
    ensures { result ≡ slice_index_or (known_pieces (length places.now) compounds.now) place result }
{
    if place < places.len() {
        return Piece::Variable(place);
    }
    Piece::Word(compounds[place - places.len()])
}

/// Does what the part says with the pieces that came before it and those that are known. A compound that it makes is
/// known from then on.
fn make_planned(
    heap: &mut Heap,
    first: u64,
    part: Part,
    compounds: &mut Vec<HeapWord>,
    pieces: &mut Vec<Piece>,
    places: &mut Vec<Option<usize>>,
) -> Result<(), StoreFault>
    requires named { IsNamed (take heap.old.named heap.old.atoms) part }
    requires ready { IsReady (length places.old.items + length compounds.old.items) (length pieces.old.items) part }
    requires known { All (λ p. is_piece (take heap.old.named heap.old.atoms) heap.old.area.low (length places.old.items) p ≡ true) (known_pieces (length places.old.items) compounds.old.items) }
    requires pieces { All (λ p. is_piece (take heap.old.named heap.old.atoms) heap.old.area.low (length places.old.items) p ≡ true) pieces.old.items }
    requires cells { HaveCells heap.old.area.low first places.old.items }
    requires numbers { first + length places.old.items ≤ heap.old.next }
    ensures pieces { OnOk result (Gathers (built heap.old first (length places.old.items)) (built heap.new first (length places.old.items)) pieces.new.items
        (with_part (take heap.old.named heap.old.atoms) part (sketch_of (built heap.old first (length places.old.items)) pieces.old.items (known_pieces (length places.old.items) compounds.old.items))).terms) }
    ensures known { OnOk result (Gathers (built heap.old first (length places.old.items)) (built heap.new first (length places.old.items)) (known_pieces (length places.old.items) compounds.new.items)
        (with_part (take heap.old.named heap.old.atoms) part (sketch_of (built heap.old first (length places.old.items)) pieces.old.items (known_pieces (length places.old.items) compounds.old.items))).known) }
    ensures few { length heap.new.area.low ≤ length heap.old.area.low + part_cells 0 (λ n. n + 1) (length pieces.old.items) part }
    ensures cells { HaveCells heap.new.area.low first places.new.items }
    ensures count { length places.new.items ≡ length places.old.items }
    ensures goes_on { GoesOn first heap.old heap.new }
    ensures full { result ≡ Err StoreFault.Full → heap.new.area.capacity ≤ length heap.new.area.low + length heap.new.area.high }
{
    match part {
        Part::Variable(place) => {
            let piece = known_piece(places.as_slice(), compounds.as_slice(), place);
            pieces.push(piece)?;
        }
        Part::Integer(value) => {
            let word = make_integer(heap, first, value, places.as_slice())?;
            pieces.push(Piece::Word(word))?;
        }
        Part::Atom(name) => pieces.push(Piece::Word(HeapWord::Atom(name)))?,
        Part::Compound(name, count) => {
            gather(heap, first, name, count, pieces, places)?;
            let Piece::Word(word) = pieces[pieces.len() - 1] else {
                unreachable!()
            };
            compounds.push(word)?;
        }
    }
    Ok(())
}

/// The term of the plan, where the variables are known to begin with, by their places.
fn make_plan(
    alloc: Global,
    heap: &mut Heap,
    first: u64,
    parts: &[Part],
    places: &mut Vec<Option<usize>>,
) -> Result<Piece, StoreFault>
    requires plan { (t : Tree) × IsPlan (take heap.old.named heap.old.atoms) (map (built heap.old first (length places.old.items)).term (map Piece.Variable (numbers_from 0 (length places.old.items)))) parts.now t }
    requires cells { HaveCells heap.old.area.low first places.old.items }
    requires numbers { first + length places.old.items ≤ heap.old.next }
    ensures made { (t : Tree) → IsPlan (take heap.old.named heap.old.atoms) (map (built heap.old first (length places.old.items)).term (map Piece.Variable (numbers_from 0 (length places.old.items)))) parts.now t
        → IfOk result (λ p. Makes (built heap.old first (length places.old.items)) (built heap.new first (length places.old.items)) p t) }
    ensures few { (t : Tree) → IsPlan (take heap.old.named heap.old.atoms) (map (built heap.old first (length places.old.items)).term (map Piece.Variable (numbers_from 0 (length places.old.items)))) parts.now t
        → length heap.new.area.low ≤ length heap.old.area.low + cells_of 0 (λ n. n + 1) t }
    ensures goes_on { GoesOn first heap.old heap.new }
    ensures full { result ≡ Err StoreFault.Full → heap.new.area.capacity ≤ length heap.new.area.low + length heap.new.area.high }
{
    let mut compounds = Vec::new(alloc);
    let mut pieces = Vec::new(alloc);
    for part in parts {
        make_planned(heap, first, *part, &mut compounds, &mut pieces, places)?;
    }
    let Some(piece) = pieces.pop() else {
        unreachable!()
    };
    Ok(piece)
}

/// The copy of the term that the word stands for, with its variables numbered from the next number on by first
/// occurrence. A term of more than 536,870,912 variables is refused as memory is.
pub(crate) fn copy_in_place(
    alloc: Global,
    heap: &mut Heap,
    word: HeapWord,
) -> Result<HeapWord, StoreFault>
    requires word { Holds (⟦<Heap as Primitives>⟧.present heap.old) word }
    requires next { heap.old.next < 2 ^ 63 }
    ensures made { IfOk result (λ w. Makes (⟦<Heap as Primitives>⟧.present heap.old) (⟦<Heap as Primitives>⟧.present heap.new) w
        (copy_from (meaning (⟦<Heap as Primitives>⟧.present heap.old) word) heap.old.next)) }
    ensures numbers { OnOk result (MovesOn (⟦<Heap as Primitives>⟧.present heap.old) (⟦<Heap as Primitives>⟧.present heap.new)
        (variable_count (meaning (⟦<Heap as Primitives>⟧.present heap.old) word))) }
    ensures few { OnOk result (variable_count (meaning (⟦<Heap as Primitives>⟧.present heap.old) word) ≤ 536870912) }
    ensures cells { Grows (⟦<Heap as Primitives>⟧.present heap.old) (⟦<Heap as Primitives>⟧.present heap.new)
        (size (meaning (⟦<Heap as Primitives>⟧.present heap.old) word)) (variable_count (meaning (⟦<Heap as Primitives>⟧.present heap.old) word)) }
    ensures counted { OnOk result (NumbersHaveCells (⟦<Heap as Primitives>⟧.present heap.old) (⟦<Heap as Primitives>⟧.present heap.new)) }
    ensures full { result ≡ Err StoreFault.Full → ⟦<Heap as Primitives>⟧.full heap.new }
    ensures names { heap.new.atoms ≡ heap.old.atoms }
    ensures marks { KeepsMarks (⟦<Heap as Primitives>⟧.stands heap.old) (⟦<Heap as Primitives>⟧.stands heap.new) }
{
    let mut scratch = take_scratch(heap)?;
    let planned = plan_copy(alloc, &*heap, word, &mut scratch);
    keep(heap, scratch);
    let planned = planned?;
    let first = heap.reserve(planned.variables as u64);
    heap.know_names();
    let mut places = no_places(alloc, planned.variables)?;
    let parts = planned.parts.as_slice();
    match make_plan(alloc, heap, first, parts, &mut places)? {
        Piece::Word(word) => Ok(word),
        Piece::Variable(place) => Primitives::variable(heap, first + place as u64),
    }
}
