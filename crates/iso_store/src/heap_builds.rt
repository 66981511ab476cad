//! Terms built in a heap, where the cell of a variable is the place of its first argument.
ghost use Rattle.std.specs.Prelude.{◌≡◌, ◌≢◌, ℕ, ◌+◌, ◌<◌, ◌≤◌, ◌^◌, ◌∷◌, [], IfOk, OnOk, length, map, replicate, take, slice_get, true, false, None};
ghost use Rattle.std.specs.List.{All};
ghost use Rattle.iso_atoms.specs.Texts.{KeepsTexts, text_at};
ghost use Rattle.iso_model.specs.Terms.Building.{Gather, with_step};
ghost use Rattle.iso_model.specs.Terms.Trees.{Tree, Variable, Integer, Apply, row, arities_fit};
ghost use Rattle.iso_model.specs.Terms.TermOf.{term_of};
ghost use Rattle.iso_model.specs.Terms.Sizes.{size};
ghost use Rattle.iso_model.specs.Terms.Variables.{occurs, variable_count};
ghost use Rattle.iso_model.specs.Terms.Copies.{copy_from, renamed};
ghost use Rattle.iso_model.specs.Terms.Substitutions.{apply};
ghost use Rattle.iso_store_core.specs.Presents.{Gathers, Makes, MovesOn, Grows, NumbersHaveCells, KeepsMarks};
ghost use Rattle.iso_store_core.specs.Copying.{cells_of, wide_cells};
ghost use Rattle.iso_store_core.specs.Patterns.{IsNamed, IsPattern, part_step};
ghost use Rattle.iso_store.specs.Writing.{IsFitPattern, IsReady, part_cells, taken};
ghost use Rattle.iso_store.specs.HeapBuilds.{ArePushed, GoesOn, HaveCells, IsPushed, built, is_piece, numbered};

use super::heap::Heap;
use super::heap_cells::{Cell, HeapWord, Piece};
use super::patterns::{Places, written};
use super::primitives::Primitives;
use iso_atoms::Atom;
use iso_model::{NoMemory, Numbering, Term};
use iso_store_core::{Part, StoreFault};
use std::alloc::Global;

/// Pushes the cell of an argument: the variable itself, where it has no cell yet.
fn push_piece(
    heap: &mut Heap,
    first: u64,
    piece: Piece,
    places: &mut Vec<Option<usize>>,
) -> Result<(), StoreFault>
    requires piece { is_piece (take heap.old.named heap.old.atoms) heap.old.area.low (length places.old.items) piece ≡ true }
    requires cells { HaveCells heap.old.area.low first places.old.items }
    requires numbers { first + length places.old.items ≤ heap.old.next }
    ensures pushed { OnOk result (IsPushed (take heap.old.named heap.old.atoms) first heap.old.area.low heap.new.area.low piece) }
    ensures few { length heap.new.area.low ≤ length heap.old.area.low + 1 }
    ensures cells { HaveCells heap.new.area.low first places.new.items }
    ensures count { length places.new.items ≡ length places.old.items }
    ensures others { (k : ℕ) → piece ≢ Piece.Variable k → slice_get places.new.items k ≡ slice_get places.old.items k }
    ensures goes_on { GoesOn first heap.old heap.new }
    ensures full { result ≡ Err StoreFault.Full → heap.new.area.capacity ≤ length heap.new.area.low + length heap.new.area.high }
{
    match piece {
        Piece::Word(word) => {
            heap.push(Cell::Argument(word))?;
        }
        Piece::Variable(index) => match places[index] {
            Some(place) => {
                heap.push(Cell::Argument(HeapWord::Var(place)))?;
            }
            None => {
                let place = heap.push(Cell::Unbound(first + index as u64))?;
                places[index] = Some(place);
            }
        },
    }
    Ok(())
}

/// Pushes the cells of arguments; some of them where there is no room for all.
fn push_pieces(
    heap: &mut Heap,
    first: u64,
    pieces: &[Piece],
    places: &mut Vec<Option<usize>>,
) -> Result<(), StoreFault>
    requires pieces { All (λ p. is_piece (take heap.old.named heap.old.atoms) heap.old.area.low (length places.old.items) p ≡ true) pieces.now }
    requires cells { HaveCells heap.old.area.low first places.old.items }
    requires numbers { first + length places.old.items ≤ heap.old.next }
    ensures pushed { OnOk result (ArePushed (take heap.old.named heap.old.atoms) first heap.old.area.low heap.new.area.low pieces.now) }
    ensures few { length heap.new.area.low ≤ length heap.old.area.low + length pieces.now }
    ensures cells { HaveCells heap.new.area.low first places.new.items }
    ensures count { length places.new.items ≡ length places.old.items }
    ensures others { (k : ℕ) → All (λ p. p ≢ Piece.Variable k) pieces.now → slice_get places.new.items k ≡ slice_get places.old.items k }
    ensures goes_on { GoesOn first heap.old heap.new }
    ensures full { result ≡ Err StoreFault.Full → heap.new.area.capacity ≤ length heap.new.area.low + length heap.new.area.high }
{
    for piece in pieces {
        push_piece(heap, first, *piece, places)?;
    }
    Ok(())
}

/// A compound of these arguments.
fn make_compound(
    heap: &mut Heap,
    first: u64,
    name: Atom,
    pieces: &[Piece],
    places: &mut Vec<Option<usize>>,
) -> Result<HeapWord, StoreFault>
    requires name { name < length (take heap.old.named heap.old.atoms) }
    requires some { 0 < length pieces.now }
    requires few { length pieces.now < 256 }
    requires pieces { All (λ p. is_piece (take heap.old.named heap.old.atoms) heap.old.area.low (length places.old.items) p ≡ true) pieces.now }
    requires cells { HaveCells heap.old.area.low first places.old.items }
    requires numbers { first + length places.old.items ≤ heap.old.next }
    ensures made { IfOk result (λ w. Makes (built heap.old first (length places.old.items)) (built heap.new first (length places.old.items)) (Piece.Word w)
        (Apply (text_at (take heap.old.named heap.old.atoms) name) (row (map (built heap.old first (length places.old.items)).term pieces.now)))) }
    ensures size { OnOk result (length heap.new.area.low ≡ length heap.old.area.low + (length pieces.now + 1)) }
    ensures few { length heap.new.area.low ≤ length heap.old.area.low + (length pieces.now + 1) }
    ensures cells { HaveCells heap.new.area.low first places.new.items }
    ensures count { length places.new.items ≡ length places.old.items }
    ensures others { (k : ℕ) → All (λ p. p ≢ Piece.Variable k) pieces.now → slice_get places.new.items k ≡ slice_get places.old.items k }
    ensures goes_on { GoesOn first heap.old heap.new }
    ensures full { result ≡ Err StoreFault.Full → heap.new.area.capacity ≤ length heap.new.area.low + length heap.new.area.high }
{
    push_pieces(heap, first, pieces, places)?;
    let place = heap.push(Cell::Functor(name, pieces.len()))?;
    Ok(HeapWord::Structure(place))
}

/// Makes a compound of the last pieces, so many, which it takes the place of.
pub(crate) fn gather(
    heap: &mut Heap,
    first: u64,
    name: Atom,
    count: usize,
    pieces: &mut Vec<Piece>,
    places: &mut Vec<Option<usize>>,
) -> Result<(), StoreFault>
    requires name { name < length (take heap.old.named heap.old.atoms) }
    requires some { 0 < taken (length pieces.old.items) count }
    requires most { taken (length pieces.old.items) count < 256 }
    requires pieces { All (λ p. is_piece (take heap.old.named heap.old.atoms) heap.old.area.low (length places.old.items) p ≡ true) pieces.old.items }
    requires cells { HaveCells heap.old.area.low first places.old.items }
    requires numbers { first + length places.old.items ≤ heap.old.next }
    ensures gathers { OnOk result (Gathers (built heap.old first (length places.old.items)) (built heap.new first (length places.old.items)) pieces.new.items
        (with_step (Gather (text_at (take heap.old.named heap.old.atoms) name) count) (map (built heap.old first (length places.old.items)).term pieces.old.items))) }
    ensures size { OnOk result (length heap.new.area.low ≡ length heap.old.area.low + (taken (length pieces.old.items) count + 1)) }
    ensures few { length heap.new.area.low ≤ length heap.old.area.low + (taken (length pieces.old.items) count + 1) }
    ensures cells { HaveCells heap.new.area.low first places.new.items }
    ensures count { length places.new.items ≡ length places.old.items }
    ensures others { (k : ℕ) → All (λ p. p ≢ Piece.Variable k) pieces.old.items → slice_get places.new.items k ≡ slice_get places.old.items k }
    ensures goes_on { GoesOn first heap.old heap.new }
    ensures full { result ≡ Err StoreFault.Full → heap.new.area.capacity ≤ length heap.new.area.low + length heap.new.area.high }
{
    let from = pieces.len().saturating_sub(count);
    let word = make_compound(heap, first, name, &pieces[from..], places)?;
    pieces.truncate(from);
    pieces.push(Piece::Word(word))?;
    Ok(())
}

/// An integer.
pub(crate) fn make_integer(
    heap: &mut Heap,
    first: u64,
    value: i128,
    places: &[Option<usize>],
) -> Result<HeapWord, StoreFault>
    requires cells { HaveCells heap.old.area.low first places.now }
    ensures made { IfOk result (λ w. Makes (built heap.old first (length places.now)) (built heap.new first (length places.now)) (Piece.Word w) (Integer value)) }
    ensures size { OnOk result (length heap.new.area.low ≡ length heap.old.area.low + wide_cells value) }
    ensures few { length heap.new.area.low ≤ length heap.old.area.low + wide_cells value }
    ensures cells { HaveCells heap.new.area.low first places.now }
    ensures goes_on { GoesOn first heap.old heap.new }
    ensures full { result ≡ Err StoreFault.Full → heap.new.area.capacity ≤ length heap.new.area.low + length heap.new.area.high }
{
    if let Ok(value) = i64::try_from(value) {
        return Ok(HeapWord::Int(value));
    }
    let place = heap.push(Cell::Wide(value))?;
    Ok(HeapWord::Boxed(place))
}

/// Does what the part says with the pieces that came before it.
fn make_part(
    heap: &mut Heap,
    first: u64,
    part: Part,
    pieces: &mut Vec<Piece>,
    places: &mut Vec<Option<usize>>,
) -> Result<(), StoreFault>
    requires named { IsNamed (take heap.old.named heap.old.atoms) part }
    requires ready { IsReady (length places.old.items) (length pieces.old.items) part }
    requires pieces { All (λ p. is_piece (take heap.old.named heap.old.atoms) heap.old.area.low (length places.old.items) p ≡ true) pieces.old.items }
    requires cells { HaveCells heap.old.area.low first places.old.items }
    requires numbers { first + length places.old.items ≤ heap.old.next }
    ensures gathers { OnOk result (Gathers (built heap.old first (length places.old.items)) (built heap.new first (length places.old.items)) pieces.new.items
        (with_step (part_step (take heap.old.named heap.old.atoms) (numbered first) part) (map (built heap.old first (length places.old.items)).term pieces.old.items))) }
    ensures size { OnOk result (length heap.new.area.low ≡ length heap.old.area.low + part_cells 0 (λ n. n + 1) (length pieces.old.items) part) }
    ensures few { length heap.new.area.low ≤ length heap.old.area.low + part_cells 0 (λ n. n + 1) (length pieces.old.items) part }
    ensures cells { HaveCells heap.new.area.low first places.new.items }
    ensures count { length places.new.items ≡ length places.old.items }
    ensures others { (k : ℕ) → All (λ p. p ≢ Piece.Variable k) pieces.old.items → slice_get places.new.items k ≡ slice_get places.old.items k }
    ensures goes_on { GoesOn first heap.old heap.new }
    ensures full { result ≡ Err StoreFault.Full → heap.new.area.capacity ≤ length heap.new.area.low + length heap.new.area.high }
{
    match part {
        Part::Variable(place) => {
            pieces.push(Piece::Variable(place))?;
            Ok(())
        }
        Part::Integer(value) => {
            let word = make_integer(heap, first, value, places.as_slice())?;
            pieces.push(Piece::Word(word))?;
            Ok(())
        }
        Part::Atom(name) => {
            pieces.push(Piece::Word(HeapWord::Atom(name)))?;
            Ok(())
        }
        Part::Compound(name, count) => gather(heap, first, name, count, pieces, places),
    }
}

/// The term of the parts, whose variables have the numbers from `first` on.
fn make_parts(
    alloc: Global,
    heap: &mut Heap,
    first: u64,
    parts: &[Part],
    places: &mut Vec<Option<usize>>,
) -> Result<Piece, StoreFault>
    requires pattern { IsFitPattern (take heap.old.named heap.old.atoms) parts.now (length places.old.items) }
    requires cells { HaveCells heap.old.area.low first places.old.items }
    requires numbers { first + length places.old.items ≤ heap.old.next }
    ensures made { (t : Tree) → IsPattern (take heap.old.named heap.old.atoms) parts.now t
        → IfOk result (λ p. Makes (built heap.old first (length places.old.items)) (built heap.new first (length places.old.items)) p (apply (numbered first) t)) }
    ensures size { (t : Tree) → IsPattern (take heap.old.named heap.old.atoms) parts.now t
        → OnOk result (length heap.new.area.low ≡ length heap.old.area.low + cells_of 0 (λ n. n + 1) t) }
    ensures few { (t : Tree) → IsPattern (take heap.old.named heap.old.atoms) parts.now t
        → length heap.new.area.low ≤ length heap.old.area.low + cells_of 0 (λ n. n + 1) t }
    ensures cells { HaveCells heap.new.area.low first places.new.items }
    ensures count { length places.new.items ≡ length places.old.items }
    ensures others { (t : Tree) → IsPattern (take heap.old.named heap.old.atoms) parts.now t
        → (k : ℕ) → occurs k t ≡ false → slice_get places.new.items k ≡ slice_get places.old.items k }
    ensures goes_on { GoesOn first heap.old heap.new }
    ensures full { result ≡ Err StoreFault.Full → heap.new.area.capacity ≤ length heap.new.area.low + length heap.new.area.high }
{
    let mut pieces = Vec::new(alloc);
    for part in parts {
        make_part(heap, first, *part, &mut pieces, places)?;
    }
    let Some(piece) = pieces.pop() else {
        unreachable!()
    };
    Ok(piece)
}

/// For each of so many variables that it has no cell yet.
pub(crate) fn no_places(alloc: Global, count: usize) -> Result<Vec<Option<usize>>, NoMemory>
    ensures { IfOk result (λ v. v.items ≡ replicate count None) }
{
    Ok(Vec::from_elem(alloc, None, count)?)
}

/// The copy of a term that is no variable, with its variables numbered from the next number on by first occurrence.
pub(crate) fn build_in_place(
    alloc: Global,
    heap: &mut Heap,
    term: &Term,
) -> Result<HeapWord, StoreFault>
    requires fits { arities_fit (term_of term.now) ≡ true }
    requires other { (n : ℕ) → term_of term.now ≢ Variable n }
    requires next { heap.old.next < 2 ^ 63 }
    ensures made { IfOk result (λ w. Makes (⟦<Heap as Primitives>⟧.present heap.old) (⟦<Heap as Primitives>⟧.present heap.new) w (copy_from (term_of term.now) heap.old.next)) }
    ensures numbers { OnOk result (MovesOn (⟦<Heap as Primitives>⟧.present heap.old) (⟦<Heap as Primitives>⟧.present heap.new) (variable_count (term_of term.now))) }
    ensures cells { Grows (⟦<Heap as Primitives>⟧.present heap.old) (⟦<Heap as Primitives>⟧.present heap.new) (size (term_of term.now)) (variable_count (term_of term.now)) }
    ensures counted { OnOk result (NumbersHaveCells (⟦<Heap as Primitives>⟧.present heap.old) (⟦<Heap as Primitives>⟧.present heap.new)) }
    ensures full { result ≡ Err StoreFault.Full → ⟦<Heap as Primitives>⟧.full heap.new }
    ensures names { KeepsTexts heap.old.atoms heap.new.atoms }
    ensures marks { KeepsMarks (⟦<Heap as Primitives>⟧.stands heap.old) (⟦<Heap as Primitives>⟧.stands heap.new) }
{
    let mut variables = Numbering::new(alloc);
    let Ok(()) = variables.note_all(alloc, term) else {
        return Err(StoreFault::NoMemory);
    };
    let first = heap.reserve(variables.len() as u64);
    let pattern = written(alloc, heap, term, Places::Among(&variables))?;
    heap.know_names();
    let mut places = no_places(alloc, variables.len())?;
    match make_parts(alloc, heap, first, pattern.parts.as_slice(), &mut places)? {
        Piece::Word(word) => Ok(word),
        Piece::Variable(_) => unreachable!(),
    }
}

/// The term of the parts, with new variables, numbered from the next number on by their places, so many.
pub(crate) fn renew_in_place(
    alloc: Global,
    heap: &mut Heap,
    parts: &[Part],
    count: usize,
) -> Result<HeapWord, StoreFault>
    requires pattern { IsFitPattern heap.old.atoms parts.now count }
    requires next { heap.old.next + count < 2 ^ 63 }
    ensures made { (t : Tree) → IsPattern heap.old.atoms parts.now t
        → IfOk result (λ w. Makes (⟦<Heap as Primitives>⟧.present heap.old) (⟦<Heap as Primitives>⟧.present heap.new) w (renamed heap.old.next t)) }
    ensures numbers { OnOk result (MovesOn (⟦<Heap as Primitives>⟧.present heap.old) (⟦<Heap as Primitives>⟧.present heap.new) count) }
    ensures cells { (t : Tree) → IsPattern heap.old.atoms parts.now t
        → Grows (⟦<Heap as Primitives>⟧.present heap.old) (⟦<Heap as Primitives>⟧.present heap.new) (size t) (variable_count t) }
    ensures full { result ≡ Err StoreFault.Full → ⟦<Heap as Primitives>⟧.full heap.new }
    ensures names { heap.new.atoms ≡ heap.old.atoms }
    ensures marks { KeepsMarks (⟦<Heap as Primitives>⟧.stands heap.old) (⟦<Heap as Primitives>⟧.stands heap.new) }
{
    let first = heap.reserve(count as u64);
    heap.know_names();
    let mut places = no_places(alloc, count)?;
    match make_parts(alloc, heap, first, parts, &mut places)? {
        Piece::Word(word) => Ok(word),
        Piece::Variable(place) => Primitives::variable(heap, first + place as u64),
    }
}
