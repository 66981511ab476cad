//! Two stacks of cells in one block. Each cell is written as one word with one number beside it: so it takes 24 bytes
//! in place of 32, and its word is read by its own tag alone.
ghost use Rattle.std.specs.Prelude.{◌≡◌, ◌+◌, true, ◌<◌, ◌≤◌, Some, [], ◌∷◌, ◌++◌, length, take, slice_get, slice_set, IfOk, OnOk, OnErr};
ghost use Rattle.iso_area.specs.Stacks.{stacks};
ghost use Rattle.iso_store.specs.HeapStores.{is_functor, is_wide};
ghost use Rattle.iso_store.specs.FlatCells.{IsStorable, bound_number, held_word, is_unbound, joined, word_cell, whole};

use super::heap_cells::{Cell, HeapWord};
use iso_area::{Area, Full, NoMemory};
use iso_atoms::Atom;
use std::alloc::Global;
use std::marker::Model;
use std::mem::size_of;

/// The number beside an argument. No bound variable has it.
const NO_NUMBER: u64 = u64::MAX;

/// The word of a cell that is written flat: one that stands for a term, or what else a cell has.
#[derive(Clone, Copy)]
pub(crate) enum FlatWord {
    Var(usize),
    Structure(usize),
    Int(i64),
    Boxed(usize),
    Atom(Atom),
    Unbound,
    Functor(Atom),
    /// The upper half of an integer; the number beside it is the lower one.
    Wide(i64),
    Entry(usize),
}

/// A cell, written flat.
#[derive(Clone, Copy)]
pub(crate) struct Flat {
    word: FlatWord,
    /// The number of a variable, be it bound or not; the arity beside a functor; the lower half of an integer;
    /// `NO_NUMBER` beside anything else.
    number: u64,
}

const _: () = prove!(size_of::<Flat>() == 24);

/// The word with this number beside it, written flat.
#[inline(always)]
fn flat_word(number: u64, word: HeapWord) -> Flat
    ensures { whole result ≡ word_cell number word }
{
    let word = match word {
        HeapWord::Var(place) => FlatWord::Var(place),
        HeapWord::Structure(place) => FlatWord::Structure(place),
        HeapWord::Int(value) => FlatWord::Int(value),
        HeapWord::Boxed(place) => FlatWord::Boxed(place),
        HeapWord::Atom(name) => FlatWord::Atom(name),
    };
    Flat { word, number }
}

/// The integer of these halves.
fn joined(high: i64, low: u64) -> i128
    ensures { result ≡ joined high low }
{
    i128::from(high) * (1 << 64) + i128::from(low)
}

/// The cell of an integer, in halves.
fn halved(value: i128) -> Flat
    ensures { whole result ≡ Cell.Wide value }
{
    let high = value >> 64;
    let low = value - high * (1 << 64);
    Flat {
        word: FlatWord::Wide(high as i64),
        number: low as u64,
    }
}

/// The cell, written flat.
#[inline(always)]
fn flattened(cell: Cell) -> Flat
    requires { IsStorable cell }
    ensures { whole result ≡ cell }
{
    match cell {
        Cell::Unbound(number) => Flat {
            word: FlatWord::Unbound,
            number,
        },
        Cell::Bound(number, word) => flat_word(number, word),
        Cell::Argument(word) => flat_word(NO_NUMBER, word),
        Cell::Functor(name, count) => Flat {
            word: FlatWord::Functor(name),
            number: count as u64,
        },
        Cell::Wide(value) => halved(value),
        Cell::Entry(place) => Flat {
            word: FlatWord::Entry(place),
            number: NO_NUMBER,
        },
    }
}

/// The cell of a word with this number beside it.
#[inline(always)]
fn word_cell(number: u64, word: HeapWord) -> Cell
    ensures { result ≡ word_cell number word }
{
    if number == NO_NUMBER {
        Cell::Argument(word)
    } else {
        Cell::Bound(number, word)
    }
}

/// The cell that was written flat.
#[inline(always)]
fn cell_of(flat: Flat) -> Cell
    ensures { result ≡ whole flat }
{
    let Flat { word, number } = flat;
    match word {
        FlatWord::Var(place) => word_cell(number, HeapWord::Var(place)),
        FlatWord::Structure(place) => word_cell(number, HeapWord::Structure(place)),
        FlatWord::Int(value) => word_cell(number, HeapWord::Int(value)),
        FlatWord::Boxed(place) => word_cell(number, HeapWord::Boxed(place)),
        FlatWord::Atom(name) => word_cell(number, HeapWord::Atom(name)),
        FlatWord::Unbound => Cell::Unbound(number),
        FlatWord::Functor(name) => Cell::Functor(name, number as usize),
        FlatWord::Wide(high) => Cell::Wide(joined(high, number)),
        FlatWord::Entry(place) => Cell::Entry(place),
    }
}

/// Two stacks of cells in one block: what `Area` does, cell by cell.
#[derive(Drop)]
pub(crate) struct CellArea {
    area: Area<Flat>,
}

impl Model for CellArea {
    ghost use Rattle.iso_area.specs.Stacks.{Stacks};
    ghost use Rattle.iso_store.specs.declared.heap_cells.Cell.{Cell};

    ghost Value = { Stacks Cell };

    ghost use Rattle.iso_store.specs.FlatCells.{whole_stacks};

    ghost view = { λ a. whole_stacks a.area };
}

impl CellArea {
    /// An area with room for so many cells. The error is that memory was refused.
    pub(crate) fn new(alloc: Global, capacity: usize) -> Result<CellArea, NoMemory>
        ensures { IfOk result (λ area. area ≡ stacks [] [] capacity) }
    {
        Ok(CellArea {
            area: Area::new(alloc, capacity)?,
        })
    }

    /// Pushes on the low stack. The error is that there is no room; then nothing changed.
    #[inline(always)]
    pub(crate) fn push_low(&mut self, cell: Cell) -> Result<(), Full>
        requires { IsStorable cell }
        ensures pushed { OnOk result (self.new ≡ stacks (self.old.low ++ cell ∷ []) self.old.high self.old.capacity) }
        ensures had_room { OnOk result (length self.old.low + length self.old.high < self.old.capacity) }
        ensures full { OnErr result (length self.old.low + length self.old.high ≡ self.old.capacity) }
        ensures unchanged { OnErr result (self.new ≡ self.old) }
    {
        self.area.push_low(flattened(cell))
    }

    /// Pushes on the high stack. The error is that there is no room; then nothing changed.
    #[inline(always)]
    pub(crate) fn push_high(&mut self, cell: Cell) -> Result<(), Full>
        requires { IsStorable cell }
        ensures pushed { OnOk result (self.new ≡ stacks self.old.low (self.old.high ++ cell ∷ []) self.old.capacity) }
        ensures had_room { OnOk result (length self.old.low + length self.old.high < self.old.capacity) }
        ensures full { OnErr result (length self.old.low + length self.old.high ≡ self.old.capacity) }
        ensures unchanged { OnErr result (self.new ≡ self.old) }
    {
        self.area.push_high(flattened(cell))
    }

    /// The cell at `index` of the high stack, counted from its bottom.
    #[inline(always)]
    pub(crate) fn high(&self, index: usize) -> Cell
        requires { index < length self.now.high }
        ensures { slice_get self.now.high index ≡ Some result }
    {
        cell_of(self.area.high(index))
    }

    /// The word in the cell of a variable or an argument at `index` of the low stack; none where the variable is
    /// unbound.
    #[inline(always)]
    pub(crate) fn held(&self, index: usize) -> Option<HeapWord>
        requires { index < length self.now.low }
        ensures { result ≡ held_word (slice_get self.now.low index) }
    {
        let Flat { word, number: _ } = self.area.low(index);
        match word {
            FlatWord::Var(place) => Some(HeapWord::Var(place)),
            FlatWord::Structure(place) => Some(HeapWord::Structure(place)),
            FlatWord::Int(value) => Some(HeapWord::Int(value)),
            FlatWord::Boxed(place) => Some(HeapWord::Boxed(place)),
            FlatWord::Atom(name) => Some(HeapWord::Atom(name)),
            FlatWord::Unbound | FlatWord::Functor(_) | FlatWord::Wide(_) | FlatWord::Entry(_) => {
                None
            }
        }
    }

    /// The number of the unbound variable at `index` of the low stack.
    #[inline(always)]
    pub(crate) fn number(&self, index: usize) -> u64
        requires index { index < length self.now.low }
        requires unbound { is_unbound (slice_get self.now.low index) ≡ true }
        ensures { slice_get self.now.low index ≡ Some (Cell.Unbound result) }
    {
        self.area.low(index).number
    }

    /// The number of the bound variable at `index` of the low stack; none where there is no such variable.
    #[inline(always)]
    pub(crate) fn bound_number(&self, index: usize) -> Option<u64>
        requires { index < length self.now.low }
        ensures { result ≡ bound_number (slice_get self.now.low index) }
    {
        let Flat { word, number } = self.area.low(index);
        if number == NO_NUMBER {
            return None;
        }
        match word {
            FlatWord::Var(_)
            | FlatWord::Structure(_)
            | FlatWord::Int(_)
            | FlatWord::Boxed(_)
            | FlatWord::Atom(_) => Some(number),
            FlatWord::Unbound | FlatWord::Functor(_) | FlatWord::Wide(_) | FlatWord::Entry(_) => {
                None
            }
        }
    }

    /// The name and the arity of the functor at `index` of the low stack.
    #[inline(always)]
    pub(crate) fn functor(&self, index: usize) -> (Atom, usize)
        requires index { index < length self.now.low }
        requires functor { is_functor (slice_get self.now.low index) ≡ true }
        ensures { slice_get self.now.low index ≡ Some (Cell.Functor result.0 result.1) }
    {
        let Flat { word, number } = self.area.low(index);
        let FlatWord::Functor(name) = word else {
            unreachable!()
        };
        (name, number as usize)
    }

    /// The integer in the cell at `index` of the low stack.
    pub(crate) fn wide(&self, index: usize) -> i128
        requires index { index < length self.now.low }
        requires wide { is_wide (slice_get self.now.low index) ≡ true }
        ensures { slice_get self.now.low index ≡ Some (Cell.Wide result) }
    {
        let Flat { word, number } = self.area.low(index);
        let FlatWord::Wide(high) = word else {
            unreachable!()
        };
        joined(high, number)
    }

    /// Writes over the cell at `index` of the low stack, counted from its bottom.
    #[inline(always)]
    pub(crate) fn set_low(&mut self, index: usize, cell: Cell)
        requires index { index < length self.old.low }
        requires storable { IsStorable cell }
        ensures { self.new ≡ stacks (slice_set self.old.low index cell) self.old.high self.old.capacity }
    {
        self.area.set_low(index, flattened(cell));
    }

    /// Takes cells off the low stack until `len` are left, in one step.
    pub(crate) fn cut_low(&mut self, len: usize)
        requires { len ≤ length self.old.low }
        ensures { self.new ≡ stacks (take len self.old.low) self.old.high self.old.capacity }
    {
        self.area.cut_low(len);
    }

    /// Takes cells off the high stack until `len` are left, in one step.
    pub(crate) fn cut_high(&mut self, len: usize)
        requires { len ≤ length self.old.high }
        ensures { self.new ≡ stacks self.old.low (take len self.old.high) self.old.capacity }
    {
        self.area.cut_high(len);
    }

    /// How many cells the low stack holds.
    pub(crate) fn low_len(&self) -> usize
        ensures { result ≡ length self.now.low }
    {
        self.area.low_len()
    }

    /// How many cells the high stack holds.
    pub(crate) fn high_len(&self) -> usize
        ensures { result ≡ length self.now.high }
    {
        self.area.high_len()
    }
}
