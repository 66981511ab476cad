//! What a heap is made of: words, and the cells that they lead to.
use iso_atoms::Atom;

/// What stands for a term of a heap.
#[derive(Clone, Copy, Debug, PartialEq, Eq)]
pub enum HeapWord {
    /// The variable whose cell is at this place.
    Var(usize),
    /// The compound whose functor is at this place.
    Structure(usize),
    /// The integer, of at most 64 bits.
    Int(i64),
    /// The integer of more than 64 bits whose cell is at this place.
    Boxed(usize),
    Atom(Atom),
}

/// A cell of a heap, or an entry of its trail.
#[derive(Clone, Copy, Debug)]
pub(crate) enum Cell {
    /// A variable that is not bound, with its number.
    Unbound(u64),
    /// A variable with its number, and what it is bound to.
    Bound(u64, HeapWord),
    /// An argument of a compound. A variable may stand there itself.
    Argument(HeapWord),
    /// The name and the arity of the compound whose arguments are in the cells before this one.
    Functor(Atom, usize),
    /// An integer of more than 64 bits.
    Wide(i128),
    /// The place of a binding, on the trail.
    Entry(usize),
}

/// What comes to be an argument of a compound that is built.
#[derive(Clone, Copy)]
pub(crate) enum Piece {
    Word(HeapWord),
    /// The variable of this place among those of the term. It may have no cell yet.
    Variable(usize),
}

/// What a heap was: its cells, its bindings, its next variable number and its names, and the cells at the mark before.
#[derive(Clone, Copy, Debug, PartialEq, Eq)]
pub struct HeapMark {
    pub(crate) cells: usize,
    pub(crate) trail: usize,
    pub(crate) next: u64,
    pub(crate) named: usize,
    pub(crate) before: usize,
}
