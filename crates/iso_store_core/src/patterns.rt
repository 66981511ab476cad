//! Terms written out for a store: their names as atoms and their variables as places.
ghost use Rattle.std.specs.Prelude.{◌≡◌, true};
ghost use Rattle.iso_store_core.specs.Exact.{are_exact};

use iso_atoms::Atom;

/// A part of a term.
#[derive(Clone, Copy, Debug)]
pub enum Part {
    /// The variable of this place.
    Variable(usize),
    /// An integer.
    Integer(i128),
    /// An atom.
    Atom(Atom),
    /// A compound of this name, whose arguments are the last terms before it, so many.
    Compound(Atom, usize),
}

/// A term for one store, written out part by part: the arguments of a compound come before it, from the first one on.
#[derive(Debug, Drop)]
pub struct Pattern {
    pub parts: Vec<Part>,
    ghost exact: { are_exact parts.items 0 ≡ true },
}
