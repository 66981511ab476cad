//! What a word shows of its term, and why a store gives none.
use iso_atoms::Atom;

/// What a word stands for, seen through bindings (6.1.2).
#[derive(Clone, Copy, Debug, PartialEq, Eq)]
pub enum Shape {
    /// An unbound variable, by its number.
    Var(u64),
    /// An integer.
    Int(i128),
    /// An atom.
    Atom(Atom),
    /// A compound, by its name and number of arguments.
    Compound(Atom, usize),
}

/// Why a call made or bound nothing; after it the caller goes back to a mark.
#[derive(Clone, Copy, Debug, PartialEq, Eq)]
pub enum StoreFault {
    /// The store's limit is reached.
    Full,
    /// Memory was refused.
    NoMemory,
}
