//! Instructions for compounds and arguments.

use iso_alloc::Place;

/// An argument of a compound or of a goal, or what an argument of a head is met with: `get_variable`, `get_value`,
/// `get_constant` in a head, `put_..` for a goal, `unify_..` where a compound is read, and `set_..` where one is made.
#[derive(Debug, Drop)]
pub enum Part {
    /// The variable of this number, which the code meets for the first time: from here on it is kept at this place.
    New(usize, Place),
    /// The variable of this number, which the code met before, at this place.
    Old(usize, Place),
    /// The variable of this number, which nothing else has.
    Void(usize),
    /// An integer.
    Integer(i128),
    /// An atom.
    Atom(String),
    /// A compound, which this register has.
    Inner(usize),
}

/// A compound that a register has or gets, with its arguments: `get_structure`, `get_list`, `put_structure` or
/// `put_list`, and what follows them. A compound in it has a block of its own behind this one.
#[derive(Debug, Drop)]
pub struct Block {
    /// The register.
    pub register: usize,
    /// The name of the compound.
    pub name: String,
    /// The arguments.
    pub parts: Vec<Part>,
    /// How many of the blocks behind this one are those of compounds in it.
    pub inner: usize,
}

/// What an argument of a head is met with that is no compound: `get_variable`, `get_value` or `get_constant`.
#[derive(Debug, Drop)]
pub struct Get {
    /// The register of the argument. A new variable whose place is this register is there already.
    pub register: usize,
    /// A variable or a constant.
    pub part: Part,
}
