//! Arguments, and the compounds that code meets or makes.

use iso_atoms::Atom;

/// An argument of a compound or of a goal, or what an argument of a head is met with. A variable is kept at the place
/// of its number in the environment.
#[derive(Clone, Copy)]
pub enum Operand {
    /// The variable of this number, for the first time.
    New(usize),
    /// The variable of this number, which has a word.
    Old(usize),
    /// An integer.
    Integer(i128),
    /// An atom.
    Atom(Atom),
    /// The compound of this number.
    Inner(usize),
}

/// Where a word is that isn't a variable's.
#[derive(Clone, Copy)]
pub enum Register {
    /// The argument of the call at this place.
    Argument(usize),
    /// The compound of this number.
    Compound(usize),
}

/// What the arguments of a compound are where they are two variables that code meets by a way of its own.
#[derive(Clone, Copy)]
pub enum Pair {
    /// The variables of these numbers, both for the first time.
    NewNew(usize, usize),
    /// The first one has a word.
    OldNew(usize, usize),
    /// The second one has a word.
    NewOld(usize, usize),
    /// Anything else.
    Other,
}

/// A compound that a register has or gets, with its arguments. A compound in it has a block of its own behind this one.
#[derive(Drop)]
pub struct Block {
    /// The register.
    pub register: Register,
    /// The name of the compound.
    pub name: Atom,
    /// The arguments.
    pub operands: Vec<Operand>,
    /// How many of the blocks behind this one are those of compounds in it.
    pub inner: usize,
    /// Whether one of its arguments is an integer of more than 64 bits.
    pub wide: bool,
    /// The two variables that its arguments are, where no block behind this one is that of a compound in it.
    pub pair: Pair,
}

/// What an argument of a head is met with that is no compound.
#[derive(Clone, Copy)]
pub struct Get {
    /// The argument's place.
    pub argument: usize,
    /// A variable or a constant.
    pub operand: Operand,
}

/// The code of a head.
#[derive(Drop)]
pub struct Head {
    /// What the arguments of the call are met with that are no compounds.
    pub gets: Vec<Get>,
    /// The blocks of those that are compounds, and of the compounds in them.
    pub blocks: Vec<Block>,
    /// How many compounds have numbers: each is below.
    pub compounds: usize,
}

/// The code of a goal's arguments. The blocks are made from the last one on; then each argument is put.
#[derive(Drop)]
pub struct Arguments {
    /// The compounds among the arguments, and those in them.
    pub blocks: Vec<Block>,
    /// The arguments.
    pub operands: Vec<Operand>,
    /// How many compounds have numbers: each is below.
    pub compounds: usize,
}
