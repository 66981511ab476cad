//! Code as a machine runs it: names are atoms of a store, and variables are places of an environment.
#![tactic(auto)]

mod loading;
mod operands;

pub use loading::{load_arguments, load_fresh, load_head, load_part};
pub use operands::{Arguments, Block, Get, Head, Operand, Pair, Register};
