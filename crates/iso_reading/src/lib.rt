//! Arguments that code reads: those of a compound, and those of a call.
#![tactic(auto)]

mod gets;
mod reading;

pub use gets::meet_gets;
pub use reading::{read_block, read_operand, read_operands};
