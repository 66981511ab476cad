//! The plain engine: goals linked over copied bodies, over any store of terms.
#![tactic(auto)]

pub mod callers;
mod calling;
pub mod linked;
mod members;
pub mod plain;
