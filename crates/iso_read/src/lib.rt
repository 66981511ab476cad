//! The reader: from the tokens of a text to its clauses' terms, by the grammar of ISO/IEC 13211-1:1995,
//! 6.2 and 6.3, in this project's profile.
#![tactic(auto)]

mod clause;
mod input;
mod language;
mod lists;
mod names;
mod node;
mod operators;
mod reader;
mod simple;
mod tokens;

pub use clause::{Read, ReadFault, read_clause};
pub use tokens::read_tokens;
