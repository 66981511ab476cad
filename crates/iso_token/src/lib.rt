//! Tokens: cuts a text into names, quoted items, variables, integers, punctuation and ends (ISO/IEC 13211-1:1995, 6.4).
#![tactic(auto)]

mod classes;
mod cursor;
mod kinds;
mod known;
mod lexemes;
mod numbers;
mod quoted;

pub use cursor::Tokens;
pub use iso_model::NoMemory;
pub use kinds::{Kind, Token};
