//! Arithmetic in line (ISO/IEC 13211-1:1995, 8.6, 8.7): the steps of an expression are run over the words of a store.
#![tactic(auto)]

mod goals;
mod shorts;
mod steps;
mod values;

pub use goals::{compare, evaluate};
