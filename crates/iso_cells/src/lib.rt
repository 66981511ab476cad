//! What a machine knows of a store beside what engines know: compounds are read and made argument by argument, and a
//! constant is met without a word of its own.
#![tactic(auto)]

mod cells;

pub use cells::{Cells, Opened};
