//! Values of expressions (ISO/IEC 13211-1:1995, 7.9 and 9), read from a store.
#![tactic(auto)]

mod evaluables;
mod evaluation;
mod faults;
mod operations;
mod quotients;
mod shorts;
mod tables;

pub use evaluables::Evaluables;
pub use evaluation::eval;
pub use faults::{EvalFault, Refusal};
pub use operations::{Binary, Unary};
