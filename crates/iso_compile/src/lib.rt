//! Code of clauses: instructions, what they mean, and a compiler to them.
#![tactic(auto)]

mod arithmetic;
mod births;
mod bodies;
mod clauses;
mod control;
mod emitting;
mod entry;
mod expressions;
mod goals;
mod heads;
mod instructions;
pub mod laws_of_code;
mod parts;

pub use arithmetic::compile_arithmetic;
pub use bodies::compile_body;
pub use clauses::{Code, compile};
pub use control::{Instruction, Mark};
pub use emitting::Emitter;
pub use entry::fresh_variables;
pub use expressions::Step;
pub use goals::{Arguments, Call, compile_arguments, compile_goal};
pub use heads::{Head, compile_head, gets_of};
pub use instructions::{Block, Get, Part};
