//! A toplevel on any engine: a program text is consulted, then lines are read, the queries in them are run, and each
//! answer is shown; a person says whether a query goes on.
#![tactic(auto)]

mod decisions;
mod faults;
mod heard;
pub mod laws;
mod queries;
mod questions;
mod shown;
mod toplevels;
pub mod words;

pub use faults::Fault;
pub use queries::Manner;
pub use toplevels::{refused_toplevel, toplevel_on};
pub use words::{Words, read_words};
