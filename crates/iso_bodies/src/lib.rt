//! The code of clauses is loaded: what was compiled becomes code that a machine runs.
#![tactic(auto)]

mod bodies;
mod clauses;
mod fresh;
mod steps;

pub use clauses::{head_name, load_clause};
