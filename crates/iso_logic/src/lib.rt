//! Answers as consequences: which programs are definite, what such a program proves, and the laws that tie the
//! standard's search to it.
#![tactic(auto)]

pub mod definite_runs;
pub mod laws_of_answers;
pub mod laws_of_engines;
pub mod laws_of_programs;
pub mod laws_of_sessions;
pub mod programs;
pub mod worked_programs;

pub use definite_runs::{resume_definite, start_definite};
pub use programs::{Program, is_definite};
