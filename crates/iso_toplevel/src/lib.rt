//! Toplevels with the engines that the program has.
#![tactic(auto)]

mod toplevels;

pub use iso_toplevel_core::{Fault, Manner, Words, read_words, toplevel_on, words};
pub use toplevels::toplevel;
