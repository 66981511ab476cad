//! Looks through a program text without running it: syntax errors, variables that occur once, clauses of one
//! procedure that aren't together, and procedures that are called and not defined. Each finding has the place of a
//! token.
#![tactic(auto)]

mod apart;
mod completions;
mod cuts;
mod faults;
mod findings;
mod items;
mod laws;
mod messages;
mod once;
mod places;
mod tables;
mod texts;
mod unknown;
mod wording;
pub mod words;

pub use faults::{Expected, Fault};
pub use findings::{Finding, Procedure, What};
pub use laws::{clauses_stop_at_faults, parts_are_items};
pub use messages::{Message, lint};
pub use once::variables_once;
pub use places::Place;
