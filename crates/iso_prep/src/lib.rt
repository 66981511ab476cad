//! Clauses and goals made ready once, before they are run: checked and converted, with their variables numbered (7.6).
#![tactic(auto)]

pub mod bodies;
mod callable;
pub mod classes;
mod connectives;
pub mod constructs;
mod copies;
pub mod fault;
mod goals;
pub mod laws_of_preparations;
mod prepared;
mod uses;

pub use bodies::Node;
pub use classes::{Class, Uses};
pub use connectives::Connective;
pub use fault::Fault;
pub use prepared::{Prepared, prepare, prepare_goal};
