//! Places for the variables of a clause: registers, and slots of its environment.
#![tactic(auto)]

mod arguments;
mod places;
mod plans;

pub use arguments::head_arguments;
pub use places::Place;
pub use plans::{Plan, assign};
