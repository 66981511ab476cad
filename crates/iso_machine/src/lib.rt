//! The Warren machine: lists of goals in frames, over a store of cells.
#![tactic(auto)]

mod arithmetic;
mod built_ins;
mod callers;
mod calling;
mod coming;
mod control;
mod entering;
mod framed;
mod goal_places;
mod goals;
pub mod machine;
mod members;
mod outcomes;
mod putting;
mod retrying;
mod room;
mod shallow;
mod steps;

pub use framed::{Extent, Framed, KeptCall};
