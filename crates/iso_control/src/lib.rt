//! The moves at members of the list that are no goals, for each engine whose lists have nodes of bodies.
#![tactic(auto)]

pub mod control;
pub mod members;
