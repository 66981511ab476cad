//! What the plain engine stands on: the bodies of clauses as they are kept, goals converted in the store, clauses
//! entered, and members of the list of goals.
#![tactic(auto)]

// the bodies of clauses as they are kept
pub mod bodies;
pub mod patterns;
// goals converted in the store, clauses entered, and members of the list of goals
pub mod conversion;
pub mod entries;
pub mod members;
