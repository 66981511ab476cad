//! The search that engines share: depth first and from left to right (ISO/IEC 13211-1:1995, 7.7), over any store of
//! terms, and however lists of goals are kept.
#![tactic(auto)]

pub mod backtracking;
mod bodies;
pub mod callers;
pub mod calls;
mod catches;
mod choices;
mod ends;
mod engine;
mod fails;
mod gathers;
mod groups;
mod locals;
pub mod members;
mod offers;
mod outputs;
mod part_goals;
mod raises;
pub mod retries;
mod runs;
pub mod search;
mod solutions;
pub mod starts;
mod storages;
mod throws;
