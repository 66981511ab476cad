//! Built-ins that read or change the database of clauses (ISO/IEC 13211-1:1995, 7.4.2, 8.8, 8.9), over any store of
//! terms.
#![tactic(auto)]

mod additions;
mod declarations;
mod heads;
mod matching;
mod removals;
pub mod shown;
mod shown_clauses;
mod storages;

pub use storages::{StorageReply, store_goal};
