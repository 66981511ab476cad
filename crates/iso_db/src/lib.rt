//! The database of clauses that engines keep (ISO/IEC 13211-1:1995, 7.5): procedures with their kinds and clauses,
//! changed while a search runs. A view is the list of a procedure's clauses at its making (7.5.4), whatever is added
//! or removed later.
#![tactic(auto)]

mod db;
mod keyed;
mod kinds;
mod parts;
mod places;

pub use db::Db;
pub use iso_clauses::{ClauseId, FirstKey, View};
pub use keyed::KeyedView;
pub use kinds::{DbFault, Kind};
pub use std::alloc::AllocError as NoMemory;
