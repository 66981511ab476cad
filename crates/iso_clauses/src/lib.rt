//! Clauses, and lists of them that change while a search runs. A view is such a list as it was when the view was made,
//! whatever is added or removed later (ISO/IEC 13211-1:1995, 7.5.4).
#![tactic(auto)]

mod adding;
mod blocks;
mod ids;
mod keys;
mod numbers;
mod slots;
mod tidying;
mod views;

pub use adding::add;
pub use blocks::{Entry, Side};
pub use ids::ClauseId;
pub use keys::{FirstKey, fits};
pub use numbers::Block;
pub use slots::{Label, Slot, belongs, is_front, is_given, is_there, kill, kill_all};
pub use tidying::{forget_blocks, forget_values, tidy, trim, trim_parts};
pub use views::{View, next_from, view_of};
