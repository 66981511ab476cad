//! What the built-ins stand on, and those that take terms apart, put them together and sort them (ISO/IEC
//! 13211-1:1995, 8.4.3, 8.4.4 and 8.5), over any store of terms; the error terms (7.12.2).
#![tactic(auto)]

// what goals come to, and the error terms
pub mod culprits;
pub mod errors;
mod outcomes;
// constants, unbound variables, lists, and words in order
mod equated;
pub mod lists;
mod merging;
mod unbound;
mod variants;
// the built-ins
pub mod arguments;
pub mod collecting;
pub mod copies;
pub mod functors;
pub mod groups;
pub mod sorting;
pub mod strip;
pub mod univ;
pub mod variables;

pub use equated::{equate_atom, equate_integer, equate_list};
pub use outcomes::{Fault, Reply, tested};
pub use unbound::{has_unbound, is_unbound};
