//! What engines and built-ins know of a store: terms as words under one substitution, which marks bring back
//! (unification, ISO/IEC 13211-1:1995, 7.3; backtracking, 7.7).
#![tactic(auto)]

mod patterns;
mod refusals;
mod shapes;
mod stores;

pub use patterns::{Part, Pattern};
pub use shapes::{Shape, StoreFault};
pub use stores::Store;
