//! Converted bodies as the engine keeps them (7.6.2).
pub use iso_prep::Node;
use iso_store_core::Pattern;

/// The body of a clause as the engine runs it.
#[derive(Drop)]
pub struct ClauseBody {
    /// The converted body's parts, its own last; none of a body `true`.
    pub parts: Vec<Node<Pattern>>,
}
