//! Clauses that are shown: their heads and bodies are to be unified with two terms (8.8.1, 8.9.3).
use iso_db::{ClauseId, KeyedView};

/// A clause whose head and body are to be unified with two terms, and a view of those behind it.
#[derive(Clone, Copy)]
pub struct Showing<W> {
    pub clause: ClauseId,
    pub later: KeyedView,
    pub head: W,
    pub body: W,
    /// Whether a clause is removed when it was unified (8.9.3).
    pub removes: bool,
}
