//! What an engine does next.

use iso_model::Limit;

/// What an engine does next.
#[derive(Clone, Copy)]
pub enum Now<N, P> {
    /// Nothing: no goal was started, or its run has ended.
    Idle,
    /// Go on with the newest alternative.
    Failing,
    /// No goal is left: give an answer.
    Answering,
    /// Do what comes first of the list of goals.
    Running(N),
    /// Throw the ball that was kept, past the list from this place on (7.8.10).
    Raising(P),
    /// Nothing any more: this limit was met.
    Spent(Limit),
}
