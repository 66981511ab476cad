//! Whether a session goes on behind a part of it, and how a limit ends it.
ghost use Rattle.std.specs.Prelude.{◌≡◌, [], ◌∷◌, ◌++◌};
ghost use Rattle.iso_model.specs.Session.Beginnings as session;
ghost use Rattle.iso_session_core.specs.Progress.{ended_of};

use super::statuses::Ended;
use iso_model::Limit;

/// Whether the session goes on.
#[derive(Clone, Copy, Debug, PartialEq, Eq)]
pub enum Flow {
    /// What follows is to be done.
    On,
    /// A goal asked for the end, with this status.
    Halts(u8),
    /// A limit was met.
    Stops(Limit),
}

/// The line of a limit, with its newline.
pub fn limit_line(limit: Limit) -> &'static [u8]
    ensures { result.now ≡ session.limit_line limit ++ 10 ∷ [] }
{
    match limit {
        Limit::Heap => b"end: heap full\n",
        Limit::Frames => b"end: frames full\n",
        Limit::Memory => b"end: no memory\n",
    }
}

/// How a session ended by a limit.
pub fn ended_by(limit: Limit) -> Ended
    ensures { result ≡ ended_of (Flow.Stops limit) }
{
    match limit {
        Limit::Heap => Ended::HeapFull,
        Limit::Frames => Ended::FramesFull,
        Limit::Memory => Ended::NoMemory,
    }
}
