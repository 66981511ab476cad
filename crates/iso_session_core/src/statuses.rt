//! How a session ends, and the program's statuses.
ghost use Rattle.std.specs.Prelude.{◌≡◌};
ghost use Rattle.iso_session_core.specs.Statuses.{status};

use thiserror::Error;

/// The name of a session's engine.
#[derive(Clone, Copy, Debug, PartialEq, Eq)]
pub enum EngineName {
    /// The plain engine.
    Plain,
    /// The Warren machine.
    Wam,
}

/// How a session ended.
#[derive(Clone, Copy, Debug, PartialEq, Eq)]
pub enum Ended {
    /// Every query was run to its end.
    Done,
    /// A goal asked for the end, with this status.
    Halt(u8),
    /// The cells (or nodes) were used up.
    HeapFull,
    /// The frames were used up.
    FramesFull,
    /// Memory was refused.
    NoMemory,
}

/// Why a session could not be written.
#[derive(Debug, Drop, Error)]
pub enum Fault {
    /// A write of at least one byte answered an error or took 0 bytes; what was written is a beginning.
    #[error("the output can't be written")]
    Output,
}

/// The program's status: 0 for `Done`, N for `Halt(N)`, 3 for the limits, 4 for an output that can't be written.
pub fn status_of(outcome: &Result<Ended, Fault>) -> u8
    ensures { result ≡ status outcome.now }
{
    match outcome {
        Ok(Ended::Done) => 0,
        Ok(Ended::Halt(status)) => *status,
        Ok(Ended::HeapFull) | Ok(Ended::FramesFull) | Ok(Ended::NoMemory) => 3,
        Err(Fault::Output) => 4,
    }
}
