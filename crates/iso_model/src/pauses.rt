//! What engines answer.
ghost use Rattle.std.specs.Prelude.{◌≡◌};
ghost use Rattle.iso_model.specs.declared.pauses.AddFault.TheVariants.{NoMemory};

use super::terms::Term;
use std::alloc::{AllocError, AllocFailed};

/// A thrown term (7.8.10).
#[derive(Debug, Drop)]
pub struct Ball {
    pub term: Box<Term>,
}

/// What a call of `resume` came to.
#[derive(Debug, Drop)]
pub enum Pause {
    /// The values of the goal's variables 0, 1, .. in a solution.
    Answer(Vec<Term>),
    /// There is no further solution.
    NoMore,
    /// A step was needed and none was left.
    Budget,
    /// A ball that nothing caught.
    Uncaught(Ball),
    /// The goal asked for the end, with this status.
    Halt(u8),
    /// The cells (or nodes) are used up; the engine is spent.
    HeapFull,
    /// The frames are used up; the engine is spent.
    FramesFull,
    /// Memory was refused; the engine is spent.
    NoMemory,
    /// Bytes to be written before the next `resume`.
    Output(Vec<u8>),
    /// The engine ended by a limit before, and does nothing more.
    Spent,
}

/// Why a goal was not started; the engine is spent then.
#[derive(Clone, Copy, Debug, PartialEq, Eq)]
pub enum StartFault {
    /// The heap is full.
    HeapFull,
    /// Memory was refused.
    NoMemory,
}

/// Why a clause was not added; the clauses are as they were.
#[derive(Debug, Drop)]
pub enum AddFault {
    /// The clause is refused with this error.
    Refused(Ball),
    /// Memory was refused.
    NoMemory,
}

impl From<AllocError> for AddFault {
    ghost from_gives = { λ _ e. e ≡ NoMemory };

    fn from(_refused: AllocError) -> AddFault {
        AddFault::NoMemory
    }
}

impl<T: Drop> From<AllocFailed<T>> for AddFault {
    ghost from_gives = { λ _ e. e ≡ NoMemory };

    fn from(_refused: AllocFailed<T>) -> AddFault {
        AddFault::NoMemory
    }
}
