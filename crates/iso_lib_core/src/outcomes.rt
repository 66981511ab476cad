//! What goals of built-ins come to.
ghost use Rattle.std.specs.Prelude.{◌≡◌, if◌then◌else◌};

use iso_model::Ball;
use iso_store_core::StoreFault;
use std::alloc::{AllocError, AllocFailed};

/// What a goal comes to.
#[derive(Clone, Copy, Debug, PartialEq, Eq)]
pub enum Reply {
    /// It fails.
    Fail,
    /// It succeeds once; the terms that it unifies are unified.
    Done,
}

/// Why a goal comes to nothing.
#[derive(Drop)]
pub enum Fault {
    /// This error is raised.
    Raise(Ball),
    /// The store is full.
    Full,
    /// Memory was refused.
    NoMemory,
}

impl From<StoreFault> for Fault {
    ghost use Rattle.iso_lib_core.specs.Replies.{fault_of};

    ghost from_gives = { λ fault e. e ≡ fault_of fault };

    fn from(fault: StoreFault) -> Fault {
        match fault {
            StoreFault::Full => Fault::Full,
            StoreFault::NoMemory => Fault::NoMemory,
        }
    }
}

impl From<AllocError> for Fault {
    ghost use Rattle.iso_lib_core.specs.declared.outcomes.Fault.TheVariants.{NoMemory};

    ghost from_gives = { λ _ e. e ≡ NoMemory };

    fn from(_refused: AllocError) -> Fault {
        Fault::NoMemory
    }
}

impl<T: Drop> From<AllocFailed<T>> for Fault {
    ghost use Rattle.iso_lib_core.specs.declared.outcomes.Fault.TheVariants.{NoMemory};

    ghost from_gives = { λ _ e. e ≡ NoMemory };

    fn from(_refused: AllocFailed<T>) -> Fault {
        Fault::NoMemory
    }
}

/// What a test comes to.
pub fn tested(holds: bool) -> Reply
    ensures { result ≡ (if holds then Reply.Done else Reply.Fail) }
{
    if holds { Reply::Done } else { Reply::Fail }
}
