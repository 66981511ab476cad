//! Why a clause or a goal isn't prepared.
ghost use Rattle.std.specs.Prelude.{◌≡◌};
ghost use Rattle.iso_prep.specs.declared.fault.Fault.TheVariants.{NoMemory};

use iso_model::Term;
use std::alloc::{AllocError, AllocFailed};

/// Why a clause or a goal isn't prepared.
#[derive(Debug, Drop)]
pub enum Fault {
    /// The head of the clause is a variable.
    Instantiation,
    /// This can't be called: a head that is a number, a body or a goal of which a part is a number.
    Callable(Term),
    /// The clause has more than 65,535 distinct variables (own limit).
    TooManyVariables,
    /// Memory was refused.
    NoMemory,
}

impl From<AllocError> for Fault {
    ghost from_gives = { λ _ e. e ≡ NoMemory };

    fn from(_refused: AllocError) -> Fault {
        Fault::NoMemory
    }
}

impl<T: Drop> From<AllocFailed<T>> for Fault {
    ghost from_gives = { λ _ e. e ≡ NoMemory };

    fn from(_refused: AllocFailed<T>) -> Fault {
        Fault::NoMemory
    }
}
