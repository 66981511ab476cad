//! Why an expression has no value (7.9.2).
ghost use Rattle.std.specs.Prelude.{◌≡◌};

use iso_atoms::Atom;
use std::alloc::{AllocError, AllocFailed};

/// Why an operation has no value.
#[derive(Clone, Copy, Debug, PartialEq, Eq)]
pub enum Refusal {
    /// `evaluation_error(int_overflow)`: the value is out of range.
    Overflow,
    /// `evaluation_error(zero_divisor)`
    ZeroDivisor,
    /// `evaluation_error(undefined)`
    Undefined,
    /// `type_error(float, Value)`
    NotFloat(i128),
}

/// Why an expression has no value.
#[derive(Clone, Copy, Debug, PartialEq, Eq)]
pub enum EvalFault {
    /// `instantiation_error`: a variable.
    Unbound,
    /// `type_error(evaluable, Name / Arity)`: an atom, or a compound that is no evaluable.
    NotEvaluable(Atom, usize),
    /// The error of an operation.
    Refused(Refusal),
    /// Memory was refused.
    NoMemory,
}

impl From<Refusal> for EvalFault {
    ghost use Rattle.iso_arith.specs.declared.faults.EvalFault.TheVariants.{Refused};

    ghost from_gives = { λ r e. e ≡ Refused r };

    fn from(refusal: Refusal) -> EvalFault {
        EvalFault::Refused(refusal)
    }
}

impl From<AllocError> for EvalFault {
    ghost use Rattle.iso_arith.specs.declared.faults.EvalFault.TheVariants.{NoMemory};

    ghost from_gives = { λ _ e. e ≡ NoMemory };

    fn from(_refused: AllocError) -> EvalFault {
        EvalFault::NoMemory
    }
}

impl<T: Drop> From<AllocFailed<T>> for EvalFault {
    ghost use Rattle.iso_arith.specs.declared.faults.EvalFault.TheVariants.{NoMemory};

    ghost from_gives = { λ _ e. e ≡ NoMemory };

    fn from(_refused: AllocFailed<T>) -> EvalFault {
        EvalFault::NoMemory
    }
}
