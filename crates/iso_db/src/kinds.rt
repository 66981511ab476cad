//! Kinds of procedures, and why the database refuses a call.
ghost use Rattle.std.specs.Prelude.{◌≡◌};

use std::alloc::AllocError;

/// What a procedure is (7.5.2).
#[derive(Clone, Copy, Debug, PartialEq, Eq)]
pub enum Kind {
    /// Its clauses stay as its text has them.
    Static,
    /// Its clauses can be added and removed.
    Dynamic,
}

/// Why a call of the database changed nothing.
#[derive(Clone, Copy, Debug, PartialEq, Eq)]
pub enum DbFault {
    /// The procedure is static.
    Static,
    /// Memory was refused.
    NoMemory,
    /// There is no such procedure.
    Unknown,
}

impl From<AllocError> for DbFault {
    ghost use Rattle.iso_db.specs.declared.kinds.DbFault.TheVariants.{NoMemory};

    ghost from_gives = { λ _ e. e ≡ NoMemory };

    fn from(_refused: AllocError) -> DbFault {
        DbFault::NoMemory
    }
}
