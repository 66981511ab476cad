//! Numbers of clauses.
ghost use Rattle.std.specs.Prelude.{◌≡◌};

use std::marker::Model;

/// A clause by its number, its place among all that were ever added. It is never used again.
#[derive(Clone, Copy, Debug, PartialEq, Eq)]
pub struct ClauseId(usize);

impl Model for ClauseId {
    ghost use Rattle.std.specs.Prelude.{ℕ};

    ghost Value = { ℕ };

    ghost view = { λ id. id.0 };

    ghost inverse = { λ number. record { 0 = number } };
}

impl ClauseId {
    /// The clause of this number.
    pub(crate) fn of(number: usize) -> ClauseId
        ensures { result ≡ number }
    {
        ClauseId(number)
    }

    /// The number of the clause.
    #[inline(always)]
    pub fn number(self) -> usize
        ensures { result ≡ self }
    {
        self.0
    }
}
