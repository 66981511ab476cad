//! Keys: what stands outermost in the first argument of a clause or of a call.
ghost use Rattle.std.specs.Prelude.{◌≡◌};
ghost use Rattle.iso_clauses.specs.Fits.{fits};

/// What stands outermost in the first argument of a clause or of a call, where that is no variable.
#[derive(Clone, Copy, Debug, PartialEq, Eq, Hash)]
pub enum FirstKey {
    /// An integer of 64 bits.
    Integer(i64),
    /// Any other integer, by its upper and its lower half.
    Wide(i64, u64),
    /// An atom, by its number.
    Atom(usize),
    /// A compound, by the number of its name, and its number of arguments.
    Compound(usize, usize),
}

/// Whether a call with this key, or without, may use a clause with that one, or without.
#[inline(always)]
pub fn fits(call: Option<FirstKey>, own: Option<FirstKey>) -> bool
    ensures { result ≡ fits call own }
{
    call.is_none() || own.is_none() || call == own
}
