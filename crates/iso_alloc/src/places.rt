//! Places of variables.

/// Where a clause keeps a variable while it is run.
#[derive(Clone, Copy, Debug, PartialEq, Eq)]
pub enum Place {
    /// In the register of this number; the head's arguments come in the registers 0, 1, ...
    Register(usize),
    /// In the slot of this number of the clause's environment.
    Slot(usize),
    /// The variable occurs once, so nothing is kept.
    Nowhere,
}
