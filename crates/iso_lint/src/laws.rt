//! What holds of the definitions, for those who prove by it.
ghost use Rattle.iso_lint.specs.Faults.{ClausesStopAtFaults};
ghost use Rattle.iso_lint.specs.Parts.{PartsAreItems};

/// The tokens before the place of a syntax error begin a clause, and with the token there they begin none.
pub fn clauses_stop_at_faults()
    ensures { ClausesStopAtFaults }
{}

/// The parts of a text are the items as which it is consulted by the same operators and flags.
pub fn parts_are_items()
    ensures { PartsAreItems }
{}
