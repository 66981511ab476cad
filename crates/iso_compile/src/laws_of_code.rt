//! Laws of code: each is the contract of a function that does nothing.
ghost use Rattle.iso_compile.specs.CodeLaws.{HeadsAreMet, ArgumentsAreMade, BlocksTakeCells, NumbersAreTaken, NewVariablesAreNext};
ghost use Rattle.iso_compile.specs.Expressions.{ExpressionsAreEvaluated};
ghost use Rattle.iso_compile.specs.ControlLaws.{MembersAreTaken, CellsAreCounted};

/// The code of a head meets a call as the search tries a clause.
pub fn heads_are_met()
    ensures { HeadsAreMet }
{}

/// The code of a goal's arguments makes them.
pub fn arguments_are_made()
    ensures { ArgumentsAreMade }
{}

/// The code of terms takes the cells of these, and no more than they count.
pub fn blocks_take_cells()
    ensures { BlocksTakeCells }
{}

/// The variables of numbers below the next one behind a term are those below the next one before it, and those of the
/// term.
pub fn numbers_are_taken()
    ensures { NumbersAreTaken }
{}

/// Where a compound of a head is made with all that is in it, its new variables are older than all that are still to
/// come.
pub fn new_variables_are_next()
    ensures { NewVariablesAreNext }
{}

/// The steps of an expression leave its value, or end with its error.
pub fn expressions_are_evaluated()
    ensures { ExpressionsAreEvaluated }
{}

/// What the search does with a member of the list of goals is what the code of a body does with it.
pub fn members_are_taken()
    ensures { MembersAreTaken }
{}

/// On each way through the code of a body its calls take at most the cells that the goals count.
pub fn cells_are_counted()
    ensures { CellsAreCounted }
{}
