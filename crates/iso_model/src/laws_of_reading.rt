//! Laws of the definitions of reading. Each is the contract of a function that does nothing.
ghost use Rattle.iso_model.specs.Syntax.ReadingLaws.{AtMostOneClause, ReadsTheClause, ReadsTheNextClause, ClausesAreWellRead};

/// Tokens are at most one clause (own).
pub fn at_most_one_clause()
    ensures { AtMostOneClause }
{}

/// Reading by precedence gives a clause exactly where the grammar does, and that one (6.2, 6.3).
pub fn reads_the_clause()
    ensures { ReadsTheClause }
{}

/// So it does for the next clause of a text's tokens.
pub fn reads_the_next_clause()
    ensures { ReadsTheNextClause }
{}

/// What is read is well formed, and its variables are numbered in the order of their first occurrence.
pub fn clauses_are_well_read()
    ensures { ClausesAreWellRead }
{}
