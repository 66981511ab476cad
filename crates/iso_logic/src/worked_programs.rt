//! Worked programs: small ones, by the definitions. All are the contract of a function that does nothing.
ghost use Rattle.iso_logic.specs.WorkedPrograms.{TheseAreDefinite, TheseAreNot, AppendIsDefinite};
ghost use Rattle.iso_logic.specs.WorkedPrograms.{AppendProves, AppendProvesNot, AppendHasTheseLeaves, TextIsAProgram};
ghost use Rattle.iso_logic.specs.WorkedPrograms.{TheseAreUserQueries};

/// Which small programs are definite, and what append proves.
pub fn worked_programs()
    // `p.`, `p :- true.` and `p :- q, r.` are definite.
    ensures definite { TheseAreDefinite }
    // A cut, a variable, a disjunction, a number or `true` in a conjunction is none, and neither is a built-in's head.
    ensures others { TheseAreNot }
    // The two clauses of append are definite.
    ensures append { AppendIsDefinite }
    // They prove `app(c(1, nil), X, c(1, X))`.
    ensures proves { AppendProves }
    // They don't prove `app(nil, nil, c(1, nil))`.
    ensures proves_not { AppendProvesNot }
    // The query `app(X, Y, c(1, nil))` has two leaves, in the order of the clauses.
    ensures leaves { AppendHasTheseLeaves }
    // The text `l:-l. % again` is the program `l :- l.`.
    ensures text { TextIsAProgram }
    // The queries `l. l, l.` are conjunctions of user goals.
    ensures queries { TheseAreUserQueries }
{}
