//! Worked runs: what small programs answer by the definitions. All are the contract of a function that does nothing.
ghost use Rattle.iso_model.specs.Worked.Runs.{EndlessUsesItsBudget, FactsAreAnswered, NothingHoldsItself, EquationsAreChecked, AppendSplits, UnknownIsAnError, NumbersAreNoGoals, EachGoalTakesAStep, JoinIsSearched};

/// What small programs answer.
pub fn worked_runs()
    // `l :- l.` with the query `l` uses up its budget, however large, and shows nothing.
    ensures endless { EndlessUsesItsBudget }
    // `p(1). p(2). p(1).` with the query `p(X)` answers 1, 2 and 1, and then there is no more.
    ensures facts { FactsAreAnswered }
    // `eq(X, X).` with the query `eq(X, f(X))` has no answer.
    ensures equal { NothingHoldsItself }
    // `app(X, Y, c(1, nil))` over the clauses of append has two answers, in the order of the clauses.
    ensures append { AppendSplits }
    // `X = f(X)` has no answer, and takes a step (8.2.1; the check of occurrence is own).
    ensures equation { EquationsAreChecked }
    // A call of an unknown procedure throws an existence error (7.7.7).
    ensures unknown { UnknownIsAnError }
    // A query with a number for a goal throws a type error before the first step (7.6.2).
    ensures uncallable { NumbersAreNoGoals }
    // Each goal takes a step of the budget, and control constructs take none.
    ensures two_goals { EachGoalTakesAStep }
    // `r(X)` over `p(1). p(2). q(2). r(X) :- p(X), q(X).` has the answer 2 alone.
    ensures join { JoinIsSearched }
{}
