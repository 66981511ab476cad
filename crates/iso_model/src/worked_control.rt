//! Worked runs of control constructs. All are the contract of a function that does nothing.
ghost use Rattle.iso_model.specs.Worked.Control.{CutTakesAlternativesAway, CutIsLocalToCall, CutActsThroughConjunctions, CutInThenAndCondition, ConditionsDecideOnce, NegationTakesAStep, OnceIsOnce, RepeatTakesSteps, GoalsAreChecked, ArgumentsAreAdded, CatchRunsItsGoal, LeftCatchesDontCatch, FindallChecks, HaltEnds};

/// What goals without clauses answer, construct by construct.
pub fn worked_control()
    // `true ; true` has two answers, and with a cut behind it one (7.8.4, 7.8.6).
    ensures cut { CutTakesAlternativesAway }
    // `call((!, fail)) ; true` has an answer: a cut is local to a call (7.8.3).
    ensures cut_in_call { CutIsLocalToCall }
    // `(!, fail) ; true` has no answer (7.8.4, 7.8.5).
    ensures cut_in_conjunction { CutActsThroughConjunctions }
    // A cut acts through a then part, and is local in a condition (7.8.7, 7.8.8).
    ensures cut_in_condition { CutInThenAndCondition }
    // A condition has at most one solution, and an else part is run where it has none (7.8.8).
    ensures conditions { ConditionsDecideOnce }
    // `\+ fail` takes two steps (8.15.1; what takes a step is own).
    ensures negation { NegationTakesAStep }
    // `once((true ; true))` has one answer (8.15.2).
    ensures once { OnceIsOnce }
    // `repeat` has an answer for each step of the budget (8.15.3).
    ensures repeat { RepeatTakesSteps }
    // Goals are checked before they are run, and the error names the procedure that raised it (7.8.3.3).
    ensures goal_errors { GoalsAreChecked }
    // `call((fail, 1), a)` calls the unknown procedure `','/3` (own).
    ensures added_arguments { ArgumentsAreAdded }
    // A catch keeps its goal's alternatives, and a cut is local to it (7.8.9).
    ensures catch { CatchRunsItsGoal }
    // A catch that was left doesn't catch (7.8.9, 7.8.10).
    ensures left_catch { LeftCatchesDontCatch }
    // The goal and the result of a findall/3 are checked before the goal is run (8.10.1.3).
    ensures findall_errors { FindallChecks }
    // `halt` ends the search with its status (8.17.3, 8.17.4).
    ensures halt { HaltEnds }
{}
