//! Laws of runs: each is the contract of a function that does nothing.
ghost use Rattle.iso_model.specs.Search.RunLaws.{EveryStateHasOneRun, RunOfIsTheRun, QuietStepsKeepTheRun};
ghost use Rattle.iso_model.specs.Search.RunLaws.{EventsBeginTheRun, EndingsAreTheRun, SameStatesHaveOneRun};
ghost use Rattle.iso_model.specs.Search.RunLaws.{ThinStatesHaveOneRun, ThinStatesSpanNoMore, MarksStand};

/// Every state of the search has exactly one run: the search is deterministic, and its budget makes it end.
pub fn one_run_each()
    ensures { EveryStateHasOneRun }
{}

/// The run that the definitions name is the state's run.
pub fn run_of_a_state()
    ensures { RunOfIsTheRun }
{}

/// Steps without an event keep the run.
pub fn quiet_steps()
    ensures { QuietStepsKeepTheRun }
{}

/// An event that comes is the run's first, and the run behind it is that of the state there.
pub fn first_event()
    ensures { EventsBeginTheRun }
{}

/// An ending that comes without an event is all of the run.
pub fn ending_alone()
    ensures { EndingsAreTheRun }
{}

/// States whose goals, with conjunctions taken apart, have the same values under each state's own substitution have
/// one run. The first has built no more, and its query is no larger.
pub fn same_states()
    ensures { SameStatesHaveOneRun }
{}

/// A state, and the state without alternatives of clauses that all miss their call, have the same run.
pub fn thin_states()
    ensures { ThinStatesHaveOneRun }
{}

/// The state without those alternatives spans no more: it has as many goals, and no more alternatives that count.
pub fn thin_spans()
    ensures { ThinStatesSpanNoMore }
{}

/// Cut marks are heights of the stack that stand when a goal is started, and behind every step (7.8.4).
pub fn cut_marks()
    ensures { MarksStand }
{}
