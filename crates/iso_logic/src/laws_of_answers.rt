//! Laws of the answers of a search over definite clauses: each is the contract of a function that does nothing.
ghost use Rattle.iso_logic.specs.AnswerLaws.{AnswersAreProved, AnswersAreComplete, AnswersAreLeaves};
ghost use Rattle.iso_logic.specs.AnswerLaws.{LeavesAreOneList, RunsKeepTheWorld};

/// The clauses prove each answer.
pub fn answers_are_proved()
    ensures { AnswersAreProved }
{}

/// Where the search finds no more, every instance of the query that the clauses prove is an instance of an answer.
pub fn answers_are_complete()
    ensures { AnswersAreComplete }
{}

/// Where the search finds no more, its answers are the leaves of the query's tree, in order, with repetitions.
pub fn answers_are_leaves()
    ensures { AnswersAreLeaves }
{}

/// There is at most one list of leaves, up to variables' numbers in each member.
pub fn leaves_are_one_list()
    ensures { LeavesAreOneList }
{}

/// The search changes nothing that outlives it, but that one run more was started.
pub fn runs_keep_the_world()
    ensures { RunsKeepTheWorld }
{}
