//! What the laws of answers say to a caller of an engine: the contract of a function that does nothing.
ghost use Rattle.iso_logic.specs.EngineAnswers.{RunsAreConsequences};

/// Behind any answers of a run of a definite query, the next answer is proved, and at `no more` the answers are all.
pub fn runs_are_consequences()
    ensures { RunsAreConsequences }
{}
