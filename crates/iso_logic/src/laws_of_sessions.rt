//! What the laws of answers say of a session.
ghost use Rattle.iso_logic.specs.Sessions.{SessionsAreLogical};
ghost use Rattle.iso_logic.specs.ShownAnswers.{SessionsShowConsequences};

/// A session over a text of definite clauses is that of its queries' runs over them, whose answers are consequences.
pub fn sessions_are_logical()
    ensures { SessionsAreLogical }
{}

/// The script of a session over a text of definite clauses, with queries of user goals, shows answers that the clauses
/// prove. Those before an `end: no more` are all.
pub fn sessions_show_consequences()
    ensures { SessionsShowConsequences }
{}
