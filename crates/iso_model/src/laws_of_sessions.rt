//! Laws of sessions: each is the contract of a function that does nothing.
ghost use Rattle.iso_model.specs.Session.Sessions.{SessionsNumberTheirRuns};

/// The runs of a session are numbered 0, 1, .. in the order in which they begin: a script tells each from the others,
/// also where a query is asked twice.
pub fn runs_are_numbered()
    ensures { SessionsNumberTheirRuns }
{}
