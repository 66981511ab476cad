//! Sessions with the engines that the program has.
ghost use Rattle.iso_model.specs.Session.Beginnings.{SessionWrites, WalkStops};
ghost use Rattle.iso_model.specs.Search.Runs.{ComesAbove};
ghost use Rattle.iso_model.specs.Session.Sessions.{session_script};
ghost use Rattle.iso_session_core.specs.Progress.{outcome_of};
ghost use Rattle.iso_logic.specs.ShownAnswers.{WritesConsequences};
ghost use Rattle.iso_session.specs.Pieces.{frames_pieces};

use super::machine_sessions::machine_session;
use super::plain_sessions::plain_session;
use iso_model::Limits;
use iso_session_core::{Ended, EngineName, Fault};
use std::alloc::Global;
use std::io::Write;

/// A session with the engine of this name, within these limits. The bytes written are those of the standard's search.
/// Where heap, frames or memory end it, they are a beginning of them and the line that says which. The heap ends it
/// only where the search comes to a state twice whose load is above the cells; the frames end it with the plain engine
/// only where it comes to more alternatives than there are frames, and with the machine only where it comes to a state
/// that spans more: three for each member and each alternative, of those that count, and three more. The error: a write
/// of at least one byte answered an error or took 0 bytes; what was written is a beginning. Where the text is definite
/// clauses and the queries are conjunctions of user goals, the clauses prove each answer, and those before an
/// `end: no more` are all.
pub fn session<W: Write>(
    alloc: Global,
    text: &str,
    queries: &str,
    limits: &Limits,
    engine: EngineName,
    out: &mut W,
) -> Result<Ended, Fault>
    ensures bytes { SessionWrites text.now queries.now limits.now.budget
        (WalkStops limits.now.budget (ComesAbove limits.now.cells) (frames_pieces engine limits.now.frames)
        (session_script text.now queries.now limits.now.budget))
        (W.contents out.old) (W.contents out.new) (outcome_of result) }
    ensures consequences { WritesConsequences text.now queries.now
        (W.contents out.old) (W.contents out.new) (outcome_of result) }
{
    match engine {
        EngineName::Plain => plain_session(alloc, text, queries, limits, out),
        EngineName::Wam => machine_session(alloc, text, queries, limits, out),
    }
}
