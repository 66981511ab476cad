//! A session: the text is consulted, then each query is run to its end.
ghost use Rattle.std.specs.Prelude.{◌≡◌, ℕ, List, []};
ghost use Rattle.iso_model.specs.Search.Engines.{Ready, MayMeet, KeepsLimits};
ghost use Rattle.iso_model.specs.Session.Sessions.{Closes, Done, session_script};
ghost use Rattle.iso_model.specs.Search.Walker.{idle, first_world};
ghost use Rattle.iso_model.specs.Session.Beginnings.{SessionWrites, EngineStops};
ghost use Rattle.iso_session_core.specs.Consoles.{place};
ghost use Rattle.iso_session_core.specs.Progress.{Does, outcome_of};

use super::console::Console;
use super::consulting::consult_text;
use super::flows::Flow;
use super::preambles::body_of_text;
use super::queries::run_queries;
use super::statuses::{Ended, Fault};
use iso_model::{Engine, Limit};
use std::alloc::Global;
use std::io::Write;

/// Consults the text, and then runs the queries.
fn run_parts<E: Engine, W: Write>(
    alloc: Global,
    engine: &mut E,
    console: &mut Console<'_, W>,
    text: &str,
    queries: &str,
    budget: u32,
) -> Result<Flow, Fault>
    requires ready { E.phase engine.old ≡ Ready }
    requires new { E.stands_for engine.old (idle first_world) }
    ensures does { Does budget (E.stands_for engine.new) (MayMeet (E.heap_pieces engine.new) (E.frames_pieces engine.new)) (E.phase engine.new)
        (place W.contents console.old) (place W.contents console.new)
        (session_script text.now queries.now budget) (λ _. Closes Done) result }
    ensures limits { KeepsLimits (MayMeet (E.heap_pieces engine.old) (E.frames_pieces engine.old)) (MayMeet (E.heap_pieces engine.new) (E.frames_pieces engine.new)) }
    ensures writer { console.new.out.ghost_name ≡ console.old.out.ghost_name }
{
    match consult_text(alloc, engine, console, body_of_text(text), budget)? {
        Flow::On => run_queries(alloc, engine, console, queries, budget),
        flow => Ok(flow),
    }
}

/// Consults the text and runs the queries on a new engine, each query with the whole budget. Heap or frames end it only
/// where the engine is spent by them, at a state of the search where the engine, as it was given, allows that they run
/// out. The error: a write of at least one byte answered an error or took 0 bytes; what was written is a beginning.
pub fn session_on<E: Engine, W: Write>(
    alloc: Global,
    engine: &mut E,
    text: &str,
    queries: &str,
    budget: u32,
    out: &mut W,
) -> Result<Ended, Fault>
    requires ready { E.phase engine.old ≡ Ready }
    requires new { E.stands_for engine.old (idle first_world) }
    ensures { SessionWrites text.now queries.now budget (EngineStops budget (E.stands_for engine.new) (MayMeet (E.heap_pieces engine.old) (E.frames_pieces engine.old)) (E.phase engine.new)
        (session_script text.now queries.now budget))
        (W.contents out.old) (W.contents out.new) (outcome_of result) }
{
    let mut console = Console::new(out);
    let flow = run_parts(alloc, engine, &mut console, text, queries, budget)?;
    console.close(flow)
}

/// A session for which no engine could be made: the line which says that memory was refused. No other limit ends it. The
/// error is that of `session_on`.
pub fn refused_session<W: Write>(out: &mut W) -> Result<Ended, Fault>
    ensures { (text queries : List ℕ) (budget : ℕ) → SessionWrites text queries budget (λ limit rest. limit ≡ Limit.Memory)
        (W.contents out.old) (W.contents out.new) (outcome_of result) }
{
    Console::new(out).close(Flow::Stops(Limit::Memory))
}
