//! Sessions with the Warren machine.
ghost use Rattle.std.specs.Prelude.{◌≡◌, IfOk, []};
ghost use Rattle.iso_model.specs.Session.Beginnings.{SessionWrites, WalkStops};
ghost use Rattle.iso_model.specs.Search.Engines.{Ready, KeepsLimits, MayMeet};
ghost use Rattle.iso_model.specs.Search.Runs.{ComesAbove};
ghost use Rattle.iso_model.specs.Search.RunLaws.Spans.{ComesBeyond};
ghost use Rattle.iso_model.specs.Session.Sessions.{session_script};
ghost use Rattle.iso_model.specs.Search.Walker.{idle, first_world};
ghost use Rattle.iso_session_core.specs.Progress.{outcome_of};

use iso_machine::machine::Machine;
use iso_model::{Engine, Limits, NoMemory};
use iso_session_core::{Ended, Fault, refused_session, session_on};
use iso_store::{Heap, Store};
use std::alloc::Global;
use std::io::Write;

/// A session with the Warren machine over cells.
pub(crate) fn machine_session<W: Write>(
    alloc: Global,
    text: &str,
    queries: &str,
    limits: &Limits,
    out: &mut W,
) -> Result<Ended, Fault>
    ensures { SessionWrites text.now queries.now limits.now.budget
        (WalkStops limits.now.budget (ComesAbove limits.now.cells) (ComesBeyond limits.now.frames)
        (session_script text.now queries.now limits.now.budget))
        (W.contents out.old) (W.contents out.new) (outcome_of result) }
{
    let Ok(mut engine) = machine_engine(alloc, limits) else {
        return refused_session(out);
    };
    session_on(alloc, &mut engine, text, queries, limits.budget, out)
}

/// A new Warren machine over cells. The error is that memory was refused.
pub fn machine_engine(alloc: Global, limits: &Limits) -> Result<Machine<Heap>, NoMemory>
    ensures ready { IfOk result (λ engine. ⟦<Machine<Heap> as Engine>⟧.phase engine ≡ Ready) }
    ensures new { IfOk result (λ engine. ⟦<Machine<Heap> as Engine>⟧.stands_for engine (idle first_world)) }
    ensures limits { IfOk result (λ engine. KeepsLimits
        (MayMeet (ComesAbove limits.now.cells) (ComesBeyond limits.now.frames))
        (MayMeet (⟦<Machine<Heap> as Engine>⟧.heap_pieces engine) (⟦<Machine<Heap> as Engine>⟧.frames_pieces engine))) }
{
    let store = Heap::new(alloc, limits.cells)?;
    Machine::new(alloc, store, limits.frames)
}
