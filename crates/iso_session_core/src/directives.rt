//! Directives: each is run for one solution, at once or, where the text keeps its goal, behind the text.
ghost use Rattle.std.specs.Prelude.{◌≡◌, ℕ, true, List, OnOk};
ghost use Rattle.iso_model.specs.Search.Engines.{Ready, IsAwake, MayMeet, KeepsLimits};
ghost use Rattle.iso_model.specs.Session.Sessions.{Script, goal_script, kept_script};
ghost use Rattle.iso_model.specs.Session.Directives.{Kept as KeptGoal};
ghost use Rattle.iso_model.specs.Terms.TermOf.{term_of};
ghost use Rattle.iso_model.specs.Terms.Copies.{IsNumbered};
ghost use Rattle.iso_model.specs.Terms.Trees.{Tree, arities_fit};
ghost use Rattle.iso_model.specs.Search.Walker.{State, World, started};
ghost use Rattle.iso_session_core.specs.Consoles.{place};
ghost use Rattle.iso_session_core.specs.Directed.{AreKept};
ghost use Rattle.iso_session_core.specs.Progress.{Does, EndsDirective, IsCount};

use super::composed;
use super::console::Console;
use super::flows::Flow;
use super::statuses::Fault;
use iso_model::{Engine, Limit, Pause, StartFault, Term};
use iso_ops::OpTable;
use std::alloc::Global;
use std::io::Write;

/// A kept goal.
#[derive(Debug, Drop)]
pub struct Kept {
    /// The number of its term in the text, from 1 on.
    pub number: u64,
    /// The goal.
    pub goal: Term,
}

/// Writes what a pause ends the directive of the K-th term with, and says how the session goes on; these are the
/// operators then. An answer ends it without a line. Outputs end no directive, and one that runs is not spent.
fn end_directive<W: Write>(
    alloc: Global,
    ops: &OpTable,
    console: &mut Console<'_, W>,
    number: u64,
    pause: Pause,
) -> Result<Flow, Fault>
    ensures ends { EndsDirective number ops.now pause (place W.contents console.old) (place W.contents console.new) result }
    ensures writer { console.new.out.ghost_name ≡ console.old.out.ghost_name }
{
    match pause {
        Pause::NoMore => {
            let line = composed::directive_failed_line(alloc, number);
            console.put_line(line, Flow::On)
        }
        Pause::Budget => {
            let line = composed::directive_stopped_line(alloc, number);
            console.put_line(line, Flow::On)
        }
        Pause::Uncaught(ball) => {
            let line = composed::directive_refused_line(alloc, ops, number, &*ball.term);
            console.put_line(line, Flow::On)
        }
        Pause::Halt(status) => {
            let line = composed::halt_line(alloc, status);
            console.put_line(line, Flow::Halts(status))
        }
        Pause::HeapFull => Ok(Flow::Stops(Limit::Heap)),
        Pause::FramesFull => Ok(Flow::Stops(Limit::Frames)),
        Pause::NoMemory => Ok(Flow::Stops(Limit::Memory)),
        Pause::Answer(_) | Pause::Output(_) | Pause::Spent => Ok(Flow::On),
    }
}

/// Runs the directive that was started to its first solution or its end; each output is written before the search
/// goes on.
fn run_once<E: Engine, W: Write>(
    alloc: Global,
    engine: &mut E,
    console: &mut Console<'_, W>,
    number: u64,
) -> Result<Flow, Fault>
    requires awake { IsAwake (E.phase engine.old) }
    requires stands { (s : State) × E.stands_for engine.old s }
    ensures does { (goal : Tree) (w : World) (budget : ℕ) → E.stands_for engine.old (started goal budget w) → (k : ℕ) → IsCount number k → (next : World → Script)
        → Does budget (E.stands_for engine.new) (MayMeet (E.heap_pieces engine.new) (E.frames_pieces engine.new)) (E.phase engine.new)
        (place W.contents console.old) (place W.contents console.new)
        (goal_script budget k goal w next) next result }
    ensures limits { KeepsLimits (MayMeet (E.heap_pieces engine.old) (E.frames_pieces engine.old)) (MayMeet (E.heap_pieces engine.new) (E.frames_pieces engine.new)) }
    ensures writer { console.new.out.ghost_name ≡ console.old.out.ghost_name }
{
    loop {
        match engine.resume() {
            Pause::Output(bytes) => console.write_output(bytes.as_slice())?,
            pause => return end_directive(alloc, engine.ops(), console, number, pause),
        }
    }
}

/// Runs the directive of the K-th term.
pub fn run_directive<E: Engine, W: Write>(
    alloc: Global,
    engine: &mut E,
    console: &mut Console<'_, W>,
    number: u64,
    goal: &Term,
    budget: u32,
) -> Result<Flow, Fault>
    requires ready { E.phase engine.old ≡ Ready }
    requires stands { (s : State) × E.stands_for engine.old s }
    requires fits { arities_fit (term_of goal.now) ≡ true }
    requires numbered { IsNumbered (term_of goal.now) }
    ensures does { (s : State) → E.stands_for engine.old s → (k : ℕ) → IsCount number k → (next : World → Script)
        → Does budget (E.stands_for engine.new) (MayMeet (E.heap_pieces engine.new) (E.frames_pieces engine.new)) (E.phase engine.new)
        (place W.contents console.old) (place W.contents console.new)
        (goal_script budget k (term_of goal.now) s.world next) next result }
    ensures limits { KeepsLimits (MayMeet (E.heap_pieces engine.old) (E.frames_pieces engine.old)) (MayMeet (E.heap_pieces engine.new) (E.frames_pieces engine.new)) }
    ensures writer { console.new.out.ghost_name ≡ console.old.out.ghost_name }
{
    match engine.start(goal, budget) {
        Ok(()) => run_once(alloc, engine, console, number),
        Err(StartFault::HeapFull) => Ok(Flow::Stops(Limit::Heap)),
        Err(StartFault::NoMemory) => Ok(Flow::Stops(Limit::Memory)),
    }
}

/// Runs the kept goals as directives, in order.
pub fn run_kept<E: Engine, W: Write>(
    alloc: Global,
    engine: &mut E,
    console: &mut Console<'_, W>,
    kept: &[Kept],
    budget: u32,
) -> Result<Flow, Fault>
    requires ready { E.phase engine.old ≡ Ready }
    requires stands { (s : State) × E.stands_for engine.old s }
    requires kept { (goals : List KeptGoal) × AreKept kept.now goals }
    ensures does { (s : State) → E.stands_for engine.old s → (goals : List KeptGoal) → AreKept kept.now goals → (next : World → Script)
        → Does budget (E.stands_for engine.new) (MayMeet (E.heap_pieces engine.new) (E.frames_pieces engine.new)) (E.phase engine.new)
        (place W.contents console.old) (place W.contents console.new)
        (kept_script budget goals s.world next) next result }
    ensures limits { KeepsLimits (MayMeet (E.heap_pieces engine.old) (E.frames_pieces engine.old)) (MayMeet (E.heap_pieces engine.new) (E.frames_pieces engine.new)) }
    ensures writer { console.new.out.ghost_name ≡ console.old.out.ghost_name }
{
    for entry in kept {
        match run_directive(alloc, engine, console, entry.number, &entry.goal, budget)? {
            Flow::On => {}
            flow => return Ok(flow),
        }
    }
    Ok(Flow::On)
}
