//! A toplevel: the text is consulted, then a person asks.
ghost use Rattle.std.specs.Prelude.{◌≡◌, ◌<◌, ℕ, Bool, List, length, Some};
ghost use Rattle.iso_model.specs.Search.Engines.{Ready, MayMeet, KeepsLimits};
ghost use Rattle.iso_model.specs.Session.Sessions.{Script, Closes, Done};
ghost use Rattle.iso_model.specs.Search.Walker.{State, idle, first_world};
ghost use Rattle.iso_session_core.specs.Consoles.{place};
ghost use Rattle.iso_toplevel_core.specs.Dialogues.{dialogue, greeted, whole_dialogue, toplevel_script};
ghost use Rattle.iso_toplevel_core.specs.Progress.{Does, ToplevelDoes, ToplevelStops};
ghost use Rattle.iso_toplevel_core.specs.Screens.{LeadsOn};

use super::faults::Fault;
use super::queries::{Manner, run_queries};
use super::questions::{Asked, ask};
use iso_model::{Engine, Limit};
use iso_session_core::console::Console;
use iso_session_core::consulting::consult_text;
use iso_session_core::flows::Flow;
use iso_session_core::preambles::body_of_text;
use iso_session_core::{Ended, Obstacle};
use std::alloc::Global;
use std::io::{BufRead, Write};

/// How a person goes on, in a line.
const GREETING: &[u8] =
    b"Queries end with a full stop. Behind an answer: ; and return for the next, return alone to stop. Ctrl-D ends.\n";

/// Says how a person goes on, where the toplevel waits. The error: a write failed.
fn greet<W: Write>(console: &mut Console<'_, W>, waits: bool) -> Result<Flow, Fault>
    ensures leads { (rest : Script) → LeadsOn (place W.contents console.old) (place W.contents console.new) (greeted waits rest) rest result }
    ensures writer { console.new.out.ghost_name ≡ console.old.out.ghost_name }
{
    if waits {
        Ok(console.put_fixed(GREETING, Flow::On)?)
    } else {
        Ok(Flow::On)
    }
}

/// Reads and runs the queries, text by text, until the input ends.
fn talk<E: Engine, R: BufRead, W: Write>(
    alloc: Global,
    engine: &mut E,
    input: &mut R,
    console: &mut Console<'_, W>,
    manner: Manner,
) -> Result<Flow, Fault>
    requires ready { E.phase engine.old ≡ Ready }
    requires stands { (s : State) × E.stands_for engine.old s }
    ensures does { (s : State) → E.stands_for engine.old s → (xs : List ℕ) → R.remaining input.old ≡ Some xs → (turns : ℕ) → length xs < turns
        → Does manner.waits manner.budget (E.stands_for engine.new) (MayMeet (E.heap_pieces engine.new) (E.frames_pieces engine.new)) (E.phase engine.new)
        (place W.contents console.old) (place W.contents console.new) xs (R.remaining input.new)
        (dialogue manner.waits manner.budget turns s.world xs) (λ _ _. Closes Done) result }
    ensures limits { KeepsLimits (MayMeet (E.heap_pieces engine.old) (E.frames_pieces engine.old)) (MayMeet (E.heap_pieces engine.new) (E.frames_pieces engine.new)) }
    ensures writer { console.new.out.ghost_name ≡ console.old.out.ghost_name }
{
    for _ in 0..u64::MAX {
        match ask(alloc, input, console, manner.waits)? {
            Asked::Text(text) => {
                match run_queries(alloc, engine, input, console, text.as_str(), manner)? {
                    Flow::On => {}
                    flow => return Ok(flow),
                }
            }
            Asked::End => return Ok(Flow::On),
            Asked::NoMemory => return Ok(Flow::Stops(Limit::Memory)),
        }
    }
    Err(Fault::Input(Obstacle::NoEnd))
}

/// Says how a person goes on, where the toplevel waits, and then reads and runs the queries.
fn greet_and_talk<E: Engine, R: BufRead, W: Write>(
    alloc: Global,
    engine: &mut E,
    input: &mut R,
    console: &mut Console<'_, W>,
    manner: Manner,
) -> Result<Flow, Fault>
    requires ready { E.phase engine.old ≡ Ready }
    requires stands { (s : State) × E.stands_for engine.old s }
    ensures does { (s : State) → E.stands_for engine.old s → (xs : List ℕ) → R.remaining input.old ≡ Some xs
        → Does manner.waits manner.budget (E.stands_for engine.new) (MayMeet (E.heap_pieces engine.new) (E.frames_pieces engine.new)) (E.phase engine.new)
        (place W.contents console.old) (place W.contents console.new) xs (R.remaining input.new)
        (whole_dialogue manner.waits manner.budget xs s.world) (λ _ _. Closes Done) result }
    ensures limits { KeepsLimits (MayMeet (E.heap_pieces engine.old) (E.frames_pieces engine.old)) (MayMeet (E.heap_pieces engine.new) (E.frames_pieces engine.new)) }
    ensures writer { console.new.out.ghost_name ≡ console.old.out.ghost_name }
{
    match greet(console, manner.waits)? {
        Flow::On => talk(alloc, engine, input, console, manner),
        flow => Ok(flow),
    }
}

/// Consults the text, and then reads and runs the queries.
fn run_parts<E: Engine, R: BufRead, W: Write>(
    alloc: Global,
    engine: &mut E,
    text: &str,
    input: &mut R,
    console: &mut Console<'_, W>,
    manner: Manner,
) -> Result<Flow, Fault>
    requires ready { E.phase engine.old ≡ Ready }
    requires new { E.stands_for engine.old (idle first_world) }
    ensures does { (xs : List ℕ) → R.remaining input.old ≡ Some xs
        → Does manner.waits manner.budget (E.stands_for engine.new) (MayMeet (E.heap_pieces engine.new) (E.frames_pieces engine.new)) (E.phase engine.new)
        (place W.contents console.old) (place W.contents console.new) xs (R.remaining input.new)
        (toplevel_script manner.waits text.now xs manner.budget) (λ _ _. Closes Done) result }
    ensures limits { KeepsLimits (MayMeet (E.heap_pieces engine.old) (E.frames_pieces engine.old)) (MayMeet (E.heap_pieces engine.new) (E.frames_pieces engine.new)) }
    ensures writer { console.new.out.ghost_name ≡ console.old.out.ghost_name }
{
    match consult_text(alloc, engine, console, body_of_text(text), manner.budget)? {
        Flow::On => greet_and_talk(alloc, engine, input, console, manner),
        flow => Ok(flow),
    }
}

/// A toplevel on a new engine: it consults the text, and then runs the queries of the input, each as far as the person
/// at the input wants and over the world that those before left. Heap or frames end it only where the engine is spent
/// by them, at a state of the search where the engine, as it was given, allows that they run out. The errors: a write
/// of at least one byte answered an error or took 0 bytes, or the input can't be read; what was written is a beginning.
pub fn toplevel_on<E: Engine, R: BufRead, W: Write>(
    alloc: Global,
    engine: &mut E,
    text: &str,
    manner: Manner,
    input: &mut R,
    out: &mut W,
) -> Result<Ended, Fault>
    requires ready { E.phase engine.old ≡ Ready }
    requires new { E.stands_for engine.old (idle first_world) }
    ensures { (xs : List ℕ) → R.remaining input.old ≡ Some xs
        → ToplevelDoes (toplevel_script manner.waits text.now xs manner.budget)
        (ToplevelStops manner.waits manner.budget (E.stands_for engine.new) (MayMeet (E.heap_pieces engine.old) (E.frames_pieces engine.old)) (E.phase engine.new)
        (toplevel_script manner.waits text.now xs manner.budget))
        (W.contents out.old) (W.contents out.new) result }
{
    let mut console = Console::new(out);
    let flow = run_parts(alloc, engine, text, input, &mut console, manner)?;
    Ok(console.close(flow)?)
}

/// A toplevel for which no engine could be made: the line which says that memory was refused. No other limit ends it.
/// The error: a write failed.
pub fn refused_toplevel<W: Write>(out: &mut W) -> Result<Ended, Fault>
    ensures { (waits : Bool) (text input : List ℕ) (budget : ℕ) → ToplevelDoes (toplevel_script waits text input budget) (λ limit rest. limit ≡ Limit.Memory)
        (W.contents out.old) (W.contents out.new) result }
{
    let mut console = Console::new(out);
    Ok(console.close(Flow::Stops(Limit::Memory))?)
}
