//! Running the queries of a text, each as far as the person wants.
ghost use Rattle.std.specs.Prelude.{◌≡◌, ℕ, true, List, Some, Bool};
ghost use Rattle.iso_model.specs.Search.Engines.{Ready, IsAwake, MayMeet, KeepsLimits};
ghost use Rattle.iso_model.specs.Syntax.Grammar.{ReadTerm};
ghost use Rattle.iso_model.specs.Syntax.Items.{Readable};
ghost use Rattle.iso_model.specs.Session.Sessions.{ends_within, query_goal};
ghost use Rattle.iso_model.specs.Terms.TermOf.{term_of};
ghost use Rattle.iso_model.specs.Terms.Copies.{IsNumbered};
ghost use Rattle.iso_model.specs.Terms.Trees.{arities_fit};
ghost use Rattle.iso_model.specs.Search.Walker.{State, World, started};
ghost use Rattle.iso_read.specs.Answers.{clause_read};
ghost use Rattle.iso_session_core.specs.Named.{names_of};
ghost use Rattle.iso_session_core.specs.Consoles.{place};
ghost use Rattle.iso_session_core.specs.Read.{item_read, Fits};
ghost use Rattle.iso_toplevel_core.specs.Dialogues.{Behind, query_shown, text_shown};
ghost use Rattle.iso_toplevel_core.specs.Progress.{Does, StillWhereOn};
ghost use Rattle.iso_toplevel_core.specs.Ends.{EndsShown};

use super::decisions::{Decision, decide};
use super::faults::Fault;
use super::shown::{Screen, answer, error, halt, no_more, put, text};
use iso_model::{Engine, Limit, Pause, StartFault};
use iso_ops::OpTable;
use iso_read::Read;
use iso_session_core::console::Console;
use iso_session_core::flows::Flow;
use iso_session_core::items::{Item, take_item};
use iso_session_core::terms::goal_of;
use iso_token::Tokens;
use std::alloc::Global;
use std::io::{BufRead, Write};

/// How a toplevel runs queries.
#[derive(Clone, Copy, Debug, PartialEq, Eq)]
pub struct Manner {
    /// Whether it prompts, and waits for a person behind each answer.
    pub waits: bool,
    /// The steps that each query may take.
    pub budget: u32,
}

/// Whether the cursor is within a line behind these bytes.
fn is_within(within: bool, bytes: &[u8]) -> bool
    ensures { result ≡ ends_within within bytes.now }
{
    match bytes.last() {
        Some(last) => *last != b'\n',
        None => within,
    }
}

/// Shows what a pause ends its query with, and says how the toplevel goes on; these are the operators then. Answers and
/// outputs end no query, and a query that runs is not spent.
fn end_query<W: Write>(
    alloc: Global,
    ops: &OpTable,
    console: &mut Console<'_, W>,
    screen: Screen,
    answered: bool,
    pause: Pause,
) -> Result<Flow, Fault>
    ensures ends { EndsShown screen.waits screen.within answered ops.now pause (place W.contents console.old) (place W.contents console.new) result }
    ensures writer { console.new.out.ghost_name ≡ console.old.out.ghost_name }
{
    match pause {
        Pause::NoMore => {
            let piece = no_more(alloc, screen, answered);
            put(console, screen.waits, piece, Flow::On)
        }
        Pause::Budget => {
            let piece = text(alloc, screen, b"budget", b'\n');
            put(console, screen.waits, piece, Flow::On)
        }
        Pause::Uncaught(ball) => {
            let piece = error(alloc, screen, ops, &*ball.term);
            put(console, screen.waits, piece, Flow::On)
        }
        Pause::Halt(status) => {
            let piece = halt(alloc, screen, status);
            put(console, screen.waits, piece, Flow::Halts(status))
        }
        Pause::HeapFull => Ok(Flow::Stops(Limit::Heap)),
        Pause::FramesFull => Ok(Flow::Stops(Limit::Frames)),
        Pause::NoMemory => Ok(Flow::Stops(Limit::Memory)),
        Pause::Answer(_) | Pause::Output(_) | Pause::Spent => Ok(Flow::On),
    }
}

/// Runs the query that was started, as far as the person wants; each output and answer is written before the search
/// goes on.
fn run_pauses<E: Engine, R: BufRead, W: Write>(
    alloc: Global,
    engine: &mut E,
    input: &mut R,
    console: &mut Console<'_, W>,
    names: &[(String, u64)],
    waits: bool,
) -> Result<Flow, Fault>
    requires awake { IsAwake (E.phase engine.old) }
    requires stands { (s : State) × E.stands_for engine.old s }
    ensures does { (query : ReadTerm) (w : World) (budget : ℕ) → names_of names.now ≡ query.names
        → E.stands_for engine.old (started (query_goal query.term) budget w) → (xs : List ℕ) → R.remaining input.old ≡ Some xs → (next : Behind)
        → Does waits budget (E.stands_for engine.new) (MayMeet (E.heap_pieces engine.new) (E.frames_pieces engine.new)) (E.phase engine.new)
        (place W.contents console.old) (place W.contents console.new) xs (R.remaining input.new)
        (query_shown waits budget (Readable query) w xs next) next result }
    ensures still { StillWhereOn (E.stands_for engine.new) (E.phase engine.new) result }
    ensures limits { KeepsLimits (MayMeet (E.heap_pieces engine.old) (E.frames_pieces engine.old)) (MayMeet (E.heap_pieces engine.new) (E.frames_pieces engine.new)) }
    ensures writer { console.new.out.ghost_name ≡ console.old.out.ghost_name }
{
    let mut within = false;
    let mut answered = false;
    loop {
        let screen = Screen { waits, within };
        match engine.resume() {
            Pause::Output(bytes) => {
                console.write_output(bytes.as_slice())?;
                within = is_within(within, bytes.as_slice());
            }
            Pause::Answer(values) => {
                let piece = answer(alloc, screen, engine.ops(), names, values.as_slice());
                match put(console, waits, piece, Flow::On)? {
                    Flow::On => {}
                    flow => return Ok(flow),
                }
                match decide(alloc, input, console, waits)? {
                    Decision::Next => {}
                    Decision::Stop => return Ok(Flow::On),
                    Decision::NoMemory => return Ok(Flow::Stops(Limit::Memory)),
                }
                within = false;
                answered = true;
            }
            pause => {
                let ops = engine.ops();
                return end_query(alloc, ops, console, screen, answered, pause);
            }
        }
    }
}

/// Runs one query.
fn run_query<E: Engine, R: BufRead, W: Write>(
    alloc: Global,
    engine: &mut E,
    input: &mut R,
    console: &mut Console<'_, W>,
    read: &Read,
    manner: Manner,
) -> Result<Flow, Fault>
    requires ready { E.phase engine.old ≡ Ready }
    requires stands { (s : State) × E.stands_for engine.old s }
    requires fits { arities_fit (term_of read.now.term) ≡ true }
    requires numbered { IsNumbered (term_of read.now.term) }
    ensures does { (s : State) → E.stands_for engine.old s → (xs : List ℕ) → R.remaining input.old ≡ Some xs → (next : Behind)
        → Does manner.waits manner.budget (E.stands_for engine.new) (MayMeet (E.heap_pieces engine.new) (E.frames_pieces engine.new)) (E.phase engine.new)
        (place W.contents console.old) (place W.contents console.new) xs (R.remaining input.new)
        (query_shown manner.waits manner.budget (Readable (clause_read read.now)) s.world xs next) next result }
    ensures still { StillWhereOn (E.stands_for engine.new) (E.phase engine.new) result }
    ensures limits { KeepsLimits (MayMeet (E.heap_pieces engine.old) (E.frames_pieces engine.old)) (MayMeet (E.heap_pieces engine.new) (E.frames_pieces engine.new)) }
    ensures writer { console.new.out.ghost_name ≡ console.old.out.ghost_name }
{
    match engine.start(goal_of(&read.term), manner.budget) {
        Ok(()) => run_pauses(
            alloc,
            engine,
            input,
            console,
            read.names.as_slice(),
            manner.waits,
        ),
        Err(StartFault::HeapFull) => Ok(Flow::Stops(Limit::Heap)),
        Err(StartFault::NoMemory) => Ok(Flow::Stops(Limit::Memory)),
    }
}

/// Runs a query, or says that it can't be read.
fn run_item<E: Engine, R: BufRead, W: Write>(
    alloc: Global,
    engine: &mut E,
    input: &mut R,
    console: &mut Console<'_, W>,
    item: Item,
    manner: Manner,
) -> Result<Flow, Fault>
    requires ready { E.phase engine.old ≡ Ready }
    requires stands { (s : State) × E.stands_for engine.old s }
    requires fits { Fits item }
    ensures does { (s : State) → E.stands_for engine.old s → (xs : List ℕ) → R.remaining input.old ≡ Some xs → (next : Behind)
        → Does manner.waits manner.budget (E.stands_for engine.new) (MayMeet (E.heap_pieces engine.new) (E.frames_pieces engine.new)) (E.phase engine.new)
        (place W.contents console.old) (place W.contents console.new) xs (R.remaining input.new)
        (query_shown manner.waits manner.budget (item_read item) s.world xs next) next result }
    ensures still { StillWhereOn (E.stands_for engine.new) (E.phase engine.new) result }
    ensures limits { KeepsLimits (MayMeet (E.heap_pieces engine.old) (E.frames_pieces engine.old)) (MayMeet (E.heap_pieces engine.new) (E.frames_pieces engine.new)) }
    ensures writer { console.new.out.ghost_name ≡ console.old.out.ghost_name }
{
    match item {
        Item::Readable(read) => run_query(alloc, engine, input, console, &read, manner),
        Item::Unreadable => {
            let screen = Screen {
                waits: manner.waits,
                within: false,
            };
            let piece = text(alloc, screen, b"syntax error", b'\n');
            put(console, manner.waits, piece, Flow::On)
        }
    }
}

/// Runs the queries of a text, one after the other.
pub fn run_queries<E: Engine, R: BufRead, W: Write>(
    alloc: Global,
    engine: &mut E,
    input: &mut R,
    console: &mut Console<'_, W>,
    queries: &str,
    manner: Manner,
) -> Result<Flow, Fault>
    requires ready { E.phase engine.old ≡ Ready }
    requires stands { (s : State) × E.stands_for engine.old s }
    ensures does { (s : State) → E.stands_for engine.old s → (xs : List ℕ) → R.remaining input.old ≡ Some xs → (next : Behind)
        → Does manner.waits manner.budget (E.stands_for engine.new) (MayMeet (E.heap_pieces engine.new) (E.frames_pieces engine.new)) (E.phase engine.new)
        (place W.contents console.old) (place W.contents console.new) xs (R.remaining input.new)
        (text_shown manner.waits manner.budget queries.now s.world xs next) next result }
    ensures still { StillWhereOn (E.stands_for engine.new) (E.phase engine.new) result }
    ensures limits { KeepsLimits (MayMeet (E.heap_pieces engine.old) (E.frames_pieces engine.old)) (MayMeet (E.heap_pieces engine.new) (E.frames_pieces engine.new)) }
    ensures writer { console.new.out.ghost_name ≡ console.old.out.ghost_name }
{
    let mut tokens = Tokens::new(queries);
    loop {
        let Ok(next) = take_item(alloc, engine, &mut tokens) else {
            return Ok(Flow::Stops(Limit::Memory));
        };
        let Some(item) = next else {
            return Ok(Flow::On);
        };
        match run_item(alloc, engine, input, console, item, manner)? {
            Flow::On => {}
            flow => return Ok(flow),
        }
    }
}
