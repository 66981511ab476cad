//! Running the queries, each to its end.
ghost use Rattle.std.specs.Prelude.{◌≡◌, ℕ, true, length};
ghost use Rattle.iso_model.specs.Search.Engines.{Ready, IsAwake, MayMeet, KeepsLimits};
ghost use Rattle.iso_model.specs.Syntax.Grammar.{ReadTerm};
ghost use Rattle.iso_model.specs.Syntax.Items.{Readable};
ghost use Rattle.iso_model.specs.Session.Sessions.{Script, Closes, Done, query_goal, query_script, queries_script};
ghost use Rattle.iso_model.specs.Terms.TermOf.{term_of};
ghost use Rattle.iso_model.specs.Terms.Copies.{IsNumbered};
ghost use Rattle.iso_model.specs.Syntax.Tokens.{tokens};
ghost use Rattle.iso_model.specs.Terms.Trees.{arities_fit};
ghost use Rattle.iso_model.specs.Search.Walker.{State, World, started};
ghost use Rattle.iso_read.specs.Answers.{clause_read};
ghost use Rattle.iso_session_core.specs.Named.{names_of};
ghost use Rattle.iso_session_core.specs.Consoles.{place};
ghost use Rattle.iso_session_core.specs.Progress.{Does, EndsQuery};
ghost use Rattle.iso_session_core.specs.Read.{item_read, Fits};

use super::composed;
use super::console::Console;
use super::flows::Flow;
use super::items::{Item, take_item};
use super::statuses::Fault;
use super::terms::goal_of;
use iso_model::{Engine, Limit, Pause, StartFault};
use iso_ops::OpTable;
use iso_read::Read;
use iso_token::Tokens;
use std::alloc::Global;
use std::io::Write;

/// Writes what a pause ends its query with, and says how the session goes on; these are the operators then. Answers and
/// outputs end no query, and a query that runs is not spent.
fn end_query<W: Write>(
    alloc: Global,
    ops: &OpTable,
    console: &mut Console<'_, W>,
    pause: Pause,
) -> Result<Flow, Fault>
    ensures ends { EndsQuery ops.now pause (place W.contents console.old) (place W.contents console.new) result }
    ensures writer { console.new.out.ghost_name ≡ console.old.out.ghost_name }
{
    match pause {
        Pause::NoMore => console.put_fixed(b"end: no more\n", Flow::On),
        Pause::Budget => console.put_fixed(b"end: budget\n", Flow::On),
        Pause::Uncaught(ball) => {
            let line = composed::error_line(alloc, ops, &*ball.term);
            console.put_line(line, Flow::On)
        }
        Pause::Halt(status) => {
            let line = composed::halt_line(alloc, status);
            console.put_line(line, Flow::Halts(status))
        }
        Pause::HeapFull => Ok(Flow::Stops(Limit::Heap)),
        Pause::FramesFull => Ok(Flow::Stops(Limit::Frames)),
        Pause::NoMemory => Ok(Flow::Stops(Limit::Memory)),
        Pause::Answer(_) | Pause::Output(_) | Pause::Spent => Ok(Flow::On),
    }
}

/// Runs the query that was started to its end; each output and answer is written before the search goes on.
fn run_pauses<E: Engine, W: Write>(
    alloc: Global,
    engine: &mut E,
    console: &mut Console<'_, W>,
    names: &[(String, u64)],
) -> Result<Flow, Fault>
    requires awake { IsAwake (E.phase engine.old) }
    requires stands { (s : State) × E.stands_for engine.old s }
    ensures does { (query : ReadTerm) (w : World) (budget : ℕ) → names_of names.now ≡ query.names
        → E.stands_for engine.old (started (query_goal query.term) budget w) → (next : World → Script)
        → Does budget (E.stands_for engine.new) (MayMeet (E.heap_pieces engine.new) (E.frames_pieces engine.new)) (E.phase engine.new)
        (place W.contents console.old) (place W.contents console.new)
        (query_script budget (Readable query) w next) next result }
    ensures limits { KeepsLimits (MayMeet (E.heap_pieces engine.old) (E.frames_pieces engine.old)) (MayMeet (E.heap_pieces engine.new) (E.frames_pieces engine.new)) }
    ensures writer { console.new.out.ghost_name ≡ console.old.out.ghost_name }
{
    let mut count: u64 = 0;
    loop {
        match engine.resume() {
            Pause::Output(bytes) => console.write_output(bytes.as_slice())?,
            Pause::Answer(values) => {
                count = count.saturating_add(1);
                let ops = engine.ops();
                let line = composed::answer_line(alloc, ops, count, names, values.as_slice());
                match console.put_line(line, Flow::On)? {
                    Flow::On => {}
                    flow => return Ok(flow),
                }
            }
            pause => return end_query(alloc, engine.ops(), console, pause),
        }
    }
}

/// Runs one query.
fn run_query<E: Engine, W: Write>(
    alloc: Global,
    engine: &mut E,
    console: &mut Console<'_, W>,
    read: &Read,
    budget: u32,
) -> Result<Flow, Fault>
    requires ready { E.phase engine.old ≡ Ready }
    requires stands { (s : State) × E.stands_for engine.old s }
    requires fits { arities_fit (term_of read.now.term) ≡ true }
    requires numbered { IsNumbered (term_of read.now.term) }
    ensures does { (s : State) → E.stands_for engine.old s → (next : World → Script)
        → Does budget (E.stands_for engine.new) (MayMeet (E.heap_pieces engine.new) (E.frames_pieces engine.new)) (E.phase engine.new)
        (place W.contents console.old) (place W.contents console.new)
        (query_script budget (Readable (clause_read read.now)) s.world next) next result }
    ensures limits { KeepsLimits (MayMeet (E.heap_pieces engine.old) (E.frames_pieces engine.old)) (MayMeet (E.heap_pieces engine.new) (E.frames_pieces engine.new)) }
    ensures writer { console.new.out.ghost_name ≡ console.old.out.ghost_name }
{
    match engine.start(goal_of(&read.term), budget) {
        Ok(()) => run_pauses(alloc, engine, console, read.names.as_slice()),
        Err(StartFault::HeapFull) => Ok(Flow::Stops(Limit::Heap)),
        Err(StartFault::NoMemory) => Ok(Flow::Stops(Limit::Memory)),
    }
}

/// Runs a query, or says that it can't be read.
fn run_item<E: Engine, W: Write>(
    alloc: Global,
    engine: &mut E,
    console: &mut Console<'_, W>,
    item: Item,
    budget: u32,
) -> Result<Flow, Fault>
    requires ready { E.phase engine.old ≡ Ready }
    requires stands { (s : State) × E.stands_for engine.old s }
    requires fits { Fits item }
    ensures does { (s : State) → E.stands_for engine.old s → (next : World → Script)
        → Does budget (E.stands_for engine.new) (MayMeet (E.heap_pieces engine.new) (E.frames_pieces engine.new)) (E.phase engine.new)
        (place W.contents console.old) (place W.contents console.new)
        (query_script budget (item_read item) s.world next) next result }
    ensures limits { KeepsLimits (MayMeet (E.heap_pieces engine.old) (E.frames_pieces engine.old)) (MayMeet (E.heap_pieces engine.new) (E.frames_pieces engine.new)) }
    ensures writer { console.new.out.ghost_name ≡ console.old.out.ghost_name }
{
    match item {
        Item::Readable(read) => run_query(alloc, engine, console, &read, budget),
        Item::Unreadable => console.put_fixed(b"end: syntax error\n", Flow::On),
    }
}

/// Runs the queries, one after the other.
pub fn run_queries<E: Engine, W: Write>(
    alloc: Global,
    engine: &mut E,
    console: &mut Console<'_, W>,
    queries: &str,
    budget: u32,
) -> Result<Flow, Fault>
    requires ready { E.phase engine.old ≡ Ready }
    requires stands { (s : State) × E.stands_for engine.old s }
    ensures does { (s : State) → E.stands_for engine.old s
        → Does budget (E.stands_for engine.new) (MayMeet (E.heap_pieces engine.new) (E.frames_pieces engine.new)) (E.phase engine.new)
        (place W.contents console.old) (place W.contents console.new)
        (queries_script (length (tokens queries.now)) budget (tokens queries.now) s.world) (λ _. Closes Done) result }
    ensures limits { KeepsLimits (MayMeet (E.heap_pieces engine.old) (E.frames_pieces engine.old)) (MayMeet (E.heap_pieces engine.new) (E.frames_pieces engine.new)) }
    ensures writer { console.new.out.ghost_name ≡ console.old.out.ghost_name }
{
    let mut tokens = Tokens::new(queries);
    loop {
        let Ok(next) = take_item(alloc, engine, &mut tokens) else {
            return Ok(Flow::Stops(Limit::Memory));
        };
        let Some(item) = next else {
            return Ok(Flow::On);
        };
        match run_item(alloc, engine, console, item, budget)? {
            Flow::On => {}
            flow => return Ok(flow),
        }
    }
}
