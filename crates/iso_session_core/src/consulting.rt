//! Consulting the program text: its clauses are added, its directives are run, now or behind it, and what is passed
//! over or no term has a line that says so.
ghost use Rattle.std.specs.Prelude.{◌≡◌, ℕ, true, List, [], ◌∷◌, ◌++◌, length, OnOk, OnErr};
ghost use Rattle.iso_model.specs.Search.Additions.{consulted};
ghost use Rattle.iso_model.specs.Search.Engines.{Ready, MayMeet, KeepsLimits};
ghost use Rattle.iso_model.specs.Session.Sessions.{Script, added_script, read_script, term_script, text_script, kept_script};
ghost use Rattle.iso_model.specs.Session.Directives.{Kept as KeptGoal, text_term as text_term_is};
ghost use Rattle.iso_model.specs.Terms.Copies.{IsNumbered};
ghost use Rattle.iso_model.specs.Terms.TermOf.{term_of};
ghost use Rattle.iso_model.specs.Syntax.Tokens.{tokens};
ghost use Rattle.iso_model.specs.Terms.Trees.{arities_fit};
ghost use Rattle.iso_model.specs.Search.Walker.{World, State};
ghost use Rattle.iso_session_core.specs.Consoles.{place};
ghost use Rattle.iso_session_core.specs.Progress.{Does, IsCount};
ghost use Rattle.iso_session_core.specs.Directed.{AreKept, Keeps};
ghost use Rattle.iso_session_core.specs.Read.{item_read, Fits};

use super::composed;
use super::console::Console;
use super::directives::{Kept, run_directive, run_kept};
use super::flows::Flow;
use super::items::{Item, take_item};
use super::statuses::Fault;
use super::terms::{TextTerm, text_term};
use iso_model::{AddFault, Engine, Limit, Term, copied};
use iso_token::Tokens;
use std::alloc::{AllocError, Global};
use std::io::Write;

/// Adds the K-th term of the text as a clause, or says that it is refused.
fn add_clause<E: Engine, W: Write>(
    alloc: Global,
    engine: &mut E,
    console: &mut Console<'_, W>,
    number: u64,
    term: &Term,
) -> Result<Flow, Fault>
    requires ready { E.phase engine.old ≡ Ready }
    requires stands { (s : State) × E.stands_for engine.old s }
    requires fits { arities_fit (term_of term.now) ≡ true }
    ensures does { (s : State) → E.stands_for engine.old s → (k : ℕ) → IsCount number k → (budget : ℕ) (next : World → Script)
        → Does budget (E.stands_for engine.new) (MayMeet (E.heap_pieces engine.new) (E.frames_pieces engine.new)) (E.phase engine.new)
        (place W.contents console.old) (place W.contents console.new)
        (added_script k (consulted (term_of term.now) s.world.database) s.world next) next result }
    ensures limits { KeepsLimits (MayMeet (E.heap_pieces engine.old) (E.frames_pieces engine.old)) (MayMeet (E.heap_pieces engine.new) (E.frames_pieces engine.new)) }
    ensures writer { console.new.out.ghost_name ≡ console.old.out.ghost_name }
{
    match engine.consult(term) {
        Ok(()) => Ok(Flow::On),
        Err(AddFault::NoMemory) => Ok(Flow::Stops(Limit::Memory)),
        Err(AddFault::Refused(ball)) => {
            let line = composed::refused_line(alloc, engine.ops(), number, &*ball.term);
            console.put_line(line, Flow::On)
        }
    }
}

/// Keeps the goal of the K-th term. The error is that memory was refused; the kept goals are as they were then.
fn keep_goal(
    alloc: Global,
    number: u64,
    goal: &Term,
    kept: &mut Vec<Kept>,
) -> Result<(), AllocError>
    requires fits { arities_fit (term_of goal.now) ≡ true }
    requires numbered { IsNumbered (term_of goal.now) }
    ensures ok { OnOk result ((goals : List KeptGoal) → AreKept kept.old.items goals → (k : ℕ) → IsCount number k
        → AreKept kept.new.items (goals ++ record { place = k; goal = term_of goal.now } ∷ [])) }
    ensures err { OnErr result (kept.new.items ≡ kept.old.items) }
{
    let goal = copied(alloc, goal)?;
    kept.push(Kept { number, goal })?;
    Ok(())
}

/// Consults the K-th term of the text: a clause is added, a directive is run or its goal kept, and of a term that is
/// passed over the session says so.
fn consult_read<E: Engine, W: Write>(
    alloc: Global,
    engine: &mut E,
    console: &mut Console<'_, W>,
    number: u64,
    term: &Term,
    budget: u32,
    kept: &mut Vec<Kept>,
) -> Result<Flow, Fault>
    requires ready { E.phase engine.old ≡ Ready }
    requires stands { (s : State) × E.stands_for engine.old s }
    requires fits { arities_fit (term_of term.now) ≡ true }
    requires numbered { IsNumbered (term_of term.now) }
    ensures does { (s : State) → E.stands_for engine.old s → (k : ℕ) → IsCount number k → (goals : List KeptGoal) → AreKept kept.old.items goals
        → (next : List KeptGoal → World → Script) → Keeps kept.new.items (λ later. Does budget (E.stands_for engine.new) (MayMeet (E.heap_pieces engine.new) (E.frames_pieces engine.new)) (E.phase engine.new)
        (place W.contents console.old) (place W.contents console.new)
        (read_script budget k (text_term_is (term_of term.now)) (term_of term.now) s.world goals next) (next later) result) }
    ensures limits { KeepsLimits (MayMeet (E.heap_pieces engine.old) (E.frames_pieces engine.old)) (MayMeet (E.heap_pieces engine.new) (E.frames_pieces engine.new)) }
    ensures writer { console.new.out.ghost_name ≡ console.old.out.ghost_name }
{
    match text_term(term) {
        TextTerm::Clause => add_clause(alloc, engine, console, number, term),
        TextTerm::Directive(goal) => run_directive(alloc, engine, console, number, goal, budget),
        TextTerm::Initialization(goal) => match keep_goal(alloc, number, goal, kept) {
            Ok(()) => Ok(Flow::On),
            Err(AllocError) => Ok(Flow::Stops(Limit::Memory)),
        },
        TextTerm::PassedOver => {
            let line = composed::skipped_line(alloc, number);
            console.put_line(line, Flow::On)
        }
    }
}

/// Consults the K-th item of the text.
fn consult_item<E: Engine, W: Write>(
    alloc: Global,
    engine: &mut E,
    console: &mut Console<'_, W>,
    number: u64,
    item: Item,
    budget: u32,
    kept: &mut Vec<Kept>,
) -> Result<Flow, Fault>
    requires ready { E.phase engine.old ≡ Ready }
    requires stands { (s : State) × E.stands_for engine.old s }
    requires fits { Fits item }
    ensures does { (s : State) → E.stands_for engine.old s → (k : ℕ) → IsCount number k → (goals : List KeptGoal) → AreKept kept.old.items goals
        → (next : List KeptGoal → World → Script) → Keeps kept.new.items (λ later. Does budget (E.stands_for engine.new) (MayMeet (E.heap_pieces engine.new) (E.frames_pieces engine.new)) (E.phase engine.new)
        (place W.contents console.old) (place W.contents console.new)
        (term_script budget k (item_read item) s.world goals next) (next later) result) }
    ensures limits { KeepsLimits (MayMeet (E.heap_pieces engine.old) (E.frames_pieces engine.old)) (MayMeet (E.heap_pieces engine.new) (E.frames_pieces engine.new)) }
    ensures writer { console.new.out.ghost_name ≡ console.old.out.ghost_name }
{
    match item {
        Item::Readable(read) => {
            consult_read(alloc, engine, console, number, &read.term, budget, kept)
        }
        Item::Unreadable => {
            let line = composed::syntax_error_line(alloc, number);
            console.put_line(line, Flow::On)
        }
    }
}

/// Consults the items of the text, one after the other, and keeps the goals that are run behind it.
fn consult_items<E: Engine, W: Write>(
    alloc: Global,
    engine: &mut E,
    console: &mut Console<'_, W>,
    text: &str,
    budget: u32,
    kept: &mut Vec<Kept>,
) -> Result<Flow, Fault>
    requires ready { E.phase engine.old ≡ Ready }
    requires stands { (s : State) × E.stands_for engine.old s }
    requires none { kept.old.items ≡ [] }
    ensures does { (s : State) → E.stands_for engine.old s
        → (next : List KeptGoal → World → Script) → Keeps kept.new.items (λ later. Does budget (E.stands_for engine.new) (MayMeet (E.heap_pieces engine.new) (E.frames_pieces engine.new)) (E.phase engine.new)
        (place W.contents console.old) (place W.contents console.new)
        (text_script budget (length (tokens text.now)) 1 (tokens text.now) s.world [] next) (next later) result) }
    ensures limits { KeepsLimits (MayMeet (E.heap_pieces engine.old) (E.frames_pieces engine.old)) (MayMeet (E.heap_pieces engine.new) (E.frames_pieces engine.new)) }
    ensures writer { console.new.out.ghost_name ≡ console.old.out.ghost_name }
{
    let mut tokens = Tokens::new(text);
    let mut number: u64 = 0;
    loop {
        let Ok(next) = take_item(alloc, engine, &mut tokens) else {
            return Ok(Flow::Stops(Limit::Memory));
        };
        let Some(item) = next else {
            return Ok(Flow::On);
        };
        number = number.saturating_add(1);
        match consult_item(alloc, engine, console, number, item, budget, kept)? {
            Flow::On => {}
            flow => return Ok(flow),
        }
    }
}

/// Consults the text, item by item, and then runs the goals that it kept.
pub fn consult_text<E: Engine, W: Write>(
    alloc: Global,
    engine: &mut E,
    console: &mut Console<'_, W>,
    text: &str,
    budget: u32,
) -> Result<Flow, Fault>
    requires ready { E.phase engine.old ≡ Ready }
    requires stands { (s : State) × E.stands_for engine.old s }
    ensures does { (s : State) → E.stands_for engine.old s → (next : World → Script)
        → Does budget (E.stands_for engine.new) (MayMeet (E.heap_pieces engine.new) (E.frames_pieces engine.new)) (E.phase engine.new)
        (place W.contents console.old) (place W.contents console.new)
        (text_script budget (length (tokens text.now)) 1 (tokens text.now) s.world [] (λ goals w. kept_script budget goals w next)) next result }
    ensures limits { KeepsLimits (MayMeet (E.heap_pieces engine.old) (E.frames_pieces engine.old)) (MayMeet (E.heap_pieces engine.new) (E.frames_pieces engine.new)) }
    ensures writer { console.new.out.ghost_name ≡ console.old.out.ghost_name }
{
    let mut kept = Vec::new(alloc);
    match consult_items(alloc, engine, console, text, budget, &mut kept)? {
        Flow::On => run_kept(alloc, engine, console, kept.as_slice(), budget),
        flow => Ok(flow),
    }
}
