//! Calls with clauses left behind the first: where that cuts at once, no choice is pushed for them (7.8.4).
ghost use Rattle.std.specs.Prelude.{◌≡◌, ◌≢◌, ◌<◌, ◌≤◌, ◌+◌, ◌^◌, ℕ, List, Err, IfOk, IfSome, None, Ok, OnErr, Some};
ghost use Rattle.std.specs.Prelude.{Option, Result, length, true, vec_capacity, vec_len};
ghost use Rattle.iso_model.specs.Terms.Trees.{Tree};
ghost use Rattle.iso_model.specs.Search.Databases as databases;
ghost use Rattle.iso_model.specs.Search.Walker.{State, Member};
ghost use Rattle.iso_compile.specs.declared.control.Mark.TheVariants as mark;
ghost use Rattle.iso_compile.specs.Control.{height};
ghost use Rattle.iso_db.specs.Keyed.{remaining_keyed};
ghost use Rattle.iso_instructions.specs.declared.instructions.Instruction.TheVariants as instruction;
ghost use Rattle.iso_frames.specs.Frames.{Levels};
ghost use Rattle.iso_frames.specs.declared.frames.Next.TheVariants as next;
ghost use Rattle.iso_environments.specs.Answering.{IsArithmeticThere};
ghost use Rattle.iso_environments.specs.Leveled.{IsAtClause};
ghost use Rattle.iso_search_core.specs.declared.nows.Now.TheVariants as now;
ghost use Rattle.iso_search.specs.declared.calls.Next.TheVariants as calls;
ghost use Rattle.iso_search.specs.EngineStates.{IsEngine, Remains, Represents};
ghost use Rattle.iso_search.specs.Stays.{Stays};
ghost use Rattle.iso_machine.specs.Came.{CameLast, CameTo};
ghost use Rattle.iso_machine.specs.Engines.{Engine, framed};
ghost use Rattle.iso_machine.specs.GoalCalls.{CallsPut};
ghost use Rattle.iso_machine.specs.Instructions.{CutsAs, IsInstructionThere};
ghost use Rattle.iso_machine.specs.Lists.{cost_at};
ghost use Rattle.iso_machine.specs.Unpushed.{CallsFor, Choices, HasPushed, HoldsCall, IfPushed, IsBack, IsOpen, KeepsLater};
ghost use Rattle.iso_machine.specs.Unpushed.{with_choices};

use super::arithmetic::compute;
use super::calling::{Gone, enter_clause, keep_arguments};
use super::coming::go_on;
use super::control::height_at;
use super::framed::{Extent, Framed, KeptCall};
use super::goal_places::{Act, act_there};
use super::goals::code_first;
use super::retrying::enter_kept;
use iso_cells::Cells;
use iso_compile::Mark;
use iso_db::{ClauseId, KeyedView};
use iso_environments::Put;
use iso_frames::Rest;
use iso_program::left_clauses::next_left;
use iso_search::search::Search;
use iso_search_core::choices::{Attempt, Choice, Left};
use iso_search_core::lists::Lists;
use iso_search_core::nows::Now;
use iso_store_core::{Store, StoreFault};
use std::alloc::AllocError;

/// A choice for the later clauses of a call, which is not pushed yet.
#[derive(Clone, Copy)]
pub(crate) struct Unpushed<M> {
    /// What the store goes back to.
    pub(crate) mark: M,
    /// How much of the lists stood when it was made.
    pub(crate) kept: Extent,
    /// The clause that comes next.
    pub(crate) clause: ClauseId,
    /// The call, with its arguments.
    pub(crate) call: KeptCall,
}

/// Makes the choice for the later clauses of the call of this name, which the view gives; it keeps the arguments that
/// were put, and the view gives the clauses behind its own then. The error is that memory was refused.
fn keep_later<S: Cells + Drop>(
    search: &mut Search<S, Framed<S>>,
    later: &mut KeyedView,
    put: &Put,
) -> Result<Unpushed<S::Mark>, AllocError>
    requires { (first : ℕ) × (s : State) × (goal : Tree) × (c : databases.Clause) × (cs : List databases.Clause)
        × (behind : List Member) × CallsPut S.Store S.atom_word search.old first later.old
        put.now.name put.now.behind s goal c cs behind × (0 < length cs) }
    ensures keeps { IfOk result (λ u. KeepsLater S.Store S.atom_word search.old search.new later.old later.new
        put.now.name put.now.behind u) }
    ensures refused { (first : ℕ) (s : State) (goal : Tree) (c : databases.Clause) (cs : List databases.Clause)
        (behind : List Member) → CallsPut S.Store S.atom_word search.old first later.old
        put.now.name put.now.behind s goal c cs behind
        → OnErr result (Remains S.Store (framed S.atom_word) search.new s) }
    ensures holds { IfOk result (λ u. HoldsCall search.new.lists u) }
    ensures behind { cost_at search.new.lists put.now.behind ≡ cost_at search.old.lists put.now.behind }
    ensures same { search.new ≡ record search.old { store = search.new.store; lists = search.new.lists } }
    ensures stays { Stays S.Store search.old search.new }
{
    let Some(clause) = next_left(&search.db, later) else {
        unreachable!();
    };
    let call = keep_arguments(&mut search.lists, put.name)?;
    let kept = search.lists.kept();
    let mark = search.store.mark();
    Ok(Unpushed {
        mark,
        kept,
        clause,
        call,
    })
}

/// The place of the instruction that comes first, where it cuts back to this height as its clause was called.
#[inline(always)]
fn cut_first<S: Cells + Drop>(search: &Search<S, Framed<S>>, count: usize) -> Option<Rest>
    requires { (choices : Choices S.Word S.Mark) × (s : State)
        × IsEngine S.Store (framed S.atom_word) (with_choices search.now choices) s }
    ensures now { IfSome result (λ rest. search.entry.now.now ≡ now.Running (next.Code rest)) }
    ensures there { IfSome result (λ rest. IsInstructionThere search.entry.now.lists.frames.items rest
        (instruction.Cut mark.Clause)) }
    ensures cuts { IfSome result (λ rest. (f : _) (code : _) (level : Option _) (kept : ℕ → ℕ)
        → IsAtClause search.entry.now.lists.frames.items rest f code level
        → Levels search.entry.now.lists.frames.items rest.frame level kept
        → CutsAs count (height f.height kept mark.Clause)) }
{
    let rest = code_first(&search.now)?;
    let frames = search.lists.frames.as_slice();
    match act_there(frames, rest) {
        Act::Cuts(Mark::Clause) if height_at(frames, rest, Mark::Clause) == count => Some(rest),
        _ => None,
    }
}

/// Pushes the choice for the later clauses, behind which this view gives its others.
#[inline(always)]
fn push_kept<S: Cells + Drop>(
    search: &mut Search<S, Framed<S>>,
    kept: Unpushed<S::Mark>,
    later: &KeyedView,
    put: &Put,
)
    requires { vec_len search.old.choices < vec_capacity search.old.choices }
    ensures pushed { HasPushed search.old kept later.now put.now.behind search.new.choices }
    ensures same { search.new ≡ record search.old { choices = search.new.choices } }
{
    let attempt = Attempt {
        clause: kept.clause,
        later: *later,
        call: kept.call,
    };
    search.choices.push_reserved(Choice {
        mark: kept.mark,
        kept: kept.kept,
        rest: put.behind,
        left: Left::Clauses(attempt),
    });
}

/// Goes on behind the head of a clause with later ones: where it cuts at once the choice for those isn't pushed, and
/// the engine goes on behind the cut.
#[inline(always)]
fn cut_or_push<S: Cells + Drop>(
    search: &mut Search<S, Framed<S>>,
    kept: Unpushed<S::Mark>,
    later: &KeyedView,
    put: &Put,
)
    requires room { vec_len search.old.choices < vec_capacity search.old.choices }
    requires few { length search.old.choices.items < 2 ^ 32 }
    requires stands { IfPushed search.old kept later.now put.now.behind
        (λ e. (s : State) × Represents S.Store (framed S.atom_word) e s) }
    ensures came { (first : Engine S S.Word S.Mark)
        → IfPushed search.old kept later.now put.now.behind (CameTo S.Store S.atom_word first (Ok calls.Went))
        → CameTo S.Store S.atom_word first (Ok calls.Went) search.new }
    ensures steps { search.new.steps ≡ search.old.steps }
{
    let Some(rest) = cut_first(search, search.choices.len()) else {
        push_kept(search, kept, later, put);
        return;
    };
    search.store.forget(kept.mark);
    let below = Rest {
        frame: rest.frame,
        address: rest.address - 1,
    };
    go_on(&mut search.now, &search.lists, Some(below));
}

/// Goes back to where the first clause was tried, and asks for the clause behind the next one. Where there is none, no
/// choice is left to be pushed.
#[inline(always)]
fn go_to_next<S: Cells + Drop>(
    search: &mut Search<S, Framed<S>>,
    later: &mut KeyedView,
    kept: Unpushed<S::Mark>,
    put: &Put,
) -> Option<ClauseId>
    requires failing { search.old.now ≡ now.Failing }
    requires stands { (choices : Choices S.Word S.Mark) × HasPushed search.old kept later.old put.now.behind choices
        × ((s : State) × Represents S.Store (framed S.atom_word) (with_choices search.old choices) s) }
    ensures next { (choices : Choices S.Word S.Mark) (others : Choices S.Word S.Mark) (s : State) (clause : ℕ)
        → HasPushed search.old kept later.old put.now.behind choices
        → Represents S.Store (framed S.atom_word) (with_choices search.old choices) s → result ≡ Some clause
        → HasPushed search.new (record kept { clause = clause }) later.new put.now.behind others
        → IsBack S.Store S.atom_word (with_choices search.old choices) (with_choices search.new others)
        (record { clause = kept.clause; later = later.old; call = kept.call }) put.now.behind
        (length search.old.choices.items) }
    ensures last { (choices : Choices S.Word S.Mark) (s : State)
        → HasPushed search.old kept later.old put.now.behind choices
        → Represents S.Store (framed S.atom_word) (with_choices search.old choices) s → result ≡ None
        → IsBack S.Store S.atom_word (with_choices search.old choices) search.new
        (record { clause = kept.clause; later = later.old; call = kept.call }) put.now.behind
        (length search.old.choices.items) }
    ensures falls { IfSome result (λ clause. remaining_keyed later.new < remaining_keyed later.old) }
    ensures holds { HoldsCall search.old.lists kept → HoldsCall search.new.lists kept }
    ensures same { search.new ≡ record search.old { store = search.new.store; lists = search.new.lists } }
{
    search.store.undo(kept.mark);
    search.lists.cut_down(kept.kept);
    match next_left(&search.db, later) {
        Some(next) => Some(next),
        None => {
            search.store.forget(kept.mark);
            None
        }
    }
}

/// The place of the instruction that comes first, where it does arithmetic and a step is left.
#[inline(always)]
fn sum_first<S: Cells + Drop>(search: &Search<S, Framed<S>>) -> Option<Rest>
    requires { (choices : Choices S.Word S.Mark) × (s : State)
        × IsEngine S.Store (framed S.atom_word) (with_choices search.now choices) s }
    ensures now { IfSome result (λ rest. search.entry.now.now ≡ now.Running (next.Code rest)) }
    ensures there { IfSome result (λ rest. IsArithmeticThere search.entry.now.lists.frames.items rest) }
    ensures more { IfSome result (λ rest. search.entry.now.steps ≢ 0) }
{
    let rest = code_first(&search.now)?;
    match act_there(search.lists.frames.as_slice(), rest) {
        Act::Computes if search.steps != 0 => Some(rest),
        _ => None,
    }
}

/// What trying the clauses behind the first one came to.
#[derive(Clone, Copy)]
enum Tried {
    /// A clause was entered, and others are left.
    Entered,
    /// Others are left, and what was tried was refused.
    Refused(StoreFault),
    /// The last one was tried.
    Last(Result<Gone, StoreFault>),
}

/// Tries the clauses that are left, one after another, as long as the engine fails; the number is that of the one that
/// was tried last. Arithmetic that comes first is done, where a step is left. The last one of all makes no frame where
/// that may be so and its body is one goal of a procedure.
#[inline(always)]
fn try_others<S: Cells + Drop>(
    search: &mut Search<S, Framed<S>>,
    clause: &mut ClauseId,
    later: &mut KeyedView,
    kept: &mut Unpushed<S::Mark>,
    put: &Put,
    last: bool,
) -> Tried
    requires few { length search.old.choices.items < 2 ^ 32 }
    requires holds { HoldsCall search.old.lists kept.old }
    requires came { (first : Engine S S.Word S.Mark) × (s : State) × Represents S.Store (framed S.atom_word) first s
        × IfPushed search.old kept.old later.old put.now.behind (CameTo S.Store S.atom_word first (Ok calls.Went)) }
    ensures entered { (first : Engine S S.Word S.Mark)
        → IfPushed search.old kept.old later.old put.now.behind (CameTo S.Store S.atom_word first (Ok calls.Went))
        → result ≡ Tried.Entered
        → IfPushed search.new kept.new later.new put.now.behind (CameTo S.Store S.atom_word first (Ok calls.Went)) }
    ensures refused { (first : Engine S S.Word S.Mark) (fault : StoreFault)
        → IfPushed search.old kept.old later.old put.now.behind (CameTo S.Store S.atom_word first (Ok calls.Went))
        → result ≡ Tried.Refused fault
        → IfPushed search.new kept.new later.new put.now.behind (CameTo S.Store S.atom_word first (Err fault)) }
    ensures last { (first : Engine S S.Word S.Mark) (done : Result Gone StoreFault)
        → IfPushed search.old kept.old later.old put.now.behind (CameTo S.Store S.atom_word first (Ok calls.Went))
        → result ≡ Tried.Last done
        → CameLast S.Store S.atom_word first done search.new clause.new put.now.behind }
    ensures alone { (done : Result Gone StoreFault) → result ≡ Tried.Last done → done ≡ Ok Gone.Last → last ≡ true }
    ensures same { search.new.choices ≡ search.old.choices }
    ensures fewer { result ≡ Tried.Entered → search.new.steps ≤ search.old.steps }
    ensures fewest { (done : Result Gone StoreFault) → result ≡ Tried.Last done
        → search.new.steps ≤ search.old.steps }
{
    let below = search.choices.len();
    loop {
        if let Some(rest) = sum_first(search) {
            match compute(search, rest) {
                Ok(()) => continue,
                Err(fault) => return Tried::Refused(fault),
            }
        }
        let Now::Failing = search.now else {
            return Tried::Entered;
        };
        *clause = kept.clause;
        let Some(next) = go_to_next(search, later, *kept, put) else {
            return Tried::Last(enter_kept(search, *clause, kept.call, put.behind, below, last));
        };
        kept.clause = next;
        match enter_kept(search, *clause, kept.call, put.behind, below, false) {
            Ok(Gone::Went) => continue,
            Ok(Gone::Full) => unreachable!(),
            Ok(Gone::Last) => unreachable!(),
            Err(fault) => return Tried::Refused(fault),
        }
    }
}

/// Goes on behind the first clause, which was entered: to those behind it, and to the choice where it is needed. The
/// errors: the store is full, or memory was refused.
#[inline(always)]
fn settle<S: Cells + Drop>(
    search: &mut Search<S, Framed<S>>,
    clause: &mut ClauseId,
    later: &mut KeyedView,
    kept: Unpushed<S::Mark>,
    put: &Put,
    last: bool,
) -> Result<Gone, StoreFault>
    requires room { vec_len search.old.choices < vec_capacity search.old.choices }
    requires few { length search.old.choices.items < 2 ^ 32 }
    requires holds { HoldsCall search.old.lists kept }
    requires came { (first : Engine S S.Word S.Mark) × (s : State) × Represents S.Store (framed S.atom_word) first s
        × IfPushed search.old kept later.old put.now.behind (CameTo S.Store S.atom_word first (Ok calls.Went)) }
    ensures came { (first : Engine S S.Word S.Mark)
        → IfPushed search.old kept later.old put.now.behind (CameTo S.Store S.atom_word first (Ok calls.Went))
        → CameLast S.Store S.atom_word first result search.new clause.new put.now.behind }
    ensures alone { result ≡ Ok Gone.Last → last ≡ true }
    ensures steps { IfOk result (λ done. search.new.steps ≤ search.old.steps) }
{
    let mut kept = kept;
    match try_others(search, clause, later, &mut kept, put, last) {
        Tried::Entered => {
            cut_or_push(search, kept, later, put);
            Ok(Gone::Went)
        }
        Tried::Refused(fault) => {
            push_kept(search, kept, later, put);
            Err(fault)
        }
        Tried::Last(done) => done,
    }
}

/// Calls the procedure of this name with the arguments that were put, where a choice may come for the clauses behind
/// this one, which the view gives, one at least. The clauses are tried one after another, and a choice comes only
/// behind one that is entered and doesn't cut at once. The errors: the store is full, or memory was refused.
#[inline(never)]
pub(crate) fn call_with_later<S: Cells + Drop>(
    search: &mut Search<S, Framed<S>>,
    clause: &mut ClauseId,
    later: &mut KeyedView,
    put: &Put,
    last: bool,
) -> Result<Gone, StoreFault>
    requires calls { (s : State) × (goal : Tree) × (c : databases.Clause) × (cs : List databases.Clause)
        × (behind : List Member) × CallsPut S.Store S.atom_word search.old clause.old later.old
        put.now.name put.now.behind s goal c cs behind × (0 < length cs) }
    requires room { length search.old.choices.items < search.old.limit }
    requires few { length search.old.choices.items < 2 ^ 32 }
    requires goes { (first : Engine S S.Word S.Mark) × (s : State) × Represents S.Store (framed S.atom_word) first s
        × CallsFor S.Store S.atom_word first search.old clause.old later.old put.now.name put.now.behind }
    ensures came { (first : Engine S S.Word S.Mark)
        → CallsFor S.Store S.atom_word first search.old clause.old later.old put.now.name put.now.behind
        → CameLast S.Store S.atom_word first result search.new clause.new put.now.behind }
    ensures alone { result ≡ Ok Gone.Last → last ≡ true }
    ensures steps { IfOk result (λ done. search.new.steps ≤ search.old.steps) }
{
    search.choices.reserve(1)?;
    let kept = keep_later(search, later, put)?;
    let below = search.choices.len();
    match enter_clause(search, *clause, put, below, false) {
        Ok(Gone::Went) => settle(search, clause, later, kept, put, last),
        Ok(Gone::Full) => unreachable!(),
        Ok(Gone::Last) => unreachable!(),
        Err(fault) => {
            push_kept(search, kept, later, put);
            Err(fault)
        }
    }
}
