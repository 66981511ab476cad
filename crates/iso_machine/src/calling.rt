//! The moves at a goal of a procedure: its clauses are entered, and a choice keeps those behind (7.7.7, 7.7.10).
ghost use Rattle.std.specs.Prelude.{◌≡◌, ◌≢◌, ◌<◌, ◌≤◌, ◌+◌, ◌-◌, ◌^◌, ℕ, List, ◌∷◌, Ok, Err, Option, Some};
ghost use Rattle.std.specs.Prelude.{IfOk, OnOk, OnErr};
ghost use Rattle.std.specs.Prelude.{length, map, max, true, false};
ghost use Rattle.std.specs.List.{All};
ghost use Rattle.iso_model.specs.Terms.Trees.{Name, Tree};
ghost use Rattle.iso_model.specs.Search.Databases as databases;
ghost use Rattle.iso_model.specs.Search.Engines.{IsAwake};
ghost use Rattle.iso_model.specs.Search.Walker.{State, Member, tried, tried_clause, with_others};
ghost use Rattle.iso_db.specs.declared.keyed.KeyedView.{KeyedView};
ghost use Rattle.iso_store_core.specs.Presents.{Present, Holds, meaning};
ghost use Rattle.iso_plain_core.specs.Entering.{Adds};
ghost use Rattle.iso_search_core.specs.Bodies.{body_cost, left_cost, most};
ghost use Rattle.iso_search.specs.EngineStates.{IsAhead, Remains, StandsAs, WasRefused, cost, kept_cost};
ghost use Rattle.iso_search.specs.EngineStates.{phase_of};
ghost use Rattle.iso_search.specs.Stays.{Stays};
ghost use Rattle.iso_frames.specs.Frames.{depth_of, top_of};
ghost use Rattle.iso_machine.specs.declared.framed.KeptCall.{KeptCall};
ghost use Rattle.iso_machine.specs.Engines.{IsBeyond, framed};
ghost use Rattle.iso_machine.specs.LastCalls.{GoesLast};
ghost use Rattle.iso_environments.specs.Goals.{goal_of};
ghost use Rattle.iso_machine.specs.GoalCalls.{CallsPut};
ghost use Rattle.iso_machine.specs.Lists.{IsFor, KeepsFrames, arguments_at, cost_at, extent_of};
ghost use Rattle.iso_machine.specs.Newest.{frames_kept, words_kept};
ghost use Rattle.iso_machine.specs.Unpushed.{Choices, Entering, IsToEnter, with_choices};

use super::coming::go_on;
use super::entering::{Entered, enter, makes_frame};
use super::framed::{Framed, KeptCall};
use super::room::has_room;
use iso_atoms::Atom;
use iso_cells::Cells;
use iso_db::{ClauseId, KeyedView};
use iso_environments::{self as environments, Put};
use iso_frames::Rest;
use iso_program::left_clauses::{has_left, next_left};
use iso_search::search::Search;
use iso_search_core::choices::{Attempt, Left};
use iso_search_core::nows::Now;
use iso_store_core::{Store, StoreFault};
use std::alloc::AllocError;

/// What entering a clause came to.
#[derive(Clone, Copy)]
pub(crate) enum Gone {
    /// The engine went on.
    Went,
    /// No frame and no choice may come any more: the clause wasn't entered.
    Full,
    /// The clause was entered, whose body is one goal of a procedure: it has no frame, and its environment is the last
    /// of the words.
    Last,
}

/// How many frames and words the newest choice keeps; none where no choice stands.
#[inline(always)]
fn kept_by_newest<S: Cells + Drop>(search: &Search<S, Framed<S>>) -> (usize, usize)
    ensures frames { result.0 ≡ frames_kept search.entry.now.choices.items }
    ensures words { result.1 ≡ words_kept search.entry.now.choices.items }
{
    match search.choices.last() {
        Some(choice) => (choice.kept.frames, choice.kept.words),
        None => (0, 0),
    }
}

/// Gives up the frames and words that neither the newest choice nor the list from the place on has.
#[inline(always)]
pub(crate) fn give_up<S: Cells + Drop>(search: &mut Search<S, Framed<S>>, behind: Option<Rest>)
    requires { (s : State) × IsAhead S.Store (framed S.atom_word) search.old s behind }
    ensures ahead { (s : State) → IsAhead S.Store (framed S.atom_word) search.old s behind
        → IsAhead S.Store (framed S.atom_word) search.new s behind }
    ensures same { search.new ≡ record search.old { lists = search.new.lists } }
    ensures arguments { search.new.lists
        ≡ record search.old.lists { frames = search.new.lists.frames; words = search.new.lists.words } }
    ensures costs { kept_cost (framed S.atom_word) search.new ≡ kept_cost (framed S.atom_word) search.old }
    ensures behind { cost_at search.new.lists behind ≡ cost_at search.old.lists behind }
    ensures frames { length search.new.lists.frames.items
        ≤ max (frames_kept search.old.choices.items) (depth_of behind) }
    ensures words { length search.new.lists.words.items
        ≤ max (words_kept search.old.choices.items) (top_of search.old.lists.frames.items behind) }
    ensures stays { Stays S.Store search.old search.new }
{
    let (frames, words) = kept_by_newest(search);
    let lists = &mut search.lists;
    environments::give_up(&mut lists.frames, &mut lists.words, frames, words, behind);
}

/// Keeps the call of this name with the arguments that were put: their words come behind the others. The error is that
/// memory was refused.
pub(crate) fn keep_arguments<S: Cells>(
    lists: &mut Framed<S>,
    name: Atom,
) -> Result<KeptCall, AllocError>
    ensures is_for { (p : Present S.Word) (f : List ℕ) → Holds p (S.atom_word name)
        → p.term (S.atom_word name) ≡ Name f → All (Holds p) lists.old.arguments.items
        → IfOk result (λ c. IsFor S.atom_word p lists.new (extent_of lists.new) c
        (goal_of f (map (meaning p) lists.old.arguments.items))) }
    ensures keeps { KeepsFrames S.atom_word (λ j. Unit {0}) lists.old lists.new }
    ensures words { Adds lists.old.words.items lists.new.words.items }
    ensures many { IfOk result (λ c. length lists.new.words.items
        ≡ length lists.old.words.items + length lists.old.arguments.items) }
    ensures name { IfOk result (λ c. c.name ≡ name) }
    ensures arguments { IfOk result (λ c. arguments_at lists.new c ≡ lists.old.arguments.items) }
    ensures place { IfOk result (λ c. c.start + c.count ≡ length lists.new.words.items) }
    ensures same { lists.new ≡ record lists.old { words = lists.new.words } }
{
    let start = lists.words.len();
    lists.words.push_all(lists.arguments.as_slice())?;
    Ok(KeptCall {
        name,
        start,
        count: lists.arguments.len(),
    })
}

/// The arguments of the call that is kept come back, in place of those that were put. The error is that memory was
/// refused.
pub(crate) fn take_arguments<S: Cells>(
    lists: &mut Framed<S>,
    call: KeptCall,
) -> Result<(), AllocError>
    requires { call.start + call.count ≤ length lists.old.words.items }
    ensures arguments { OnOk result (lists.new.arguments.items ≡ arguments_at lists.old call) }
    ensures same { lists.new ≡ record lists.old { arguments = lists.new.arguments } }
{
    lists.arguments.clear();
    let words = &lists.words.as_slice()[call.start..][..call.count];
    lists.arguments.push_all(words)
}

/// Whether a clause may have no frame: where it is said to be the last, and frames are few.
fn may_go_last<S: Cells + Drop>(search: &Search<S, Framed<S>>, last: bool) -> bool
    ensures last { result ≡ true → last ≡ true }
    ensures few { result ≡ true → length search.entry.now.lists.frames.items < 2 ^ 32 }
{
    last && search.lists.frames.len() < search.limit as usize
}

/// Enters the clause for the call of this name whose arguments were put, before the list from this place on, with this
/// cut mark; where its head doesn't unify with the call the engine fails next (7.7.10). It makes no frame where it is
/// said to be the last and its body is one goal of a procedure. Which choices stand is no matter. The errors: the store
/// is full, or memory was refused.
#[inline(never)]
pub(crate) fn enter_clause<S: Cells + Drop>(
    search: &mut Search<S, Framed<S>>,
    clause: ClauseId,
    put: &Put,
    mark: usize,
    last: bool,
) -> Result<Gone, StoreFault>
    requires { (choices : Choices S.Word S.Mark) × IsToEnter S.Store S.atom_word (with_choices search.old choices)
        clause put.now.name put.now.behind }
    ensures itself { Entering S.Store S.atom_word search.old search.new clause put.now.name put.now.behind mark result }
    ensures over { (choices : Choices S.Word S.Mark) → Entering S.Store S.atom_word (with_choices search.old choices)
        (with_choices search.new choices) clause put.now.name put.now.behind mark result }
    ensures alone { result ≡ Ok Gone.Last → last ≡ true }
    ensures entered { result ≢ Ok Gone.Full }
    ensures arguments { search.new.lists.arguments ≡ search.old.lists.arguments }
    ensures words { Adds search.old.lists.words.items search.new.lists.words.items }
    ensures awake { result ≡ Ok Gone.Went → IsAwake (phase_of search.new.now) }
    ensures heap { result ≡ Err StoreFault.Full → S.full search.new.store }
    ensures same { search.new ≡ record search.old {
      store = search.new.store;
      lists = search.new.lists;
      now = search.new.now;
    } }
    ensures stays { Stays S.Store search.old search.new }
{
    let last = may_go_last(search, last);
    let entered = search.db.clause(clause);
    match enter(
        &mut search.store,
        &mut search.lists,
        entered,
        put,
        mark,
        last,
    )? {
        Entered::Missed => search.now = Now::Failing,
        Entered::Last => return Ok(Gone::Last),
        Entered::At(place) => go_on(&mut search.now, &search.lists, place),
    }
    Ok(Gone::Went)
}

/// Whether a choice or a frame is to come for the call, of which this clause comes first and then those that the view
/// gives, and none may come any more.
#[inline(always)]
pub(crate) fn lacks_room<S: Cells + Drop>(
    search: &Search<S, Framed<S>>,
    clause: ClauseId,
    later: &KeyedView,
    put: &Put,
    last: bool,
) -> bool
    requires { (s : State) × (goal : Tree) × (c : databases.Clause) × (cs : List databases.Clause)
        × (behind : List Member) × (name : ℕ) × CallsPut S.Store S.atom_word search.now clause later.now
        name put.now.behind s goal c cs behind }
    ensures beyond { result ≡ true → IsBeyond S.Store S.atom_word search.entry.now put.now.behind }
    ensures room { (first : ℕ) (s : State) (goal : Tree) (c : databases.Clause) (cs : List databases.Clause)
        (behind : List Member) (name : ℕ) → CallsPut S.Store S.atom_word search.entry.now first later.now
        name put.now.behind s goal c cs behind
        → result ≡ false → 0 < length cs → length search.entry.now.choices.items < search.entry.now.limit }
    ensures few { (first : ℕ) (s : State) (goal : Tree) (c : databases.Clause) (cs : List databases.Clause)
        (behind : List Member) (name : ℕ) → CallsPut S.Store S.atom_word search.entry.now first later.now
        name put.now.behind s goal c cs behind
        → result ≡ false → 0 < length cs → length search.entry.now.choices.items < 2 ^ 32 }
{
    if search.choices.len() + search.lists.frames.len() < search.limit as usize {
        return false;
    }
    lacks_more(search, clause, later, put, last)
}

/// The same, where frames and choices are many.
#[cold]
#[inline(never)]
fn lacks_more<S: Cells + Drop>(
    search: &Search<S, Framed<S>>,
    clause: ClauseId,
    later: &KeyedView,
    put: &Put,
    last: bool,
) -> bool
    requires { (s : State) × (goal : Tree) × (c : databases.Clause) × (cs : List databases.Clause)
        × (behind : List Member) × (name : ℕ) × CallsPut S.Store S.atom_word search.now clause later.now
        name put.now.behind s goal c cs behind }
    ensures beyond { result ≡ true → IsBeyond S.Store S.atom_word search.entry.now put.now.behind }
    ensures room { (first : ℕ) (s : State) (goal : Tree) (c : databases.Clause) (cs : List databases.Clause)
        (behind : List Member) (name : ℕ) → CallsPut S.Store S.atom_word search.entry.now first later.now
        name put.now.behind s goal c cs behind
        → result ≡ false → 0 < length cs → length search.entry.now.choices.items < search.entry.now.limit }
    ensures few { (first : ℕ) (s : State) (goal : Tree) (c : databases.Clause) (cs : List databases.Clause)
        (behind : List Member) (name : ℕ) → CallsPut S.Store S.atom_word search.entry.now first later.now
        name put.now.behind s goal c cs behind
        → result ≡ false → 0 < length cs → length search.entry.now.choices.items < 2 ^ 32 }
{
    if has_room(search, &put.behind) {
        return false;
    }
    if has_left(&search.db, later) {
        return true;
    }
    makes_frame(search.db.clause(clause).own.kept.as_ref(), last)
}
