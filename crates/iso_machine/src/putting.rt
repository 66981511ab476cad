//! Goals whose arguments were put: their words, what they call, and the call of a clause (7.7.7).
ghost use Rattle.std.specs.Prelude.{◌≡◌, ◌≢◌, ◌<◌, ◌≤◌, ◌+◌, ◌-◌, ℕ, Ok, Err, IfOk, OnOk, OnErr, length, map, max};
ghost use Rattle.std.specs.Prelude.{true};
ghost use Rattle.std.specs.List.{All};
ghost use Rattle.iso_atoms.specs.Texts.{text_at};
ghost use Rattle.iso_model.specs.Search.Walker.{State, World};
ghost use Rattle.iso_store_core.specs.Presents.{Grows, Holds, KeepsNumbers, Makes, meaning};
ghost use Rattle.iso_store_core.specs.Retaining.{CountsCells, RetainsAll};
ghost use Rattle.iso_db.specs.Presents.{contents};
ghost use Rattle.iso_db.specs.Keyed.{remaining_keyed};
ghost use Rattle.iso_program.specs.Callables.{Finds};
ghost use Rattle.iso_program.specs.Keying.{AreKeyed};
ghost use Rattle.iso_search_core.specs.declared.nows.Now.TheVariants as now;
ghost use Rattle.iso_frames.specs.declared.frames.Next.TheVariants as next;
ghost use Rattle.iso_frames.specs.Costs.{compound_cells};
ghost use Rattle.iso_frames.specs.Frames.{depth_of, top_of};
ghost use Rattle.iso_environments.specs.Goals.{goal_of};
ghost use Rattle.iso_environments.specs.Putting.{IsCallThere};
ghost use Rattle.iso_search.specs.declared.calls.Called.TheVariants as call;
ghost use Rattle.iso_search.specs.Called.{IsCalled};
ghost use Rattle.iso_search.specs.EngineStates.{IsAhead, Represents, Refused, kept_cost, leaves_of};
ghost use Rattle.iso_search.specs.Stays.{Stays};
ghost use Rattle.iso_search.specs.Worlds.{IsWorld};
ghost use Rattle.iso_machine.specs.Came.{Came, CameLast};
ghost use Rattle.iso_machine.specs.Engines.{Engine, framed};
ghost use Rattle.iso_machine.specs.GoalCalls.{IsCallPut, IsToCall, IsShown, goal_put};
ghost use Rattle.iso_machine.specs.Lists.{IsPut, cost_at};
ghost use Rattle.iso_machine.specs.Newest.{frames_kept, words_kept};

use super::calling::{Gone, enter_clause, give_up, lacks_room};
use super::framed::Framed;
use super::shallow::call_with_later;
use iso_atoms::Atom;
use iso_cells::Cells;
use iso_db::{ClauseId, KeyedView};
use iso_environments::Put;
use iso_frames::{Next as First, Rest};
use iso_model::Limit;
use iso_program::left_clauses::has_left;
use iso_search::calls::{Called, Next, NextGoal};
use iso_search::search::Search;
use iso_search_core::nows::Now;
use iso_store_core::{Store, StoreFault};

/// Takes the step of a call of this name, whose arguments were put, and gives up what the list from the place on
/// doesn't need.
#[inline(always)]
fn make_ready<S: Cells + Drop>(search: &mut Search<S, Framed<S>>, name: Atom, behind: Option<Rest>)
    requires more { search.old.steps ≢ 0 }
    requires name { name < length (S.names search.old.store) }
    requires hold { All (Holds (S.present search.old.store)) search.old.lists.arguments.items }
    requires stands { (s : State) × IsAhead S.Store (framed S.atom_word) search.old s behind }
    ensures ahead { (s : State) → IsAhead S.Store (framed S.atom_word) search.old s behind
        → IsAhead S.Store (framed S.atom_word) search.new (record s { steps = search.old.steps - 1 }) behind }
    ensures put { IsPut S.atom_word (S.present search.new.store) search.new.lists name
        (goal_put S.Store S.atom_word search.old name) }
    ensures steps { search.new.steps ≡ search.old.steps - 1 }
    ensures names { S.names search.new.store ≡ S.names search.old.store }
    ensures clauses { search.new.db ≡ search.old.db }
    ensures costs { kept_cost (framed S.atom_word) search.new ≡ kept_cost (framed S.atom_word) search.old }
    ensures behind { cost_at search.new.lists behind ≡ cost_at search.old.lists behind }
    ensures frames { length search.new.lists.frames.items
        ≤ max (frames_kept search.old.choices.items) (depth_of behind) }
    ensures words { length search.new.lists.words.items
        ≤ max (words_kept search.old.choices.items) (top_of search.old.lists.frames.items behind) }
    ensures stays { Stays S.Store search.old search.new }
{
    search.steps -= 1;
    search.store.know_atoms();
    give_up(search, behind);
}

/// Makes the call of the goal whose arguments were put: this clause is entered, or one of those behind it, which it is
/// then. Where that may be so, and no clause is left behind it, it is without a frame where its body is one goal of a
/// procedure. The errors: the store is full, or memory was refused.
#[inline(always)]
pub(crate) fn go<S: Cells + Drop>(
    search: &mut Search<S, Framed<S>>,
    clause: &mut ClauseId,
    later: &mut KeyedView,
    put: &Put,
    last: bool,
) -> Result<Gone, StoreFault>
    requires { (old : Engine S S.Word S.Mark) × (s : State) × Represents S.Store (framed S.atom_word) old s
        × IsToCall S.Store S.atom_word old search.old clause.old later.old put.now.name put.now.behind }
    ensures came { (old : Engine S S.Word S.Mark)
        → IsToCall S.Store S.atom_word old search.old clause.old later.old put.now.name put.now.behind
        → CameLast S.Store S.atom_word old result search.new clause.new put.now.behind }
    ensures alone { result ≡ Ok Gone.Last → last ≡ true }
    ensures steps { IfOk result (λ gone. search.new.steps < search.old.steps) }
{
    make_ready(search, put.name, put.behind);
    if lacks_room(search, *clause, later, put, last) {
        search.now = Now::Spent(Limit::Frames);
        return Ok(Gone::Full);
    }
    if has_left(&search.db, later) {
        let mut entered = *clause;
        let gone = call_with_later(search, &mut entered, later, put, last)?;
        *clause = entered;
        return Ok(gone);
    }
    let mark = search.choices.len();
    match enter_clause(search, *clause, put, mark, last)? {
        Gone::Went => Ok(Gone::Went),
        Gone::Full => unreachable!(),
        Gone::Last => Ok(Gone::Last),
    }
}

/// The word of the goal of this name with these arguments. The errors: the store is full, or memory was refused.
fn make_goal<S: Store>(
    store: &mut S,
    name: Atom,
    arguments: &[S::Word],
) -> Result<S::Word, StoreFault>
    requires name { name < length (S.names store.old) }
    requires few { length arguments.now < 256 }
    requires hold { All (Holds (S.present store.old)) arguments.now }
    ensures made { IfOk result (λ goal. Makes (S.present store.old) (S.present store.new) goal
        (goal_of (text_at (S.names store.old) name) (map (S.present store.old).term arguments.now))) }
    ensures numbers { OnOk result (KeepsNumbers (S.present store.old) (S.present store.new)) }
    ensures cells { CountsCells S.Store
        → Grows (S.present store.old) (S.present store.new) (compound_cells (length arguments.now)) 0 }
    ensures full { result ≡ Err StoreFault.Full → S.full store.new }
    ensures rest { RetainsAll S.Store store.old store.new }
{
    if arguments.is_empty() {
        store.atom(name)
    } else {
        store.compound(name, arguments)
    }
}

/// Makes the word of the goal whose arguments were put; it comes first then. The errors: the store is full, or memory
/// was refused.
pub(crate) fn show_goal<S: Cells + Drop>(
    search: &mut Search<S, Framed<S>>,
    name: Atom,
    behind: Option<Rest>,
) -> Result<S::Word, StoreFault>
    requires { (old : Engine S S.Word S.Mark) × (s : State) × Represents S.Store (framed S.atom_word) old s
        × IsCallPut S.Store S.atom_word old search.old name behind
        (compound_cells (length search.old.lists.arguments.items)) }
    ensures shown { (old : Engine S S.Word S.Mark) → IsCallPut S.Store S.atom_word old search.old name behind
        (compound_cells (length search.old.lists.arguments.items))
        → IfOk result (λ goal. IsShown S.Store S.atom_word old search.new goal behind
        (goal_put S.Store S.atom_word search.old name)) }
    ensures stopped { (old : Engine S S.Word S.Mark) (s : State)
        → IsCallPut S.Store S.atom_word old search.old name behind
        (compound_cells (length search.old.lists.arguments.items))
        → Represents S.Store (framed S.atom_word) old s
        → OnErr result (Refused S.Store (framed S.atom_word) search.new s) }
    ensures same { search.new ≡ record search.old { store = search.new.store; now = search.new.now } }
    ensures names { S.names search.new.store ≡ S.names search.old.store }
    ensures full { result ≡ Err StoreFault.Full → S.full search.new.store }
    ensures stays { Stays S.Store search.old search.new }
{
    let goal = make_goal(&mut search.store, name, search.lists.arguments.as_slice())?;
    search.now = Now::Running(First::Goal(goal, behind));
    Ok(goal)
}

/// Makes the word of the goal whose arguments were put; it comes first then, and is left, with what it calls. The
/// errors: the store is full, or memory was refused.
pub(crate) fn show_next<S: Cells + Drop>(
    search: &mut Search<S, Framed<S>>,
    name: Atom,
    behind: Option<Rest>,
    called: Called,
    asked: &mut Option<NextGoal<S::Word, Option<Rest>>>,
) -> Result<Next, StoreFault>
    requires { (old : Engine S S.Word S.Mark) × (s : State) × Represents S.Store (framed S.atom_word) old s
        × IsCallPut S.Store S.atom_word old search.old name behind
        (compound_cells (length search.old.lists.arguments.items)) }
    ensures { (old : Engine S S.Word S.Mark) (later : KeyedView)
        → IsCallPut S.Store S.atom_word old search.old name behind
        (compound_cells (length search.old.lists.arguments.items))
        → ((w : World) → IsWorld S.Store (framed S.atom_word) search.old w
        → IsCalled (leaves_of S.Store (framed S.atom_word) search.old) later w
        (goal_put S.Store S.atom_word search.old name) called)
        → (search.old.steps ≢ 0 → (clause : ℕ) → called ≢ call.User clause)
        → Came S.Store S.atom_word old result asked.new search.new }
{
    let goal = show_goal(search, name, behind)?;
    let rest = behind;
    *asked = Some(NextGoal { goal, rest, called });
    Ok(Next::Other)
}

/// What the goal of this name calls whose arguments were put, one at least. `later`, which gave nothing, gives the
/// clauses behind the first then.
pub(crate) fn called_put<S: Cells + Drop>(
    search: &Search<S, Framed<S>>,
    name: Atom,
    later: &mut KeyedView,
) -> Called
    requires some { 0 < length search.now.lists.arguments.items }
    requires hold { All (Holds (S.present search.now.store)) search.now.lists.arguments.items }
    requires name { name < length (S.names search.now.store) }
    requires found { Finds (S.names search.now.store) search.now.callables.items (contents search.now.db) }
    requires keyed { AreKeyed search.now.db }
    requires nothing { remaining_keyed later.old ≡ 0 }
    ensures { (w : World) → IsWorld S.Store (framed S.atom_word) search.entry.now w
        → IsCalled (leaves_of S.Store (framed S.atom_word) search.entry.now) later.new w
        (goal_put S.Store S.atom_word search.entry.now name) result }
{
    let first = search.lists.arguments.as_slice()[0];
    search.named(name, search.lists.arguments.len(), Some(first), later)
}
