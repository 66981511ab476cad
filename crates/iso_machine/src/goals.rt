//! Goals are called, by the words that they are or by the arguments that were put (7.7.7).
ghost use Rattle.std.specs.Prelude.{◌≡◌, ◌≢◌, ◌<◌, ◌≤◌, ℕ, IfOk, IfSome, MatchOption, Ok, OnOk, length, true};
ghost use Rattle.iso_atoms.specs.Texts.{text_at};
ghost use Rattle.iso_model.specs.Search.Keys.{Key, key_of};
ghost use Rattle.iso_model.specs.Search.Walker.{State, World};
ghost use Rattle.iso_model.specs.Terms.Sorts.{is_term};
ghost use Rattle.iso_store_core.specs.ArgumentWords.{AreArguments};
ghost use Rattle.iso_store_core.specs.Presents.{Holds, meaning};
ghost use Rattle.iso_search_core.specs.Replies.{HasName};
ghost use Rattle.iso_search_core.specs.declared.nows.Now.TheVariants as now;
ghost use Rattle.iso_frames.specs.declared.frames.Next.TheVariants as next;
ghost use Rattle.iso_frames.specs.Costs.{compound_cells};
ghost use Rattle.iso_environments.specs.Putting.{IsCallThere};
ghost use Rattle.iso_db.specs.declared.keyed.KeyedView.{KeyedView};
ghost use Rattle.iso_search.specs.declared.calls.Called.TheVariants as call;
ghost use Rattle.iso_search.specs.Called.{CallsAt, IsCalled};
ghost use Rattle.iso_search.specs.declared.calls.Next.TheVariants as calls;
ghost use Rattle.iso_search.specs.EngineStates.{Represents, leaves_of};
ghost use Rattle.iso_search.specs.Nexts.{IsGoalFirst};
ghost use Rattle.iso_search.specs.Retrying.{TriesNext};
ghost use Rattle.iso_search.specs.Worlds.{IsWorld};
ghost use Rattle.iso_machine.specs.Came.{Came, CameTo, IsBehindCalls, went_on};
ghost use Rattle.iso_machine.specs.Engines.{Engine, framed};
ghost use Rattle.iso_machine.specs.GoalCalls.{IsCallPut, goal_put};

use super::arithmetic::compute;
use super::built_ins::{goal_fails, run_library};
use super::calling::Gone;
use super::control::cut_back;
use super::framed::{Framed, KeptCall};
use super::goal_places::{Act, GoalPlace, act_there, put_next};
use super::outcomes::{behind_others, fails_now};
use super::putting::{called_put, go, show_goal, show_next};
use super::retrying::try_next;
use iso_atoms::Atom;
use iso_cells::Cells;
use iso_db::{ClauseId, KeyedView};
use iso_environments::{Put, Words};
use iso_frames::{Next as First, Rest};
use iso_model::{BuiltIn, NoMemory};
use iso_search::calls::{Called, Next, NextGoal};
use iso_search::retries::Retry;
use iso_search::search::Search;
use iso_search_core::goals::read_arguments;
use iso_search_core::nows::Now;
use iso_store_core::{Shape, Store, StoreFault};

/// The name of the goal that the word stands for.
fn name_of<S: Store>(store: &S, goal: S::Word) -> Atom
    requires goal { Holds (S.present store.now) goal }
    requires named { (k : Key) × (key_of (meaning (S.present store.now) goal) ≡ Some k) }
    ensures atom { result < length (S.names store.now) }
    ensures name { HasName (text_at (S.names store.now) result) (meaning (S.present store.now) goal) }
{
    match store.shape(goal) {
        Shape::Atom(name) => name,
        Shape::Compound(name, _) => name,
        Shape::Var(_) | Shape::Int(_) => unreachable!(),
    }
}

/// Reads the arguments of the goal that the word stands for, in place of those that were put. The list is for words,
/// and loses what it had. The error is that memory was refused.
fn read_goal<S: Store>(
    store: &S,
    goal: S::Word,
    made: &mut Vec<S::Word>,
    arguments: &mut Words<S::Word>,
) -> Result<(), NoMemory>
    requires { Holds (S.present store.now) goal }
    ensures arguments { OnOk result (AreArguments (S.present store.now) arguments.new.items
        (meaning (S.present store.now) goal)) }
    ensures term { is_term (meaning (S.present store.now) goal) ≡ true }
{
    read_arguments(store, goal, made)?;
    arguments.clear();
    arguments.push_all(made.as_slice())?;
    Ok(())
}

/// Calls the procedure of the goal that comes first, which the word stands for: reads its arguments, and enters this
/// clause. The errors: the store is full, or memory was refused.
fn go_word<S: Cells + Drop>(
    search: &mut Search<S, Framed<S>>,
    clause: ClauseId,
    later: &mut KeyedView,
    goal: S::Word,
    behind: Option<Rest>,
) -> Result<Next, StoreFault>
    requires first { IsGoalFirst S.Store (framed S.atom_word) search.old goal behind }
    requires more { search.old.steps ≢ 0 }
    requires calls { (w : World) → IsWorld S.Store (framed S.atom_word) search.old w
        → CallsAt (leaves_of S.Store (framed S.atom_word) search.old) w
        (meaning (S.present search.old.store) goal) clause later.old }
    requires stands { (s : State) × Represents S.Store (framed S.atom_word) search.old s }
    ensures { CameTo S.Store S.atom_word search.old result search.new }
{
    let name = name_of(&search.store, goal);
    let lists = &mut search.lists;
    read_goal(&search.store, goal, &mut lists.made, &mut lists.arguments)?;
    let put = Put { name, behind };
    let mut clause = clause;
    match go(search, &mut clause, later, &put, false)? {
        Gone::Went => Ok(Next::Went),
        Gone::Full => Ok(Next::Full),
        Gone::Last => unreachable!(),
    }
}

/// Calls the procedure of the goal that comes first, which the word stands for, where it is one with clauses and a step
/// is left; where it fails as it is, that is done. Anything else is left as it is. The errors: the store is full, or
/// memory was refused.
pub(crate) fn call_word<S: Cells + Drop>(
    search: &mut Search<S, Framed<S>>,
    goal: S::Word,
    behind: Option<Rest>,
    asked: &mut Option<NextGoal<S::Word, Option<Rest>>>,
) -> Result<Next, StoreFault>
    requires first { IsGoalFirst S.Store (framed S.atom_word) search.old goal behind }
    requires stands { (s : State) × Represents S.Store (framed S.atom_word) search.old s }
    ensures { Came S.Store S.atom_word search.old result asked.new search.new }
{
    let mut later = KeyedView::nothing();
    let called = search.called(goal, &mut later);
    let rest = behind;
    if search.steps == 0 {
        *asked = Some(NextGoal { goal, rest, called });
        return Ok(Next::Other);
    }
    if fails_now(&called) {
        goal_fails(search);
        return Ok(Next::Went);
    }
    match called {
        Called::User(clause) => go_word(search, clause, &mut later, goal, rest),
        called => {
            *asked = Some(NextGoal { goal, rest, called });
            Ok(Next::Other)
        }
    }
}

/// Calls the goal whose arguments were put, where it has none: it comes first as a word, and is called then. Where a
/// call went before it, what is left of it is left to the next move. The errors: the store is full, or memory was
/// refused.
fn call_atom<S: Cells + Drop>(
    search: &mut Search<S, Framed<S>>,
    put: Put,
    went: bool,
    asked: &mut Option<NextGoal<S::Word, Option<Rest>>>,
) -> Result<Next, StoreFault>
    requires { (old : Engine S S.Word S.Mark) × (whole : Engine S S.Word S.Mark) × (s : State)
        × Represents S.Store (framed S.atom_word) whole s × IsBehindCalls S.Store S.atom_word old whole went
        × IsCallPut S.Store S.atom_word whole search.old put.name put.behind
        (compound_cells (length search.old.lists.arguments.items)) }
    ensures { (old : Engine S S.Word S.Mark) (whole : Engine S S.Word S.Mark) (s : State)
        → Represents S.Store (framed S.atom_word) whole s → IsBehindCalls S.Store S.atom_word old whole went
        → IsCallPut S.Store S.atom_word whole search.old put.name put.behind
        (compound_cells (length search.old.lists.arguments.items))
        → Came S.Store S.atom_word old result asked.new search.new }
{
    let goal = show_goal(search, put.name, put.behind)?;
    let came = call_word(search, goal, put.behind, asked);
    if went {
        return behind_others(came);
    }
    came
}

/// Does the goal whose arguments were put, which calls this and no clause now, where it fails as it is or is one of a
/// built-in that runs no other goal, and a step is left; any other comes first as a word, and is left. The errors: the
/// store is full, or memory was refused.
fn leave_goal<S: Cells + Drop>(
    search: &mut Search<S, Framed<S>>,
    put: Put,
    called: Called,
    went: bool,
    asked: &mut Option<NextGoal<S::Word, Option<Rest>>>,
) -> Result<Next, StoreFault>
    requires { (old : Engine S S.Word S.Mark) × (whole : Engine S S.Word S.Mark) × (s : State)
        × Represents S.Store (framed S.atom_word) whole s × IsBehindCalls S.Store S.atom_word old whole went
        × IsCallPut S.Store S.atom_word whole search.old put.name put.behind
        (compound_cells (length search.old.lists.arguments.items))
        × ((later : KeyedView) × ((w : World) → IsWorld S.Store (framed S.atom_word) search.old w
        → IsCalled (leaves_of S.Store (framed S.atom_word) search.old) later w
        (goal_put S.Store S.atom_word search.old put.name) called)) }
    ensures { (old : Engine S S.Word S.Mark) (whole : Engine S S.Word S.Mark) (s : State) (later : KeyedView)
        → Represents S.Store (framed S.atom_word) whole s → IsBehindCalls S.Store S.atom_word old whole went
        → IsCallPut S.Store S.atom_word whole search.old put.name put.behind
        (compound_cells (length search.old.lists.arguments.items))
        → ((w : World) → IsWorld S.Store (framed S.atom_word) search.old w
        → IsCalled (leaves_of S.Store (framed S.atom_word) search.old) later w
        (goal_put S.Store S.atom_word search.old put.name) called)
        → (search.old.steps ≢ 0 → (clause : ℕ) → called ≢ call.User clause)
        → Came S.Store S.atom_word old result asked.new search.new }
{
    match called {
        Called::Fails if search.steps != 0 => {
            goal_fails(search);
            Ok(Next::Went)
        }
        Called::BuiltIn(BuiltIn::Library(row)) if search.steps != 0 => {
            run_library(search, row, put)?;
            Ok(Next::Went)
        }
        _ if went => {
            show_goal(search, put.name, put.behind)?;
            Ok(Next::Went)
        }
        _ => show_next(search, put.name, put.behind, called, asked),
    }
}

/// The place of the instruction that comes first, where one does.
#[inline(always)]
pub(crate) fn code_first<W: Copy>(doing: &Now<First<W>, Option<Rest>>) -> Option<Rest>
    ensures { IfSome result (λ rest. doing.now ≡ now.Running (next.Code rest)) }
{
    match doing {
        Now::Running(First::Code(rest)) => Some(*rest),
        _ => None,
    }
}

/// What the newest choice tries next, where the engine fails and clauses are left there.
#[inline(always)]
fn next_try<S: Cells + Drop>(search: &Search<S, Framed<S>>) -> Option<Retry<KeptCall, Option<Rest>>>
    ensures { IfSome result (λ retry. (search.entry.now.now ≡ now.Failing) × TriesNext search.entry.now retry) }
{
    let Now::Failing = search.now else {
        return None;
    };
    search.next_retry()
}

/// Does arithmetic and cuts, as long as they come first, arithmetic only where a step is left; and tries clauses again
/// where the engine fails and some are left. Gives the place of the instruction that comes first then, where it calls a
/// goal. The errors: the store is full, or memory was refused.
fn go_to_call<S: Cells + Drop>(
    search: &mut Search<S, Framed<S>>,
) -> Result<Option<Rest>, StoreFault>
    requires { (s : State) × Represents S.Store (framed S.atom_word) search.old s }
    ensures came { (old : Engine S S.Word S.Mark) → CameTo S.Store S.atom_word old (Ok calls.Went) search.old
        → CameTo S.Store S.atom_word old (went_on result) search.new }
    ensures there { IfOk result (λ found. IfSome found (λ rest. (search.new.now ≡ now.Running (next.Code rest))
        × IsCallThere search.new.lists.frames.items rest)) }
    ensures steps { IfOk result (λ found. search.new.steps ≤ search.old.steps) }
{
    loop {
        let Some(rest) = code_first(&search.now) else {
            let Some(retry) = next_try(search) else {
                return Ok(None);
            };
            try_next(search, retry)?;
            continue;
        };
        match act_there(search.lists.frames.as_slice(), rest) {
            Act::Calls => return Ok(Some(rest)),
            Act::Computes if search.steps != 0 => compute(search, rest)?,
            Act::Cuts(mark) => cut_back(search, rest, mark),
            _ => return Ok(None),
        }
    }
}

/// Calls the procedure of the goal that the instruction there calls, where it is one with clauses and a step is left;
/// anything else comes first as a word, and is left. The goal that comes first then is called so, too, as long as an
/// instruction calls it, behind arithmetic and cuts or not, or it is the one goal of a clause without a frame. One that
/// can't be called comes first as a word. The errors: the store is full, or memory was refused.
pub(crate) fn call_goal<S: Cells + Drop>(
    search: &mut Search<S, Framed<S>>,
    rest: Rest,
    asked: &mut Option<NextGoal<S::Word, Option<Rest>>>,
) -> Result<Next, StoreFault>
    requires now { search.old.now ≡ now.Running (next.Code rest) }
    requires there { IsCallThere search.old.lists.frames.items rest }
    requires stands { (s : State) × Represents S.Store (framed S.atom_word) search.old s }
    ensures { Came S.Store S.atom_word search.old result asked.new search.new }
{
    let mut place = GoalPlace::There(rest);
    let mut went = false;
    let mut later = KeyedView::nothing();
    loop {
        let put = put_next(search, place)?;
        if search.lists.arguments.as_slice().is_empty() {
            return call_atom(search, put, went, asked);
        }
        later.clear();
        let called = called_put(search, put.name, &mut later);
        let mut clause = match called {
            Called::User(clause) if search.steps != 0 => clause,
            _ => return leave_goal(search, put, called, went, asked),
        };
        match go(search, &mut clause, &mut later, &put, true)? {
            Gone::Went => match go_to_call(search)? {
                Some(rest) => place = GoalPlace::There(rest),
                None => return Ok(Next::Went),
            },
            Gone::Full => return Ok(Next::Full),
            Gone::Last => place = GoalPlace::Last(clause, put.behind),
        }
        went = true;
    }
}
