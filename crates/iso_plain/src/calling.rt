//! The moves at a goal of a procedure: its clauses are entered, and a choice keeps those behind (7.7.7, 7.7.10).
ghost use Rattle.std.specs.Prelude.{◌≡◌, ◌<◌, ◌≤◌, ◌+◌, true, false, OnOk, OnErr, Ok, List, ◌∷◌, length, Err, ℕ};
ghost use Rattle.iso_model.specs.Terms.Trees.{Tree};
ghost use Rattle.iso_model.specs.Search.Databases as databases;
ghost use Rattle.iso_model.specs.Search.Engines.{IsAwake};
ghost use Rattle.iso_model.specs.Search.Walker.{State, Member, tried, tried_clause, with_others};
ghost use Rattle.iso_db.specs.declared.keyed.KeyedView.{KeyedView};
ghost use Rattle.iso_store_core.specs.Presents.{Present};
ghost use Rattle.iso_plain_core.specs.declared.entries.Entered.TheVariants as came;
ghost use Rattle.iso_search_core.specs.Bodies.{body_cost, left_cost, most};
ghost use Rattle.iso_search_core.specs.Costs.{now_cost};
ghost use Rattle.iso_search.specs.EngineStates.{StandsAs, Remains, Calls, WasRefused, kept_cost, cost, phase_of};
ghost use Rattle.iso_search.specs.Stays.{Stays};
ghost use Rattle.iso_plain.specs.Links.{IsList, cost_at, extent_of, first_cost};
ghost use Rattle.iso_plain.specs.Engines.{ComesBehind, linked};

use super::linked::Linked;
use iso_db::{ClauseId, KeyedView};
use iso_plain_core::entries::{self, Entered};
use iso_plain_core::members::{Link, Todo};
use iso_program::left_clauses::{has_left, next_left};
use iso_search::search::Search;
use iso_search_core::choices::{Attempt, Left};
use iso_search_core::lists::Lists;
use iso_search_core::nows::Now;
use iso_store_core::{Store, StoreFault};
use std::alloc::AllocError;

/// What to do behind a clause that was tried, with this cut mark, before the members from this place on.
fn behind_clause<S: Store>(
    lists: &Linked<S>,
    entered: Entered,
    mark: usize,
    rest: Option<usize>,
) -> Now<Link, Option<usize>>
    requires list { (p : Present S.Word) × (ms : List Member) × IsList p lists.now (extent_of lists.now) rest ms }
    requires within { (body : ℕ) → entered ≡ came.Body body → body < length lists.now.nodes.items }
    ensures comes { (p : Present S.Word) → ComesBehind p lists.now entered mark rest result }
    ensures cost { now_cost (first_cost lists.now) result ≤ body_cost most (cost_at lists.now rest) }
    ensures awake { IsAwake (phase_of result) }
{
    match entered {
        Entered::Missed => Now::Failing,
        Entered::Fact => match lists.at(rest) {
            Some(first) => Now::Running(first),
            None => Now::Answering,
        },
        Entered::Body(body) => Now::Running(Link {
            todo: Todo::Body(body),
            height: mark,
            next: rest,
        }),
    }
}

/// Enters the clause for the goal before the members from this place on, with this cut mark; where its head doesn't
/// unify with the goal the engine fails next (7.7.10).
pub(crate) fn enter_clause<S: Store + Drop>(
    search: &mut Search<S, Linked<S>>,
    clause: ClauseId,
    goal: S::Word,
    rest: Option<usize>,
    mark: usize,
) -> Result<(), StoreFault>
    requires { (s : State) × (call : Tree) × (c : databases.Clause) × (cs : List databases.Clause)
        × (behind : List Member) × (later : KeyedView) × Calls S.Store linked search.old
        (record { clause = clause; later = later; call = goal }) rest s call c cs behind }
    ensures tried { (s : State) (call : Tree) (c : databases.Clause) (cs : List databases.Clause)
        (behind : List Member) (later : KeyedView) → Calls S.Store linked search.old
        (record { clause = clause; later = later; call = goal }) rest s call c cs behind
        → OnOk result (StandsAs S.Store linked search.new (tried_clause call c mark behind s)) }
    ensures kept { (s : State) (call : Tree) (c : databases.Clause) (cs : List databases.Clause)
        (behind : List Member) (later : KeyedView) → Calls S.Store linked search.old
        (record { clause = clause; later = later; call = goal }) rest s call c cs behind
        → OnErr result (Remains S.Store linked search.new (tried_clause call c mark behind s)) }
    ensures steps { search.new.steps ≡ search.old.steps }
    ensures awake { OnOk result (IsAwake (phase_of search.new.now)) }
    ensures full { result ≡ Err StoreFault.Full → S.full search.new.store }
    ensures costs { OnOk result (cost linked search.new
        ≤ kept_cost linked search.old + body_cost most (cost_at search.old.lists rest)) }
    ensures stays { Stays S.Store search.old search.new }
{
    let clause = search.db.clause(clause);
    let entered = entries::enter(
        &mut search.store,
        &mut search.lists.nodes,
        &mut search.words,
        clause,
        &clause.own.kept,
        goal,
    )?;
    search.now = behind_clause(&search.lists, entered, mark, rest);
    Ok(())
}

/// Keeps the call's later clauses, which the view gives, as a choice where there are any (7.7.8); false where no choice
/// may be made any more. The error is that memory was refused.
fn push_later<S: Store + Drop>(
    search: &mut Search<S, Linked<S>>,
    later: &mut KeyedView,
    goal: S::Word,
    rest: Option<usize>,
) -> Result<bool, AllocError>
    requires { (first : ℕ) × (s : State) × (call : Tree) × (c : databases.Clause) × (cs : List databases.Clause)
        × (behind : List Member) × Calls S.Store linked search.old
        (record { clause = first; later = later.old; call = goal }) rest s call c cs behind }
    ensures calls { (first : ℕ) (s : State) (call : Tree) (c : databases.Clause) (cs : List databases.Clause)
        (behind : List Member) → Calls S.Store linked search.old
        (record { clause = first; later = later.old; call = goal }) rest s call c cs behind
        → result ≡ Ok true → Calls S.Store linked search.new
        (record { clause = first; later = later.old; call = goal }) rest
        (with_others call cs behind s) call c cs behind }
    ensures kept { (first : ℕ) (s : State) (call : Tree) (c : databases.Clause) (cs : List databases.Clause)
        (behind : List Member) → Calls S.Store linked search.old
        (record { clause = first; later = later.old; call = goal }) rest s call c cs behind
        → OnErr result (Remains S.Store linked search.new s) }
    ensures refused { result ≡ Ok false → search.new ≡ search.old }
    ensures frames { (first : ℕ) (s : State) (call : Tree) (c : databases.Clause) (cs : List databases.Clause)
        (behind : List Member) → Calls S.Store linked search.old
        (record { clause = first; later = later.old; call = goal }) rest s call c cs behind
        → result ≡ Ok false → (search.old.limit ≤ length search.old.choices.items) × (0 < length cs) }
    ensures costs { result ≡ Ok true
        → kept_cost linked search.new ≤ kept_cost linked search.old + left_cost most (cost_at search.old.lists rest) }
    ensures same { search.new ≡ record search.old { store = search.new.store; choices = search.new.choices } }
    ensures stays { Stays S.Store search.old search.new }
{
    if !has_left(&search.db, later) {
        return Ok(true);
    }
    let Some(clause) = next_left(&search.db, later) else {
        unreachable!();
    };
    let left = Left::Clauses(Attempt {
        clause,
        later: *later,
        call: goal,
    });
    search.push_choice(left, rest)
}

/// Calls a procedure: this clause is entered, those behind it, which the view gives, are one choice (7.7.7). False
/// where no choice may be made any more; the engine is as it was then.
pub(crate) fn call<S: Store + Drop>(
    search: &mut Search<S, Linked<S>>,
    clause: ClauseId,
    later: &mut KeyedView,
    goal: S::Word,
    rest: Option<usize>,
) -> Result<bool, StoreFault>
    requires { (s : State) × (call : Tree) × (c : databases.Clause) × (cs : List databases.Clause)
        × (behind : List Member) × Calls S.Store linked search.old
        (record { clause = clause; later = later.old; call = goal }) rest s call c cs behind }
    ensures tried { (s : State) (call : Tree) (c : databases.Clause) (cs : List databases.Clause)
        (behind : List Member) → Calls S.Store linked search.old
        (record { clause = clause; later = later.old; call = goal }) rest s call c cs behind
        → result ≡ Ok true → StandsAs S.Store linked search.new (tried call (c ∷ cs) behind s) }
    ensures kept { (s : State) (call : Tree) (c : databases.Clause) (cs : List databases.Clause)
        (behind : List Member) → Calls S.Store linked search.old
        (record { clause = clause; later = later.old; call = goal }) rest s call c cs behind
        → OnErr result (WasRefused S.Store linked search.new s (tried call (c ∷ cs) behind s)) }
    ensures awake { result ≡ Ok true → IsAwake (phase_of search.new.now) }
    ensures refused { result ≡ Ok false → search.new ≡ search.old }
    ensures frames { (s : State) (call : Tree) (c : databases.Clause) (cs : List databases.Clause)
        (behind : List Member) → Calls S.Store linked search.old
        (record { clause = clause; later = later.old; call = goal }) rest s call c cs behind
        → result ≡ Ok false → (search.old.limit ≤ length search.old.choices.items) × (0 < length cs) }
    ensures full { result ≡ Err StoreFault.Full → S.full search.new.store }
    ensures steps { search.new.steps ≡ search.old.steps }
    ensures stays { Stays S.Store search.old search.new }
    ensures costs { result ≡ Ok true → cost linked search.new ≤ kept_cost linked search.old
        + left_cost most (cost_at search.old.lists rest) + body_cost most (cost_at search.old.lists rest) }
{
    let mark = search.choices.len();
    if !push_later(search, later, goal, rest)? {
        return Ok(false);
    }
    enter_clause(search, clause, goal, rest, mark)?;
    Ok(true)
}
