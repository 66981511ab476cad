//! The engine's move back to a choice at which clauses are left: the next one is entered (7.7.8).
ghost use Rattle.std.specs.Prelude.{◌≡◌, ◌≢◌, ℕ, ◌<◌, ◌≤◌, ◌+◌, ◌-◌, List, ◌∷◌, Some, Err, IfNone, IfSome, MatchOption, OnErr, IfOk, length};
ghost use Rattle.std.specs.List.{slice_get};
ghost use Rattle.iso_db.specs.Databases as held;
ghost use Rattle.iso_db.specs.Presents.{GivesKeyed};
ghost use Rattle.iso_db.specs.declared.keyed.KeyedView.{KeyedView};
ghost use Rattle.iso_program.specs.declared.clauses.Clause as program;
ghost use Rattle.iso_search_core.specs.declared.choices.Attempt.{Attempt};
ghost use Rattle.iso_search_core.specs.declared.choices.Choice as kept;
ghost use Rattle.iso_search_core.specs.declared.choices.Left.TheVariants as left;
ghost use Rattle.iso_search.specs.Retrying.{Advances, TriesNext, attempt_of};
ghost use Rattle.iso_model.specs.Search.Walker.{State, Alternative};

use super::callers::Calls;
use super::calls::{Next, NextGoal};
use super::search::Search;
use iso_db::{ClauseId, Db};
use iso_program::clauses::Clause;
use iso_program::kept::OfClause;
use iso_program::left_clauses::next_left;
use iso_search_core::choices::{Attempt, Choice, Left};
use iso_search_core::lists::Lists;
use iso_search_core::nows::Now;
use iso_store_core::{Store, StoreFault};

/// What a choice tries next: a clause for a call, and where the list behind the goal begins.
#[derive(Clone, Copy)]
pub struct Retry<C, P> {
    pub clause: ClauseId,
    pub call: C,
    pub rest: P,
}

/// What the choice tries next, where clauses are left at it.
fn retry_of<W: Copy, M, K, P: Copy, C: Copy>(choice: &Choice<W, M, K, P, C>) -> Option<Retry<C, P>>
    ensures tries { IfSome result (λ retry. (later : KeyedView) × (choice.now.left ≡ left.Clauses (attempt_of retry later))
        × (choice.now.rest ≡ retry.rest)) }
    ensures none { IfNone result ((attempt : Attempt C) → choice.now.left ≢ left.Clauses attempt) }
{
    match &choice.left {
        Left::Clauses(attempt) => Some(Retry {
            clause: attempt.clause,
            call: attempt.call,
            rest: choice.rest,
        }),
        _ => None,
    }
}

/// Goes on with the next clause that the view of the attempt gives; false where it gives none.
fn advance<E: OfClause, C: Copy>(db: &Db<Clause<E>>, attempt: &mut Attempt<C>) -> bool
    requires { (ks : List (held.Clause (program.Clause E))) × GivesKeyed db.now attempt.old.later ks }
    ensures { Advances E.keeps db.now attempt.old attempt.new result }
{
    match next_left(db, &mut attempt.later) {
        Some(clause) => {
            attempt.clause = clause;
            true
        }
        None => false,
    }
}

/// Leaves the choice, at which clauses are left, at its next one; false where the one that it tries is its last.
fn next_clause<E: OfClause, W: Copy, M, K, P: Copy, C: Copy>(
    db: &Db<Clause<E>>,
    choice: &mut Choice<W, M, K, P, C>,
) -> bool
    requires { (attempt : Attempt C) × (choice.old.left ≡ left.Clauses attempt)
        × ((ks : List (held.Clause (program.Clause E))) × GivesKeyed db.now attempt.later ks) }
    ensures { (attempt : Attempt C) → choice.old.left ≡ left.Clauses attempt
        → (after : Attempt C) × Advances E.keeps db.now attempt after result
        × (choice.new ≡ record choice.old { left = left.Clauses after }) }
{
    match &mut choice.left {
        Left::Clauses(attempt) => advance(db, attempt),
        _ => false,
    }
}

impl<S: Store + Drop, L: Lists<S>> Search<S, L> {
    ghost use Rattle.iso_search.specs.EngineStates.{WentBack, Retries, kept_cost};
    ghost use Rattle.iso_search_core.specs.Bodies.{body_cost, most};
    ghost use Rattle.iso_search.specs.Stays.{Stays};

    /// What the newest choice tries next, where there is one and clauses are left at it.
    #[inline(always)]
    pub fn next_retry(&self) -> Option<Retry<L::Call, L::Place>>
        ensures tries { IfSome result (TriesNext self.entry.now) }
        ensures none { IfNone result ((c : kept.Choice S.Word S.Mark L.Kept L.Place L.Call) (attempt : Attempt L.Call)
            → slice_get self.entry.now.choices.items (length self.entry.now.choices.items - 1) ≡ Some c
            → c.left ≢ left.Clauses attempt) }
    {
        if self.choices.is_empty() {
            return None;
        }
        retry_of(&self.choices[self.choices.len() - 1])
    }

    /// Leaves the newest choice at its next clause, or takes it away where this is its last one; how many stand below
    /// it.
    #[inline(always)]
    pub fn leave_choice(&mut self, mark: S::Mark) -> usize
        requires some { 0 < length self.old.choices.items }
        requires back { (attempt : Attempt L.Call) × (c : kept.Choice S.Word S.Mark L.Kept L.Place L.Call) × (s : State)
            × (a : Alternative) × (below : List Alternative)
            × (c.mark ≡ mark) × (c.left ≡ left.Clauses attempt) × WentBack S.Store L.Lists self.old c s a below }
        ensures calls { (attempt : Attempt L.Call) (c : kept.Choice S.Word S.Mark L.Kept L.Place L.Call) (s : State)
            (a : Alternative) (below : List Alternative)
            → c.mark ≡ mark → c.left ≡ left.Clauses attempt → WentBack S.Store L.Lists self.old c s a below
            → Retries S.Store L.Lists self.new attempt c.rest s a below }
        ensures below { result + 1 ≡ length self.old.choices.items }
        ensures same { self.new ≡ record self.old { store = self.new.store; choices = self.new.choices } }
        ensures present { S.present self.new.store ≡ S.present self.old.store }
        ensures stays { Stays S.Store self.old self.new }
        ensures costs { (attempt : Attempt L.Call) (c : kept.Choice S.Word S.Mark L.Kept L.Place L.Call)
            → slice_get self.old.choices.items (length self.old.choices.items - 1) ≡ Some c
            → c.left ≡ left.Clauses attempt
            → kept_cost L.Lists self.new + (body_cost most (L.cost self.old.lists c.rest) + 1) ≤ kept_cost L.Lists self.old }
    {
        let newest = self.choices.len() - 1;
        if !next_clause(&self.db, &mut self.choices[newest]) {
            self.choices.truncate(newest);
            self.store.forget(mark);
        }
        newest
    }
}

impl<S: Store + Drop, L: Calls<S>> Search<S, L> {
    ghost use Rattle.iso_search.specs.EngineStates.{StandsFor, Refused, weight, phase_of};
    ghost use Rattle.iso_search.specs.Nexts.{ComesNext, FallsNext};
    ghost use Rattle.iso_search.specs.Stays.{Stays};
    ghost use Rattle.iso_model.specs.Search.Engines.{IsAwake};
    ghost use Rattle.iso_search_core.specs.declared.nows.Now.TheVariants as now;

    /// Tries the next clause of the newest choice, where the engine fails and clauses are left there; any other engine
    /// that has no goal next is left as it is, and `asked` is none then. The errors: the store is full, or memory was
    /// refused.
    #[inline(always)]
    pub(crate) fn retry_next(
        &mut self,
        asked: &mut Option<NextGoal<S::Word, L::Place>>,
    ) -> Result<Next, StoreFault>
        requires awake { IsAwake (phase_of self.old.now) }
        requires idle { (first : L.Next) → self.old.now ≢ now.Running first }
        requires stands { (s : State) × StandsFor S.Store L.Lists self.old s }
        ensures next { (s : State) → StandsFor S.Store L.Lists self.old s
            → IfOk result (λ n. ComesNext S.Store L.Lists L.over L.by_step n asked.new s self.new) }
        ensures stopped { (s : State) → StandsFor S.Store L.Lists self.old s
            → OnErr result (Refused S.Store L.Lists self.new s) }
        ensures falls { IfOk result (λ n. FallsNext n (weight L.Lists self.old) (weight L.Lists self.new)) }
        ensures full { result ≡ Err StoreFault.Full → S.full self.new.store }
        ensures stays { Stays S.Store self.old self.new }
    {
        *asked = None;
        let Now::Failing = self.now else {
            return Ok(Next::Other);
        };
        let Some(retry) = self.next_retry() else {
            return Ok(Next::Other);
        };
        L::retry(self, retry)
    }
}
