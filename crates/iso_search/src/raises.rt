//! The moves at a thrown ball: the innermost catch whose goal has not ended comes back, and its catcher meets the ball
//! (7.8.9, 7.8.10).
ghost use Rattle.std.specs.Prelude.{◌≡◌, ◌+◌, ◌≤◌, ◌∷◌, true, false, codes, Ok, Err, IfOk, OnOk, OnErr, List};
ghost use Rattle.std.specs.Prelude.{MatchBool, MatchOption};
ghost use Rattle.iso_model.specs.Terms.Trees.{Tree};
ghost use Rattle.iso_model.specs.Terms.Sizes.{size};
ghost use Rattle.iso_model.specs.Terms.TermOf.{term_of};
ghost use Rattle.iso_model.specs.Search.Bodies.{one};
ghost use Rattle.iso_model.specs.Search.Walker.{State, Member, Raise};
ghost use Rattle.iso_search.specs.Catches.{GoesTo, IsCatchAt, IsUncaught, HasMet};
ghost use Rattle.iso_store_core.specs.Presents.{meaning};
ghost use Rattle.iso_store_core.specs.Retaining.{Retains};
ghost use Rattle.iso_search_core.specs.Cells.{IsBound};
ghost use Rattle.iso_search_core.specs.Fitting.{FitsState};

use super::search::{Move, Search};
use iso_lib::unify_copy;
use iso_model::Term;
use iso_search_core::callable_goals::call_of;
use iso_search_core::choices::Left;
use iso_search_core::lists::Lists;
use iso_search_core::nows::Now;
use iso_store_core::{Store, StoreFault};

/// Whether the term is no variable.
fn is_bound(term: &Term) -> bool
    ensures { result ≡ true → IsBound (term_of term.now) }
{
    match term {
        Term::Var(_) => false,
        Term::Int(_) | Term::Atom(_) | Term::Compound(_, _) => true,
    }
}

impl<S: Store + Drop, L: Lists<S>> Search<S, L> {
    ghost use Rattle.iso_search.specs.Catches.{MeetsBall, IsCaught, Recovers, Calling, HasStack, HasThrown};
    ghost use Rattle.iso_search.specs.EngineStates.{IsEngine, Represents, Remains, cost, kept_cost, phase_of, went_back};
    ghost use Rattle.iso_search_core.specs.Bodies.{body_cost, left_cost, most};
    ghost use Rattle.iso_model.specs.Search.Engines.{IsAwake};
    ghost use Rattle.iso_search.specs.Stays.{Stays};
    ghost use Rattle.iso_search.specs.Moved.{Moved};
    ghost use Rattle.iso_search_core.specs.declared.nows.Now.TheVariants as now;

    /// Whether the choice at this height stands, and is the entry of a catch.
    fn catches_at(&self, height: usize) -> bool
        ensures { MatchBool result (IsCatchAt self.entry.now.choices.items height)
            (IsCatchAt self.entry.now.choices.items height → ⊥) }
    {
        if height >= self.choices.len() {
            return false;
        }
        matches!(self.choices[height].left, Left::Catching(_))
    }

    /// The height of the choice of the catch to which a ball goes that is thrown past the list from this place on.
    fn find_catch(&self, from: L::Place) -> Option<usize>
        requires { (behind : List Member)
            × L.list (S.present self.now.store) self.now.lists (L.whole self.now.lists) from behind }
        ensures { (s : State) (ball : Tree) (behind : List Member) → HasStack S.Store L.Lists self.entry.now s
            → L.list (S.present self.entry.now.store) self.entry.now.lists (L.whole self.entry.now.lists) from behind
            → MatchOption result (IsUncaught ball behind s) (GoesTo ball behind s) }
    {
        let mut place = from;
        while let Some(past) = self.lists.pass(place) {
            match past.leave {
                Some(height) if self.catches_at(height) => return Some(height),
                _ => place = past.behind,
            }
        }
        None
    }

    /// Goes back to the entry of the catch whose choice has this height, and takes its choice away with those above it:
    /// the goal of `catch/3`, and where the list behind it begins (7.8.9).
    fn back_to_catch(&mut self, height: usize) -> (S::Word, L::Place)
        requires now { (place : L.Place) × (self.old.now ≡ now.Raising place) }
        requires goes { (s : State) × (ball : Tree) × (behind : List Member) × IsEngine S.Store L.Lists self.old s
            × (s.list ≡ Raise ball ∷ behind) × GoesTo ball behind s height }
        ensures back { (s : State) (ball : Tree) (behind : List Member) → IsEngine S.Store L.Lists self.old s
            → s.list ≡ Raise ball ∷ behind → (g : GoesTo ball behind s height)
            → IsCaught S.Store L.Lists self.new result.0 ball g.catcher g.recovery
            (went_back g.alternative g.below s) result.1 }
        ensures costs { kept_cost L.Lists self.new + left_cost 1 (L.cost self.new.lists result.1)
            ≤ kept_cost L.Lists self.old }
        ensures steps { self.new.steps ≡ self.old.steps }
        ensures stays { Stays S.Store self.old self.new }
    {
        self.now = Now::Failing;
        self.cut_to(height + 1);
        let newest = self.go_back();
        let goal = match self.choices[height].left {
            Left::Catching(goal) => goal,
            _ => unreachable!(),
        };
        self.drop_choice(newest.mark);
        (goal, newest.rest)
    }

    /// Calls the recovery of a catch, before the list from `rest` on (7.8.9). The errors: the store is full, or memory
    /// was refused.
    fn call_recovery(&mut self, recovery: S::Word, rest: L::Place) -> Result<(), StoreFault>
        requires { (s : State) × Recovers S.Store L.Lists self.old recovery s rest }
        ensures called { (s : State) → Recovers S.Store L.Lists self.old recovery s rest → OnOk result
            (Calling S.Store L.Lists self.new (one (codes "call") (meaning (S.present self.old.store) recovery)) s) }
        ensures kept { (s : State) → Recovers S.Store L.Lists self.old recovery s rest
            → OnErr result (Remains S.Store L.Lists self.new s) }
        ensures full { result ≡ Err StoreFault.Full → S.full self.new.store }
        ensures costs { OnOk result
            (cost L.Lists self.new ≤ kept_cost L.Lists self.old + body_cost most (L.cost self.old.lists rest)) }
        ensures awake { OnOk result (IsAwake (phase_of self.new.now)) }
        ensures steps { self.new.steps ≡ self.old.steps }
        ensures stays { Stays S.Store self.old self.new }
    {
        let call = call_of(
            self.alloc,
            &mut self.store,
            &self.vocabulary.controls,
            recovery,
        )?;
        let body = self.lists.place_run(call)?;
        let height = self.choices.len();
        self.run_here(body, height, rest)?;
        Ok(())
    }

    /// Whether a copy of the ball that was kept unifies with the catcher of this goal of `catch/3`: then their unifier
    /// is bound, and otherwise nothing is. The errors: the store is full, or memory was refused, as it is for a ball of
    /// more than 536,870,912 variables, and for an unbound one, which no goal throws (7.8.10).
    fn meets(&mut self, goal: S::Word) -> Result<bool, StoreFault>
        requires { (s : State) × (ball : Tree) × (rest : L.Place)
            × MeetsBall S.Store L.Lists self.old goal ball s rest }
        ensures met { (s : State) (ball : Tree) (rest : L.Place) → MeetsBall S.Store L.Lists self.old goal ball s rest
            → IfOk result (HasMet (S.present self.old.store) (S.present self.new.store) goal ball) }
        ensures back { result ≡ Ok false → S.present self.new.store ≡ S.present self.old.store }
        ensures fits { (s : State) (ball : Tree) (rest : L.Place) → MeetsBall S.Store L.Lists self.old goal ball s rest
            → OnOk result (FitsState S.Store (S.present self.new.store) (2 + L.pending self.old.lists rest)
            (record s { built = s.built + size ball })) }
        ensures refused { (s : State) (ball : Tree) (rest : L.Place) → MeetsBall S.Store L.Lists self.old goal ball s rest
            → OnErr result (FitsState S.Store (S.present self.new.store) 0 (record s { built = s.built + size ball })) }
        ensures full { result ≡ Err StoreFault.Full → S.full self.new.store }
        ensures same { self.new ≡ record self.old { store = self.new.store } }
        ensures rest { Retains S.Store self.old.store self.new.store }
    {
        let Some(ball) = &self.raised else {
            unreachable!();
        };
        let term = &*ball.term;
        if !is_bound(term) {
            return Err(StoreFault::NoMemory);
        }
        let catcher = self.store.arg(goal, 1);
        let mark = self.store.mark();
        if unify_copy(self.alloc, &mut self.store, catcher, term)? {
            self.store.forget(mark);
            return Ok(true);
        }
        self.store.undo(mark);
        self.store.forget(mark);
        Ok(false)
    }

    /// Has the ball met by the catcher of this goal of `catch/3`: its recovery is called, or the ball is thrown on,
    /// past the list from `rest` on (7.8.9). The errors: the store is full, or memory was refused, as it is for a ball
    /// of more than 536,870,912 variables.
    fn meet(&mut self, goal: S::Word, rest: L::Place) -> Result<(), StoreFault>
        requires { (s : State) × (ball : Tree) × MeetsBall S.Store L.Lists self.old goal ball s rest }
        ensures met { (s : State) (ball : Tree) → MeetsBall S.Store L.Lists self.old goal ball s rest
            → OnOk result (HasThrown S.Store L.Lists self.new (S.present self.old.store) goal ball s) }
        ensures kept { (s : State) (ball : Tree) → MeetsBall S.Store L.Lists self.old goal ball s rest
            → OnErr result (Remains S.Store L.Lists self.new (record s { built = s.built + size ball })) }
        ensures full { result ≡ Err StoreFault.Full → S.full self.new.store }
        ensures costs { OnOk result
            (cost L.Lists self.new ≤ kept_cost L.Lists self.old + body_cost most (L.cost self.old.lists rest)) }
        ensures awake { OnOk result (IsAwake (phase_of self.new.now)) }
        ensures steps { self.new.steps ≡ self.old.steps }
        ensures stays { Stays S.Store self.old self.new }
    {
        let recovery = self.store.arg(goal, 2);
        if self.meets(goal)? {
            return self.call_recovery(recovery, rest);
        }
        self.now = Now::Raising(rest);
        Ok(())
    }

    /// The ball that was kept goes to the innermost catch whose goal has not ended; where there is none it ends the run
    /// (7.8.10). The errors are those of `meet`.
    pub(crate) fn raise(&mut self, from: L::Place) -> Result<Move, StoreFault>
        requires now { self.old.now ≡ now.Raising from }
        requires stands { (s : State) × Represents S.Store L.Lists self.old s }
        ensures { Moved S.Store L.Lists (λ s. ⊥) self.old result self.new }
    {
        let Some(height) = self.find_catch(from) else {
            return Ok(self.end_by_ball());
        };
        let (goal, rest) = self.back_to_catch(height);
        self.meet(goal, rest)?;
        Ok(Move::Goes)
    }
}
