//! The moves into a catch (7.8.9).
ghost use Rattle.std.specs.Prelude.{◌≡◌, ◌+◌, ◌≤◌, true, IfOk, OnErr, Some, length};
ghost use Rattle.iso_model.specs.Terms.Trees.{arities_fit};
ghost use Rattle.iso_model.specs.Terms.TermOf.{term_of};
ghost use Rattle.iso_model.specs.Search.Bodies.{Body, converted};
ghost use Rattle.iso_model.specs.Search.Walker.{State, Catching, pushed};
ghost use Rattle.iso_search.specs.Catches.{catching, throwing, inside_of, catcher_of, recovery_of};
ghost use Rattle.iso_search_core.specs.Cells.{conversion_cells};
ghost use Rattle.iso_search_core.specs.Replies.{CanBeRun};

use super::search::{Move, Search};
use iso_model::Ball;
use iso_search_core::choices::Left;
use iso_search_core::ends::End;
use iso_search_core::lists::Lists;
use iso_store_core::{Store, StoreFault};

impl<S: Store + Drop, L: Lists<S>> Search<S, L> {
    ghost use Rattle.iso_search.specs.Catches.{EntersCatch, RunsInside};
    ghost use Rattle.iso_search.specs.EngineStates.{WasRefused, WasCalled, cost_from};
    ghost use Rattle.iso_search.specs.Stays.{Stays};
    ghost use Rattle.iso_search.specs.Moved.{FallsFrom};
    ghost use Rattle.iso_search.specs.Limits.{ResultMet, ResultFull};

    /// Runs the goal of this goal of `catch/3`, which can be run, inside the catch, before the list from `rest` on
    /// (7.8.9). The errors: the store is full, or memory was refused; where no choice may be made any more the engine
    /// is spent.
    pub(crate) fn call_inside(&mut self, goal: S::Word, rest: L::Place) -> Result<Move, StoreFault>
        requires enters { (s : State) × EntersCatch S.Store L.Lists self.old goal s rest }
        requires can { CanBeRun (inside_of (S.present self.old.store) goal) }
        ensures called { (s : State) (b : Body) → EntersCatch S.Store L.Lists self.old goal s rest
            → converted (inside_of (S.present self.old.store) goal) ≡ Some b
            → IfOk result (λ m. RunsInside S.Store L.Lists m self.new b
            (catcher_of (S.present self.old.store) goal) (recovery_of (S.present self.old.store) goal) s) }
        ensures kept { (s : State) → EntersCatch S.Store L.Lists self.old goal s rest
            → OnErr result (WasRefused S.Store L.Lists self.new s (record (pushed s.list
            (Catching (catcher_of (S.present self.old.store) goal) (recovery_of (S.present self.old.store) goal)) s) {
              built = s.built + conversion_cells (inside_of (S.present self.old.store) goal);
            })) }
        ensures falls { FallsFrom L.Lists self.old (cost_from L.Lists self.old rest + 1) result self.new }
        ensures frames { ResultFull (self.old.limit ≤ length self.old.choices.items) result }
        ensures met { ResultMet S.Store result self.new }
        ensures stays { Stays S.Store self.old self.new }
    {
        let height = self.choices.len();
        let inside = self.store.arg(goal, 0);
        if !self.push_choice(Left::Catching(goal), rest)? {
            return Ok(self.full_frames());
        }
        self.run_converted(inside, height + 1, End::Leave(height), rest)?;
        Ok(Move::Goes)
    }

    /// Throws the ball inside the catch that this goal calls, before the list from `rest` on: its goal can't be run
    /// (7.8.9). The error is that memory was refused; where no choice may be made any more the engine is spent.
    pub(crate) fn throw_inside(
        &mut self,
        ball: Ball,
        goal: S::Word,
        rest: L::Place,
    ) -> Result<Move, StoreFault>
        requires fits { arities_fit (term_of ball.term.value) ≡ true }
        requires enters { (s : State) × EntersCatch S.Store L.Lists self.old goal s rest }
        ensures called { (s : State) → EntersCatch S.Store L.Lists self.old goal s rest
            → IfOk result (λ m. WasCalled S.Store L.Lists m self.new s (throwing (term_of ball.term.value)
            (catching (catcher_of (S.present self.old.store) goal) (recovery_of (S.present self.old.store) goal) s))) }
        ensures kept { (s : State) → EntersCatch S.Store L.Lists self.old goal s rest
            → OnErr result (WasRefused S.Store L.Lists self.new s (pushed s.list
            (Catching (catcher_of (S.present self.old.store) goal) (recovery_of (S.present self.old.store) goal)) s)) }
        ensures falls { FallsFrom L.Lists self.old (cost_from L.Lists self.old rest + 1) result self.new }
        ensures frames { ResultFull (self.old.limit ≤ length self.old.choices.items) result }
        ensures met { ResultMet S.Store result self.new }
        ensures stays { Stays S.Store self.old self.new }
    {
        let height = self.choices.len();
        if !self.push_choice(Left::Catching(goal), rest)? {
            return Ok(self.full_frames());
        }
        let end = self.lists.place_end(End::Leave(height), rest)?;
        self.throw(ball, end);
        Ok(Move::Goes)
    }
}
