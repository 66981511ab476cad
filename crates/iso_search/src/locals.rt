//! The moves at goals that run a goal, or that succeed again and again (7.8.3, 8.15).
ghost use Rattle.std.specs.Prelude.{◌≡◌, ◌+◌, ◌≤◌, IfOk, OnErr, length};
ghost use Rattle.iso_model.specs.Search.Bodies.{Body};
ghost use Rattle.iso_model.specs.Search.Walker.{State, AsIs, Again, pushed};

use super::search::{Move, Search};
use iso_search_core::choices::Left;
use iso_search_core::ends::End;
use iso_search_core::lists::Lists;
use iso_store_core::{Store, StoreFault};

impl<S: Store + Drop, L: Lists<S>> Search<S, L> {
    ghost use Rattle.iso_search.specs.EngineStates.{IsAhead, WasRefused, Remains, WasCalled, calling_body, calling_once, refuting, cost_from};
    ghost use Rattle.iso_search.specs.Stays.{Stays};
    ghost use Rattle.iso_search.specs.Moved.{FallsFrom};
    ghost use Rattle.iso_search.specs.Limits.{ResultMet, ResultFull};

    /// Goes on with this body, which is opaque to cut (7.8.3), and then with the list from `rest` on. The error is that
    /// memory was refused.
    pub(crate) fn call_body(&mut self, body: L::Body, rest: L::Place) -> Result<Move, StoreFault>
        requires { (s : State) × (b : Body) × IsAhead S.Store L.Lists self.old s rest
            × L.body (S.present self.old.store) self.old.lists body b }
        ensures called { (s : State) (b : Body) → IsAhead S.Store L.Lists self.old s rest
            → L.body (S.present self.old.store) self.old.lists body b
            → IfOk result (λ m. WasCalled S.Store L.Lists m self.new s (calling_body b s)) }
        ensures kept { (s : State) → IsAhead S.Store L.Lists self.old s rest
            → OnErr result (Remains S.Store L.Lists self.new s) }
        ensures falls { FallsFrom L.Lists self.old (cost_from L.Lists self.old rest + 1) result self.new }
        ensures frames { ResultFull ⊥ result }
        ensures met { ResultMet S.Store result self.new }
        ensures stays { Stays S.Store self.old self.new }
    {
        let height = self.choices.len();
        self.run_here(body, height, rest)?;
        Ok(Move::Goes)
    }

    /// Runs the body for its first solution, before the list from `rest` on (8.15.2). The error is that memory was
    /// refused.
    pub(crate) fn call_once(&mut self, body: L::Body, rest: L::Place) -> Result<Move, StoreFault>
        requires { (s : State) × (b : Body) × IsAhead S.Store L.Lists self.old s rest
            × L.body (S.present self.old.store) self.old.lists body b }
        ensures called { (s : State) (b : Body) → IsAhead S.Store L.Lists self.old s rest
            → L.body (S.present self.old.store) self.old.lists body b
            → IfOk result (λ m. WasCalled S.Store L.Lists m self.new s (calling_once b s)) }
        ensures kept { (s : State) → IsAhead S.Store L.Lists self.old s rest
            → OnErr result (Remains S.Store L.Lists self.new s) }
        ensures falls { FallsFrom L.Lists self.old (cost_from L.Lists self.old rest + 1) result self.new }
        ensures frames { ResultFull ⊥ result }
        ensures met { ResultMet S.Store result self.new }
        ensures stays { Stays S.Store self.old self.new }
    {
        let height = self.choices.len();
        self.run_before(body, height, End::CutTo(height), rest)?;
        Ok(Move::Goes)
    }

    /// Runs the body, and goes on with the list from `rest` on where it has no solution (8.15.1). The error is that
    /// memory was refused; where no choice may be made any more the engine is spent.
    pub(crate) fn refute(&mut self, body: L::Body, rest: L::Place) -> Result<Move, StoreFault>
        requires { (s : State) × (b : Body) × IsAhead S.Store L.Lists self.old s rest
            × L.body (S.present self.old.store) self.old.lists body b }
        ensures called { (s : State) (b : Body) → IsAhead S.Store L.Lists self.old s rest
            → L.body (S.present self.old.store) self.old.lists body b
            → IfOk result (λ m. WasCalled S.Store L.Lists m self.new s (refuting b s)) }
        ensures kept { (s : State) → IsAhead S.Store L.Lists self.old s rest
            → OnErr result (WasRefused S.Store L.Lists self.new s (pushed s.list AsIs s)) }
        ensures falls { FallsFrom L.Lists self.old (cost_from L.Lists self.old rest + 1) result self.new }
        ensures frames { ResultFull (self.old.limit ≤ length self.old.choices.items) result }
        ensures met { ResultMet S.Store result self.new }
        ensures stays { Stays S.Store self.old self.new }
    {
        let height = self.choices.len();
        if !self.push_choice(Left::AsIs, rest)? {
            return Ok(self.full_frames());
        }
        self.run_before(body, height + 1, End::Refute(height), rest)?;
        Ok(Move::Goes)
    }

    /// Goes on with the list from `rest` on, and leaves a choice that does so again and again (8.15.3). The error is
    /// that memory was refused; where no choice may be made any more the engine is spent.
    pub(crate) fn repeat(&mut self, rest: L::Place) -> Result<Move, StoreFault>
        requires { (s : State) × IsAhead S.Store L.Lists self.old s rest }
        ensures called { (s : State) → IsAhead S.Store L.Lists self.old s rest
            → IfOk result (λ m. WasCalled S.Store L.Lists m self.new s (pushed s.list Again s)) }
        ensures kept { (s : State) → IsAhead S.Store L.Lists self.old s rest
            → OnErr result (Remains S.Store L.Lists self.new s) }
        ensures falls { FallsFrom L.Lists self.old (cost_from L.Lists self.old rest + 1) result self.new }
        ensures frames { ResultFull (self.old.limit ≤ length self.old.choices.items) result }
        ensures met { ResultMet S.Store result self.new }
        ensures stays { Stays S.Store self.old self.new }
    {
        if !self.push_choice(Left::Again, rest)? {
            return Ok(self.full_frames());
        }
        self.now = self.coming(rest);
        Ok(Move::Goes)
    }
}
