//! A ball is thrown, and what stands behind a fault of a built-in (7.8.10).
ghost use Rattle.std.specs.Prelude.{◌≡◌, ◌≢◌, true, Ok, Err, IfOk};
ghost use Rattle.iso_model.specs.Terms.Trees.{arities_fit};
ghost use Rattle.iso_model.specs.Terms.TermOf.{term_of};
ghost use Rattle.iso_model.specs.Search.Walker.{State};
ghost use Rattle.iso_search.specs.Catches.{throwing};
ghost use Rattle.iso_search.specs.Faults.{Throws};

use super::search::{Move, Search};
use iso_lib::Fault;
use iso_model::Ball;
use iso_search_core::lists::Lists;
use iso_search_core::nows::Now;
use iso_store_core::{Store, StoreFault};

impl<S: Store + Drop, L: Lists<S>> Search<S, L> {
    ghost use Rattle.iso_search.specs.EngineStates.{IsAhead, IsEngine};
    ghost use Rattle.iso_search.specs.Stays.{Stays};
    ghost use Rattle.iso_search_core.specs.declared.nows.Now.TheVariants as now;

    /// Throws the ball, past the list from `rest` on.
    pub fn throw(&mut self, ball: Ball, rest: L::Place)
        requires { arities_fit (term_of ball.term.value) ≡ true }
        ensures thrown { (s : State) → IsAhead S.Store L.Lists self.old s rest
            → IsEngine S.Store L.Lists self.new (throwing (term_of ball.term.value) s) }
        ensures now { self.new.now ≡ now.Raising rest }
        ensures same { self.new ≡ record self.old { raised = self.new.raised; now = self.new.now } }
        ensures stays { Stays S.Store self.old self.new }
    {
        self.raised = Some(ball);
        self.now = Now::Raising(rest);
    }

    /// Goes on behind a fault of a built-in: its ball is thrown, past the list from `rest` on. The errors are those of
    /// the fault: the store is full, or memory was refused.
    pub fn behind_fault(&mut self, fault: Fault, rest: L::Place) -> Result<Move, StoreFault>
        requires { (ball : Ball) → fault ≡ Fault.Raise ball → arities_fit (term_of ball.term.value) ≡ true }
        ensures throws { Throws S.Store L.Lists self.old fault rest result self.new }
        ensures stays { Stays S.Store self.old self.new }
    {
        match fault {
            Fault::Raise(ball) => {
                self.throw(ball, rest);
                Ok(Move::Goes)
            }
            Fault::Full => Err(StoreFault::Full),
            Fault::NoMemory => Err(StoreFault::NoMemory),
        }
    }
}
