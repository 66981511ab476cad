//! The search is an engine: a call of `resume` is moves up to an event (7.7).
ghost use Rattle.std.specs.Prelude.{◌≡◌, ℕ, IfOk, OnErr, true, Err};
ghost use Rattle.iso_model.specs.Terms.Trees.{arities_fit};
ghost use Rattle.iso_model.specs.Terms.TermOf.{term_of};
ghost use Rattle.iso_model.specs.Terms.Copies.{IsNumbered};
ghost use Rattle.iso_model.specs.Search.Additions.{consulted};
ghost use Rattle.iso_model.specs.Search.Walker.{State};
ghost use Rattle.iso_model.specs.declared.pauses.Pause.TheVariants as pause;
ghost use Rattle.iso_search.specs.declared.search.Move.TheVariants as moved;

use super::callers::Calls;
use super::calls::{Next, NextGoal};
use super::search::{Move, Search};
use iso_model::{AddFault, Engine, Limit, Pause, StartFault, Term};
use iso_ops::{Flags, OpTable};
use iso_search_core::nows::Now;
use iso_store_core::{Store, StoreFault};

impl<S: Store + Drop, L: Calls<S>> Search<S, L> {
    ghost use Rattle.iso_search.specs.Nexts.{ComesNext, FallsNext, IsNext};
    ghost use Rattle.iso_search.specs.EngineStates.{StandsFor, Moves, Falls, Stopped, Refused, weight, phase_of};
    ghost use Rattle.iso_search.specs.Stays.{Stays};
    ghost use Rattle.iso_search_core.specs.Fitting.{FitsAhead};
    ghost use Rattle.iso_model.specs.Search.Engines.{IsAwake, Pauses, FallsAtEvent};
    ghost use Rattle.iso_search.specs.Limits.{PauseMet, MoveMet, ResultMet, WhereFull, MoveFull, ResultFull, WhereHeapFull, MoveHeapFull};

    /// Ends at a limit: the engine is spent.
    fn stop(&mut self, fault: StoreFault) -> Pause
        ensures moves { (s : State) → Stopped S.Store L.Lists self.old s
            → Moves S.Store L.Lists (moved.Pauses result) s self.new }
        ensures falls { (old new : ℕ) → FallsAtEvent result old new }
        ensures frames { WhereFull ⊥ result }
        ensures met { (fault ≡ StoreFault.Full → S.full self.old.store) → PauseMet S.Store result self.new }
        ensures same { self.new ≡ record self.old { now = self.new.now } }
        ensures stays { Stays S.Store self.old self.new }
    {
        match fault {
            StoreFault::Full => {
                self.now = Now::Spent(Limit::Heap);
                Pause::HeapFull
            }
            StoreFault::NoMemory => {
                self.now = Now::Spent(Limit::Memory);
                Pause::NoMemory
            }
        }
    }

    /// Calls the procedure of the goal that is next, where it is one with clauses and a step is left; or tries the next
    /// clause of the newest choice, where the engine fails and clauses are left there. Any other engine is left as it
    /// is, and `asked` is the goal that is next, or none. The errors: the store is full, or memory was refused.
    fn call_next(
        &mut self,
        asked: &mut Option<NextGoal<S::Word, L::Place>>,
    ) -> Result<Next, StoreFault>
        requires awake { IsAwake (phase_of self.old.now) }
        requires stands { (s : State) × StandsFor S.Store L.Lists self.old s }
        ensures next { (s : State) → StandsFor S.Store L.Lists self.old s
            → IfOk result (λ n. ComesNext S.Store L.Lists L.over L.by_step n asked.new s self.new) }
        ensures stopped { (s : State) → StandsFor S.Store L.Lists self.old s
            → OnErr result (Refused S.Store L.Lists self.new s) }
        ensures falls { IfOk result (λ n. FallsNext n (weight L.Lists self.old) (weight L.Lists self.new)) }
        ensures full { result ≡ Err StoreFault.Full → S.full self.new.store }
        ensures stays { Stays S.Store self.old self.new }
    {
        let Now::Running(first) = self.now else {
            return self.retry_next(asked);
        };
        L::call_first(self, first, asked)
    }

    /// A move of an engine that is awake: this goal is next, where there is one. The errors: the store is full, or
    /// memory was refused.
    fn moved(&mut self, goal: Option<NextGoal<S::Word, L::Place>>) -> Result<Move, StoreFault>
        requires awake { IsAwake (phase_of self.old.now) }
        requires next { IsNext S.Store L.Lists L.by_step self.old goal }
        requires stands { (s : State) × StandsFor S.Store L.Lists self.old s }
        ensures moves { (s : State) → StandsFor S.Store L.Lists self.old s
            → IfOk result (λ m. Moves S.Store L.Lists m s self.new) }
        ensures stopped { (s : State) → StandsFor S.Store L.Lists self.old s
            → OnErr result (Refused S.Store L.Lists self.new s) }
        ensures falls { IfOk result (λ m. Falls m (weight L.Lists self.old) (weight L.Lists self.new)) }
        ensures frames { (s : State) → StandsFor S.Store L.Lists self.old s
            → ResultFull (L.over self.old.limit s) result }
        ensures met { ResultMet S.Store result self.new }
        ensures stays { Stays S.Store self.old self.new }
    {
        if let Some(next) = goal {
            return self.run_goal(next);
        }
        match self.now {
            Now::Idle => Ok(Move::Pauses(Pause::NoMore)),
            Now::Spent(_) => unreachable!(),
            Now::Failing => self.fail(),
            Now::Answering => self.answer(),
            Now::Running(first) => L::step(self, first),
            Now::Raising(from) => self.raise(from),
        }
    }

    /// A move of an engine that is awake, which ends at a limit: this goal is next, where there is one.
    fn move_on(&mut self, goal: Option<NextGoal<S::Word, L::Place>>) -> Move
        requires awake { IsAwake (phase_of self.old.now) }
        requires next { IsNext S.Store L.Lists L.by_step self.old goal }
        requires stands { (s : State) × StandsFor S.Store L.Lists self.old s }
        ensures moves { (s : State) → StandsFor S.Store L.Lists self.old s → Moves S.Store L.Lists result s self.new }
        ensures falls { Falls result (weight L.Lists self.old) (weight L.Lists self.new) }
        ensures frames { (s : State) → StandsFor S.Store L.Lists self.old s
            → MoveFull (L.over self.old.limit s) result }
        ensures heap { (s : State) → StandsFor S.Store L.Lists self.old s
            → MoveHeapFull (FitsAhead S.Store (S.present self.new.store) s) result }
        ensures met { MoveMet S.Store result self.new }
        ensures stays { Stays S.Store self.old self.new }
    {
        match self.moved(goal) {
            Ok(next) => next,
            Err(fault) => Move::Pauses(self.stop(fault)),
        }
    }

    /// Moves on to the next event, of an engine that is awake.
    fn run_on(&mut self) -> Pause
        requires awake { IsAwake (phase_of self.old.now) }
        requires stands { (s : State) × StandsFor S.Store L.Lists self.old s }
        ensures pauses { (s : State) → StandsFor S.Store L.Lists self.old s
            → Pauses s result (StandsFor S.Store L.Lists self.new) (phase_of self.new.now) }
        ensures left { FallsAtEvent result (weight L.Lists self.old) (weight L.Lists self.new) }
        ensures frames { (s : State) → StandsFor S.Store L.Lists self.old s
            → WhereFull (L.over self.old.limit s) result }
        ensures heap { (s : State) → StandsFor S.Store L.Lists self.old s
            → WhereHeapFull (FitsAhead S.Store (S.present self.new.store) s) result }
        ensures met { PauseMet S.Store result self.new }
        ensures stays { Stays S.Store self.old self.new }
    {
        let mut asked = None;
        loop {
            match self.call_next(&mut asked) {
                Ok(Next::Went) => {}
                Ok(Next::Full) => return Pause::FramesFull,
                Ok(Next::Other) => match self.move_on(asked) {
                    Move::Goes => {}
                    Move::Pauses(pause) => return pause,
                },
                Err(fault) => return self.stop(fault),
            }
        }
    }
}

impl<S: Store + Drop, L: Calls<S>> Engine for Search<S, L> {
    ghost use Rattle.iso_search.specs.EngineStates.{StandsFor, weight, phase_of};
    ghost use Rattle.iso_search.specs.Limits.{PauseMet, HeapPieces};
    ghost use Rattle.iso_search.specs.Stays.{Stays};
    ghost use Rattle.iso_model.specs.Search.Engines.{Ready, Spent, IsAwake, Starts, Pauses, StaysSpent, FallsAtEvent};
    ghost use Rattle.iso_model.specs.Search.Engines.{Consults, MayMeet, RefusesStart, MeetsLimit, KeepsLimits, GivesTerms};
    ghost use Rattle.iso_model.specs.Search.Engines.{RefusesByTerm};
    ghost use Rattle.iso_model.specs.declared.limit.Limit.{Limit};
    ghost use Rattle.iso_model.specs.Search.Walker.{World, idle, started};

    ghost stands_for = { StandsFor S.Store L.Lists };

    ghost phase = { λ engine. phase_of engine.now };

    ghost left = { weight L.Lists };

    ghost heap_pieces = { HeapPieces S.Store };

    ghost frames_pieces = { λ engine s. L.over engine.limit s };

    /// As the trait says. HeapFull comes only where the store is full: in one that is counted in cells, where twice the
    /// load of the started goal is above the cells that there may be.
    fn start(&mut self, goal: &Term, budget: u32) -> Result<(), StartFault>
        requires ready { phase_of self.old.now ≡ Ready }
        requires stands { (s : State) × StandsFor S.Store L.Lists self.old s }
        requires fits { arities_fit (term_of goal.now) ≡ true }
        requires numbered { IsNumbered (term_of goal.now) }
        ensures starts { (s : State) → StandsFor S.Store L.Lists self.old s
            → Starts (term_of goal.now) budget s result (StandsFor S.Store L.Lists self.new) (phase_of self.new.now) }
        ensures limit { (s : State) → StandsFor S.Store L.Lists self.old s → RefusesStart
            (MayMeet (HeapPieces S.Store self.new) (L.over self.new.limit)) (started (term_of goal.now) budget s.world) result }
        ensures limits { KeepsLimits (MayMeet (HeapPieces S.Store self.old) (L.over self.old.limit))
            (MayMeet (HeapPieces S.Store self.new) (L.over self.new.limit)) }
        ensures full { result ≡ Err StartFault.HeapFull → S.full self.new.store }
        ensures stays { Stays S.Store self.old self.new }
    {
        self.clear();
        let Err(fault) = self.begin(goal, budget) else {
            return Ok(());
        };
        match fault {
            StoreFault::Full => {
                self.now = Now::Spent(Limit::Heap);
                Err(StartFault::HeapFull)
            }
            StoreFault::NoMemory => {
                self.now = Now::Spent(Limit::Memory);
                Err(StartFault::NoMemory)
            }
        }
    }

    /// As the trait says. FramesFull comes only where the frames may be full, as the lists say for as many as `new`
    /// allowed, HeapFull only where the store is full: in one that is counted in cells, where the search comes to a
    /// state twice whose load is above the cells that there may be.
    fn resume(&mut self) -> Pause
        requires { (s : State) × StandsFor S.Store L.Lists self.old s }
        ensures pauses { (s : State) → StandsFor S.Store L.Lists self.old s → IsAwake (phase_of self.old.now)
            → Pauses s result (StandsFor S.Store L.Lists self.new) (phase_of self.new.now) }
        ensures idle { (w : World) → StandsFor S.Store L.Lists self.old (idle w) → phase_of self.old.now ≡ Ready
            → result ≡ pause.NoMore }
        ensures spent { (s : State) → StandsFor S.Store L.Lists self.old s
            → (limit : Limit) → phase_of self.old.now ≡ Spent limit
            → StaysSpent s limit result (StandsFor S.Store L.Lists self.new) (phase_of self.new.now) }
        ensures limit { (s : State) → StandsFor S.Store L.Lists self.old s
            → MeetsLimit (MayMeet (HeapPieces S.Store self.new) (L.over self.new.limit)) s result }
        ensures limits { KeepsLimits (MayMeet (HeapPieces S.Store self.old) (L.over self.old.limit))
            (MayMeet (HeapPieces S.Store self.new) (L.over self.new.limit)) }
        ensures left { FallsAtEvent result (weight L.Lists self.old) (weight L.Lists self.new) }
        ensures fits { GivesTerms result }
        ensures met { PauseMet S.Store result self.new }
        ensures stays { Stays S.Store self.old self.new }
    {
        match self.now {
            Now::Spent(_) => Pause::Spent,
            Now::Idle => Pause::NoMore,
            Now::Failing if self.choices.is_empty() => {
                self.clear();
                Pause::NoMore
            }
            _ => self.run_on(),
        }
    }

    /// As the trait says.
    fn ops(&self) -> &OpTable {
        &self.ops
    }

    /// As the trait says.
    fn flags(&self) -> &Flags {
        &self.flags
    }

    /// As the trait says.
    fn consult(&mut self, clause: &Term) -> Result<(), AddFault>
        requires ready { phase_of self.old.now ≡ Ready }
        requires stands { (s : State) × StandsFor S.Store L.Lists self.old s }
        requires fits { arities_fit (term_of clause.now) ≡ true }
        ensures consults { (s : State) → StandsFor S.Store L.Lists self.old s
            → Consults (consulted (term_of clause.now) s.world.database) s result (StandsFor S.Store L.Lists self.new) }
        ensures fits { RefusesByTerm result }
        ensures ready { phase_of self.new.now ≡ Ready }
        ensures limits { KeepsLimits (MayMeet (HeapPieces S.Store self.old) (L.over self.old.limit))
            (MayMeet (HeapPieces S.Store self.new) (L.over self.new.limit)) }
        ensures stays { Stays S.Store self.old self.new }
    {
        self.clear();
        self.add(clause)
    }
}
