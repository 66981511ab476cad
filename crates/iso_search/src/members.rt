//! The moves at members of the list that are no goals: a cut, failure, the ends of goals that others run (7.8.4, 7.8.9,
//! 8.10.1).
ghost use Rattle.std.specs.Prelude.{◌≡◌, ◌≤◌, Ok, List};
ghost use Rattle.iso_model.specs.Search.Walker.{State, World, Alternative, cut_back, shortened};
ghost use Rattle.iso_search.specs.Members.{IsCut, IsLeave};

use super::search::{Move, Search};
use super::solutions::gather_solution;
use iso_search_core::lists::Lists;
use iso_search_core::nows::Now;
use iso_store_core::{Store, StoreFault};

impl<S: Store + Drop, L: Lists<S>> Search<S, L> {
    ghost use Rattle.iso_search.specs.EngineStates.{IsAhead, IsEngine, Keeps, Represents, kept_cost};
    ghost use Rattle.iso_search.specs.Members.{IsFirst, FailsFirst, GathersFirst};
    ghost use Rattle.iso_search.specs.Moved.{Moved};
    ghost use Rattle.iso_search.specs.Stays.{Stays};
    ghost use Rattle.iso_search_core.specs.declared.nows.Now.TheVariants as now;

    /// Takes the choices away that were made since so many stood.
    pub fn cut_to(&mut self, height: usize)
        requires { (w : World) × (ks : List Alternative) × Keeps S.Store L.Lists self.old w ks }
        ensures cut { (s : State) (place : L.Place) → IsAhead S.Store L.Lists self.old s place
            → IsAhead S.Store L.Lists self.new (cut_back height s.list s) place }
        ensures failing { (s : State) → IsEngine S.Store L.Lists self.old s → self.old.now ≡ now.Failing
            → IsEngine S.Store L.Lists self.new (record s { stack = shortened height s.stack }) }
        ensures same { self.new ≡ record self.old { store = self.new.store; choices = self.new.choices } }
        ensures present { S.present self.new.store ≡ S.present self.old.store }
        ensures costs { kept_cost L.Lists self.new ≤ kept_cost L.Lists self.old }
        ensures stays { Stays S.Store self.old self.new }
    {
        if height < self.choices.len() {
            let mark = self.choices[height].mark;
            self.choices.truncate(height);
            self.store.forget(mark);
        }
    }

    /// Takes the choices away that were made since so many stood as the cut says that comes first, and goes on behind
    /// it (7.8.4).
    pub fn cut(&mut self, height: usize, rest: L::Place) -> Move
        requires first { IsFirst S.Store L.Lists self.old (IsCut height) rest }
        requires stands { (s : State) × Represents S.Store L.Lists self.old s }
        ensures { Moved S.Store L.Lists (λ s. ⊥) self.old (Ok result) self.new }
    {
        self.cut_to(height);
        self.now = self.coming(rest);
        Move::Goes
    }

    /// Goes on behind the catch whose goal has ended: it catches nothing any more, but its choice stays (7.8.9).
    pub fn leave(&mut self, rest: L::Place) -> Move
        requires first { IsFirst S.Store L.Lists self.old IsLeave rest }
        requires stands { (s : State) × Represents S.Store L.Lists self.old s }
        ensures { Moved S.Store L.Lists (λ s. ⊥) self.old (Ok result) self.new }
    {
        self.now = self.coming(rest);
        Move::Goes
    }

    /// Fails, as the member asks for that comes first.
    pub fn fail_first(&mut self) -> Move
        requires first { FailsFirst S.Store L.Lists self.old }
        requires stands { (s : State) × Represents S.Store L.Lists self.old s }
        ensures { Moved S.Store L.Lists (λ s. ⊥) self.old (Ok result) self.new }
    {
        self.now = Now::Failing;
        Move::Goes
    }

    /// A copy of this template, which is to be gathered first, comes to what the choice at this height has gathered,
    /// and the engine fails next (8.10.1). The error is that memory was refused.
    pub fn gather(&mut self, height: usize, template: S::Word) -> Result<Move, StoreFault>
        requires first { GathersFirst S.Store L.Lists self.old height template }
        requires stands { (s : State) × Represents S.Store L.Lists self.old s }
        ensures { Moved S.Store L.Lists (λ s. ⊥) self.old result self.new }
    {
        let solution = self.store.copy_out(template)?;
        gather_solution(self.alloc, &mut self.choices, height, solution)?;
        self.now = Now::Failing;
        Ok(Move::Goes)
    }
}
