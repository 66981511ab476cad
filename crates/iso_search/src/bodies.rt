//! A body that was placed is run next, or a goal is converted and run (7.6.2, 7.8.3).
ghost use Rattle.std.specs.Prelude.{◌≡◌, ◌+◌, ◌≤◌, ◌∷◌, OnOk, OnErr, Err, Some, true};
ghost use Rattle.iso_model.specs.Terms.Sizes.{size};
ghost use Rattle.iso_model.specs.Search.Bodies.{Body, body_term, converted, map_body};
ghost use Rattle.iso_model.specs.Search.Walker.{State, Goal};
ghost use Rattle.iso_search_core.specs.Bodies.{body_cost, most};
ghost use Rattle.iso_search_core.specs.Cells.{conversion_cells};
ghost use Rattle.iso_search_core.specs.Keeping.{EndHolds, ending, end_cost};
ghost use Rattle.iso_prep.specs.Conversions.{is_callable};
ghost use Rattle.iso_store_core.specs.Presents.{Holds, meaning};

use super::search::Search;
use iso_search_core::ends::End;
use iso_search_core::lists::Lists;
use iso_search_core::nows::Now;
use iso_store_core::{Store, StoreFault};
use std::alloc::AllocError;

impl<S: Store + Drop, L: Lists<S>> Search<S, L> {
    ghost use Rattle.iso_model.specs.Search.Engines.{IsAwake};
    ghost use Rattle.iso_search.specs.EngineStates.{IsAhead, IsEngine, Remains, kept_cost, cost, phase_of};
    ghost use Rattle.iso_search.specs.Stays.{Stays};

    /// Runs the body next, with this cut mark, before the list from the place on. The error is that memory was refused.
    pub(crate) fn run_here(
        &mut self,
        body: L::Body,
        mark: usize,
        rest: L::Place,
    ) -> Result<(), AllocError>
        requires { (s : State) × (b : Body) × IsAhead S.Store L.Lists self.old s rest
            × L.body (S.present self.old.store) self.old.lists body b }
        ensures runs { (s : State) (b : Body) → IsAhead S.Store L.Lists self.old s rest
            → L.body (S.present self.old.store) self.old.lists body b
            → OnOk result (IsEngine S.Store L.Lists self.new (record s { list = Goal b mark ∷ s.list })) }
        ensures kept { (s : State) → IsAhead S.Store L.Lists self.old s rest
            → OnErr result (Remains S.Store L.Lists self.new s) }
        ensures costs { OnOk result (cost L.Lists self.new
            ≤ kept_cost L.Lists self.old + body_cost most (L.cost self.old.lists rest)) }
        ensures awake { OnOk result (IsAwake (phase_of self.new.now)) }
        ensures same { self.new ≡ record self.old { lists = self.new.lists; now = self.new.now } }
        ensures stays { Stays S.Store self.old self.new }
    {
        let first = self.lists.run(body, mark, rest)?;
        self.now = Now::Running(first);
        Ok(())
    }

    /// Runs the body next, with this cut mark, before this end and the list from the place on. The error is that memory
    /// was refused.
    pub(crate) fn run_before(
        &mut self,
        body: L::Body,
        mark: usize,
        end: End<S::Word>,
        rest: L::Place,
    ) -> Result<(), AllocError>
        requires { (s : State) × (b : Body) × IsAhead S.Store L.Lists self.old s rest
            × L.body (S.present self.old.store) self.old.lists body b × EndHolds (S.present self.old.store) end }
        ensures runs { (s : State) (b : Body) → IsAhead S.Store L.Lists self.old s rest
            → L.body (S.present self.old.store) self.old.lists body b
            → OnOk result (IsEngine S.Store L.Lists self.new
            (record s { list = Goal b mark ∷ ending (S.present self.old.store) end s.list })) }
        ensures kept { (s : State) → IsAhead S.Store L.Lists self.old s rest
            → OnErr result (Remains S.Store L.Lists self.new s) }
        ensures costs { OnOk result (cost L.Lists self.new
            ≤ kept_cost L.Lists self.old + body_cost most (end_cost end + L.cost self.old.lists rest)) }
        ensures awake { OnOk result (IsAwake (phase_of self.new.now)) }
        ensures same { self.new ≡ record self.old { lists = self.new.lists; now = self.new.now } }
        ensures stays { Stays S.Store self.old self.new }
    {
        let behind = self.lists.place_end(end, rest)?;
        self.run_here(body, mark, behind)
    }

    /// Converts the goal, which can be converted (7.6.2), and runs its body next, with this cut mark, before this end
    /// and the list from the place on. The errors: the store is full, or memory was refused.
    pub(crate) fn run_converted(
        &mut self,
        goal: S::Word,
        mark: usize,
        end: End<S::Word>,
        rest: L::Place,
    ) -> Result<(), StoreFault>
        requires ahead { (s : State) × IsAhead S.Store L.Lists self.old s rest }
        requires goal { Holds (S.present self.old.store) goal }
        requires callable { is_callable (meaning (S.present self.old.store) goal) ≡ true }
        requires end { EndHolds (S.present self.old.store) end }
        ensures runs { (s : State) (b : Body) → IsAhead S.Store L.Lists self.old s rest
            → converted (meaning (S.present self.old.store) goal) ≡ Some b
            → OnOk result ((own : Body) × (map_body s.subst own ≡ b) × IsEngine S.Store L.Lists self.new
            (record s { list = Goal own mark ∷ ending (S.present self.old.store) end s.list; built = s.built + size (body_term b) })) }
        ensures kept { (s : State) → IsAhead S.Store L.Lists self.old s rest
            → OnErr result (Remains S.Store L.Lists self.new
            (record s { built = s.built + conversion_cells (meaning (S.present self.old.store) goal) })) }
        ensures full { result ≡ Err StoreFault.Full → S.full self.new.store }
        ensures costs { OnOk result (cost L.Lists self.new
            ≤ kept_cost L.Lists self.old + body_cost most (end_cost end + L.cost self.old.lists rest)) }
        ensures awake { OnOk result (IsAwake (phase_of self.new.now)) }
        ensures steps { self.new.steps ≡ self.old.steps }
        ensures stays { Stays S.Store self.old self.new }
    {
        let controls = &self.vocabulary.controls;
        let body = self
            .lists
            .place_goal(self.alloc, &mut self.store, controls, goal)?;
        self.run_before(body, mark, end, rest)?;
        Ok(())
    }
}
