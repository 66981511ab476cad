//! The search's moves at goals that read or change operators and flags (8.14.3, 8.14.4, 8.17.1, 8.17.2), and at rows
//! that their arguments are unified with.
ghost use Rattle.std.specs.Prelude.{◌≡◌, ℕ, suc, ◌+◌, ◌<◌, ◌≤◌, IfOk, OnOk, OnErr, Ok, Err, List, length, true, false};
ghost use Rattle.iso_model.specs.Terms.Trees.{Tree};
ghost use Rattle.iso_model.specs.Search.Settings.{setting_settled};
ghost use Rattle.iso_model.specs.Search.Settlements as settlements;
ghost use Rattle.iso_model.specs.Search.Walker as walker;
ghost use Rattle.iso_model.specs.Search.Walker.{State, Alternative, with_rights, tried_right, offered, settled};
ghost use Rattle.iso_store_core.specs.Presents.{meaning};
ghost use Rattle.iso_store_core.specs.ArgumentWords.{AreArguments};
ghost use Rattle.iso_search_core.specs.declared.offers.Offers as rows;
ghost use Rattle.iso_search_core.specs.Fitting.{FitsState};
ghost use Rattle.iso_search_core.specs.Offers.{goal_arguments, row_offer, rows_in, rights_of, IsRow, AreRows};
ghost use Rattle.iso_search_core.specs.declared.choices.Choice as kept;

use super::backtracking::Newest;
use super::search::{Move, Search};
use iso_lib::{Settled, settle};
use iso_model::Setting;
use iso_search_core::choices::{Left, take_offer};
use iso_search_core::goals::read_arguments;
use iso_search_core::lists::Lists;
use iso_search_core::nows::Now;
use iso_search_core::offers::{self, OfferedRow, Offers};
use iso_store_core::{Store, StoreFault};
use std::alloc::AllocError;

impl<S: Store + Drop, L: Lists<S>> Search<S, L> {
    ghost use Rattle.iso_search.specs.Settles.{MeetsRow, MeetsNext, AsksAt, WasStopped};
    ghost use Rattle.iso_search.specs.EngineStates.{IsEngine, Remains, Keeps, WentBack, WasCalled, cost, kept_cost, cost_from, phase_of, went_back};
    ghost use Rattle.iso_search_core.specs.Bodies.{body_cost, left_cost, most};
    ghost use Rattle.iso_search_core.specs.Costs.{now_cost};
    ghost use Rattle.iso_model.specs.Search.Engines.{IsAwake};
    ghost use Rattle.iso_search.specs.Stays.{Stays};
    ghost use Rattle.iso_search.specs.Moved.{FallsFrom};
    ghost use Rattle.iso_search.specs.Limits.{ResultMet, ResultFull};
    ghost use Rattle.iso_search_core.specs.declared.choices.Left.TheVariants as left;

    /// Unifies the arguments of the goal with the row, and goes on with the list from this place on; where they don't
    /// unify it fails next. The errors: the store is full, or memory was refused.
    fn try_row(
        &mut self,
        goal: S::Word,
        row: &OfferedRow,
        place: L::Place,
    ) -> Result<(), StoreFault>
        requires meets { (s : State) × MeetsRow S.Store L.Lists self.old goal s place }
        requires row { IsRow (meaning (S.present self.old.store) goal) row.now }
        ensures tried { (s : State) (made : ℕ) → MeetsRow S.Store L.Lists self.old goal s place → OnOk result
            (IsEngine S.Store L.Lists self.new (tried_right (goal_arguments (meaning (S.present self.old.store) goal))
            (row_offer made (meaning (S.present self.old.store) goal) row.now) s.list s)) }
        ensures kept { (s : State) (made : ℕ) → MeetsRow S.Store L.Lists self.old goal s place → OnErr result
            (Keeps S.Store L.Lists self.new s.world s.stack × FitsState S.Store (S.present self.new.store) 0
            (tried_right (goal_arguments (meaning (S.present self.old.store) goal))
            (row_offer made (meaning (S.present self.old.store) goal) row.now) s.list s)) }
        ensures awake { OnOk result (IsAwake (phase_of self.new.now)) }
        ensures full { result ≡ Err StoreFault.Full → S.full self.new.store }
        ensures same { self.new ≡ record self.old {
          store = self.new.store;
          words = self.new.words;
          now = self.new.now;
        } }
        ensures cost { OnOk result (now_cost (L.first_cost self.old.lists) self.new.now ≤ L.cost self.old.lists place) }
        ensures stays { Stays S.Store self.old self.new }
    {
        read_arguments(&self.store, goal, &mut self.words)?;
        let arguments = self.words.as_slice();
        if !offers::unify_row(self.alloc, &mut self.store, arguments, row)? {
            self.now = Now::Failing;
            return Ok(());
        }
        self.now = self.coming(place);
        Ok(())
    }

    /// Keeps the rows as a choice where there are any (7.7.8); false where no choice may be made any more. The error
    /// is that memory was refused.
    fn push_offers(
        &mut self,
        goal: S::Word,
        place: L::Place,
        offers: Offers,
    ) -> Result<bool, AllocError>
        requires rows { AreRows (meaning (S.present self.old.store) goal) offers }
        ensures meets { (s : State) (made : ℕ) → MeetsRow S.Store L.Lists self.old goal s place → result ≡ Ok true
            → MeetsRow S.Store L.Lists self.new goal
            (with_rights (goal_arguments (meaning (S.present self.old.store) goal))
            (rights_of made (meaning (S.present self.old.store) goal) offers) s.list s) place }
        ensures present { S.present self.new.store ≡ S.present self.old.store }
        ensures kept { (s : State) → MeetsRow S.Store L.Lists self.old goal s place
            → OnErr result (Remains S.Store L.Lists self.new s) }
        ensures over { result ≡ Ok false → (self.new ≡ self.old) × (self.old.limit ≤ length self.old.choices.items)
            × (0 < length (rows_in offers)) }
        ensures same { self.new ≡ record self.old { store = self.new.store; choices = self.new.choices } }
        ensures costs { kept_cost L.Lists self.new ≤ kept_cost L.Lists self.old
            + left_cost most (L.cost self.old.lists place) }
        ensures stays { Stays S.Store self.old self.new }
    {
        if offers.is_empty() {
            return Ok(true);
        }
        self.push_choice(Left::Offered(goal, offers), place)
    }

    /// Unifies the arguments of the goal with the first of the rows; those behind it are one choice. The errors: the
    /// store is full, or memory was refused; where no choice may be made any more the engine is spent.
    pub(crate) fn offer(
        &mut self,
        goal: S::Word,
        place: L::Place,
        mut offers: Offers,
    ) -> Result<Move, StoreFault>
        requires meets { (s : State) × MeetsRow S.Store L.Lists self.old goal s place }
        requires rows { AreRows (meaning (S.present self.old.store) goal) offers }
        ensures called { (s : State) (made : ℕ) → MeetsRow S.Store L.Lists self.old goal s place → IfOk result
            (λ m. WasCalled S.Store L.Lists m self.new s
            (offered (goal_arguments (meaning (S.present self.old.store) goal))
            (rights_of made (meaning (S.present self.old.store) goal) offers) s.list s)) }
        ensures kept { (s : State) (made : ℕ) → MeetsRow S.Store L.Lists self.old goal s place → OnErr result
            (WasStopped S.Store L.Lists self.new s (offered (goal_arguments (meaning (S.present self.old.store) goal))
            (rights_of made (meaning (S.present self.old.store) goal) offers) s.list s)) }
        ensures falls { FallsFrom L.Lists self.old (cost_from L.Lists self.old place) result self.new }
        ensures frames { (s : State) (made : ℕ) → MeetsRow S.Store L.Lists self.old goal s place
            → ResultFull ((self.old.limit ≤ length self.old.choices.items)
            × (length (offered (goal_arguments (meaning (S.present self.old.store) goal)) (rights_of made
            (meaning (S.present self.old.store) goal) offers) s.list s).stack ≡ suc (length s.stack))) result }
        ensures met { ResultMet S.Store result self.new }
        ensures stays { Stays S.Store self.old self.new }
    {
        let Some(first) = offers.take() else {
            self.now = Now::Failing;
            return Ok(Move::Goes);
        };
        if !self.push_offers(goal, place, offers)? {
            return Ok(self.full_frames());
        }
        self.try_row(goal, &first, place)?;
        Ok(Move::Goes)
    }

    /// Runs the goal of this row, whose arguments were read, before the list from this place on. The errors: the store
    /// is full, or memory was refused; where no choice may be made any more the engine is spent.
    pub(crate) fn setting_goal(
        &mut self,
        row: Setting,
        goal: S::Word,
        place: L::Place,
    ) -> Result<Move, StoreFault>
        requires asks { (s : State) × AsksAt S.Store L.Lists self.old row goal s place }
        requires arguments { AreArguments (S.present self.old.store) self.old.words.items
            (meaning (S.present self.old.store) goal) }
        ensures called { (s : State) → AsksAt S.Store L.Lists self.old row goal s place
            → IfOk result (λ m. WasCalled S.Store L.Lists m self.new s
            (settled (setting_settled row (meaning (S.present self.old.store) goal) s.world) s.list s)) }
        ensures kept { (s : State) → AsksAt S.Store L.Lists self.old row goal s place
            → OnErr result (WasStopped S.Store L.Lists self.new s
            (settled (setting_settled row (meaning (S.present self.old.store) goal) s.world) s.list s)) }
        ensures falls { FallsFrom L.Lists self.old (cost_from L.Lists self.old place + 1) result self.new }
        ensures frames { (s : State) → AsksAt S.Store L.Lists self.old row goal s place
            → ResultFull ((self.old.limit ≤ length self.old.choices.items) × (length (settled (setting_settled row
            (meaning (S.present self.old.store) goal) s.world) s.list s).stack ≡ suc (length s.stack))) result }
        ensures met { ResultMet S.Store result self.new }
        ensures stays { Stays S.Store self.old self.new }
    {
        let arguments = self.words.as_slice();
        match settle(
            self.alloc,
            &self.store,
            row,
            arguments,
            &mut self.ops,
            &mut self.flags,
        ) {
            Ok(Settled::Done) => {
                self.now = self.coming(place);
                Ok(Move::Goes)
            }
            Ok(Settled::Offers(mut offers)) => {
                offers.reverse();
                self.offer(goal, place, Offers::Constants(offers))
            }
            Err(fault) => self.behind_fault(fault, place),
        }
    }

    /// Takes the first row from those of the newest choice, which goes with its last one.
    fn next_offer(&mut self, mark: S::Mark) -> OfferedRow
        requires some { 0 < length self.old.choices.items }
        requires back { (c : kept.Choice S.Word S.Mark L.Kept L.Place L.Call) × (goal : S.Word) × (offers : rows.Offers)
            × (s : State) × (a : Alternative) × (below : List Alternative) × (c.mark ≡ mark)
            × (c.left ≡ left.Offered goal offers) × WentBack S.Store L.Lists self.old c s a below }
        ensures meets { (c : kept.Choice S.Word S.Mark L.Kept L.Place L.Call) (goal : S.Word) (offers : rows.Offers)
            (s : State) (a : Alternative) (below : List Alternative) → c.mark ≡ mark → c.left ≡ left.Offered goal offers
            → WentBack S.Store L.Lists self.old c s a below
            → MeetsNext S.Store L.Lists self.new goal c.rest s a below result }
        ensures costs { (c : kept.Choice S.Word S.Mark L.Kept L.Place L.Call) (goal : S.Word) (offers : rows.Offers)
            (s : State) (a : Alternative) (below : List Alternative) → c.mark ≡ mark → c.left ≡ left.Offered goal offers
            → WentBack S.Store L.Lists self.old c s a below → kept_cost L.Lists self.new
            + (body_cost most (L.cost self.old.lists c.rest) + 1) ≤ kept_cost L.Lists self.old }
        ensures same { self.new ≡ record self.old { store = self.new.store; choices = self.new.choices } }
        ensures stays { Stays S.Store self.old self.new }
    {
        let newest = self.choices.len() - 1;
        let Some((row, is_last)) = take_offer(&mut self.choices, newest) else {
            unreachable!();
        };
        if is_last {
            self.choices.truncate(newest);
            self.store.forget(mark);
        }
        row
    }

    /// Unifies the arguments of this goal with the first of the rows that were left at the newest choice; then it
    /// goes on with the list of the choice, or fails next. The errors: the store is full, or memory was refused.
    pub(crate) fn try_next(
        &mut self,
        newest: Newest<S::Mark, L::Place>,
        goal: S::Word,
    ) -> Result<(), StoreFault>
        requires some { 0 < length self.old.choices.items }
        requires back { (c : kept.Choice S.Word S.Mark L.Kept L.Place L.Call) × (offers : rows.Offers) × (s : State)
            × (a : Alternative) × (below : List Alternative) × (c.mark ≡ newest.mark) × (c.rest ≡ newest.rest)
            × (c.left ≡ left.Offered goal offers) × WentBack S.Store L.Lists self.old c s a below }
        ensures tried { (c : kept.Choice S.Word S.Mark L.Kept L.Place L.Call) (offers : rows.Offers) (s : State)
            (a : Alternative) (below : List Alternative) (first : Tree) (rights : List settlements.Offer)
            → c.mark ≡ newest.mark → c.rest ≡ newest.rest → c.left ≡ left.Offered goal offers
            → WentBack S.Store L.Lists self.old c s a below → a.left ≡ walker.Offered first rights
            → OnOk result (IsEngine S.Store L.Lists self.new (offered first rights a.list (went_back a below s))) }
        ensures kept { (c : kept.Choice S.Word S.Mark L.Kept L.Place L.Call) (offers : rows.Offers) (s : State)
            (a : Alternative) (below : List Alternative) (first : Tree) (rights : List settlements.Offer)
            → c.mark ≡ newest.mark → c.rest ≡ newest.rest → c.left ≡ left.Offered goal offers
            → WentBack S.Store L.Lists self.old c s a below → a.left ≡ walker.Offered first rights
            → OnErr result (((offered first rights a.list (went_back a below s)).world ≡ s.world)
            × Keeps S.Store L.Lists self.new s.world (offered first rights a.list (went_back a below s)).stack
            × FitsState S.Store (S.present self.new.store) 0 (offered first rights a.list (went_back a below s))) }
        ensures awake { OnOk result (IsAwake (phase_of self.new.now)) }
        ensures full { result ≡ Err StoreFault.Full → S.full self.new.store }
        ensures steps { self.new.steps ≡ self.old.steps }
        ensures costs { OnOk result (cost L.Lists self.new < kept_cost L.Lists self.old) }
        ensures stays { Stays S.Store self.old self.new }
    {
        let row = self.next_offer(newest.mark);
        self.try_row(goal, &row, newest.rest)
    }
}
