//! The search's moves at goals that join atoms and take them apart (8.16.2, 8.16.3).
ghost use Rattle.std.specs.Prelude.{◌≡◌, suc, ◌+◌, ◌≤◌, IfOk, OnErr, length};
ghost use Rattle.iso_model.specs.Search.AtomParts.{parts_settled};
ghost use Rattle.iso_model.specs.Search.Walker.{State, settled};
ghost use Rattle.iso_store_core.specs.Presents.{meaning};
ghost use Rattle.iso_store_core.specs.ArgumentWords.{AreArguments};

use super::search::{Move, Search};
use iso_model::AtomPart;
use iso_search_core::lists::Lists;
use iso_search_core::offers::Offers;
use iso_store_core::{Store, StoreFault};
use iso_text::parts::parted;

impl<S: Store + Drop, L: Lists<S>> Search<S, L> {
    ghost use Rattle.iso_search.specs.Settles.{PartsAt, WasStopped};
    ghost use Rattle.iso_search.specs.EngineStates.{WasCalled, cost_from};
    ghost use Rattle.iso_search.specs.Stays.{Stays};
    ghost use Rattle.iso_search.specs.Moved.{FallsFrom};
    ghost use Rattle.iso_search.specs.Limits.{ResultMet, ResultFull};

    /// Runs the goal of this row, whose arguments were read, before the list from this place on. The errors: the store
    /// is full, or memory was refused; where no choice may be made any more the engine is spent.
    pub(crate) fn part_goal(
        &mut self,
        row: AtomPart,
        goal: S::Word,
        place: L::Place,
    ) -> Result<Move, StoreFault>
        requires parts { (s : State) × PartsAt S.Store L.Lists self.old row goal s place }
        requires arguments { AreArguments (S.present self.old.store) self.old.words.items
            (meaning (S.present self.old.store) goal) }
        ensures called { (s : State) → PartsAt S.Store L.Lists self.old row goal s place
            → IfOk result (λ m. WasCalled S.Store L.Lists m self.new s
            (settled (parts_settled row (meaning (S.present self.old.store) goal)) s.list s)) }
        ensures kept { (s : State) → PartsAt S.Store L.Lists self.old row goal s place
            → OnErr result (WasStopped S.Store L.Lists self.new s
            (settled (parts_settled row (meaning (S.present self.old.store) goal)) s.list s)) }
        ensures falls { FallsFrom L.Lists self.old (cost_from L.Lists self.old place + 1) result self.new }
        ensures frames { (s : State) → PartsAt S.Store L.Lists self.old row goal s place
            → ResultFull ((self.old.limit ≤ length self.old.choices.items) × (length (settled (parts_settled row
            (meaning (S.present self.old.store) goal)) s.list s).stack ≡ suc (length s.stack))) result }
        ensures met { ResultMet S.Store result self.new }
        ensures stays { Stays S.Store self.old self.new }
    {
        let arguments = self.words.as_slice();
        match parted(self.alloc, &self.store, row, arguments) {
            Ok(parts) => self.offer(goal, place, Offers::Parts(parts)),
            Err(fault) => self.behind_fault(fault, place),
        }
    }
}
