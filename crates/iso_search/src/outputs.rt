//! The search's moves at goals that write (8.12.3, 8.14.2).
ghost use Rattle.std.specs.Prelude.{◌+◌, IfOk, OnErr};
ghost use Rattle.iso_model.specs.Search.Outputs.{output_reply};
ghost use Rattle.iso_model.specs.Search.Walker.{State, replied};
ghost use Rattle.iso_store_core.specs.Presents.{meaning};
ghost use Rattle.iso_store_core.specs.ArgumentWords.{AreArguments};

use super::search::{Move, Search};
use iso_model::{Output, Pause};
use iso_search_core::lists::Lists;
use iso_store_core::{Store, StoreFault};
use iso_text::output;

impl<S: Store + Drop, L: Lists<S>> Search<S, L> {
    ghost use Rattle.iso_search.specs.Outputs.{WritesAt, HasWritten};
    ghost use Rattle.iso_search.specs.EngineStates.{Remains, cost_from};
    ghost use Rattle.iso_search.specs.Stays.{Stays};
    ghost use Rattle.iso_search.specs.Moved.{FallsFrom};
    ghost use Rattle.iso_search.specs.Limits.{ResultMet, ResultFull};

    /// Runs the goal of this row, whose arguments were read, before the list from this place on: the bytes that it
    /// writes are given to the caller where there are some. The error is that memory was refused.
    pub(crate) fn write_goal(
        &mut self,
        row: Output,
        goal: S::Word,
        place: L::Place,
    ) -> Result<Move, StoreFault>
        requires writes { (s : State) × WritesAt S.Store L.Lists self.old row goal s place }
        requires arguments { AreArguments (S.present self.old.store) self.old.words.items
            (meaning (S.present self.old.store) goal) }
        ensures written { (s : State) → WritesAt S.Store L.Lists self.old row goal s place
            → IfOk result (λ m. HasWritten S.Store L.Lists m self.new
            (replied (output_reply row (meaning (S.present self.old.store) goal)) s.list s)) }
        ensures kept { (s : State) → WritesAt S.Store L.Lists self.old row goal s place
            → OnErr result (Remains S.Store L.Lists self.new s) }
        ensures falls { FallsFrom L.Lists self.old (cost_from L.Lists self.old place + 1) result self.new }
        ensures frames { ResultFull ⊥ result }
        ensures met { ResultMet S.Store result self.new }
        ensures stays { Stays S.Store self.old self.new }
    {
        let arguments = self.words.as_slice();
        match output(self.alloc, &self.store, &self.ops, row, arguments) {
            Ok(bytes) => {
                self.now = self.coming(place);
                if bytes.is_empty() {
                    return Ok(Move::Goes);
                }
                Ok(Move::Pauses(Pause::Output(bytes)))
            }
            Err(fault) => self.behind_fault(fault, place),
        }
    }
}
