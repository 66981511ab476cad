//! How a choice comes, and what is said where none may come any more.
ghost use Rattle.std.specs.Prelude.{◌≡◌, ◌+◌, ◌*◌, ◌≤◌, Ok, OnErr, true, false, length};
ghost use Rattle.iso_model.specs.Search.Walker.{State, pushed};
ghost use Rattle.iso_model.specs.Search.Walker as walker;
ghost use Rattle.iso_store_core.specs.Retaining.{Retains};
ghost use Rattle.iso_search_core.specs.Standing.{GainsChoice};
ghost use Rattle.iso_model.specs.declared.limit.Limit.TheVariants as limit;
ghost use Rattle.iso_model.specs.declared.pauses.Pause.TheVariants as pause;
ghost use Rattle.iso_search.specs.declared.search.Move.TheVariants as moved;

use super::search::{Move, Search};
use iso_model::{Limit, Pause};
use iso_search_core::choices::{Left, keep_choice};
use iso_search_core::lists::Lists;
use iso_search_core::nows::Now;
use iso_store_core::Store;
use std::alloc::AllocError;

impl<S: Store + Drop, L: Lists<S>> Search<S, L> {
    ghost use Rattle.iso_search.specs.EngineStates.{IsAhead, Remains, kept_cost, leaves_of};
    ghost use Rattle.iso_search_core.specs.Costs.{tried_cost};
    ghost use Rattle.iso_search_core.specs.Standing.{HasLeft, entered_at, most_numbers, numbers_a_step};
    ghost use Rattle.iso_search.specs.Stays.{Stays};
    ghost use Rattle.iso_search_core.specs.declared.nows.Now.TheVariants as now;

    /// Keeps a choice at which this is left to be tried, before the list from the place on (7.7.8); false where no
    /// choice may be made any more, and nothing changed. The error is that memory was refused.
    pub fn push_choice(
        &mut self,
        left: Left<S::Word, L::Call>,
        rest: L::Place,
    ) -> Result<bool, AllocError>
        ensures gains { result ≡ Ok true → GainsChoice (S.stands self.old.store) (S.stands self.new.store) S.older
            (S.present self.old.store) (L.whole self.old.lists) rest left self.old.choices.items self.new.choices.items }
        ensures full { result ≡ Ok false → (self.new ≡ self.old) × (self.old.limit ≤ length self.old.choices.items) }
        ensures ahead { (s : State) (x : walker.Left) → result ≡ Ok true → IsAhead S.Store L.Lists self.old s rest
            → HasLeft (leaves_of S.Store L.Lists self.old) (L.call (S.present self.old.store) self.old.lists
            (L.whole self.old.lists)) (S.present self.old.store) left
            (record { list = s.list; subst = s.subst; next = s.next; built = s.built; left = x })
            → s.next + numbers_a_step * (self.old.steps + entered_at x) ≤ most_numbers
            → IsAhead S.Store L.Lists self.new (pushed s.list x s) rest }
        ensures costs { result ≡ Ok true → kept_cost L.Lists self.new
            ≡ kept_cost L.Lists self.old + tried_cost left (L.cost self.old.lists rest) }
        ensures refused { (s : State) → IsAhead S.Store L.Lists self.old s rest
            → OnErr result (Remains S.Store L.Lists self.new s) }
        ensures kept { OnErr result (self.new.choices.items ≡ self.old.choices.items) }
        ensures present { S.present self.new.store ≡ S.present self.old.store }
        ensures rest { Retains S.Store self.old.store self.new.store }
        ensures same { self.new ≡ record self.old { store = self.new.store; choices = self.new.choices } }
        ensures stays { Stays S.Store self.old self.new }
    {
        if self.choices.len() >= self.limit as usize {
            return Ok(false);
        }
        let kept = self.lists.kept();
        keep_choice(&mut self.store, &mut self.choices, kept, rest, left)?;
        Ok(true)
    }

    /// Ends the run: no choice may be made any more.
    pub fn full_frames(&mut self) -> Move
        ensures is { result ≡ moved.Pauses pause.FramesFull }
        ensures spent { self.new ≡ record self.old { now = now.Spent limit.Frames } }
    {
        self.now = Now::Spent(Limit::Frames);
        Move::Pauses(Pause::FramesFull)
    }
}
