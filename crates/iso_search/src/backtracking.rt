//! The move back to the newest choice, and what becomes of it where its list is gone on with (7.7.8).
ghost use Rattle.std.specs.Prelude.{◌≡◌, ◌≢◌, ℕ, ◌+◌, ◌*◌, ◌-◌, ◌<◌, ◌≤◌, List, ◌∷◌, length, take, Some};
ghost use Rattle.std.specs.List.{slice_get};
ghost use Rattle.iso_search_core.specs.declared.choices.Choice as kept;
ghost use Rattle.iso_search_core.specs.Standing.{entered_at, most_numbers, numbers_a_step};
ghost use Rattle.iso_model.specs.Search.Walker.{State, Alternative, AsIs, Again, fails, pushed};

use super::search::Search;
use iso_search_core::lists::Lists;
use iso_search_core::nows::Now;
use iso_store_core::Store;

/// The newest choice, as it was gone back to: its mark, and where the list behind it begins.
#[derive(Clone, Copy)]
pub struct Newest<M, P> {
    pub mark: M,
    pub rest: P,
}

impl<S: Store + Drop, L: Lists<S>> Search<S, L> {
    ghost use Rattle.iso_search.specs.EngineStates.{IsEngine, IsAhead, WentBack, cost, kept_cost, phase_of, went_back};
    ghost use Rattle.iso_search_core.specs.Costs.{choices_cost, tried_cost};
    ghost use Rattle.iso_search.specs.Stays.{Stays};
    ghost use Rattle.iso_model.specs.Search.Engines.{IsAwake};
    ghost use Rattle.iso_search_core.specs.declared.choices.Left.TheVariants as left;

    /// Goes back to the newest choice, which stays: the store and the lists are as they were when it was made (7.7.8).
    #[inline(always)]
    pub fn go_back(&mut self) -> Newest<S::Mark, L::Place>
        requires some { 0 < length self.old.choices.items }
        requires failing { (s : State) × IsEngine S.Store L.Lists self.old s }
        ensures back { (s : State) → IsEngine S.Store L.Lists self.old s
            → (c : kept.Choice S.Word S.Mark L.Kept L.Place L.Call) × (a : Alternative) × (below : List Alternative)
            × (s.stack ≡ a ∷ below) × (c.mark ≡ result.mark) × (c.rest ≡ result.rest)
            × WentBack S.Store L.Lists self.new c s a below }
        ensures steps { self.new.steps ≡ self.old.steps }
        ensures choices { self.new.choices ≡ self.old.choices }
        ensures now { self.new.now ≡ self.old.now }
        ensures raised { self.new.raised ≡ self.old.raised }
        ensures costs { choices_cost (L.cost self.new.lists) self.old.choices.items ≡ kept_cost L.Lists self.old }
        ensures stays { Stays S.Store self.old self.new }
    {
        let choice = &self.choices[self.choices.len() - 1];
        let (mark, kept, rest) = (choice.mark, choice.kept, choice.rest);
        self.store.undo(mark);
        self.lists.go_back(kept);
        Newest { mark, rest }
    }

    /// Takes the newest choice away, which has this mark.
    pub fn drop_choice(&mut self, mark: S::Mark)
        requires some { 0 < length self.old.choices.items }
        requires back { (c : kept.Choice S.Word S.Mark L.Kept L.Place L.Call) × (s : State) × (a : Alternative)
            × (below : List Alternative) × (c.mark ≡ mark) × WentBack S.Store L.Lists self.old c s a below }
        ensures ahead { (c : kept.Choice S.Word S.Mark L.Kept L.Place L.Call) (s : State) (a : Alternative)
            (below : List Alternative) → c.mark ≡ mark → WentBack S.Store L.Lists self.old c s a below
            → IsAhead S.Store L.Lists self.new (went_back a below s) c.rest }
        ensures costs { (c : kept.Choice S.Word S.Mark L.Kept L.Place L.Call)
            → slice_get self.old.choices.items (length self.old.choices.items - 1) ≡ Some c
            → kept_cost L.Lists self.old ≡ kept_cost L.Lists self.new + tried_cost c.left (L.cost self.old.lists c.rest) }
        ensures present { S.present self.new.store ≡ S.present self.old.store }
        ensures choices { self.new.choices.items ≡ take (length self.old.choices.items - 1) self.old.choices.items }
        ensures same { self.new ≡ record self.old { store = self.new.store; choices = self.new.choices } }
        ensures stays { Stays S.Store self.old self.new }
    {
        self.choices.truncate(self.choices.len() - 1);
        self.store.forget(mark);
    }

    /// Goes on with the list of the newest choice, and takes the choice away (7.8.6).
    pub(crate) fn go_on(&mut self, newest: Newest<S::Mark, L::Place>)
        requires some { 0 < length self.old.choices.items }
        requires back { (c : kept.Choice S.Word S.Mark L.Kept L.Place L.Call) × (s : State) × (a : Alternative)
            × (below : List Alternative) × (c.mark ≡ newest.mark) × (c.rest ≡ newest.rest) × (c.left ≡ left.AsIs)
            × WentBack S.Store L.Lists self.old c s a below }
        ensures goes { (c : kept.Choice S.Word S.Mark L.Kept L.Place L.Call) (s : State) (a : Alternative)
            (below : List Alternative) → c.mark ≡ newest.mark → c.rest ≡ newest.rest
            → WentBack S.Store L.Lists self.old c s a below → IsEngine S.Store L.Lists self.new (went_back a below s) }
        ensures awake { IsAwake (phase_of self.new.now) }
        ensures steps { self.new.steps ≡ self.old.steps }
        ensures stays { Stays S.Store self.old self.new }
        ensures costs { cost L.Lists self.new < kept_cost L.Lists self.old }
    {
        self.drop_choice(newest.mark);
        self.now = self.coming(newest.rest);
    }

    /// Takes the newest choice away, which is the entry of a catch: nothing is left to be tried there (7.8.9).
    pub(crate) fn pass_catch(&mut self, mark: S::Mark)
        requires some { 0 < length self.old.choices.items }
        requires back { (c : kept.Choice S.Word S.Mark L.Kept L.Place L.Call) × (s : State) × (a : Alternative)
            × (below : List Alternative) × (c.mark ≡ mark) × ((goal : S.Word) × (c.left ≡ left.Catching goal))
            × WentBack S.Store L.Lists self.old c s a below }
        ensures fails { (c : kept.Choice S.Word S.Mark L.Kept L.Place L.Call) (s : State) (a : Alternative)
            (below : List Alternative) → c.mark ≡ mark → WentBack S.Store L.Lists self.old c s a below
            → IsEngine S.Store L.Lists self.new (fails (went_back a below s)) }
        ensures awake { IsAwake (phase_of self.new.now) }
        ensures steps { self.new.steps ≡ self.old.steps }
        ensures stays { Stays S.Store self.old self.new }
        ensures costs { cost L.Lists self.new < kept_cost L.Lists self.old }
    {
        self.drop_choice(mark);
        self.now = Now::Failing;
    }

    /// Goes on with the list from this place on, which the newest choice keeps on; this takes a step (8.15.3).
    pub(crate) fn go_again(&mut self, rest: L::Place)
        requires some { 0 < length self.old.choices.items }
        requires steps { self.old.steps ≢ 0 }
        requires back { (c : kept.Choice S.Word S.Mark L.Kept L.Place L.Call) × (s : State) × (a : Alternative)
            × (below : List Alternative) × (c.rest ≡ rest) × (c.left ≡ left.Again)
            × WentBack S.Store L.Lists self.old c s a below }
        ensures goes { (c : kept.Choice S.Word S.Mark L.Kept L.Place L.Call) (s : State) (a : Alternative)
            (below : List Alternative) → c.rest ≡ rest → c.left ≡ left.Again
            → WentBack S.Store L.Lists self.old c s a below
            → IsEngine S.Store L.Lists self.new (record (pushed a.list Again (went_back a below s)) { steps = self.new.steps }) }
        ensures awake { IsAwake (phase_of self.new.now) }
        ensures step { self.new.steps + 1 ≡ self.old.steps }
        ensures stays { Stays S.Store self.old self.new }
        ensures costs { cost L.Lists self.new ≤ kept_cost L.Lists self.old + kept_cost L.Lists self.old }
    {
        self.steps -= 1;
        self.now = self.coming(rest);
    }
}
