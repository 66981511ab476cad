//! The moves at findall/3: its goal is run, and its result is unified with the list of what was gathered (8.10.1).
ghost use Rattle.std.specs.Prelude.{◌≡◌, ◌+◌, ◌<◌, ◌≤◌, true, IfOk, OnOk, OnErr, [], List, length, Err, Some};
ghost use Rattle.iso_model.specs.Terms.Lists.{list_of};
ghost use Rattle.iso_model.specs.Terms.Sizes.{size};
ghost use Rattle.iso_model.specs.Search.Bodies.{Body, converted};
ghost use Rattle.iso_model.specs.Search.Replies.{AsList};
ghost use Rattle.iso_model.specs.Search.Walker.{State, Alternative, Gathering, pushed};
ghost use Rattle.iso_search_core.specs.declared.choices.Choice as kept;
ghost use Rattle.iso_search_core.specs.declared.solutions.Gathered.{Gathered};
ghost use Rattle.iso_search_core.specs.Solutions.{copies_of};
ghost use Rattle.iso_search.specs.Gathers.{template_of, solved_of, result_of, found};
ghost use Rattle.iso_search_core.specs.Cells.{conversion_cells};
ghost use Rattle.iso_search_core.specs.Replies.{CanBeRun};
ghost use Rattle.iso_store_core.specs.Presents.{meaning};

use super::backtracking::Newest;
use super::search::{Move, Search};
use super::solutions::unify_gathered;
use iso_search_core::choices::Left;
use iso_search_core::ends::End;
use iso_search_core::lists::Lists;
use iso_search_core::nows::Now;
use iso_search_core::solutions::Gathered;
use iso_store_core::{Store, StoreFault};

impl<S: Store + Drop, L: Lists<S>> Search<S, L> {
    ghost use Rattle.iso_search.specs.Gathers.{EntersFindall, FindsAll};
    ghost use Rattle.iso_search.specs.EngineStates.{IsAhead, IsEngine, Remains, WentBack, WasRefused, cost, cost_from, kept_cost, phase_of, went_back};
    ghost use Rattle.iso_search_core.specs.Costs.{tried_cost};
    ghost use Rattle.iso_model.specs.Search.Engines.{IsAwake};
    ghost use Rattle.iso_search.specs.Stays.{Stays};
    ghost use Rattle.iso_search.specs.Moved.{FallsFrom};
    ghost use Rattle.iso_search.specs.Limits.{ResultMet, ResultFull};
    ghost use Rattle.iso_search_core.specs.declared.choices.Left.TheVariants as left;

    /// Runs the goal of this goal of findall/3, which can be run, for all of its solutions, before the list from `rest`
    /// on. The errors: the store is full, or memory was refused; where no choice may be made any more the engine is
    /// spent.
    pub(crate) fn find_all(&mut self, goal: S::Word, rest: L::Place) -> Result<Move, StoreFault>
        requires enters { (s : State) × EntersFindall S.Store L.Lists self.old goal s rest }
        requires can { CanBeRun (solved_of (S.present self.old.store) goal) }
        ensures called { (s : State) (b : Body) → EntersFindall S.Store L.Lists self.old goal s rest
            → converted (solved_of (S.present self.old.store) goal) ≡ Some b
            → IfOk result (λ m. FindsAll S.Store L.Lists m self.new (template_of (S.present self.old.store) goal)
            (result_of (S.present self.old.store) goal) b s) }
        ensures kept { (s : State) → EntersFindall S.Store L.Lists self.old goal s rest
            → OnErr result (WasRefused S.Store L.Lists self.new s
            (record (pushed s.list (Gathering (AsList (result_of (S.present self.old.store) goal)) [] 0) s) {
              built = s.built + conversion_cells (solved_of (S.present self.old.store) goal);
            })) }
        ensures falls { FallsFrom L.Lists self.old (cost_from L.Lists self.old rest + 1) result self.new }
        ensures frames { ResultFull (self.old.limit ≤ length self.old.choices.items) result }
        ensures met { ResultMet S.Store result self.new }
        ensures stays { Stays S.Store self.old self.new }
    {
        let height = self.choices.len();
        let template = self.store.arg(goal, 0);
        let solved = self.store.arg(goal, 1);
        let solutions = self.store.arg(goal, 2);
        if !self.push_choice(Left::Gathering(solutions, Gathered::new(self.alloc)), rest)? {
            return Ok(self.full_frames());
        }
        self.run_converted(solved, height + 1, End::Gather(height, template), rest)?;
        Ok(Move::Goes)
    }

    /// Takes the newest choice away, which has this mark: what it has gathered.
    fn take_gathered(&mut self, mark: S::Mark) -> Gathered
        requires some { 0 < length self.old.choices.items }
        requires back { (c : kept.Choice S.Word S.Mark L.Kept L.Place L.Call) × (word : S.Word) × (g : Gathered)
            × (s : State) × (a : Alternative) × (below : List Alternative) × (c.mark ≡ mark)
            × (c.left ≡ left.Gathering word g) × WentBack S.Store L.Lists self.old c s a below }
        ensures gathered { (c : kept.Choice S.Word S.Mark L.Kept L.Place L.Call) (word : S.Word) (g : Gathered) (s : State)
            (a : Alternative) (below : List Alternative) → c.left ≡ left.Gathering word g
            → WentBack S.Store L.Lists self.old c s a below → result ≡ g }
        ensures ahead { (c : kept.Choice S.Word S.Mark L.Kept L.Place L.Call) (s : State) (a : Alternative)
            (below : List Alternative) → c.mark ≡ mark → WentBack S.Store L.Lists self.old c s a below
            → IsAhead S.Store L.Lists self.new (went_back a below s) c.rest }
        ensures costs { (c : kept.Choice S.Word S.Mark L.Kept L.Place L.Call) (s : State) (a : Alternative)
            (below : List Alternative) → WentBack S.Store L.Lists self.old c s a below
            → kept_cost L.Lists self.old ≡ kept_cost L.Lists self.new + tried_cost c.left (L.cost self.old.lists c.rest) }
        ensures present { S.present self.new.store ≡ S.present self.old.store }
        ensures same { self.new ≡ record self.old { store = self.new.store; choices = self.new.choices } }
        ensures stays { Stays S.Store self.old self.new }
    {
        let Some(choice) = self.choices.pop() else {
            unreachable!();
        };
        let Left::Gathering(_, gathered) = choice.left else {
            unreachable!();
        };
        self.store.forget(mark);
        gathered
    }

    /// Takes the newest choice away, which gathered, and unifies its result with the list of what it has gathered;
    /// then it goes on with the list behind it, or fails next. The errors: the store is full, or memory was refused, as
    /// it is for a list of more than 536,870,912 variables.
    pub(crate) fn end_gathering(
        &mut self,
        newest: Newest<S::Mark, L::Place>,
        solutions: S::Word,
    ) -> Result<(), StoreFault>
        requires some { 0 < length self.old.choices.items }
        requires back { (c : kept.Choice S.Word S.Mark L.Kept L.Place L.Call) × (g : Gathered) × (s : State)
            × (a : Alternative) × (below : List Alternative) × (c.mark ≡ newest.mark) × (c.rest ≡ newest.rest)
            × (c.left ≡ left.Gathering solutions g) × WentBack S.Store L.Lists self.old c s a below }
        ensures found { (c : kept.Choice S.Word S.Mark L.Kept L.Place L.Call) (g : Gathered) (s : State)
            (a : Alternative) (below : List Alternative) → c.mark ≡ newest.mark → c.rest ≡ newest.rest
            → c.left ≡ left.Gathering solutions g → WentBack S.Store L.Lists self.old c s a below
            → OnOk result (IsEngine S.Store L.Lists self.new
            (found (meaning (S.present self.old.store) solutions) (copies_of g) (went_back a below s))) }
        ensures kept { (c : kept.Choice S.Word S.Mark L.Kept L.Place L.Call) (g : Gathered) (s : State)
            (a : Alternative) (below : List Alternative) → c.mark ≡ newest.mark → c.rest ≡ newest.rest
            → c.left ≡ left.Gathering solutions g → WentBack S.Store L.Lists self.old c s a below
            → OnErr result (Remains S.Store L.Lists self.new
            (record (went_back a below s) { built = a.built + size (list_of (copies_of g)) })) }
        ensures awake { OnOk result (IsAwake (phase_of self.new.now)) }
        ensures full { result ≡ Err StoreFault.Full → S.full self.new.store }
        ensures steps { self.new.steps ≡ self.old.steps }
        ensures costs { OnOk result (cost L.Lists self.new < kept_cost L.Lists self.old) }
        ensures stays { Stays S.Store self.old self.new }
    {
        let gathered = self.take_gathered(newest.mark);
        if !unify_gathered(self.alloc, &mut self.store, solutions, gathered)? {
            self.now = Now::Failing;
            return Ok(());
        }
        self.now = self.coming(newest.rest);
        Ok(())
    }
}
