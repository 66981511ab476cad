//! The moves at bagof/3 and setof/3: their goal is run, and then the groups of what was gathered come one after another
//! (8.10.2, 8.10.3).
ghost use Rattle.std.specs.Prelude.{◌≡◌, ◌+◌, ◌<◌, ◌≤◌, IfOk, OnOk, OnErr, List, [], ◌∷◌, length, Err};
ghost use Rattle.iso_model.specs.Search.Bodies.{Body, converted};
ghost use Rattle.iso_model.specs.Search.Groups.{stripped, pair};
ghost use Rattle.iso_model.specs.Terms.Trees.{Tree};
ghost use Rattle.iso_model.specs.Search.RunLaws.Sameness.{IsTwice};
ghost use Rattle.iso_model.specs.Search.Replies.{Grouping, InGroups};
ghost use Rattle.iso_model.specs.Search.Walker as walker;
ghost use Rattle.iso_model.specs.Search.Walker.{State, Alternative, grouped, tried_group, with_groups, with_template};
ghost use Rattle.iso_store_core.specs.Presents.{meaning};
ghost use Rattle.iso_lib_core.specs.Groupings.{solutions_of};
ghost use Rattle.iso_search_core.specs.Asking.{goal_witness, goal_grouping};
ghost use Rattle.iso_search_core.specs.Cells.{conversion_cells};
ghost use Rattle.iso_search_core.specs.Fitting.{FitsState};
ghost use Rattle.iso_search_core.specs.GroupsLeft.{LeavesGroups};
ghost use Rattle.iso_search_core.specs.Replies.{CanBeRun};
ghost use Rattle.iso_search_core.specs.Standing.{grouping_of, groups_in};
ghost use Rattle.iso_search_core.specs.declared.choices.Choice as kept;
ghost use Rattle.iso_search.specs.Gathers.{template_of, solved_of};
ghost use Rattle.iso_search.specs.Groups.{AreGroups, gathering_groups};

use super::backtracking::Newest;
use super::search::{Move, Search};
use iso_lib::{Fault, Group, Meeting, Reply, meet_group};
use iso_search_core::asking::ask_groups;
use iso_search_core::choices::{Left, groups_left, keep_choice};
use iso_search_core::ends::End;
use iso_search_core::lists::Lists;
use iso_search_core::nows::Now;
use iso_search_core::pairs::Pairs;
use iso_store_core::{Store, StoreFault};
use std::alloc::AllocError;

impl<S: Store + Drop, L: Lists<S>> Search<S, L> {
    ghost use Rattle.iso_search.specs.Gathers.{EntersFindall};
    ghost use Rattle.iso_search.specs.Groups.{FindsGroups, MeetsGroups, MeetsLeft, KeepsRest, StoppedAt, met_groups};
    ghost use Rattle.iso_search.specs.EngineStates.{IsAhead, IsEngine, Keeps, WentBack, WasRefused, cost, cost_from, kept_cost, phase_of, went_back};
    ghost use Rattle.iso_search_core.specs.Bodies.{left_cost};
    ghost use Rattle.iso_search_core.specs.Costs.{now_cost, tried_cost};
    ghost use Rattle.iso_model.specs.Search.Engines.{IsAwake};
    ghost use Rattle.iso_search.specs.Stays.{Stays};
    ghost use Rattle.iso_search.specs.Moved.{FallsFrom};
    ghost use Rattle.iso_search.specs.Limits.{ResultMet, ResultFull};
    ghost use Rattle.iso_search_core.specs.declared.choices.Left.TheVariants as left;

    /// Runs what is left of the goal of this goal of bagof/3 or setof/3 behind each `V^`, which can be run, for all of
    /// its solutions, before the list from `rest` on; `sorts` is for setof/3. The errors: the store is full, or memory
    /// was refused; where no choice may be made any more the engine is spent.
    pub(crate) fn find_groups(
        &mut self,
        goal: S::Word,
        sorts: bool,
        rest: L::Place,
    ) -> Result<Move, StoreFault>
        requires enters { (s : State) × EntersFindall S.Store L.Lists self.old goal s rest }
        requires can { CanBeRun (stripped (solved_of (S.present self.old.store) goal)) }
        ensures called { (s : State) (b : Body) → EntersFindall S.Store L.Lists self.old goal s rest
            → converted (stripped (solved_of (S.present self.old.store) goal)) ≡ Some b
            → IfOk result (λ m. FindsGroups S.Store L.Lists m self.new
            (pair (goal_witness (meaning (S.present self.old.store) goal)) (template_of (S.present self.old.store) goal))
            (goal_grouping sorts (meaning (S.present self.old.store) goal)) b s) }
        ensures kept { (s : State) → EntersFindall S.Store L.Lists self.old goal s rest
            → OnErr result (WasRefused S.Store L.Lists self.new
            (with_template (InGroups (goal_grouping sorts (meaning (S.present self.old.store) goal))) s)
            (record (gathering_groups (goal_grouping sorts (meaning (S.present self.old.store) goal)) s) {
              built = (with_template (InGroups (goal_grouping sorts (meaning (S.present self.old.store) goal))) s).built
                  + conversion_cells (stripped (solved_of (S.present self.old.store) goal));
            })) }
        ensures falls { FallsFrom L.Lists self.old (cost_from L.Lists self.old rest + 1) result self.new }
        ensures frames { ResultFull (self.old.limit ≤ length self.old.choices.items) result }
        ensures met { ResultMet S.Store result self.new }
        ensures stays { Stays S.Store self.old self.new }
    {
        let height = self.choices.len();
        let asked = ask_groups(self.alloc, &mut self.store, goal, sorts)?;
        let left = Left::Grouping(asked.by, Pairs::new(self.alloc));
        if !self.push_choice(left, rest)? {
            return Ok(self.full_frames());
        }
        self.run_converted(
            asked.goal,
            height + 1,
            End::Gather(height, asked.template),
            rest,
        )?;
        Ok(Move::Goes)
    }

    /// Takes the newest choice away, which has this mark: what was left there.
    fn take_newest(&mut self, mark: S::Mark) -> Left<S::Word, L::Call>
        requires some { 0 < length self.old.choices.items }
        requires back { (c : kept.Choice S.Word S.Mark L.Kept L.Place L.Call) × (s : State) × (a : Alternative)
            × (below : List Alternative) × (c.mark ≡ mark) × WentBack S.Store L.Lists self.old c s a below }
        ensures left { (c : kept.Choice S.Word S.Mark L.Kept L.Place L.Call) (s : State) (a : Alternative)
            (below : List Alternative) → WentBack S.Store L.Lists self.old c s a below → result ≡ c.left }
        ensures ahead { (c : kept.Choice S.Word S.Mark L.Kept L.Place L.Call) (s : State) (a : Alternative)
            (below : List Alternative) → c.mark ≡ mark → WentBack S.Store L.Lists self.old c s a below
            → IsAhead S.Store L.Lists self.new (went_back a below s) c.rest }
        ensures costs { (c : kept.Choice S.Word S.Mark L.Kept L.Place L.Call) (s : State) (a : Alternative)
            (below : List Alternative) → WentBack S.Store L.Lists self.old c s a below
            → kept_cost L.Lists self.old ≡ kept_cost L.Lists self.new + tried_cost c.left (L.cost self.old.lists c.rest) }
        ensures present { S.present self.new.store ≡ S.present self.old.store }
        ensures same { self.new ≡ record self.old { store = self.new.store; choices = self.new.choices } }
        ensures fewer { length self.new.choices.items + 1 ≡ length self.old.choices.items }
        ensures stays { Stays S.Store self.old self.new }
    {
        let Some(choice) = self.choices.pop() else {
            unreachable!();
        };
        self.store.forget(mark);
        choice.left
    }

    /// Keeps the groups behind the first as a choice where there are any, in the place of one that was taken away
    /// (7.7.8). The error is that memory was refused.
    fn keep_groups(
        &mut self,
        by: Meeting<S::Word>,
        others: Vec<Group>,
        rest: L::Place,
    ) -> Result<(), AllocError>
        ensures meets { (s : State) → MeetsGroups S.Store L.Lists self.old by others.items s rest
            → OnOk result (IsAhead S.Store L.Lists self.new
            (with_groups (grouping_of (S.present self.old.store) by) (groups_in others.items) s.list s) rest) }
        ensures kept { (s t : State) → MeetsGroups S.Store L.Lists self.old by others.items s rest
            → (s.query ≡ t.query) → (s.built ≤ t.built) → OnErr result (StoppedAt S.Store L.Lists self.new s t) }
        ensures present { S.present self.new.store ≡ S.present self.old.store }
        ensures same { self.new ≡ record self.old { store = self.new.store; choices = self.new.choices } }
        ensures costs { OnOk result (kept_cost L.Lists self.new
            ≤ kept_cost L.Lists self.old + left_cost (length others.items) (L.cost self.old.lists rest)) }
        ensures rest { KeepsRest S.Store self.old self.new }
    {
        if others.is_empty() {
            return Ok(());
        }
        let kept = self.lists.kept();
        let left = Left::Groups(by, others);
        keep_choice(&mut self.store, &mut self.choices, kept, rest, left)
    }

    /// Meets the group: the witness is unified with each of its witnesses, and the result with the list of its items.
    /// Then it goes on with the list from `rest` on, or fails next. The errors: the store is full, or memory was
    /// refused, as it is for a group of more than 536,870,912 variables.
    fn try_group(
        &mut self,
        by: Meeting<S::Word>,
        group: Group,
        rest: L::Place,
    ) -> Result<(), StoreFault>
        requires meets { (s : State) × MeetsGroups S.Store L.Lists self.old by (group ∷ []) s rest }
        ensures tried { (s : State) → MeetsGroups S.Store L.Lists self.old by (group ∷ []) s rest
            → OnOk result (IsEngine S.Store L.Lists self.new
            (tried_group (grouping_of (S.present self.old.store) by) (solutions_of group) s.list s)) }
        ensures kept { (s : State) → MeetsGroups S.Store L.Lists self.old by (group ∷ []) s rest
            → OnErr result (StoppedAt S.Store L.Lists self.new s
            (tried_group (grouping_of (S.present self.old.store) by) (solutions_of group) s.list s)) }
        ensures awake { OnOk result (IsAwake (phase_of self.new.now)) }
        ensures full { result ≡ Err StoreFault.Full → S.full self.new.store }
        ensures same { self.new ≡ record self.old { store = self.new.store; now = self.new.now } }
        ensures cost { OnOk result (now_cost (L.first_cost self.old.lists) self.new.now ≤ L.cost self.old.lists rest) }
        ensures stays { Stays S.Store self.old self.new }
    {
        match meet_group(self.alloc, &mut self.store, by, group) {
            Ok(Reply::Done) => self.now = self.coming(rest),
            Ok(Reply::Fail) => self.now = Now::Failing,
            Err(Fault::Full) => return Err(StoreFault::Full),
            Err(Fault::NoMemory) => return Err(StoreFault::NoMemory),
            Err(Fault::Raise(_)) => unreachable!(),
        }
        Ok(())
    }

    /// Meets the first of the groups, which is the last one here, before the list from `rest` on; those behind it are
    /// one choice, in the place of one that was taken away. It fails next where there is none. The errors: the store
    /// is full, or memory was refused.
    fn meet_first(
        &mut self,
        by: Meeting<S::Word>,
        mut groups: Vec<Group>,
        rest: L::Place,
    ) -> Result<(), StoreFault>
        requires meets { (s : State) × MeetsGroups S.Store L.Lists self.old by groups.items s rest }
        ensures met { (s : State) → MeetsGroups S.Store L.Lists self.old by groups.items s rest
            → OnOk result (IsEngine S.Store L.Lists self.new (met_groups S.Store L.Lists self.old by groups.items s)) }
        ensures kept { (s : State) → MeetsGroups S.Store L.Lists self.old by groups.items s rest
            → OnErr result (StoppedAt S.Store L.Lists self.new s
            (met_groups S.Store L.Lists self.old by groups.items s)) }
        ensures awake { OnOk result (IsAwake (phase_of self.new.now)) }
        ensures full { result ≡ Err StoreFault.Full → S.full self.new.store }
        ensures steps { self.new.steps ≡ self.old.steps }
        ensures none { OnOk result (length groups.items ≡ 0 → cost L.Lists self.new ≤ kept_cost L.Lists self.old) }
        ensures some { OnOk result (0 < length groups.items → cost L.Lists self.new
            < kept_cost L.Lists self.old + left_cost (length groups.items) (L.cost self.old.lists rest)) }
        ensures rest { KeepsRest S.Store self.old self.new }
    {
        let Some(first) = groups.pop() else {
            self.now = Now::Failing;
            return Ok(());
        };
        self.keep_groups(by, groups, rest)?;
        self.try_group(by, first, rest)
    }

    /// Meets the first of the groups that this leaves, before the list from `rest` on. The errors: the store is full,
    /// or memory was refused.
    fn meet_left(&mut self, left: Left<S::Word, L::Call>, rest: L::Place) -> Result<(), StoreFault>
        requires meets { (s : State) × (x : walker.Left) × MeetsLeft S.Store L.Lists self.old left s x rest }
        requires leaves { LeavesGroups left }
        ensures met { (s : State) (x : walker.Left) (by : Grouping) (gs : List (List Tree))
            → MeetsLeft S.Store L.Lists self.old left s x rest → AreGroups x by gs
            → OnOk result (IsEngine S.Store L.Lists self.new (grouped by gs s.list s)) }
        ensures kept { (s : State) (x : walker.Left) (by : Grouping) (gs : List (List Tree))
            → MeetsLeft S.Store L.Lists self.old left s x rest → AreGroups x by gs
            → OnErr result (StoppedAt S.Store L.Lists self.new s (grouped by gs s.list s)) }
        ensures awake { OnOk result (IsAwake (phase_of self.new.now)) }
        ensures full { result ≡ Err StoreFault.Full → S.full self.new.store }
        ensures steps { self.new.steps ≡ self.old.steps }
        ensures costs { OnOk result (cost L.Lists self.new
            < kept_cost L.Lists self.old + tried_cost left (L.cost self.old.lists rest)) }
        ensures rest { KeepsRest S.Store self.old self.new }
    {
        let (by, groups) = groups_left(self.alloc, left)?;
        self.meet_first(by, groups, rest)
    }

    /// Meets the first of the groups that are left at the newest choice, those of what it has gathered where it
    /// gathered; then it goes on with the list of the choice, or fails next. The errors: the store is full, or memory
    /// was refused; then no choice is left.
    pub(crate) fn try_groups(&mut self, newest: Newest<S::Mark, L::Place>) -> Result<(), StoreFault>
        requires some { 0 < length self.old.choices.items }
        requires back { (c : kept.Choice S.Word S.Mark L.Kept L.Place L.Call) × (s : State) × (a : Alternative)
            × (below : List Alternative) × (c.mark ≡ newest.mark) × (c.rest ≡ newest.rest) × LeavesGroups c.left
            × WentBack S.Store L.Lists self.old c s a below × IsTwice a.subst }
        ensures tried { (c : kept.Choice S.Word S.Mark L.Kept L.Place L.Call) (s : State) (a : Alternative)
            (below : List Alternative) (by : Grouping) (gs : List (List Tree)) → c.mark ≡ newest.mark
            → c.rest ≡ newest.rest → LeavesGroups c.left → WentBack S.Store L.Lists self.old c s a below
            → IsTwice a.subst → AreGroups a.left by gs → OnOk result
            (IsEngine S.Store L.Lists self.new (grouped by gs a.list (went_back a below s))) }
        ensures kept { (c : kept.Choice S.Word S.Mark L.Kept L.Place L.Call) (s : State) (a : Alternative)
            (below : List Alternative) (by : Grouping) (gs : List (List Tree)) → c.mark ≡ newest.mark
            → c.rest ≡ newest.rest → LeavesGroups c.left → WentBack S.Store L.Lists self.old c s a below
            → IsTwice a.subst → AreGroups a.left by gs → OnErr result (Keeps S.Store L.Lists self.new s.world []
            × FitsState S.Store (S.present self.new.store) 0 (grouped by gs a.list (went_back a below s))) }
        ensures awake { OnOk result (IsAwake (phase_of self.new.now)) }
        ensures full { result ≡ Err StoreFault.Full → S.full self.new.store }
        ensures steps { self.new.steps ≡ self.old.steps }
        ensures costs { OnOk result (cost L.Lists self.new < kept_cost L.Lists self.old) }
        ensures stays { Stays S.Store self.old self.new }
    {
        let left = self.take_newest(newest.mark);
        if let Err(fault) = self.meet_left(left, newest.rest) {
            self.choices.clear();
            return Err(fault);
        }
        Ok(())
    }
}
