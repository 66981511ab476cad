//! The engine's move at a goal that is no call of a procedure with clauses: it takes a step of the budget (7.7.4 to
//! 7.7.7).
ghost use Rattle.std.specs.Prelude.{◌≡◌, ◌≢◌, ◌-◌};
ghost use Rattle.iso_model.specs.Search.Walker.{State};
ghost use Rattle.iso_search.specs.Limits.{ComesFull};
ghost use Rattle.iso_store_core.specs.Presents.{meaning};
ghost use Rattle.iso_search_core.specs.GoalKinds.{IsBuiltIn};

use super::calls::{Called, NextGoal};
use super::search::{Move, Search};
use iso_model::{BuiltIn, Pause};
use iso_search_core::goals::read_arguments;
use iso_search_core::lists::Lists;
use iso_search_core::nows::Now;
use iso_search_core::replies::{self, Replied};
use iso_store_core::{Store, StoreFault};

impl<S: Store + Drop, L: Lists<S>> Search<S, L> {
    ghost use Rattle.iso_search.specs.Nexts.{IsGoalFirst, IsGoalNext};
    ghost use Rattle.iso_search.specs.EngineStates.{Represents};
    ghost use Rattle.iso_search.specs.Moved.{Moved};
    ghost use Rattle.iso_search.specs.Replying.{HasReplied};
    ghost use Rattle.iso_search.specs.declared.search.Move.TheVariants.{Goes};
    ghost use Rattle.iso_search.specs.declared.search.Search as engines;
    ghost use Rattle.iso_search_core.specs.declared.nows.Now.TheVariants as now;

    /// Takes the step of a goal that fails (7.8.2).
    fn goal_fails(&mut self) -> Move
        requires { self.old.steps ≢ 0 }
        ensures goes { result ≡ Goes }
        ensures fails { self.new ≡ record self.old { steps = self.old.steps - 1; now = now.Failing } }
    {
        self.steps -= 1;
        self.now = Now::Failing;
        Move::Goes
    }

    /// Runs the goal that is next, which is no call of a procedure with clauses, unless no step is left. The errors:
    /// the store is full, or memory was refused.
    pub(crate) fn run_goal(&mut self, next: NextGoal<S::Word, L::Place>) -> Result<Move, StoreFault>
        requires next { IsGoalNext S.Store L.Lists self.old next }
        requires stands { (s : State) × Represents S.Store L.Lists self.old s }
        ensures { Moved S.Store L.Lists (ComesFull self.old.limit) self.old result self.new }
    {
        if self.steps == 0 {
            self.clear();
            return Ok(Move::Pauses(Pause::Budget));
        }
        let goal = next.goal;
        match next.called {
            Called::BuiltIn(built_in) => self.run_built_in(built_in, goal, next.rest),
            Called::User(_) => unreachable!(),
            Called::Fails => Ok(self.goal_fails()),
            Called::Unknown => {
                let ball = self.unknown_procedure(goal)?;
                self.steps -= 1;
                self.throw(ball, next.rest);
                Ok(Move::Goes)
            }
        }
    }

    /// Runs the goal that comes first, which is one of this built-in: reads its arguments first, but for `fail/0`, at
    /// which most loops turn round. The errors: the store is full, or memory was refused.
    fn run_built_in(
        &mut self,
        built_in: BuiltIn,
        goal: S::Word,
        rest: L::Place,
    ) -> Result<Move, StoreFault>
        requires first { IsGoalFirst S.Store L.Lists self.old goal rest }
        requires steps { self.old.steps ≢ 0 }
        requires built_in { IsBuiltIn (meaning (S.present self.old.store) goal) built_in }
        requires stands { (s : State) × Represents S.Store L.Lists self.old s }
        ensures { Moved S.Store L.Lists (ComesFull self.old.limit) self.old result self.new }
    {
        if let BuiltIn::Fail = built_in {
            return Ok(self.goal_fails());
        }
        read_arguments(&self.store, goal, &mut self.words)?;
        let arguments = self.words.as_slice();
        let replied = replies::reply(
            self.alloc,
            &mut self.store,
            &self.vocabulary,
            &mut self.lists,
            built_in,
            arguments,
        )?;
        self.steps -= 1;
        self.go_on_from(replied, goal, rest)
    }

    /// Goes on from the reply to a goal, before the list from `rest` on. The errors: the store is full, or memory was
    /// refused.
    fn go_on_from(
        &mut self,
        replied: Replied<L::Body>,
        goal: S::Word,
        rest: L::Place,
    ) -> Result<Move, StoreFault>
        requires { (e : engines.Search S L S.Word S.Mark L.Kept L.Place L.Call L.Next L.Body L.Own) × (b : BuiltIn)
            × HasReplied S.Store L.Lists e self.old goal rest b replied × ((s : State) × Represents S.Store L.Lists e s) }
        ensures { (e : engines.Search S L S.Word S.Mark L.Kept L.Place L.Call L.Next L.Body L.Own) (b : BuiltIn)
            (s : State) → HasReplied S.Store L.Lists e self.old goal rest b replied
            → Represents S.Store L.Lists e s → Moved S.Store L.Lists (ComesFull e.limit) e result self.new }
    {
        match replied {
            Replied::GoesOn => {
                self.now = self.coming(rest);
                Ok(Move::Goes)
            }
            Replied::Fails => {
                self.now = Now::Failing;
                Ok(Move::Goes)
            }
            Replied::Raises(ball) => {
                self.throw(ball, rest);
                Ok(Move::Goes)
            }
            Replied::Calls(body) => self.call_body(body, rest),
            Replied::CallsOnce(body) => self.call_once(body, rest),
            Replied::Refutes(body) => self.refute(body, rest),
            Replied::Repeats => self.repeat(rest),
            Replied::Catches => self.call_inside(goal, rest),
            Replied::RaisesInside(ball) => self.throw_inside(ball, goal, rest),
            Replied::Gathers => self.find_all(goal, rest),
            Replied::Groups(sorts) => self.find_groups(goal, sorts, rest),
            Replied::AsksSettings(row) => self.setting_goal(row, goal, rest),
            Replied::AsksDatabase(row) => self.database_goal(row, goal, rest),
            Replied::TakesApart(row) => self.part_goal(row, goal, rest),
            Replied::Writes(row) => self.write_goal(row, goal, rest),
            Replied::Halts(status) => {
                self.clear();
                Ok(Move::Pauses(Pause::Halt(status)))
            }
        }
    }
}
