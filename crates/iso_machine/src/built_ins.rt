//! Goals that are done where they are called, by the arguments that were put, with no word for the goal: those that
//! fail as they are, and those of built-ins that run no other goal (8.2 to 8.7).
ghost use Rattle.std.specs.Prelude.{◌≡◌, ◌≢◌, ◌-◌, ℕ};
ghost use Rattle.iso_model.specs.Search.Walker.{State};
ghost use Rattle.iso_model.specs.declared.built_ins.BuiltIn.TheVariants as built_in;
ghost use Rattle.iso_search_core.specs.GoalKinds.{IsBuiltIn};
ghost use Rattle.iso_search_core.specs.declared.nows.Now.TheVariants as now;
ghost use Rattle.iso_search.specs.EngineStates.{Represents};
ghost use Rattle.iso_machine.specs.BuiltIns.{HasRun};
ghost use Rattle.iso_machine.specs.Came.{CameTo, went_on};
ghost use Rattle.iso_machine.specs.Engines.{Engine, framed};
ghost use Rattle.iso_machine.specs.GoalCalls.{IsCallPut, goal_put};

use super::coming::go_on;
use super::framed::Framed;
use iso_cells::Cells;
use iso_environments::Put;
use iso_frames::Rest;
use iso_lib::builtin;
use iso_lib_core::{Fault, Reply};
use iso_model::Library;
use iso_search::search::Search;
use iso_search_core::nows::Now;
use iso_store_core::StoreFault;

/// Takes the step of a goal that fails.
pub(crate) fn goal_fails<S: Cells + Drop>(search: &mut Search<S, Framed<S>>)
    requires { search.old.steps ≢ 0 }
    ensures { search.new ≡ record search.old { steps = search.old.steps - 1; now = now.Failing } }
{
    search.steps -= 1;
    search.now = Now::Failing;
}

/// Goes on from what a goal came to, before the list from the place on: there, to failure, or to the ball that is
/// thrown. The errors are those of the answer: the store is full, or memory was refused.
fn go_on_from<S: Cells + Drop>(
    search: &mut Search<S, Framed<S>>,
    answered: Result<Reply, Fault>,
    behind: Option<Rest>,
) -> Result<(), StoreFault>
    requires { (old : Engine S S.Word S.Mark) × (e : Engine S S.Word S.Mark) × (name : ℕ) × (room : ℕ)
        × HasRun S.Store S.atom_word old e search.old name behind room answered
        × ((s : State) × Represents S.Store (framed S.atom_word) old s) }
    ensures { (old : Engine S S.Word S.Mark) (e : Engine S S.Word S.Mark) (name : ℕ) (room : ℕ)
        → HasRun S.Store S.atom_word old e search.old name behind room answered
        → CameTo S.Store S.atom_word old (went_on result) search.new }
{
    match answered {
        Ok(Reply::Done) => {
            go_on(&mut search.now, &search.lists, behind);
            Ok(())
        }
        Ok(Reply::Fail) => {
            search.now = Now::Failing;
            Ok(())
        }
        Err(fault) => {
            search.behind_fault(fault, behind)?;
            Ok(())
        }
    }
}

/// Runs the goal whose arguments were put, which is one of this built-in: it takes a step, and succeeds, fails, or throws
/// a ball. The errors: the store is full, or memory was refused.
pub(crate) fn run_library<S: Cells + Drop>(
    search: &mut Search<S, Framed<S>>,
    row: Library,
    put: Put,
) -> Result<(), StoreFault>
    requires more { search.old.steps ≢ 0 }
    requires row { IsBuiltIn (goal_put S.Store S.atom_word search.old put.name) (built_in.Library row) }
    requires put { (old : Engine S S.Word S.Mark) × (room : ℕ)
        × IsCallPut S.Store S.atom_word old search.old put.name put.behind room
        × ((s : State) × Represents S.Store (framed S.atom_word) old s) }
    ensures { (old : Engine S S.Word S.Mark) (room : ℕ)
        → IsCallPut S.Store S.atom_word old search.old put.name put.behind room
        → CameTo S.Store S.atom_word old (went_on result) search.new }
{
    let answered = builtin(
        search.alloc,
        &mut search.store,
        &search.vocabulary.evaluables,
        row,
        search.lists.arguments.as_slice(),
    );
    search.steps -= 1;
    go_on_from(search, answered, put.behind)
}
