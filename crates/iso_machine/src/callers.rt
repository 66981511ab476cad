//! How the machine calls what comes first of a list, where it is a goal (7.7.7).
ghost use Rattle.std.specs.Prelude.{◌≡◌, ◌<◌, None, Ok, Err, IfOk, OnErr, Option, MatchBool, length};
ghost use Rattle.iso_model.specs.Search.Walker.{State};
ghost use Rattle.iso_search_core.specs.declared.nows.Now.TheVariants as now;
ghost use Rattle.iso_frames.specs.declared.frames.Next.TheVariants as next;
ghost use Rattle.iso_environments.specs.Leveled.{IsAtClause};
ghost use Rattle.iso_environments.specs.Putting.{IsCallThere};
ghost use Rattle.iso_search.specs.EngineStates.{Represents, Refused, weight};
ghost use Rattle.iso_machine.specs.Came.{Came};
ghost use Rattle.iso_machine.specs.Engines.{framed};
ghost use Rattle.iso_machine.specs.Steps.{IsOtherThere};

use super::arithmetic::compute;
use super::control::cut_back;
use super::framed::Framed;
use super::goal_places::{Act, act_there};
use super::goals::{call_goal, call_word};
use iso_cells::Cells;
use iso_frames::{Frame, Link, Next as First, Rest, Work};
use iso_instructions::Instruction;
use iso_plain_core::bodies::Node;
use iso_plain_core::members::Todo;
use iso_search::calls::{Next, NextGoal};
use iso_search::search::Search;
use iso_store_core::{Store, StoreFault};

/// Calls the goal of the instruction there; or does its cut, or its arithmetic where a step is left. Any other is left
/// as it is. The errors: the store is full, or memory was refused.
fn call_code<S: Cells + Drop>(
    search: &mut Search<S, Framed<S>>,
    rest: Rest,
    asked: &mut Option<NextGoal<S::Word, Option<Rest>>>,
) -> Result<Next, StoreFault>
    requires now { search.old.now ≡ now.Running (next.Code rest) }
    requires stands { (s : State) × Represents S.Store (framed S.atom_word) search.old s }
    ensures { Came S.Store S.atom_word search.old result asked.new search.new }
{
    match act_there(search.lists.frames.as_slice(), rest) {
        Act::Calls => call_goal(search, rest, asked),
        Act::Computes if search.steps != 0 => {
            compute(search, rest)?;
            Ok(Next::Went)
        }
        Act::Cuts(mark) => {
            cut_back(search, rest, mark);
            Ok(Next::Went)
        }
        _ => {
            *asked = None;
            Ok(Next::Other)
        }
    }
}

/// Calls the goal that the member is; one that is none is left as it is. The errors: the store is full, or memory was
/// refused.
fn call_member<S: Cells + Drop>(
    search: &mut Search<S, Framed<S>>,
    link: Link,
    asked: &mut Option<NextGoal<S::Word, Option<Rest>>>,
) -> Result<Next, StoreFault>
    requires now { search.old.now ≡ now.Running (next.Member link) }
    requires stands { (s : State) × Represents S.Store (framed S.atom_word) search.old s }
    ensures { Came S.Store S.atom_word search.old result asked.new search.new }
{
    *asked = None;
    let Todo::Body(place) = link.todo else {
        return Ok(Next::Other);
    };
    let Node::Run(goal) = search.lists.nodes[place] else {
        return Ok(Next::Other);
    };
    call_word(search, goal, link.behind, asked)
}

/// Calls the procedure of the goal that comes first, where it is one with clauses and a step is left; anything else is
/// left as it is. The errors: the store is full, or memory was refused.
pub(crate) fn call_first<S: Cells + Drop>(
    search: &mut Search<S, Framed<S>>,
    first: First<S::Word>,
    asked: &mut Option<NextGoal<S::Word, Option<Rest>>>,
) -> Result<Next, StoreFault>
    requires now { search.old.now ≡ now.Running first }
    requires stands { (s : State) × Represents S.Store (framed S.atom_word) search.old s }
    ensures { Came S.Store S.atom_word search.old result asked.new search.new }
{
    match first {
        First::Member(link) => call_member(search, link, asked),
        First::Goal(goal, behind) => call_word(search, goal, behind, asked),
        First::Code(rest) => call_code(search, rest, asked),
    }
}
