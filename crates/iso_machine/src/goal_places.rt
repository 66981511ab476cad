//! Where the goal stands that is called next: at an instruction of a frame, or in a clause that has no frame.
ghost use Rattle.std.specs.Prelude.{◌≡◌, ◌<◌, ℕ, Err, IfOk, OnErr, Option, Some, Vec, length};
ghost use Rattle.std.specs.Global.{Global};
ghost use Rattle.std.specs.List.{slice_get};
ghost use Rattle.iso_model.specs.Search.Walker.{State};
ghost use Rattle.iso_instructions.specs.declared.instructions.Goal as instruction;
ghost use Rattle.iso_instructions.specs.declared.instructions.Instruction.TheVariants as instructions;
ghost use Rattle.iso_environments.specs.Leveled.{IsAtClause};
ghost use Rattle.iso_environments.specs.Putting.{GoesBehind, IsCalledAt};
ghost use Rattle.iso_frames.specs.Costs.{compound_cells};
ghost use Rattle.iso_frames.specs.declared.frames.Rest as frame;
ghost use Rattle.iso_frames.specs.declared.frames.Frame as frames;
ghost use Rattle.iso_search.specs.EngineStates.{Represents, Refused};
ghost use Rattle.iso_search.specs.Stays.{Stays};
ghost use Rattle.iso_machine.specs.Engines.{framed};
ghost use Rattle.iso_machine.specs.GoalCalls.{IsCallPut};
ghost use Rattle.iso_machine.specs.GoalPlaces.{IsCodeAt, IsGoalAt, IsReadable};
ghost use Rattle.iso_machine.specs.LastCalls.{with_frame};
ghost use Rattle.iso_machine.specs.Steps.{ActsThere};

use super::framed::Framed;
use iso_cells::Cells;
use iso_compile::Mark;
use iso_db::{ClauseId, Db};
use iso_environments::{Put, put_words};
use iso_frames::{Frame, Rest, Work};
use iso_instructions::{Code, Goal, Instruction};
use iso_program::clauses::Clause;
use iso_search::search::Search;
use iso_search_core::own::OwnOf;
use iso_store_core::{Store, StoreFault};

/// Where the goal stands that is called next.
#[derive(Clone, Copy)]
pub(crate) enum GoalPlace {
    /// The instruction there calls it.
    There(Rest),
    /// It is the one goal of this clause, which was entered before the list from the place on and has no frame: its
    /// environment is the last of the words.
    Last(ClauseId, Option<Rest>),
}

/// What the instruction does that comes first.
#[derive(Clone, Copy)]
pub(crate) enum Act {
    /// It calls a goal.
    Calls,
    /// It does arithmetic.
    Computes,
    /// It cuts back to this mark.
    Cuts(Mark),
    /// It does something else: it keeps a level, or an alternative.
    Other,
}

/// What the instruction there does.
#[inline(always)]
pub(crate) fn act_there(frames: &[Frame], rest: Rest) -> Act
    requires { (f : _) × (code : _) × (level : Option _) × IsAtClause frames.now rest f code level
        × (rest.address < length code.value.body.items) }
    ensures { ActsThere frames.now rest result }
{
    let frame = &frames[rest.frame];
    let Work::Clause(code, _) = &frame.work else {
        unreachable!();
    };
    match &code.body[rest.address] {
        Instruction::Call(_) => Act::Calls,
        Instruction::Execute(_) => Act::Calls,
        Instruction::Is(_, _) => Act::Computes,
        Instruction::Compare(_, _) => Act::Computes,
        Instruction::Cut(mark) => Act::Cuts(*mark),
        _ => Act::Other,
    }
}

/// Code that calls a goal.
#[derive(Clone, Copy)]
struct GoalCode<'a> {
    /// The code of the goal's clause.
    code: &'a Code,
    /// Where it goes on.
    rest: Rest,
    /// How many words stand for the clause, and for all behind it.
    top: usize,
    /// Where the list behind the clause begins.
    behind: Option<Rest>,
}

/// The code that calls the goal at this place, where so many words stand.
#[inline(always)]
fn code_at<'a, S: Cells + Drop>(
    frames: &'a [Frame],
    words: usize,
    db: &'a Db<Clause<OwnOf<S, Framed<S>>>>,
    place: GoalPlace,
) -> GoalCode<'a>
    requires { IsReadable frames.now db.now place }
    ensures { IsCodeAt frames.now words db.now place result.code.now result.rest result.top result.behind }
{
    match place {
        GoalPlace::There(rest) => {
            let frame = &frames[rest.frame];
            let Work::Clause(code, _) = &frame.work else {
                unreachable!();
            };
            GoalCode {
                code: code.as_ref(),
                rest,
                top: frame.top,
                behind: frame.behind,
            }
        }
        GoalPlace::Last(clause, behind) => GoalCode {
            code: db.clause(clause).own.kept.as_ref(),
            rest: Rest {
                frame: frames.len(),
                address: 1,
            },
            top: words,
            behind,
        },
    }
}

/// The goal that the instruction at this place of the code calls, and where the list behind it begins, which is this
/// place behind the clause.
#[inline(always)]
fn called_at(code: &Code, rest: Rest, behind: Option<Rest>) -> (&Goal, Option<Rest>)
    requires goal { (g : instruction.Goal) × IsCalledAt code.now.body.items rest.address g }
    requires address { (g : instruction.Goal)
        → slice_get code.now.body.items rest.address ≡ Some (instructions.Call g) → 0 < rest.address }
    ensures { GoesBehind code.now.body.items rest behind result.0.now result.1 }
{
    match &code.body[rest.address] {
        Instruction::Call(goal) => (
            goal,
            Some(Rest {
                frame: rest.frame,
                address: rest.address - 1,
            }),
        ),
        Instruction::Execute(goal) => (goal, behind),
        _ => unreachable!(),
    }
}

/// Puts the arguments of the goal at this place, which comes first. The errors: the store is full, or memory was
/// refused.
pub(crate) fn put_next<S: Cells + Drop>(
    search: &mut Search<S, Framed<S>>,
    place: GoalPlace,
) -> Result<Put, StoreFault>
    requires { (fs : Vec frames.Frame Global) × (r : frame.Rest) × (s : State) × IsGoalAt search.old place fs r
        × Represents S.Store (framed S.atom_word) (with_frame search.old fs r) s }
    ensures put { (fs : Vec frames.Frame Global) (r : frame.Rest) (s : State) → IsGoalAt search.old place fs r
        → Represents S.Store (framed S.atom_word) (with_frame search.old fs r) s
        → IfOk result (λ put. IsCallPut S.Store S.atom_word (with_frame search.old fs r) search.new put.name put.behind
        (compound_cells (length search.new.lists.arguments.items))) }
    ensures stopped { (fs : Vec frames.Frame Global) (r : frame.Rest) (s : State) → IsGoalAt search.old place fs r
        → Represents S.Store (framed S.atom_word) (with_frame search.old fs r) s
        → OnErr result (Refused S.Store (framed S.atom_word) search.new s) }
    ensures full { result ≡ Err StoreFault.Full → S.full search.new.store }
    ensures stays { Stays S.Store search.old search.new }
{
    let lists = &mut search.lists;
    let at = code_at(
        lists.frames.as_slice(),
        lists.words.len(),
        &search.db,
        place,
    );
    let (goal, behind) = called_at(at.code, at.rest, at.behind);
    let environment = &lists.words.as_slice()[at.top - at.code.variables..at.top];
    put_words(
        &mut search.store,
        &goal.arguments,
        environment,
        &mut lists.compounds,
        &mut lists.arguments,
        &mut lists.made,
    )?;
    Ok(Put {
        name: goal.name,
        behind,
    })
}
