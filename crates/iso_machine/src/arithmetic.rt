//! Arithmetic in line: evaluation and comparisons, in the code of a clause (8.6, 8.7).
ghost use Rattle.std.specs.Prelude.{◌≡◌, ◌≢◌, ◌<◌, IfOk, List, Some, true};
ghost use Rattle.iso_model.specs.Search.Walker.{State, Member};
ghost use Rattle.iso_search_core.specs.declared.nows.Now.TheVariants as now;
ghost use Rattle.iso_frames.specs.declared.frames.Next.TheVariants as next;
ghost use Rattle.iso_environments.specs.Answering.{IsArithmeticThere};
ghost use Rattle.iso_search.specs.EngineStates.{Represents};
ghost use Rattle.iso_search.specs.Moved.{Moved};
ghost use Rattle.iso_machine.specs.Arithmetic.{HasComputed, HasGone, StopsThere};
ghost use Rattle.iso_machine.specs.Came.{CameTo, went_on};
ghost use Rattle.iso_machine.specs.Engines.{framed};
ghost use Rattle.iso_machine.specs.Firsts.{GoesOn};
ghost use Rattle.iso_machine.specs.Lists.{IsList, extent_of};
ghost use Rattle.iso_machine.specs.Unpushed.{Choices, HasOneMore, with_choices};

use super::framed::Framed;
use iso_cells::Cells;
use iso_environments::answer;
use iso_frames::{Frame, Next, Rest, Work};
use iso_instructions::Instruction;
use iso_lib_core::{Fault, Reply};
use iso_model::Pause;
use iso_search::search::{Move, Search};
use iso_search_core::nows::Now;
use iso_store_core::StoreFault;

/// Does the arithmetic of the instruction there: its goal takes a step, unless none is left (8.6.1, 8.7.1). The errors:
/// the store is full, or memory was refused.
pub(crate) fn run_arithmetic<S: Cells + Drop>(
    search: &mut Search<S, Framed<S>>,
    rest: Rest,
) -> Result<Move, StoreFault>
    requires now { search.old.now ≡ now.Running (next.Code rest) }
    requires there { IsArithmeticThere search.old.lists.frames.items rest }
    requires stands { (s : State) × Represents S.Store (framed S.atom_word) search.old s }
    ensures { Moved S.Store (framed S.atom_word) (λ s. ⊥) search.old result search.new }
{
    if search.steps == 0 {
        search.clear();
        return Ok(Move::Pauses(Pause::Budget));
    }
    compute(search, rest)?;
    Ok(Move::Goes)
}

/// Does the arithmetic of the instruction there, where a step is left: its goal takes it, and succeeds, fails, or throws
/// a ball (8.6.1, 8.7.1). It is no matter whether one choice more stands. The errors: the store is full, or memory was
/// refused.
pub(crate) fn compute<S: Cells + Drop>(
    search: &mut Search<S, Framed<S>>,
    rest: Rest,
) -> Result<(), StoreFault>
    requires now { search.old.now ≡ now.Running (next.Code rest) }
    requires there { IsArithmeticThere search.old.lists.frames.items rest }
    requires more { search.old.steps ≢ 0 }
    requires stands { (choices : Choices S.Word S.Mark) × (s : State)
        × Represents S.Store (framed S.atom_word) (with_choices search.old choices) s }
    ensures came { (s : State) → Represents S.Store (framed S.atom_word) search.old s
        → CameTo S.Store S.atom_word search.old (went_on result) search.new }
    ensures over { (choices : Choices S.Word S.Mark) (s : State) → HasOneMore search.old choices
        → Represents S.Store (framed S.atom_word) (with_choices search.old choices) s
        → CameTo S.Store S.atom_word (with_choices search.old choices) (went_on result)
        (with_choices search.new choices) }
    ensures same { search.new.choices ≡ search.old.choices }
    ensures arguments { search.new.lists.arguments ≡ search.old.lists.arguments }
    ensures words { search.new.lists.words ≡ search.old.lists.words }
    ensures steps { IfOk result (λ done. search.new.steps < search.old.steps) }
{
    let answered = answer(
        search.alloc,
        &mut search.store,
        &search.vocabulary.evaluables,
        search.lists.frames.as_slice(),
        search.lists.words.as_slice(),
        rest,
        &mut search.lists.values,
    );
    search.steps -= 1;
    go_on_from(search, answered, rest)
}

/// Whether the frame has an instruction there that does something: none that jumps, or that ends the clause.
#[inline(always)]
fn stops_there(frame: &Frame, address: usize) -> bool
    requires { GoesOn frame.now.work address }
    ensures { result ≡ true → StopsThere frame.now.work address }
{
    let Work::Clause(code, _) = &frame.work else {
        return false;
    };
    match &code.body[address] {
        Instruction::Proceed | Instruction::Jump(_) => false,
        _ => true,
    }
}

/// Goes on at the list from this place on, past jumps and frames whose clauses end.
#[inline(never)]
fn go_far<S: Cells + Drop>(search: &mut Search<S, Framed<S>>, place: Rest)
    requires { (ms : List Member) × IsList S.atom_word (S.present search.old.store) search.old.lists
        (extent_of search.old.lists) (Some place) ms }
    ensures { HasGone S.Store S.atom_word search.old place search.new }
{
    search.now = search.coming(Some(place));
}

/// Goes on at the list from this place on.
#[inline(always)]
fn go_behind<S: Cells + Drop>(search: &mut Search<S, Framed<S>>, place: Rest)
    requires { (ms : List Member) × IsList S.atom_word (S.present search.old.store) search.old.lists
        (extent_of search.old.lists) (Some place) ms }
    ensures { HasGone S.Store S.atom_word search.old place search.new }
{
    if stops_there(&search.lists.frames[place.frame], place.address) {
        search.now = Now::Running(Next::Code(place));
    } else {
        go_far(search, place);
    }
}

/// Goes on from what the arithmetic there came to: at the address below it, to failure, or to the ball that is thrown.
/// The errors are those of the answer: the store is full, or memory was refused.
fn go_on_from<S: Cells + Drop>(
    search: &mut Search<S, Framed<S>>,
    answered: Result<Reply, Fault>,
    rest: Rest,
) -> Result<(), StoreFault>
    requires { (choices : Choices S.Word S.Mark) × (e : _)
        × HasComputed S.Store S.atom_word e (with_choices search.old choices) rest answered
        × ((s : State) × Represents S.Store (framed S.atom_word) e s) }
    ensures over { (choices : Choices S.Word S.Mark) (e : _) (s : State) → HasOneMore search.old choices
        → HasComputed S.Store S.atom_word e (with_choices search.old choices) rest answered
        → Represents S.Store (framed S.atom_word) e s
        → CameTo S.Store S.atom_word e (went_on result) (with_choices search.new choices) }
    ensures same { search.new.choices ≡ search.old.choices }
    ensures lists { search.new.lists ≡ search.old.lists }
    ensures came { (e : _) (s : State) → HasComputed S.Store S.atom_word e search.old rest answered
        → Represents S.Store (framed S.atom_word) e s
        → CameTo S.Store S.atom_word e (went_on result) search.new }
    ensures steps { IfOk result (λ done. search.new.steps ≡ search.old.steps) }
{
    let behind = Rest {
        frame: rest.frame,
        address: rest.address - 1,
    };
    match answered {
        Ok(Reply::Done) => {
            go_behind(search, behind);
            Ok(())
        }
        Ok(Reply::Fail) => {
            search.now = Now::Failing;
            Ok(())
        }
        Err(fault) => {
            search.behind_fault(fault, Some(behind))?;
            Ok(())
        }
    }
}
