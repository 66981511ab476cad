//! Instructions that call no goal: cuts, and alternatives within a clause (7.8.4 to 7.8.8).
ghost use Rattle.std.specs.Prelude.{◌≡◌, ◌<◌, ◌-◌, ◌+◌, ℕ, Option, Some, Ok, MatchOption, length, true};
ghost use Rattle.iso_model.specs.Search.RunLaws.Spans.{ComesBeyond};
ghost use Rattle.iso_model.specs.Search.Walker.{State};
ghost use Rattle.iso_compile.specs.Control.{height};
ghost use Rattle.iso_instructions.specs.declared.instructions.Instruction.TheVariants as instruction;
ghost use Rattle.iso_search_core.specs.declared.nows.Now.TheVariants as now;
ghost use Rattle.iso_frames.specs.declared.frames.Next.TheVariants as next;
ghost use Rattle.iso_frames.specs.Frames.{Levels};
ghost use Rattle.iso_environments.specs.Leveled.{IsAtClause};
ghost use Rattle.iso_search.specs.EngineStates.{Represents};
ghost use Rattle.iso_search.specs.Moved.{Moved};
ghost use Rattle.iso_machine.specs.Engines.{framed};
ghost use Rattle.iso_machine.specs.Instructions.{IsInstructionThere, IsStepThere, IsSplit, CutsAs, at_address};

use super::coming::go_on;
use super::framed::Framed;
use super::room::has_room;
use iso_cells::Cells;
use iso_compile::Mark;
use iso_environments::push_level;
use iso_frames::{Frame, Rest, Work, height_of};
use iso_instructions::Instruction;
use iso_search::search::{Move, Search};
use iso_search_core::choices::{Left, keep_choice};
use iso_search_core::lists::Lists;
use iso_search_core::nows::Now;
use iso_store_core::{Store, StoreFault};

/// Where the frame there goes on at this address.
fn at(rest: Rest, address: usize) -> Option<Rest>
    ensures { result ≡ Some (at_address rest address) }
{
    Some(Rest {
        frame: rest.frame,
        address,
    })
}

/// The height of the mark, in the clause of the frame there; the most that a number can be where it is above that.
pub(crate) fn height_at(frames: &[Frame], rest: Rest, mark: Mark) -> usize
    requires { (f : _) × (code : _) × (level : Option _) × (kept : ℕ → ℕ) × IsAtClause frames.now rest f code level
        × Levels frames.now rest.frame level kept }
    ensures { (f : _) (code : _) (level : Option _) (kept : ℕ → ℕ) → IsAtClause frames.now rest f code level
        → Levels frames.now rest.frame level kept → CutsAs result (height f.height kept mark) }
{
    let frame = &frames[rest.frame];
    let Work::Clause(_, level) = &frame.work else {
        unreachable!();
    };
    match mark {
        Mark::Clause => frame.height,
        Mark::Level(slot) => height_of(frames, *level, slot),
        Mark::AboveLevel(slot) => height_of(frames, *level, slot).saturating_add(1),
    }
}

/// The other address of the `try_me_else` there; none where there is another instruction.
fn other_at(frames: &[Frame], rest: Rest) -> Option<usize>
    requires { (f : _) × (code : _) × (level : Option _) × IsAtClause frames.now rest f code level
        × (rest.address < length code.value.body.items) }
    ensures { MatchOption result ((other : ℕ) → ¬ IsInstructionThere frames.now rest (instruction.TryElse other))
        (λ other. IsInstructionThere frames.now rest (instruction.TryElse other)) }
{
    let frame = &frames[rest.frame];
    let Work::Clause(code, _) = &frame.work else {
        unreachable!();
    };
    match &code.body[rest.address] {
        Instruction::TryElse(other) => Some(*other),
        _ => None,
    }
}

/// Does the instruction there, which calls no goal and does no arithmetic. The errors: the store is full, or memory was
/// refused.
pub(crate) fn run_instruction<S: Cells + Drop>(
    search: &mut Search<S, Framed<S>>,
    rest: Rest,
) -> Result<Move, StoreFault>
    requires now { search.old.now ≡ now.Running (next.Code rest) }
    requires there { IsStepThere search.old.lists.frames.items rest }
    requires stands { (s : State) × Represents S.Store (framed S.atom_word) search.old s }
    ensures { Moved S.Store (framed S.atom_word) (ComesBeyond search.old.limit) search.old result search.new }
{
    let frame = &search.lists.frames[rest.frame];
    let Work::Clause(code, _) = &frame.work else {
        unreachable!();
    };
    match code.body[rest.address] {
        Instruction::Cut(mark) => {
            cut_back(search, rest, mark);
            Ok(Move::Goes)
        }
        Instruction::TryElse(other) => try_else(search, rest, other),
        Instruction::GetLevel(slot) => get_level(search, rest, slot),
        _ => unreachable!(),
    }
}

/// Cuts back to the mark, and goes on at the address below (7.8.4, 7.8.7).
pub(crate) fn cut_back<S: Cells + Drop>(search: &mut Search<S, Framed<S>>, rest: Rest, mark: Mark)
    requires now { search.old.now ≡ now.Running (next.Code rest) }
    requires there { IsInstructionThere search.old.lists.frames.items rest (instruction.Cut mark) }
    requires stands { (s : State) × Represents S.Store (framed S.atom_word) search.old s }
    ensures moved { Moved S.Store (framed S.atom_word) (λ s. ⊥) search.old (Ok Move.Goes) search.new }
    ensures steps { search.new.steps ≡ search.old.steps }
{
    let height = height_at(search.lists.frames.as_slice(), rest, mark);
    search.cut_to(height);
    go_on(&mut search.now, &search.lists, at(rest, rest.address - 1));
}

/// Keeps the alternative at another address of the clause as a choice, and goes on at the address below (7.8.6). The
/// error is that memory was refused; where no choice may be made any more the engine is spent.
fn try_else<S: Cells + Drop>(
    search: &mut Search<S, Framed<S>>,
    rest: Rest,
    other: usize,
) -> Result<Move, StoreFault>
    requires now { search.old.now ≡ now.Running (next.Code rest) }
    requires there { IsInstructionThere search.old.lists.frames.items rest (instruction.TryElse other) }
    requires stands { (s : State) × Represents S.Store (framed S.atom_word) search.old s }
    ensures { Moved S.Store (framed S.atom_word) (ComesBeyond search.old.limit) search.old result search.new }
{
    split(search, rest, other)
}

/// The slot keeps how many choices stand (7.8.7); where a `try_me_else` follows its alternative is kept as a choice at
/// once (7.8.8). The error is that memory was refused; where no frame or no choice may be made any more the engine is
/// spent.
fn get_level<S: Cells + Drop>(
    search: &mut Search<S, Framed<S>>,
    rest: Rest,
    slot: usize,
) -> Result<Move, StoreFault>
    requires now { search.old.now ≡ now.Running (next.Code rest) }
    requires there { IsInstructionThere search.old.lists.frames.items rest (instruction.GetLevel slot) }
    requires stands { (s : State) × Represents S.Store (framed S.atom_word) search.old s }
    ensures { Moved S.Store (framed S.atom_word) (ComesBeyond search.old.limit) search.old result search.new }
{
    if !has_room(search, &Some(rest)) {
        return Ok(search.full_frames());
    }
    let height = search.choices.len();
    let made = push_level(&mut search.lists.frames, rest, slot, height)?;
    match other_at(search.lists.frames.as_slice(), made) {
        Some(other) => split(search, made, other),
        None => {
            search.now = search.coming(Some(made));
            Ok(Move::Goes)
        }
    }
}

/// Keeps the alternative at the other address of the frame there as a choice, and goes on at the address below: behind
/// frames that may have come. The error is that memory was refused; where no choice may be made any more the engine is
/// spent.
fn split<S: Cells + Drop>(
    search: &mut Search<S, Framed<S>>,
    rest: Rest,
    other: usize,
) -> Result<Move, StoreFault>
    requires address { 0 < rest.address }
    requires splits { (old : _) × (s : State) × Represents S.Store (framed S.atom_word) old s
        × IsSplit S.Store S.atom_word old search.old (at_address rest (rest.address - 1)) (at_address rest other) }
    ensures { (old : _) (s : State) → Represents S.Store (framed S.atom_word) old s
        → IsSplit S.Store S.atom_word old search.old (at_address rest (rest.address - 1)) (at_address rest other)
        → Moved S.Store (framed S.atom_word) (ComesBeyond old.limit) old result search.new }
{
    let on = at(rest, rest.address - 1);
    if !has_room(search, &on) {
        return Ok(search.full_frames());
    }
    let kept = search.lists.kept();
    keep_choice(
        &mut search.store,
        &mut search.choices,
        kept,
        at(rest, other),
        Left::AsIs,
    )?;
    search.now = search.coming(on);
    Ok(Move::Goes)
}
