//! Variables that get their value from `is/2`: where the code meets a variable there first, on each way on which it
//! meets it at all, the variable takes the value itself, and needs no cell.
ghost use Rattle.std.specs.Prelude.{◌≡◌, ◌<◌, ◌≤◌, ℕ, List, Some, [], ◌∷◌, ◌++◌, length, IfOk, MatchOption};
ghost use Rattle.iso_compile.specs.declared.control.Instruction.TheVariants.{Is};
ghost use Rattle.iso_compile.specs.declared.instructions.Part.TheVariants.{New, Old};
ghost use Rattle.std.specs.List.{slice_get};
ghost use Rattle.iso_compile.specs.declared.births.Span.{Span};
ghost use Rattle.iso_compile.specs.Emitted.{all_parts};
ghost use Rattle.iso_compile.specs.Expressions.{step_parts};
ghost use Rattle.iso_compile.specs.Control.{own_parts};
ghost use Rattle.iso_compile.specs.Births.{has, with_parts, AreSpans, target, AreSources, IsBarrier, AreBarriers, IsBirth, Births, GivesValues};

use super::control::Instruction;
use super::entry::is_placed;
use super::expressions::Step;
use super::goals::Call;
use super::instructions::{Block, Part};
use iso_alloc::Place;
use std::alloc::{AllocError, Global};

/// The lowest and the highest address at which a variable occurs.
#[derive(Clone, Copy)]
struct Span {
    low: usize,
    high: usize,
}

/// Notes the variable of a part, where it is one, at this address.
fn note_part(spans: &mut Vec<Span>, address: usize, part: &Part)
    ensures { spans.new.items ≡ with_parts address (part.now ∷ []) spans.old.items }
{
    let variable = match part {
        Part::New(variable, _) | Part::Old(variable, _) | Part::Void(variable) => *variable,
        Part::Integer(_) | Part::Atom(_) | Part::Inner(_) => return,
    };
    if variable < spans.len() {
        let Span { low, high } = spans[variable];
        spans[variable] = Span {
            low: low.min(address),
            high: high.max(address),
        };
    }
}

/// Notes the variables of parts.
fn note_parts(spans: &mut Vec<Span>, address: usize, parts: &[Part])
    ensures { spans.new.items ≡ with_parts address parts.now spans.old.items }
{
    for part in parts {
        note_part(spans, address, part);
    }
}

/// Notes the variables of blocks.
fn note_blocks(spans: &mut Vec<Span>, address: usize, blocks: &[Block])
    ensures { spans.new.items ≡ with_parts address (all_parts blocks.now) spans.old.items }
{
    for block in blocks {
        note_parts(spans, address, block.parts.as_slice());
    }
}

/// Notes the variable of a step.
fn note_step(spans: &mut Vec<Span>, address: usize, step: &Step)
    ensures { spans.new.items ≡ with_parts address (step_parts (step.now ∷ [])) spans.old.items }
{
    match step {
        Step::Value(part) => note_part(spans, address, part),
        Step::One(_) | Step::Two(_) => {}
    }
}

/// Notes the variables of steps.
fn note_steps(spans: &mut Vec<Span>, address: usize, steps: &[Step])
    ensures { spans.new.items ≡ with_parts address (step_parts steps.now) spans.old.items }
{
    for step in steps {
        note_step(spans, address, step);
    }
}

/// Notes the variables of a call.
fn note_call(spans: &mut Vec<Span>, address: usize, call: &Call)
    ensures { spans.new.items ≡ with_parts address (call.now.arguments.parts.items ++ all_parts call.now.arguments.blocks.items) spans.old.items }
{
    note_parts(spans, address, call.arguments.parts.as_slice());
    note_blocks(spans, address, call.arguments.blocks.as_slice());
}

/// Notes the variables of an instruction.
fn note_instruction(spans: &mut Vec<Span>, address: usize, instruction: &Instruction)
    ensures { spans.new.items ≡ with_parts address (own_parts instruction.now) spans.old.items }
{
    match instruction {
        Instruction::Call(call) => note_call(spans, address, call),
        Instruction::Execute(call) => note_call(spans, address, call),
        Instruction::Is(part, steps) => {
            note_steps(spans, address, steps.as_slice());
            note_part(spans, address, part);
        }
        Instruction::Compare(_, steps) => note_steps(spans, address, steps.as_slice()),
        Instruction::Proceed
        | Instruction::Cut(_)
        | Instruction::GetLevel(_)
        | Instruction::TryElse(_)
        | Instruction::Jump(_) => {}
    }
}

/// The spans of so many variables in this code. The error is that memory was refused.
fn spans_of(alloc: Global, count: usize, code: &[Instruction]) -> Result<Vec<Span>, AllocError>
    ensures spans { IfOk result (λ spans. AreSpans code.now spans.items) }
    ensures many { IfOk result (λ spans. length spans.items ≡ count) }
{
    let unused = Span {
        low: usize::MAX,
        high: 0,
    };
    let mut spans = vec![in alloc; unused; count]?;
    for (address, instruction) in code.iter().enumerate() {
        note_instruction(&mut spans, address, instruction);
    }
    Ok(spans)
}

/// The address at which an instruction may go on, if it isn't the next one.
fn target(instruction: &Instruction) -> Option<usize>
    ensures { result ≡ target instruction.now }
{
    match instruction {
        Instruction::TryElse(other) | Instruction::Jump(other) => Some(*other),
        _ => None,
    }
}

/// Notes that an instruction at this address, above those that were noted, may go on elsewhere.
fn note_source(sources: &mut Vec<usize>, address: usize, instruction: &Instruction)
    ensures many { length sources.new.items ≡ length sources.old.items }
    ensures noted { (l t : ℕ) → target instruction.now ≡ Some l → slice_get sources.new.items l ≡ Some t → address ≤ t }
    ensures kept { (s l : ℕ) → s ≤ address → ((t : ℕ) → slice_get sources.old.items l ≡ Some t → s ≤ t) → (t : ℕ) → slice_get sources.new.items l ≡ Some t → s ≤ t }
{
    if let Some(other) = target(instruction) {
        if other < sources.len() {
            sources[other] = address;
        }
    }
}

/// For each address, the highest address of an instruction that may go on there; 0 for none. The error is that memory
/// was refused.
fn sources_of(alloc: Global, code: &[Instruction]) -> Result<Vec<usize>, AllocError>
    ensures sources { IfOk result (λ sources. AreSources code.now sources.items) }
    ensures many { IfOk result (λ sources. length sources.items ≡ length code.now) }
{
    let mut sources = vec![in alloc; 0usize; code.len()]?;
    for (address, instruction) in code.iter().enumerate() {
        note_source(&mut sources, address, instruction);
    }
    Ok(sources)
}

/// The barrier of the next address, where these are those below it: each lower address at which code goes on from a
/// higher one is below it.
fn barrier(sources: &[usize], barriers: &[usize]) -> usize
    requires { AreBarriers sources.now barriers.now }
    ensures { IsBarrier sources.now (length barriers.now) result }
{
    let address = barriers.len();
    let mut barrier = address;
    while barrier > 0 && barrier <= sources.len() && sources[barrier - 1] <= address {
        barrier = barriers[barrier - 1];
    }
    barrier
}

/// The barrier of each address. The error is that memory was refused.
fn barriers_of(alloc: Global, sources: &[usize]) -> Result<Vec<usize>, AllocError>
    ensures barriers { IfOk result (λ barriers. AreBarriers sources.now barriers.items) }
    ensures many { IfOk result (λ barriers. length barriers.items ≡ length sources.now) }
{
    let mut barriers = Vec::with_capacity(alloc, sources.len())?;
    for _ in 0..sources.len() {
        let next = barrier(sources, barriers.as_slice());
        barriers.push(next)?;
    }
    Ok(barriers)
}

/// Whether the step takes the value of this variable.
fn is_of(step: &Step, variable: usize) -> bool
    ensures { result ≡ has variable (step_parts (step.now ∷ [])) }
{
    match step {
        Step::Value(Part::New(other, _) | Part::Old(other, _) | Part::Void(other)) => {
            *other == variable
        }
        _ => false,
    }
}

/// Whether one of the steps takes the value of this variable.
fn has_variable(steps: &[Step], variable: usize) -> bool
    ensures { result ≡ has variable (step_parts steps.now) }
{
    for step in steps {
        if is_of(step, variable) {
            return true;
        }
    }
    false
}

/// The variable that gets its value from this instruction at this address, and its place; nothing where none does.
fn birth(
    instruction: &Instruction,
    address: usize,
    spans: &[Span],
    barriers: &[usize],
    met: &[bool],
) -> Option<(usize, Place)>
    ensures { MatchOption result (Unit {0}) (λ r. (steps : _) × (instruction.now ≡ Is (Old r.0 r.1) steps) × IsBirth spans.now barriers.now met.now address r.0 r.1 steps.items) }
{
    let Instruction::Is(Part::Old(variable, place), steps) = instruction else {
        return None;
    };
    let (variable, place) = (*variable, *place);
    if variable >= spans.len() || variable >= met.len() || address >= barriers.len() {
        return None;
    }
    let Span { low, high } = spans[variable];
    if met[variable] || high != address || low < barriers[address] {
        return None;
    }
    if !is_placed(place) || has_variable(steps.as_slice(), variable) {
        return None;
    }
    Some((variable, place))
}

/// From here on the instruction gives this variable, which is kept at this place, its value.
fn give(instruction: &mut Instruction, variable: usize, place: Place)
    ensures { (steps : _) → instruction.old ≡ Is (Old variable place) steps → instruction.new ≡ Is (New variable place) steps }
{
    if let Instruction::Is(part, _) = instruction {
        *part = Part::New(variable, place);
    }
}

/// Marks the variable that gets its value from the instruction at this address, where one does.
fn bear(
    address: usize,
    spans: &[Span],
    barriers: &[usize],
    met: &[bool],
    code: &mut Vec<Instruction>,
    born: &mut Vec<bool>,
)
    requires within { address < length code.old.items }
    requires many { length born.old.items ≡ length spans.now }
    ensures births { (old : List Instruction) → Births spans.now barriers.now met.now old code.old.items born.old.items → Births spans.now barriers.now met.now old code.new.items born.new.items }
    ensures long { length code.new.items ≡ length code.old.items }
    ensures many { length born.new.items ≡ length born.old.items }
{
    let Some((variable, place)) = birth(&code[address], address, spans, barriers, met) else {
        return;
    };
    give(&mut code[address], variable, place);
    born[variable] = true;
}

/// Marks the variables that get their value from `is/2` as new there: for each whether it does. These were met before
/// the code. The error is that memory was refused.
pub fn births(
    alloc: Global,
    met: &[bool],
    code: &mut Vec<Instruction>,
) -> Result<Vec<bool>, AllocError>
    ensures { IfOk result (λ born. GivesValues met.now code.old.items code.new.items born.items) }
{
    let spans = spans_of(alloc, met.len(), code.as_slice())?;
    let sources = sources_of(alloc, code.as_slice())?;
    let barriers = barriers_of(alloc, sources.as_slice())?;
    let mut born = vec![in alloc; false; met.len()]?;
    for address in 0..code.len() {
        bear(
            address,
            spans.as_slice(),
            barriers.as_slice(),
            met,
            code,
            &mut born,
        );
    }
    Ok(born)
}
