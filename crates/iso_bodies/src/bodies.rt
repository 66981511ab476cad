//! The instructions of a body are loaded.
ghost use Rattle.std.specs.Prelude.{◌≡◌, ℕ, IfOk};
ghost use Rattle.std.specs.List.{AllZip};
ghost use Rattle.iso_store_core.specs.Retaining.{Retains};
ghost use Rattle.iso_compile.specs.Control.{IsBehind, AreBehind};
ghost use Rattle.iso_compile.specs.Emitting.{IsWithin};
ghost use Rattle.iso_bodies.specs.Instructions.{IsLoadedGoal, IsLoadedInstruction};

use super::steps::load_steps;
use iso_code::{load_arguments, load_part};
use iso_instructions::{Goal, Instruction};
use iso_model::NoMemory;
use iso_store_core::Store;
use std::alloc::Global;

/// The goal with names as atoms, where compounds have the registers from `low` on. The error is that memory was
/// refused.
fn load_goal<S: Store>(
    alloc: Global,
    store: &mut S,
    low: usize,
    call: &iso_compile::Call,
) -> Result<Goal, NoMemory>
    requires { IsWithin low call.now.arguments }
    ensures loaded { IfOk result (λ goal. IsLoadedGoal (S.names store.new) low call.now goal) }
    ensures present { S.present store.new ≡ S.present store.old }
    ensures rest { Retains S.Store store.old store.new }
{
    let arguments = load_arguments(alloc, store, low, &call.arguments)?;
    let name = store.intern(call.name.as_str())?;
    Ok(Goal { name, arguments })
}

/// The instruction with names as atoms, where compounds of calls have the registers from `low` on. The error is that
/// memory was refused.
fn load_instruction<S: Store>(
    alloc: Global,
    store: &mut S,
    low: usize,
    instruction: &iso_compile::Instruction,
) -> Result<Instruction, NoMemory>
    requires { IsBehind low instruction.now }
    ensures loaded { IfOk result (λ i. IsLoadedInstruction (S.names store.new) low instruction.now i) }
    ensures present { S.present store.new ≡ S.present store.old }
    ensures rest { Retains S.Store store.old store.new }
{
    match instruction {
        iso_compile::Instruction::Call(call) => {
            Ok(Instruction::Call(load_goal(alloc, store, low, call)?))
        }
        iso_compile::Instruction::Execute(call) => {
            Ok(Instruction::Execute(load_goal(alloc, store, low, call)?))
        }
        iso_compile::Instruction::Is(part, steps) => {
            let left = load_part(store, 0, part)?;
            let steps = load_steps(alloc, store, steps.as_slice())?;
            Ok(Instruction::Is(left, steps))
        }
        iso_compile::Instruction::Compare(comparison, steps) => {
            let steps = load_steps(alloc, store, steps.as_slice())?;
            Ok(Instruction::Compare(*comparison, steps))
        }
        iso_compile::Instruction::Proceed => Ok(Instruction::Proceed),
        iso_compile::Instruction::Cut(mark) => Ok(Instruction::Cut(*mark)),
        iso_compile::Instruction::GetLevel(slot) => Ok(Instruction::GetLevel(*slot)),
        iso_compile::Instruction::TryElse(other) => Ok(Instruction::TryElse(*other)),
        iso_compile::Instruction::Jump(other) => Ok(Instruction::Jump(*other)),
    }
}

/// The body with names as atoms, where compounds of calls have the registers from `low` on. The error is that memory
/// was refused.
pub(crate) fn load_body<S: Store>(
    alloc: Global,
    store: &mut S,
    low: usize,
    body: &[iso_compile::Instruction],
) -> Result<Vec<Instruction>, NoMemory>
    requires { AreBehind low body.now }
    ensures loaded { IfOk result (λ code. AllZip (IsLoadedInstruction (S.names store.new) low) body.now code.items) }
    ensures present { S.present store.new ≡ S.present store.old }
    ensures rest { Retains S.Store store.old store.new }
{
    let mut code = Vec::with_capacity(alloc, body.len())?;
    for instruction in body {
        code.push(load_instruction(alloc, store, low, instruction)?)?;
    }
    Ok(code)
}
