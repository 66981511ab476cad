//! The code of a head: what its arguments are met with, and then the blocks of those that are compounds.
ghost use Rattle.std.specs.Prelude.{◌≡◌, ◌+◌, ◌≤◌, map, length, IfOk, OnOk};
ghost use Rattle.iso_model.specs.Terms.Trees.{count};
ghost use Rattle.iso_model.specs.Terms.Sizes.{size};
ghost use Rattle.iso_model.specs.Terms.TermOf.{row_of};
ghost use Rattle.iso_compile.specs.Heads.{gets, head_blocks};
ghost use Rattle.iso_compile.specs.TermCode.{deep};
ghost use Rattle.iso_compile.specs.Orders.{BlocksWithin};
ghost use Rattle.iso_compile.specs.CodeLaws.{MeetsCalls};
ghost use Rattle.iso_compile.specs.Emitting.{none_met, head_parts, head_cells};
ghost use Rattle.iso_compile.specs.Emitted.{get_of, block_of, part_got, Marking, Marks};
ghost use Rattle.iso_compile.specs.Tasks.{Goes, stage_of, with_head};

use super::emitting::{Emitter, compound};
use super::instructions::Get;
use super::parts::part_in;
use iso_alloc::Plan;
use iso_model::Term;
use std::alloc::{AllocError, Global};

/// What the arguments of a head are met with that are no compounds. Each one is in the register of its number. The
/// error is that memory was refused.
pub fn gets_of(
    alloc: Global,
    plan: &Plan,
    met: &mut Vec<bool>,
    arguments: &[Term],
) -> Result<Vec<Get>, AllocError>
    requires { length met.old.items ≡ length plan.now.places }
    ensures made { IfOk result (λ code. map get_of code.items ≡ gets 0 (row_of arguments.now)) }
    ensures marks { IfOk result (λ code. Marks plan.now.places (map part_got code.items) met.old.items met.new.items) }
    ensures many { length met.new.items ≡ length met.old.items }
{
    let mut code = Vec::new(alloc);
    for (register, argument) in arguments.iter().enumerate() {
        if compound(argument).is_none() {
            let part = part_in(plan, met, register, argument)?;
            code.push(Get { register, part })?;
        }
    }
    Ok(code)
}

/// The code of a head, and what compiling the body goes on with.
#[derive(Drop)]
pub struct Head {
    /// What the arguments are met with that are no compounds.
    pub gets: Vec<Get>,
    /// The blocks of those that are, the variables that were met, and the next register that is free.
    pub emitter: Emitter,
}

/// The code of a head of these arguments: it meets a call as the search tries a clause. The error is that memory was
/// refused.
pub fn compile_head(alloc: Global, plan: &Plan, arguments: &[Term]) -> Result<Head, AllocError>
    requires { count (row_of arguments.now) ≤ plan.now.registers }
    ensures gets { IfOk result (λ head. map get_of head.gets.items ≡ gets 0 (row_of arguments.now)) }
    ensures blocks { IfOk result (λ head. map block_of head.emitter.code.items ≡ head_blocks 0 plan.now.registers (row_of arguments.now)) }
    ensures meets { IfOk result (λ head. MeetsCalls (map get_of head.gets.items) (map block_of head.emitter.code.items) (row_of arguments.now)) }
    ensures marks { IfOk result (λ head. Marking plan.now.places (none_met plan.now.places) (head_parts head) head.emitter.met.items) }
    ensures many { IfOk result (λ head. length head.emitter.met.items ≡ length plan.now.places) }
    ensures cells { IfOk result (λ head. head_cells head.gets.items head.emitter.code.items ≤ size (row_of arguments.now)) }
    ensures registers { IfOk result (λ head. BlocksWithin plan.now.registers head.emitter.next (map block_of head.emitter.code.items)) }
    ensures next { IfOk result (λ head. head.emitter.next ≡ plan.now.registers + deep (row_of arguments.now)) }
{
    let mut met = vec![in alloc; false; plan.variables()]?;
    let gets = gets_of(alloc, plan, &mut met, arguments)?;
    let mut emitter = Emitter {
        code: Vec::new(alloc),
        met,
        next: plan.registers(),
    };
    emitter.emit_head(alloc, plan, arguments)?;
    Ok(Head { gets, emitter })
}

impl Emitter {
    /// Emits the blocks of the compounds among the arguments of a head, each in the register of its number. The error
    /// is that memory was refused.
    pub fn emit_head(
        &mut self,
        alloc: Global,
        plan: &Plan,
        arguments: &[Term],
    ) -> Result<(), AllocError>
        requires { length self.old.met.items ≡ length plan.now.places }
        ensures made { OnOk result (stage_of self.new ≡ with_head 0 (row_of arguments.now) (stage_of self.old)) }
        ensures marks { OnOk result (Goes plan.now.places self.old self.new) }
        ensures many { length self.new.met.items ≡ length self.old.met.items }
    {
        for register in 0..arguments.len() {
            self.emit(alloc, plan, register, &arguments[register..register + 1])?;
        }
        Ok(())
    }
}
