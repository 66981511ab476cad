//! The code of a goal's arguments.
ghost use Rattle.std.specs.Prelude.{◌≡◌, ◌≤◌, ◌+◌, [], ◌∷◌, ◌++◌, true, map, IfOk, OnOk};
ghost use Rattle.std.specs.String.{string_bytes};
ghost use Rattle.iso_model.specs.Terms.Trees.{More, End};
ghost use Rattle.iso_model.specs.Terms.Sizes.{size};
ghost use Rattle.iso_model.specs.Terms.TermOf.{term_of, row_of};
ghost use Rattle.iso_compile.specs.TermCode.{tops, parts, blocks};
ghost use Rattle.iso_compile.specs.CodeLaws.{MakesArguments, Calls};
ghost use Rattle.iso_compile.specs.Emitted.{part_of, block_of, all_parts, AreMarked};
ghost use Rattle.iso_compile.specs.Emitting.{is_placed, all_placed, without_voids, arguments_cells, HasPlaced, IsWithin};
ghost use Rattle.iso_compile.specs.Control.{called_arguments, goal_size};
ghost use Rattle.iso_compile.specs.Tasks.{is_atomic};

use super::emitting::Emitter;
use super::entry::is_placed;
use super::instructions::{Block, Part};
use super::parts::{part_in, parts_in};
use iso_alloc::Plan;
use iso_model::Term;
use std::alloc::{AllocError, Global};
use std::mem;

/// The code of a goal's arguments. The blocks are run from the last one on, and then the arguments are put. All
/// variables that have a place have their values before.
#[derive(Drop)]
pub struct Arguments {
    /// The compounds among the arguments, and those in them.
    pub blocks: Vec<Block>,
    /// The arguments.
    pub parts: Vec<Part>,
    /// How many registers are used: the number of each is below.
    pub registers: usize,
}

/// A goal that is called: its name, and the code of its arguments. A variable or a number is called by `call`.
#[derive(Drop)]
pub struct Call {
    /// The name of the procedure; it has as many arguments as `arguments` has parts.
    pub name: String,
    /// The arguments.
    pub arguments: Arguments,
}

/// For each variable of the plan, whether it has a place. The error is that memory was refused.
pub(crate) fn placed(alloc: Global, plan: &Plan) -> Result<Vec<bool>, AllocError>
    ensures { IfOk result (λ list. list.items ≡ map is_placed plan.now.places) }
{
    let mut list = Vec::with_capacity(alloc, plan.variables())?;
    for variable in 0..plan.variables() {
        list.push(is_placed(plan.place(variable)))?;
    }
    Ok(list)
}

/// Forgets a void variable.
pub(crate) fn forget_part(met: &mut Vec<bool>, part: &Part)
    ensures { met.new.items ≡ without_voids met.old.items (part.now ∷ []) }
{
    if let Part::Void(variable) = part {
        let variable = *variable;
        if variable < met.len() {
            met[variable] = false;
        }
    }
}

/// Forgets the void variables among these parts.
pub(crate) fn forget(met: &mut Vec<bool>, parts: &[Part])
    ensures { met.new.items ≡ without_voids met.old.items parts.now }
{
    for part in parts {
        forget_part(met, part);
    }
}

/// Forgets the void variables in these blocks.
fn forget_blocks(met: &mut Vec<bool>, blocks: &[Block])
    ensures { met.new.items ≡ without_voids met.old.items (all_parts blocks.now) }
{
    for block in blocks {
        forget(met, block.parts.as_slice());
    }
}

/// The code of these arguments of a goal. The compounds are in the registers behind those of the plan. The variables
/// that have a place were met before, and no others; so it is behind. The error is that memory was refused.
pub fn compile_arguments(
    alloc: Global,
    plan: &Plan,
    met: &mut Vec<bool>,
    arguments: &[Term],
) -> Result<Arguments, AllocError>
    requires { HasPlaced plan.now.places met.old.items }
    ensures makes { IfOk result (λ code. MakesArguments (map block_of code.blocks.items) (map part_of code.parts.items) (row_of arguments.now)) }
    ensures parts_are { IfOk result (λ code. map part_of code.parts.items ≡ parts plan.now.registers (row_of arguments.now)) }
    ensures blocks_are { IfOk result (λ code. map block_of code.blocks.items ≡ blocks plan.now.registers (plan.now.registers + tops (row_of arguments.now)) (row_of arguments.now)) }
    ensures registers { IfOk result (λ code. IsWithin plan.now.registers code) }
    ensures cells { IfOk result (λ code. arguments_cells code ≤ size (row_of arguments.now)) }
    ensures marks { IfOk result (λ code. AreMarked plan.now.places (all_placed plan.now.places) (code.parts.items ++ all_parts code.blocks.items)) }
    ensures met { OnOk result (HasPlaced plan.now.places met.new.items) }
{
    let register = plan.registers();
    let (parts, next) = parts_in(alloc, plan, met, register, arguments)?;
    let mut emitter = Emitter {
        code: Vec::new(alloc),
        met: mem::replace(met, Vec::new(alloc)),
        next,
    };
    emitter.emit(alloc, plan, register, arguments)?;
    mem::swap(met, &mut emitter.met);
    forget(met, parts.as_slice());
    forget_blocks(met, emitter.code.as_slice());
    Ok(Arguments {
        blocks: emitter.code,
        parts,
        registers: emitter.next,
    })
}

/// The code of a term alone, which is no compound, as the only argument of a goal. The error is that memory was
/// refused.
fn compile_atomic(
    alloc: Global,
    plan: &Plan,
    met: &mut Vec<bool>,
    term: &Term,
) -> Result<Arguments, AllocError>
    requires atomic { is_atomic (term_of term.now) ≡ true }
    requires met { HasPlaced plan.now.places met.old.items }
    ensures makes { IfOk result (λ code. MakesArguments (map block_of code.blocks.items) (map part_of code.parts.items) (More (term_of term.now) End)) }
    ensures parts_are { IfOk result (λ code. map part_of code.parts.items ≡ parts plan.now.registers (More (term_of term.now) End)) }
    ensures blocks_are { IfOk result (λ code. map block_of code.blocks.items ≡ blocks plan.now.registers (plan.now.registers + tops (More (term_of term.now) End)) (More (term_of term.now) End)) }
    ensures registers { IfOk result (λ code. IsWithin plan.now.registers code) }
    ensures cells { IfOk result (λ code. arguments_cells code ≤ size (term_of term.now)) }
    ensures marks { IfOk result (λ code. AreMarked plan.now.places (all_placed plan.now.places) (code.parts.items ++ all_parts code.blocks.items)) }
    ensures met { OnOk result (HasPlaced plan.now.places met.new.items) }
{
    let part = part_in(plan, met, 0, term)?;
    let mut parts = Vec::new(alloc);
    parts.push(part)?;
    forget(met, parts.as_slice());
    Ok(Arguments {
        blocks: Vec::new(alloc),
        parts,
        registers: plan.registers(),
    })
}

/// The code that calls a goal. The compounds in it are in the registers behind those of the plan. The variables that
/// have a place were met before, and no others; so it is behind. The error is that memory was refused.
pub fn compile_goal(
    alloc: Global,
    plan: &Plan,
    met: &mut Vec<bool>,
    goal: &Term,
) -> Result<Call, AllocError>
    requires { HasPlaced plan.now.places met.old.items }
    ensures calls { IfOk result (λ call. Calls (string_bytes call.name) (map block_of call.arguments.blocks.items) (map part_of call.arguments.parts.items) (term_of goal.now)) }
    ensures parts_are { IfOk result (λ call. map part_of call.arguments.parts.items ≡ parts plan.now.registers (called_arguments (term_of goal.now))) }
    ensures blocks_are { IfOk result (λ call. map block_of call.arguments.blocks.items ≡ blocks plan.now.registers (plan.now.registers + tops (called_arguments (term_of goal.now))) (called_arguments (term_of goal.now))) }
    ensures registers { IfOk result (λ call. IsWithin plan.now.registers call.arguments) }
    ensures cells { IfOk result (λ call. arguments_cells call.arguments ≤ goal_size (term_of goal.now)) }
    ensures marks { IfOk result (λ call. AreMarked plan.now.places (all_placed plan.now.places) (call.arguments.parts.items ++ all_parts call.arguments.blocks.items)) }
    ensures met { OnOk result (HasPlaced plan.now.places met.new.items) }
{
    match goal {
        Term::Compound(name, arguments) => Ok(Call {
            name: name.clone()?,
            arguments: compile_arguments(alloc, plan, met, arguments.as_slice())?,
        }),
        Term::Atom(name) => Ok(Call {
            name: name.clone()?,
            arguments: compile_arguments(alloc, plan, met, &[])?,
        }),
        Term::Var(_) | Term::Int(_) => Ok(Call {
            name: String::from_str(alloc, "call")?,
            arguments: compile_atomic(alloc, plan, met, goal)?,
        }),
    }
}
