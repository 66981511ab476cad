//! The code of clauses and goals: a head, what is done behind it, and a body.
ghost use Rattle.std.specs.Prelude.{◌≡◌, ◌≤◌, ℕ, false, get_or, IfOk};
ghost use Rattle.iso_model.specs.Search.Bodies.{Body, is_true};
ghost use Rattle.iso_prep.specs.Trees.{EndsWith, IsBorrowed};
ghost use Rattle.iso_alloc.specs.Plans.{IsPlan};
ghost use Rattle.iso_compile.specs.Clauses.{IsCode, BodyDoes};
ghost use Rattle.iso_compile.specs.Control.{AreRight, IsSized, AreSized};
ghost use Rattle.iso_compile.specs.Births.{GivesValues};

use super::births::births;
use super::bodies::compile_body;
use super::control::Instruction;
use super::entry::fresh_variables;
use super::heads::{Head, compile_head};
use super::instructions::{Block, Get, Part};
use iso_alloc::{Plan, head_arguments};
use iso_model::Term;
use iso_prep::{Node, Prepared};
use std::alloc::{AllocError, Global};

/// The code of a clause, or of a goal, which has no head.
#[derive(Drop)]
pub struct Code {
    /// What the arguments of the head are met with that are no compounds.
    pub gets: Vec<Get>,
    /// The blocks of those that are compounds, and of the compounds in them.
    pub blocks: Vec<Block>,
    /// The variables that get a cell before the body: those that the head doesn't meet, and that don't get their value
    /// from `is/2`.
    pub fresh: Vec<Part>,
    /// The body, its last instruction first.
    pub body: Vec<Instruction>,
    /// How many slots an environment has: those of the variables, and behind them those of levels.
    pub slots: usize,
    /// How many registers are used: the number of each is below.
    pub registers: usize,
}

/// Whether the body that ends with the last of these parts is `true` alone, which is no goal in a clause.
fn is_fact(parts: &[Node<&Term>]) -> bool
    ensures { (b : Body) → EndsWith IsBorrowed parts.now b → result ≡ is_true b }
{
    match parts.last() {
        Some(Node::Run(Term::Atom(name))) => name.as_str() == "true",
        _ => false,
    }
}

/// The code of a body behind a head, or of that of a goal. The error is that memory was refused.
fn body_code(
    alloc: Global,
    plan: &Plan,
    has_head: bool,
    parts: &[Node<&Term>],
) -> Result<Vec<Instruction>, AllocError>
    requires { (b : Body) × EndsWith IsBorrowed parts.now b }
    ensures does { IfOk result (λ code. (b : Body) → EndsWith IsBorrowed parts.now b → BodyDoes plan.now has_head code.items b) }
    ensures right { IfOk result (λ code. AreRight plan.now code.items) }
{
    if has_head && is_fact(parts) {
        let mut code = Vec::new(alloc);
        code.push(Instruction::Proceed)?;
        return Ok(code);
    }
    compile_body(alloc, plan, parts)
}

/// How many slots and registers an instruction needs, where there are so many without it. The error is that no memory
/// holds so many.
fn with_needs(
    instruction: &Instruction,
    slots: usize,
    registers: usize,
) -> Result<(usize, usize), AllocError>
    ensures sized { IfOk result (λ r. IsSized r.0 r.1 instruction.now) }
    ensures slots { IfOk result (λ r. slots ≤ r.0) }
    ensures registers { IfOk result (λ r. registers ≤ r.1) }
{
    match instruction {
        Instruction::GetLevel(slot) => {
            let behind = slot.checked_add(1).ok_or(AllocError)?;
            Ok((slots.max(behind), registers))
        }
        Instruction::Call(call) | Instruction::Execute(call) => {
            Ok((slots, registers.max(call.arguments.registers)))
        }
        Instruction::Is(_, _)
        | Instruction::Compare(_, _)
        | Instruction::Proceed
        | Instruction::Cut(_)
        | Instruction::TryElse(_)
        | Instruction::Jump(_) => Ok((slots, registers)),
    }
}

/// How many slots and registers the code of a body needs, at least so many. The error is that no memory holds so many.
fn needs(
    body: &Vec<Instruction>,
    slots: usize,
    registers: usize,
) -> Result<(usize, usize), AllocError>
    ensures sized { IfOk result (λ r. AreSized r.0 r.1 body.now.items) }
    ensures slots { IfOk result (λ r. slots ≤ r.0) }
    ensures registers { IfOk result (λ r. registers ≤ r.1) }
{
    let mut slots = slots;
    let mut registers = registers;
    for instruction in body {
        (slots, registers) = with_needs(instruction, slots, registers)?;
    }
    Ok((slots, registers))
}

/// The variables of a clause that get their value from `is/2`, as `births` says. There are none in a goal, whose
/// variables are asked for behind it. The error is that memory was refused.
fn births_in(
    alloc: Global,
    has_head: bool,
    met: &[bool],
    code: &mut Vec<Instruction>,
) -> Result<Vec<bool>, AllocError>
    ensures gives { IfOk result (λ born. GivesValues met.now code.old.items code.new.items born.items) }
    ensures asked { IfOk result (λ born. has_head ≡ false → (x : ℕ) → get_or born.items x false ≡ false) }
{
    if has_head {
        return births(alloc, met, code);
    }
    let all = vec![in alloc; true; met.len()]?;
    let born = births(alloc, all.as_slice(), code)?;
    Ok(born)
}

/// The code of a clause or a goal, with this plan of its variables. The error is that memory was refused.
pub fn compile(alloc: Global, prepared: &Prepared, plan: &Plan) -> Result<Code, AllocError>
    requires { IsPlan plan.now prepared.now }
    ensures { IfOk result (IsCode prepared.now plan.now) }
{
    let head = prepared.head();
    let Head { gets, emitter } = compile_head(alloc, plan, head_arguments(head))?;
    let mut met = emitter.met;
    let parts = prepared.constructs(alloc)?;
    let mut body = body_code(alloc, plan, head.is_some(), parts.as_slice())?;
    let born = births_in(alloc, head.is_some(), met.as_slice(), &mut body)?;
    let fresh = fresh_variables(alloc, plan, born.as_slice(), &mut met)?;
    let (slots, registers) = needs(&body, plan.slots(), emitter.next)?;
    Ok(Code {
        gets,
        blocks: emitter.code,
        fresh,
        body,
        slots,
        registers,
    })
}
