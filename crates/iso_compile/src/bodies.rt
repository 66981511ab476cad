//! The code of bodies: calls, arithmetic, cuts, and the control constructs (7.8). It is emitted from the end of the clause on, so
//! each address is known where it is needed.
ghost use Rattle.std.specs.Prelude.{◌≡◌, ◌+◌, ◌-◌, ◌<◌, ◌∷◌, [], length, IfOk, OnOk, List, Some};
ghost use Rattle.iso_model.specs.Terms.TermOf.{term_of};
ghost use Rattle.iso_model.specs.Search.Bodies.{Body};
ghost use Rattle.iso_prep.specs.Trees.{EndsWith, IsBorrowed};
ghost use Rattle.iso_compile.specs.Control.{Member, Goal, Continues, Does, IsRight, AreRight};
ghost use Rattle.iso_compile.specs.Emitting.{HasPlaced};
ghost use Rattle.iso_compile.specs.BodyTasks.{Adds, Ends, Grown, Leads, Turns, Works, next_load, task_load, tasks_load};
ghost use Rattle.iso_model.specs.Search.Bodies as body;
ghost use Rattle.iso_model.specs.declared.terms.Term.{Term};
ghost use Rattle.std.specs.Borrow.{Bor};
ghost use Rattle.iso_prep.specs.declared.bodies.Node.{Node};
ghost use Rattle.iso_alloc.specs.Plans.{Layout};
ghost use Rattle.iso_compile.specs.declared.control.Mark as mark;
ghost use Rattle.iso_compile.specs.declared.control.Mark.TheVariants.{Clause};

use super::arithmetic::compile_arithmetic;
use super::control::{Instruction, Mark};
use super::goals::{compile_goal, placed};
use iso_alloc::Plan;
use iso_model::Term;
use iso_prep::Node;
use std::alloc::{AllocError, Global};

/// A part of a body that is emitted next.
#[derive(Clone, Copy)]
struct Next {
    /// Its place among the parts.
    part: usize,
    /// Its cut mark.
    mark: Mark,
    /// The slots from this one on are free for levels.
    level: usize,
    /// The address at which the code goes on behind it.
    behind: usize,
}

/// What is left to be emitted before a part. Other parts are named by their places.
#[derive(Clone, Copy)]
enum Task {
    /// It is the second of a conjunction: the first, with its cut mark; the slots from this one on are free.
    And(usize, Mark, usize),
    /// It is the second of a disjunction: the first.
    Or(Next),
    /// It is the first of a disjunction: the alternative, at this address.
    Try(usize),
    /// It is what follows a condition: the condition, with its cut mark, and the cut behind it to the level that this
    /// slot keeps.
    Condition(usize, Mark, usize),
    /// It is the condition of an if-then: the level that this slot keeps.
    Commit(usize),
    /// It is the third of an if-then-else: the condition, and before that what follows it.
    Then(usize, Next),
    /// It is the condition of an if-then-else: the alternative, at this address, and the level that this slot keeps.
    Choose(usize, usize),
}

/// The address of the last instruction so far, which is where the code begins.
fn top(code: &Vec<Instruction>) -> usize
    ensures { result ≡ length code.now.items - 1 }
{
    code.len().saturating_sub(1)
}

/// Adds an instruction that goes on at this address. The error is that memory was refused.
fn add(
    code: &mut Vec<Instruction>,
    instruction: Instruction,
    behind: usize,
) -> Result<(), AllocError>
    requires { (plan : Layout) × (ms : List Member) × Continues plan code.old.items behind ms }
    ensures adds { OnOk result ((plan : Layout) → Adds plan code.old.items code.new.items instruction behind) }
    ensures grown { OnOk result (Grown code.old.items code.new.items) }
    ensures right { OnOk result ((plan : Layout) → AreRight plan code.old.items → IsRight plan instruction → AreRight plan code.new.items) }
{
    if top(code) != behind {
        code.push(Instruction::Jump(behind))?;
    }
    code.push(instruction)?;
    Ok(())
}

/// Adds the call of a goal that goes on at this address. The error is that memory was refused.
fn add_call(
    alloc: Global,
    plan: &Plan,
    met: &mut Vec<bool>,
    code: &mut Vec<Instruction>,
    goal: &Term,
    behind: usize,
) -> Result<(), AllocError>
    requires ends { Ends code.old.items }
    requires goes { (ms : List Member) × Continues plan.now code.old.items behind ms }
    requires met { HasPlaced plan.now.places met.old.items }
    ensures calls { OnOk result ((m : mark.Mark) (rest : List Member) → Continues plan.now code.old.items behind rest → Does plan.now code.new.items (Goal (body.Run (term_of goal.now)) m ∷ rest)) }
    ensures grown { OnOk result (Grown code.old.items code.new.items) }
    ensures right { OnOk result (AreRight plan.now code.old.items → AreRight plan.now code.new.items) }
    ensures met { OnOk result (HasPlaced plan.now.places met.new.items) }
{
    let call = compile_goal(alloc, plan, met, goal)?;
    if behind == 0 {
        code.push(Instruction::Execute(call))?;
        return Ok(());
    }
    add(code, Instruction::Call(call), behind)?;
    Ok(())
}

/// Adds a goal that goes on at this address: arithmetic in line, or a call. The error is that memory was refused.
fn add_goal(
    alloc: Global,
    plan: &Plan,
    met: &mut Vec<bool>,
    code: &mut Vec<Instruction>,
    goal: &Term,
    behind: usize,
) -> Result<(), AllocError>
    requires ends { Ends code.old.items }
    requires goes { (ms : List Member) × Continues plan.now code.old.items behind ms }
    requires met { HasPlaced plan.now.places met.old.items }
    ensures does { OnOk result ((m : mark.Mark) (rest : List Member) → Continues plan.now code.old.items behind rest → Does plan.now code.new.items (Goal (body.Run (term_of goal.now)) m ∷ rest)) }
    ensures grown { OnOk result (Grown code.old.items code.new.items) }
    ensures right { OnOk result (AreRight plan.now code.old.items → AreRight plan.now code.new.items) }
    ensures met { OnOk result (HasPlaced plan.now.places met.new.items) }
{
    match compile_arithmetic(alloc, plan, met, goal)? {
        Some(instruction) => add(code, instruction, behind),
        None => add_call(alloc, plan, met, code, goal, behind),
    }
}

/// Emits a part without others in it, or leaves all but the last of its own, which is the next to be emitted. The error
/// is that memory was refused.
fn emit_part(
    alloc: Global,
    plan: &Plan,
    met: &mut Vec<bool>,
    parts: &[Node<&Term>],
    next: Next,
    code: &mut Vec<Instruction>,
    tasks: &mut Vec<Task>,
) -> Result<Option<Next>, AllocError>
    requires ends { Ends code.old.items }
    requires met { HasPlaced plan.now.places met.old.items }
    requires works { (whole : List Member) × Works plan.now parts.now code.old.items tasks.old.items (Some next) whole }
    ensures works { IfOk result (λ then. (whole : List Member) → Works plan.now parts.now code.old.items tasks.old.items (Some next) whole → Works plan.now parts.now code.new.items tasks.new.items then whole) }
    ensures ends { OnOk result (Ends code.new.items) }
    ensures right { OnOk result (AreRight plan.now code.old.items → AreRight plan.now code.new.items) }
    ensures met { OnOk result (HasPlaced plan.now.places met.new.items) }
    ensures load { IfOk result (λ then. next_load then + tasks_load tasks.new.items < next_load (Some next) + tasks_load tasks.old.items) }
{
    let part = next.part;
    let last = part.saturating_sub(1);
    let node = parts[part];
    match node {
        Node::Run(goal) => {
            add_goal(alloc, plan, met, code, goal, next.behind)?;
            return Ok(None);
        }
        Node::Cut => {
            add(code, Instruction::Cut(next.mark), next.behind)?;
            return Ok(None);
        }
        Node::And(first) => {
            let first = part.saturating_sub(first);
            tasks.push(Task::And(first, next.mark, next.level))?;
        }
        Node::Or(first) => {
            let part = part.saturating_sub(first);
            tasks.push(Task::Or(Next { part, ..next }))?;
        }
        Node::If(condition) => {
            let condition = part.saturating_sub(condition);
            tasks.push(Task::Commit(next.level))?;
            tasks.push(Task::Condition(condition, Mark::Level(next.level), next.level))?;
        }
        Node::Choose(condition, then) => {
            let condition = part.saturating_sub(condition);
            let part = part.saturating_sub(then);
            tasks.push(Task::Then(condition, Next { part, ..next }))?;
        }
    }
    Ok(Some(Next { part: last, ..next }))
}

/// Emits what is left before a part, or goes on with the next one. The error is that memory was refused.
fn go_on(
    task: Task,
    code: &mut Vec<Instruction>,
    tasks: &mut Vec<Task>,
) -> Result<Option<Next>, AllocError>
    requires ends { Ends code.old.items }
    ensures works { IfOk result (λ next. (plan : Layout) (parts : List (Node (Bor Term))) (ms ns whole : List Member) → Does plan code.old.items ms → Turns plan parts code.old.items task ms ns → Leads plan parts code.old.items tasks.old.items ns whole
        → Works plan parts code.new.items tasks.new.items next whole) }
    ensures ends { OnOk result (Ends code.new.items) }
    ensures right { OnOk result ((plan : Layout) → AreRight plan code.old.items → AreRight plan code.new.items) }
    ensures load { IfOk result (λ next. next_load next + tasks_load tasks.new.items < task_load task + tasks_load tasks.old.items) }
{
    let behind = top(code);
    match task {
        Task::And(part, mark, level) => Ok(Some(Next {
            part,
            mark,
            level,
            behind,
        })),
        Task::Or(next) => {
            tasks.push(Task::Try(behind))?;
            Ok(Some(next))
        }
        Task::Try(other) => {
            code.push(Instruction::TryElse(other))?;
            Ok(None)
        }
        Task::Condition(part, mark, slot) => {
            code.push(Instruction::Cut(Mark::Level(slot)))?;
            Ok(Some(Next {
                part,
                mark,
                level: slot.checked_add(1).ok_or(AllocError)?,
                behind: top(code),
            }))
        }
        Task::Commit(slot) => {
            code.push(Instruction::GetLevel(slot))?;
            Ok(None)
        }
        Task::Then(condition, next) => {
            let slot = next.level;
            tasks.push(Task::Choose(behind, slot))?;
            tasks.push(Task::Condition(condition, Mark::AboveLevel(slot), slot))?;
            Ok(Some(next))
        }
        Task::Choose(other, slot) => {
            code.push(Instruction::TryElse(other))?;
            code.push(Instruction::GetLevel(slot))?;
            Ok(None)
        }
    }
}

/// The code of a body whose parts these are. It has its last instruction first. The error is that memory was refused.
pub fn compile_body(
    alloc: Global,
    plan: &Plan,
    parts: &[Node<&Term>],
) -> Result<Vec<Instruction>, AllocError>
    requires { (b : Body) × EndsWith IsBorrowed parts.now b }
    ensures does { IfOk result (λ code. (b : Body) → EndsWith IsBorrowed parts.now b → Does plan.now code.items (Goal b Clause ∷ [])) }
    ensures right { IfOk result (λ code. AreRight plan.now code.items) }
{
    let mut met = placed(alloc, plan)?;
    let mut code = Vec::new(alloc);
    code.push(Instruction::Proceed)?;
    let mut tasks = Vec::new(alloc);
    let mut next = Some(Next {
        part: parts.len().saturating_sub(1),
        mark: Mark::Clause,
        level: plan.slots(),
        behind: 0,
    });
    'emitting: loop {
        next = match next {
            Some(part) => emit_part(alloc, plan, &mut met, parts, part, &mut code, &mut tasks)?,
            None => match tasks.pop() {
                Some(task) => go_on(task, &mut code, &mut tasks)?,
                None => return Ok(code),
            },
        };
    }
}
