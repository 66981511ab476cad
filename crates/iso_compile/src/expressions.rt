//! The code of expressions that a clause has written out (7.9): steps that leave values on a stack.
ghost use Rattle.std.specs.Prelude.{◌≡◌, [], ◌∷◌, ◌++◌, true, false, map, length, is_some, IfOk, OnOk};
ghost use Rattle.std.specs.String.{string_bytes};
ghost use Rattle.iso_model.specs.Terms.Trees.{Apply, More, End};
ghost use Rattle.iso_model.specs.Terms.TermOf.{term_of, row_of};
ghost use Rattle.iso_model.specs.Search.Arithmetic.{among, operations_of_one, operations_of_two};
ghost use Rattle.iso_compile.specs.Emitting.{without_voids};
ghost use Rattle.iso_compile.specs.Tasks.{is_atomic};
ghost use Rattle.iso_compile.specs.Expressions.{is_known, steps_of, step_of, step_parts, Emits, Leaves, StepMarks, task_known, task_load, task_steps, term_load};

use super::emitting::compound;
use super::goals::forget_part;
use super::instructions::Part;
use super::parts::part_in;
use iso_alloc::Plan;
use iso_model::Term;
use std::alloc::{AllocError, Global};

/// A step of an expression's code. The steps are done one after the other; an error ends them.
#[derive(Drop)]
pub enum Step {
    /// Leaves the value of a constant, or of the expression that a variable stands for.
    Value(Part),
    /// Takes the last value, and leaves what the operation of this name makes of it (9.1, 9.4).
    One(String),
    /// Takes the last two values, and leaves what the operation of this name makes of them (9.1, 9.3, 9.4).
    Two(String),
}

/// What is left to be emitted, the last task first.
#[derive(Clone, Copy)]
enum Task<'t> {
    /// The steps of an expression.
    Expression(&'t Term),
    /// An operation on one value.
    One(&'t String),
    /// An operation on two values.
    Two(&'t String),
}

/// Whether an operation on one value has this name.
fn is_operation_on_one(name: &str) -> bool
    ensures { result ≡ is_some (among operations_of_one name.now) }
{
    matches!(name, "-" | "abs" | "sign" | "\\")
}

/// Whether an operation on two values has this name.
fn is_operation_on_two(name: &str) -> bool
    ensures { result ≡ is_some (among operations_of_two name.now) }
{
    matches!(
        name,
        "+" | "-"
            | "*"
            | "//"
            | "rem"
            | "div"
            | "mod"
            | "/"
            | "min"
            | "max"
            | "^"
            | "/\\"
            | "\\/"
            | "<<"
            | ">>"
    )
}

/// Leaves an operation on one value and its operand to be emitted; false where there is no such operation. The error is
/// that memory was refused.
fn leave_one<'t>(
    name: &'t String,
    operand: &'t Term,
    tasks: &mut Vec<Task<'t>>,
) -> Result<bool, AllocError>
    ensures known { IfOk result (λ known. known ≡ true → Leaves (Apply (string_bytes name.now) (More (term_of operand.now) End)) tasks.old.items tasks.new.items) }
    ensures unknown { IfOk result (λ known. known ≡ false → is_known (Apply (string_bytes name.now) (More (term_of operand.now) End)) ≡ false) }
{
    if !is_operation_on_one(name.as_str()) {
        return Ok(false);
    }
    tasks.push(Task::One(name))?;
    tasks.push(Task::Expression(operand))?;
    Ok(true)
}

/// Leaves an operation on two values and its operands to be emitted; false where there is no such operation. The error
/// is that memory was refused.
fn leave_two<'t>(
    name: &'t String,
    left: &'t Term,
    right: &'t Term,
    tasks: &mut Vec<Task<'t>>,
) -> Result<bool, AllocError>
    ensures known { IfOk result (λ known. known ≡ true → Leaves (Apply (string_bytes name.now) (More (term_of left.now) (More (term_of right.now) End))) tasks.old.items tasks.new.items) }
    ensures unknown { IfOk result (λ known. known ≡ false → is_known (Apply (string_bytes name.now) (More (term_of left.now) (More (term_of right.now) End))) ≡ false) }
{
    if !is_operation_on_two(name.as_str()) {
        return Ok(false);
    }
    tasks.push(Task::Two(name))?;
    tasks.push(Task::Expression(right))?;
    tasks.push(Task::Expression(left))?;
    Ok(true)
}

/// Leaves an operation, and what it is applied to, to be emitted; false where there is no such operation. The error is
/// that memory was refused.
fn leave_operation<'t>(
    name: &'t String,
    arguments: &'t [Term],
    tasks: &mut Vec<Task<'t>>,
) -> Result<bool, AllocError>
    ensures known { IfOk result (λ known. known ≡ true → Leaves (Apply (string_bytes name.now) (row_of arguments.now)) tasks.old.items tasks.new.items) }
    ensures unknown { IfOk result (λ known. known ≡ false → is_known (Apply (string_bytes name.now) (row_of arguments.now)) ≡ false) }
{
    match arguments {
        [operand] => leave_one(name, operand, tasks),
        [left, right] => leave_two(name, left, right, tasks),
        _ => Ok(false),
    }
}

/// Emits the step of a variable or an integer; false for an atom. The error is that memory was refused.
fn emit_atomic(
    plan: &Plan,
    met: &mut Vec<bool>,
    term: &Term,
    steps: &mut Vec<Step>,
) -> Result<bool, AllocError>
    requires many { length met.old.items ≡ length plan.now.places }
    requires atomic { is_atomic (term_of term.now) ≡ true }
    ensures known { IfOk result (λ known. known ≡ is_known (term_of term.now)) }
    ensures steps { IfOk result (λ known. known ≡ true → map step_of steps.new.items ≡ map step_of steps.old.items ++ steps_of (term_of term.now)) }
    ensures marks { OnOk result (StepMarks plan.now.places steps.old.items met.old.items → StepMarks plan.now.places steps.new.items met.new.items) }
    ensures many { length met.new.items ≡ length met.old.items }
{
    match term {
        Term::Var(_) | Term::Int(_) => {
            let part = part_in(plan, met, 0, term)?;
            steps.push(Step::Value(part))?;
            Ok(true)
        }
        Term::Atom(_) | Term::Compound(_, _) => Ok(false),
    }
}

/// Emits the step of an expression without operations, or leaves what an operation is applied to and the operation
/// itself. False where its functor is none of an operation. The error is that memory was refused.
fn emit_expression<'t>(
    plan: &Plan,
    met: &mut Vec<bool>,
    term: &'t Term,
    tasks: &mut Vec<Task<'t>>,
    steps: &mut Vec<Step>,
) -> Result<bool, AllocError>
    requires { length met.old.items ≡ length plan.now.places }
    ensures known { IfOk result (λ known. known ≡ true → Emits (steps_of (term_of term.now)) (is_known (term_of term.now)) (term_load (term_of term.now)) steps.old.items tasks.old.items steps.new.items tasks.new.items) }
    ensures unknown { IfOk result (λ known. known ≡ false → is_known (term_of term.now) ≡ false) }
    ensures marks { OnOk result (StepMarks plan.now.places steps.old.items met.old.items → StepMarks plan.now.places steps.new.items met.new.items) }
    ensures many { length met.new.items ≡ length met.old.items }
{
    match compound(term) {
        Some((name, arguments)) => leave_operation(name, arguments, tasks),
        None => emit_atomic(plan, met, term, steps),
    }
}

/// Does a task. False where the functor of an expression is none of an operation. The error is that memory was refused.
fn do_task<'t>(
    plan: &Plan,
    met: &mut Vec<bool>,
    task: Task<'t>,
    tasks: &mut Vec<Task<'t>>,
    steps: &mut Vec<Step>,
) -> Result<bool, AllocError>
    requires { length met.old.items ≡ length plan.now.places }
    ensures known { IfOk result (λ known. known ≡ true → Emits (task_steps task.entry) (task_known task.entry) (task_load task.entry) steps.old.items tasks.old.items steps.new.items tasks.new.items) }
    ensures unknown { IfOk result (λ known. known ≡ false → task_known task.entry ≡ false) }
    ensures marks { OnOk result (StepMarks plan.now.places steps.old.items met.old.items → StepMarks plan.now.places steps.new.items met.new.items) }
    ensures many { length met.new.items ≡ length met.old.items }
{
    match task {
        Task::Expression(term) => emit_expression(plan, met, term, tasks, steps),
        Task::One(name) => {
            steps.push(Step::One(name.clone()?))?;
            Ok(true)
        }
        Task::Two(name) => {
            steps.push(Step::Two(name.clone()?))?;
            Ok(true)
        }
    }
}

/// Emits the steps of an expression. False where a functor in it is none of an operation. The error is that memory was
/// refused.
pub(crate) fn emit_steps(
    alloc: Global,
    plan: &Plan,
    met: &mut Vec<bool>,
    term: &Term,
    steps: &mut Vec<Step>,
) -> Result<bool, AllocError>
    requires { length met.old.items ≡ length plan.now.places }
    ensures known { IfOk result (λ known. known ≡ is_known (term_of term.now)) }
    ensures steps { IfOk result (λ known. known ≡ true → map step_of steps.new.items ≡ map step_of steps.old.items ++ steps_of (term_of term.now)) }
    ensures marks { OnOk result (StepMarks plan.now.places steps.old.items met.old.items → StepMarks plan.now.places steps.new.items met.new.items) }
    ensures many { length met.new.items ≡ length met.old.items }
{
    let mut tasks = Vec::new(alloc);
    tasks.push(Task::Expression(term))?;
    while let Some(task) = tasks.pop() {
        if !do_task(plan, met, task, &mut tasks, steps)? {
            return Ok(false);
        }
    }
    Ok(true)
}

/// Forgets the void variable whose value this step takes.
fn forget_step(met: &mut Vec<bool>, step: &Step)
    ensures { met.new.items ≡ without_voids met.old.items (step_parts (step.now ∷ [])) }
{
    match step {
        Step::Value(part) => forget_part(met, part),
        Step::One(_) | Step::Two(_) => {}
    }
}

/// Forgets the void variables whose values these steps take.
pub(crate) fn forget_steps(met: &mut Vec<bool>, steps: &[Step])
    ensures { met.new.items ≡ without_voids met.old.items (step_parts steps.now) }
{
    for step in steps {
        forget_step(met, step);
    }
}
