//! Expressions are evaluated (7.9): small ones at once, others by a list of what is left to do, so that the stack of the
//! host stays as it is.
ghost use Rattle.std.specs.Prelude.{◌≡◌, ◌<◌, ◌+◌, Ok, IfOk, OnOk};
ghost use Rattle.std.specs.List.{All};
ghost use Rattle.iso_model.specs.Search.Arithmetic as expressions;
ghost use Rattle.iso_store_core.specs.Presents.{Holds, meaning};
ghost use Rattle.iso_arith.specs.Faults.{IsAnswer};
ghost use Rattle.iso_arith.specs.Operations.{does_binary};
ghost use Rattle.iso_arith.specs.Evaluables.{AreEvaluables};
ghost use Rattle.iso_arith.specs.Evaluations.{IsTask, IsNext, IsStep, IsCall, task_value, term_load, task_load, tasks_load, next_load};

use super::evaluables::Evaluables;
use super::faults::EvalFault;
use super::operations::{Binary, Unary};
use super::shorts::short_eval;
use iso_atoms::Atom;
use iso_store_core::{Shape, Store};
use std::alloc::Global;

/// What is left to do with a value.
#[derive(Clone, Copy)]
enum Task<W: Copy> {
    /// It is the argument of this operation.
    Apply(Unary),
    /// It is the left argument of this operation, and this is the right one, which is to be evaluated.
    Right(Binary, W),
    /// It is the right argument of this operation, and this is the value of the left one.
    Combine(Binary, i128),
}

/// What comes next.
#[derive(Clone, Copy)]
enum Next<W: Copy> {
    /// This expression is to be evaluated.
    Term(W),
    /// This is a value.
    Value(i128),
}

/// Goes on with the right argument of the operation, where this is the value of the left one: it is an integer, and the
/// operation is done at once, or it comes next.
#[inline(always)]
fn with_left<S: Store>(
    store: &S,
    operation: Binary,
    left: i128,
    right: S::Word,
    tasks: &mut Vec<Task<S::Word>>,
) -> Result<Next<S::Word>, EvalFault>
    requires right { Holds (S.present store.now) right }
    requires tasks { All (IsTask (S.present store.now)) tasks.old.items }
    ensures tasks { OnOk result (All (IsTask (S.present store.now)) tasks.new.items) }
    ensures next { IfOk result (IsNext (S.present store.now)) }
    ensures step { IsStep (S.present store.now) (S.names store.now) tasks.old.items tasks.new.items result (expressions.with_value (expressions.value (meaning (S.present store.now) right)) (does_binary operation left)) }
    ensures load { IfOk result (λ next. next_load (S.present store.now) next + tasks_load (S.present store.now) tasks.new.items
        < 2 + term_load (meaning (S.present store.now) right) + tasks_load (S.present store.now) tasks.old.items) }
{
    if let Shape::Int(value) = store.shape(right) {
        return Ok(Next::Value(operation.of(left, value)?));
    }
    tasks.push(Task::Combine(operation, left))?;
    Ok(Next::Term(right))
}

/// Begins with a compound of this name and so many arguments: it is no evaluable, or its first argument comes next.
fn begin_compound<S: Store>(
    store: &S,
    evaluables: &Evaluables,
    name: Atom,
    count: usize,
    word: S::Word,
    tasks: &mut Vec<Task<S::Word>>,
) -> Result<Next<S::Word>, EvalFault>
    requires word { Holds (S.present store.now) word }
    requires call { IsCall (S.names store.now) name count (meaning (S.present store.now) word) }
    requires evaluables { AreEvaluables (S.names store.now) evaluables.now }
    requires tasks { All (IsTask (S.present store.now)) tasks.old.items }
    ensures tasks { OnOk result (All (IsTask (S.present store.now)) tasks.new.items) }
    ensures next { IfOk result (IsNext (S.present store.now)) }
    ensures step { IsStep (S.present store.now) (S.names store.now) tasks.old.items tasks.new.items result (expressions.value (meaning (S.present store.now) word)) }
    ensures load { IfOk result (λ next. next_load (S.present store.now) next + tasks_load (S.present store.now) tasks.new.items
        < term_load (meaning (S.present store.now) word) + tasks_load (S.present store.now) tasks.old.items) }
{
    match count {
        1 => {
            let Some(operation) = evaluables.unary(name) else {
                return Err(EvalFault::NotEvaluable(name, 1));
            };
            tasks.push(Task::Apply(operation))?;
            Ok(Next::Term(store.arg(word, 0)))
        }
        2 => {
            let Some(operation) = evaluables.binary(name) else {
                return Err(EvalFault::NotEvaluable(name, 2));
            };
            let (left, right) = (store.arg(word, 0), store.arg(word, 1));
            if let Shape::Int(value) = store.shape(left) {
                return with_left(store, operation, value, right, tasks);
            }
            tasks.push(Task::Right(operation, right))?;
            Ok(Next::Term(left))
        }
        _ => Err(EvalFault::NotEvaluable(name, count)),
    }
}

/// Begins with an expression: it has a value or an error, or its first argument comes next.
fn begin<S: Store>(
    store: &S,
    evaluables: &Evaluables,
    word: S::Word,
    tasks: &mut Vec<Task<S::Word>>,
) -> Result<Next<S::Word>, EvalFault>
    requires word { Holds (S.present store.now) word }
    requires evaluables { AreEvaluables (S.names store.now) evaluables.now }
    requires tasks { All (IsTask (S.present store.now)) tasks.old.items }
    ensures tasks { OnOk result (All (IsTask (S.present store.now)) tasks.new.items) }
    ensures next { IfOk result (IsNext (S.present store.now)) }
    ensures step { IsStep (S.present store.now) (S.names store.now) tasks.old.items tasks.new.items result (expressions.value (meaning (S.present store.now) word)) }
    ensures load { IfOk result (λ next. next_load (S.present store.now) next + tasks_load (S.present store.now) tasks.new.items
        < term_load (meaning (S.present store.now) word) + tasks_load (S.present store.now) tasks.old.items) }
{
    match store.shape(word) {
        Shape::Var(_) => Err(EvalFault::Unbound),
        Shape::Int(value) => Ok(Next::Value(value)),
        Shape::Atom(name) => Err(EvalFault::NotEvaluable(name, 0)),
        Shape::Compound(name, count) => {
            begin_compound(store, evaluables, name, count, word, tasks)
        }
    }
}

/// Goes on with a value: the task makes another one of it, or the right argument comes next.
fn go_on<S: Store>(
    store: &S,
    task: Task<S::Word>,
    value: i128,
    tasks: &mut Vec<Task<S::Word>>,
) -> Result<Next<S::Word>, EvalFault>
    requires task { IsTask (S.present store.now) task }
    requires tasks { All (IsTask (S.present store.now)) tasks.old.items }
    ensures tasks { OnOk result (All (IsTask (S.present store.now)) tasks.new.items) }
    ensures next { IfOk result (IsNext (S.present store.now)) }
    ensures step { IsStep (S.present store.now) (S.names store.now) tasks.old.items tasks.new.items result (task_value (S.present store.now) task (Ok value)) }
    ensures load { IfOk result (λ next. next_load (S.present store.now) next + tasks_load (S.present store.now) tasks.new.items
        < task_load (S.present store.now) task + tasks_load (S.present store.now) tasks.old.items) }
{
    match task {
        Task::Apply(operation) => Ok(Next::Value(operation.of(value)?)),
        Task::Combine(operation, left) => Ok(Next::Value(operation.of(left, value)?)),
        Task::Right(operation, word) => with_left(store, operation, value, word, tasks),
    }
}

/// The value of any expression, or why it has none, by a list of what is left to do.
#[inline(never)]
fn eval_any<S: Store>(
    alloc: Global,
    store: &S,
    evaluables: &Evaluables,
    expression: S::Word,
) -> Result<i128, EvalFault>
    requires expression { Holds (S.present store.now) expression }
    requires evaluables { AreEvaluables (S.names store.now) evaluables.now }
    ensures { IsAnswer (S.names store.now) result (expressions.value (meaning (S.present store.now) expression)) }
{
    let mut tasks = Vec::new(alloc);
    let mut next = Next::Term(expression);
    'evaluating: loop {
        next = match next {
            Next::Term(word) => begin(store, evaluables, word, &mut tasks)?,
            Next::Value(value) => match tasks.pop() {
                Some(task) => go_on(store, task, value, &mut tasks)?,
                None => return Ok(value),
            },
        };
    }
}

/// The value of the expression that the word stands for, or why it has none. The store isn't changed.
#[inline(always)]
pub fn eval<S: Store>(
    alloc: Global,
    store: &S,
    evaluables: &Evaluables,
    expression: S::Word,
) -> Result<i128, EvalFault>
    requires expression { Holds (S.present store.now) expression }
    requires evaluables { AreEvaluables (S.names store.now) evaluables.now }
    ensures { IsAnswer (S.names store.now) result (expressions.value (meaning (S.present store.now) expression)) }
{
    match short_eval(store, evaluables, expression) {
        Some(value) => Ok(i128::from(value)),
        None => eval_any(alloc, store, evaluables, expression),
    }
}
