//! Arithmetic evaluation and comparison (8.6, 8.7).
ghost use Rattle.std.specs.Prelude.{◌≡◌, ◌≢◌, ◌<◌, IfOk, Err, length};
ghost use Rattle.std.specs.List.{All};
ghost use Rattle.iso_model.specs.Terms.Trees.{Tree};
ghost use Rattle.iso_model.specs.Terms.Arguments.{arity};
ghost use Rattle.iso_model.specs.Search.Errors.{key, raised as raised_by};
ghost use Rattle.iso_model.specs.Search.Arithmetic.{Value, value};
ghost use Rattle.iso_model.specs.Search.Library.{library_answer, comparison_name, compares};
ghost use Rattle.iso_model.specs.declared.kinds.Library.TheVariants as row;
ghost use Rattle.iso_store_core.specs.Presents.{Holds, meaning};
ghost use Rattle.iso_store_core.specs.Retaining.{RetainsAll, Takes};
ghost use Rattle.iso_store_core.specs.ArgumentWords.{AreArguments};
ghost use Rattle.iso_arith.specs.Evaluables.{AreEvaluables};
ghost use Rattle.iso_arith.specs.Faults.{IsFault, error_of};
ghost use Rattle.iso_lib_core.specs.Cells.{made_for};
ghost use Rattle.iso_lib_core.specs.Replies.{IsReply, IsNumber, IsError};

use iso_arith::{EvalFault, Evaluables, Refusal, eval};
use iso_lib_core::{Fault, Reply, equate_integer, errors, tested};
use iso_model::{Ball, Comparison, NoMemory, Term};
use iso_store_core::Store;
use std::alloc::Global;

/// The error of an operation that has no value, raised by this procedure (7.9.2).
fn refused(alloc: Global, refusal: Refusal, name: &str, arity: usize) -> Result<Ball, NoMemory>
    requires { arity < 256 }
    ensures { IfOk result (IsError (raised_by (error_of refusal) (key name.now arity))) }
{
    match refusal {
        Refusal::Overflow => errors::evaluation(alloc, "int_overflow", name, arity),
        Refusal::ZeroDivisor => errors::evaluation(alloc, "zero_divisor", name, arity),
        Refusal::Undefined => errors::evaluation(alloc, "undefined", name, arity),
        Refusal::NotFloat(value) => {
            errors::wrong_type(alloc, "float", Term::Int(value), name, arity)
        }
    }
}

/// The error of an expression that has no value, raised by this procedure (7.9.2); or memory was refused.
#[inline(never)]
pub fn raised<S: Store>(
    alloc: Global,
    store: &S,
    fault: EvalFault,
    name: &str,
    arity: usize,
) -> Fault
    requires arity { arity < 256 }
    requires fault { (v : Value) × IsFault (S.names store.now) fault v }
    ensures { (v : Value) → IsFault (S.names store.now) fault v → IsNumber v (key name.now arity) (Err result) }
{
    let ball = match fault {
        EvalFault::Unbound => errors::instantiation(alloc, name, arity),
        EvalFault::NotEvaluable(functor, count) => {
            errors::not_evaluable(alloc, store.text(functor), count, name, arity)
        }
        EvalFault::Refused(refusal) => refused(alloc, refusal, name, arity),
        EvalFault::NoMemory => return Fault::NoMemory,
    };
    match ball {
        Ok(ball) => Fault::Raise(ball),
        Err(_) => Fault::NoMemory,
    }
}

/// The value of the expression. The errors: it has none, and this procedure raises its error, or memory was refused.
#[inline(always)]
fn evaluate<S: Store>(
    alloc: Global,
    store: &S,
    evaluables: &Evaluables,
    expression: S::Word,
    name: &str,
    arity: usize,
) -> Result<i128, Fault>
    requires expression { Holds (S.present store.now) expression }
    requires evaluables { AreEvaluables (S.names store.now) evaluables.now }
    requires arity { arity < 256 }
    ensures { IsNumber (value (meaning (S.present store.now) expression)) (key name.now arity) result }
{
    match eval(alloc, store, evaluables, expression) {
        Ok(value) => Ok(value),
        Err(fault) => Err(raised(alloc, store, fault, name, arity)),
    }
}

/// `is/2` (8.6.1). The errors: one is raised, the store is full, or memory was refused.
#[inline(never)]
pub(crate) fn is<S: Store>(
    alloc: Global,
    store: &mut S,
    evaluables: &Evaluables,
    arguments: &[S::Word],
) -> Result<Reply, Fault>
    requires arguments { All (λ w. Holds (S.present store.old) w) arguments.now }
    requires count { length arguments.now ≡ 2 }
    requires evaluables { AreEvaluables (S.names store.old) evaluables.now }
    ensures replies { (t : Tree) → AreArguments (S.present store.old) arguments.now t
        → IsReply (S.present store.old) (S.present store.new) (library_answer row.Is t) result }
    ensures full { result ≡ Err Fault.Full → S.full store.new }
    ensures cells { (t : Tree) → AreArguments (S.present store.old) arguments.now t
        → Takes S.Store store.old store.new (made_for (library_answer row.Is t)) }
    ensures rest { RetainsAll S.Store store.old store.new }
{
    let (left, expression) = (arguments[0], arguments[1]);
    let value = evaluate(alloc, store, evaluables, expression, "is", 2)?;
    equate_integer(store, left, value)
}

/// The name of a comparison.
pub fn name_of(comparison: Comparison) -> &'static str
    ensures { result.now ≡ comparison_name comparison }
{
    match comparison {
        Comparison::Equal => "=:=",
        Comparison::Unequal => "=\\=",
        Comparison::Less => "<",
        Comparison::AtMost => "=<",
        Comparison::Greater => ">",
        Comparison::AtLeast => ">=",
    }
}

/// Whether the two integers compare so.
pub fn holds(comparison: Comparison, left: i128, right: i128) -> bool
    ensures { result ≡ compares comparison left right }
{
    match comparison {
        Comparison::Equal => left == right,
        Comparison::Unequal => left != right,
        Comparison::Less => left < right,
        Comparison::AtMost => left <= right,
        Comparison::Greater => left > right,
        Comparison::AtLeast => left >= right,
    }
}

/// A comparison of two values (8.7), of which the left one is found first. The errors: one is raised, or memory was
/// refused.
#[inline(never)]
pub(crate) fn compare<S: Store>(
    alloc: Global,
    store: &S,
    evaluables: &Evaluables,
    comparison: Comparison,
    arguments: &[S::Word],
) -> Result<Reply, Fault>
    requires arguments { All (λ w. Holds (S.present store.now) w) arguments.now }
    requires count { length arguments.now ≡ 2 }
    requires evaluables { AreEvaluables (S.names store.now) evaluables.now }
    ensures replies { (t : Tree) → AreArguments (S.present store.now) arguments.now t
        → IsReply (S.present store.now) (S.present store.now) (library_answer (row.Compare comparison) t) result }
    ensures full { result ≢ Err Fault.Full }
{
    let name = name_of(comparison);
    let left = evaluate(alloc, store, evaluables, arguments[0], name, 2)?;
    let right = evaluate(alloc, store, evaluables, arguments[1], name, 2)?;
    Ok(tested(holds(comparison, left, right)))
}
