//! The steps of an expression (7.9): each takes values from a stack and leaves one.
ghost use Rattle.std.specs.Prelude.{◌≡◌, ◌<◌, ℕ, List, [], ◌∷◌, reverse, length, IfErr};
ghost use Rattle.std.specs.List.{All, AllZip};
ghost use Rattle.iso_model.specs.Terms.Substitutions.{Subst};
ghost use Rattle.iso_store_core.specs.Presents.{Holds};
ghost use Rattle.iso_arith.specs.Evaluables.{AreEvaluables};
ghost use Rattle.iso_arith.specs.Faults.{IsAnswer};
ghost use Rattle.iso_arith.specs.Operations.{does_unary, does_binary};
ghost use Rattle.iso_compile.specs.Expressions as expressions;
ghost use Rattle.iso_instructions.specs.Steps.{IsStep, IsStepThere, IsThere};
ghost use Rattle.iso_evaluation.specs.Running.{StandFor, Leaves, CanBeRaised, operand_value, with_last, with_last_two, missed};

use iso_arith::{Binary, EvalFault, Evaluables, Unary, eval};
use iso_atoms::Atom;
use iso_code::Operand;
use iso_instructions::Step;
use iso_store_core::{Shape, Store};
use std::alloc::Global;

/// The value of the expression that an operand stands for. The errors: it has none, or memory was refused.
#[inline(always)]
pub(crate) fn value_of<S: Store>(
    alloc: Global,
    store: &S,
    evaluables: &Evaluables,
    operand: &Operand,
    environment: &[S::Word],
) -> Result<i128, EvalFault>
    requires evaluables { AreEvaluables (S.names store.now) evaluables.now }
    requires operand { IsThere (length (S.names store.now)) (length environment.now) operand.now }
    requires environment { All (Holds (S.present store.now)) environment.now }
    ensures value { (next : ℕ) (s : Subst) → StandFor (S.present store.now) environment.now next s
        → IsAnswer (S.names store.now) result (operand_value (S.names store.now) next s operand.now) }
    ensures error { IfErr result (CanBeRaised (S.names store.now)) }
{
    match operand {
        Operand::New(variable) | Operand::Old(variable) => {
            let word = environment[*variable];
            match store.shape(word) {
                Shape::Int(value) => Ok(value),
                _ => eval(alloc, store, evaluables, word),
            }
        }
        Operand::Integer(value) => Ok(*value),
        Operand::Atom(name) => Err(EvalFault::NotEvaluable(*name, 0)),
        Operand::Inner(_) => Err(EvalFault::Unbound),
    }
}

/// Leaves what the operation makes of the last value. The errors: there is none, or memory was refused.
#[inline(always)]
fn apply_one(operation: Unary, values: &mut Vec<i128>) -> Result<(), EvalFault>
    ensures { (names : List (List ℕ)) → Leaves names result values.new.items (with_last (does_unary operation) (reverse values.old.items)) }
{
    let Some(value) = values.pop() else {
        return Err(EvalFault::Unbound);
    };
    values.push(operation.of(value)?)?;
    Ok(())
}

/// Leaves what the operation makes of the last two values. The errors: there is none, or memory was refused.
#[inline(always)]
fn apply_two(operation: Binary, values: &mut Vec<i128>) -> Result<(), EvalFault>
    ensures { (names : List (List ℕ)) → Leaves names result values.new.items (with_last_two (does_binary operation) (reverse values.old.items)) }
{
    let Some(right) = values.pop() else {
        return Err(EvalFault::Unbound);
    };
    let Some(left) = values.pop() else {
        return Err(EvalFault::Unbound);
    };
    values.push(operation.of(left, right)?)?;
    Ok(())
}

/// Why a functor that is no evaluable has no value: where there are fewer values than it has arguments, it isn't looked
/// at.
fn no_value(name: Atom, count: usize, values: &[i128]) -> EvalFault
    ensures { result ≡ missed name count values.now }
{
    if values.len() < count {
        EvalFault::Unbound
    } else {
        EvalFault::NotEvaluable(name, count)
    }
}

/// Runs one step, over the values that the stack has. The errors: an expression has no value, or memory was refused.
#[inline(always)]
fn run_step<S: Store>(
    alloc: Global,
    store: &S,
    evaluables: &Evaluables,
    step: &Step,
    environment: &[S::Word],
    values: &mut Vec<i128>,
) -> Result<(), EvalFault>
    requires evaluables { AreEvaluables (S.names store.now) evaluables.now }
    requires step { IsStepThere (length (S.names store.now)) (length environment.now) step.now }
    requires environment { All (Holds (S.present store.now)) environment.now }
    ensures values { (next : ℕ) (s : Subst) (k : expressions.Step) → StandFor (S.present store.now) environment.now next s
        → IsStep (S.names store.now) k step.now
        → Leaves (S.names store.now) result values.new.items (expressions.done next s (k ∷ []) (reverse values.old.items)) }
    ensures error { IfErr result (CanBeRaised (S.names store.now)) }
{
    match step {
        Step::Value(operand) => {
            values.push(value_of(alloc, store, evaluables, operand, environment)?)?;
            Ok(())
        }
        Step::One(operation) => apply_one(*operation, values),
        Step::Two(operation) => apply_two(*operation, values),
        Step::Unknown(name, count) => Err(no_value(*name, *count, values)),
    }
}

/// Runs the steps, over the values that the stack has. The errors: an expression has no value, or memory was refused.
pub(crate) fn run_steps<S: Store>(
    alloc: Global,
    store: &S,
    evaluables: &Evaluables,
    steps: &[Step],
    environment: &[S::Word],
    values: &mut Vec<i128>,
) -> Result<(), EvalFault>
    requires evaluables { AreEvaluables (S.names store.now) evaluables.now }
    requires steps { All (IsStepThere (length (S.names store.now)) (length environment.now)) steps.now }
    requires environment { All (Holds (S.present store.now)) environment.now }
    ensures values { (next : ℕ) (s : Subst) (ks : List expressions.Step) → StandFor (S.present store.now) environment.now next s
        → AllZip (IsStep (S.names store.now)) ks steps.now
        → Leaves (S.names store.now) result values.new.items (expressions.done next s ks (reverse values.old.items)) }
    ensures error { IfErr result (CanBeRaised (S.names store.now)) }
{
    for step in steps {
        run_step(alloc, store, evaluables, step, environment, values)?;
    }
    Ok(())
}
