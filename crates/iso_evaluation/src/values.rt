//! What the steps of an expression leave (7.9): one value for `is/2`, two for a comparison. The commonest steps need no
//! stack.
ghost use Rattle.std.specs.Prelude.{◌≡◌, ℕ, List, [], ◌∷◌, length, IfErr, IfSome};
ghost use Rattle.std.specs.List.{All, AllZip};
ghost use Rattle.iso_model.specs.Terms.Substitutions.{Subst};
ghost use Rattle.iso_store_core.specs.Presents.{Holds};
ghost use Rattle.iso_arith.specs.Evaluables.{AreEvaluables};
ghost use Rattle.iso_arith.specs.Faults.{IsAnswer};
ghost use Rattle.iso_arith.specs.Operations.{does_binary};
ghost use Rattle.iso_compile.specs.Expressions as expressions;
ghost use Rattle.iso_instructions.specs.declared.instructions.Step.TheVariants as step;
ghost use Rattle.iso_instructions.specs.Steps.{IsStep, IsStepThere, IsThere};
ghost use Rattle.iso_evaluation.specs.Running.{StandFor, CanBeRaised, LeavesOne, HoldsOfTwo, operand_value, on_both, values_of_both};

use super::steps::{run_steps, value_of};
use iso_arith::{Binary, EvalFault, Evaluables};
use iso_code::Operand;
use iso_instructions::Step;
use iso_lib::arithmetic::holds;
use iso_model::Comparison;
use iso_store_core::Store;
use std::alloc::Global;

/// The operands of an operation on both, which are all that the steps are; none where they are others.
#[inline(always)]
pub(crate) fn operands_of_operation(steps: &[Step]) -> Option<(&Operand, &Operand, Binary)>
    ensures { IfSome result (λ r. steps.now ≡ step.Value r.0.now ∷ step.Value r.1.now ∷ step.Two r.2 ∷ []) }
{
    match steps {
        [Step::Value(left), Step::Value(right), Step::Two(operation)] => {
            Some((left, right, *operation))
        }
        _ => None,
    }
}

/// The value of the operation on what two operands stand for (9.1, 9.3, 9.4). The errors: there is none, or memory was
/// refused.
#[inline(always)]
fn value_of_both<S: Store>(
    alloc: Global,
    store: &S,
    evaluables: &Evaluables,
    operation: Binary,
    left: &Operand,
    right: &Operand,
    environment: &[S::Word],
) -> Result<i128, EvalFault>
    requires evaluables { AreEvaluables (S.names store.now) evaluables.now }
    requires left { IsThere (length (S.names store.now)) (length environment.now) left.now }
    requires right { IsThere (length (S.names store.now)) (length environment.now) right.now }
    requires environment { All (Holds (S.present store.now)) environment.now }
    ensures value { (next : ℕ) (s : Subst) → StandFor (S.present store.now) environment.now next s
        → IsAnswer (S.names store.now) result (on_both (operand_value (S.names store.now) next s left.now)
        (operand_value (S.names store.now) next s right.now) (does_binary operation)) }
    ensures error { IfErr result (CanBeRaised (S.names store.now)) }
{
    let first = value_of(alloc, store, evaluables, left, environment)?;
    let second = value_of(alloc, store, evaluables, right, environment)?;
    Ok(operation.of(first, second)?)
}

/// The value that the steps leave; none where they leave another number of values. The list loses what it had. The
/// errors: an expression has no value, or memory was refused.
#[inline(always)]
pub(crate) fn value_left<S: Store>(
    alloc: Global,
    store: &S,
    evaluables: &Evaluables,
    steps: &[Step],
    environment: &[S::Word],
    values: &mut Vec<i128>,
) -> Result<Option<i128>, EvalFault>
    requires evaluables { AreEvaluables (S.names store.now) evaluables.now }
    requires steps { All (IsStepThere (length (S.names store.now)) (length environment.now)) steps.now }
    requires environment { All (Holds (S.present store.now)) environment.now }
    ensures leaves { (next : ℕ) (s : Subst) (ks : List expressions.Step)
        → StandFor (S.present store.now) environment.now next s
        → AllZip (IsStep (S.names store.now)) ks steps.now
        → LeavesOne (S.names store.now) result (expressions.done next s ks []) }
    ensures error { IfErr result (CanBeRaised (S.names store.now)) }
{
    if let Some((left, right, operation)) = operands_of_operation(steps) {
        let value = value_of_both(
            alloc,
            store,
            evaluables,
            operation,
            left,
            right,
            environment,
        )?;
        return Ok(Some(value));
    }
    values.clear();
    run_steps(alloc, store, evaluables, steps, environment, values)?;
    if values.len() != 1 {
        return Ok(None);
    }
    Ok(Some(values[0]))
}

/// The operands where the steps are the values of two; none where they are others.
#[inline(always)]
pub(crate) fn operands_alone(steps: &[Step]) -> Option<(&Operand, &Operand)>
    ensures { IfSome result (λ r. steps.now ≡ step.Value r.0.now ∷ step.Value r.1.now ∷ []) }
{
    match steps {
        [Step::Value(left), Step::Value(right)] => Some((left, right)),
        _ => None,
    }
}

/// Whether the comparison holds of what two operands stand for (8.7.1). The errors: one has no value, or memory was
/// refused.
#[inline(always)]
fn holds_of_both<S: Store>(
    alloc: Global,
    store: &S,
    evaluables: &Evaluables,
    comparison: Comparison,
    left: &Operand,
    right: &Operand,
    environment: &[S::Word],
) -> Result<bool, EvalFault>
    requires evaluables { AreEvaluables (S.names store.now) evaluables.now }
    requires left { IsThere (length (S.names store.now)) (length environment.now) left.now }
    requires right { IsThere (length (S.names store.now)) (length environment.now) right.now }
    requires environment { All (Holds (S.present store.now)) environment.now }
    ensures holds { (next : ℕ) (s : Subst) → StandFor (S.present store.now) environment.now next s
        → HoldsOfTwo (S.names store.now) comparison result
        (values_of_both (operand_value (S.names store.now) next s left.now)
        (operand_value (S.names store.now) next s right.now)) }
    ensures error { IfErr result (CanBeRaised (S.names store.now)) }
{
    let first = value_of(alloc, store, evaluables, left, environment)?;
    let second = value_of(alloc, store, evaluables, right, environment)?;
    Ok(holds(comparison, first, second))
}

/// Whether the comparison holds of the two values that the steps leave (8.7.1); false where they leave another number
/// of values. The list loses what it had. The errors: an expression has no value, or memory was refused.
#[inline(always)]
pub(crate) fn holds_of_values<S: Store>(
    alloc: Global,
    store: &S,
    evaluables: &Evaluables,
    comparison: Comparison,
    steps: &[Step],
    environment: &[S::Word],
    values: &mut Vec<i128>,
) -> Result<bool, EvalFault>
    requires evaluables { AreEvaluables (S.names store.now) evaluables.now }
    requires steps { All (IsStepThere (length (S.names store.now)) (length environment.now)) steps.now }
    requires environment { All (Holds (S.present store.now)) environment.now }
    ensures holds { (next : ℕ) (s : Subst) (ks : List expressions.Step)
        → StandFor (S.present store.now) environment.now next s
        → AllZip (IsStep (S.names store.now)) ks steps.now
        → HoldsOfTwo (S.names store.now) comparison result (expressions.done next s ks []) }
    ensures error { IfErr result (CanBeRaised (S.names store.now)) }
{
    if let Some((left, right)) = operands_alone(steps) {
        return holds_of_both(
            alloc,
            store,
            evaluables,
            comparison,
            left,
            right,
            environment,
        );
    }
    values.clear();
    run_steps(alloc, store, evaluables, steps, environment, values)?;
    if values.len() != 2 {
        return Ok(false);
    }
    Ok(holds(comparison, values[0], values[1]))
}
