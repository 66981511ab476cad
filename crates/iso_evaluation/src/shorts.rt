//! Arithmetic of integers of 64 bits (7.9, 8.6, 8.7), which needs no stack: of expressions whose right operands are no
//! compounds. Those of one operation at most are told by their steps at once.
ghost use Rattle.std.specs.Prelude.{◌≡◌, ◌≤◌, ℕ, ℤ, List, [], ◌∷◌, Ok, length, drop, IfSome};
ghost use Rattle.std.specs.List.{All, AllZip};
ghost use Rattle.iso_model.specs.Terms.Substitutions.{Subst};
ghost use Rattle.iso_store_core.specs.Presents.{Holds};
ghost use Rattle.iso_arith.specs.Operations.{does_binary};
ghost use Rattle.iso_compile.specs.Expressions as expressions;
ghost use Rattle.iso_instructions.specs.declared.instructions.Step.TheVariants as step;
ghost use Rattle.iso_instructions.specs.Steps.{IsStep, IsStepThere, IsThere};
ghost use Rattle.iso_evaluation.specs.Running.{StandFor, HoldsOfTwo, AreValueAndOperation, operand_value, on_both};

use super::values::{operands_alone, operands_of_operation};
use iso_arith::Binary;
use iso_cells::Cells;
use iso_code::Operand;
use iso_instructions::Step;
use iso_lib::arithmetic::holds;
use iso_model::Comparison;

/// The short integer that an operand stands for; none where it stands for anything else.
#[inline(always)]
fn short_operand<S: Cells>(store: &S, operand: &Operand, environment: &[S::Word]) -> Option<i64>
    requires operand { IsThere (length (S.names store.now)) (length environment.now) operand.now }
    requires environment { All (Holds (S.present store.now)) environment.now }
    ensures { (next : ℕ) (s : Subst) → StandFor (S.present store.now) environment.now next s
        → IfSome result (λ x. operand_value (S.names store.now) next s operand.now ≡ Ok x) }
{
    match operand {
        Operand::New(variable) | Operand::Old(variable) => { store.short(environment[*variable]) }
        Operand::Integer(value) => i64::try_from(*value).ok(),
        Operand::Atom(_) | Operand::Inner(_) => None,
    }
}

/// The value of an operation that is rarer than a product or a quotient; none where it isn't short, or there is none.
#[inline(never)]
fn rarest_value(operation: Binary, x: i64, y: i64) -> Option<i64>
    ensures { IfSome result (λ z. does_binary operation x y ≡ Ok z) }
{
    match operation.of(i128::from(x), i128::from(y)) {
        Ok(value) => i64::try_from(value).ok(),
        Err(_) => None,
    }
}

/// The value of an operation that is rarer than a sum; none where it isn't short, or isn't found here.
#[inline(never)]
fn rarer_value(operation: Binary, x: i64, y: i64) -> Option<i64>
    ensures { IfSome result (λ z. does_binary operation x y ≡ Ok z) }
{
    match operation {
        Binary::Multiply => x.checked_mul(y),
        Binary::Divide => x.checked_div(y),
        Binary::Modulo if x >= 0 && y > 0 => x.checked_rem(y),
        _ => rarest_value(operation, x, y),
    }
}

/// The value of an operation; none where it isn't short, or isn't found here.
#[inline(always)]
fn short_value(operation: Binary, x: i64, y: i64) -> Option<i64>
    ensures { IfSome result (λ z. does_binary operation x y ≡ Ok z) }
{
    match operation {
        Binary::Add => x.checked_add(y),
        Binary::Subtract => x.checked_sub(y),
        _ => rarer_value(operation, x, y),
    }
}

/// The right operand of the operation whose steps begin here, and the operation; none where others begin.
#[inline(always)]
fn operation_at(steps: &[Step], start: usize) -> Option<(&Operand, Binary)>
    requires { start ≤ length steps.now }
    ensures { IfSome result (λ r. AreValueAndOperation steps.now start r.0.now r.1) }
{
    if steps.len() - start < 2 {
        return None;
    }
    match (&steps[start], &steps[start + 1]) {
        (Step::Value(right), Step::Two(operation)) => Some((right, *operation)),
        _ => None,
    }
}

/// The value of the expression whose steps begin here, and where they end; none where it isn't found here.
#[inline(always)]
fn short_expression<S: Cells>(
    store: &S,
    steps: &[Step],
    environment: &[S::Word],
    start: usize,
) -> Option<(i64, usize)>
    requires start { start ≤ length steps.now }
    requires steps { All (IsStepThere (length (S.names store.now)) (length environment.now)) steps.now }
    requires environment { All (Holds (S.present store.now)) environment.now }
    ensures value { (next : ℕ) (s : Subst) (ks : List expressions.Step) (zs : List ℤ)
        → StandFor (S.present store.now) environment.now next s
        → AllZip (IsStep (S.names store.now)) ks steps.now
        → IfSome result (λ r. expressions.done next s (drop start ks) zs
        ≡ expressions.done next s (drop r.1 ks) (r.0 ∷ zs)) }
    ensures end { IfSome result (λ r. r.1 ≤ length steps.now) }
{
    if start >= steps.len() {
        return None;
    }
    let Step::Value(first) = &steps[start] else {
        return None;
    };
    let mut value = short_operand(store, first, environment)?;
    let mut end = start + 1;
    while let Some((operand, operation)) = operation_at(steps, end) {
        let right = short_operand(store, operand, environment)?;
        value = short_value(operation, value, right)?;
        end += 2;
    }
    Some((value, end))
}

/// The value that any steps leave where they leave one; none where it isn't found here.
#[inline(never)]
fn longer_value_left<S: Cells>(store: &S, steps: &[Step], environment: &[S::Word]) -> Option<i64>
    requires steps { All (IsStepThere (length (S.names store.now)) (length environment.now)) steps.now }
    requires environment { All (Holds (S.present store.now)) environment.now }
    ensures { (next : ℕ) (s : Subst) (ks : List expressions.Step)
        → StandFor (S.present store.now) environment.now next s
        → AllZip (IsStep (S.names store.now)) ks steps.now
        → IfSome result (λ z. expressions.done next s ks [] ≡ Ok (z ∷ [])) }
{
    let (value, end) = short_expression(store, steps, environment, 0)?;
    if end < steps.len() {
        return None;
    }
    Some(value)
}

/// The value of the operation on what two operands stand for; none where it isn't found here.
#[inline(always)]
fn short_both<S: Cells>(
    store: &S,
    left: &Operand,
    right: &Operand,
    operation: Binary,
    environment: &[S::Word],
) -> Option<i64>
    requires left { IsThere (length (S.names store.now)) (length environment.now) left.now }
    requires right { IsThere (length (S.names store.now)) (length environment.now) right.now }
    requires environment { All (Holds (S.present store.now)) environment.now }
    ensures { (next : ℕ) (s : Subst) → StandFor (S.present store.now) environment.now next s
        → IfSome result (λ z. on_both (operand_value (S.names store.now) next s left.now)
        (operand_value (S.names store.now) next s right.now) (does_binary operation) ≡ Ok z) }
{
    let x = short_operand(store, left, environment)?;
    let y = short_operand(store, right, environment)?;
    short_value(operation, x, y)
}

/// The operand and those of the operation behind it, where the steps are these alone; none where they are others.
#[inline(always)]
fn operand_and_operation(steps: &[Step]) -> Option<(&Operand, &Operand, &Operand, Binary)>
    ensures { IfSome result (λ r. steps.now
        ≡ step.Value r.0.now ∷ step.Value r.1.now ∷ step.Value r.2.now ∷ step.Two r.3 ∷ []) }
{
    match steps {
        [
            Step::Value(operand),
            Step::Value(left),
            Step::Value(right),
            Step::Two(operation),
        ] => { Some((operand, left, right, *operation)) }
        _ => None,
    }
}

/// The operands of the operation and the one behind it, where the steps are these alone; none where they are others.
#[inline(always)]
fn operation_and_operand(steps: &[Step]) -> Option<(&Operand, &Operand, Binary, &Operand)>
    ensures { IfSome result (λ r. steps.now
        ≡ step.Value r.0.now ∷ step.Value r.1.now ∷ step.Two r.2 ∷ step.Value r.3.now ∷ []) }
{
    match steps {
        [
            Step::Value(left),
            Step::Value(right),
            Step::Two(operation),
            Step::Value(operand),
        ] => { Some((left, right, *operation, operand)) }
        _ => None,
    }
}

/// The value that the steps leave where they leave one; none where it isn't found here.
#[inline(always)]
pub(crate) fn short_value_left<S: Cells>(
    store: &S,
    steps: &[Step],
    environment: &[S::Word],
) -> Option<i64>
    requires steps { All (IsStepThere (length (S.names store.now)) (length environment.now)) steps.now }
    requires environment { All (Holds (S.present store.now)) environment.now }
    ensures { (next : ℕ) (s : Subst) (ks : List expressions.Step)
        → StandFor (S.present store.now) environment.now next s
        → AllZip (IsStep (S.names store.now)) ks steps.now
        → IfSome result (λ z. expressions.done next s ks [] ≡ Ok (z ∷ [])) }
{
    if let Some((left, right, operation)) = operands_of_operation(steps) {
        return short_both(store, left, right, operation, environment);
    }
    longer_value_left(store, steps, environment)
}

/// Whether the comparison holds of the two values that any steps leave (8.7.1), where they leave two; none where it
/// isn't found here.
#[inline(never)]
fn holds_of_longer<S: Cells>(
    store: &S,
    comparison: Comparison,
    steps: &[Step],
    environment: &[S::Word],
) -> Option<bool>
    requires steps { All (IsStepThere (length (S.names store.now)) (length environment.now)) steps.now }
    requires environment { All (Holds (S.present store.now)) environment.now }
    ensures { (next : ℕ) (s : Subst) (ks : List expressions.Step)
        → StandFor (S.present store.now) environment.now next s
        → AllZip (IsStep (S.names store.now)) ks steps.now
        → IfSome result (λ answer. HoldsOfTwo (S.names store.now) comparison (Ok answer)
        (expressions.done next s ks [])) }
{
    let (left, middle) = short_expression(store, steps, environment, 0)?;
    let (right, end) = short_expression(store, steps, environment, middle)?;
    if end < steps.len() {
        return None;
    }
    Some(holds(comparison, i128::from(left), i128::from(right)))
}

/// Whether the comparison holds of the two values that the steps leave (8.7.1), where they leave two; none where it
/// isn't found here.
#[inline(always)]
pub(crate) fn holds_of_shorts<S: Cells>(
    store: &S,
    comparison: Comparison,
    steps: &[Step],
    environment: &[S::Word],
) -> Option<bool>
    requires steps { All (IsStepThere (length (S.names store.now)) (length environment.now)) steps.now }
    requires environment { All (Holds (S.present store.now)) environment.now }
    ensures { (next : ℕ) (s : Subst) (ks : List expressions.Step)
        → StandFor (S.present store.now) environment.now next s
        → AllZip (IsStep (S.names store.now)) ks steps.now
        → IfSome result (λ answer. HoldsOfTwo (S.names store.now) comparison (Ok answer)
        (expressions.done next s ks [])) }
{
    if let Some((left, right)) = operands_alone(steps) {
        let x = short_operand(store, left, environment)?;
        let y = short_operand(store, right, environment)?;
        return Some(holds(comparison, i128::from(x), i128::from(y)));
    }
    if let Some((operand, left, right, operation)) = operand_and_operation(steps) {
        let x = short_operand(store, operand, environment)?;
        let y = short_both(store, left, right, operation, environment)?;
        return Some(holds(comparison, i128::from(x), i128::from(y)));
    }
    if let Some((left, right, operation, operand)) = operation_and_operand(steps) {
        let x = short_both(store, left, right, operation, environment)?;
        let y = short_operand(store, operand, environment)?;
        return Some(holds(comparison, i128::from(x), i128::from(y)));
    }
    holds_of_longer(store, comparison, steps, environment)
}
