//! The goals of arithmetic (8.6, 8.7) that a clause has written out: what they come to.
ghost use Rattle.std.specs.Prelude.{◌≡◌, ◌≢◌, ℕ, List, Err, length};
ghost use Rattle.std.specs.List.{All, AllZip};
ghost use Rattle.iso_model.specs.Terms.Substitutions.{Subst, apply};
ghost use Rattle.iso_model.specs.Terms.Trees.{End};
ghost use Rattle.iso_model.specs.Search.Library as library;
ghost use Rattle.iso_store_core.specs.Presents.{Holds};
ghost use Rattle.iso_store_core.specs.Copying.{wide_cells};
ghost use Rattle.iso_store_core.specs.Retaining.{RetainsAll, Takes};
ghost use Rattle.iso_arith.specs.Evaluables.{AreEvaluables};
ghost use Rattle.iso_lib_core.specs.Cells.{made_for};
ghost use Rattle.iso_lib_core.specs.Replies.{IsReply};
ghost use Rattle.iso_compile.specs.Expressions as expressions;
ghost use Rattle.iso_compile.specs.Table.{part_term};
ghost use Rattle.iso_compile.specs.Evaluations.{evaluated, compared};
ghost use Rattle.iso_code.specs.Loaded.{part_at};
ghost use Rattle.iso_instructions.specs.Steps.{IsStep, IsStepThere, IsThere};
ghost use Rattle.iso_evaluation.specs.Running.{StandFor};

use super::shorts::{holds_of_shorts, short_value_left};
use super::values::{holds_of_values, value_left};
use iso_arith::Evaluables;
use iso_cells::Cells;
use iso_code::Operand;
use iso_instructions::Step;
use iso_lib::arithmetic::{name_of, raised};
use iso_lib_core::{Fault, Reply, tested};
use iso_model::Comparison;
use std::alloc::Global;

/// Unifies what the operand stands for with the integer. The errors: the store is full, or memory was refused.
#[inline(always)]
fn equate_operand<S: Cells>(
    store: &mut S,
    operand: &Operand,
    environment: &[S::Word],
    value: i128,
) -> Result<Reply, Fault>
    requires operand { IsThere (length (S.names store.old)) (length environment.now) operand.now }
    requires environment { All (Holds (S.present store.old)) environment.now }
    ensures replies { (next : ℕ) (s : Subst) → StandFor (S.present store.old) environment.now next s
        → IsReply (S.present store.old) (S.present store.new)
        (library.equate_integer (apply s (part_term next (λ r. End) (part_at (S.names store.old) 0 operand.now))) value) result }
    ensures full { result ≡ Err Fault.Full → S.full store.new }
    ensures cells { Takes S.Store store.old store.new (wide_cells value) }
    ensures rest { RetainsAll S.Store store.old store.new }
{
    match operand {
        Operand::New(variable) | Operand::Old(variable) => {
            Ok(tested(store.meet_integer(environment[*variable], value)?))
        }
        Operand::Integer(other) => Ok(tested(*other == value)),
        Operand::Atom(_) | Operand::Inner(_) => Ok(tested(false)),
    }
}

/// The same for an integer of at most 64 bits.
#[inline(always)]
fn equate_short<S: Cells>(
    store: &mut S,
    operand: &Operand,
    environment: &[S::Word],
    value: i64,
) -> Result<Reply, Fault>
    requires operand { IsThere (length (S.names store.old)) (length environment.now) operand.now }
    requires environment { All (Holds (S.present store.old)) environment.now }
    ensures replies { (next : ℕ) (s : Subst) → StandFor (S.present store.old) environment.now next s
        → IsReply (S.present store.old) (S.present store.new)
        (library.equate_integer (apply s (part_term next (λ r. End) (part_at (S.names store.old) 0 operand.now))) value) result }
    ensures full { result ≡ Err Fault.Full → S.full store.new }
    ensures cells { Takes S.Store store.old store.new 0 }
    ensures rest { RetainsAll S.Store store.old store.new }
{
    match operand {
        Operand::New(variable) | Operand::Old(variable) => {
            Ok(tested(store.meet_short(environment[*variable], value)?))
        }
        Operand::Integer(other) => Ok(tested(*other == i128::from(value))),
        Operand::Atom(_) | Operand::Inner(_) => Ok(tested(false)),
    }
}

/// `is/2` (8.6.1) of any expression: what comes first is unified with the value that the steps leave. The list is for the
/// values of expressions, and loses what it had. The errors: one is raised, the store is full, or memory was refused.
#[inline(never)]
fn evaluate_any<S: Cells>(
    alloc: Global,
    store: &mut S,
    evaluables: &Evaluables,
    left: &Operand,
    steps: &[Step],
    environment: &[S::Word],
    values: &mut Vec<i128>,
) -> Result<Reply, Fault>
    requires evaluables { AreEvaluables (S.names store.old) evaluables.now }
    requires left { IsThere (length (S.names store.old)) (length environment.now) left.now }
    requires steps { All (IsStepThere (length (S.names store.old)) (length environment.now)) steps.now }
    requires environment { All (Holds (S.present store.old)) environment.now }
    ensures replies { (next : ℕ) (s : Subst) (ks : List expressions.Step) → StandFor (S.present store.old) environment.now next s
        → AllZip (IsStep (S.names store.old)) ks steps.now
        → IsReply (S.present store.old) (S.present store.new) (evaluated next s (part_at (S.names store.old) 0 left.now) ks) result }
    ensures full { result ≡ Err Fault.Full → S.full store.new }
    ensures cells { (next : ℕ) (s : Subst) (ks : List expressions.Step) → StandFor (S.present store.old) environment.now next s
        → AllZip (IsStep (S.names store.old)) ks steps.now
        → Takes S.Store store.old store.new (made_for (evaluated next s (part_at (S.names store.old) 0 left.now) ks)) }
    ensures rest { RetainsAll S.Store store.old store.new }
{
    match value_left(alloc, store, evaluables, steps, environment, values) {
        Ok(Some(value)) => equate_operand(store, left, environment, value),
        Ok(None) => Ok(tested(false)),
        Err(fault) => Err(raised(alloc, store, fault, "is", 2)),
    }
}

/// `is/2` (8.6.1): what comes first is unified with the value that the steps leave. The list is for the values of
/// expressions, and loses what it had. The errors: one is raised, the store is full, or memory was refused.
#[inline(always)]
pub fn evaluate<S: Cells>(
    alloc: Global,
    store: &mut S,
    evaluables: &Evaluables,
    left: &Operand,
    steps: &[Step],
    environment: &[S::Word],
    values: &mut Vec<i128>,
) -> Result<Reply, Fault>
    requires evaluables { AreEvaluables (S.names store.old) evaluables.now }
    requires left { IsThere (length (S.names store.old)) (length environment.now) left.now }
    requires steps { All (IsStepThere (length (S.names store.old)) (length environment.now)) steps.now }
    requires environment { All (Holds (S.present store.old)) environment.now }
    ensures replies { (next : ℕ) (s : Subst) (ks : List expressions.Step) → StandFor (S.present store.old) environment.now next s
        → AllZip (IsStep (S.names store.old)) ks steps.now
        → IsReply (S.present store.old) (S.present store.new) (evaluated next s (part_at (S.names store.old) 0 left.now) ks) result }
    ensures full { result ≡ Err Fault.Full → S.full store.new }
    ensures cells { (next : ℕ) (s : Subst) (ks : List expressions.Step) → StandFor (S.present store.old) environment.now next s
        → AllZip (IsStep (S.names store.old)) ks steps.now
        → Takes S.Store store.old store.new (made_for (evaluated next s (part_at (S.names store.old) 0 left.now) ks)) }
    ensures rest { RetainsAll S.Store store.old store.new }
{
    match short_value_left(store, steps, environment) {
        Some(value) => equate_short(store, left, environment, value),
        None => evaluate_any(alloc, store, evaluables, left, steps, environment, values),
    }
}

/// A comparison (8.7.1) of the two values that the steps of any expressions leave. The list is for the values of
/// expressions, and loses what it had. The errors: one is raised, or memory was refused.
#[inline(never)]
fn compare_any<S: Cells>(
    alloc: Global,
    store: &S,
    evaluables: &Evaluables,
    comparison: Comparison,
    steps: &[Step],
    environment: &[S::Word],
    values: &mut Vec<i128>,
) -> Result<Reply, Fault>
    requires evaluables { AreEvaluables (S.names store.now) evaluables.now }
    requires steps { All (IsStepThere (length (S.names store.now)) (length environment.now)) steps.now }
    requires environment { All (Holds (S.present store.now)) environment.now }
    ensures replies { (next : ℕ) (s : Subst) (ks : List expressions.Step) → StandFor (S.present store.now) environment.now next s
        → AllZip (IsStep (S.names store.now)) ks steps.now
        → IsReply (S.present store.now) (S.present store.now) (compared comparison next s ks) result }
    ensures full { result ≢ Err Fault.Full }
{
    match holds_of_values(
        alloc,
        store,
        evaluables,
        comparison,
        steps,
        environment,
        values,
    ) {
        Ok(answer) => Ok(tested(answer)),
        Err(fault) => Err(raised(alloc, store, fault, name_of(comparison), 2)),
    }
}

/// A comparison (8.7.1) of the two values that the steps leave. The list is for the values of expressions, and loses
/// what it had. The errors: one is raised, or memory was refused.
#[inline(always)]
pub fn compare<S: Cells>(
    alloc: Global,
    store: &S,
    evaluables: &Evaluables,
    comparison: Comparison,
    steps: &[Step],
    environment: &[S::Word],
    values: &mut Vec<i128>,
) -> Result<Reply, Fault>
    requires evaluables { AreEvaluables (S.names store.now) evaluables.now }
    requires steps { All (IsStepThere (length (S.names store.now)) (length environment.now)) steps.now }
    requires environment { All (Holds (S.present store.now)) environment.now }
    ensures replies { (next : ℕ) (s : Subst) (ks : List expressions.Step) → StandFor (S.present store.now) environment.now next s
        → AllZip (IsStep (S.names store.now)) ks steps.now
        → IsReply (S.present store.now) (S.present store.now) (compared comparison next s ks) result }
    ensures full { result ≢ Err Fault.Full }
{
    match holds_of_shorts(store, comparison, steps, environment) {
        Some(answer) => Ok(tested(answer)),
        None => compare_any(
            alloc,
            store,
            evaluables,
            comparison,
            steps,
            environment,
            values,
        ),
    }
}
