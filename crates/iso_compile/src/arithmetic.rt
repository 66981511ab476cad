//! Arithmetic in line: `is/2` and comparisons of expressions that a clause has written out (8.6, 8.7).
ghost use Rattle.std.specs.Prelude.{◌≡◌, codes, is_some, IfOk, OnOk, MatchOption};
ghost use Rattle.std.specs.String.{string_bytes};
ghost use Rattle.iso_model.specs.Terms.Trees.{Apply};
ghost use Rattle.iso_model.specs.Terms.TermOf.{term_of, row_of};
ghost use Rattle.iso_model.specs.Search.Bodies.{two};
ghost use Rattle.iso_model.specs.Search.Library.{comparison_name};
ghost use Rattle.iso_compile.specs.Emitting.{HasPlaced};
ghost use Rattle.iso_compile.specs.Evaluations.{is_comparison};
ghost use Rattle.iso_compile.specs.Control.{MakesInLine};

use super::control::Instruction;
use super::emitting::compound;
use super::expressions::{emit_steps, forget_steps};
use super::goals::forget_part;
use super::parts::part_in;
use iso_alloc::Plan;
use iso_model::{Comparison, Term};
use std::alloc::{AllocError, Global};

/// The comparison of this name.
fn comparison_of(name: &str) -> Option<Comparison>
    ensures named { MatchOption result (Unit {0}) (λ c. comparison_name c ≡ name.now) }
    ensures some { is_some result ≡ is_comparison name.now }
{
    match name {
        "=:=" => Some(Comparison::Equal),
        "=\\=" => Some(Comparison::Unequal),
        "<" => Some(Comparison::Less),
        "=<" => Some(Comparison::AtMost),
        ">" => Some(Comparison::Greater),
        ">=" => Some(Comparison::AtLeast),
        _ => None,
    }
}

/// The code of `is/2` of these arguments; nothing where the left one is a compound, or the right one isn't known. The
/// error is that memory was refused.
fn compile_is(
    alloc: Global,
    plan: &Plan,
    met: &mut Vec<bool>,
    left: &Term,
    right: &Term,
) -> Result<Option<Instruction>, AllocError>
    requires { HasPlaced plan.now.places met.old.items }
    ensures made { IfOk result (MakesInLine plan.now (two (codes "is") (term_of left.now) (term_of right.now))) }
    ensures met { OnOk result (HasPlaced plan.now.places met.new.items) }
{
    if compound(left).is_some() {
        return Ok(None);
    }
    let mut steps = Vec::new(alloc);
    let is_known = emit_steps(alloc, plan, met, right, &mut steps)?;
    let part = part_in(plan, met, 0, left)?;
    forget_steps(met, steps.as_slice());
    forget_part(met, &part);
    if !is_known {
        return Ok(None);
    }
    Ok(Some(Instruction::Is(part, steps)))
}

/// The code of a comparison of these expressions; nothing where one of them isn't known. The error is that memory was
/// refused.
fn compile_comparison(
    alloc: Global,
    plan: &Plan,
    met: &mut Vec<bool>,
    comparison: Comparison,
    left: &Term,
    right: &Term,
) -> Result<Option<Instruction>, AllocError>
    requires { HasPlaced plan.now.places met.old.items }
    ensures made { IfOk result (MakesInLine plan.now (two (comparison_name comparison) (term_of left.now) (term_of right.now))) }
    ensures met { OnOk result (HasPlaced plan.now.places met.new.items) }
{
    let mut steps = Vec::new(alloc);
    let is_left_known = emit_steps(alloc, plan, met, left, &mut steps)?;
    let is_right_known = emit_steps(alloc, plan, met, right, &mut steps)?;
    forget_steps(met, steps.as_slice());
    if !is_left_known || !is_right_known {
        return Ok(None);
    }
    Ok(Some(Instruction::Compare(comparison, steps)))
}

/// The instruction that a goal of this name and these two arguments is, or nothing. The error is that memory was
/// refused.
fn compile_two(
    alloc: Global,
    plan: &Plan,
    met: &mut Vec<bool>,
    name: &String,
    left: &Term,
    right: &Term,
) -> Result<Option<Instruction>, AllocError>
    requires { HasPlaced plan.now.places met.old.items }
    ensures made { IfOk result (MakesInLine plan.now (two (string_bytes name.now) (term_of left.now) (term_of right.now))) }
    ensures met { OnOk result (HasPlaced plan.now.places met.new.items) }
{
    if name.as_str() == "is" {
        return compile_is(alloc, plan, met, left, right);
    }
    match comparison_of(name.as_str()) {
        Some(comparison) => compile_comparison(alloc, plan, met, comparison, left, right),
        None => Ok(None),
    }
}

/// The instruction that a goal of this name and these arguments is, or nothing. The error is that memory was refused.
fn compile_compound(
    alloc: Global,
    plan: &Plan,
    met: &mut Vec<bool>,
    name: &String,
    arguments: &[Term],
) -> Result<Option<Instruction>, AllocError>
    requires { HasPlaced plan.now.places met.old.items }
    ensures made { IfOk result (MakesInLine plan.now (Apply (string_bytes name.now) (row_of arguments.now))) }
    ensures met { OnOk result (HasPlaced plan.now.places met.new.items) }
{
    if arguments.len() != 2 {
        return Ok(None);
    }
    compile_two(alloc, plan, met, name, &arguments[0], &arguments[1])
}

/// The instruction that a goal is, where it is in line: `is/2` of a variable or a constant and an expression that is
/// known, or a comparison of two such expressions; else nothing. The variables that have a place were met before, and
/// no others; so it is behind. The error is that memory was refused.
pub fn compile_arithmetic(
    alloc: Global,
    plan: &Plan,
    met: &mut Vec<bool>,
    goal: &Term,
) -> Result<Option<Instruction>, AllocError>
    requires { HasPlaced plan.now.places met.old.items }
    ensures made { IfOk result (MakesInLine plan.now (term_of goal.now)) }
    ensures met { OnOk result (HasPlaced plan.now.places met.new.items) }
{
    match compound(goal) {
        Some((name, arguments)) => compile_compound(alloc, plan, met, name, arguments),
        None => Ok(None),
    }
}
