//! Parts of compounds, with marks: whether the code meets a variable for the first time.
ghost use Rattle.std.specs.Prelude.{◌≡◌, ◌≢◌, ℕ, Some, false, true, ◌+◌, ◌∷◌, [], map, length, IfOk, OnOk};
ghost use Rattle.std.specs.List.{slice_get};
ghost use Rattle.iso_alloc.specs.declared.places.Place.{Place};
ghost use Rattle.iso_compile.specs.Emitting.{is_placed};
ghost use Rattle.iso_model.specs.Terms.TermOf.{term_of, row_of};
ghost use Rattle.iso_compile.specs.Table as table;
ghost use Rattle.iso_compile.specs.TermCode.{tops, part, parts};
ghost use Rattle.iso_compile.specs.Emitted.{part_of, is_met, Marks, AreNew};

use super::instructions::Part;
use iso_alloc::{Place, Plan};
use iso_model::Term;
use std::alloc::{AllocError, Global};

/// The part of a variable; from here on it was met. One that has no place in the plan counts as met before.
pub fn variable_part(plan: &Plan, met: &mut Vec<bool>, variable: usize) -> Part
    requires { length met.old.items ≡ length plan.now.places }
    ensures part { part_of result ≡ table.Place variable }
    ensures marks { Marks plan.now.places (result ∷ []) met.old.items met.new.items }
    ensures met { is_met met.new.items variable ≡ true }
    ensures kept { (x : ℕ) → is_met met.old.items x ≡ true → is_met met.new.items x ≡ true }
    ensures others { (x : ℕ) → x ≢ variable → is_met met.new.items x ≡ is_met met.old.items x }
    ensures new { is_met met.old.items variable ≡ false → (place : Place) → slice_get plan.now.places variable ≡ Some place → is_placed place ≡ true → AreNew (result ∷ []) }
    ensures many { length met.new.items ≡ length met.old.items }
{
    if variable >= met.len() {
        return Part::Old(variable, Place::Nowhere);
    }
    let place = plan.place(variable);
    if met[variable] {
        return Part::Old(variable, place);
    }
    met[variable] = true;
    match place {
        Place::Nowhere => Part::Void(variable),
        Place::Register(_) | Place::Slot(_) => Part::New(variable, place),
    }
}

/// The part of a term, in this register where it is a compound. The error is that memory was refused.
pub fn part_in(
    plan: &Plan,
    met: &mut Vec<bool>,
    register: usize,
    term: &Term,
) -> Result<Part, AllocError>
    requires { length met.old.items ≡ length plan.now.places }
    ensures part { IfOk result (λ p. part_of p ≡ part register (term_of term.now)) }
    ensures marks { IfOk result (λ p. Marks plan.now.places (p ∷ []) met.old.items met.new.items) }
    ensures many { length met.new.items ≡ length met.old.items }
{
    match term {
        Term::Var(number) => Ok(variable_part(plan, met, *number as usize)),
        Term::Int(value) => Ok(Part::Integer(*value)),
        Term::Atom(name) => Ok(Part::Atom(name.clone()?)),
        Term::Compound(_, _) => Ok(Part::Inner(register)),
    }
}

/// The register behind this one. The error is that there is none: no memory holds so many compounds.
pub fn next_register(register: usize) -> Result<usize, AllocError>
    ensures { IfOk result (λ next. next ≡ register + 1) }
{
    register.checked_add(1).ok_or(AllocError)
}

/// The register behind this one where the term is a compound, which takes it; else this one. The error is that there is
/// none.
fn register_behind(register: usize, term: &Term) -> Result<usize, AllocError>
    ensures { IfOk result (λ next. next ≡ register + tops (term_of term.now)) }
{
    match term {
        Term::Compound(_, _) => next_register(register),
        Term::Var(_) | Term::Int(_) | Term::Atom(_) => Ok(register),
    }
}

/// The parts of these terms, whose compounds are in the registers from this one on; and the register behind them. The
/// error is that memory was refused.
pub fn parts_in(
    alloc: Global,
    plan: &Plan,
    met: &mut Vec<bool>,
    register: usize,
    terms: &[Term],
) -> Result<(Vec<Part>, usize), AllocError>
    requires { length met.old.items ≡ length plan.now.places }
    ensures parts { IfOk result (λ r. map part_of r.0.items ≡ parts register (row_of terms.now)) }
    ensures behind { IfOk result (λ r. r.1 ≡ register + tops (row_of terms.now)) }
    ensures marks { IfOk result (λ r. Marks plan.now.places r.0.items met.old.items met.new.items) }
    ensures many { length met.new.items ≡ length met.old.items }
{
    let mut parts = Vec::with_capacity(alloc, terms.len())?;
    let mut next = register;
    for term in terms {
        let part = part_in(plan, met, next, term)?;
        parts.push(part)?;
        next = register_behind(next, term)?;
    }
    Ok((parts, next))
}
