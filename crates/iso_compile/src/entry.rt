//! What is done between the head of a clause and its body.
ghost use Rattle.std.specs.Prelude.{◌≡◌, ℕ, ◌<◌, Bool, true, false, List, Some, length, get_or, IfOk, OnOk};
ghost use Rattle.std.specs.List.{slice_get};
ghost use Rattle.iso_compile.specs.Emitted.{Marks, is_met, AreNew};
ghost use Rattle.iso_compile.specs.Emitting.{is_placed, AreMet};

use super::instructions::Part;
use super::parts::variable_part;
use iso_alloc::{Place, Plan};
use std::alloc::{AllocError, Global};

/// Whether something is kept at this place.
pub(crate) fn is_placed(place: Place) -> bool
    ensures { result ≡ is_placed place }
{
    match place {
        Place::Register(_) | Place::Slot(_) => true,
        Place::Nowhere => false,
    }
}

/// Adds a variable of the plan where it has a place, was not met, and isn't born later; from here on it was met. The
/// error is that memory was refused.
fn add_fresh(
    plan: &Plan,
    born: &[bool],
    met: &mut Vec<bool>,
    variable: usize,
    parts: &mut Vec<Part>,
) -> Result<(), AllocError>
    requires many { length met.old.items ≡ length plan.now.places }
    requires within { variable < length plan.now.places }
    ensures marks { OnOk result ((before : List Bool) → Marks plan.now.places parts.old.items before met.old.items → Marks plan.now.places parts.new.items before met.new.items) }
    ensures met { OnOk result ((place : Place) → slice_get plan.now.places variable ≡ Some place → is_placed place ≡ true → get_or born.now variable false ≡ false → is_met met.new.items variable ≡ true) }
    ensures kept { (x : ℕ) → is_met met.old.items x ≡ true → is_met met.new.items x ≡ true }
    ensures born { (x : ℕ) → get_or born.now x false ≡ true → is_met met.new.items x ≡ is_met met.old.items x }
    ensures new { OnOk result (AreNew parts.old.items → AreNew parts.new.items) }
    ensures many { length met.new.items ≡ length met.old.items }
{
    if variable < born.len() && born[variable] {
        return Ok(());
    }
    if !is_placed(plan.place(variable)) || met[variable] {
        return Ok(());
    }
    let part = variable_part(plan, met, variable);
    parts.push(part)?;
    Ok(())
}

/// The variables that have a place, were not met and are not born later, in the order of their numbers: each gets a cell
/// of its own before the body begins. From here on all of them were met. The error is that memory was refused.
pub fn fresh_variables(
    alloc: Global,
    plan: &Plan,
    born: &[bool],
    met: &mut Vec<bool>,
) -> Result<Vec<Part>, AllocError>
    requires { length met.old.items ≡ length plan.now.places }
    ensures marks { IfOk result (λ parts. Marks plan.now.places parts.items met.old.items met.new.items) }
    ensures all { OnOk result (AreMet plan.now.places born.now met.new.items) }
    ensures born { OnOk result ((x : ℕ) → get_or born.now x false ≡ true → is_met met.new.items x ≡ is_met met.old.items x) }
    ensures new { IfOk result (λ parts. AreNew parts.items) }
    ensures many { length met.new.items ≡ length met.old.items }
{
    let mut parts = Vec::new(alloc);
    for variable in 0..plan.variables() {
        add_fresh(plan, born, met, variable, &mut parts)?;
    }
    Ok(parts)
}
