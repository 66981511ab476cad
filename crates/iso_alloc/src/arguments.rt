//! Variables that are arguments of a head themselves.
ghost use Rattle.std.specs.Prelude.{◌≡◌, ℕ, ◌+◌, ◌<◌, length, Some, None, get_or, IfOk, option_map};
ghost use Rattle.iso_model.specs.Terms.Trees.{Tree, More, End};
ghost use Rattle.iso_model.specs.Terms.TermOf.{term_of, row_of};
ghost use Rattle.iso_alloc.specs.Plans.{arguments_of, argument_from};
ghost use Rattle.iso_alloc.specs.Arguments.{kept_or};

use iso_model::Term;
use std::alloc::{AllocError, Global};

/// The arguments of the head, where there is one.
pub fn head_arguments<'h>(head: Option<&'h Term>) -> &'h [Term]
    ensures { row_of result.now ≡ arguments_of (option_map (λ h. term_of h.now) head.entry) }
{
    match head {
        Some(Term::Compound(_, arguments)) => arguments.as_slice(),
        _ => &[],
    }
}

/// Notes the argument of this number where it is a variable that none before it is.
fn note(found: &mut [Option<usize>], index: usize, argument: &Term)
    ensures count { length found.new ≡ length found.old }
    ensures found { (x : ℕ) → x < length found.old → get_or found.new x None ≡ kept_or (get_or found.old x None) (argument_from index x (More (term_of argument.now) End)) }
{
    if let Term::Var(number) = argument {
        let variable = *number as usize;
        if variable < found.len() && found[variable].is_none() {
            found[variable] = Some(index);
        }
    }
}

/// For each of so many variables, the first of the arguments that is the variable itself. The error is that memory was
/// refused.
pub fn first_arguments(
    alloc: Global,
    count: usize,
    arguments: &[Term],
) -> Result<Vec<Option<usize>>, AllocError>
    ensures count { IfOk result (λ found. length found.items ≡ count) }
    ensures found { IfOk result (λ found. (x : ℕ) → x < count → get_or found.items x None ≡ argument_from 0 x (row_of arguments.now)) }
{
    let mut found = vec![in alloc; None; count]?;
    for (index, argument) in arguments.iter().enumerate() {
        note(&mut found, index, argument);
    }
    Ok(found)
}
