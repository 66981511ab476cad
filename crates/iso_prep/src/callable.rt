//! Whether a term can be converted into a body (7.6.2).
ghost use Rattle.std.specs.Prelude.{◌≡◌, ◌&&◌, ◌+◌, ◌*◌, ◌<◌, IfOk, OnOk};
ghost use Rattle.iso_model.specs.Terms.TermOf.{term_of};
ghost use Rattle.iso_prep.specs.Conversions.{is_callable, are_callable};
ghost use Rattle.iso_prep.specs.Loads.{terms_load};
ghost use Rattle.iso_model.specs.Terms.Sizes.{size};

use super::connectives::control;
use iso_model::Term;
use std::alloc::{AllocError, Global};

/// Whether the term can be called, for all that is seen without its parts, which are left to be looked at.
fn check_next<'t>(parts: &mut Vec<&'t Term>, term: &'t Term) -> Result<bool, AllocError>
    ensures callable { IfOk result (λ may. may && are_callable parts.new.items ≡ is_callable (term_of term.now) && are_callable parts.old.items) }
    ensures load { OnOk result (terms_load parts.new.items < size (term_of term.now) + terms_load parts.old.items) }
{
    if let Some((_, first, second)) = control(term) {
        parts.push(second)?;
        parts.push(first)?;
        return Ok(true);
    }
    match term {
        Term::Int(_) => Ok(false),
        Term::Var(_) | Term::Atom(_) | Term::Compound(_, _) => Ok(true),
    }
}

/// Whether the term can be converted into a body: none of its parts, through conjunctions, disjunctions and if-thens,
/// is a number.
pub fn can_be_called(alloc: Global, term: &Term) -> Result<bool, AllocError>
    ensures { IfOk result (λ can. can ≡ is_callable (term_of term.now)) }
{
    let mut parts = Vec::new(alloc);
    parts.push(term)?;
    while let Some(part) = parts.pop() {
        if !check_next(&mut parts, part)? {
            return Ok(false);
        }
    }
    Ok(true)
}
