//! The names that a goal `op(P, T, Names)` gives.
ghost use Rattle.std.specs.Prelude.{◌≡◌, map, option_map, IfOk};
ghost use Rattle.iso_model.specs.Terms.TermOf.{term_of};
ghost use Rattle.iso_model.specs.Terms.Lists.{dot};
ghost use Rattle.iso_model.specs.Search.Bodies.{two};
ghost use Rattle.iso_lint_core.specs.Names.{IsNameStep, names_listed, names_given};
ghost use Rattle.iso_ops.specs.Entries.{text_of};

use crate::shapes::{Shape, shape_of};
use iso_model::Term;
use std::alloc::{AllocError, Global};

/// What a list of names begins with.
#[derive(Clone, Copy)]
enum NameStep<'t> {
    /// This name, before the others.
    Name(&'t str, &'t Term),
    /// It is the empty list.
    End,
    /// It is no list of atoms.
    NoNames,
}

/// An element of a list of names, before these others.
fn element<'t>(first: &'t Term, others: &'t Term) -> NameStep<'t>
    ensures { IsNameStep result (two dot (term_of first.entry.now) (term_of others.entry.now)) }
{
    match shape_of(first) {
        Shape::Atom(name) => NameStep::Name(name, others),
        _ => NameStep::NoNames,
    }
}

/// What this list of names begins with.
fn name_step(names: &Term) -> NameStep<'_>
    ensures { IsNameStep result (term_of names.now) }
{
    match shape_of(names) {
        Shape::Two(name, first, others) if name == "." => element(first, others),
        Shape::Atom(name) if name == "[]" => NameStep::End,
        Shape::Two(_, _, _) => NameStep::NoNames,
        Shape::Atom(_) => NameStep::NoNames,
        Shape::Variable => NameStep::NoNames,
        Shape::Integer(_) => NameStep::NoNames,
        Shape::One(_, _) => NameStep::NoNames,
        Shape::Three(_, _, _, _) => NameStep::NoNames,
        Shape::Other(_, _) => NameStep::NoNames,
    }
}

/// The names that a list gives; none where it is no list of atoms. The error is that memory was refused.
fn listed_names<'t>(alloc: Global, names: &'t Term) -> Result<Option<Vec<&'t str>>, AllocError>
    ensures { IfOk result (λ found. option_map (λ v. map text_of v.items) found ≡ names_listed (term_of names.entry.now)) }
{
    let mut found = Vec::new(alloc);
    let mut rest = names;
    loop {
        match name_step(rest) {
            NameStep::Name(name, others) => {
                found.push(name)?;
                rest = others;
            }
            NameStep::End => return Ok(Some(found)),
            NameStep::NoNames => return Ok(None),
        }
    }
}

/// The names that an atom, or a list of atoms, gives; none of another term. The error is that memory was refused.
pub fn names_of<'t>(alloc: Global, names: &'t Term) -> Result<Option<Vec<&'t str>>, AllocError>
    ensures { IfOk result (λ found. option_map (λ v. map text_of v.items) found ≡ names_given (term_of names.entry.now)) }
{
    match shape_of(names) {
        Shape::Atom(name) if name != "[]" => {
            let mut found = Vec::new(alloc);
            found.push(name)?;
            Ok(Some(found))
        }
        _ => listed_names(alloc, names),
    }
}
