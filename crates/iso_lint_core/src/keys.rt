//! Procedures, by name and number of arguments.
ghost use Rattle.std.specs.Prelude.{◌≡◌, option_map};
ghost use Rattle.iso_model.specs.Search.Keys as model;
ghost use Rattle.iso_model.specs.Terms.TermOf.{term_of};
ghost use Rattle.iso_lint_core.specs.KeyViews.{key_view};

use crate::shapes::{Shape, shape_of};
use iso_model::Term;

/// A procedure's name and number of arguments (7.1.6.6).
#[derive(Clone, Copy, Debug, PartialEq, Eq, Hash)]
pub struct Key<'t> {
    /// Its name.
    pub name: &'t str,
    /// How many arguments it has.
    pub arity: usize,
}

/// The procedure that a goal or a head is of; none where it is a variable or a number.
pub fn key_of(term: &Term) -> Option<Key<'_>>
    ensures { option_map key_view result ≡ model.key_of (term_of term.now) }
{
    match shape_of(term) {
        Shape::Variable => None,
        Shape::Integer(_) => None,
        Shape::Atom(name) => Some(Key { name, arity: 0 }),
        Shape::One(name, _) => Some(Key { name, arity: 1 }),
        Shape::Two(name, _, _) => Some(Key { name, arity: 2 }),
        Shape::Three(name, _, _, _) => Some(Key { name, arity: 3 }),
        Shape::Other(name, arity) => Some(Key { name, arity }),
    }
}
