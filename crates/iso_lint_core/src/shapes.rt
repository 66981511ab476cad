//! What a term is at its top.
ghost use Rattle.std.specs.Prelude.{map};
ghost use Rattle.iso_model.specs.Terms.TermOf.{term_of};
ghost use Rattle.iso_model.specs.Terms.Trees.{Apply, row};
ghost use Rattle.iso_lint_core.specs.Shapes.{IsShape};

use iso_model::Term;

/// What a term is at its top.
#[derive(Clone, Copy)]
pub enum Shape<'t> {
    /// A variable.
    Variable,
    /// An integer.
    Integer(i128),
    /// An atom.
    Atom(&'t str),
    /// A compound of one argument.
    One(&'t str, &'t Term),
    /// A compound of two.
    Two(&'t str, &'t Term, &'t Term),
    /// A compound of three.
    Three(&'t str, &'t Term, &'t Term, &'t Term),
    /// A compound with another number of arguments, which is this.
    Other(&'t str, usize),
}

/// The shape of a compound of this name and these arguments.
fn shape_of_compound<'t>(name: &'t str, arguments: &'t [Term]) -> Shape<'t>
    ensures { IsShape result (Apply name.entry.now (row (map term_of arguments.entry.now))) }
{
    match arguments {
        [first] => Shape::One(name, first),
        [first, second] => Shape::Two(name, first, second),
        [first, second, third] => Shape::Three(name, first, second, third),
        _ => Shape::Other(name, arguments.len()),
    }
}

/// The shape of a term.
pub fn shape_of(term: &Term) -> Shape<'_>
    ensures { IsShape result (term_of term.now) }
{
    match term {
        Term::Var(_) => Shape::Variable,
        Term::Int(value) => Shape::Integer(*value),
        Term::Atom(name) => Shape::Atom(name.as_str()),
        Term::Compound(name, arguments) => {
            shape_of_compound(name.as_str(), arguments.as_slice())
        }
    }
}
