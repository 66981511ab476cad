//! What is still to be written of a term, part by part.
ghost use Rattle.std.specs.Prelude.{◌≡◌};

use super::forms::Operator;
use iso_model::Term;

/// Where a term stands, and so when it stands in brackets.
#[derive(Clone, Copy)]
pub(crate) enum Place<'t> {
    /// An argument, an element, in braces or the whole, of at most this priority.
    Whole(u16),
    /// The left operand of this operator.
    Left(Operator<'t>),
    /// The right operand, or a prefix operator's.
    Right(Operator<'t>),
}

/// A part of a text that is still to be written.
#[derive(Clone, Copy)]
pub(crate) enum Task<'t> {
    /// A piece, as it stands.
    Mark(&'t str),
    /// A name, quoted where the style quotes and it needs it.
    Name(&'t str),
    /// A variable.
    Variable(u64),
    /// A numbered variable.
    NumberedVariable(u128),
    /// An integer.
    Integer(i128),
    /// A space before the next piece.
    Gap,
    /// A term in its place, in brackets where it needs them.
    Placed(&'t Term, Place<'t>),
    /// A term without brackets.
    Bare(&'t Term),
    /// What a list's tail adds behind the elements, with the closing bracket.
    Tail(&'t Term),
    /// Further arguments, each behind a comma.
    Others(&'t [Term]),
}
