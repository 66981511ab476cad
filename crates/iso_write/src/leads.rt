//! The byte that the text of a term in its place begins with.
ghost use Rattle.std.specs.Prelude.{◌≡◌, ◌<◌, ℕ, List, map, slice_get};
ghost use Rattle.std.specs.Fmt.{signed_decimal};
ghost use Rattle.iso_ops.specs.Operators as ops;
ghost use Rattle.iso_model.specs.Terms.TermOf.{term_of};
ghost use Rattle.iso_model.specs.Syntax.Pieces as pieces;
ghost use Rattle.iso_write.specs.Styles.{style_of};
ghost use Rattle.iso_write.specs.Forms.{form_written, arguments_written, written};
ghost use Rattle.iso_write.specs.Tasks.{placed, load, form_load};
ghost use Rattle.iso_write.specs.Leads.{lead, front_lead, front_load, infix_lead, postfix_lead};

use super::brackets::has_brackets;
use super::forms::{Form, Operator, form_of};
use super::names::{is_bare, is_symbolic};
use super::numbered::variable_letter;
use super::style::Style;
use super::tasks::Place;
use iso_model::Term;
use iso_ops::OpTable;
use itoa::Buffer;

/// What the text of a term begins with.
#[derive(Clone, Copy)]
enum Front<'t> {
    /// This byte; none where the text is empty.
    Byte(Option<u8>),
    /// The left operand of this operator, behind which this byte stands.
    Left(Operator<'t>, &'t Term, Option<u8>),
}

/// The first byte of a name, quoted where the style quotes and it needs it.
fn name_byte(name: &str, style: Style) -> Option<u8>
    ensures { result ≡ slice_get (pieces.name_bytes (style_of style) name.now) 0 }
{
    if !style.quotes() || is_bare(name) {
        name.as_bytes().first().copied()
    } else {
        Some(b'\'')
    }
}

/// The first byte of an integer.
fn integer_byte(value: i128) -> Option<u8>
    ensures { result ≡ slice_get (signed_decimal value) 0 }
{
    let mut buffer = Buffer::new();
    buffer.format(value).as_bytes().first().copied()
}

/// What stands first behind a postfix operator's operand.
fn postfix_byte(name: &str, style: Style) -> Option<u8>
    ensures { result ≡ postfix_lead (style_of style) name.now }
{
    if is_symbolic(name) {
        name_byte(name, style)
    } else {
        Some(b' ')
    }
}

/// What stands first behind an infix operator's left operand.
fn infix_byte(name: &str, style: Style) -> Option<u8>
    ensures { result ≡ infix_lead (style_of style) name.now }
{
    if name == "," {
        Some(b',')
    } else {
        postfix_byte(name, style)
    }
}

/// The first byte of a name with its arguments.
fn compound_byte(name: &str, arguments: &[Term], style: Style) -> Option<u8>
    ensures { (table : List ops.Operator) (seen : List ℕ) → result ≡ lead (arguments_written (style_of style) table seen name.now (map term_of arguments.now)).bare }
{
    let first = name_byte(name, style);
    if arguments.is_empty() {
        return first;
    }
    first.or(Some(b'('))
}

/// What a form's text begins with.
fn front_of<'t>(form: Form<'t>, style: Style) -> Front<'t>
    ensures lead { (table : List ops.Operator) (seen : List ℕ) → front_lead (style_of style) table seen result ≡ lead (form_written (style_of style) table seen form.entry).bare }
    ensures load { front_load result < form_load form.entry }
{
    match form {
        Form::Variable(_) => Front::Byte(Some(b'_')),
        Form::NumberedVariable(number) => Front::Byte(Some(variable_letter(number))),
        Form::Integer(value) => Front::Byte(integer_byte(value)),
        Form::Atom(name) => Front::Byte(name_byte(name, style)),
        Form::List(..) => Front::Byte(Some(b'[')),
        Form::Braces(_) => Front::Byte(Some(b'{')),
        // An empty name is no symbol, so a space stands behind it.
        Form::Prefix(operator, _) => Front::Byte(name_byte(operator.name, style).or(Some(b' '))),
        Form::Infix(operator, left, _) => {
            Front::Left(operator, left, infix_byte(operator.name, style))
        }
        Form::Postfix(operator, left) => {
            Front::Left(operator, left, postfix_byte(operator.name, style))
        }
        Form::Compound(name, arguments) => Front::Byte(compound_byte(name, arguments, style)),
    }
}

/// The first byte of the text of a term in its place; none where the text is empty.
pub(crate) fn leading_byte<'t>(
    term: &'t Term,
    place: Place<'t>,
    style: Style,
    ops: &OpTable,
) -> Option<u8>
    ensures { (seen : List ℕ) → result ≡ lead (placed place.entry (written (style_of style) ops.now seen (term_of term.now))) }
{
    let (mut term, mut place, mut behind) = (term, place, None);
    loop {
        let form = form_of(term, style, ops);
        if has_brackets(form, place, style, ops) {
            return Some(b'(');
        }
        match front_of(form, style) {
            Front::Byte(byte) => return byte.or(behind),
            Front::Left(operator, left, next) => {
                (term, place, behind) = (left, Place::Left(operator), next.or(behind));
            }
        }
    }
}
