//! Which terms stand in brackets in their places.
ghost use Rattle.std.specs.Prelude.{◌≡◌, ℕ, List};
ghost use Rattle.iso_model.specs.Syntax.Pieces as pieces;
ghost use Rattle.iso_write.specs.Styles.{style_of};
ghost use Rattle.iso_write.specs.Forms.{form_written};
ghost use Rattle.iso_write.specs.Tasks.{needs_brackets};

use super::forms::Form;
use super::style::Style;
use super::tasks::Place;
use iso_ops::OpTable;

/// Whether the name is an operator of some kind.
fn is_operator_name(name: &str, ops: &OpTable) -> bool
    ensures { (style : pieces.Style) (seen : List ℕ) → result ≡ pieces.is_operator_name style ops.now seen name.now }
{
    ops.prefix(name).is_some() || ops.infix(name).is_some() || ops.postfix(name).is_some()
}

/// Whether what is written is an atom that is an operator.
fn is_operator(form: Form<'_>, style: Style, ops: &OpTable) -> bool
    ensures { (seen : List ℕ) → result ≡ (form_written (style_of style) ops.now seen form.entry).is_operator }
{
    match form {
        Form::Atom(name) => is_operator_name(name, ops) && style.uses_operators(),
        _ => false,
    }
}

/// Whether the term stands in brackets in its place.
pub(crate) fn has_brackets(form: Form<'_>, place: Place<'_>, style: Style, ops: &OpTable) -> bool
    ensures { (seen : List ℕ) → result ≡ needs_brackets place.entry (form_written (style_of style) ops.now seen form.entry) }
{
    let priority = form.priority();
    match place {
        Place::Whole(most) => most < priority,
        Place::Left(operator) => {
            form.is_open() && priority == operator.priority && operator.spec.takes_equal()
                || is_operator(form, style, ops)
                || operator.left() < priority
        }
        Place::Right(operator) => is_operator(form, style, ops) || operator.right() < priority,
    }
}
