//! Numbered variables, as `'$VAR'(N)` is written (ISO/IEC 13211-1:1995, 7.10.5).
ghost use Rattle.std.specs.Prelude.{◌≡◌, ◌+◌, ◌%◌, IfOk, None, if◌then◌else◌};
ghost use Rattle.iso_model.specs.Terms.Trees.{Apply, More, End};
ghost use Rattle.iso_model.specs.Terms.TermOf.{term_of};
ghost use Rattle.iso_model.specs.Syntax.Pieces as pieces;
ghost use Rattle.iso_model.specs.Syntax.Texts as texts;
ghost use Rattle.iso_write.specs.Styles.{style_of};

use super::style::Style;
use iso_model::Term;
use itoa::Buffer;
use std::alloc::{AllocError, Global};

/// The number of the variable that a compound of one argument is written as.
pub(crate) fn variable_number(name: &str, argument: &Term, style: Style) -> Option<u128>
    ensures { result ≡ (if pieces.numbers_variables (style_of style) then pieces.variable_number (Apply name.now (More (term_of argument.now) End)) else None) }
{
    match argument {
        Term::Int(number) if style.numbers_variables() && name == "$VAR" => {
            u128::try_from(*number).ok()
        }
        _ => None,
    }
}

/// The letter of the variable of this number.
pub(crate) fn variable_letter(number: u128) -> u8
    ensures { result ≡ 65 + number % 26 }
{
    b'A' + (number % 26) as u8
}

/// The text of the variable of this number. The error is that memory was refused.
pub(crate) fn numbered_text(alloc: Global, number: u128) -> Result<Vec<u8>, AllocError>
    ensures { IfOk result (λ text. text.items ≡ texts.numbered_variable number) }
{
    let mut text = Vec::new(alloc);
    text.push(variable_letter(number))?;
    let count = number / 26;
    if count != 0 {
        text.extend_from_slice(Buffer::new().format(count).as_bytes())?;
    }
    Ok(text)
}
