//! A token and its kind (ISO/IEC 13211-1:1995, 6.4).
ghost use Rattle.std.specs.Prelude.{◌≡◌, ◌<◌, IfOk, string_bytes};
ghost use Rattle.iso_model.specs.Syntax.Token as spec;

use crate::classes::byte;
use crate::numbers::integer_at;
use crate::quoted::item_content;
use iso_model::NoMemory;
use std::alloc::Global;

/// The kinds of tokens.
#[derive(Clone, Copy, Debug, PartialEq, Eq)]
pub enum Kind {
    /// An unquoted name: of letters, digits and `_`, of graphic characters, `!` or `;` (6.4.2).
    Name,
    /// A name in single quotes (6.4.2.1).
    Quoted,
    /// An item in double quotes (6.4.6).
    Double,
    /// A variable (6.4.3).
    Variable,
    /// An integer (6.4.4).
    Integer,
    /// A bracket, a brace, a comma or the bar (6.4.8).
    Punct,
    /// The full stop that ends a clause (6.4.8).
    End,
    /// A character that begins no token (own).
    Bad,
}

/// A token of a text.
#[derive(Clone, Copy, Debug)]
pub struct Token<'t> {
    pub kind: Kind,
    /// The part of the text that it is.
    pub text: &'t str,
    /// The place in the text of its first byte.
    pub start: usize,
    /// Whether layout or a comment stands directly before it.
    pub after_layout: bool,
}

/// The characters of an item that begins with such a quote; any other text stands for itself.
fn unquoted(alloc: Global, quote: u8, text: &str) -> Result<String, NoMemory>
    requires { (0 < quote) × (quote < 128) }
    ensures { IfOk result (λ content. string_bytes content ≡ spec.unquoted quote text.now) }
{
    if byte(text.as_bytes(), 0) == quote {
        let (_, item) = text.split_at(1);
        item_content(alloc, quote, item)
    } else {
        String::from_str(alloc, text)
    }
}

impl<'t> Token<'t> {
    ghost use Rattle.iso_token.specs.Shows.{shown};

    /// An integer's value; none for one above 2^127 (own limit), and for other kinds (6.4.4). It takes no memory.
    pub fn magnitude(&self) -> Option<u128>
        ensures { result ≡ spec.magnitude (shown self.now) }
    {
        match self.kind {
            Kind::Integer => integer_at(self.text.as_bytes()).value,
            _ => None,
        }
    }

    /// The characters that it stands for. The error is that memory was refused.
    pub fn content(&self, alloc: Global) -> Result<String, NoMemory>
        ensures { IfOk result (λ text. string_bytes text ≡ spec.content (shown self.now)) }
    {
        match self.kind {
            Kind::Quoted => unquoted(alloc, b'\'', self.text),
            Kind::Double => unquoted(alloc, b'"', self.text),
            _ => String::from_str(alloc, self.text),
        }
    }
}
