//! Quoted items, piece by piece (ISO/IEC 13211-1:1995, 6.4.2.1 and 6.4.6).
ghost use Rattle.std.specs.Prelude.{◌≡◌, ◌<◌, ◌≤◌, ◌++◌, length, IfSome, IfOk, string_bytes};
ghost use Rattle.iso_model.specs.Syntax.Numbers as numbers;
ghost use Rattle.iso_model.specs.Syntax.Quoted as spec;
ghost use Rattle.iso_token.specs.Quoted.{len_of, stood_for, piece_of, IsWithin};
ghost use Rattle.std.specs.Result.{OnOk};

use crate::classes::{byte, character_len};
use crate::numbers::{Escape, escape_at};
use iso_model::NoMemory;
use std::alloc::Global;

/// What may stand at a place within quotes.
#[derive(Clone, Copy, Debug)]
pub enum QuotedPiece {
    /// The quote that closes the item.
    Closes,
    /// A character of so many bytes, which stands for itself.
    Plain(usize),
    /// An escape, or a quote written twice.
    Escaped(Escape),
    /// A backslash before a newline: two bytes that stand for nothing.
    Continuation,
    /// Nothing that may stand there.
    Broken,
}

impl QuotedPiece {
    /// How many bytes it has.
    pub fn len(self) -> usize
        ensures { result ≡ len_of self }
    {
        match self {
            QuotedPiece::Closes | QuotedPiece::Broken => 1,
            QuotedPiece::Plain(len) => len,
            QuotedPiece::Escaped(escape) => escape.len,
            QuotedPiece::Continuation => 2,
        }
    }
}

/// The piece that begins with a backslash.
fn escaped(bytes: &[u8]) -> QuotedPiece
    requires { 0 < length bytes.now }
    ensures value { piece_of bytes.now result ≡ spec.escaped (numbers.escape bytes.now) }
    ensures within { IsWithin (length bytes.now) result }
{
    match escape_at(bytes) {
        Some(escape) => QuotedPiece::Escaped(escape),
        None => QuotedPiece::Broken,
    }
}

/// The piece at the front of a text that isn't empty, between such quotes.
#[tactic(auto, unfolding(iso_model::specs::Syntax::Quoted::piece_at))]
pub fn piece_at(quote: u8, bytes: &[u8]) -> QuotedPiece
    requires nonempty { 0 < length bytes.now }
    requires ascii { (0 < quote) × (quote < 128) }
    ensures value { piece_of bytes.now result ≡ spec.piece_at quote bytes.now }
    ensures within { IsWithin (length bytes.now) result }
{
    match bytes[0] {
        b if b == quote && byte(bytes, 1) == quote => QuotedPiece::Escaped(Escape {
            character: char::from(quote),
            len: 2,
        }),
        b if b == quote => QuotedPiece::Closes,
        b'\n' => QuotedPiece::Broken,
        b'\\' if byte(bytes, 1) == b'\n' => QuotedPiece::Continuation,
        b'\\' => escaped(bytes),
        _ => QuotedPiece::Plain(character_len(bytes)),
    }
}

/// How long the item behind an opening quote is, with the quote that closes it, if one does.
pub fn item_len(quote: u8, bytes: &[u8]) -> Option<usize>
    requires { (0 < quote) × (quote < 128) }
    ensures value { result ≡ spec.item_len quote bytes.now }
    ensures within { IfSome result (λ n. n ≤ length bytes.now) }
{
    let mut at = 0;
    while at < bytes.len() {
        let piece = piece_at(quote, &bytes[at..]);
        match piece {
            QuotedPiece::Closes => return Some(at + 1),
            QuotedPiece::Broken => return None,
            _ => at += piece.len(),
        }
    }
    None
}

/// Adds what a piece stands for, which has this text.
fn add_piece(content: &mut String, piece: QuotedPiece, text: &str) -> Result<(), NoMemory>
    ensures { OnOk result (string_bytes content.new ≡ string_bytes content.old ++ stood_for piece text.now) }
{
    match piece {
        QuotedPiece::Plain(_) => content.push_str(text),
        QuotedPiece::Escaped(escape) => content.push(escape.character),
        QuotedPiece::Closes | QuotedPiece::Continuation | QuotedPiece::Broken => Ok(()),
    }
}

/// The characters of the item behind an opening quote. The error is that memory was refused.
pub fn item_content(alloc: Global, quote: u8, item: &str) -> Result<String, NoMemory>
    requires { (0 < quote) × (quote < 128) }
    ensures { IfOk result (λ content. string_bytes content ≡ spec.item_content quote item.now) }
{
    let mut content = String::new(alloc);
    let mut rest = item;
    while !rest.is_empty() {
        let piece = piece_at(quote, rest.as_bytes());
        match piece {
            QuotedPiece::Closes | QuotedPiece::Broken => return Ok(content),
            _ => {
                let (text, behind) = rest.split_at(piece.len());
                add_piece(&mut content, piece, text)?;
                rest = behind;
            }
        }
    }
    Ok(content)
}
