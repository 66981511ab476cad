//! What is known of the text that is left, so that the end of a comment or of a quoted item that isn't closed is
//! looked for only once.
ghost use Rattle.std.specs.Prelude.{◌≡◌, ◌<◌, ◌≤◌, ◌+◌, ◌⊎◌, ℕ, List, true, None, length, drop, IfSome};
ghost use Rattle.iso_model.specs.Syntax.Lexemes as spec;
ghost use Rattle.iso_model.specs.Syntax.Quoted as quoted;
ghost use Rattle.iso_token.specs.Known.{IsEndless, IsOpenAt, IsKnown};
ghost use Rattle.iso_token.specs.Shows.{lexeme_of};

use crate::kinds::Kind;
use crate::lexemes::Lexeme;
use crate::quoted::{QuotedPiece, item_len, piece_at};

/// What is known of a text.
#[derive(Clone, Copy, Debug)]
pub struct Known {
    /// Whether it is known that no `*/` stands behind the first byte.
    pub endless: bool,
    /// A place from which an item in single quotes isn't closed.
    pub single: Option<usize>,
    /// A place from which an item in double quotes isn't closed.
    pub double: Option<usize>,
}

/// Nothing is known.
pub fn nothing_known() -> Known
    ensures { (text : List ℕ) → IsKnown result text }
{
    Known {
        endless: false,
        single: None,
        double: None,
    }
}

/// How long the item is whose opening quote is the first byte; none where it isn't closed, and where that is known.
pub fn item_end(quote: u8, bytes: &[u8], unclosed: Option<usize>) -> Option<usize>
    requires nonempty { 0 < length bytes.now }
    requires ascii { (0 < quote) × (quote < 128) }
    requires unclosed { IsOpenAt quote unclosed bytes.now }
    ensures value { result ≡ quoted.item_len quote (drop 1 bytes.now) }
    ensures within { IfSome result (λ n. 1 + n ≤ length bytes.now) }
{
    match unclosed {
        Some(1) => None,
        _ => item_len(quote, &bytes[1..]),
    }
}

/// The place behind these first bytes up to which an item that isn't closed from a place on goes on; none where it
/// breaks off before.
fn open_later(quote: u8, bytes: &[u8], place: usize, first: usize) -> Option<usize>
    requires ascii { (0 < quote) × (quote < 128) }
    requires within { first ≤ length bytes.now }
    requires unclosed { quoted.item_len quote (drop place bytes.now) ≡ None }
    ensures { IsOpenAt quote result (drop first bytes.now) }
{
    let mut at = place;
    while at < first {
        let piece = piece_at(quote, &bytes[at..]);
        match piece {
            QuotedPiece::Closes | QuotedPiece::Broken => return None,
            _ => at += piece.len(),
        }
    }
    Some(at - first)
}

/// Whether a token of this kind is a bad character.
fn is_bad(kind: Kind) -> bool
    ensures { result ≡ true → kind ≡ Kind.Bad }
{
    match kind {
        Kind::Bad => true,
        _ => false,
    }
}

/// Where an item in such quotes isn't closed in what stands behind the lexeme at the front of a text.
fn open_behind(quote: u8, bytes: &[u8], unclosed: Option<usize>, lexeme: Lexeme) -> Option<usize>
    requires nonempty { 0 < length bytes.now }
    requires quote { (quote ≡ 39) ⊎ (quote ≡ 34) }
    requires front { lexeme_of lexeme ≡ spec.lexeme bytes.now }
    requires within { lexeme.len ≤ length bytes.now }
    requires unclosed { IsOpenAt quote unclosed bytes.now }
    ensures { IsOpenAt quote result (drop lexeme.len bytes.now) }
{
    if let Some(kind) = lexeme.kind {
        if bytes[0] == quote && is_bad(kind) {
            return open_later(quote, bytes, 1, lexeme.len);
        }
    }
    open_later(quote, bytes, unclosed?, lexeme.len)
}

/// Whether no `*/` comes behind the first byte that a text has left behind the lexeme at its front, as far as that is
/// known: where it was known of the text, or the lexeme is a `/*` that begins no comment.
fn is_endless_behind(bytes: &[u8], endless: bool, lexeme: Lexeme) -> bool
    requires front { lexeme_of lexeme ≡ spec.lexeme bytes.now }
    requires endless { IsEndless endless bytes.now }
    ensures { IsEndless result (drop lexeme.len bytes.now) }
{
    if endless {
        return true;
    }
    match bytes {
        [b'/', b'*', ..] => lexeme.kind.is_some(),
        _ => false,
    }
}

/// What is known of what stands behind the lexeme at the front of a text.
pub fn known_behind(bytes: &[u8], known: Known, lexeme: Lexeme) -> Known
    requires nonempty { 0 < length bytes.now }
    requires front { lexeme_of lexeme ≡ spec.lexeme bytes.now }
    requires within { lexeme.len ≤ length bytes.now }
    requires known { IsKnown known bytes.now }
    ensures { IsKnown result (drop lexeme.len bytes.now) }
{
    Known {
        endless: is_endless_behind(bytes, known.endless, lexeme),
        single: open_behind(b'\'', bytes, known.single, lexeme),
        double: open_behind(b'"', bytes, known.double, lexeme),
    }
}
