//! What stands at the front of a text: the longest token, or layout (ISO/IEC 13211-1:1995, 6.4).
ghost use Rattle.std.specs.Prelude.{◌≡◌, ◌<◌, ◌≤◌, ◌+◌, true, length, drop, slice_index, IfSome};
ghost use Rattle.iso_model.specs.Syntax.Characters as characters;
ghost use Rattle.iso_model.specs.Syntax.Characters.{is_digit, is_graphic};
ghost use Rattle.iso_model.specs.Syntax.Numbers as numbers;
ghost use Rattle.iso_model.specs.Syntax.Lexemes as spec;
ghost use Rattle.iso_token.specs.Classes.{is_of};
ghost use Rattle.iso_token.specs.Known.{IsEndless, IsOpenAt, IsKnown};
ghost use Rattle.iso_token.specs.Shows.{kind_of, lexeme_of};

use crate::classes::{Class, byte, character_len, is_in, is_layout, run};
use crate::kinds::Kind;
use crate::known::{Known, item_end};
use crate::numbers::integer_at;

/// A token's kind, or none for layout and comments, and a length in bytes.
#[derive(Clone, Copy, Debug)]
pub struct Lexeme {
    pub kind: Option<Kind>,
    pub len: usize,
}

/// One character that begins no token.
fn bad_character(bytes: &[u8]) -> Lexeme
    requires { 0 < length bytes.now }
    ensures value { lexeme_of result ≡ spec.bad_character bytes.now }
    ensures within { (1 ≤ result.len) × (result.len ≤ length bytes.now) }
{
    Lexeme {
        kind: Some(Kind::Bad),
        len: character_len(bytes),
    }
}

/// What begins with a quote: an item of this kind (6.4.2.1, 6.4.6), or a bad character where it isn't well closed.
fn quoted(kind: Kind, quote: u8, bytes: &[u8], unclosed: Option<usize>) -> Lexeme
    requires nonempty { 0 < length bytes.now }
    requires ascii { (0 < quote) × (quote < 128) }
    requires unclosed { IsOpenAt quote unclosed bytes.now }
    ensures value { lexeme_of result ≡ spec.quoted (kind_of kind) quote bytes.now }
    ensures within { (1 ≤ result.len) × (result.len ≤ length bytes.now) }
{
    match item_end(quote, bytes, unclosed) {
        None => bad_character(bytes),
        Some(n) => Lexeme {
            kind: Some(kind),
            len: 1 + n,
        },
    }
}

/// How far a bracketed comment goes on, with its first `*/` (6.4.1); none where it has no end.
fn comment_len(bytes: &[u8]) -> Option<usize>
    ensures value { result ≡ spec.comment_len bytes.now }
    ensures within { IfSome result (λ n. n ≤ length bytes.now) }
{
    for (at, b) in bytes.iter().enumerate() {
        if *b == b'*' && byte(bytes, at + 1) == b'/' {
            return Some(at + 2);
        }
    }
    None
}

/// How far the comment that begins with these `/*` goes on behind them; none where it has no end, and where it is
/// known that none comes.
#[tactic(auto, using(crate::proofs::KnownLemmas::no_end_later))]
fn comment_end(bytes: &[u8], endless: bool) -> Option<usize>
    requires long { 2 ≤ length bytes.now }
    requires endless { IsEndless endless bytes.now }
    ensures value { result ≡ spec.comment_len (drop 2 bytes.now) }
    ensures within { IfSome result (λ n. 2 + n ≤ length bytes.now) }
{
    if endless {
        None
    } else {
        comment_len(&bytes[2..])
    }
}

/// What begins with `/*`: a bracketed comment, or a bad character where it has no end.
fn commented(bytes: &[u8], endless: bool) -> Lexeme
    requires long { 2 ≤ length bytes.now }
    requires endless { IsEndless endless bytes.now }
    ensures value { lexeme_of result ≡ spec.commented bytes.now }
    ensures within { (1 ≤ result.len) × (result.len ≤ length bytes.now) }
{
    match comment_end(bytes, endless) {
        None => bad_character(bytes),
        Some(n) => Lexeme {
            kind: None,
            len: 2 + n,
        },
    }
}

/// Whether what stands behind a full stop lets it end a clause (6.4.8): layout, `%` or nothing.
fn stops_clause(bytes: &[u8]) -> bool
    ensures { result ≡ spec.stops_clause bytes.now }
{
    match bytes {
        [] => true,
        [b, ..] => is_layout(*b) || *b == b'%',
    }
}

/// A run of graphic characters: a name (6.4.2), or the end token (6.4.8).
fn graphic(bytes: &[u8]) -> Lexeme
    requires { is_graphic (slice_index bytes.now 0) ≡ true }
    ensures value { lexeme_of result ≡ spec.graphic bytes.now }
    ensures within { (1 ≤ result.len) × (result.len ≤ length bytes.now) }
{
    let len = run(Class::Graphic, bytes);
    if len == 1 && bytes[0] == b'.' && stops_clause(&bytes[1..]) {
        Lexeme {
            kind: Some(Kind::End),
            len: 1,
        }
    } else {
        Lexeme {
            kind: Some(Kind::Name),
            len,
        }
    }
}

/// A lexeme that is a run of bytes of the class.
fn lexeme_of_run(kind: Kind, class: Class, bytes: &[u8]) -> Lexeme
    requires nonempty { 0 < length bytes.now }
    requires begins { is_of class (slice_index bytes.now 0) ≡ true }
    ensures value { lexeme_of result ≡ (Some (kind_of kind), characters.run (is_of class) bytes.now) }
    ensures within { (1 ≤ result.len) × (result.len ≤ length bytes.now) }
{
    Lexeme {
        kind: Some(kind),
        len: run(class, bytes),
    }
}

/// A text that begins with a digit: an integer (6.4.4).
fn integer(bytes: &[u8]) -> Lexeme
    requires nonempty { 0 < length bytes.now }
    requires begins { is_digit (slice_index bytes.now 0) ≡ true }
    ensures value { lexeme_of result ≡ (Some (kind_of Kind.Integer), (numbers.integer_at bytes.now).len) }
    ensures within { (1 ≤ result.len) × (result.len ≤ length bytes.now) }
{
    Lexeme {
        kind: Some(Kind::Integer),
        len: integer_at(bytes).len,
    }
}

/// What begins with none of layout, `%`, letters, `_`, digits and quotes.
fn symbol(bytes: &[u8], endless: bool) -> Lexeme
    requires nonempty { 0 < length bytes.now }
    requires endless { IsEndless endless bytes.now }
    ensures value { lexeme_of result ≡ spec.symbol bytes.now }
    ensures within { (1 ≤ result.len) × (result.len ≤ length bytes.now) }
{
    match bytes[0] {
        b'/' if byte(bytes, 1) == b'*' => commented(bytes, endless),
        b if is_in(Class::Graphic, b) => graphic(bytes),
        b'(' | b')' | b'[' | b']' | b'{' | b'}' | b',' | b'|' => Lexeme {
            kind: Some(Kind::Punct),
            len: 1,
        },
        b'!' | b';' => Lexeme {
            kind: Some(Kind::Name),
            len: 1,
        },
        _ => bad_character(bytes),
    }
}

/// The lexeme at the front of a text that isn't empty, of which this is known.
#[tactic(auto, unfolding(iso_model::specs::Syntax::Lexemes::lexeme))]
pub fn first_lexeme(bytes: &[u8], known: Known) -> Lexeme
    requires nonempty { 0 < length bytes.now }
    requires known { IsKnown known bytes.now }
    ensures value { lexeme_of result ≡ spec.lexeme bytes.now }
    ensures within { (1 ≤ result.len) × (result.len ≤ length bytes.now) }
{
    match bytes[0] {
        b if is_layout(b) => Lexeme { kind: None, len: 1 },
        b'%' => Lexeme {
            kind: None,
            len: run(Class::InLine, bytes),
        },
        b'a'..=b'z' => lexeme_of_run(Kind::Name, Class::Alphanumeric, bytes),
        b'A'..=b'Z' | b'_' => lexeme_of_run(Kind::Variable, Class::Alphanumeric, bytes),
        b'0'..=b'9' => integer(bytes),
        b'\'' => quoted(Kind::Quoted, b'\'', bytes, known.single),
        b'"' => quoted(Kind::Double, b'"', bytes, known.double),
        _ => symbol(bytes, known.endless),
    }
}
