//! Numbers as texts write them (8.16.7).
ghost use Rattle.std.specs.Prelude.{◌≡◌, ◌≤◌, ◌^◌, length, drop, option_and_then};
ghost use Rattle.iso_model.specs.Syntax.Characters.{is_layout, run};
ghost use Rattle.iso_model.specs.Syntax.Token.{bounded};
ghost use Rattle.iso_model.specs.Search.AtomTexts.{signed, whole_integer, signed_integer, number_written};

use iso_token::Tokens;

/// The greatest integer (the flag `max_integer`, 7.11.1.2).
const MAX_INTEGER: u128 = 170_141_183_460_469_231_731_687_303_715_884_105_727;

/// Whether a byte is layout (6.5.4): a space, or one of the bytes 9 to 13.
fn is_layout(byte: u8) -> bool
    ensures { result ≡ is_layout byte }
{
    byte == b' ' || (9 <= byte && byte <= 13)
}

/// How many bytes of layout the text begins with.
fn layout_len(bytes: &[u8]) -> usize
    ensures value { result ≡ run is_layout bytes.now }
    ensures within { result ≤ length bytes.now }
{
    let mut end = 0;
    while end < bytes.len() && is_layout(bytes[end]) {
        end += 1;
    }
    end
}

/// The text behind the layout that it begins with.
fn behind_layout(text: &str) -> &str
    ensures { result.now ≡ drop (run is_layout text.now) text.now }
{
    let (_, rest) = text.split_at(layout_len(text.as_bytes()));
    rest
}

/// The size of the integer token that is the whole text; none for one above 2^127 (own limit).
fn whole_integer(text: &str) -> Option<u128>
    ensures { result ≡ option_and_then bounded (whole_integer text.now) }
{
    let bytes = text.as_bytes();
    if bytes.is_empty() || !bytes[0].is_ascii_digit() {
        return None;
    }
    let mut tokens = Tokens::new(text);
    let token = tokens.next()?;
    if token.text.len() < text.len() {
        return None;
    }
    token.magnitude()
}

/// The integer of this sign and this size; none where it has more than 128 bits.
fn signed(negative: bool, size: u128) -> Option<i128>
    requires { size ≤ 2 ^ 127 }
    ensures { result ≡ signed negative size }
{
    if size <= MAX_INTEGER {
        let value = size as i128;
        Some(if negative { -value } else { value })
    } else if negative {
        Some(i128::MIN)
    } else {
        None
    }
}

/// The integer of this sign whose size the text writes.
fn integer(negative: bool, text: &str) -> Option<i128>
    ensures { result ≡ option_and_then (signed negative) (whole_integer text.now) }
{
    let size = whole_integer(text)?;
    signed(negative, size)
}

/// The number that the text writes without layout.
fn signed_integer(text: &str) -> Option<i128>
    ensures { result ≡ signed_integer text.now }
{
    match text.strip_prefix("-") {
        Some(digits) => integer(true, digits),
        None => integer(false, text),
    }
}

/// The number that the text writes: layout may stand before it, and nothing behind it.
pub(crate) fn number_written(text: &str) -> Option<i128>
    ensures { result ≡ number_written text.now }
{
    signed_integer(behind_layout(text))
}
