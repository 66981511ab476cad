//! Numbers, character codes and escapes at the front of a text (ISO/IEC 13211-1:1995, 6.4.4 and 6.4.2.1).
ghost use Rattle.std.specs.Prelude.{◌≡◌, ◌+◌, ◌*◌, ◌^◌, ◌<◌, ◌≤◌, ◌-◌, true, length, drop, slice_index, chars, option_map, MatchOption, SomeIff, IfSome};
ghost use Rattle.std.specs.Char as character;
ghost use Rattle.iso_model.specs.Syntax.Numbers as spec;
ghost use Rattle.iso_model.specs.Syntax.Token.{bounded};
ghost use Rattle.iso_token.specs.Classes.{radix_of};
ghost use Rattle.iso_token.specs.Numbers.{bounded_of, escape_of};

use crate::classes::{Base, Class, byte, character_len, digit_value, run};

/// A number as a text writes it.
#[derive(Clone, Copy, Debug)]
pub struct Written {
    /// None for one above 2^127 (own limit).
    pub value: Option<u128>,
    /// How many bytes write it.
    pub len: usize,
}

/// An escape.
#[derive(Clone, Copy, Debug)]
pub struct Escape {
    /// What it stands for.
    pub character: char,
    /// How many bytes it has.
    pub len: usize,
}

/// The greatest value of an integer token: the size of the least integer (own limit).
const MAX_MAGNITUDE: u128 = 170_141_183_460_469_231_731_687_303_715_884_105_728;

/// A number with one more digit; none where it doesn't fit.
fn with_digit(base: Base, value: u128, digit: u8) -> Option<u128>
    ensures { let next = value * radix_of base + character.digit_value digit in MatchOption result (2 ^ 128 ≤ next) (λ n. n ≡ next) }
{
    value
        .checked_mul(u128::from(base.radix()))?
        .checked_add(u128::from(digit_value(digit)))
}

/// The number that digits write; none above `MAX_MAGNITUDE`.
fn number_value(base: Base, digits: &[u8]) -> Option<u128>
    ensures { result ≡ bounded (spec.number_value (radix_of base) digits.now) }
{
    let mut value = 0u128;
    for digit in digits {
        value = with_digit(base, value, *digit)?;
    }
    if value <= MAX_MAGNITUDE {
        Some(value)
    } else {
        None
    }
}

/// The digits of a base at the front of a text.
fn digits_at(base: Base, bytes: &[u8]) -> Written
    ensures value { result ≡ bounded_of (spec.digits_at (radix_of base) bytes.now) }
    ensures within { result.len ≤ length bytes.now }
{
    let len = run(Class::DigitOf(base), bytes);
    Written {
        value: number_value(base, &bytes[..len]),
        len,
    }
}

/// The character that a sign behind a backslash stands for (6.4.2.1).
fn sign_code(sign: u8) -> Option<u8>
    ensures { result ≡ spec.sign_code sign }
{
    match sign {
        b'a' => Some(7),
        b'b' => Some(8),
        b'f' => Some(12),
        b'n' => Some(b'\n'),
        b'r' => Some(b'\r'),
        b't' => Some(b'\t'),
        b'v' => Some(11),
        b'\\' | b'\'' | b'"' | b'`' => Some(sign),
        _ => None,
    }
}

/// The character of a code, where it is one's.
fn character_of(code: u128) -> Option<char>
    ensures { SomeIff result (spec.is_scalar code ≡ true) code }
{
    char::from_u32(u32::try_from(code).ok()?)
}

/// A code in digits of a base, which begin at this place, with the backslash that closes it (6.4.2.1).
fn code_escape(base: Base, from: usize, bytes: &[u8]) -> Option<Escape>
    requires { from ≤ length bytes.now }
    ensures value { option_map escape_of result ≡ spec.code_escape (radix_of base) from bytes.now }
    ensures within { IfSome result (λ e. (1 ≤ e.len) × (e.len ≤ length bytes.now)) }
{
    let digits = digits_at(base, &bytes[from..]);
    let end = from + digits.len;
    if digits.len == 0 || byte(bytes, end) != b'\\' {
        return None;
    }
    Some(Escape {
        character: character_of(digits.value?)?,
        len: end + 1,
    })
}

/// What an escape stands for (6.4.2.1), in a text that begins with its backslash.
pub fn escape_at(bytes: &[u8]) -> Option<Escape>
    ensures value { option_map escape_of result ≡ spec.escape bytes.now }
    ensures within { IfSome result (λ e. (1 ≤ e.len) × (e.len ≤ length bytes.now)) }
{
    match byte(bytes, 1) {
        b'x' => code_escape(Base::Sixteen, 2, bytes),
        b'0'..=b'7' => code_escape(Base::Eight, 1, bytes),
        sign => Some(Escape {
            character: char::from(sign_code(sign)?),
            len: 2,
        }),
    }
}

/// A code with the six bits of one byte more.
fn with_byte(code: u32, b: u8) -> u32
    requires { code < 2 ^ 24 }
    ensures { result ≡ code * 64 + (b - 128) }
{
    code * 64 + u32::from(b.saturating_sub(128))
}

/// The code of the first character of a text, from its bytes.
fn first_code(bytes: &[u8]) -> u32
    ensures { result ≡ slice_index (chars bytes.now) 0 }
{
    match bytes {
        [a, ..] if *a < 128 => u32::from(*a),
        [a, b, ..] if *a < 224 => with_byte(u32::from(a.saturating_sub(192)), *b),
        [a, b, c, ..] if *a < 240 => with_byte(with_byte(u32::from(*a - 224), *b), *c),
        [a, b, c, d, ..] => { with_byte(with_byte(with_byte(u32::from(*a - 240), *b), *c), *d) }
        _ => 0,
    }
}

/// The character behind `0'` (6.4.4): a quote written twice, an escape, or any other but a quote and a newline.
fn quoted_character(bytes: &[u8]) -> Option<Written>
    ensures value { result ≡ option_map bounded_of (spec.quoted_character bytes.now) }
    ensures within { IfSome result (λ w. w.len ≤ length bytes.now) }
{
    match byte(bytes, 0) {
        b'\'' if byte(bytes, 1) == b'\'' => Some(Written {
            value: Some(39),
            len: 2,
        }),
        b'\'' | b'\n' => None,
        b'\\' => {
            let escape = escape_at(bytes)?;
            Some(Written {
                value: Some(u128::from(u32::from(escape.character))),
                len: escape.len,
            })
        }
        _ if bytes.is_empty() => None,
        _ => Some(Written {
            value: Some(u128::from(first_code(bytes))),
            len: character_len(bytes),
        }),
    }
}

/// Digits of a base behind `0` and its letter.
fn based(base: Base, bytes: &[u8]) -> Option<Written>
    requires { 2 ≤ length bytes.now }
    ensures value { result ≡ option_map bounded_of (spec.based (radix_of base) bytes.now) }
    ensures within { IfSome result (λ w. w.len ≤ length bytes.now) }
{
    let digits = digits_at(base, &bytes[2..]);
    if digits.len == 0 {
        return None;
    }
    Some(Written {
        value: digits.value,
        len: 2 + digits.len,
    })
}

/// A character code (6.4.4), in a text that begins with `0'`.
fn character_code(bytes: &[u8]) -> Option<Written>
    requires { 2 ≤ length bytes.now }
    ensures value { result ≡ option_map bounded_of (option_map spec.behind_two (spec.quoted_character (drop 2 bytes.now))) }
    ensures within { IfSome result (λ w. w.len ≤ length bytes.now) }
{
    match quoted_character(&bytes[2..]) {
        Some(code) => Some(Written {
            value: code.value,
            len: 2 + code.len,
        }),
        None => None,
    }
}

/// A character code, or a number in base 2, 8 or 16 (6.4.4).
fn special(bytes: &[u8]) -> Option<Written>
    ensures value { result ≡ option_map bounded_of (spec.special bytes.now) }
    ensures within { IfSome result (λ w. w.len ≤ length bytes.now) }
{
    if byte(bytes, 0) != b'0' {
        return None;
    }
    match byte(bytes, 1) {
        b'\'' => character_code(bytes),
        b'b' => based(Base::Two, bytes),
        b'o' => based(Base::Eight, bytes),
        b'x' => based(Base::Sixteen, bytes),
        _ => None,
    }
}

/// The integer at the front of a text that begins with a digit (6.4.4).
pub fn integer_at(bytes: &[u8]) -> Written
    ensures value { result ≡ bounded_of (spec.integer_at bytes.now) }
    ensures within { result.len ≤ length bytes.now }
{
    match special(bytes) {
        Some(written) => written,
        None => digits_at(Base::Ten, bytes),
    }
}
