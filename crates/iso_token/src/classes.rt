//! Classes of bytes (ISO/IEC 13211-1:1995, 6.5), and how far a text begins with one of them.
ghost use Rattle.std.specs.Prelude.{◌≡◌, ◌<◌, ◌≤◌, length, slice_index};
ghost use Rattle.std.specs.Char as character;
ghost use Rattle.iso_model.specs.Syntax.Characters as characters;
ghost use Rattle.iso_token.specs.Classes as classes;

use iso_model::characters::{is_alphanumeric, is_graphic};

/// The bases of integers and of codes in escapes (6.4.4, 6.4.2.1).
#[derive(Clone, Copy, Debug)]
pub enum Base {
    Two,
    Eight,
    Ten,
    Sixteen,
}

/// Which bytes a run has.
#[derive(Clone, Copy, Debug)]
pub enum Class {
    /// Letters, digits and `_`.
    Alphanumeric,
    /// Digits of a base, letters in either case.
    DigitOf(Base),
    Graphic,
    /// All but the end of the line.
    InLine,
    /// The bytes of a character of UTF-8 behind its first.
    Continuation,
}

impl Base {
    /// How many digits the base has.
    pub fn radix(self) -> u8
        ensures { result ≡ classes.radix_of self }
    {
        match self {
            Base::Two => 2,
            Base::Eight => 8,
            Base::Ten => 10,
            Base::Sixteen => 16,
        }
    }
}

/// The byte at a place, or 0 behind the end.
pub fn byte(bytes: &[u8], at: usize) -> u8
    ensures value { result ≡ slice_index bytes.now at }
    ensures within { 0 < result → at < length bytes.now }
{
    if at < bytes.len() { bytes[at] } else { 0 }
}

/// The value of a digit or a letter, from 0 to 35; 36 for any other byte.
pub fn digit_value(b: u8) -> u8
    ensures { result ≡ character.digit_value b }
{
    match b {
        b'0'..=b'9' => b - b'0',
        b'A'..=b'Z' => b - b'A' + 10,
        b'a'..=b'z' => b - b'a' + 10,
        _ => 36,
    }
}

/// Whether a byte is layout (6.5.4): a space, or one of the bytes 9 to 13.
pub fn is_layout(b: u8) -> bool
    ensures { result ≡ characters.is_layout b }
{
    b == b' ' || (9 <= b && b <= 13)
}

/// Whether a byte is of the class.
pub fn is_in(class: Class, b: u8) -> bool
    ensures { result ≡ classes.is_of class b }
{
    match class {
        Class::Alphanumeric => is_alphanumeric(b),
        Class::DigitOf(base) => digit_value(b) < base.radix(),
        Class::Graphic => is_graphic(b),
        Class::InLine => b != b'\n',
        Class::Continuation => 128 <= b && b <= 191,
    }
}

/// How many bytes of the class the text begins with.
pub fn run(class: Class, bytes: &[u8]) -> usize
    ensures value { result ≡ characters.run (classes.is_of class) bytes.now }
    ensures within { result ≤ length bytes.now }
{
    let mut end = 0;
    while end < bytes.len() && is_in(class, bytes[end]) {
        end += 1;
    }
    end
}

/// How many bytes the first character of a text has.
pub fn character_len(bytes: &[u8]) -> usize
    requires { 0 < length bytes.now }
    ensures value { result ≡ characters.character_len bytes.now }
    ensures within { (1 ≤ result) × (result ≤ length bytes.now) }
{
    1 + run(Class::Continuation, &bytes[1..])
}
