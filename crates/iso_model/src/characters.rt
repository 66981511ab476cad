//! Classes of bytes that texts are read and written by (6.5).
ghost use Rattle.std.specs.Prelude.{◌≡◌};
ghost use Rattle.iso_model.specs.Syntax.Characters as characters;

/// Whether the byte is a letter, a digit or an underscore (6.5.2).
pub fn is_alphanumeric(byte: u8) -> bool
    ensures { result ≡ characters.is_alphanumeric byte }
{
    byte.is_ascii_alphanumeric() || byte == b'_'
}

/// Whether the byte is a graphic character or the backslash (6.5.1, 6.4.2).
pub fn is_graphic(byte: u8) -> bool
    ensures { result ≡ characters.is_graphic byte }
{
    b"#$&*+-./:<=>?@^~\\".contains(&byte)
}
