//! Atoms and names of compounds as text: bare, or in quotes where they need them (ISO/IEC 13211-1:1995, 7.10.5).
ghost use Rattle.std.specs.Prelude.{◌≡◌, ◌++◌, OnOk};
ghost use Rattle.std.specs.List.{list_all};
ghost use Rattle.iso_model.specs.Syntax.Characters as characters;
ghost use Rattle.iso_model.specs.Syntax.Pieces as pieces;
ghost use Rattle.iso_model.specs.Syntax.Texts as texts;

use iso_model::characters::{is_alphanumeric, is_graphic};
use std::alloc::{AllocError, Global};

/// Whether the text begins as a bracketed comment does (6.4.1).
fn opens_comment(text: &[u8]) -> bool
    ensures { result ≡ texts.opens_comment text.now }
{
    match text {
        [first, second, ..] => *first == b'/' && *second == b'*',
        _ => false,
    }
}

/// Whether all of the bytes are letters, digits and underscores.
fn are_alphanumeric(bytes: &[u8]) -> bool
    ensures { result ≡ list_all characters.is_alphanumeric bytes.now }
{
    bytes.iter().all(|byte| is_alphanumeric(*byte))
}

/// Whether all of the bytes are graphic characters.
fn are_graphic(bytes: &[u8]) -> bool
    ensures { result ≡ list_all characters.is_graphic bytes.now }
{
    bytes.iter().all(|byte| is_graphic(*byte))
}

/// Whether the text is a name of letters, digits and underscores, or of graphic characters (6.4.2).
fn is_bare_run(text: &str) -> bool
    ensures { result ≡ texts.is_bare_run text.now }
{
    match text.as_bytes() {
        [] => false,
        [first, rest @ ..] if first.is_ascii_lowercase() => are_alphanumeric(rest),
        bytes => are_graphic(bytes) && text != "." && !opens_comment(bytes),
    }
}

/// Whether an atom of this text is written without quotes (6.4.2).
pub(crate) fn is_bare(text: &str) -> bool
    ensures { result ≡ texts.is_bare text.now }
{
    text == "[]" || text == "{}" || text == "!" || text == ";" || is_bare_run(text)
}

/// Whether the name is written as an operator without spaces: a bare run of graphic characters, `,` or `;`.
pub(crate) fn is_symbolic(name: &str) -> bool
    ensures { result ≡ pieces.is_symbolic name.now }
{
    name == "," || name == ";" || is_bare(name) && are_graphic(name.as_bytes())
}

/// Appends a backslash and this byte.
fn append_escape(line: &mut Vec<u8>, byte: u8) -> Result<(), AllocError>
    ensures { OnOk result (line.new.items ≡ line.old.items ++ texts.escaped byte) }
{
    line.push(b'\\')?;
    line.push(byte)?;
    Ok(())
}

/// Appends a byte of a quoted atom (6.4.2.1).
fn append_quoted_byte(alloc: Global, line: &mut Vec<u8>, byte: u8) -> Result<(), AllocError>
    ensures { OnOk result (line.new.items ≡ line.old.items ++ texts.quoted_byte byte) }
{
    match byte {
        b'\\' | b'\'' => append_escape(line, byte),
        7 => append_escape(line, b'a'),
        8 => append_escape(line, b'b'),
        9 => append_escape(line, b't'),
        10 => append_escape(line, b'n'),
        11 => append_escape(line, b'v'),
        12 => append_escape(line, b'f'),
        13 => append_escape(line, b'r'),
        0..=31 | 127 => line.extend_from_slice(format!(in alloc; "\\x{byte:x}\\")?.as_bytes()),
        _ => {
            line.push(byte)?;
            Ok(())
        }
    }
}

/// Appends an atom, or a compound's name. The error is that memory was refused.
pub(crate) fn append_name(alloc: Global, line: &mut Vec<u8>, text: &str) -> Result<(), AllocError>
    ensures { OnOk result (line.new.items ≡ line.old.items ++ texts.name_text text.now) }
{
    if is_bare(text) {
        return line.extend_from_slice(text.as_bytes());
    }
    line.push(b'\'')?;
    for byte in text.as_bytes() {
        append_quoted_byte(alloc, line, *byte)?;
    }
    line.push(b'\'')?;
    Ok(())
}
