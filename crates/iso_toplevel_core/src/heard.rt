//! Hearing a person: a line of the input.
ghost use Rattle.std.specs.Prelude.{◌≡◌, IfOk, IfErr, string_bytes};
ghost use Rattle.iso_toplevel_core.specs.Screens.{Hears, IsInput};

use super::faults::Fault;
use iso_session_core::Obstacle;
use std::io::{BufRead, ErrorKind};

/// What was heard.
#[derive(Clone, Copy, Debug, PartialEq, Eq)]
pub enum Heard {
    /// A line, or what stands behind the last one.
    Line,
    /// The input is at its end.
    End,
    /// Memory was refused.
    NoMemory,
}

/// Reads a line, with its newline, behind the text. The error: the input can't be read, or the line isn't UTF-8.
pub fn hear<R: BufRead>(input: &mut R, text: &mut String) -> Result<Heard, Fault>
    ensures heard { IfOk result (λ heard. Hears heard (R.remaining input.old) (R.remaining input.new)
        (string_bytes text.old) (string_bytes text.new)) }
    ensures broken { IfErr result IsInput }
{
    match input.read_line(text) {
        Ok(0) => Ok(Heard::End),
        Ok(_) => Ok(Heard::Line),
        Err(error) => match error.kind() {
            ErrorKind::OutOfMemory => Ok(Heard::NoMemory),
            kind => Err(Fault::Input(Obstacle::Refused(kind))),
        },
    }
}
