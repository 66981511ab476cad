//! What a person decides behind an answer.
ghost use Rattle.std.specs.Prelude.{◌≡◌, ℕ, List, Some};
ghost use Rattle.iso_model.specs.Session.Sessions.{Script};
ghost use Rattle.iso_session_core.specs.Consoles.{place};
ghost use Rattle.iso_toplevel_core.specs.Questions as questions;
ghost use Rattle.iso_toplevel_core.specs.Screens.{Decides};

use super::faults::Fault;
use super::heard::{Heard, hear};
use iso_session_core::console::Console;
use std::alloc::Global;
use std::io::{BufRead, Write};

/// Whether the query goes on.
#[derive(Clone, Copy, Debug, PartialEq, Eq)]
pub enum Decision {
    /// The next answer is wanted.
    Next,
    /// The rest of the query is dropped.
    Stop,
    /// Memory was refused.
    NoMemory,
}

/// Whether what was typed behind an answer asks for the next one: `;`, or a space.
fn asks_next(line: &str) -> bool
    ensures { result ≡ questions.asks_next line.now }
{
    match line.as_bytes() {
        [first, ..] => *first == b';' || *first == b' ',
        [] => false,
    }
}

/// Waits for the person's decision; where the toplevel doesn't wait, the next answer is wanted. The end of the input
/// drops the query. The errors: the input can't be read, or the newline behind its end can't be written.
pub fn decide<R: BufRead, W: Write>(
    alloc: Global,
    input: &mut R,
    console: &mut Console<'_, W>,
    waits: bool,
) -> Result<Decision, Fault>
    ensures decides { (xs : List ℕ) → R.remaining input.old ≡ Some xs → (on stop : List ℕ → Script)
        → Decides waits (place W.contents console.old) (place W.contents console.new) xs (R.remaining input.new) on stop result }
    ensures writer { console.new.out.ghost_name ≡ console.old.out.ghost_name }
{
    if !waits {
        return Ok(Decision::Next);
    }
    let mut line = String::new(alloc);
    match hear(input, &mut line)? {
        Heard::Line => {
            if asks_next(line.as_str()) {
                Ok(Decision::Next)
            } else {
                Ok(Decision::Stop)
            }
        }
        Heard::End => {
            console.write_output(b"\n")?;
            Ok(Decision::Stop)
        }
        Heard::NoMemory => Ok(Decision::NoMemory),
    }
}
