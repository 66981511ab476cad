//! Questions: whole lines are read until they have whole queries.
ghost use Rattle.std.specs.Prelude.{◌≡◌, ◌<◌, ℕ, List, [], length, Some, string_bytes};
ghost use Rattle.iso_model.specs.Session.Sessions.{Script};
ghost use Rattle.iso_session_core.specs.Consoles.{place};
ghost use Rattle.iso_token.specs.Shows.{shown};
ghost use Rattle.iso_toplevel_core.specs.Dialogues.{prompted, newlined, question};
ghost use Rattle.iso_toplevel_core.specs.Questions as questions;
ghost use Rattle.iso_toplevel_core.specs.Screens.{Leads, Finishes, Asks};

use super::faults::Fault;
use super::heard::{Heard, hear};
use iso_session_core::Obstacle;
use iso_session_core::console::Console;
use iso_token::{Kind, Token, Tokens};
use std::alloc::Global;
use std::io::{BufRead, Write};

/// What a person asked.
#[derive(Debug, Drop)]
pub enum Asked {
    /// Queries: the text of whole lines.
    Text(String),
    /// Nothing more: the input is at its end.
    End,
    /// Memory was refused.
    NoMemory,
}

/// Whether a token begins a comment that isn't closed.
fn opens_comment(token: &Token<'_>) -> bool
    ensures { result ≡ questions.opens_comment (shown token.now) }
{
    token.kind == Kind::Bad && token.text == "/"
}

/// Whether the text is whole queries, or has none: its last token is an end token, and no comment is open.
pub fn is_whole(text: &str) -> bool
    ensures { result ≡ questions.is_whole text.now }
{
    let mut tokens = Tokens::new(text);
    let mut whole = true;
    while let Some(token) = tokens.next() {
        if opens_comment(&token) {
            return false;
        }
        whole = token.kind == Kind::End;
    }
    whole
}

/// The prompt before a line: of a text's first, or of another one.
fn prompt(text: &str) -> &'static [u8]
    ensures { result.now ≡ questions.prompt text.now }
{
    if text.is_empty() { b"?- " } else { b"|  " }
}

/// Shows the prompt before a line, where the toplevel waits. The error: a write failed.
fn show_prompt<W: Write>(console: &mut Console<'_, W>, waits: bool, text: &str) -> Result<(), Fault>
    ensures leads { (rest : Script) → Leads (place W.contents console.old) (place W.contents console.new) (prompted waits text.now rest) rest result }
    ensures writer { console.new.out.ghost_name ≡ console.old.out.ghost_name }
{
    if waits {
        console.write_output(prompt(text))?;
    }
    Ok(())
}

/// Ends the line of the last prompt, where the toplevel waits. The error: a write failed.
fn end_line<W: Write>(console: &mut Console<'_, W>, waits: bool) -> Result<(), Fault>
    ensures leads { (rest : Script) → Leads (place W.contents console.old) (place W.contents console.new) (newlined waits rest) rest result }
    ensures writer { console.new.out.ghost_name ≡ console.old.out.ghost_name }
{
    if waits {
        console.write_output(b"\n")?;
    }
    Ok(())
}

/// What there is to run at the end of the input, where this is what was read of a text. The error: a write failed.
fn finish<W: Write>(console: &mut Console<'_, W>, waits: bool, text: String) -> Result<Asked, Fault>
    ensures finishes { (behind : List ℕ → List ℕ → Script)
        → Finishes (place W.contents console.old) (place W.contents console.new) waits (string_bytes text) behind result }
    ensures writer { console.new.out.ghost_name ≡ console.old.out.ghost_name }
{
    end_line(console, waits)?;
    if text.is_empty() {
        Ok(Asked::End)
    } else {
        Ok(Asked::Text(text))
    }
}

/// Reads lines until they are whole queries; where the toplevel waits, a prompt stands before each. At the end of the
/// input what was read is the text. The errors: a write failed, or the input can't be read.
pub fn ask<R: BufRead, W: Write>(
    alloc: Global,
    input: &mut R,
    console: &mut Console<'_, W>,
    waits: bool,
) -> Result<Asked, Fault>
    ensures asks { (xs : List ℕ) → R.remaining input.old ≡ Some xs → (turns : ℕ) → length xs < turns
        → (behind : List ℕ → List ℕ → Script) → Asks (place W.contents console.old) (place W.contents console.new) xs
        (R.remaining input.new) (question waits turns [] xs behind) behind result }
    ensures writer { console.new.out.ghost_name ≡ console.old.out.ghost_name }
{
    let mut text = String::new(alloc);
    for _ in 0..u64::MAX {
        show_prompt(console, waits, text.as_str())?;
        match hear(input, &mut text)? {
            Heard::Line => {
                if is_whole(text.as_str()) {
                    return Ok(Asked::Text(text));
                }
            }
            Heard::End => return finish(console, waits, text),
            Heard::NoMemory => return Ok(Asked::NoMemory),
        }
    }
    Err(Fault::Input(Obstacle::NoEnd))
}
