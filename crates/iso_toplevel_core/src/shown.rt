//! The texts that a toplevel shows, each composed whole before any of it is written.
ghost use Rattle.std.specs.Prelude.{◌≡◌, ℕ, Bool, List, [], ◌∷◌, ◌++◌, drop, map, codes, IfOk, if◌then◌else◌};
ghost use Rattle.iso_model.specs.Terms.TermOf.{term_of};
ghost use Rattle.iso_model.specs.Session.Lines.{text_of};
ghost use Rattle.std.specs.Fmt.{decimal};
ghost use Rattle.iso_session_core.specs.Consoles.{place};
ghost use Rattle.iso_session_core.specs.Named.{names_of};
ghost use Rattle.iso_toplevel_core.specs.Dialogues as dialogues;
ghost use Rattle.iso_toplevel_core.specs.Screens.{Carries, PutsPiece};

use super::faults::Fault;
use iso_model::{Limit, Term};
use iso_ops::OpTable;
use iso_session_core::composed::{append_solution, finish_with_term};
use iso_session_core::console::Console;
use iso_session_core::flows::Flow;
use std::alloc::{AllocError, Global};
use std::io::Write;

/// How a toplevel shows a text.
#[derive(Clone, Copy, Debug, PartialEq, Eq)]
pub struct Screen {
    /// Whether the toplevel waits for a person, whose return key ends lines, too.
    pub waits: bool,
    /// Whether the cursor is within a line.
    pub within: bool,
}

/// What stands before a text: where the toplevel waits and the cursor is within a line, a newline.
fn begun(alloc: Global, screen: Screen) -> Result<Vec<u8>, AllocError>
    ensures { IfOk result (λ bytes. bytes.items ≡ if screen.waits then dialogues.fresh screen.within else []) }
{
    let mut bytes = Vec::new(alloc);
    if screen.waits && screen.within {
        bytes.push(b'\n')?;
    }
    Ok(bytes)
}

/// A text, with this byte behind it where the toplevel waits.
pub fn text(alloc: Global, screen: Screen, text: &[u8], tail: u8) -> Result<Vec<u8>, AllocError>
    ensures { IfOk result (λ bytes. Carries bytes.items (dialogues.shown screen.waits screen.within text.now tail)) }
{
    let mut bytes = begun(alloc, screen)?;
    bytes.extend_from_slice(text)?;
    bytes.push(if screen.waits { tail } else { b'\n' })?;
    Ok(bytes)
}

/// An answer: the values of these variables.
pub fn answer(
    alloc: Global,
    screen: Screen,
    ops: &OpTable,
    names: &[(String, u64)],
    values: &[Term],
) -> Result<Vec<u8>, AllocError>
    ensures { IfOk result (λ bytes. Carries bytes.items
        (dialogues.answer_shown screen.waits screen.within ops.now (names_of names.now) (map term_of values.now))) }
{
    let mut solution = Vec::new(alloc);
    append_solution(alloc, ops, &mut solution, names, values)?;
    match solution.as_slice() {
        [_, equations @ ..] => text(alloc, screen, equations, b' '),
        [] => text(alloc, screen, b"", b' '),
    }
}

/// `no more` behind some answers, and `false` behind none.
pub fn no_more(alloc: Global, screen: Screen, answered: bool) -> Result<Vec<u8>, AllocError>
    ensures { IfOk result (λ bytes. Carries bytes.items
        (dialogues.end_shown screen.waits screen.within (dialogues.no_more answered))) }
{
    let said: &[u8] = if answered { b"no more" } else { b"false" };
    text(alloc, screen, said, b'\n')
}

/// `error BALL`
pub fn error(
    alloc: Global,
    screen: Screen,
    ops: &OpTable,
    ball: &Term,
) -> Result<Vec<u8>, AllocError>
    ensures { IfOk result (λ bytes. Carries bytes.items
        (dialogues.end_shown screen.waits screen.within (codes "error " ++ text_of ops.now (term_of ball.now)))) }
{
    let mut bytes = begun(alloc, screen)?;
    bytes.extend_from_slice(b"error ")?;
    finish_with_term(alloc, ops, &mut bytes, ball)?;
    Ok(bytes)
}

/// `halt N`
pub fn halt(alloc: Global, screen: Screen, status: u8) -> Result<Vec<u8>, AllocError>
    ensures { IfOk result (λ bytes. Carries bytes.items
        (dialogues.end_shown screen.waits screen.within (codes "halt " ++ decimal status))) }
{
    let said = format!(in alloc; "halt {status}")?;
    text(alloc, screen, said.as_bytes(), b'\n')
}

/// Puts a text that was composed, and answers how the toplevel goes on behind it; where it could not be composed
/// nothing is written, and the toplevel stops.
pub fn put<W: Write>(
    console: &mut Console<'_, W>,
    waits: bool,
    piece: Result<Vec<u8>, AllocError>,
    flow: Flow,
) -> Result<Flow, Fault>
    ensures puts { (within : Bool) (text : List ℕ) (tail : ℕ) → IfOk piece (λ bytes. Carries bytes.items (dialogues.shown waits within text tail))
        → PutsPiece (dialogues.shown waits within text tail) flow (place W.contents console.old) (place W.contents console.new) result }
    ensures writer { console.new.out.ghost_name ≡ console.old.out.ghost_name }
{
    if !waits {
        return Ok(console.put_line(piece, flow)?);
    }
    let Ok(piece) = piece else {
        return Ok(Flow::Stops(Limit::Memory));
    };
    console.write_output(piece.as_slice())?;
    Ok(flow)
}
