//! The messages on a text.
ghost use Rattle.std.specs.Prelude.{◌≡◌, ◌+◌, map, IfOk};
ghost use Rattle.iso_lint.specs.FindingViews.{finding_of};
ghost use Rattle.iso_lint.specs.Marks.{AreMarks};
ghost use Rattle.iso_lint.specs.MessageViews.{message_of};
ghost use Rattle.iso_lint.specs.Messages as spec;
ghost use Rattle.iso_lint.specs.Places.{place_at};
ghost use Rattle.iso_lint.specs.FindingViews.{what_of};

use crate::findings::{Finding, What};
use crate::places::{Marks, Place};
use crate::texts::found_in_text;
use iso_session_core::body_of_text;
use std::alloc::{AllocError, Global};

/// A message on a text.
#[derive(Debug, Drop)]
pub struct Message<'t> {
    /// Where the token stands to which it belongs.
    pub place: Place,
    /// What it says.
    pub what: What<'t>,
    /// Of clauses that are apart, where the procedure's last clause before begins.
    pub before: Option<Place>,
}

/// Where the byte of this number behind the first ones stands.
fn place_behind(marks: &Marks<'_>, first: usize, start: usize) -> Place
    requires { AreMarks marks.now }
    ensures { result ≡ place_at marks.now.text.now (first + start) }
{
    marks.place(first.saturating_add(start))
}

/// Where the procedure's last clause before begins, if the message is of clauses that are apart.
fn before_of(marks: &Marks<'_>, first: usize, what: &What<'_>) -> Option<Place>
    requires { AreMarks marks.now }
    ensures { result ≡ spec.before_of (λ start. place_at marks.now.text.now (first + start)) (what_of what.now) }
{
    match what {
        What::Apart(_, before) => Some(place_behind(marks, first, *before)),
        What::Broken(_) => None,
        What::Once(_) => None,
        What::Unknown(_) => None,
    }
}

/// What was found, as a message.
fn make_message<'t>(marks: &Marks<'_>, first: usize, finding: Finding<'t>) -> Message<'t>
    requires { AreMarks marks.now }
    ensures { message_of result ≡ spec.message (λ start. place_at marks.now.text.now (first + start)) (finding_of finding.entry) }
{
    let Finding { start, what } = finding;
    Message {
        place: place_behind(marks, first, start),
        before: before_of(marks, first, &what),
        what,
    }
}

/// What was found, as messages. The error is that memory was refused.
fn messages_of<'t>(
    alloc: Global,
    marks: &Marks<'_>,
    first: usize,
    found: Vec<Finding<'t>>,
) -> Result<Vec<Message<'t>>, AllocError>
    requires { AreMarks marks.now }
    ensures { IfOk result (λ messages. map message_of messages.items
        ≡ map (spec.message (λ start. place_at marks.now.text.now (first + start))) (map finding_of found.entry.items)) }
{
    let mut messages = Vec::new(alloc);
    for finding in found {
        messages.push(make_message(marks, first, finding))?;
    }
    Ok(messages)
}

/// The messages on a program text, in the order of the text: syntax errors, variables that occur once in their
/// clause and don't begin with `_`, clauses of one procedure that aren't together, and procedures that are called
/// and not defined. Directives that set operators and flags are honoured as they are when the text is consulted
/// (7.4.2). The error is that memory was refused.
pub fn lint<'t>(alloc: Global, text: &'t str) -> Result<Vec<Message<'t>>, AllocError>
    ensures { IfOk result (λ messages. map message_of messages.items ≡ spec.messages text.entry.now) }
{
    let body = body_of_text(text);
    let marks = Marks::new(alloc, text)?;
    let found = found_in_text(alloc, body)?;
    messages_of(alloc, &marks, text.len().saturating_sub(body.len()), found)
}
