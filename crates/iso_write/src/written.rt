//! The text of a term, task by task.
ghost use Rattle.std.specs.Prelude.{◌≡◌, ◌<◌, ◌+◌, ◌∷◌, ◌++◌, ℕ, List, take, length, IfOk, OnOk};
ghost use Rattle.std.specs.Fmt.{signed_decimal};
ghost use Rattle.iso_model.specs.Terms.TermOf.{term_of};
ghost use Rattle.iso_model.specs.Syntax.Texts.{variable_text, numbered_variable};
ghost use Rattle.iso_model.specs.Syntax.Pieces as pieces;
ghost use Rattle.iso_write.specs.Styles.{style_of};
ghost use Rattle.iso_write.specs.Edges.{behind};
ghost use Rattle.iso_write.specs.Tasks.{pieces_of, with_task, task_load, tasks_load};

use super::edges::{Edge, append_piece};
use super::forms::form_of;
use super::names::{append_name, is_bare};
use super::numbered::numbered_text;
use super::parts::{push_form, push_others, push_placed, push_tail};
use super::style::Style;
use super::tasks::{Place, Task};
use iso_model::{Numbering, Term};
use iso_ops::OpTable;
use itoa::Buffer;
use std::alloc::{AllocError, Global};

/// Appends a name, quoted where the style quotes and it needs it.
fn append_name_piece(
    alloc: Global,
    out: &mut Vec<u8>,
    edge: Edge,
    name: &str,
    style: Style,
) -> Result<Edge, AllocError>
    ensures text { IfOk result (λ after. (ps : List pieces.Piece) → out.new.items ++ behind after ps ≡ out.old.items ++ behind edge (pieces.piece (pieces.name_bytes (style_of style) name.now) ∷ ps)) }
    ensures kept { take (length out.old.items) out.new.items ≡ out.old.items }
{
    if !style.quotes() || is_bare(name) {
        return append_piece(out, edge, name.as_bytes());
    }
    let mut text = Vec::new(alloc);
    append_name(alloc, &mut text, name)?;
    append_piece(out, edge, text.as_slice())
}

/// Appends a variable: `_k`, where it is the k-th of these.
fn append_variable(
    alloc: Global,
    out: &mut Vec<u8>,
    edge: Edge,
    number: u64,
    seen: &Numbering,
) -> Result<Edge, AllocError>
    ensures text { IfOk result (λ after. (ps : List pieces.Piece) → out.new.items ++ behind after ps ≡ out.old.items ++ behind edge (pieces.piece (variable_text seen.now number) ∷ ps)) }
    ensures kept { take (length out.old.items) out.new.items ≡ out.old.items }
{
    let place = seen.place(number).unwrap_or(seen.len());
    let text = format!(in alloc; "_{}", place + 1)?;
    append_piece(out, edge, text.as_bytes())
}

/// Appends a numbered variable.
fn append_numbered_variable(
    alloc: Global,
    out: &mut Vec<u8>,
    edge: Edge,
    number: u128,
) -> Result<Edge, AllocError>
    ensures text { IfOk result (λ after. (ps : List pieces.Piece) → out.new.items ++ behind after ps ≡ out.old.items ++ behind edge (pieces.piece (numbered_variable number) ∷ ps)) }
    ensures kept { take (length out.old.items) out.new.items ≡ out.old.items }
{
    let text = numbered_text(alloc, number)?;
    append_piece(out, edge, text.as_slice())
}

/// Appends an integer.
fn append_integer(out: &mut Vec<u8>, edge: Edge, value: i128) -> Result<Edge, AllocError>
    ensures text { IfOk result (λ after. (ps : List pieces.Piece) → out.new.items ++ behind after ps ≡ out.old.items ++ behind edge (pieces.piece (signed_decimal value) ∷ ps)) }
    ensures kept { take (length out.old.items) out.new.items ≡ out.old.items }
{
    let mut buffer = Buffer::new();
    append_piece(out, edge, buffer.format(value).as_bytes())
}

/// How a line's terms are written.
#[derive(Clone, Copy)]
pub(crate) struct Manner<'s> {
    pub(crate) alloc: Global,
    pub(crate) style: Style,
    pub(crate) ops: &'s OpTable,
    /// The line's variables.
    pub(crate) seen: &'s Numbering,
}

/// Appends a piece, or puts the parts of a task before the other tasks.
fn take_turn<'t>(
    manner: Manner<'_>,
    out: &mut Vec<u8>,
    edge: Edge,
    todo: &mut Vec<Task<'t>>,
    task: Task<'t>,
) -> Result<Edge, AllocError>
    ensures text { IfOk result (λ after. out.new.items ++ behind after (pieces_of (style_of manner.entry.style) manner.entry.ops.now manner.entry.seen.now todo.new.items)
        ≡ out.old.items ++ behind edge (with_task (style_of manner.entry.style) manner.entry.ops.now manner.entry.seen.now task.entry (pieces_of (style_of manner.entry.style) manner.entry.ops.now manner.entry.seen.now todo.old.items))) }
    ensures kept { take (length out.old.items) out.new.items ≡ out.old.items }
    ensures load { OnOk result (tasks_load todo.new.items < task_load task.entry + tasks_load todo.old.items) }
{
    let Manner {
        alloc,
        style,
        ops,
        seen,
    } = manner;
    match task {
        Task::Mark(text) => append_piece(out, edge, text.as_bytes()),
        Task::Name(name) => append_name_piece(alloc, out, edge, name, style),
        Task::Variable(number) => append_variable(alloc, out, edge, number, seen),
        Task::NumberedVariable(number) => append_numbered_variable(alloc, out, edge, number),
        Task::Integer(value) => append_integer(out, edge, value),
        Task::Gap => Ok(edge.with_gap()),
        Task::Placed(term, place) => {
            push_placed(todo, term, place, style, ops)?;
            Ok(edge)
        }
        Task::Bare(term) => {
            push_form(todo, form_of(term, style, ops), style, ops)?;
            Ok(edge)
        }
        Task::Tail(tail) => {
            push_tail(todo, tail, style, ops)?;
            Ok(edge)
        }
        Task::Others(arguments) => {
            push_others(todo, arguments)?;
            Ok(edge)
        }
    }
}

/// Appends the text of a term in a place of at most this priority. The error is that memory was refused.
pub(crate) fn append_text(
    manner: Manner<'_>,
    out: &mut Vec<u8>,
    term: &Term,
    priority: u16,
) -> Result<(), AllocError>
    ensures text { OnOk result (out.new.items ≡ out.old.items ++ pieces.text_at (style_of manner.entry.style) manner.entry.ops.now manner.entry.seen.now priority (term_of term.now)) }
    ensures kept { take (length out.old.items) out.new.items ≡ out.old.items }
{
    let mut todo = Vec::new(manner.alloc);
    todo.push(Task::Placed(term, Place::Whole(priority)))?;
    let mut edge = Edge::start();
    while let Some(task) = todo.pop() {
        edge = take_turn(manner, out, edge, &mut todo, task)?;
    }
    Ok(())
}
