//! Terms as text, in three styles (ISO/IEC 13211-1:1995, 7.10.5 and 8.14.2; layout and brackets are own).
#![tactic(auto)]

ghost use Rattle.std.specs.Prelude.{◌≡◌, ◌++◌, take, length, OnOk, OnErr};
ghost use Rattle.iso_model.specs.Terms.TermOf.{term_of};
ghost use Rattle.iso_model.specs.Terms.Variables.{distinct_from};
ghost use Rattle.iso_model.specs.Syntax.Pieces.{text_at};
ghost use Rattle.iso_write.specs.Styles.{style_of};

mod brackets;
mod edges;
mod forms;
mod leads;
mod names;
mod numbered;
mod parts;
mod style;
mod tasks;
mod written;

use iso_model::{NoMemory, Numbering, Term};
use iso_ops::OpTable;
use std::alloc::Global;
pub use style::Style;
use written::{Manner, append_text};

/// Appends the text of a term in a place of at most this priority (7.10.5, 8.14.2; layout and brackets are own).
/// `seen` lists the variables named so far, which the term's join by first occurrence; the k-th is written `_k`. The
/// error is that memory was refused; both are as before then.
pub fn write_to(
    alloc: Global,
    out: &mut Vec<u8>,
    term: &Term,
    style: Style,
    priority: u16,
    ops: &OpTable,
    seen: &mut Numbering,
) -> Result<(), NoMemory>
    ensures seen { OnOk result (seen.new ≡ distinct_from seen.old (term_of term.now)) }
    ensures text { OnOk result (out.new.items ≡ out.old.items ++ text_at (style_of style) ops.now (distinct_from seen.old (term_of term.now)) priority (term_of term.now)) }
    ensures refused { OnErr result ((out.new.items ≡ out.old.items) × (seen.new ≡ seen.old)) }
{
    let (length, known) = (out.len(), seen.len());
    let written = append_noting(alloc, out, term, style, priority, ops, seen);
    if written.is_err() {
        out.truncate(length);
        seen.truncate(known);
    }
    written
}

/// Appends the text of a term, whose variables join those seen so far.
fn append_noting(
    alloc: Global,
    out: &mut Vec<u8>,
    term: &Term,
    style: Style,
    priority: u16,
    ops: &OpTable,
    seen: &mut Numbering,
) -> Result<(), NoMemory>
    ensures seen { OnOk result (seen.new ≡ distinct_from seen.old (term_of term.now)) }
    ensures text { OnOk result (out.new.items ≡ out.old.items ++ text_at (style_of style) ops.now (distinct_from seen.old (term_of term.now)) priority (term_of term.now)) }
    ensures out_kept { take (length out.old.items) out.new.items ≡ out.old.items }
    ensures seen_kept { take (length seen.old) seen.new ≡ seen.old }
{
    seen.note_all(alloc, term)?;
    let manner = Manner {
        alloc,
        style,
        ops,
        seen,
    };
    append_text(manner, out, term, priority)
}
