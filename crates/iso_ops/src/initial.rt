//! The operators before any is set (6.3.4.4).
ghost use Rattle.std.specs.Prelude.{◌≡◌, [], ◌∷◌, ◌++◌, map, OnOk, OnErr, IfOk};
ghost use Rattle.iso_ops.specs.InitialOperators.{row_of, initial_entries};
ghost use Rattle.iso_ops.specs.Entries.{operator_of, text_of};
ghost use Rattle.iso_ops.specs.Rows.{operators_of};

use crate::specifiers::Spec;
use crate::table::Entry;
use std::alloc::{AllocError, Global};

// Operators of one priority and specifier: both, and the names.
#[derive(Clone, Copy)]
pub(crate) struct Row(u16, Spec, &'static [&'static str]);

// The rows of the standard's table, and two of this project's own.
const ROWS: [Row; 14] = [
    Row(1200, Spec::Xfx, &[":-", "-->"]),
    Row(1200, Spec::Fx, &[":-", "?-"]),
    Row(
        1150,
        Spec::Fx,
        &["dynamic", "discontiguous", "multifile", "initialization"],
    ),
    Row(1100, Spec::Xfy, &[";"]),
    Row(1050, Spec::Xfy, &["->"]),
    Row(1000, Spec::Xfy, &[","]),
    Row(900, Spec::Fy, &["\\+"]),
    Row(
        700,
        Spec::Xfx,
        &[
            "=", "\\=", "==", "\\==", "@<", "@=<", "@>", "@>=", "=..", "is", "=:=", "=\\=", "<",
            "=<", ">", ">=",
        ],
    ),
    Row(500, Spec::Yfx, &["+", "-", "/\\", "\\/"]),
    Row(400, Spec::Yfx, &["*", "/", "//", "rem", "mod", "<<", ">>"]),
    Row(400, Spec::Yfx, &["div"]),
    Row(200, Spec::Xfx, &["**"]),
    Row(200, Spec::Xfy, &["^"]),
    Row(200, Spec::Fy, &["-", "\\"]),
];

// Puts an operator behind the others. The error is that memory was refused; then nothing changed.
pub(crate) fn push_entry(
    entries: &mut Vec<Entry>,
    priority: u16,
    spec: Spec,
    name: &str,
) -> Result<(), AllocError>
    ensures ok { OnOk result (map operator_of entries.new.items ≡ map operator_of entries.old.items ++ row_of priority spec (name.now ∷ [])) }
    ensures err { OnErr result (entries.new.items ≡ entries.old.items) }
{
    let name = String::from_str(*entries.allocator(), name)?;
    entries.push(Entry {
        priority,
        spec,
        name,
    })?;
    Ok(())
}

impl Row {
    // Puts the row's operators behind the others.
    fn push_to(&self, entries: &mut Vec<Entry>) -> Result<(), AllocError>
        ensures { OnOk result (map operator_of entries.new.items ≡ map operator_of entries.old.items ++ row_of self.now.0 self.now.1 (map text_of self.now.2.now)) }
    {
        let Row(priority, spec, names) = *self;
        for name in names {
            push_entry(entries, priority, spec, name)?;
        }
        Ok(())
    }
}

// The entries of these rows. The error is that memory was refused.
fn entries_of(alloc: Global, rows: &[Row]) -> Result<Vec<Entry>, AllocError>
    ensures { IfOk result (λ entries. map operator_of entries.items ≡ operators_of rows.now) }
{
    let mut entries = Vec::new(alloc);
    for row in rows {
        row.push_to(&mut entries)?;
    }
    Ok(entries)
}

// The entries of the initial table. The error is that memory was refused.
pub(crate) fn initial_rows(alloc: Global) -> Result<Vec<Entry>, AllocError>
    ensures { IfOk result (λ entries. map operator_of entries.items ≡ initial_entries) }
{
    entries_of(alloc, &ROWS)
}
