//! Tables of operations, by the atoms of their names.
ghost use Rattle.std.specs.Prelude.{◌≡◌, ◌<◌, ℕ, List, length, map, IfOk};
ghost use Rattle.iso_atoms.specs.Texts.{EachOnce, text_at};
ghost use Rattle.iso_model.specs.Search.Arithmetic.{among};
ghost use Rattle.iso_store_core.specs.Retaining.{Retains};
ghost use Rattle.iso_arith.specs.Tables.{IsTable, HaveNames, named_by, rows_of};

use iso_atoms::Atom;
use iso_model::NoMemory;
use iso_store_core::Store;
use std::alloc::Global;

/// These operations by the atoms of their names, which the store makes where it has none. The error is that memory
/// was refused.
pub(crate) fn interned<S: Store, O: Copy>(
    alloc: Global,
    store: &mut S,
    rows: &[(&'static str, O)],
) -> Result<Vec<(Atom, O)>, NoMemory>
    ensures table { IfOk result (λ table. IsTable (S.names store.new) table.items (rows_of rows.now)) }
    ensures rest { Retains S.Store store.old store.new }
    ensures present { S.present store.new ≡ S.present store.old }
{
    let mut table = Vec::new(alloc);
    for (name, operation) in rows {
        let atom = store.intern(name)?;
        table.push((atom, *operation))?;
    }
    Ok(table)
}

/// The operation of this atom, where there is one.
pub(crate) fn find<O: Copy>(table: &[(Atom, O)], name: Atom) -> Option<O>
    ensures { (names : List (List ℕ)) → EachOnce names → HaveNames names table.now → name < length names
        → result ≡ among (map (named_by names) table.now) (text_at names name) }
{
    for (atom, operation) in table {
        if *atom == name {
            return Some(*operation);
        }
    }
    None
}
