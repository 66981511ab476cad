//! A list for compounds, before any of them is made.
ghost use Rattle.std.specs.Prelude.{◌≡◌, OnOk, length};
ghost use Rattle.iso_store_core.specs.Presents.{Grows};
ghost use Rattle.iso_store_core.specs.Retaining.{CountsCells, RetainsAll};
ghost use Rattle.iso_writing.specs.Writing.{Adds};
ghost use Rattle.iso_machine_core.specs.Filling.{AreFillers};

use iso_cells::Cells;
use iso_store_core::StoreFault;

/// Makes room for so many compounds, in place of what the list has. The errors: the store is full, or memory was
/// refused.
pub(crate) fn fill_compounds<S: Cells>(
    store: &mut S,
    count: usize,
    compounds: &mut Vec<S::Word>,
) -> Result<(), StoreFault>
    ensures count { OnOk result (length compounds.new.items ≡ count) }
    ensures fillers { OnOk result (AreFillers (S.present store.new) compounds.new.items) }
    ensures adds { OnOk result (Adds (S.present store.old) (S.present store.new)) }
    ensures cells { CountsCells S.Store → Grows (S.present store.old) (S.present store.new) 0 0 }
    ensures full { result ≡ Err StoreFault.Full → S.full store.new }
    ensures rest { RetainsAll S.Store store.old store.new }
{
    compounds.clear();
    if count == 0 {
        return Ok(());
    }
    let filler = store.int(0)?;
    compounds.resize(count, filler)?;
    Ok(())
}
