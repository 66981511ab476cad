//! The arguments of a goal are put before its procedure is called.
ghost use Rattle.std.specs.Prelude.{◌≡◌, ◌+◌, ◌++◌, ℕ, [], OnOk, length, map};
ghost use Rattle.std.specs.List.{All};
ghost use Rattle.iso_store_core.specs.Presents.{Grows};
ghost use Rattle.iso_store_core.specs.Retaining.{CountsCells, RetainsAll};
ghost use Rattle.iso_compile.specs.Orders.{parts_cells};
ghost use Rattle.iso_code.specs.Loaded.{IsSound, IsOfCompound, IsInside, part_at, all_operands};
ghost use Rattle.iso_writing.specs.Pushing.{IsHeld, cells_of_blocks};
ghost use Rattle.iso_writing.specs.Writing.{Adds};
ghost use Rattle.iso_machine_core.specs.Goals.{Puts};

use super::filling::fill_compounds;
use iso_cells::Cells;
use iso_code::Arguments;
use iso_store_core::StoreFault;
use iso_writing::{known_words, write_all};

/// Puts the arguments of a goal (`put_variable`, `put_value`, `put_constant`, `put_structure`, `put_list`, `set_..`). All
/// its variables were met. The compounds are made in a list of their own, which loses what it had, as does the list of
/// words. The errors: the store is full, or memory was refused.
pub fn put_arguments<S: Cells>(
    store: &mut S,
    code: &Arguments,
    environment: &[S::Word],
    compounds: &mut Vec<S::Word>,
    arguments: &mut [S::Word],
    words: &mut Vec<S::Word>,
) -> Result<(), StoreFault>
    requires blocks { All (IsSound (length (S.names store.old)) (length environment.now) code.now.compounds) code.now.blocks.items }
    requires compounds { All (IsOfCompound code.now.compounds) code.now.blocks.items }
    requires inside { All (IsInside (length (S.names store.old)) (length environment.now) code.now.compounds) code.now.operands.items }
    requires held { All (IsHeld (S.present store.old) environment.now []) (code.now.operands.items ++ all_operands code.now.blocks.items) }
    requires room { length arguments.old ≡ length code.now.operands.items }
    ensures puts { OnOk result (Puts (S.names store.old) code.now (S.present store.old) (S.present store.new) environment.now arguments.new) }
    ensures adds { OnOk result (Adds (S.present store.old) (S.present store.new)) }
    ensures cells { CountsCells S.Store → Grows (S.present store.old) (S.present store.new) (cells_of_blocks code.now.blocks.items + parts_cells (map (part_at [] 0) code.now.operands.items)) 0 }
    ensures full { result ≡ Err StoreFault.Full → S.full store.new }
    ensures rest { RetainsAll S.Store store.old store.new }
{
    fill_compounds(store, code.compounds, compounds)?;
    let blocks = code.blocks.as_slice();
    write_all(store, blocks, environment, compounds.as_mut_slice(), words)?;
    let operands = code.operands.as_slice();
    known_words(
        store,
        operands,
        environment,
        compounds.as_slice(),
        arguments,
    )
}
