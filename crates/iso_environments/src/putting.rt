//! The arguments of a goal that code calls are put.
ghost use Rattle.std.specs.Prelude.{◌≡◌, ◌+◌, ◌++◌, ℕ, [], OnOk, length, map};
ghost use Rattle.std.specs.List.{All};
ghost use Rattle.iso_store_core.specs.Presents.{Grows};
ghost use Rattle.iso_store_core.specs.Retaining.{CountsCells, RetainsAll};
ghost use Rattle.iso_compile.specs.Orders.{parts_cells};
ghost use Rattle.iso_code.specs.Loaded.{IsSound, IsOfCompound, IsInside, part_at, all_operands};
ghost use Rattle.iso_writing.specs.Pushing.{IsHeld, cells_of_blocks};
ghost use Rattle.iso_writing.specs.Writing.{Adds};
ghost use Rattle.iso_machine_core.specs.Goals.{Puts};

use super::words::Words;
use iso_atoms::Atom;
use iso_cells::Cells;
use iso_code::Arguments;
use iso_frames::Rest;
use iso_machine_core::put_arguments;
use iso_store_core::StoreFault;

/// A goal whose arguments were put: its name, and where the list behind it begins.
#[derive(Clone, Copy)]
pub struct Put {
    pub name: Atom,
    pub behind: Option<Rest>,
}

/// Puts the arguments of a goal, all of whose variables were met, as words in place of those that stand. The lists of
/// compounds and of made words lose what they had. The errors: the store is full, or memory was refused.
#[inline(always)]
pub fn put_words<S: Cells>(
    store: &mut S,
    code: &Arguments,
    environment: &[S::Word],
    compounds: &mut Vec<S::Word>,
    words: &mut Words<S::Word>,
    made: &mut Vec<S::Word>,
) -> Result<(), StoreFault>
    requires blocks { All (IsSound (length (S.names store.old)) (length environment.now) code.now.compounds)
        code.now.blocks.items }
    requires compounds { All (IsOfCompound code.now.compounds) code.now.blocks.items }
    requires inside { All (IsInside (length (S.names store.old)) (length environment.now) code.now.compounds)
        code.now.operands.items }
    requires held { All (IsHeld (S.present store.old) environment.now [])
        (code.now.operands.items ++ all_operands code.now.blocks.items) }
    ensures puts { OnOk result (Puts (S.names store.old) code.now (S.present store.old) (S.present store.new)
        environment.now words.new.items) }
    ensures adds { OnOk result (Adds (S.present store.old) (S.present store.new)) }
    ensures cells { CountsCells S.Store → Grows (S.present store.old) (S.present store.new)
        (cells_of_blocks code.now.blocks.items + parts_cells (map (part_at [] 0) code.now.operands.items)) 0 }
    ensures full { result ≡ Err StoreFault.Full → S.full store.new }
    ensures rest { RetainsAll S.Store store.old store.new }
{
    let filler = store.int(0)?;
    let count = code.operands.len();
    words.clear();
    words.grow(count, filler)?;
    let arguments = &mut words.file.as_mut_slice()[0..count];
    put_arguments(store, code, environment, compounds, arguments, made)?;
    Ok(())
}
