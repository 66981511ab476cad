//! Where an atom is split into two (8.16.2).
ghost use Rattle.std.specs.Prelude.{◌≡◌, suc, map, length, chars, IfOk};
ghost use Rattle.std.specs.List.{All, range_with_len};
ghost use Rattle.iso_model.specs.Terms.Trees.{Tree, Name};
ghost use Rattle.iso_model.specs.Terms.Arguments.{argument, arity};
ghost use Rattle.iso_model.specs.Search.AtomParts.{split_at};
ghost use Rattle.iso_text.specs.Parts.{AreOf, part_offer, parts_in};

use super::parts::{Part, Parts};
use std::alloc::{AllocError, Global};

/// How many rows there is room for at first.
const FEW: usize = 16;

/// The splits of an atom of this text, at each place from its begin to its end; the first of them is kept last. The
/// error is that memory was refused.
pub(crate) fn splits(alloc: Global, text: &str) -> Result<Vec<Parts>, AllocError>
    ensures offers { IfOk result (λ kept. (t : Tree) → argument 2 t ≡ Name text.now → map (part_offer 4 t) (parts_in kept.items) ≡ map (split_at text.now) (range_with_len 0 (suc (length (chars text.now))))) }
    ensures places { IfOk result (λ kept. (t : Tree) → arity t ≡ 3 → argument 2 t ≡ Name text.now → All (AreOf t) kept.items) }
{
    let mut kept = Vec::with_capacity(alloc, FEW)?;
    for (place, _) in text.char_indices() {
        kept.push(Parts {
            first: Part::Split(place),
            more: 0,
        })?;
    }
    kept.push(Parts {
        first: Part::Split(text.len()),
        more: 0,
    })?;
    kept.reverse();
    Ok(kept)
}
