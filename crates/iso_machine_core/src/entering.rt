//! A clause is entered: its head is met with the arguments of a call.
ghost use Rattle.std.specs.Prelude.{◌≡◌, ◌<◌, ◌+◌, ◌++◌, ◌^◌, ℕ, List, [], Bool, IfOk, length, map};
ghost use Rattle.std.specs.List.{All};
ghost use Rattle.iso_model.specs.Terms.Trees.{Tree};
ghost use Rattle.iso_model.specs.Terms.Substitutions.{IsSubstitution};
ghost use Rattle.iso_store_core.specs.Presents.{Holds, Grows};
ghost use Rattle.iso_store_core.specs.Retaining.{CountsCells, RetainsAll};
ghost use Rattle.iso_compile.specs.Orders.{parts_cells};
ghost use Rattle.iso_code.specs.Loaded.{part_at, operand_got, all_operands, met_behind};
ghost use Rattle.iso_writing.specs.Pushing.{news, cells_of_blocks};
ghost use Rattle.iso_machine_core.specs.Entering.{IsEntry, HasEntered, head_operands};

use super::filling::fill_compounds;
use super::heads::meet_head;
use iso_cells::Cells;
use iso_code::{Head, Operand};
use iso_store_core::StoreFault;
use iso_writing::make_variables;

/// Enters a clause for a call with these arguments (7.7.10): the number of the clause's first variable, none where the
/// head and the call don't unify; then it is open what is bound and what the lists have. The environment has a place
/// for each of the clause's variables. Those that the head meets and the fresh ones have their words there. The lists of
/// compounds and of words lose what they had. The caller keeps the next number below 2^63. The errors: the store is
/// full, or memory was refused.
pub fn enter_clause<S: Cells>(
    store: &mut S,
    head: &Head,
    fresh: &[Operand],
    arguments: &[S::Word],
    environment: &mut [S::Word],
    compounds: &mut Vec<S::Word>,
    words: &mut Vec<S::Word>,
) -> Result<Option<u64>, StoreFault>
    requires code { (low : ℕ) × (met : ℕ → Bool) × (ts : Tree) × IsEntry (S.names store.old) head.now fresh.now (length arguments.now) (length environment.old) low met ts }
    requires arguments { All (Holds (S.present store.old)) arguments.now }
    requires few { length environment.old < 2 ^ 32 }
    requires numbers { (S.present store.old).next + length environment.old < 2 ^ 63 }
    ensures entered { (f : List ℕ) (low : ℕ) (met : ℕ → Bool) (ts : Tree) → IsEntry (S.names store.old) head.now fresh.now (length arguments.now) (length environment.old) low met ts
        → IfOk result (λ entered. HasEntered (S.present store.old) (S.present store.new) f arguments.now ts (met_behind met (head_operands head.now ++ fresh.now)) environment.new entered) }
    ensures substitution { IsSubstitution (S.present store.new).substitution }
    ensures environment { length environment.new ≡ length environment.old }
    ensures cells { CountsCells S.Store → Grows (S.present store.old) (S.present store.new)
        (parts_cells (map (part_at [] 0) (map operand_got head.now.gets.items)) + cells_of_blocks head.now.blocks.items + news (all_operands head.now.blocks.items) + news fresh.now)
        (news (all_operands head.now.blocks.items) + news fresh.now) }
    ensures full { result ≡ Err StoreFault.Full → S.full store.new }
    ensures rest { RetainsAll S.Store store.old store.new }
{
    let first = store.reserve(environment.len() as u64);
    fill_compounds(store, head.compounds, compounds)?;
    let compounds = compounds.as_mut_slice();
    if !meet_head(store, first, head, arguments, environment, compounds, words)? {
        return Ok(None);
    }
    make_variables(store, first, fresh, environment)?;
    Ok(Some(first))
}
