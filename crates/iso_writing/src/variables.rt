//! Variables that come with cells of their own.
ghost use Rattle.std.specs.Prelude.{◌≡◌, ◌<◌, ◌+◌, ◌^◌, ℕ, Bool, OnOk, [], ◌∷◌, length, true, false};
ghost use Rattle.std.specs.List.{All};
ghost use Rattle.iso_store_core.specs.Presents.{Grows};
ghost use Rattle.iso_store_core.specs.Retaining.{RetainsAll};
ghost use Rattle.iso_compile.specs.CodeLaws.{State};
ghost use Rattle.iso_code.specs.Loaded.{IsInside, AreMarked, all_operands};
ghost use Rattle.iso_code.specs.Standing.{Files, Setting, Stands};
ghost use Rattle.iso_writing.specs.Pushing.{news};
ghost use Rattle.iso_writing.specs.Writing.{Widens, MakesVariables};

use iso_cells::Cells;
use iso_code::{Block, Operand};
use iso_store_core::StoreFault;

/// Makes the variable of an operand that is met for the first time; its word is at its place from here on.
#[inline(always)]
fn make_variable<S: Cells>(
    store: &mut S,
    first: u64,
    operand: &Operand,
    environment: &mut [S::Word],
) -> Result<(), StoreFault>
    requires stands { (f : Files S.Word) × (t : Setting) × (met : ℕ → Bool) × (state : State) × Stands (S.present store.old) f t met state
        × (f.environment ≡ environment.old) × (t.first ≡ first) × AreMarked met (operand.now ∷ []) }
    requires inside { (names compounds : ℕ) × IsInside names (length environment.old) compounds operand.now }
    requires numbers { (S.present store.old).next < 2 ^ 63 }
    ensures makes { OnOk result (MakesVariables (operand.now ∷ []) first (S.present store.old) (S.present store.new) environment.old environment.new) }
    ensures widens { OnOk result (Widens (S.present store.old) (S.present store.new)) }
    ensures count { length environment.new ≡ length environment.old }
    ensures cells { Grows (S.present store.old) (S.present store.new) (news (operand.now ∷ [])) (news (operand.now ∷ [])) }
    ensures full { result ≡ Err StoreFault.Full → S.full store.new }
    ensures rest { RetainsAll S.Store store.old store.new }
{
    if let Operand::New(variable) = operand {
        let index = *variable;
        environment[index] = store.variable(first + index as u64)?;
    }
    Ok(())
}

/// Makes the variables of the operands that are met for the first time, which are numbered from `first` on by their
/// numbers in the clause; their words are at their places from here on. The errors: the store is full, or memory was
/// refused.
pub fn make_variables<S: Cells>(
    store: &mut S,
    first: u64,
    operands: &[Operand],
    environment: &mut [S::Word],
) -> Result<(), StoreFault>
    requires stands { (f : Files S.Word) × (t : Setting) × (met : ℕ → Bool) × (state : State) × Stands (S.present store.old) f t met state
        × (f.environment ≡ environment.old) × (t.first ≡ first) × AreMarked met operands.now }
    requires inside { (names compounds : ℕ) × All (IsInside names (length environment.old) compounds) operands.now }
    requires numbers { (S.present store.old).next < 2 ^ 63 }
    ensures makes { OnOk result (MakesVariables operands.now first (S.present store.old) (S.present store.new) environment.old environment.new) }
    ensures widens { OnOk result (Widens (S.present store.old) (S.present store.new)) }
    ensures count { length environment.new ≡ length environment.old }
    ensures cells { Grows (S.present store.old) (S.present store.new) (news operands.now) (news operands.now) }
    ensures full { result ≡ Err StoreFault.Full → S.full store.new }
    ensures rest { RetainsAll S.Store store.old store.new }
{
    for operand in operands {
        make_variable(store, first, operand, environment)?;
    }
    Ok(())
}

/// The same for the operands of blocks.
pub fn make_all_variables<S: Cells>(
    store: &mut S,
    first: u64,
    blocks: &[Block],
    environment: &mut [S::Word],
) -> Result<(), StoreFault>
    requires stands { (f : Files S.Word) × (t : Setting) × (met : ℕ → Bool) × (state : State) × Stands (S.present store.old) f t met state
        × (f.environment ≡ environment.old) × (t.first ≡ first) × AreMarked met (all_operands blocks.now) }
    requires inside { (names compounds : ℕ) × All (IsInside names (length environment.old) compounds) (all_operands blocks.now) }
    requires numbers { (S.present store.old).next < 2 ^ 63 }
    ensures makes { OnOk result (MakesVariables (all_operands blocks.now) first (S.present store.old) (S.present store.new) environment.old environment.new) }
    ensures widens { OnOk result (Widens (S.present store.old) (S.present store.new)) }
    ensures count { length environment.new ≡ length environment.old }
    ensures cells { Grows (S.present store.old) (S.present store.new) (news (all_operands blocks.now)) (news (all_operands blocks.now)) }
    ensures full { result ≡ Err StoreFault.Full → S.full store.new }
    ensures rest { RetainsAll S.Store store.old store.new }
{
    for block in blocks {
        make_variables(store, first, block.operands.as_slice(), environment)?;
    }
    Ok(())
}
