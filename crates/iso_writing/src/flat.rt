//! Compounds without others in them: a variable that is met for the first time is the argument itself.
ghost use Rattle.std.specs.Prelude.{◌≡◌, ◌<◌, ◌+◌, ◌^◌, ℕ, Bool, List, IfOk, OnOk, [], ◌∷◌, length, map, false};
ghost use Rattle.std.specs.List.{All};
ghost use Rattle.iso_atoms.specs.Texts.{text_at};
ghost use Rattle.iso_model.specs.Terms.Trees.{Apply};
ghost use Rattle.iso_store_core.specs.Presents.{Holds, Grows};
ghost use Rattle.iso_store_core.specs.Retaining.{RetainsAll};
ghost use Rattle.iso_compile.specs.CodeLaws.{State};
ghost use Rattle.iso_compile.specs.Table.{part_term, part_row, made};
ghost use Rattle.iso_code.specs.Loaded.{IsInside, IsNarrow, IsSound, AreMarked, met_behind, part_at, block_at};
ghost use Rattle.iso_code.specs.Standing.{At, Steps, Files, Setting, Stands};
ghost use Rattle.iso_writing.specs.Pushing.{ArePushed, PushesOne, news};
ghost use Rattle.iso_writing.specs.Writing.{Widens, MakesVariables};
ghost use Rattle.iso_code.specs.Standing.{files};

use iso_cells::Cells;
use iso_code::{Block, Operand};
use iso_store_core::StoreFault;

/// Pushes the argument that an operand is; the variable comes where it is met for the first time.
#[inline(always)]
fn push_met<S: Cells>(
    store: &mut S,
    first: u64,
    operand: &Operand,
    environment: &mut [S::Word],
    compounds: &[S::Word],
) -> Result<(), StoreFault>
    requires stands { (f : Files S.Word) × (t : Setting) × (met : ℕ → Bool) × (state : State) × Stands (S.present store.old) f t met state
        × (f.environment ≡ environment.old) × (f.compounds ≡ compounds.now) × (t.first ≡ first) × AreMarked met (operand.now ∷ []) }
    requires inside { IsInside (length (S.names store.old)) (length environment.old) (length compounds.now) operand.now }
    requires narrow { IsNarrow operand.now }
    requires numbers { (S.present store.old).next < 2 ^ 63 }
    ensures makes { OnOk result (MakesVariables (operand.now ∷ []) first (S.present store.old) (S.present store.new) environment.old environment.new) }
    ensures pushed { (arguments : List S.Word) (t : Setting) (met : ℕ → Bool) (state : State) → Stands (S.present store.old) (files environment.old arguments compounds.now) t met state → t.first ≡ first → AreMarked met (operand.now ∷ [])
        → OnOk result (PushesOne S.pushed store.old store.new (S.present store.old).substitution state.subst (part_term first state.registers (part_at (S.names store.old) t.low operand.now))) }
    ensures widens { OnOk result (Widens (S.present store.old) (S.present store.new)) }
    ensures count { length environment.new ≡ length environment.old }
    ensures cells { Grows (S.present store.old) (S.present store.new) 1 (news (operand.now ∷ [])) }
    ensures full { result ≡ Err StoreFault.Full → S.full store.new }
    ensures rest { RetainsAll S.Store store.old store.new }
{
    match operand {
        Operand::New(variable) => {
            let index = *variable;
            environment[index] = store.push_variable(first + index as u64)?;
            Ok(())
        }
        Operand::Old(variable) => store.push_word(environment[*variable]),
        Operand::Integer(value) => store.push_integer(*value),
        Operand::Atom(name) => store.push_atom(*name),
        Operand::Inner(compound) => store.push_word(compounds[*compound]),
    }
}

/// Pushes the arguments that operands are.
#[inline(always)]
fn push_all_met<S: Cells>(
    store: &mut S,
    first: u64,
    operands: &[Operand],
    environment: &mut [S::Word],
    compounds: &[S::Word],
) -> Result<(), StoreFault>
    requires stands { (f : Files S.Word) × (t : Setting) × (met : ℕ → Bool) × (state : State) × Stands (S.present store.old) f t met state
        × (f.environment ≡ environment.old) × (f.compounds ≡ compounds.now) × (t.first ≡ first) × AreMarked met operands.now }
    requires inside { All (IsInside (length (S.names store.old)) (length environment.old) (length compounds.now)) operands.now }
    requires narrow { All IsNarrow operands.now }
    requires numbers { (S.present store.old).next < 2 ^ 63 }
    ensures makes { OnOk result (MakesVariables operands.now first (S.present store.old) (S.present store.new) environment.old environment.new) }
    ensures pushed { (arguments : List S.Word) (t : Setting) (met : ℕ → Bool) (state : State) → Stands (S.present store.old) (files environment.old arguments compounds.now) t met state → t.first ≡ first → AreMarked met operands.now
        → OnOk result (ArePushed S.pushed store.new (S.present store.old).substitution state.subst (part_row first state.registers (map (part_at (S.names store.old) t.low) operands.now)) (length operands.now)) }
    ensures widens { OnOk result (Widens (S.present store.old) (S.present store.new)) }
    ensures count { length environment.new ≡ length environment.old }
    ensures cells { Grows (S.present store.old) (S.present store.new) (length operands.now) (news operands.now) }
    ensures full { result ≡ Err StoreFault.Full → S.full store.new }
    ensures rest { RetainsAll S.Store store.old store.new }
{
    for operand in operands {
        push_met(store, first, operand, environment, compounds)?;
    }
    Ok(())
}

/// The compound of a block with these operands, without others in it, and without integers of more than 64 bits. Its
/// variables that are met for the first time are numbered from `first` on by their numbers in the clause; their words
/// are at their places from here on. The errors: the store is full, or memory was refused.
#[inline(always)]
pub fn write_flat<S: Cells>(
    store: &mut S,
    first: u64,
    block: &Block,
    operands: &[Operand],
    environment: &mut [S::Word],
    compounds: &[S::Word],
) -> Result<S::Word, StoreFault>
    requires same { operands.now ≡ block.now.operands.items }
    requires stands { (f : Files S.Word) × (t : Setting) × (met : ℕ → Bool) × (state : State) × Stands (S.present store.old) f t met state
        × (f.environment ≡ environment.old) × (f.compounds ≡ compounds.now) × (t.first ≡ first) × AreMarked met block.now.operands.items }
    requires sound { IsSound (length (S.names store.old)) (length environment.old) (length compounds.now) block.now }
    requires narrow { block.now.wide ≡ false }
    requires numbers { (S.present store.old).next < 2 ^ 63 }
    ensures makes { OnOk result (MakesVariables block.now.operands.items first (S.present store.old) (S.present store.new) environment.old environment.new) }
    ensures made { (arguments : List S.Word) (t : Setting) (met : ℕ → Bool) (state : State) → Stands (S.present store.old) (files environment.old arguments compounds.now) t met state → t.first ≡ first → AreMarked met block.now.operands.items
        → IfOk result (λ w. At (S.present store.new) state.subst w (made first state.registers (block_at (S.names store.old) t.low block.now))) }
    ensures widens { OnOk result (Widens (S.present store.old) (S.present store.new)) }
    ensures count { length environment.new ≡ length environment.old }
    ensures cells { Grows (S.present store.old) (S.present store.new) (length block.now.operands.items + 1) (news block.now.operands.items) }
    ensures full { result ≡ Err StoreFault.Full → S.full store.new }
    ensures rest { RetainsAll S.Store store.old store.new }
{
    push_all_met(store, first, operands, environment, compounds)?;
    store.close(block.name, operands.len())
}
