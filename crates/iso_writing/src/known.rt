//! Compounds whose variables were met: in the bodies of clauses, and where a compound of a head has others in it.
ghost use Rattle.std.specs.Prelude.{◌≡◌, ◌<◌, ◌+◌, ℕ, List, [], ◌∷◌, ◌++◌, IfOk, OnOk, Bool, length, map};
ghost use Rattle.std.specs.List.{All};
ghost use Rattle.iso_atoms.specs.Texts.{text_at};
ghost use Rattle.iso_model.specs.Terms.Trees.{Tree};
ghost use Rattle.iso_model.specs.Terms.Substitutions.{Subst};
ghost use Rattle.iso_store_core.specs.Presents.{Holds, Grows};
ghost use Rattle.iso_store_core.specs.Retaining.{CountsCells, RetainsAll};
ghost use Rattle.iso_compile.specs.Table.{Registers, part_term, part_row, made};
ghost use Rattle.iso_code.specs.Loaded.{IsInside, IsNarrow, IsMet, IsSound, IsOfCompound, part_at, block_at, all_operands};
ghost use Rattle.iso_code.specs.Standing.{IsFor, Known};
ghost use Rattle.iso_writing.specs.Pushing.{ArePushed, PushesOne, IsHeld, cells_of_block, cells_of_blocks};
ghost use Rattle.iso_writing.specs.Writing.{Adds, MakesAll};

use super::wide::write_wide;
use iso_cells::Cells;
use iso_code::{Block, Operand, Register};
use iso_store_core::StoreFault;

/// Pushes the argument that an operand is.
#[inline(always)]
fn push_known<S: Cells>(
    store: &mut S,
    operand: &Operand,
    environment: &[S::Word],
    compounds: &[S::Word],
) -> Result<(), StoreFault>
    requires inside { IsInside (length (S.names store.old)) (length environment.now) (length compounds.now) operand.now }
    requires held { IsHeld (S.present store.old) environment.now compounds.now operand.now }
    requires narrow { IsNarrow operand.now }
    ensures comes { OnOk result ((t : Tree) × ((ts : List Tree) → S.pushed store.old ts → S.pushed store.new (ts ++ t ∷ []))) }
    ensures pushed { (own by : Subst) (next low : ℕ) (met : ℕ → Bool) (rs : Registers) → Known (S.present store.old) own by next low met environment.now compounds.now rs → IsMet met operand.now
        → OnOk result (PushesOne S.pushed store.old store.new own by (part_term next rs (part_at (S.names store.old) low operand.now))) }
    ensures adds { OnOk result (Adds (S.present store.old) (S.present store.new)) }
    ensures cells { Grows (S.present store.old) (S.present store.new) 1 0 }
    ensures full { result ≡ Err StoreFault.Full → S.full store.new }
    ensures rest { RetainsAll S.Store store.old store.new }
{
    match operand {
        Operand::New(variable) | Operand::Old(variable) => store.push_word(environment[*variable]),
        Operand::Integer(value) => store.push_integer(*value),
        Operand::Atom(name) => store.push_atom(*name),
        Operand::Inner(compound) => store.push_word(compounds[*compound]),
    }
}

/// Pushes the arguments that operands are.
#[inline(always)]
fn push_all_known<S: Cells>(
    store: &mut S,
    operands: &[Operand],
    environment: &[S::Word],
    compounds: &[S::Word],
) -> Result<(), StoreFault>
    requires inside { All (IsInside (length (S.names store.old)) (length environment.now) (length compounds.now)) operands.now }
    requires held { All (IsHeld (S.present store.old) environment.now compounds.now) operands.now }
    requires narrow { All IsNarrow operands.now }
    ensures come { OnOk result ((ts : List Tree) × S.pushed store.new ts × (length ts ≡ length operands.now)) }
    ensures pushed { (own by : Subst) (next low : ℕ) (met : ℕ → Bool) (rs : Registers) → Known (S.present store.old) own by next low met environment.now compounds.now rs → All (IsMet met) operands.now
        → OnOk result (ArePushed S.pushed store.new own by (part_row next rs (map (part_at (S.names store.old) low) operands.now)) (length operands.now)) }
    ensures adds { OnOk result (Adds (S.present store.old) (S.present store.new)) }
    ensures cells { Grows (S.present store.old) (S.present store.new) (length operands.now) 0 }
    ensures full { result ≡ Err StoreFault.Full → S.full store.new }
    ensures rest { RetainsAll S.Store store.old store.new }
{
    for operand in operands {
        push_known(store, operand, environment, compounds)?;
    }
    Ok(())
}

/// The compound of a block (`put_structure`, `put_list`, and what follows them). The list is for the words of its
/// arguments, and may lose what it had. The errors: the store is full, or memory was refused.
pub fn write_known<S: Cells>(
    store: &mut S,
    block: &Block,
    environment: &[S::Word],
    compounds: &[S::Word],
    words: &mut Vec<S::Word>,
) -> Result<S::Word, StoreFault>
    requires sound { IsSound (length (S.names store.old)) (length environment.now) (length compounds.now) block.now }
    requires held { All (IsHeld (S.present store.old) environment.now compounds.now) block.now.operands.items }
    ensures made { (own by : Subst) (next low : ℕ) (met : ℕ → Bool) (rs : Registers) → Known (S.present store.old) own by next low met environment.now compounds.now rs → All (IsMet met) block.now.operands.items
        → IfOk result (λ w. IsFor (S.present store.new) own by w (made next rs (block_at (S.names store.old) low block.now))) }
    ensures holds { IfOk result (Holds (S.present store.new)) }
    ensures adds { OnOk result (Adds (S.present store.old) (S.present store.new)) }
    ensures cells { CountsCells S.Store → Grows (S.present store.old) (S.present store.new) (cells_of_block block.now) 0 }
    ensures full { result ≡ Err StoreFault.Full → S.full store.new }
    ensures rest { RetainsAll S.Store store.old store.new }
{
    let operands = block.operands.as_slice();
    if block.wide {
        return write_wide(store, block.name, operands, environment, compounds, words);
    }
    push_all_known(store, operands, environment, compounds)?;
    store.close(block.name, operands.len())
}

/// Makes the compound of a block, which the list of compounds gets.
fn write_one<S: Cells>(
    store: &mut S,
    block: &Block,
    environment: &[S::Word],
    compounds: &mut [S::Word],
    words: &mut Vec<S::Word>,
) -> Result<(), StoreFault>
    requires sound { IsSound (length (S.names store.old)) (length environment.now) (length compounds.old) block.now }
    requires compound { IsOfCompound (length compounds.old) block.now }
    requires held { All (IsHeld (S.present store.old) environment.now compounds.old) block.now.operands.items }
    ensures made { OnOk result (MakesAll (S.names store.old) (block.now ∷ []) (S.present store.old) (S.present store.new) environment.now compounds.old compounds.new) }
    ensures count { length compounds.new ≡ length compounds.old }
    ensures hold { OnOk result (All (Holds (S.present store.old)) compounds.old → All (Holds (S.present store.new)) compounds.new) }
    ensures adds { OnOk result (Adds (S.present store.old) (S.present store.new)) }
    ensures cells { CountsCells S.Store → Grows (S.present store.old) (S.present store.new) (cells_of_block block.now) 0 }
    ensures full { result ≡ Err StoreFault.Full → S.full store.new }
    ensures rest { RetainsAll S.Store store.old store.new }
{
    let word = write_known(store, block, environment, compounds, words)?;
    match block.register {
        Register::Compound(compound) => compounds[compound] = word,
        Register::Argument(_) => unreachable!(),
    }
    Ok(())
}

/// Makes the compounds of blocks, of which the last one is made first; the list of compounds gets them. The list of
/// words is for those of arguments. The errors: the store is full, or memory was refused.
pub fn write_all<S: Cells>(
    store: &mut S,
    blocks: &[Block],
    environment: &[S::Word],
    compounds: &mut [S::Word],
    words: &mut Vec<S::Word>,
) -> Result<(), StoreFault>
    requires sound { All (IsSound (length (S.names store.old)) (length environment.now) (length compounds.old)) blocks.now }
    requires compounds { All (IsOfCompound (length compounds.old)) blocks.now }
    requires held { All (IsHeld (S.present store.old) environment.now []) (all_operands blocks.now) }
    requires hold { All (Holds (S.present store.old)) compounds.old }
    ensures made { OnOk result (MakesAll (S.names store.old) blocks.now (S.present store.old) (S.present store.new) environment.now compounds.old compounds.new) }
    ensures count { length compounds.new ≡ length compounds.old }
    ensures hold { OnOk result (All (Holds (S.present store.new)) compounds.new) }
    ensures adds { OnOk result (Adds (S.present store.old) (S.present store.new)) }
    ensures cells { CountsCells S.Store → Grows (S.present store.old) (S.present store.new) (cells_of_blocks blocks.now) 0 }
    ensures full { result ≡ Err StoreFault.Full → S.full store.new }
    ensures rest { RetainsAll S.Store store.old store.new }
{
    for block in blocks.iter().rev() {
        write_one(store, block, environment, compounds, words)?;
    }
    Ok(())
}
