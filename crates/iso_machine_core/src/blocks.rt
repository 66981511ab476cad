//! The compounds of a head: each is read where its register has such a compound, and made where it has a variable.
ghost use Rattle.std.specs.Prelude.{◌≡◌, ◌≤◌, ◌<◌, ◌+◌, ◌^◌, ℕ, List, [], ◌∷◌, IfOk, IfSome, IsTrue, IsSome, Bool, length, take};
ghost use Rattle.std.specs.List.{All};
ghost use Rattle.iso_store_core.specs.Presents.{Holds, Grows};
ghost use Rattle.iso_store_core.specs.Retaining.{CountsCells, RetainsAll};
ghost use Rattle.iso_compile.specs.CodeLaws.{State};
ghost use Rattle.iso_code.specs.Loaded.{AreSound, IsRegister, all_operands};
ghost use Rattle.iso_code.specs.Standing.{Setting};
ghost use Rattle.iso_writing.specs.Pushing.{news, cells_of_blocks};
ghost use Rattle.iso_code.specs.Standing.{files};
ghost use Rattle.iso_code.specs.Standing.{Carries};
ghost use Rattle.iso_machine_core.specs.Heads.{BeforeBlocks, Passes, MeetsBlocks, HasWord, reached};

use iso_cells::{Cells, Opened};
use iso_code::{Block, Register};
use iso_reading::read_block;
use iso_store_core::StoreFault;
use iso_writing::write_group;

/// The word that a register has.
#[inline(always)]
fn word_in<W: Copy>(register: Register, arguments: &[W], compounds: &[W]) -> W
    requires { IsRegister (length arguments.now) (length compounds.now) register }
    ensures { HasWord register arguments.now compounds.now result }
{
    match register {
        Register::Argument(argument) => arguments[argument],
        Register::Compound(compound) => compounds[compound],
    }
}

/// Meets the word of a block's register with its compound (`get_structure`, `get_list`, and what follows them): behind
/// how many of the other blocks the machine goes on, none where the two don't unify. The errors: the store is full, or
/// memory was refused.
#[inline(always)]
fn meet_block<S: Cells>(
    store: &mut S,
    first: u64,
    block: &Block,
    behind: &[Block],
    arguments: &[S::Word],
    environment: &mut [S::Word],
    compounds: &mut [S::Word],
    words: &mut Vec<S::Word>,
) -> Result<Option<usize>, StoreFault>
    requires sound { AreSound (length (S.names store.old)) (length arguments.now) (length environment.old) (length compounds.old) (block.now ∷ behind.now) }
    requires before { (t : Setting) × (met : ℕ → Bool) × (state : State) × BeforeBlocks (block.now ∷ behind.now) first (S.present store.old) (files environment.old arguments.now compounds.old) t met state }
    requires numbers { (S.present store.old).next < 2 ^ 63 }
    ensures passes { IfOk result (λ passed. Passes (S.names store.old) block.now behind.now first (S.present store.old) (S.present store.new)
        (files environment.old arguments.now compounds.old) (files environment.new arguments.now compounds.new) passed) }
    ensures within { IfOk result (λ passed. IfSome passed (λ many. many ≤ length behind.now)) }
    ensures carries { IfOk result (λ passed. IsSome passed → Carries (S.present store.old) (S.present store.new)) }
    ensures environment { length environment.new ≡ length environment.old }
    ensures compounds { length compounds.new ≡ length compounds.old }
    ensures cells { CountsCells S.Store → Grows (S.present store.old) (S.present store.new)
        (cells_of_blocks (block.now ∷ take (reached block.now.inner result) behind.now) + news (all_operands (block.now ∷ take (reached block.now.inner result) behind.now))) (news (all_operands (block.now ∷ take (reached block.now.inner result) behind.now))) }
    ensures full { result ≡ Err StoreFault.Full → S.full store.new }
    ensures rest { RetainsAll S.Store store.old store.new }
{
    let word = word_in(block.register, arguments, compounds);
    match store.open(word, block.name, block.operands.len()) {
        Opened::Read(compound) => {
            let met = read_block(store, block, compound, environment, compounds)?;
            Ok(if met { Some(0) } else { None })
        }
        Opened::Write(variable) => {
            let met = write_group(
                store,
                first,
                block,
                behind,
                variable,
                environment,
                compounds,
                words,
            )?;
            Ok(if met { Some(block.inner) } else { None })
        }
        Opened::Missed => Ok(None),
    }
}

/// Meets the compounds of a head. False where they don't unify. The errors: the store is full, or memory was refused.
#[inline(always)]
pub(crate) fn meet_blocks<S: Cells>(
    store: &mut S,
    first: u64,
    blocks: &[Block],
    arguments: &[S::Word],
    environment: &mut [S::Word],
    compounds: &mut [S::Word],
    words: &mut Vec<S::Word>,
) -> Result<bool, StoreFault>
    requires sound { AreSound (length (S.names store.old)) (length arguments.now) (length environment.old) (length compounds.old) blocks.now }
    requires before { (t : Setting) × (met : ℕ → Bool) × (state : State) × BeforeBlocks blocks.now first (S.present store.old) (files environment.old arguments.now compounds.old) t met state }
    requires numbers { (S.present store.old).next < 2 ^ 63 }
    ensures meets { IfOk result (λ answer. MeetsBlocks (S.names store.old) blocks.now first (S.present store.old) (S.present store.new)
        (files environment.old arguments.now compounds.old) (files environment.new arguments.now compounds.new) answer) }
    ensures carries { IfOk result (λ answer. IsTrue answer → Carries (S.present store.old) (S.present store.new)) }
    ensures environment { length environment.new ≡ length environment.old }
    ensures compounds { length compounds.new ≡ length compounds.old }
    ensures cells { CountsCells S.Store → Grows (S.present store.old) (S.present store.new)
        (cells_of_blocks blocks.now + news (all_operands blocks.now)) (news (all_operands blocks.now)) }
    ensures full { result ≡ Err StoreFault.Full → S.full store.new }
    ensures rest { RetainsAll S.Store store.old store.new }
{
    let mut index = 0;
    while index < blocks.len() {
        let behind = &blocks[index + 1..];
        let passed = meet_block(
            store,
            first,
            &blocks[index],
            behind,
            arguments,
            environment,
            compounds,
            words,
        )?;
        let Some(passed) = passed else {
            return Ok(false);
        };
        index += 1 + passed;
    }
    Ok(true)
}
