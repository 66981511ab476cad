//! A compound of a head that meets an unbound variable: it is made, and the variable is bound to it.
ghost use Rattle.std.specs.Prelude.{◌≡◌, ◌≤◌, ◌<◌, ◌+◌, ◌^◌, ℕ, Bool, List, IfOk, IsTrue, OnOk, [], ◌∷◌, length, take, true, false};
ghost use Rattle.std.specs.List.{All};
ghost use Rattle.iso_model.specs.Terms.Trees.{Variable};
ghost use Rattle.iso_store_core.specs.Presents.{Holds, Grows, IsUnification, meaning};
ghost use Rattle.iso_store_core.specs.Retaining.{CountsCells, RetainsAll};
ghost use Rattle.iso_compile.specs.CodeLaws.{State};
ghost use Rattle.iso_code.specs.Loaded.{IsInside, IsSound, IsOfCompound, AreMarked, all_operands};
ghost use Rattle.iso_code.specs.Standing.{Carries, Files, Setting, Stands};
ghost use Rattle.iso_writing.specs.Pushing.{IsHeld, IsApart, news, cells_of_blocks};
ghost use Rattle.iso_writing.specs.Writing.{WritesBlock};

use super::flat::write_flat;
use super::known::{write_all, write_known};
use super::variables::{make_all_variables, make_variables};
use iso_cells::Cells;
use iso_code::{Block, Operand, Pair};
use iso_store_core::StoreFault;

/// Whether it shows without a search that the unbound variable does not occur in the argument that an operand is.
#[inline(always)]
fn is_operand_apart<S: Cells>(
    store: &S,
    variable: S::Word,
    operand: &Operand,
    environment: &[S::Word],
    compounds: &[S::Word],
) -> bool
    requires variable { Holds (S.present store.now) variable }
    requires inside { (names : ℕ) × IsInside names (length environment.now) (length compounds.now) operand.now }
    requires held { IsHeld (S.present store.now) environment.now compounds.now operand.now }
    ensures { result ≡ true → (n : ℕ) → meaning (S.present store.now) variable ≡ Variable n → IsApart (S.present store.now) n environment.now compounds.now operand.now }
{
    match operand {
        Operand::Old(index) => store.is_apart(variable, environment[*index]),
        Operand::Inner(compound) => store.is_apart(variable, compounds[*compound]),
        Operand::New(_) | Operand::Integer(_) | Operand::Atom(_) => true,
    }
}

/// Whether it shows so for all of these operands.
#[inline(always)]
fn are_apart<S: Cells>(
    store: &S,
    variable: S::Word,
    operands: &[Operand],
    environment: &[S::Word],
    compounds: &[S::Word],
) -> bool
    requires variable { Holds (S.present store.now) variable }
    requires inside { (names : ℕ) × All (IsInside names (length environment.now) (length compounds.now)) operands.now }
    requires held { All (IsHeld (S.present store.now) environment.now compounds.now) operands.now }
    ensures { result ≡ true → (n : ℕ) → meaning (S.present store.now) variable ≡ Variable n → All (IsApart (S.present store.now) n environment.now compounds.now) operands.now }
{
    for operand in operands {
        if !is_operand_apart(store, variable, operand, environment, compounds) {
            return false;
        }
    }
    true
}

/// Unifies a variable with a compound that was made, by a call: mostly it shows that the variable doesn't occur in it.
#[cold]
#[inline(never)]
fn unify_made<S: Cells>(store: &mut S, variable: S::Word, made: S::Word) -> Result<bool, StoreFault>
    requires variable { Holds (S.present store.old) variable }
    requires made { Holds (S.present store.old) made }
    ensures unified { IfOk result (IsUnification (S.present store.old) (S.present store.new) (meaning (S.present store.old) variable) (meaning (S.present store.old) made)) }
    ensures cells { Grows (S.present store.old) (S.present store.new) 0 0 }
    ensures full { result ≡ Err StoreFault.Full → S.full store.new }
    ensures rest { RetainsAll S.Store store.old store.new }
{
    store.unify(variable, made)
}

/// The unbound variable is unified with the compound of a block with these operands, and without others in it.
#[inline(always)]
fn write_operands<S: Cells>(
    store: &mut S,
    first: u64,
    block: &Block,
    operands: &[Operand],
    variable: S::Word,
    environment: &mut [S::Word],
    compounds: &mut [S::Word],
) -> Result<bool, StoreFault>
    requires same { operands.now ≡ block.now.operands.items }
    requires stands { (f : Files S.Word) × (t : Setting) × (met : ℕ → Bool) × (state : State) × Stands (S.present store.old) f t met state
        × (f.environment ≡ environment.old) × (f.compounds ≡ compounds.old) × (t.first ≡ first) × AreMarked met block.now.operands.items }
    requires sound { IsSound (length (S.names store.old)) (length environment.old) (length compounds.old) block.now }
    requires narrow { block.now.wide ≡ false }
    requires variable { Holds (S.present store.old) variable }
    requires unbound { (n : ℕ) × (meaning (S.present store.old) variable ≡ Variable n) }
    requires numbers { (S.present store.old).next < 2 ^ 63 }
    ensures writes { IfOk result (λ answer. WritesBlock (S.names store.old) block.now [] first (S.present store.old) (S.present store.new) variable environment.old environment.new compounds.old compounds.new answer) }
    ensures count { length environment.new ≡ length environment.old }
    ensures many { length compounds.new ≡ length compounds.old }
    ensures carries { IfOk result (λ answer. IsTrue answer → Carries (S.present store.old) (S.present store.new)) }
    ensures cells { Grows (S.present store.old) (S.present store.new) (length block.now.operands.items + 1) (news block.now.operands.items) }
    ensures full { result ≡ Err StoreFault.Full → S.full store.new }
    ensures rest { RetainsAll S.Store store.old store.new }
{
    let made = write_flat(store, first, block, operands, environment, compounds)?;
    if are_apart(store, variable, operands, environment, compounds) {
        store.bind_made(variable, made)?;
        return Ok(true);
    }
    unify_made(store, variable, made)
}

/// The unbound variable is unified with the compound of the first block; those behind it are of compounds in it, which
/// are made first. Their variables that are met for the first time are numbered from `first` on by their numbers in the
/// clause; their words are at their places from here on. The list of words is for those of arguments. False where the
/// two don't unify. The errors: the store is full, or memory was refused.
#[cold]
#[inline(never)]
pub fn write_block<S: Cells>(
    store: &mut S,
    first: u64,
    block: &Block,
    inner: &[Block],
    variable: S::Word,
    environment: &mut [S::Word],
    compounds: &mut [S::Word],
    words: &mut Vec<S::Word>,
) -> Result<bool, StoreFault>
    requires stands { (f : Files S.Word) × (t : Setting) × (met : ℕ → Bool) × (state : State) × Stands (S.present store.old) f t met state
        × (f.environment ≡ environment.old) × (f.compounds ≡ compounds.old) × (t.first ≡ first) × AreMarked met (all_operands (block.now ∷ inner.now)) }
    requires sound { All (IsSound (length (S.names store.old)) (length environment.old) (length compounds.old)) (block.now ∷ inner.now) }
    requires compounds { All (IsOfCompound (length compounds.old)) inner.now }
    requires variable { Holds (S.present store.old) variable }
    requires unbound { (n : ℕ) × (meaning (S.present store.old) variable ≡ Variable n) }
    requires numbers { (S.present store.old).next < 2 ^ 63 }
    ensures writes { IfOk result (λ answer. WritesBlock (S.names store.old) block.now inner.now first (S.present store.old) (S.present store.new) variable environment.old environment.new compounds.old compounds.new answer) }
    ensures count { length environment.new ≡ length environment.old }
    ensures many { length compounds.new ≡ length compounds.old }
    ensures carries { IfOk result (λ answer. IsTrue answer → Carries (S.present store.old) (S.present store.new)) }
    ensures cells { CountsCells S.Store → Grows (S.present store.old) (S.present store.new)
        (cells_of_blocks (block.now ∷ inner.now) + news (all_operands (block.now ∷ inner.now))) (news (all_operands (block.now ∷ inner.now))) }
    ensures full { result ≡ Err StoreFault.Full → S.full store.new }
    ensures rest { RetainsAll S.Store store.old store.new }
{
    if inner.is_empty() && !block.wide {
        let operands = block.operands.as_slice();
        return write_operands(
            store,
            first,
            block,
            operands,
            variable,
            environment,
            compounds,
        );
    }
    make_variables(store, first, block.operands.as_slice(), environment)?;
    make_all_variables(store, first, inner, environment)?;
    write_all(store, inner, environment, compounds, words)?;
    let made = write_known(store, block, environment, compounds, words)?;
    store.unify(variable, made)
}

/// The same for a block of two variables, which are these operands.
#[inline(always)]
fn write_two<S: Cells>(
    store: &mut S,
    first: u64,
    block: &Block,
    behind: &[Block],
    operands: &[Operand],
    variable: S::Word,
    environment: &mut [S::Word],
    compounds: &mut [S::Word],
) -> Result<bool, StoreFault>
    requires same { operands.now ≡ block.now.operands.items }
    requires none { block.now.inner ≡ 0 }
    requires narrow { block.now.wide ≡ false }
    requires stands { (f : Files S.Word) × (t : Setting) × (met : ℕ → Bool) × (state : State) × Stands (S.present store.old) f t met state
        × (f.environment ≡ environment.old) × (f.compounds ≡ compounds.old) × (t.first ≡ first) × AreMarked met (all_operands (block.now ∷ (take block.now.inner behind.now))) }
    requires sound { All (IsSound (length (S.names store.old)) (length environment.old) (length compounds.old)) (block.now ∷ (take block.now.inner behind.now)) }
    requires compounds { All (IsOfCompound (length compounds.old)) (take block.now.inner behind.now) }
    requires variable { Holds (S.present store.old) variable }
    requires unbound { (n : ℕ) × (meaning (S.present store.old) variable ≡ Variable n) }
    requires numbers { (S.present store.old).next < 2 ^ 63 }
    ensures writes { IfOk result (λ answer. WritesBlock (S.names store.old) block.now (take block.now.inner behind.now) first (S.present store.old) (S.present store.new) variable environment.old environment.new compounds.old compounds.new answer) }
    ensures count { length environment.new ≡ length environment.old }
    ensures many { length compounds.new ≡ length compounds.old }
    ensures carries { IfOk result (λ answer. IsTrue answer → Carries (S.present store.old) (S.present store.new)) }
    ensures cells { CountsCells S.Store → Grows (S.present store.old) (S.present store.new)
        (cells_of_blocks (block.now ∷ (take block.now.inner behind.now)) + news (all_operands (block.now ∷ (take block.now.inner behind.now)))) (news (all_operands (block.now ∷ (take block.now.inner behind.now)))) }
    ensures full { result ≡ Err StoreFault.Full → S.full store.new }
    ensures rest { RetainsAll S.Store store.old store.new }
{
    write_operands(
        store,
        first,
        block,
        operands,
        variable,
        environment,
        compounds,
    )
}

/// The same for a block and as many of those behind it as are of compounds in it. Most blocks are of two variables.
/// Code for these has no loop, since their kinds are known here.
#[inline(always)]
pub fn write_group<S: Cells>(
    store: &mut S,
    first: u64,
    block: &Block,
    behind: &[Block],
    variable: S::Word,
    environment: &mut [S::Word],
    compounds: &mut [S::Word],
    words: &mut Vec<S::Word>,
) -> Result<bool, StoreFault>
    requires within { block.now.inner ≤ length behind.now }
    requires stands { (f : Files S.Word) × (t : Setting) × (met : ℕ → Bool) × (state : State) × Stands (S.present store.old) f t met state
        × (f.environment ≡ environment.old) × (f.compounds ≡ compounds.old) × (t.first ≡ first) × AreMarked met (all_operands (block.now ∷ (take block.now.inner behind.now))) }
    requires sound { All (IsSound (length (S.names store.old)) (length environment.old) (length compounds.old)) (block.now ∷ (take block.now.inner behind.now)) }
    requires compounds { All (IsOfCompound (length compounds.old)) (take block.now.inner behind.now) }
    requires variable { Holds (S.present store.old) variable }
    requires unbound { (n : ℕ) × (meaning (S.present store.old) variable ≡ Variable n) }
    requires numbers { (S.present store.old).next < 2 ^ 63 }
    ensures writes { IfOk result (λ answer. WritesBlock (S.names store.old) block.now (take block.now.inner behind.now) first (S.present store.old) (S.present store.new) variable environment.old environment.new compounds.old compounds.new answer) }
    ensures count { length environment.new ≡ length environment.old }
    ensures many { length compounds.new ≡ length compounds.old }
    ensures carries { IfOk result (λ answer. IsTrue answer → Carries (S.present store.old) (S.present store.new)) }
    ensures cells { CountsCells S.Store → Grows (S.present store.old) (S.present store.new)
        (cells_of_blocks (block.now ∷ (take block.now.inner behind.now)) + news (all_operands (block.now ∷ (take block.now.inner behind.now)))) (news (all_operands (block.now ∷ (take block.now.inner behind.now)))) }
    ensures full { result ≡ Err StoreFault.Full → S.full store.new }
    ensures rest { RetainsAll S.Store store.old store.new }
{
    match block.pair {
        Pair::NewNew(one, two) => {
            let both = [Operand::New(one), Operand::New(two)];
            write_two(
                store,
                first,
                block,
                behind,
                &both,
                variable,
                environment,
                compounds,
            )
        }
        Pair::OldNew(one, two) => {
            let both = [Operand::Old(one), Operand::New(two)];
            write_two(
                store,
                first,
                block,
                behind,
                &both,
                variable,
                environment,
                compounds,
            )
        }
        Pair::NewOld(one, two) => {
            let both = [Operand::New(one), Operand::Old(two)];
            write_two(
                store,
                first,
                block,
                behind,
                &both,
                variable,
                environment,
                compounds,
            )
        }
        Pair::Other => {
            let inner = &behind[..block.inner];
            write_block(
                store,
                first,
                block,
                inner,
                variable,
                environment,
                compounds,
                words,
            )
        }
    }
}
