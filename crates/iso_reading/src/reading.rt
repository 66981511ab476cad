//! Reading the arguments of a compound, and those of a call: each is met with an operand.
ghost use Rattle.std.specs.Prelude.{◌≡◌, ◌<◌, ℕ, List, Bool, [], ◌∷◌, IfOk, IsTrue, length, map};
ghost use Rattle.std.specs.List.{All};
ghost use Rattle.iso_model.specs.Terms.Trees.{Tree, Apply};
ghost use Rattle.iso_store_core.specs.Arguments.{arity};
ghost use Rattle.iso_store_core.specs.Presents.{Holds, Grows, meaning};
ghost use Rattle.iso_store_core.specs.Retaining.{RetainsAll};
ghost use Rattle.iso_compile.specs.Orders.{part_cells, parts_cells};
ghost use Rattle.iso_compile.specs.CodeLaws.{State};
ghost use Rattle.iso_code.specs.Loaded.{IsInside, IsSound, part_at};
ghost use Rattle.iso_code.specs.Standing.{Setting, files};
ghost use Rattle.iso_reading.specs.Reading.{StandsReady, Begins, ReadsOne, Reads};
ghost use Rattle.iso_code.specs.Standing.{Carries};

use iso_cells::Cells;
use iso_code::{Block, Operand, Pair};
use iso_store_core::StoreFault;

/// Reads an argument against an operand: a new variable and a compound take its word, anything else is unified with it
/// (`get_variable`, `get_value`, `get_constant`, and the same with `unify`). False where the two don't unify. The
/// errors: the store is full, or memory was refused.
#[inline(always)]
pub fn read_operand<S: Cells>(
    store: &mut S,
    operand: &Operand,
    argument: S::Word,
    environment: &mut [S::Word],
    compounds: &mut [S::Word],
) -> Result<bool, StoreFault>
    requires argument { Holds (S.present store.old) argument }
    requires inside { IsInside (length (S.names store.old)) (length environment.old) (length compounds.old) operand.now }
    requires ready { (arguments : List S.Word) × StandsReady (S.present store.old) environment.old arguments compounds.old (operand.now ∷ []) }
    ensures reads { IfOk result (λ answer. ReadsOne (S.names store.old) operand.now (S.present store.old) (S.present store.new) argument environment.old environment.new compounds.old compounds.new answer) }
    ensures carries { IfOk result (λ answer. IsTrue answer → Carries (S.present store.old) (S.present store.new)) }
    ensures environment { length environment.new ≡ length environment.old }
    ensures compounds { length compounds.new ≡ length compounds.old }
    ensures kept { (names count : ℕ) → IsInside names count 0 operand.now → compounds.new ≡ compounds.old }
    ensures cells { Grows (S.present store.old) (S.present store.new) (part_cells (part_at [] 0 operand.now)) 0 }
    ensures full { result ≡ Err StoreFault.Full → S.full store.new }
    ensures rest { RetainsAll S.Store store.old store.new }
{
    match operand {
        Operand::New(variable) => {
            environment[*variable] = argument;
            Ok(true)
        }
        Operand::Integer(value) => store.meet_integer(argument, *value),
        Operand::Atom(name) => store.meet_atom(argument, *name),
        _ => read_any(store, operand, argument, environment, compounds),
    }
}

/// The same for an argument of a compound: most are new variables and compounds, whose places take the word.
#[inline(always)]
fn read_argument<S: Cells>(
    store: &mut S,
    operand: &Operand,
    argument: S::Word,
    environment: &mut [S::Word],
    compounds: &mut [S::Word],
) -> Result<bool, StoreFault>
    requires argument { Holds (S.present store.old) argument }
    requires inside { IsInside (length (S.names store.old)) (length environment.old) (length compounds.old) operand.now }
    requires ready { (arguments : List S.Word) × StandsReady (S.present store.old) environment.old arguments compounds.old (operand.now ∷ []) }
    ensures reads { IfOk result (λ answer. ReadsOne (S.names store.old) operand.now (S.present store.old) (S.present store.new) argument environment.old environment.new compounds.old compounds.new answer) }
    ensures carries { IfOk result (λ answer. IsTrue answer → Carries (S.present store.old) (S.present store.new)) }
    ensures environment { length environment.new ≡ length environment.old }
    ensures compounds { length compounds.new ≡ length compounds.old }
    ensures kept { (names count : ℕ) → IsInside names count 0 operand.now → compounds.new ≡ compounds.old }
    ensures cells { Grows (S.present store.old) (S.present store.new) (part_cells (part_at [] 0 operand.now)) 0 }
    ensures full { result ≡ Err StoreFault.Full → S.full store.new }
    ensures rest { RetainsAll S.Store store.old store.new }
{
    match operand {
        Operand::New(index) => {
            environment[*index] = argument;
            Ok(true)
        }
        Operand::Inner(compound) => {
            compounds[*compound] = argument;
            Ok(true)
        }
        _ => read_any(store, operand, argument, environment, compounds),
    }
}

/// The same, by a call.
#[cold]
#[inline(never)]
fn read_any<S: Cells>(
    store: &mut S,
    operand: &Operand,
    argument: S::Word,
    environment: &mut [S::Word],
    compounds: &mut [S::Word],
) -> Result<bool, StoreFault>
    requires argument { Holds (S.present store.old) argument }
    requires inside { IsInside (length (S.names store.old)) (length environment.old) (length compounds.old) operand.now }
    requires ready { (arguments : List S.Word) × StandsReady (S.present store.old) environment.old arguments compounds.old (operand.now ∷ []) }
    ensures reads { IfOk result (λ answer. ReadsOne (S.names store.old) operand.now (S.present store.old) (S.present store.new) argument environment.old environment.new compounds.old compounds.new answer) }
    ensures carries { IfOk result (λ answer. IsTrue answer → Carries (S.present store.old) (S.present store.new)) }
    ensures environment { length environment.new ≡ length environment.old }
    ensures compounds { length compounds.new ≡ length compounds.old }
    ensures kept { (names count : ℕ) → IsInside names count 0 operand.now → compounds.new ≡ compounds.old }
    ensures cells { Grows (S.present store.old) (S.present store.new) (part_cells (part_at [] 0 operand.now)) 0 }
    ensures full { result ≡ Err StoreFault.Full → S.full store.new }
    ensures rest { RetainsAll S.Store store.old store.new }
{
    match operand {
        Operand::New(place) => {
            environment[*place] = argument;
            Ok(true)
        }
        Operand::Old(variable) => store.unify(argument, environment[*variable]),
        Operand::Integer(integer) => store.meet_integer(argument, *integer),
        Operand::Atom(atom) => store.meet_atom(argument, *atom),
        Operand::Inner(number) => {
            compounds[*number] = argument;
            Ok(true)
        }
    }
}

/// Reads the arguments of a word that was made as a compound of as many arguments as there are operands. False where
/// they don't unify. The errors: the store is full, or memory was refused.
#[inline(always)]
pub fn read_operands<S: Cells>(
    store: &mut S,
    operands: &[Operand],
    compound: S::Word,
    environment: &mut [S::Word],
    compounds: &mut [S::Word],
) -> Result<bool, StoreFault>
    requires compound { Holds (S.present store.old) compound }
    requires arity { arity ((S.present store.old).term compound) ≡ length operands.now }
    requires inside { All (IsInside (length (S.names store.old)) (length environment.old) (length compounds.old)) operands.now }
    requires begins { (arguments : List S.Word) × (t : Setting) × (met : ℕ → Bool) × (state : State) × (g : List ℕ) × (ws : Tree) × Begins (S.present store.old) (files environment.old arguments compounds.old) t met state compound operands.now g ws }
    ensures reads { IfOk result (λ answer. Reads (S.names store.old) operands.now (S.present store.old) (S.present store.new) compound environment.old environment.new compounds.old compounds.new answer) }
    ensures carries { IfOk result (λ answer. IsTrue answer → Carries (S.present store.old) (S.present store.new)) }
    ensures environment { length environment.new ≡ length environment.old }
    ensures compounds { length compounds.new ≡ length compounds.old }
    ensures cells { Grows (S.present store.old) (S.present store.new) (parts_cells (map (part_at [] 0) operands.now)) 0 }
    ensures full { result ≡ Err StoreFault.Full → S.full store.new }
    ensures rest { RetainsAll S.Store store.old store.new }
{
    let count = operands.len();
    let mut index = 0;
    while index < count {
        let argument = store.argument(compound, count, index);
        if !read_argument(store, &operands[index], argument, environment, compounds)? {
            return Ok(false);
        }
        index += 1;
    }
    Ok(true)
}

/// The same for the operands of a block.
#[inline(always)]
pub fn read_block<S: Cells>(
    store: &mut S,
    block: &Block,
    compound: S::Word,
    environment: &mut [S::Word],
    compounds: &mut [S::Word],
) -> Result<bool, StoreFault>
    requires compound { Holds (S.present store.old) compound }
    requires arity { arity ((S.present store.old).term compound) ≡ length block.now.operands.items }
    requires sound { IsSound (length (S.names store.old)) (length environment.old) (length compounds.old) block.now }
    requires begins { (arguments : List S.Word) × (t : Setting) × (met : ℕ → Bool) × (state : State) × (g : List ℕ) × (ws : Tree) × Begins (S.present store.old) (files environment.old arguments compounds.old) t met state compound block.now.operands.items g ws }
    ensures reads { IfOk result (λ answer. Reads (S.names store.old) block.now.operands.items (S.present store.old) (S.present store.new) compound environment.old environment.new compounds.old compounds.new answer) }
    ensures carries { IfOk result (λ answer. IsTrue answer → Carries (S.present store.old) (S.present store.new)) }
    ensures environment { length environment.new ≡ length environment.old }
    ensures compounds { length compounds.new ≡ length compounds.old }
    ensures cells { Grows (S.present store.old) (S.present store.new) (parts_cells (map (part_at [] 0) block.now.operands.items)) 0 }
    ensures full { result ≡ Err StoreFault.Full → S.full store.new }
    ensures rest { RetainsAll S.Store store.old store.new }
{
    match block.pair {
        // Since the operands are known here, this is compiled to code without a loop.
        Pair::NewNew(one, two) => {
            let both = [Operand::New(one), Operand::New(two)];
            read_operands(store, &both, compound, environment, compounds)
        }
        _ => read_operands(
            store,
            block.operands.as_slice(),
            compound,
            environment,
            compounds,
        ),
    }
}
