//! Compounds with integers of more than 64 bits, which have cells of their own before those of the arguments.
ghost use Rattle.std.specs.Prelude.{◌≡◌, ◌<◌, ◌+◌, ℕ, List, ◌∷◌, [], IfOk, IfSome, OnOk, Bool, length, map};
ghost use Rattle.std.specs.List.{All};
ghost use Rattle.iso_atoms.specs.Texts.{text_at};
ghost use Rattle.iso_model.specs.Terms.Trees.{Apply, row};
ghost use Rattle.iso_model.specs.Terms.Substitutions.{Subst, apply};
ghost use Rattle.iso_store_core.specs.Presents.{Holds, Grows};
ghost use Rattle.iso_store_core.specs.Retaining.{CountsCells, RetainsAll};
ghost use Rattle.iso_compile.specs.Orders.{part_cells, parts_cells};
ghost use Rattle.iso_compile.specs.Table.{Registers, part_term, part_row};
ghost use Rattle.iso_code.specs.Loaded.{IsInside, IsMet, part_at};
ghost use Rattle.iso_code.specs.Standing.{IsFor, Known};
ghost use Rattle.iso_code.specs.declared.operands.Operand.TheVariants as operand;
ghost use Rattle.iso_writing.specs.Pushing.{IsHeld};
ghost use Rattle.iso_writing.specs.Writing.{Adds};

use iso_atoms::Atom;
use iso_cells::Cells;
use iso_code::Operand;
use iso_store_core::StoreFault;

/// The word of the argument that an operand is, whose variable was met. This is a call, since most operands are
/// variables, whose words are taken without one. The errors: the store is full, or memory was refused.
#[cold]
#[inline(never)]
fn constant_or_compound<S: Cells>(
    store: &mut S,
    operand: &Operand,
    environment: &[S::Word],
    compounds: &[S::Word],
) -> Result<S::Word, StoreFault>
    requires inside { IsInside (length (S.names store.old)) (length environment.now) (length compounds.now) operand.now }
    requires held { IsHeld (S.present store.old) environment.now compounds.now operand.now }
    ensures word { (own by : Subst) (next low : ℕ) (met : ℕ → Bool) (rs : Registers) → Known (S.present store.old) own by next low met environment.now compounds.now rs → IsMet met operand.now
        → IfOk result (λ w. IsFor (S.present store.new) own by w (part_term next rs (part_at (S.names store.old) low operand.now))) }
    ensures holds { IfOk result (λ w. Holds (S.present store.new) w) }
    ensures adds { OnOk result (Adds (S.present store.old) (S.present store.new)) }
    ensures cells { CountsCells S.Store → Grows (S.present store.old) (S.present store.new) (part_cells (part_at (S.names store.old) 0 operand.now)) 0 }
    ensures full { result ≡ Err StoreFault.Full → S.full store.new }
    ensures rest { RetainsAll S.Store store.old store.new }
{
    match operand {
        Operand::New(variable) | Operand::Old(variable) => Ok(environment[*variable]),
        Operand::Integer(value) => store.int(*value),
        Operand::Atom(name) => store.atom(*name),
        Operand::Inner(compound) => Ok(compounds[*compound]),
    }
}

/// Writes the words of the arguments that operands are, one after the other.
#[inline(always)]
fn known_each<S: Cells>(
    store: &mut S,
    operands: &[Operand],
    environment: &[S::Word],
    compounds: &[S::Word],
    words: &mut [S::Word],
) -> Result<(), StoreFault>
    requires inside { All (IsInside (length (S.names store.old)) (length environment.now) (length compounds.now)) operands.now }
    requires held { All (IsHeld (S.present store.old) environment.now compounds.now) operands.now }
    requires room { length words.old ≡ length operands.now }
    ensures words { (own by : Subst) (next low : ℕ) (met : ℕ → Bool) (rs : Registers) → Known (S.present store.old) own by next low met environment.now compounds.now rs → All (IsMet met) operands.now
        → OnOk result (apply own (row (map (S.present store.new).term words.new)) ≡ apply by (part_row next rs (map (part_at (S.names store.old) low) operands.now))) }
    ensures hold { OnOk result (All (Holds (S.present store.new)) words.new) }
    ensures many { OnOk result (length words.new ≡ length operands.now) }
    ensures adds { OnOk result (Adds (S.present store.old) (S.present store.new)) }
    ensures cells { CountsCells S.Store → Grows (S.present store.old) (S.present store.new) (parts_cells (map (part_at (S.names store.old) 0) operands.now)) 0 }
    ensures full { result ≡ Err StoreFault.Full → S.full store.new }
    ensures rest { RetainsAll S.Store store.old store.new }
{
    let mut index = 0;
    while index < operands.len() {
        words[index] = match &operands[index] {
            Operand::New(variable) | Operand::Old(variable) => environment[*variable],
            operand => constant_or_compound(store, operand, environment, compounds)?,
        };
        index += 1;
    }
    Ok(())
}

/// The variables that the operands are, where they are three, and have their words; none where they are others.
#[inline(always)]
fn three_variables(operands: &[Operand]) -> Option<(usize, usize, usize)>
    ensures { IfSome result (λ r. operands.now ≡ operand.Old r.0 ∷ operand.Old r.1 ∷ operand.Old r.2 ∷ []) }
{
    match operands {
        [
            Operand::Old(first),
            Operand::Old(second),
            Operand::Old(third),
        ] => Some((*first, *second, *third)),
        _ => None,
    }
}

/// The variables that the operands are, where they are four, and have their words; none where they are others.
#[inline(always)]
fn four_variables(operands: &[Operand]) -> Option<(usize, usize, usize, usize)>
    ensures { IfSome result (λ r. operands.now
        ≡ operand.Old r.0 ∷ operand.Old r.1 ∷ operand.Old r.2 ∷ operand.Old r.3 ∷ []) }
{
    match operands {
        [
            Operand::Old(first),
            Operand::Old(second),
            Operand::Old(third),
            Operand::Old(fourth),
        ] => { Some((*first, *second, *third, *fourth)) }
        _ => None,
    }
}

/// Writes the words of the arguments that operands are, whose variables were met. The errors: the store is full, or
/// memory was refused.
#[inline(always)]
pub fn known_words<S: Cells>(
    store: &mut S,
    operands: &[Operand],
    environment: &[S::Word],
    compounds: &[S::Word],
    words: &mut [S::Word],
) -> Result<(), StoreFault>
    requires inside { All (IsInside (length (S.names store.old)) (length environment.now) (length compounds.now)) operands.now }
    requires held { All (IsHeld (S.present store.old) environment.now compounds.now) operands.now }
    requires room { length words.old ≡ length operands.now }
    ensures words { (own by : Subst) (next low : ℕ) (met : ℕ → Bool) (rs : Registers) → Known (S.present store.old) own by next low met environment.now compounds.now rs → All (IsMet met) operands.now
        → OnOk result (apply own (row (map (S.present store.new).term words.new)) ≡ apply by (part_row next rs (map (part_at (S.names store.old) low) operands.now))) }
    ensures hold { OnOk result (All (Holds (S.present store.new)) words.new) }
    ensures many { OnOk result (length words.new ≡ length operands.now) }
    ensures adds { OnOk result (Adds (S.present store.old) (S.present store.new)) }
    ensures cells { CountsCells S.Store → Grows (S.present store.old) (S.present store.new) (parts_cells (map (part_at (S.names store.old) 0) operands.now)) 0 }
    ensures full { result ≡ Err StoreFault.Full → S.full store.new }
    ensures rest { RetainsAll S.Store store.old store.new }
{
    // At most four variables alone: since it is known here that they are, this is compiled to code without a loop.
    if let Some((first, second, third, fourth)) = four_variables(operands) {
        let all = [
            Operand::Old(first),
            Operand::Old(second),
            Operand::Old(third),
            Operand::Old(fourth),
        ];
        return known_each(store, &all, environment, compounds, words);
    }
    if let Some((first, second, third)) = three_variables(operands) {
        let all = [
            Operand::Old(first),
            Operand::Old(second),
            Operand::Old(third),
        ];
        return known_each(store, &all, environment, compounds, words);
    }
    match operands {
        [Operand::Old(first)] => {
            let all = [Operand::Old(*first)];
            known_each(store, &all, environment, compounds, words)
        }
        [Operand::Old(first), Operand::Old(second)] => {
            let all = [Operand::Old(*first), Operand::Old(*second)];
            known_each(store, &all, environment, compounds, words)
        }
        _ => known_each(store, operands, environment, compounds, words),
    }
}

/// The compound of this name and these operands. The list is for the words of its arguments, and loses what it had.
pub(crate) fn write_wide<S: Cells>(
    store: &mut S,
    name: Atom,
    operands: &[Operand],
    environment: &[S::Word],
    compounds: &[S::Word],
    words: &mut Vec<S::Word>,
) -> Result<S::Word, StoreFault>
    requires name { name < length (S.names store.old) }
    requires some { 0 < length operands.now }
    requires few { length operands.now < 256 }
    requires inside { All (IsInside (length (S.names store.old)) (length environment.now) (length compounds.now)) operands.now }
    requires held { All (IsHeld (S.present store.old) environment.now compounds.now) operands.now }
    ensures made { (own by : Subst) (next low : ℕ) (met : ℕ → Bool) (rs : Registers) → Known (S.present store.old) own by next low met environment.now compounds.now rs → All (IsMet met) operands.now
        → IfOk result (λ w. IsFor (S.present store.new) own by w (Apply (text_at (S.names store.old) name) (part_row next rs (map (part_at (S.names store.old) low) operands.now)))) }
    ensures holds { IfOk result (λ w. Holds (S.present store.new) w) }
    ensures adds { OnOk result (Adds (S.present store.old) (S.present store.new)) }
    ensures cells { CountsCells S.Store → Grows (S.present store.old) (S.present store.new) (parts_cells (map (part_at (S.names store.old) 0) operands.now) + (length operands.now + 1)) 0 }
    ensures full { result ≡ Err StoreFault.Full → S.full store.new }
    ensures rest { RetainsAll S.Store store.old store.new }
{
    let filler = store.int(0)?;
    words.clear();
    words.resize(operands.len(), filler)?;
    known_words(
        store,
        operands,
        environment,
        compounds,
        words.as_mut_slice(),
    )?;
    store.compound(name, words.as_slice())
}
