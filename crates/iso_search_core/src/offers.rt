//! Rows that the arguments of a goal are unified with: of constants (8.14.4, 8.17.2) and of parts of atoms (8.16.2,
//! 8.16.3).
ghost use Rattle.std.specs.Prelude.{◌≡◌, ◌==◌, [], ◌∷◌, length, IfOk, IfSome, IfNone, OnOk, Err, map};
ghost use Rattle.std.specs.List.{All};
ghost use Rattle.iso_model.specs.Terms.Trees.{Tree, row};
ghost use Rattle.iso_store_core.specs.Presents.{Holds, meaning, Makes, KeepsNumbers, IsUnification};
ghost use Rattle.iso_store_core.specs.Retaining.{Retains, Takes};
ghost use Rattle.iso_store_core.specs.ArgumentWords.{AreArguments};
ghost use Rattle.iso_lib.specs.Settlements.{constant_tree};
ghost use Rattle.iso_search_core.specs.Cells.{term_cells, constants_cells, row_cells};
ghost use Rattle.iso_search_core.specs.Offers.{goal_arguments, row_tree, rows_in, IsRow, AreRows};

use super::part_rows::unify_part;
use iso_lib::{Constant, Offer};
use iso_store_core::{Store, StoreFault};
use iso_text::parts::{Part, Parts, next_part};
use std::alloc::Global;

/// Rows that the arguments of a goal are unified with, one after another.
#[derive(Drop)]
pub enum Offers {
    /// Rows of constants; the first of them is kept last.
    Constants(Vec<Offer>),
    /// Parts of atoms; the first of them are kept last.
    Parts(Vec<Parts>),
}

/// One of them.
#[derive(Drop)]
pub enum OfferedRow {
    Constants(Offer),
    Part(Part),
}

impl Offers {
    /// Whether no row is left.
    pub fn is_empty(&self) -> bool
        ensures { result ≡ (length (rows_in self.now) == 0) }
    {
        match self {
            Offers::Constants(kept) => kept.is_empty(),
            Offers::Parts(kept) => kept.is_empty(),
        }
    }

    /// Takes the row that comes first; `None` where none is left.
    pub fn take(&mut self) -> Option<OfferedRow>
        requires { (t : Tree) × AreRows t self.old }
        ensures some { IfSome result (λ row. rows_in self.old ≡ row ∷ rows_in self.new) }
        ensures none { IfNone result ((rows_in self.old ≡ []) × (rows_in self.new ≡ [])) }
        ensures each { (t : Tree) → AreRows t self.old → AreRows t self.new × IfSome result (IsRow t) }
    {
        match self {
            Offers::Constants(kept) => kept.pop().map(OfferedRow::Constants),
            Offers::Parts(kept) => next_part(kept).map(OfferedRow::Part),
        }
    }
}

/// A word for the constant. The errors: the store is full, or memory was refused.
fn make<S: Store>(store: &mut S, constant: &Constant) -> Result<S::Word, StoreFault>
    ensures made { IfOk result (λ w. Makes (S.present store.old) (S.present store.new) w (constant_tree constant.now)) }
    ensures numbers { OnOk result (KeepsNumbers (S.present store.old) (S.present store.new)) }
    ensures full { result ≡ Err StoreFault.Full → S.full store.new }
    ensures cells { Takes S.Store store.old store.new (term_cells (constant_tree constant.now)) }
    ensures rest { Retains S.Store store.old store.new }
{
    match constant {
        Constant::Int(value) => store.int(*value),
        Constant::Atom(name) => {
            let atom = store.intern(name.as_str())?;
            store.atom(atom)
        }
    }
}

/// Whether the term that the word stands for unifies with the constant. The errors are those of `make`.
fn unify_constant<S: Store>(
    store: &mut S,
    word: S::Word,
    constant: &Constant,
) -> Result<bool, StoreFault>
    requires word { Holds (S.present store.old) word }
    ensures unified { IfOk result (IsUnification (S.present store.old) (S.present store.new) (meaning (S.present store.old) word) (constant_tree constant.now)) }
    ensures full { result ≡ Err StoreFault.Full → S.full store.new }
    ensures cells { Takes S.Store store.old store.new (term_cells (constant_tree constant.now)) }
    ensures rest { Retains S.Store store.old store.new }
{
    let other = make(store, constant)?;
    store.unify(word, other)
}

/// Whether the terms that the words stand for unify with the constants, the first with the first; false where there
/// are not as many. The errors are those of `make`.
pub(crate) fn unify_each<S: Store>(
    store: &mut S,
    words: &[S::Word],
    constants: &[Constant],
) -> Result<bool, StoreFault>
    requires words { All (λ w. Holds (S.present store.old) w) words.now }
    ensures unified { IfOk result (IsUnification (S.present store.old) (S.present store.new) (row (map (meaning (S.present store.old)) words.now))
        (row (map constant_tree constants.now))) }
    ensures full { result ≡ Err StoreFault.Full → S.full store.new }
    ensures cells { Takes S.Store store.old store.new (constants_cells constants.now) }
    ensures rest { Retains S.Store store.old store.new }
{
    match constants {
        [] => Ok(words.is_empty()),
        [constant, other_constants @ ..] => {
            let Some((word, other_words)) = words.split_first() else {
                return Ok(false);
            };
            if !unify_constant(store, *word, constant)? {
                return Ok(false);
            }
            unify_each(store, other_words, other_constants)
        }
    }
}

/// Whether a goal's arguments unify with the row; then their unifier is bound. The errors: the store is full, or
/// memory was refused.
pub fn unify_row<S: Store>(
    alloc: Global,
    store: &mut S,
    arguments: &[S::Word],
    row: &OfferedRow,
) -> Result<bool, StoreFault>
    requires arguments { All (λ w. Holds (S.present store.old) w) arguments.now }
    requires row { (t : Tree) × AreArguments (S.present store.old) arguments.now t × IsRow t row.now }
    ensures unified { (t : Tree) → AreArguments (S.present store.old) arguments.now t → IsRow t row.now
        → IfOk result (IsUnification (S.present store.old) (S.present store.new) (goal_arguments t) (row_tree t row.now)) }
    ensures full { result ≡ Err StoreFault.Full → S.full store.new }
    ensures cells { Takes S.Store store.old store.new (row_cells row.now) }
    ensures rest { Retains S.Store store.old store.new }
{
    match row {
        OfferedRow::Constants(offer) => unify_each(store, arguments, offer.constants.as_slice()),
        OfferedRow::Part(part) => unify_part(alloc, store, arguments, *part),
    }
}
