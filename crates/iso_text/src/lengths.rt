//! `atom_length/2` (8.16.1).
ghost use Rattle.std.specs.Prelude.{◌≡◌, ◌≢◌, ◌<◌, ◌^◌, Err, pos, length, chars};
ghost use Rattle.std.specs.List.{All};
ghost use Rattle.iso_model.specs.Terms.Trees.{Tree};
ghost use Rattle.iso_model.specs.Search.Library as library;
ghost use Rattle.iso_model.specs.Search.AtomTexts.{text_answer, length_by};
ghost use Rattle.iso_model.specs.declared.kinds.Text.TheVariants as text;
ghost use Rattle.iso_store_core.specs.Presents.{Holds, meaning};
ghost use Rattle.iso_store_core.specs.Retaining.{Retains, RetainsAll, Takes};
ghost use Rattle.iso_store_core.specs.ArgumentWords.{AreArguments};
ghost use Rattle.iso_lib_core.specs.Cells.{made_for};
ghost use Rattle.iso_lib_core.specs.Checks.{GoesOn};
ghost use Rattle.iso_lib_core.specs.Replies.{IsReply};

use iso_lib_core::{Fault, Reply, culprits, equate_integer, errors};
use iso_store_core::{Shape, Store};
use std::alloc::Global;

/// How many characters the text has.
pub(crate) fn count_characters(text: &str) -> usize
    ensures count { result ≡ length (chars text.now) }
    ensures small { result < 2 ^ 63 }
{
    text.chars().count()
}

/// Sees that the word is unbound or stands for an integer that is not negative. The errors: `atom_length/2` raises
/// one, or memory was refused.
fn see_length<S: Store>(alloc: Global, store: &S, word: S::Word) -> Result<(), Fault>
    requires word { Holds (S.present store.now) word }
    ensures goes_on { GoesOn (S.present store.now) (λ count. length_by count (meaning (S.present store.now) word)) (λ count. library.equate_integer (meaning (S.present store.now) word) (pos count)) result }
    ensures full { result ≢ Err Fault.Full }
{
    match store.shape(word) {
        Shape::Var(_) => Ok(()),
        Shape::Int(value) => {
            if value >= 0 {
                return Ok(());
            }
            Err(culprits::out_of_domain(alloc, store, "not_less_than_zero", word, "atom_length", 2))
        }
        Shape::Atom(_) | Shape::Compound(_, _) => {
            Err(culprits::wrong_type(alloc, store, "integer", word, "atom_length", 2))
        }
    }
}

/// Unifies the word with this number of characters. The errors are those of `atom_length`.
fn equate_length<S: Store>(
    alloc: Global,
    store: &mut S,
    word: S::Word,
    count: usize,
) -> Result<Reply, Fault>
    requires word { Holds (S.present store.old) word }
    requires small { count < 2 ^ 63 }
    ensures replies { IsReply (S.present store.old) (S.present store.new) (length_by count (meaning (S.present store.old) word)) result }
    ensures full { result ≡ Err Fault.Full → S.full store.new }
    ensures cells { Takes S.Store store.old store.new 0 }
    ensures rest { RetainsAll S.Store store.old store.new }
{
    see_length(alloc, store, word)?;
    equate_integer(store, word, count as i128)
}

/// What a goal of `atom_length/2` comes to. The errors: one is raised, the store is full, or memory was refused.
pub(crate) fn atom_length<S: Store>(
    alloc: Global,
    store: &mut S,
    arguments: &[S::Word],
) -> Result<Reply, Fault>
    requires arguments { All (λ w. Holds (S.present store.old) w) arguments.now }
    requires count { length arguments.now ≡ 2 }
    ensures replies { (t : Tree) → AreArguments (S.present store.old) arguments.now t
        → IsReply (S.present store.old) (S.present store.new) (text_answer text.AtomLength t) result }
    ensures full { result ≡ Err Fault.Full → S.full store.new }
    ensures cells { (t : Tree) → AreArguments (S.present store.old) arguments.now t
        → Takes S.Store store.old store.new (made_for (text_answer text.AtomLength t)) }
    ensures rest { Retains S.Store store.old store.new }
{
    let (atom, length) = (arguments[0], arguments[1]);
    match store.shape(atom) {
        Shape::Var(_) => Err(Fault::Raise(errors::instantiation(alloc, "atom_length", 2)?)),
        Shape::Atom(name) => {
            let count = count_characters(store.text(name));
            equate_length(alloc, store, length, count)
        }
        Shape::Int(_) | Shape::Compound(_, _) => {
            Err(culprits::wrong_type(alloc, store, "atom", atom, "atom_length", 2))
        }
    }
}
