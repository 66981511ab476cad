//! Words that are unified with a constant, or with a list.
ghost use Rattle.std.specs.Prelude.{◌≡◌, Err, map};
ghost use Rattle.std.specs.List.{All};
ghost use Rattle.iso_model.specs.Terms.Trees.{Name};
ghost use Rattle.iso_model.specs.Search.Library.{equate, equate_list};
ghost use Rattle.iso_model.specs.Search.Library as library;
ghost use Rattle.iso_store_core.specs.Copying.{wide_cells};
ghost use Rattle.iso_store_core.specs.Presents.{Holds, meaning};
ghost use Rattle.iso_store_core.specs.Retaining.{Retains, RetainsAll, Takes};
ghost use Rattle.iso_lib_core.specs.Cells.{made_for};
ghost use Rattle.iso_lib_core.specs.Replies.{IsReply};

use super::lists::make_list;
use super::outcomes::{Fault, Reply, tested};
use iso_store_core::Store;
use std::alloc::Global;

/// Unifies the word with the integer. The errors: the store is full, or memory was refused.
#[inline(always)]
pub fn equate_integer<S: Store>(store: &mut S, word: S::Word, value: i128) -> Result<Reply, Fault>
    requires word { Holds (S.present store.old) word }
    ensures replies { IsReply (S.present store.old) (S.present store.new) (library.equate_integer (meaning (S.present store.old) word) value) result }
    ensures full { result ≡ Err Fault.Full → S.full store.new }
    ensures cells { Takes S.Store store.old store.new (wide_cells value) }
    ensures rest { RetainsAll S.Store store.old store.new }
{
    let made = store.int(value)?;
    Ok(tested(store.unify(word, made)?))
}

/// Unifies the word with the atom of this text. The errors: the store is full, or memory was refused.
pub fn equate_atom<S: Store>(store: &mut S, word: S::Word, text: &str) -> Result<Reply, Fault>
    requires word { Holds (S.present store.old) word }
    ensures replies { IsReply (S.present store.old) (S.present store.new) (equate (meaning (S.present store.old) word) (Name text.now)) result }
    ensures full { result ≡ Err Fault.Full → S.full store.new }
    ensures cells { Takes S.Store store.old store.new 0 }
    ensures rest { Retains S.Store store.old store.new }
{
    let name = store.intern(text)?;
    let made = store.atom(name)?;
    Ok(tested(store.unify(word, made)?))
}

/// Unifies the word with the list of what the others stand for. The errors: the store is full, or memory was refused.
pub fn equate_list<S: Store>(
    alloc: Global,
    store: &mut S,
    word: S::Word,
    words: &[S::Word],
) -> Result<Reply, Fault>
    requires word { Holds (S.present store.old) word }
    requires words { All (λ w. Holds (S.present store.old) w) words.now }
    ensures replies { IsReply (S.present store.old) (S.present store.new)
        (equate_list (meaning (S.present store.old) word) (map (meaning (S.present store.old)) words.now)) result }
    ensures full { result ≡ Err Fault.Full → S.full store.new }
    ensures cells { Takes S.Store store.old store.new
        (made_for (equate_list (meaning (S.present store.old) word) (map (meaning (S.present store.old)) words.now))) }
    ensures rest { Retains S.Store store.old store.new }
{
    let made = make_list(alloc, store, words)?;
    Ok(tested(store.unify(word, made)?))
}
