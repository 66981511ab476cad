//! `char_code/2` (8.16.6).
ghost use Rattle.std.specs.Prelude.{◌≡◌, Err, pos, length};
ghost use Rattle.std.specs.List.{All};
ghost use Rattle.iso_model.specs.Terms.Trees.{Tree};
ghost use Rattle.iso_model.specs.Search.Library.{equate_integer};
ghost use Rattle.iso_model.specs.Search.AtomTexts.{text_answer, Codes, element_code, character_of, char_code_key};
ghost use Rattle.iso_model.specs.declared.kinds.Text.TheVariants as text;
ghost use Rattle.iso_store_core.specs.Presents.{Holds, meaning};
ghost use Rattle.iso_store_core.specs.Retaining.{Retains, RetainsAll, Takes};
ghost use Rattle.iso_store_core.specs.ArgumentWords.{AreArguments};
ghost use Rattle.iso_lib_core.specs.Cells.{made_for};
ghost use Rattle.iso_lib_core.specs.Replies.{IsReply};

use super::elements::{character, character_of_code};
use iso_lib_core::{Fault, Reply, equate_atom, equate_integer};
use iso_store_core::{Shape, Store};
use std::alloc::Global;

/// Unifies the word with the code of the character. The errors: the store is full, or memory was refused.
fn equate_code<S: Store>(store: &mut S, word: S::Word, character: char) -> Result<Reply, Fault>
    requires word { Holds (S.present store.old) word }
    ensures replies { IsReply (S.present store.old) (S.present store.new) (equate_integer (meaning (S.present store.old) word) (pos character)) result }
    ensures full { result ≡ Err Fault.Full → S.full store.new }
    ensures cells { Takes S.Store store.old store.new 0 }
    ensures rest { RetainsAll S.Store store.old store.new }
{
    equate_integer(store, word, i128::from(u32::from(character)))
}

/// Unifies the word with the atom of the character that has this code. The errors are those of `char_code`.
fn equate_coded<S: Store>(
    alloc: Global,
    store: &mut S,
    word: S::Word,
    code: S::Word,
) -> Result<Reply, Fault>
    requires word { Holds (S.present store.old) word }
    requires code { Holds (S.present store.old) code }
    ensures replies { IsReply (S.present store.old) (S.present store.new)
        (character_of (meaning (S.present store.old) word) (element_code Codes (meaning (S.present store.old) code) char_code_key)) result }
    ensures full { result ≡ Err Fault.Full → S.full store.new }
    ensures cells { Takes S.Store store.old store.new 0 }
    ensures rest { Retains S.Store store.old store.new }
{
    let found = character_of_code(alloc, store, code, "char_code", 2)?;
    let mut buffer = [0; 4];
    equate_atom(store, word, found.encode_utf8(&mut buffer))
}

/// What a goal of `char_code/2` comes to. The errors: one is raised, the store is full, or memory was refused.
pub(crate) fn char_code<S: Store>(
    alloc: Global,
    store: &mut S,
    arguments: &[S::Word],
) -> Result<Reply, Fault>
    requires arguments { All (λ w. Holds (S.present store.old) w) arguments.now }
    requires count { length arguments.now ≡ 2 }
    ensures replies { (t : Tree) → AreArguments (S.present store.old) arguments.now t
        → IsReply (S.present store.old) (S.present store.new) (text_answer text.CharCode t) result }
    ensures full { result ≡ Err Fault.Full → S.full store.new }
    ensures cells { (t : Tree) → AreArguments (S.present store.old) arguments.now t
        → Takes S.Store store.old store.new (made_for (text_answer text.CharCode t)) }
    ensures rest { Retains S.Store store.old store.new }
{
    let (atom, code) = (arguments[0], arguments[1]);
    if matches!(store.shape(atom), Shape::Var(_)) {
        return equate_coded(alloc, store, atom, code);
    }
    let found = character(alloc, store, atom, "char_code", 2)?;
    if matches!(store.shape(code), Shape::Var(_)) {
        return equate_code(store, code, found);
    }
    equate_coded(alloc, store, atom, code)
}
