//! `number_chars/2` and `number_codes/2` (8.16.7, 8.16.8).
ghost use Rattle.std.specs.Prelude.{◌≡◌, Err, map, length};
ghost use Rattle.std.specs.List.{All};
ghost use Rattle.iso_model.specs.Terms.Trees.{Tree};
ghost use Rattle.iso_model.specs.Search.Errors.{key};
ghost use Rattle.iso_model.specs.Terms.Arguments.{argument};
ghost use Rattle.iso_model.specs.Search.AtomTexts.{elements_codes, equate_number, number_of_text, number_text, number_list_answer};
ghost use Rattle.iso_store_core.specs.Presents.{Holds, meaning};
ghost use Rattle.iso_store_core.specs.Retaining.{Retains, Takes};
ghost use Rattle.iso_store_core.specs.ArgumentWords.{AreArguments};
ghost use Rattle.iso_lib_core.specs.Cells.{made_for};
ghost use Rattle.iso_lib_core.specs.Replies.{IsReply};
ghost use Rattle.iso_text.specs.Forms.{form_of};

use super::atoms::Form;
use super::integers::number_written;
use super::reading::codes_of;
use super::spelling::equate_spelled;
use iso_lib_core::lists::{elements, is_nil, see_partial_list};
use iso_lib_core::{Fault, Reply, culprits, equate_integer, errors, has_unbound};
use iso_store_core::{Shape, Store};
use std::alloc::Global;

/// Unifies the word with the number that a text writes; it is an error where it writes none. The errors are those of
/// `number_list`.
fn equate_number<S: Store>(
    alloc: Global,
    store: &mut S,
    word: S::Word,
    number: Option<i128>,
    by: &str,
) -> Result<Reply, Fault>
    requires word { Holds (S.present store.old) word }
    ensures replies { IsReply (S.present store.old) (S.present store.new) (equate_number (meaning (S.present store.old) word) (key by.now 2) number) result }
    ensures full { result ≡ Err Fault.Full → S.full store.new }
    ensures cells { Takes S.Store store.old store.new
        (made_for (equate_number (meaning (S.present store.old) word) (key by.now 2) number)) }
    ensures rest { Retains S.Store store.old store.new }
{
    let Some(value) = number else {
        return Err(Fault::Raise(errors::illegal_number(alloc, by, 2)?));
    };
    equate_integer(store, word, value)
}

/// Unifies the word with the number that these elements write. The errors are those of `number_list`.
fn number_of_list<S: Store>(
    alloc: Global,
    store: &mut S,
    form: Form,
    word: S::Word,
    words: &[S::Word],
    by: &str,
) -> Result<Reply, Fault>
    requires word { Holds (S.present store.old) word }
    requires words { All (λ w. Holds (S.present store.old) w) words.now }
    ensures replies { IsReply (S.present store.old) (S.present store.new)
        (number_of_text (meaning (S.present store.old) word) (key by.now 2) (elements_codes (form_of form) (map (meaning (S.present store.old)) words.now) (key by.now 2))) result }
    ensures full { result ≡ Err Fault.Full → S.full store.new }
    ensures cells { Takes S.Store store.old store.new
        (made_for (number_of_text (meaning (S.present store.old) word) (key by.now 2)
        (elements_codes (form_of form) (map (meaning (S.present store.old)) words.now) (key by.now 2)))) }
    ensures rest { Retains S.Store store.old store.new }
{
    let text = codes_of(alloc, store, form, words, by)?;
    let number = number_written(text.as_str());
    equate_number(alloc, store, word, number, by)
}

/// Unifies the list with that of the characters of the number that the word stands for. The errors are those of
/// `number_list`.
fn list_of_number<S: Store>(
    alloc: Global,
    store: &mut S,
    form: Form,
    word: S::Word,
    list: S::Word,
    by: &str,
) -> Result<Reply, Fault>
    requires word { Holds (S.present store.old) word }
    requires list { Holds (S.present store.old) list }
    ensures replies { IsReply (S.present store.old) (S.present store.new)
        (number_text (form_of form) (meaning (S.present store.old) word) (meaning (S.present store.old) list) (key by.now 2)) result }
    ensures full { result ≡ Err Fault.Full → S.full store.new }
    ensures cells { Takes S.Store store.old store.new
        (made_for (number_text (form_of form) (meaning (S.present store.old) word)
        (meaning (S.present store.old) list) (key by.now 2))) }
    ensures rest { Retains S.Store store.old store.new }
{
    let Shape::Int(value) = store.shape(word) else {
        return Err(Fault::Raise(errors::instantiation(alloc, by, 2)?));
    };
    let text = value.to_string(alloc)?;
    equate_spelled(alloc, store, form, list, text.as_str())
}

/// What a goal of `number_chars/2` or `number_codes/2` comes to, this procedure. The errors: one is raised, the store
/// is full, or memory was refused.
pub(crate) fn number_list<S: Store>(
    alloc: Global,
    store: &mut S,
    form: Form,
    by: &str,
    arguments: &[S::Word],
) -> Result<Reply, Fault>
    requires arguments { All (λ w. Holds (S.present store.old) w) arguments.now }
    requires count { length arguments.now ≡ 2 }
    ensures replies { (t : Tree) → AreArguments (S.present store.old) arguments.now t
        → IsReply (S.present store.old) (S.present store.new) (number_list_answer (form_of form) (argument 0 t) (argument 1 t) (key by.now 2)) result }
    ensures full { result ≡ Err Fault.Full → S.full store.new }
    ensures cells { (t : Tree) → AreArguments (S.present store.old) arguments.now t
        → Takes S.Store store.old store.new
        (made_for (number_list_answer (form_of form) (argument 0 t) (argument 1 t) (key by.now 2))) }
    ensures rest { Retains S.Store store.old store.new }
{
    let (number, list) = (arguments[0], arguments[1]);
    if !matches!(store.shape(number), Shape::Var(_) | Shape::Int(_)) {
        return Err(culprits::wrong_type(alloc, store, "number", number, by, 2));
    }
    see_partial_list(alloc, store, list, by, 2)?;
    let parts = elements(alloc, store, list)?;
    if is_nil(store, parts.tail) && !has_unbound(store, parts.elements.as_slice()) {
        return number_of_list(alloc, store, form, number, parts.elements.as_slice(), by);
    }
    list_of_number(alloc, store, form, number, list, by)
}
