//! The list of a text's characters or of their codes (7.1.4).
ghost use Rattle.std.specs.Prelude.{◌≡◌, IfOk, OnOk, Err, map};
ghost use Rattle.std.specs.List.{All};
ghost use Rattle.iso_model.specs.Search.AtomTexts as table;
ghost use Rattle.iso_model.specs.Search.AtomTexts.{text_elements};
ghost use Rattle.iso_model.specs.Search.Library.{equate_list};
ghost use Rattle.iso_store_core.specs.Presents.{Holds, meaning, KeepsNumbers, KeepsWords};
ghost use Rattle.iso_store_core.specs.Retaining.{Retains, Takes};
ghost use Rattle.iso_lib_core.specs.Cells.{made_for};
ghost use Rattle.iso_lib_core.specs.Lists.{Comes};
ghost use Rattle.iso_lib_core.specs.Replies.{IsReply};
ghost use Rattle.iso_text.specs.Forms.{form_of};

use super::atoms::Form;
use super::elements::{make_character, make_code};
use iso_lib_core::{Fault, Reply, equate_list};
use iso_store_core::{Store, StoreFault};
use std::alloc::Global;

/// The element that stands for this character in a list in this form. The errors: the store is full, or memory was
/// refused.
fn make_element<S: Store>(store: &mut S, form: Form, character: char) -> Result<S::Word, StoreFault>
    ensures made { IfOk result (λ w. Comes (S.present store.old) (S.present store.new) w (table.element (form_of form) character)) }
    ensures numbers { OnOk result (KeepsNumbers (S.present store.old) (S.present store.new)) }
    ensures full { result ≡ Err StoreFault.Full → S.full store.new }
    ensures cells { Takes S.Store store.old store.new 0 }
    ensures rest { Retains S.Store store.old store.new }
{
    match form {
        Form::Characters => make_character(store, character),
        Form::Codes => make_code(store, character),
    }
}

/// Words for the elements of the list of this text in this form. The errors: the store is full, or memory was refused.
fn spelled<S: Store>(
    alloc: Global,
    store: &mut S,
    form: Form,
    text: &str,
) -> Result<Vec<S::Word>, StoreFault>
    ensures words { OnOk result (KeepsWords (S.present store.old) (S.present store.new)) }
    ensures substitution { OnOk result ((S.present store.new).substitution ≡ (S.present store.old).substitution) }
    ensures numbers { OnOk result (KeepsNumbers (S.present store.old) (S.present store.new)) }
    ensures hold { IfOk result (λ ws. All (λ w. Holds (S.present store.new) w) ws.items) }
    ensures values { IfOk result (λ ws. map (meaning (S.present store.new)) ws.items ≡ text_elements (form_of form) text.now) }
    ensures full { result ≡ Err StoreFault.Full → S.full store.new }
    ensures cells { Takes S.Store store.old store.new 0 }
    ensures rest { Retains S.Store store.old store.new }
{
    let mut words = Vec::with_capacity(alloc, text.len())?;
    for character in text.chars() {
        let made = make_element(store, form, character)?;
        words.push(made)?;
    }
    Ok(words)
}

/// Unifies the word with the list of this text in this form. The errors: the store is full, or memory was refused.
pub(crate) fn equate_spelled<S: Store>(
    alloc: Global,
    store: &mut S,
    form: Form,
    word: S::Word,
    text: &str,
) -> Result<Reply, Fault>
    requires word { Holds (S.present store.old) word }
    ensures replies { IsReply (S.present store.old) (S.present store.new) (equate_list (meaning (S.present store.old) word) (text_elements (form_of form) text.now)) result }
    ensures full { result ≡ Err Fault.Full → S.full store.new }
    ensures cells { Takes S.Store store.old store.new
        (made_for (equate_list (meaning (S.present store.old) word) (text_elements (form_of form) text.now))) }
    ensures rest { Retains S.Store store.old store.new }
{
    let words = spelled(alloc, store, form, text)?;
    equate_list(alloc, store, word, words.as_slice())
}
