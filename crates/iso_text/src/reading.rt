//! The text that a list of characters or of their codes writes (7.1.4).
ghost use Rattle.std.specs.Prelude.{◌<◌, map};
ghost use Rattle.std.specs.List.{All};
ghost use Rattle.iso_model.specs.Search.Errors.{key};
ghost use Rattle.iso_model.specs.Search.AtomTexts.{element_code, elements_codes};
ghost use Rattle.iso_store_core.specs.Presents.{Holds, meaning};
ghost use Rattle.iso_text.specs.Elements.{IsCode, IsText};
ghost use Rattle.iso_text.specs.Forms.{form_of};

use super::atoms::Form;
use super::elements::{character, character_of_code};
use iso_lib_core::Fault;
use iso_store_core::Store;
use std::alloc::Global;

/// The character that an element of a list in this form stands for. The errors: this procedure, of two arguments,
/// raises one for another element, or memory was refused.
fn element<S: Store>(
    alloc: Global,
    store: &S,
    form: Form,
    word: S::Word,
    by: &str,
) -> Result<char, Fault>
    requires word { Holds (S.present store.now) word }
    ensures { IsCode (element_code (form_of form) (meaning (S.present store.now) word) (key by.now 2)) result }
{
    match form {
        Form::Characters => character(alloc, store, word, by, 2),
        Form::Codes => character_of_code(alloc, store, word, by, 2),
    }
}

/// The text that the elements of a list in this form write. The errors: this procedure, of two arguments, raises one
/// for the first element that is none, or memory was refused.
pub(crate) fn codes_of<S: Store>(
    alloc: Global,
    store: &S,
    form: Form,
    words: &[S::Word],
    by: &str,
) -> Result<String, Fault>
    requires words { All (λ w. Holds (S.present store.now) w) words.now }
    ensures { IsText (elements_codes (form_of form) (map (meaning (S.present store.now)) words.now) (key by.now 2)) result }
{
    let mut text = String::with_capacity(alloc, words.len())?;
    for word in words {
        let code = element(alloc, store, form, *word, by)?;
        text.push(code)?;
    }
    Ok(text)
}
