//! What an element of a list of characters or of their codes is (7.1.4).
ghost use Rattle.std.specs.Prelude.{◌≡◌, ◌<◌, Err, IfOk, OnOk, pos, chars, encode_utf8};
ghost use Rattle.iso_model.specs.Terms.Trees.{Integer, Name};
ghost use Rattle.iso_model.specs.Search.Errors.{key};
ghost use Rattle.iso_model.specs.Search.AtomTexts.{Characters, Codes, only_code, element_code};
ghost use Rattle.iso_store_core.specs.Presents.{Holds, meaning, KeepsNumbers};
ghost use Rattle.iso_store_core.specs.Retaining.{Retains, RetainsAll, Takes};
ghost use Rattle.iso_lib_core.specs.Lists.{Comes};
ghost use Rattle.iso_text.specs.Elements.{IsCode, scalar_of};

use iso_lib_core::{Fault, culprits, errors};
use iso_store_core::{Shape, Store, StoreFault};
use std::alloc::Global;

/// The only character of the text, where it has just one.
fn only_character(text: &str) -> Option<char>
    ensures { result ≡ only_code (chars text.now) }
{
    let mut characters = text.chars();
    let first = characters.next()?;
    match characters.next() {
        None => Some(first),
        Some(_) => None,
    }
}

/// The character of a code, where it is one's.
fn coded_character(code: i128) -> Option<char>
    ensures { result ≡ scalar_of code }
{
    char::from_u32(u32::try_from(code).ok()?)
}

/// The character that is the element, an atom. The errors: this procedure raises one for another element, or memory
/// was refused.
pub(crate) fn character<S: Store>(
    alloc: Global,
    store: &S,
    element: S::Word,
    by: &str,
    arity: usize,
) -> Result<char, Fault>
    requires element { Holds (S.present store.now) element }
    requires arity { arity < 256 }
    ensures { IsCode (element_code Characters (meaning (S.present store.now) element) (key by.now arity)) result }
{
    let only = match store.shape(element) {
        Shape::Var(_) => return Err(Fault::Raise(errors::instantiation(alloc, by, arity)?)),
        Shape::Atom(name) => only_character(store.text(name)),
        Shape::Int(_) | Shape::Compound(_, _) => None,
    };
    let Some(character) = only else {
        return Err(culprits::wrong_type(alloc, store, "character", element, by, arity));
    };
    Ok(character)
}

/// The character whose code is the element. The errors: this procedure raises one for another element, or memory was
/// refused.
pub(crate) fn character_of_code<S: Store>(
    alloc: Global,
    store: &S,
    element: S::Word,
    by: &str,
    arity: usize,
) -> Result<char, Fault>
    requires element { Holds (S.present store.now) element }
    requires arity { arity < 256 }
    ensures { IsCode (element_code Codes (meaning (S.present store.now) element) (key by.now arity)) result }
{
    let code = match store.shape(element) {
        Shape::Var(_) => return Err(Fault::Raise(errors::instantiation(alloc, by, arity)?)),
        Shape::Int(code) => code,
        Shape::Atom(_) | Shape::Compound(_, _) => {
            return Err(culprits::wrong_type(alloc, store, "integer", element, by, arity));
        }
    };
    let Some(character) = coded_character(code) else {
        let ball = errors::no_character_code(alloc, by, arity)?;
        return Err(Fault::Raise(ball));
    };
    Ok(character)
}

/// The atom of this character. The errors: the store is full, or memory was refused.
pub(crate) fn make_character<S: Store>(
    store: &mut S,
    character: char,
) -> Result<S::Word, StoreFault>
    ensures made { IfOk result (λ w. Comes (S.present store.old) (S.present store.new) w (Name (encode_utf8 character))) }
    ensures numbers { OnOk result (KeepsNumbers (S.present store.old) (S.present store.new)) }
    ensures full { result ≡ Err StoreFault.Full → S.full store.new }
    ensures cells { Takes S.Store store.old store.new 0 }
    ensures rest { Retains S.Store store.old store.new }
{
    let mut buffer = [0; 4];
    let name = store.intern(character.encode_utf8(&mut buffer))?;
    store.atom(name)
}

/// The code of this character. The errors: the store is full, or memory was refused.
pub(crate) fn make_code<S: Store>(store: &mut S, character: char) -> Result<S::Word, StoreFault>
    ensures made { IfOk result (λ w. Comes (S.present store.old) (S.present store.new) w (Integer (pos character))) }
    ensures numbers { OnOk result (KeepsNumbers (S.present store.old) (S.present store.new)) }
    ensures full { result ≡ Err StoreFault.Full → S.full store.new }
    ensures cells { Takes S.Store store.old store.new 0 }
    ensures rest { RetainsAll S.Store store.old store.new }
{
    store.int(i128::from(u32::from(character)))
}
