//! `atom_chars/2` and `atom_codes/2` (8.16.4, 8.16.5), and lists of characters or of their codes.
ghost use Rattle.std.specs.Prelude.{◌≡◌, Err, map, length};
ghost use Rattle.std.specs.List.{All};
ghost use Rattle.iso_model.specs.Terms.Trees.{Tree};
ghost use Rattle.iso_model.specs.Search.Errors.{key};
ghost use Rattle.iso_model.specs.Terms.Arguments.{argument};
ghost use Rattle.iso_model.specs.Search.AtomTexts.{atom_list_answer, atom_of_list, equate_text, elements_codes};
ghost use Rattle.iso_store_core.specs.Presents.{Holds, meaning};
ghost use Rattle.iso_store_core.specs.Retaining.{Retains, Takes};
ghost use Rattle.iso_store_core.specs.ArgumentWords.{AreArguments};
ghost use Rattle.iso_lib_core.specs.Cells.{made_for};
ghost use Rattle.iso_lib_core.specs.Replies.{IsReply};
ghost use Rattle.iso_text.specs.Forms.{form_of};

use super::reading::codes_of;
use super::spelling::equate_spelled;
use iso_lib_core::lists::{elements, see_partial_list};
use iso_lib_core::{Fault, Reply, culprits, equate_atom, errors};
use iso_store_core::{Shape, Store};
use std::alloc::Global;

/// How a text is a list (7.1.4): of characters, which are atoms, or of their codes.
#[derive(Clone, Copy)]
pub(crate) enum Form {
    Characters,
    Codes,
}

/// Unifies the word with the atom that these elements of a list write. The errors are those of `atom_list`.
fn equate_read<S: Store>(
    alloc: Global,
    store: &mut S,
    form: Form,
    word: S::Word,
    elements: &[S::Word],
    by: &str,
) -> Result<Reply, Fault>
    requires word { Holds (S.present store.old) word }
    requires elements { All (λ w. Holds (S.present store.old) w) elements.now }
    ensures replies { IsReply (S.present store.old) (S.present store.new)
        (equate_text (meaning (S.present store.old) word) (elements_codes (form_of form) (map (meaning (S.present store.old)) elements.now) (key by.now 2))) result }
    ensures full { result ≡ Err Fault.Full → S.full store.new }
    ensures cells { Takes S.Store store.old store.new 0 }
    ensures rest { Retains S.Store store.old store.new }
{
    let text = codes_of(alloc, store, form, elements, by)?;
    equate_atom(store, word, text.as_str())
}

/// Unifies the word with the atom that the list writes. The errors are those of `atom_list`.
fn atom_of_list<S: Store>(
    alloc: Global,
    store: &mut S,
    form: Form,
    word: S::Word,
    list: S::Word,
    by: &str,
) -> Result<Reply, Fault>
    requires word { Holds (S.present store.old) word }
    requires list { Holds (S.present store.old) list }
    ensures replies { IsReply (S.present store.old) (S.present store.new)
        (atom_of_list (form_of form) (meaning (S.present store.old) word) (meaning (S.present store.old) list) (key by.now 2)) result }
    ensures full { result ≡ Err Fault.Full → S.full store.new }
    ensures cells { Takes S.Store store.old store.new 0 }
    ensures rest { Retains S.Store store.old store.new }
{
    let parts = elements(alloc, store, list)?;
    if matches!(store.shape(parts.tail), Shape::Var(_)) {
        return Err(Fault::Raise(errors::instantiation(alloc, by, 2)?));
    }
    equate_read(alloc, store, form, word, parts.elements.as_slice(), by)
}

/// What a goal of `atom_chars/2` or `atom_codes/2` comes to, this procedure. The errors: one is raised, the store is
/// full, or memory was refused.
pub(crate) fn atom_list<S: Store>(
    alloc: Global,
    store: &mut S,
    form: Form,
    by: &str,
    arguments: &[S::Word],
) -> Result<Reply, Fault>
    requires arguments { All (λ w. Holds (S.present store.old) w) arguments.now }
    requires count { length arguments.now ≡ 2 }
    ensures replies { (t : Tree) → AreArguments (S.present store.old) arguments.now t
        → IsReply (S.present store.old) (S.present store.new) (atom_list_answer (form_of form) (argument 0 t) (argument 1 t) (key by.now 2)) result }
    ensures full { result ≡ Err Fault.Full → S.full store.new }
    ensures cells { (t : Tree) → AreArguments (S.present store.old) arguments.now t
        → Takes S.Store store.old store.new
        (made_for (atom_list_answer (form_of form) (argument 0 t) (argument 1 t) (key by.now 2))) }
    ensures rest { Retains S.Store store.old store.new }
{
    let (atom, list) = (arguments[0], arguments[1]);
    match store.shape(atom) {
        Shape::Var(_) => {
            see_partial_list(alloc, store, list, by, 2)?;
            atom_of_list(alloc, store, form, atom, list, by)
        }
        Shape::Atom(name) => {
            see_partial_list(alloc, store, list, by, 2)?;
            let text = String::from_str(alloc, store.text(name))?;
            equate_spelled(alloc, store, form, list, text.as_str())
        }
        Shape::Int(_) | Shape::Compound(_, _) => {
            Err(culprits::wrong_type(alloc, store, "atom", atom, by, 2))
        }
    }
}
