//! The built-ins on texts, one by one.
ghost use Rattle.std.specs.Prelude.{◌≡◌, Err, length};
ghost use Rattle.std.specs.List.{All};
ghost use Rattle.iso_model.specs.Terms.Trees.{Tree};
ghost use Rattle.iso_model.specs.Search.AtomTexts.{text_answer, text_arity};
ghost use Rattle.iso_store_core.specs.Presents.{Holds, meaning};
ghost use Rattle.iso_store_core.specs.Retaining.{Retains, Takes};
ghost use Rattle.iso_store_core.specs.ArgumentWords.{AreArguments};
ghost use Rattle.iso_lib_core.specs.Cells.{made_for};
ghost use Rattle.iso_lib_core.specs.Replies.{IsReply};

use super::atoms::{Form, atom_list};
use super::characters::char_code;
use super::lengths::atom_length;
use super::numbers::number_list;
use iso_lib_core::{Fault, Reply};
use iso_model::Text;
use iso_store_core::Store;
use std::alloc::Global;

/// Runs a goal of this built-in, which has as many arguments: what it comes to. After an error, and where it fails,
/// the caller goes back to a mark. The errors: one is raised, and nothing was bound; the store is full; memory was
/// refused.
pub fn builtin<S: Store>(
    alloc: Global,
    store: &mut S,
    row: Text,
    arguments: &[S::Word],
) -> Result<Reply, Fault>
    requires arguments { All (λ w. Holds (S.present store.old) w) arguments.now }
    requires count { length arguments.now ≡ text_arity row }
    ensures replies { (t : Tree) → AreArguments (S.present store.old) arguments.now t
        → IsReply (S.present store.old) (S.present store.new) (text_answer row t) result }
    ensures full { result ≡ Err Fault.Full → S.full store.new }
    ensures cells { (t : Tree) → AreArguments (S.present store.old) arguments.now t
        → Takes S.Store store.old store.new (made_for (text_answer row t)) }
    ensures rest { Retains S.Store store.old store.new }
{
    match row {
        Text::AtomLength => atom_length(alloc, store, arguments),
        Text::AtomChars => atom_list(alloc, store, Form::Characters, "atom_chars", arguments),
        Text::AtomCodes => atom_list(alloc, store, Form::Codes, "atom_codes", arguments),
        Text::CharCode => char_code(alloc, store, arguments),
        Text::NumberChars => number_list(alloc, store, Form::Characters, "number_chars", arguments),
        Text::NumberCodes => number_list(alloc, store, Form::Codes, "number_codes", arguments),
    }
}
