//! The variables of a term as a list (8.5.5 of the second corrigendum).
ghost use Rattle.std.specs.Prelude.{◌≡◌, Err, length};
ghost use Rattle.std.specs.List.{All};
ghost use Rattle.iso_model.specs.Terms.Trees.{Tree};
ghost use Rattle.iso_model.specs.Search.Library.{library_answer};
ghost use Rattle.iso_model.specs.declared.kinds.Library.TheVariants as library;
ghost use Rattle.iso_store_core.specs.Presents.{Holds, meaning};
ghost use Rattle.iso_store_core.specs.Retaining.{Retains, Takes};
ghost use Rattle.iso_store_core.specs.ArgumentWords.{AreArguments};
ghost use Rattle.iso_lib_core.specs.Cells.{made_for};
ghost use Rattle.iso_lib_core.specs.Replies.{IsReply};

use super::equated::equate_list;
use super::lists::see_partial_list;
use super::outcomes::{Fault, Reply};
use iso_store_core::Store;
use std::alloc::Global;

/// `term_variables/2`. The errors: one is raised, the store is full, or memory was refused.
pub fn term_variables<S: Store>(
    alloc: Global,
    store: &mut S,
    arguments: &[S::Word],
) -> Result<Reply, Fault>
    requires arguments { All (λ w. Holds (S.present store.old) w) arguments.now }
    requires count { length arguments.now ≡ 2 }
    ensures replies { (t : Tree) → AreArguments (S.present store.old) arguments.now t
        → IsReply (S.present store.old) (S.present store.new) (library_answer library.TermVariables t) result }
    ensures full { result ≡ Err Fault.Full → S.full store.new }
    ensures cells { (t : Tree) → AreArguments (S.present store.old) arguments.now t
        → Takes S.Store store.old store.new (made_for (library_answer library.TermVariables t)) }
    ensures rest { Retains S.Store store.old store.new }
{
    let (term, list) = (arguments[0], arguments[1]);
    see_partial_list(alloc, store, list, "term_variables", 2)?;
    let variables = store.variables(term)?;
    equate_list(alloc, store, list, variables.as_slice())
}
