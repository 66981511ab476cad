//! The built-ins that run no goal, one by one.
ghost use Rattle.std.specs.Prelude.{◌≡◌, ◌<◌, ◌^◌, Err, length};
ghost use Rattle.std.specs.List.{All};
ghost use Rattle.iso_model.specs.Terms.Trees.{Tree};
ghost use Rattle.iso_model.specs.Search.Library.{library_answer, library_arity};
ghost use Rattle.iso_store_core.specs.Presents.{Holds, meaning};
ghost use Rattle.iso_store_core.specs.Retaining.{Retains, Takes};
ghost use Rattle.iso_store_core.specs.ArgumentWords.{AreArguments};
ghost use Rattle.iso_arith.specs.Evaluables.{AreEvaluables};
ghost use Rattle.iso_lib_core.specs.Cells.{made_for};
ghost use Rattle.iso_lib_core.specs.Replies.{IsReply};

use super::arithmetic::{compare, is};
use super::equations::{differ, unify};
use super::order::{compare_terms, order};
use super::types::test;
use iso_arith::Evaluables;
use iso_lib_core::arguments::arg;
use iso_lib_core::copies::copy_term;
use iso_lib_core::functors::functor;
use iso_lib_core::sorting::{keysort, sort};
use iso_lib_core::univ::univ;
use iso_lib_core::variables::term_variables;
use iso_lib_core::{Fault, Reply};
use iso_model::Library;
use iso_store_core::Store;
use std::alloc::Global;

/// Runs a goal of this built-in, which has as many arguments: what it comes to. After an error, and where it fails,
/// the caller goes back to a mark. The errors: one is raised, and nothing was bound; the store is full; memory was
/// refused.
pub fn builtin<S: Store>(
    alloc: Global,
    store: &mut S,
    evaluables: &Evaluables,
    row: Library,
    arguments: &[S::Word],
) -> Result<Reply, Fault>
    requires arguments { All (λ w. Holds (S.present store.old) w) arguments.now }
    requires count { length arguments.now ≡ library_arity row }
    requires next { (S.present store.old).next < 2 ^ 63 }
    requires evaluables { AreEvaluables (S.names store.old) evaluables.now }
    ensures replies { (t : Tree) → AreArguments (S.present store.old) arguments.now t
        → IsReply (S.present store.old) (S.present store.new) (library_answer row t) result }
    ensures full { result ≡ Err Fault.Full → S.full store.new }
    ensures cells { (t : Tree) → AreArguments (S.present store.old) arguments.now t
        → Takes S.Store store.old store.new (made_for (library_answer row t)) }
    ensures rest { Retains S.Store store.old store.new }
{
    match row {
        Library::Unify => unify(store, arguments),
        Library::Differ => differ(store, arguments),
        Library::Test(kind) => test(store, kind, arguments),
        Library::Is => is(alloc, store, evaluables, arguments),
        Library::Compare(comparison) => compare(alloc, store, evaluables, comparison, arguments),
        Library::Arg => arg(alloc, store, arguments),
        Library::CopyTerm => copy_term(alloc, store, arguments),
        Library::Functor => functor(alloc, store, arguments),
        Library::Univ => univ(alloc, store, arguments),
        Library::TermVariables => term_variables(alloc, store, arguments),
        Library::Order(test) => order(store, test, arguments),
        Library::CompareTerms => compare_terms(alloc, store, arguments),
        Library::Sort => sort(alloc, store, arguments),
        Library::Keysort => keysort(alloc, store, arguments),
    }
}
