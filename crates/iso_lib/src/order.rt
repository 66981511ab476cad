//! The standard order of terms (8.4): how two terms stand in it, and `compare/3`.
ghost use Rattle.std.specs.Prelude.{◌≡◌, ◌≢◌, Err, codes, length};
ghost use Rattle.std.specs.List.{All};
ghost use Rattle.iso_model.specs.Terms.Trees.{Tree};
ghost use Rattle.iso_model.specs.Terms.Sorting.{by_order};
ghost use Rattle.iso_model.specs.Search.Library.{library_answer, equate, stands_so, is_order_name, order_atom, compare_answer};
ghost use Rattle.iso_model.specs.declared.kinds.Library.TheVariants as library;
ghost use Rattle.iso_store_core.specs.Presents.{Holds, meaning};
ghost use Rattle.iso_store_core.specs.Retaining.{Retains, RetainsAll, Takes};
ghost use Rattle.iso_store_core.specs.ArgumentWords.{AreArguments};
ghost use Rattle.iso_lib_core.specs.Cells.{made_for};
ghost use Rattle.iso_lib_core.specs.Replies.{IsReply};
ghost use Rattle.iso_lib_core.specs.Checks.{GoesOn};

use iso_lib_core::{Fault, Reply, culprits, equate_atom, tested};
use iso_model::OrderTest;
use iso_store_core::{Shape, Store};
use std::alloc::Global;
use std::cmp::Ordering;

/// Whether two terms that compare so stand so.
fn stands_so(test: OrderTest, order: Ordering) -> bool
    ensures { result ≡ stands_so test order }
{
    match test {
        OrderTest::Identical => order.is_eq(),
        OrderTest::NotIdentical => order.is_ne(),
        OrderTest::Before => order.is_lt(),
        OrderTest::NotAfter => order.is_le(),
        OrderTest::After => order.is_gt(),
        OrderTest::NotBefore => order.is_ge(),
    }
}

/// A test of how two terms stand (8.4.1). The error is that memory was refused.
pub(crate) fn order<S: Store>(
    store: &mut S,
    test: OrderTest,
    arguments: &[S::Word],
) -> Result<Reply, Fault>
    requires arguments { All (λ w. Holds (S.present store.old) w) arguments.now }
    requires count { length arguments.now ≡ 2 }
    ensures replies { (t : Tree) → AreArguments (S.present store.old) arguments.now t
        → IsReply (S.present store.old) (S.present store.new) (library_answer (library.Order test) t) result }
    ensures full { result ≡ Err Fault.Full → S.full store.new }
    ensures cells { (t : Tree) → AreArguments (S.present store.old) arguments.now t
        → Takes S.Store store.old store.new (made_for (library_answer (library.Order test) t)) }
    ensures rest { RetainsAll S.Store store.old store.new }
{
    let (left, right) = (arguments[0], arguments[1]);
    let order = store.compare(left, right)?;
    Ok(tested(stands_so(test, order)))
}

/// The name of the atom for an order.
fn name_of(order: Ordering) -> &'static str
    ensures { result.now ≡ by_order order (codes "<") (codes "=") (codes ">") }
{
    match order {
        Ordering::Less => "<",
        Ordering::Equal => "=",
        Ordering::Greater => ">",
    }
}

/// Whether this is the name of such an atom.
fn is_order_name(name: &str) -> bool
    ensures { result ≡ is_order_name name.now }
{
    name == "<" || name == "=" || name == ">"
}

/// Sees that the word is unbound or stands for the atom of an order. The errors: `compare/3` raises one, or memory
/// was refused.
fn see_order<S: Store>(alloc: Global, store: &S, word: S::Word) -> Result<(), Fault>
    requires word { Holds (S.present store.now) word }
    ensures goes_on { GoesOn (S.present store.now) (compare_answer (meaning (S.present store.now) word)) (λ o. equate (meaning (S.present store.now) word) (order_atom o)) result }
    ensures full { result ≢ Err Fault.Full }
{
    match store.shape(word) {
        Shape::Var(_) => Ok(()),
        Shape::Atom(name) => {
            if is_order_name(store.text(name)) {
                return Ok(());
            }
            Err(culprits::out_of_domain(alloc, store, "order", word, "compare", 3))
        }
        Shape::Int(_) | Shape::Compound(_, _) => {
            Err(culprits::wrong_type(alloc, store, "atom", word, "compare", 3))
        }
    }
}

/// `compare/3` (8.4.2 of the second corrigendum). The errors: one is raised, the store is full, or memory was refused.
pub(crate) fn compare_terms<S: Store>(
    alloc: Global,
    store: &mut S,
    arguments: &[S::Word],
) -> Result<Reply, Fault>
    requires arguments { All (λ w. Holds (S.present store.old) w) arguments.now }
    requires count { length arguments.now ≡ 3 }
    ensures replies { (t : Tree) → AreArguments (S.present store.old) arguments.now t
        → IsReply (S.present store.old) (S.present store.new) (library_answer library.CompareTerms t) result }
    ensures full { result ≡ Err Fault.Full → S.full store.new }
    ensures cells { (t : Tree) → AreArguments (S.present store.old) arguments.now t
        → Takes S.Store store.old store.new (made_for (library_answer library.CompareTerms t)) }
    ensures rest { Retains S.Store store.old store.new }
{
    let (order, left, right) = (arguments[0], arguments[1], arguments[2]);
    see_order(alloc, store, order)?;
    let found = store.compare(left, right)?;
    equate_atom(store, order, name_of(found))
}
