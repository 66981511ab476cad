//! Terms that are unified, or that don't unify (8.2).
ghost use Rattle.std.specs.Prelude.{◌≡◌, Err, length};
ghost use Rattle.std.specs.List.{All};
ghost use Rattle.iso_model.specs.Terms.Trees.{Tree};
ghost use Rattle.iso_model.specs.Search.Library.{library_answer};
ghost use Rattle.iso_model.specs.declared.kinds.Library.TheVariants as row;
ghost use Rattle.iso_store_core.specs.Presents.{Holds, meaning};
ghost use Rattle.iso_store_core.specs.Retaining.{RetainsAll, Takes};
ghost use Rattle.iso_store_core.specs.ArgumentWords.{AreArguments};
ghost use Rattle.iso_lib_core.specs.Cells.{made_for};
ghost use Rattle.iso_lib_core.specs.Replies.{IsReply};

use iso_lib_core::{Fault, Reply, tested};
use iso_store_core::Store;

/// `=/2` (8.2.1). The errors: the store is full, or memory was refused.
pub(crate) fn unify<S: Store>(store: &mut S, arguments: &[S::Word]) -> Result<Reply, Fault>
    requires arguments { All (λ w. Holds (S.present store.old) w) arguments.now }
    requires count { length arguments.now ≡ 2 }
    ensures replies { (t : Tree) → AreArguments (S.present store.old) arguments.now t
        → IsReply (S.present store.old) (S.present store.new) (library_answer row.Unify t) result }
    ensures full { result ≡ Err Fault.Full → S.full store.new }
    ensures cells { (t : Tree) → AreArguments (S.present store.old) arguments.now t
        → Takes S.Store store.old store.new (made_for (library_answer row.Unify t)) }
    ensures rest { RetainsAll S.Store store.old store.new }
{
    let (left, right) = (arguments[0], arguments[1]);
    Ok(tested(store.unify(left, right)?))
}

/// `\=/2` (8.2.3): nothing is bound. The errors: the store is full, or memory was refused.
pub(crate) fn differ<S: Store>(store: &mut S, arguments: &[S::Word]) -> Result<Reply, Fault>
    requires arguments { All (λ w. Holds (S.present store.old) w) arguments.now }
    requires count { length arguments.now ≡ 2 }
    ensures replies { (t : Tree) → AreArguments (S.present store.old) arguments.now t
        → IsReply (S.present store.old) (S.present store.new) (library_answer row.Differ t) result }
    ensures full { result ≡ Err Fault.Full → S.full store.new }
    ensures cells { (t : Tree) → AreArguments (S.present store.old) arguments.now t
        → Takes S.Store store.old store.new (made_for (library_answer row.Differ t)) }
    ensures rest { RetainsAll S.Store store.old store.new }
{
    let (left, right) = (arguments[0], arguments[1]);
    let mark = store.mark();
    let equal = store.unify(left, right)?;
    store.undo(mark);
    store.forget(mark);
    Ok(tested(!equal))
}
