//! Type testing (8.3).
ghost use Rattle.std.specs.Prelude.{◌≡◌, ◌≢◌, IfOk, Err, length};
ghost use Rattle.std.specs.List.{All};
ghost use Rattle.iso_model.specs.Terms.Trees.{Tree};
ghost use Rattle.iso_model.specs.Search.Library.{library_answer, has_type};
ghost use Rattle.iso_model.specs.declared.kinds.Library.TheVariants as row;
ghost use Rattle.iso_store_core.specs.Presents.{Holds, meaning};
ghost use Rattle.iso_store_core.specs.ArgumentWords.{AreArguments};
ghost use Rattle.iso_lib_core.specs.Replies.{IsReply};

use iso_lib_core::{Fault, Reply, tested};
use iso_model::{NoMemory, TypeTest};
use iso_store_core::{Shape, Store};

/// Whether the term that the word stands for has no variables. The error is that memory was refused.
fn is_ground<S: Store>(store: &S, word: S::Word) -> Result<bool, NoMemory>
    requires word { Holds (S.present store.now) word }
    ensures { IfOk result (λ answer. answer ≡ has_type TypeTest.Ground (meaning (S.present store.now) word)) }
{
    Ok(store.variables(word)?.is_empty())
}

/// Whether the term that the word stands for is of this type. The error is that memory was refused.
fn has_type<S: Store>(store: &S, kind: TypeTest, word: S::Word) -> Result<bool, NoMemory>
    requires word { Holds (S.present store.now) word }
    ensures { IfOk result (λ answer. answer ≡ has_type kind (meaning (S.present store.now) word)) }
{
    let shape = store.shape(word);
    match kind {
        TypeTest::Var => Ok(matches!(shape, Shape::Var(_))),
        TypeTest::Nonvar => Ok(!matches!(shape, Shape::Var(_))),
        TypeTest::Atom => Ok(matches!(shape, Shape::Atom(_))),
        TypeTest::Integer | TypeTest::Number => Ok(matches!(shape, Shape::Int(_))),
        TypeTest::Float => Ok(false),
        TypeTest::Atomic => Ok(matches!(shape, Shape::Atom(_) | Shape::Int(_))),
        TypeTest::Compound => Ok(matches!(shape, Shape::Compound(_, _))),
        TypeTest::Callable => Ok(matches!(shape, Shape::Atom(_) | Shape::Compound(_, _))),
        TypeTest::Ground => is_ground(store, word),
    }
}

/// A type test (8.3). The error is that memory was refused.
pub(crate) fn test<S: Store>(
    store: &S,
    kind: TypeTest,
    arguments: &[S::Word],
) -> Result<Reply, Fault>
    requires arguments { All (λ w. Holds (S.present store.now) w) arguments.now }
    requires count { length arguments.now ≡ 1 }
    ensures replies { (t : Tree) → AreArguments (S.present store.now) arguments.now t
        → IsReply (S.present store.now) (S.present store.now) (library_answer (row.Test kind) t) result }
    ensures full { result ≢ Err Fault.Full }
{
    let holds = has_type(store, kind, arguments[0])?;
    Ok(tested(holds))
}
