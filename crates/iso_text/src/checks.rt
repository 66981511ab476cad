//! Checks of arguments (8.16.2 c, d and 8.16.3 b to d).
ghost use Rattle.std.specs.Prelude.{◌≡◌, ◌<◌, IfOk};
ghost use Rattle.iso_model.specs.Search.AtomParts.{with_atom, with_count};
ghost use Rattle.iso_model.specs.Search.Errors.{key};
ghost use Rattle.iso_store_core.specs.Presents.{Holds, meaning};
ghost use Rattle.iso_lib_core.specs.Checks.{PassesTo};
ghost use Rattle.iso_text.specs.Bounds.{count_of};

use iso_lib_core::{Fault, culprits};
use iso_store_core::{Shape, Store};
use std::alloc::Global;

/// Sees that the word is unbound or stands for an atom. The errors: this procedure raises one, or memory was refused.
pub(crate) fn see_atom<S: Store>(
    alloc: Global,
    store: &S,
    word: S::Word,
    name: &str,
    arity: usize,
) -> Result<(), Fault>
    requires word { Holds (S.present store.now) word }
    requires arity { arity < 256 }
    ensures { PassesTo (with_atom (meaning (S.present store.now) word) (key name.now arity)) (λ done goes_on. goes_on) result }
{
    match store.shape(word) {
        Shape::Var(_) | Shape::Atom(_) => Ok(()),
        Shape::Int(_) | Shape::Compound(_, _) => {
            Err(culprits::wrong_type(alloc, store, "atom", word, name, arity))
        }
    }
}

/// The number that the word stands for, which may be unbound. The errors: `sub_atom/5` raises one for anything else,
/// or memory was refused.
pub(crate) fn asked_count<S: Store>(
    alloc: Global,
    store: &S,
    word: S::Word,
) -> Result<Option<u128>, Fault>
    requires word { Holds (S.present store.now) word }
    ensures count { IfOk result (λ count. count ≡ count_of (meaning (S.present store.now) word)) }
    ensures passes { PassesTo (with_count (meaning (S.present store.now) word)) (λ count goes_on. goes_on) result }
{
    match store.shape(word) {
        Shape::Var(_) => Ok(None),
        Shape::Int(value) => {
            if value >= 0 {
                return Ok(Some(value as u128));
            }
            Err(culprits::out_of_domain(alloc, store, "not_less_than_zero", word, "sub_atom", 5))
        }
        Shape::Atom(_) | Shape::Compound(_, _) => {
            Err(culprits::wrong_type(alloc, store, "integer", word, "sub_atom", 5))
        }
    }
}
