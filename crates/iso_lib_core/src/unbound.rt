//! Whether words stand for unbound variables.
ghost use Rattle.std.specs.Prelude.{◌≡◌, ◌<◌, length, map};
ghost use Rattle.std.specs.List.{All, list_any};
ghost use Rattle.iso_atoms.specs.Texts.{EachOnce};
ghost use Rattle.iso_model.specs.Terms.Types.{is_variable};
ghost use Rattle.iso_store_core.specs.Presents.{Holds, meaning};

use iso_store_core::{Shape, Store};

/// Whether the term that the word stands for is an unbound variable.
pub fn is_unbound<S: Store>(store: &S, word: S::Word) -> bool
    requires { Holds (S.present store.now) word }
    ensures unbound { result ≡ is_variable (meaning (S.present store.now) word) }
    ensures each_once { EachOnce (S.names store.now) }
{
    matches!(store.shape(word), Shape::Var(_))
}

/// Whether one of the words stands for an unbound variable.
pub fn has_unbound<S: Store>(store: &S, words: &[S::Word]) -> bool
    requires { All (λ w. Holds (S.present store.now) w) words.now }
    ensures unbound { result ≡ list_any is_variable (map (meaning (S.present store.now)) words.now) }
    ensures each_once { 0 < length words.now → EachOnce (S.names store.now) }
{
    for word in words {
        if is_unbound(store, *word) {
            return true;
        }
    }
    false
}
