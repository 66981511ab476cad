//! Goals behind each `V^` that they begin with (7.1.6.3).
ghost use Rattle.std.specs.Prelude.{◌≡◌};
ghost use Rattle.iso_model.specs.Search.Groups.{stripped};
ghost use Rattle.iso_store_core.specs.Presents.{Holds, meaning};

use iso_lib::lists::pair_named;
use iso_store_core::Store;

/// What is left of the goal behind each `V^` that it begins with.
pub fn stripped<S: Store>(store: &S, goal: S::Word) -> S::Word
    requires goal { Holds (S.present store.now) goal }
    ensures holds { Holds (S.present store.now) result }
    ensures goal { meaning (S.present store.now) result ≡ stripped (meaning (S.present store.now) goal) }
{
    let mut rest = goal;
    while let Some((_, next)) = pair_named(store, rest, "^") {
        rest = next;
    }
    rest
}
