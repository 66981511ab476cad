//! Words that stand for equal terms, which are joined: a place leads to a word of an earlier place that stands for
//! the same.
ghost use Rattle.std.specs.Prelude.{◌≡◌, ◌<◌, IfSome, OnOk, true};
ghost use Rattle.iso_store_core.specs.Presents.{Holds, meaning};
ghost use Rattle.iso_store.specs.Unifying.{AreJoined};

use super::notes::Notes;
use super::primitives::Primitives;
use iso_model::NoMemory;

/// The word that the place leads to, with its own place. From now on it leads to the word behind that one, if there
/// is one.
fn next_joined<S: Primitives>(
    store: &S,
    place: usize,
    joined: &mut Notes<S::Word>,
) -> Option<(S::Word, usize)>
    requires { AreJoined (S.present store.now) (S.at_place store.now) joined.old }
    ensures joined { AreJoined (S.present store.now) (S.at_place store.now) joined.new }
    ensures holds { IfSome result (λ n. Holds (S.present store.now) n.0) }
    ensures value { IfSome result (λ n. meaning (S.present store.now) n.0 ≡ S.at_place store.now place) }
    ensures place { IfSome result (λ n. S.at_place store.now n.1 ≡ S.at_place store.now place) }
    ensures earlier { IfSome result (λ n. n.1 < place) }
{
    let next = joined.at(place)?;
    let next_place = store.place(next)?;
    if next_place >= place {
        return None;
    }
    if let Some(behind) = joined.at(next_place) {
        joined.change(place, behind);
    }
    Some((next, next_place))
}

/// The word that all words lead to which are joined with this one. It stands for the same term.
pub(crate) fn end_of_joins<S: Primitives>(
    store: &S,
    word: S::Word,
    joined: &mut Notes<S::Word>,
) -> S::Word
    requires word { Holds (S.present store.now) word }
    requires joined { AreJoined (S.present store.now) (S.at_place store.now) joined.old }
    ensures joined { AreJoined (S.present store.now) (S.at_place store.now) joined.new }
    ensures holds { Holds (S.present store.now) result }
    ensures value { meaning (S.present store.now) result ≡ meaning (S.present store.now) word }
{
    let Some(first) = store.place(word) else {
        return word;
    };
    let mut end = word;
    let mut place = first;
    while let Some((next, next_place)) = next_joined(store, place, joined) {
        end = next;
        place = next_place;
    }
    end
}

/// Whether the two words stand for what is at one place, and so for one term. False says nothing.
pub(crate) fn are_at_one_place<S: Primitives>(store: &S, one: S::Word, other: S::Word) -> bool
    requires one { Holds (S.present store.now) one }
    requires other { Holds (S.present store.now) other }
    ensures { result ≡ true → meaning (S.present store.now) one ≡ meaning (S.present store.now) other }
{
    let Some(one_place) = store.place(one) else {
        return false;
    };
    let Some(other_place) = store.place(other) else {
        return false;
    };
    one_place == other_place
}

/// Joins two words that stand for one term. The error is that memory was refused.
pub(crate) fn join<S: Primitives>(
    store: &S,
    one: S::Word,
    other: S::Word,
    joined: &mut Notes<S::Word>,
) -> Result<(), NoMemory>
    requires one { Holds (S.present store.now) one }
    requires other { Holds (S.present store.now) other }
    requires equal { meaning (S.present store.now) one ≡ meaning (S.present store.now) other }
    requires joined { AreJoined (S.present store.now) (S.at_place store.now) joined.old }
    ensures { OnOk result (AreJoined (S.present store.now) (S.at_place store.now) joined.new) }
{
    let Some(one_place) = store.place(one) else {
        return Ok(());
    };
    let Some(other_place) = store.place(other) else {
        return Ok(());
    };
    if one_place < other_place {
        joined.note(other_place, one)
    } else {
        joined.note(one_place, other)
    }
}
