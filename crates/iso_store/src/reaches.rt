//! How far bindings lead forward, from a variable to a place behind it.
ghost use Rattle.std.specs.Prelude.{◌≡◌, ℕ, ◌<◌, ◌≤◌, Some};
ghost use Rattle.iso_store.specs.HeapStores.{word_place};

use super::heap_cells::HeapWord;

/// How far they lead once one leads from `place` to `target`, where the others lead no farther than `reach`.
pub(crate) fn farther(reach: usize, place: usize, target: usize) -> usize
    ensures others { reach ≤ result }
    ensures this_one { place < target → target ≤ result }
{
    if place < target && reach < target {
        target
    } else {
        reach
    }
}

/// The place that the word leads to.
#[inline(always)]
pub(crate) fn place_of(word: &HeapWord) -> Option<usize>
    ensures { result ≡ word_place word.now }
{
    match word {
        HeapWord::Var(place) | HeapWord::Structure(place) | HeapWord::Boxed(place) => Some(*place),
        HeapWord::Int(_) | HeapWord::Atom(_) => None,
    }
}

/// How far they lead once one leads from `place` to where this word leads, and the others no farther than `reach`.
pub(crate) fn farther_to(reach: usize, place: usize, word: &HeapWord) -> usize
    ensures others { reach ≤ result }
    ensures this_one { (j : ℕ) → word_place word.now ≡ Some j → place < j → j ≤ result }
{
    match place_of(word) {
        Some(target) => farther(reach, place, target),
        None => reach,
    }
}

/// How far those among the first `count` places lead, where all lead no farther than `reach`.
pub(crate) fn within(reach: usize, count: usize) -> usize
    ensures { (k : ℕ) → k ≤ reach → k < count → k ≤ result }
{
    if reach < count {
        reach
    } else {
        count.saturating_sub(1)
    }
}
