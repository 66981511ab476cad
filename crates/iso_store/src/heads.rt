//! The head of a clause unified with a goal as it is read (7.7.10): what stands for a part of the goal is not made.
ghost use Rattle.std.specs.Prelude.{◌≡◌, ℕ, ◌+◌, ◌<◌, ◌≤◌, ◌^◌, IfOk, OnOk, MatchBool, Some, length, map, true, false};
ghost use Rattle.std.specs.List.{All, slice_get};
ghost use Rattle.iso_model.specs.Terms.Trees.{Tree};
ghost use Rattle.iso_model.specs.Terms.Substitutions.{Subst, apply};
ghost use Rattle.iso_store_core.specs.Copying.{cells_of};
ghost use Rattle.iso_store_core.specs.Presents.{Holds, meaning, IsUnification, Grows, KeepsMarks};
ghost use Rattle.iso_store_core.specs.Exact.{are_exact};
ghost use Rattle.iso_store_core.specs.Patterns.{IsPattern, at_places};
ghost use Rattle.iso_store_core.specs.Heads.{IsHeadMet};
ghost use Rattle.iso_store.specs.Writing.{IsFitPattern};
ghost use Rattle.iso_store.specs.Reading.{term_between, later_cells, IsLater, GetsWord, HasWords, MakesThese, UnifiesThese};

use super::instances::make_parts;
use super::primitives::Primitives;
use super::reading::{Later, begin, read_head};
use super::scratch::{Scratch, UnifyNotes, keep, take_scratch};
use super::unify::{Task, unify_made};
use iso_store_core::{Part, StoreFault};

/// The word of the variable of this number: its value where it has one, else the variable, which comes.
fn word_for<S: Primitives>(
    store: &mut S,
    number: u64,
    value: Option<S::Word>,
) -> Result<S::Word, StoreFault>
    requires number { number < (S.present store.old).next }
    requires free { (n : ℕ) → number ≤ n → (S.present store.old).taken n ≡ false }
    requires held { (w : S.Word) → value ≡ Some w → Holds (S.present store.old) w }
    ensures word { IfOk result (GetsWord (S.present store.old) (S.present store.new) number value) }
    ensures cells { Grows (S.present store.old) (S.present store.new) 1 1 }
    ensures full { result ≡ Err StoreFault.Full → S.full store.new }
    ensures names { S.names store.new ≡ S.names store.old }
    ensures marks { KeepsMarks (S.stands store.old) (S.stands store.new) }
{
    match value {
        Some(word) => Ok(word),
        None => store.variable(number),
    }
}

/// Puts into the list, in place of what it has, the words of the variables of a clause, numbered from `first` on:
/// their values, and those that have none, which come.
fn words_for<S: Primitives>(
    store: &mut S,
    first: u64,
    values: &[Option<S::Word>],
    words: &mut Vec<S::Word>,
) -> Result<(), StoreFault>
    requires numbers { first + length values.now ≤ (S.present store.old).next }
    requires few { first + length values.now < 2 ^ 64 }
    requires free { (n : ℕ) → first ≤ n → (S.present store.old).taken n ≡ false }
    requires held { (x : ℕ) (w : S.Word) → slice_get values.now x ≡ Some (Some w) → Holds (S.present store.old) w }
    ensures words { OnOk result (HasWords (S.present store.old) (S.present store.new) first values.now words.new.items) }
    ensures cells { Grows (S.present store.old) (S.present store.new) (length values.now) (length values.now) }
    ensures full { result ≡ Err StoreFault.Full → S.full store.new }
    ensures names { S.names store.new ≡ S.names store.old }
    ensures marks { KeepsMarks (S.stands store.old) (S.stands store.new) }
{
    words.clear();
    let mut index = 0;
    while index < values.len() {
        let word = word_for(store, first + index as u64, values[index])?;
        words.push(word)?;
        index += 1;
    }
    Ok(())
}

/// Whether what was left for later can be unified with its word, which then is bound, with these words for the
/// variables.
fn unify_part<S: Primitives>(
    store: &mut S,
    head: &[Part],
    part: Later<S::Word>,
    words: &[S::Word],
    notes: &mut UnifyNotes<S::Word>,
    tasks: &mut Vec<Task<S::Word>>,
) -> Result<bool, StoreFault>
    requires later { IsLater (S.present store.old) (S.names store.old) head.now (length words.now) part }
    requires words { All (λ w. Holds (S.present store.old) w) words.now }
    ensures unified { IfOk result (IsUnification (S.present store.old) (S.present store.new) (meaning (S.present store.old) part.word)
        (apply (at_places (map (meaning (S.present store.old)) words.now)) (term_between (S.names store.old) head.now part.from part.past))) }
    ensures cells { Grows (S.present store.old) (S.present store.new) (cells_of S.atomic S.width (term_between (S.names store.old) head.now part.from part.past)) 0 }
    ensures full { result ≡ Err StoreFault.Full → S.full store.new }
    ensures names { S.names store.new ≡ S.names store.old }
    ensures marks { KeepsMarks (S.stands store.old) (S.stands store.new) }
{
    let parts = &head[part.from..part.past];
    let made = make_parts(store, parts, words, &mut notes.made)?;
    unify_made(store, part.word, made, notes, tasks)
}

/// Whether all that was left for later can be unified with its words, which then is bound.
fn unify_later<S: Primitives>(
    store: &mut S,
    head: &[Part],
    later: &[Later<S::Word>],
    words: &[S::Word],
    notes: &mut UnifyNotes<S::Word>,
    tasks: &mut Vec<Task<S::Word>>,
) -> Result<bool, StoreFault>
    requires later { All (IsLater (S.present store.old) (S.names store.old) head.now (length words.now)) later.now }
    requires words { All (λ w. Holds (S.present store.old) w) words.now }
    ensures unified { IfOk result (λ answer. MatchBool answer
        (UnifiesThese (S.present store.old) (S.present store.new) (S.names store.old) head.now words.now later.now)
        ((t : Subst) → MakesThese (S.present store.old) (S.names store.old) head.now words.now t later.now → ⊥)) }
    ensures cells { Grows (S.present store.old) (S.present store.new) (later_cells (S.names store.old) head.now S.atomic S.width later.now) 0 }
    ensures full { result ≡ Err StoreFault.Full → S.full store.new }
    ensures names { S.names store.new ≡ S.names store.old }
    ensures marks { KeepsMarks (S.stands store.old) (S.stands store.new) }
{
    for part in later {
        if !unify_part(store, head, *part, words, notes, tasks)? {
            return Ok(false);
        }
    }
    Ok(true)
}

/// Unifies the goal with the head, with these notes and lists; what it comes to is as of `unify_head`.
fn unify_head_with<S: Primitives>(
    store: &mut S,
    head: &[Part],
    goal: S::Word,
    count: usize,
    words: &mut Vec<S::Word>,
    scratch: &mut Scratch<S::Word>,
) -> Result<bool, StoreFault>
    requires goal { Holds (S.present store.old) goal }
    requires head { IsFitPattern (S.names store.old) head.now count }
    requires exact { are_exact head.now 0 ≡ true }
    requires next { (S.present store.old).next + count < 2 ^ 63 }
    ensures met { (t : Tree) → IsPattern (S.names store.old) head.now t
        → IfOk result (λ answer. IsHeadMet (S.present store.old) (S.present store.new) goal t count words.new.items answer) }
    ensures cells { (t : Tree) → IsPattern (S.names store.old) head.now t → Grows (S.present store.old) (S.present store.new) (count + cells_of S.atomic S.width t) count }
    ensures full { result ≡ Err StoreFault.Full → S.full store.new }
    ensures names { S.names store.new ≡ S.names store.old }
    ensures marks { KeepsMarks (S.stands store.old) (S.stands store.new) }
{
    let first = store.reserve(count as u64);
    let reading = &mut scratch.reading;
    begin(reading, count)?;
    if !read_head(
        store,
        head,
        goal,
        &mut reading.values,
        &mut reading.later,
        &mut reading.left,
    )? {
        return Ok(false);
    }
    words_for(store, first, reading.values.as_slice(), words)?;
    unify_later(
        store,
        head,
        reading.later.as_slice(),
        words.as_slice(),
        &mut scratch.notes,
        &mut scratch.tasks,
    )
}

/// Whether the goal and the head of a clause, which has these parts, unify; they are read one by one. The
/// clause's variables, so many, get the next numbers, and the list has words of their values in place of what it had.
pub(crate) fn unify_head<S: Primitives>(
    store: &mut S,
    head: &[Part],
    goal: S::Word,
    count: usize,
    words: &mut Vec<S::Word>,
) -> Result<bool, StoreFault>
    requires goal { Holds (S.present store.old) goal }
    requires head { IsFitPattern (S.names store.old) head.now count }
    requires exact { are_exact head.now 0 ≡ true }
    requires next { (S.present store.old).next + count < 2 ^ 63 }
    ensures met { (t : Tree) → IsPattern (S.names store.old) head.now t
        → IfOk result (λ answer. IsHeadMet (S.present store.old) (S.present store.new) goal t count words.new.items answer) }
    ensures cells { (t : Tree) → IsPattern (S.names store.old) head.now t → Grows (S.present store.old) (S.present store.new) (count + cells_of S.atomic S.width t) count }
    ensures full { result ≡ Err StoreFault.Full → S.full store.new }
    ensures names { S.names store.new ≡ S.names store.old }
    ensures marks { KeepsMarks (S.stands store.old) (S.stands store.new) }
{
    let mut scratch = take_scratch(store)?;
    let met = unify_head_with(store, head, goal, count, words, &mut scratch);
    keep(store, scratch);
    met
}
