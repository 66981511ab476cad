//! Terms of patterns that are made in a store with new variables, each of which comes where it first occurs.
ghost use Rattle.std.specs.Prelude.{◌≡◌, ◌≢◌, ℕ, ◌+◌, ◌<◌, ◌≤◌, ◌^◌, IfOk, OnOk, None, Some, length, map, slice_get};
ghost use Rattle.std.specs.List.{All};
ghost use Rattle.iso_model.specs.Terms.Trees.{Tree, Variable};
ghost use Rattle.iso_model.specs.Terms.Variables.{variable_count};
ghost use Rattle.iso_model.specs.Terms.Building.{with_step};
ghost use Rattle.iso_model.specs.Terms.Copies.{renamed};
ghost use Rattle.iso_store_core.specs.Presents.{Holds, Gathers, Makes, MovesOn, TakesFrom, Grows, KeepsMarks};
ghost use Rattle.iso_store_core.specs.Copying.{cells_of};
ghost use Rattle.iso_store_core.specs.Patterns.{IsNamed, IsPattern, part_step};
ghost use Rattle.iso_store.specs.Writing.{IsFitPattern, IsReady, part_cells};
ghost use Rattle.iso_store.specs.HeapBuilds.{numbered};
ghost use Rattle.iso_store.specs.Renewals.{HaveWords, new_for, new_of};

use super::instances::make_part;
use super::primitives::Primitives;
use iso_store_core::{Part, StoreFault};
use std::alloc::Global;

/// The word of the variable of this place, which comes where it has none yet.
fn variable_at<S: Primitives>(
    store: &mut S,
    first: u64,
    place: usize,
    known: &mut Vec<Option<S::Word>>,
) -> Result<S::Word, StoreFault>
    requires place { place < length known.old.items }
    requires known { HaveWords (S.present store.old) first known.old.items }
    requires numbers { first + length known.old.items ≤ (S.present store.old).next }
    requires few { first + length known.old.items < 2 ^ 64 }
    ensures made { IfOk result (λ w. Makes (S.present store.old) (S.present store.new) w (Variable (first + place))) }
    ensures known { OnOk result (HaveWords (S.present store.new) first known.new.items) }
    ensures left { OnOk result ((k : ℕ) → slice_get known.new.items k ≡ Some None → (slice_get known.old.items k ≡ Some None) × (k ≢ place)) }
    ensures count { length known.new.items ≡ length known.old.items }
    ensures numbers { OnOk result (TakesFrom (S.present store.old) (S.present store.new) first) }
    ensures cells { Grows (S.present store.old) (S.present store.new) (new_for (slice_get known.old.items place)) (new_for (slice_get known.old.items place)) }
    ensures full { result ≡ Err StoreFault.Full → S.full store.new }
    ensures names { S.names store.new ≡ S.names store.old }
    ensures marks { KeepsMarks (S.stands store.old) (S.stands store.new) }
{
    if let Some(word) = known[place] {
        return Ok(word);
    }
    let word = store.variable(first + place as u64)?;
    known[place] = Some(word);
    Ok(word)
}

/// Does what the part says with the words that came before it.
fn renew_part<S: Primitives>(
    store: &mut S,
    first: u64,
    part: Part,
    known: &mut Vec<Option<S::Word>>,
    words: &mut Vec<S::Word>,
) -> Result<(), StoreFault>
    requires named { IsNamed (S.names store.old) part }
    requires ready { IsReady (length known.old.items) (length words.old.items) part }
    requires words { All (λ w. Holds (S.present store.old) w) words.old.items }
    requires known { HaveWords (S.present store.old) first known.old.items }
    requires numbers { first + length known.old.items ≤ (S.present store.old).next }
    requires few { first + length known.old.items < 2 ^ 64 }
    ensures gathers { OnOk result (Gathers (S.present store.old) (S.present store.new) words.new.items
        (with_step (part_step (S.names store.old) (numbered first) part) (map (S.present store.old).term words.old.items))) }
    ensures known { OnOk result (HaveWords (S.present store.new) first known.new.items) }
    ensures left { OnOk result ((k : ℕ) → slice_get known.new.items k ≡ Some None → (slice_get known.old.items k ≡ Some None) × (part ≢ Part.Variable k)) }
    ensures count { length known.new.items ≡ length known.old.items }
    ensures numbers { OnOk result (TakesFrom (S.present store.old) (S.present store.new) first) }
    ensures cells { Grows (S.present store.old) (S.present store.new)
        (part_cells S.atomic S.width (length words.old.items) part + new_of known.old.items part) (new_of known.old.items part) }
    ensures full { result ≡ Err StoreFault.Full → S.full store.new }
    ensures names { S.names store.new ≡ S.names store.old }
    ensures marks { KeepsMarks (S.stands store.old) (S.stands store.new) }
{
    if let Part::Variable(place) = part {
        let word = variable_at(store, first, place, known)?;
        words.push(word)?;
        return Ok(());
    }
    make_part(store, part, &[], words)
}

/// The term of the parts, with new variables, numbered from the next number on by their places, so many.
pub(crate) fn renew<S: Primitives>(
    alloc: Global,
    store: &mut S,
    parts: &[Part],
    count: usize,
) -> Result<S::Word, StoreFault>
    requires pattern { IsFitPattern (S.names store.old) parts.now count }
    requires next { (S.present store.old).next + count < 2 ^ 63 }
    ensures made { (t : Tree) → IsPattern (S.names store.old) parts.now t
        → IfOk result (λ w. Makes (S.present store.old) (S.present store.new) w (renamed (S.present store.old).next t)) }
    ensures numbers { OnOk result (MovesOn (S.present store.old) (S.present store.new) count) }
    ensures cells { (t : Tree) → IsPattern (S.names store.old) parts.now t
        → Grows (S.present store.old) (S.present store.new) (variable_count t + cells_of S.atomic S.width t) (variable_count t) }
    ensures full { result ≡ Err StoreFault.Full → S.full store.new }
    ensures names { S.names store.new ≡ S.names store.old }
    ensures marks { KeepsMarks (S.stands store.old) (S.stands store.new) }
{
    let first = store.reserve(count as u64);
    let mut known = Vec::from_elem(alloc, None, count)?;
    let mut words = Vec::new(alloc);
    for part in parts {
        renew_part(store, first, *part, &mut known, &mut words)?;
    }
    let Some(word) = words.pop() else {
        unreachable!()
    };
    Ok(word)
}
