//! Copies of terms inside a store: what stands at one place is copied once.
ghost use Rattle.std.specs.Prelude.{◌≡◌, ℕ, ◌+◌, ◌<◌, ◌≤◌, ◌^◌, IfOk, OnOk, OnErr, length, map};
ghost use Rattle.std.specs.List.{All};
ghost use Rattle.iso_model.specs.Terms.Trees.{Tree, Variable};
ghost use Rattle.iso_model.specs.Terms.Variables.{variables, variable_count};
ghost use Rattle.iso_model.specs.Terms.Copies.{copy_from};
ghost use Rattle.iso_store_core.specs.Presents.{Holds, meaning, Gathers, Makes, KeepsNumbers, MovesOn, Grows, NumbersHaveCells, KeepsMarks};
ghost use Rattle.iso_store_core.specs.Copying.{cells_of};
ghost use Rattle.iso_store_core.specs.Patterns.{IsNamed};
ghost use Rattle.iso_store.specs.Writing.{IsReady, part_cells};
ghost use Rattle.iso_store.specs.Plans.{IsPlan, sketch_of, with_part};

use super::copies::variables_from;
use super::instances::make_part;
use super::plans::{MOST_VARIABLES, plan};
use super::primitives::Primitives;
use super::scratch::{Scratch, keep, take_scratch};
use super::variables::variables_with;
use iso_store_core::{Part, StoreFault};
use std::alloc::Global;

/// Does what the part says with the words that came before it and those that are known. A compound that it makes is
/// known from then on.
fn make_planned<S: Primitives>(
    store: &mut S,
    part: Part,
    known: &mut Vec<S::Word>,
    words: &mut Vec<S::Word>,
) -> Result<(), StoreFault>
    requires named { IsNamed (S.names store.old) part }
    requires ready { IsReady (length known.old.items) (length words.old.items) part }
    requires known { All (λ w. Holds (S.present store.old) w) known.old.items }
    requires words { All (λ w. Holds (S.present store.old) w) words.old.items }
    ensures words { OnOk result (Gathers (S.present store.old) (S.present store.new) words.new.items
        (with_part (S.names store.old) part (sketch_of (S.present store.old) words.old.items known.old.items)).terms) }
    ensures known { OnOk result (Gathers (S.present store.old) (S.present store.new) known.new.items
        (with_part (S.names store.old) part (sketch_of (S.present store.old) words.old.items known.old.items)).known) }
    ensures numbers { OnOk result (KeepsNumbers (S.present store.old) (S.present store.new)) }
    ensures cells { Grows (S.present store.old) (S.present store.new) (part_cells S.atomic S.width (length words.old.items) part) 0 }
    ensures full { result ≡ Err StoreFault.Full → S.full store.new }
    ensures names { S.names store.new ≡ S.names store.old }
    ensures marks { KeepsMarks (S.stands store.old) (S.stands store.new) }
{
    make_part(store, part, known.as_slice(), words)?;
    if let Part::Compound(_, _) = &part {
        known.push(words[words.len() - 1])?;
    }
    Ok(())
}

/// The term of the plan, with these words for the terms that are known to begin with.
fn make_plan<S: Primitives>(
    alloc: Global,
    store: &mut S,
    parts: &[Part],
    known: Vec<S::Word>,
) -> Result<S::Word, StoreFault>
    requires plan { (t : Tree) × IsPlan (S.names store.old) (map (S.present store.old).term known.items) parts.now t }
    requires known { All (λ w. Holds (S.present store.old) w) known.items }
    ensures made { (t : Tree) → IsPlan (S.names store.old) (map (S.present store.old).term known.items) parts.now t
        → IfOk result (λ w. Makes (S.present store.old) (S.present store.new) w t) }
    ensures numbers { OnOk result (KeepsNumbers (S.present store.old) (S.present store.new)) }
    ensures cells { (t : Tree) → IsPlan (S.names store.old) (map (S.present store.old).term known.items) parts.now t
        → Grows (S.present store.old) (S.present store.new) (cells_of S.atomic S.width t) 0 }
    ensures full { result ≡ Err StoreFault.Full → S.full store.new }
    ensures names { S.names store.new ≡ S.names store.old }
    ensures marks { KeepsMarks (S.stands store.old) (S.stands store.new) }
{
    let mut known = known;
    let mut words = Vec::new(alloc);
    for part in parts {
        make_planned(store, *part, &mut known, &mut words)?;
    }
    let Some(word) = words.pop() else {
        unreachable!()
    };
    Ok(word)
}

/// A plan of a copy.
#[derive(Drop)]
pub(crate) struct CopyPlan {
    /// How many variables the term has, which are known to begin with.
    pub(crate) variables: usize,
    /// What is to be done.
    pub(crate) parts: Vec<Part>,
}

/// A plan of the copy of the term that the word stands for, with these notes. A term of more than 536,870,912
/// variables is refused as memory is.
pub(crate) fn plan_copy<S: Primitives>(
    alloc: Global,
    store: &S,
    word: S::Word,
    scratch: &mut Scratch<S::Word>,
) -> Result<CopyPlan, StoreFault>
    requires { Holds (S.present store.now) word }
    ensures count { IfOk result (λ r. r.variables ≡ variable_count (meaning (S.present store.now) word)) }
    ensures few { IfOk result (λ r. r.variables ≤ 536870912) }
    ensures plan { IfOk result (λ r. IsPlan (S.names store.now) (map Variable (variables (meaning (S.present store.now) word))) r.parts.items (meaning (S.present store.now) word)) }
    ensures error { OnErr result (result ≡ Err StoreFault.NoMemory) }
{
    let words = variables_with(alloc, store, word, &mut scratch.notes.searched)?;
    let variables = words.len();
    if variables > MOST_VARIABLES {
        return Err(StoreFault::NoMemory);
    }
    let parts = plan(alloc, store, word, words, &mut scratch.known)?;
    Ok(CopyPlan { variables, parts })
}

/// The copy of the term that the word stands for, with its variables numbered from the next number on by first
/// occurrence. A term of more than 536,870,912 variables is refused as memory is.
pub(crate) fn duplicate<S: Primitives>(
    alloc: Global,
    store: &mut S,
    word: S::Word,
) -> Result<S::Word, StoreFault>
    requires word { Holds (S.present store.old) word }
    requires next { (S.present store.old).next < 2 ^ 63 }
    ensures made { IfOk result (λ w. Makes (S.present store.old) (S.present store.new) w (copy_from (meaning (S.present store.old) word) (S.present store.old).next)) }
    ensures numbers { OnOk result (MovesOn (S.present store.old) (S.present store.new) (variable_count (meaning (S.present store.old) word))) }
    ensures few { OnOk result (variable_count (meaning (S.present store.old) word) ≤ 536870912) }
    ensures cells { Grows (S.present store.old) (S.present store.new)
        (variable_count (meaning (S.present store.old) word) + cells_of S.atomic S.width (meaning (S.present store.old) word)) (variable_count (meaning (S.present store.old) word)) }
    ensures counted { OnOk result (NumbersHaveCells (S.present store.old) (S.present store.new)) }
    ensures full { result ≡ Err StoreFault.Full → S.full store.new }
    ensures names { S.names store.new ≡ S.names store.old }
    ensures marks { KeepsMarks (S.stands store.old) (S.stands store.new) }
{
    let mut scratch = take_scratch(store)?;
    let planned = plan_copy(alloc, &*store, word, &mut scratch);
    keep(store, scratch);
    let planned = planned?;
    let first = store.reserve(planned.variables as u64);
    let known = variables_from(alloc, store, first, planned.variables)?;
    make_plan(alloc, store, planned.parts.as_slice(), known)
}
