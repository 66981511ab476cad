//! What calls of a store need for their work, and that it keeps from one to the next.
ghost use Rattle.std.specs.Prelude.{◌≡◌};
ghost use Rattle.iso_store_core.specs.Presents.{KeepsMarks};

use super::notes::Notes;
use super::occurs::Task as Search;
use super::primitives::Primitives;
use super::reading::Reading;
use super::unify::Task;
use iso_model::NoMemory;
use std::alloc::Global;

/// What unifying notes of the places of a store, and makes in it.
#[derive(Drop)]
pub(crate) struct UnifyNotes<W: Copy> {
    /// The places that a search for a variable is through with.
    pub(crate) searched: Notes<()>,
    /// What is left to do of such a search.
    pub(crate) searches: Vec<Search<W>>,
    /// For a place, a word of an earlier place that stands for the same term.
    pub(crate) joined: Notes<W>,
    /// The words of a term that is made of its parts.
    pub(crate) made: Vec<W>,
}

/// The notes and lists, which a store keeps between calls, so that none of them begins by making as many notes as the
/// store has places, or asks for memory for what is left to do.
#[derive(Drop)]
pub(crate) struct Scratch<W: Copy> {
    /// What unifying notes of places.
    pub(crate) notes: UnifyNotes<W>,
    /// What is left to do of making terms equal, or of comparing them.
    pub(crate) tasks: Vec<Task<W>>,
    /// For the place of a term that is known to a plan of a copy, its place among these.
    pub(crate) known: Notes<usize>,
    pub(crate) reading: Reading<W>,
}

impl<W: Copy> Scratch<W> {
    /// No notes, and nothing to do.
    pub(crate) fn new(alloc: Global) -> Scratch<W> {
        Scratch {
            notes: UnifyNotes {
                searched: Notes::new(alloc),
                searches: Vec::new(alloc),
                joined: Notes::new(alloc),
                made: Vec::new(alloc),
            },
            tasks: Vec::new(alloc),
            known: Notes::new(alloc),
            reading: Reading {
                values: Vec::new(alloc),
                later: Vec::new(alloc),
                left: Vec::new(alloc),
            },
        }
    }
}

/// Notes and lists without anything. The error is that memory was refused.
fn new_scratch<S: Primitives>(store: &S) -> Result<Box<Scratch<S::Word>>, NoMemory> {
    Ok(Box::new(store.alloc(), Scratch::new(store.alloc()))?)
}

/// Takes the notes and lists out of the store; new ones, where it keeps none. The error is that memory was refused
/// for these.
#[inline(always)]
pub(crate) fn take_scratch<S: Primitives>(store: &mut S) -> Result<Box<Scratch<S::Word>>, NoMemory>
    ensures present { S.present store.new ≡ S.present store.old }
    ensures names { S.names store.new ≡ S.names store.old }
    ensures marks { KeepsMarks (S.stands store.old) (S.stands store.new) }
{
    let mut scratch = None;
    store.swap_scratch(&mut scratch);
    match scratch {
        Some(scratch) => Ok(scratch),
        None => new_scratch(store),
    }
}

/// Gives the store these notes and lists to keep.
pub(crate) fn keep<S: Primitives>(store: &mut S, scratch: Box<Scratch<S::Word>>)
    ensures present { S.present store.new ≡ S.present store.old }
    ensures full { S.full store.old → S.full store.new }
    ensures names { S.names store.new ≡ S.names store.old }
    ensures marks { KeepsMarks (S.stands store.old) (S.stands store.new) }
{
    let mut scratch = Some(scratch);
    store.swap_scratch(&mut scratch);
}
