//! What is noted of places during a search.
ghost use Rattle.std.specs.Prelude.{◌≡◌, ◌≤◌, ◌<◌, ℕ, None, Some, OnOk, OnErr, IsSome, if◌then◌else◌, ◌==◌};
ghost use Rattle.std.specs.List.{All};

use iso_model::NoMemory;
use std::alloc::Global;

/// A value, and when it was noted.
#[derive(Clone, Copy)]
struct Note<V: Copy> {
    stamp: u64,
    value: V,
}

/// Values of some places. Those of one search are forgotten at once when the next one begins, in one step.
#[derive(Drop)]
pub(crate) struct Notes<V: Copy> {
    notes: Vec<Note<V>>,
    /// The stamp of this search.
    stamp: u64,
    ghost begun: { 0 < stamp },
    ghost stamped: { All (λ n. n.stamp ≤ stamp) notes.items },
}

impl<V: Copy> Notes<V> {
    ghost use Rattle.iso_store.specs.Notes.{noted};

    /// None.
    pub(crate) fn new(alloc: Global) -> Notes<V>
        ensures { (k : ℕ) → noted result k ≡ None }
    {
        Notes {
            notes: Vec::new(alloc),
            stamp: 1,
        }
    }

    /// Forgets all.
    pub(crate) fn begin(&mut self)
        ensures { (k : ℕ) → noted self.new k ≡ None }
    {
        if self.stamp == u64::MAX {
            self.notes.clear();
        } else {
            self.stamp += 1;
        }
    }

    /// What is noted of the place.
    pub(crate) fn at(&self, place: usize) -> Option<V>
        ensures { result ≡ noted self.now place }
    {
        let note = self.notes.get(place).copied()?;
        if note.stamp != self.stamp {
            return None;
        }
        Some(note.value)
    }

    /// Notes a value of a place that has one.
    pub(crate) fn change(&mut self, place: usize, value: V)
        requires { IsSome (noted self.old place) }
        ensures { (k : ℕ) → noted self.new k ≡ (if k == place then Some value else noted self.old k) }
    {
        self.notes[place] = Note {
            stamp: self.stamp,
            value,
        };
    }

    /// Notes a value of a place. The error is that memory was refused.
    pub(crate) fn note(&mut self, place: usize, value: V) -> Result<(), NoMemory>
        ensures { OnOk result ((k : ℕ) → noted self.new k ≡ (if k == place then Some value else noted self.old k)) }
    {
        if place >= self.notes.len() {
            self.notes
                .resize(place.saturating_add(1), Note { stamp: 0, value })?;
        }
        self.notes[place] = Note {
            stamp: self.stamp,
            value,
        };
        Ok(())
    }
}
