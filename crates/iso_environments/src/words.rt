//! A stack of words. Its memory grows and is never cut down: what was given up is written over later.
ghost use Rattle.std.specs.Prelude.{◌≡◌, ◌≤◌, ◌+◌, ◌++◌, ℕ, List, [], OnOk, OnErr, length, take};
ghost use Rattle.iso_environments.specs.Stacked.{Stacked};

use std::alloc::{AllocError, Global};
use std::marker::Model;

/// Words, one above the other.
#[derive(Drop)]
pub struct Words<W: Copy> {
    /// The words that stand, and above them what was given up.
    pub(crate) file: Vec<W>,
    /// How many words stand.
    pub(crate) count: usize,
}

impl<W: Copy> Model for Words<W> {
    ghost Value = { Stacked W };

    ghost view = { λ w. record { items = take w.count w.file.items } };

    ghost invariant = { λ w. w.count ≤ length w.file.items };
}

impl<W: Copy> Words<W> {
    /// No words.
    pub fn new(alloc: Global) -> Words<W>
        ensures { result.items ≡ [] }
    {
        Words {
            file: Vec::new(alloc),
            count: 0,
        }
    }

    /// How many words stand.
    pub fn len(&self) -> usize
        ensures { result ≡ length self.now.items }
    {
        self.count
    }

    /// The words that stand.
    pub fn as_slice(&self) -> &[W]
        ensures { result.now ≡ self.now.items }
    {
        &self.file.as_slice()[..self.count]
    }

    /// Gives up all words but the lowest, so many.
    pub fn truncate(&mut self, count: usize)
        ensures { self.new.items ≡ take count self.old.items }
    {
        if count < self.count {
            self.count = count;
        }
    }

    /// Gives up all words.
    pub fn clear(&mut self)
        ensures { self.new.items ≡ [] }
    {
        self.count = 0;
    }

    /// Puts words on top until so many stand, more than there is memory for; it is open what they are. The error is that
    /// memory was refused; no word came then.
    #[inline(never)]
    fn widen(&mut self, count: usize, filler: W) -> Result<(), AllocError>
        requires more { length self.old.items ≤ count }
        ensures adds { (words : List W) × (self.new.items ≡ self.old.items ++ words) }
        ensures many { OnOk result (length self.new.items ≡ count) }
        ensures none { OnErr result (self.new.items ≡ self.old.items) }
    {
        self.file.resize(count, filler)?;
        self.count = count;
        Ok(())
    }

    /// Puts so many words on top; it is open what they are. The error is that memory was refused; no word came then.
    #[inline(always)]
    pub fn grow(&mut self, more: usize, filler: W) -> Result<(), AllocError>
        ensures adds { (words : List W) × (self.new.items ≡ self.old.items ++ words) }
        ensures many { OnOk result (length self.new.items ≡ length self.old.items + more) }
        ensures none { OnErr result (self.new.items ≡ self.old.items) }
    {
        let Some(count) = self.count.checked_add(more) else {
            return Err(AllocError);
        };
        if count > self.file.len() {
            return self.widen(count, filler);
        }
        self.count = count;
        Ok(())
    }

    /// Puts these words on top, in new memory. The error is that memory was refused; no word came then.
    #[inline(never)]
    fn extend(&mut self, words: &[W]) -> Result<(), AllocError>
        ensures words { OnOk result (self.new.items ≡ self.old.items ++ words.now) }
        ensures none { OnErr result (self.new.items ≡ self.old.items) }
    {
        self.file.truncate(self.count);
        self.file.extend_from_slice(words)?;
        self.count = self.file.len();
        Ok(())
    }

    /// Puts these words on top. The error is that memory was refused; no word came then.
    #[inline(always)]
    pub fn push_all(&mut self, words: &[W]) -> Result<(), AllocError>
        ensures words { OnOk result (self.new.items ≡ self.old.items ++ words.now) }
        ensures none { OnErr result (self.new.items ≡ self.old.items) }
    {
        let Some(count) = self.count.checked_add(words.len()) else {
            return Err(AllocError);
        };
        if count > self.file.len() {
            return self.extend(words);
        }
        write_over(self.file.as_mut_slice(), self.count, words);
        self.count = count;
        Ok(())
    }
}

/// Writes the words over those from this place on.
#[inline(always)]
fn write_over<W: Copy>(file: &mut [W], place: usize, words: &[W])
    requires { place + length words.now ≤ length file.old }
    ensures written { take (place + length words.now) file.new ≡ take place file.old ++ words.now }
    ensures length { length file.new ≡ length file.old }
{
    let mut index = 0;
    while index < words.len() {
        file[place + index] = words[index];
        index += 1;
    }
}
