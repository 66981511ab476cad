//! Two stacks in one block of memory: `Area`. The low stack grows from the block's beginning up, the high one from
//! its end down, and together they hold as many values as the block has places.
#![tactic(auto)]

ghost use Rattle.std.specs.Prelude.{◌≡◌, ◌+◌, ◌^◌, ◌<◌, ◌≤◌, Some, [], ◌∷◌, ◌++◌, length, take, slice_get, slice_set, IfOk, OnOk, OnErr};
ghost use Rattle.iso_area.specs.Stacks.{stacks};

mod cells;

use cells::{allocate, deallocate};
// A crate can name an area in a contract only if the types of its fields are exported.
#[doc(hidden)]
pub use cells::{Base, Cells, Deed};
pub use std::alloc::AllocError as NoMemory;
use std::alloc::Global;
use std::marker::Model;
use std_alloc::room::may_hold;

/// There is no room: the two stacks hold as many values as the area has places.
#[derive(Clone, Copy, Debug, PartialEq, Eq)]
pub struct Full;

/// Two stacks of values in one block, whose size is chosen when it is made. A clause sees the two lists, each from
/// the bottom of its stack to the top, and the capacity. Only `new` takes memory, and dropping the area gives the
/// block back.
pub struct Area<T: Copy> {
    base: Base<T>,
    capacity: usize,
    low: usize,
    high: usize,
    cells: Cells<T>,
    deed: Deed<T, Global>,
    alloc: Global,
}

impl<T: Copy> Model for Area<T> {
    ghost use Rattle.iso_area.specs.Stacks.{Stacks, stacks_code};

    ghost Value = { Stacks T };

    ghost coded = { stacks_code T.code };

    ghost use Rattle.iso_area.specs.Area.{IsArea, area_stacks};

    ghost view = { area_stacks };

    ghost invariant = { IsArea };
}

impl<T: Copy> Area<T> {
    /// An area with room for `capacity` values, which may be 0. The error is that memory was refused, or that so many
    /// values would take 2^63 bytes or more, which no block has. Values of a type of no bytes are counted like any
    /// others, below 2^63.
    pub fn new(alloc: Global, capacity: usize) -> Result<Self, NoMemory>
        ensures { IfOk result (λ area. area ≡ stacks [] [] capacity) }
    {
        if !may_hold::<T>(capacity) {
            return Err(NoMemory);
        }
        let (base, cells, deed) = allocate(&alloc, capacity)?;
        Ok(Area {
            base,
            capacity,
            low: 0,
            high: 0,
            cells,
            deed,
            alloc,
        })
    }

    /// Pushes on the low stack. The error is that there is no room; then nothing changed.
    pub fn push_low(&mut self, item: T) -> Result<(), Full>
        ensures pushed { OnOk result (self.new ≡ stacks (self.old.low ++ item ∷ []) self.old.high self.old.capacity) }
        ensures had_room { OnOk result (length self.old.low + length self.old.high < self.old.capacity) }
        ensures full { OnErr result (length self.old.low + length self.old.high ≡ self.old.capacity) }
        ensures unchanged { OnErr result (self.new ≡ self.old) }
    {
        if self.low + self.high == self.capacity {
            return Err(Full);
        }
        self.cells.write(self.base, self.low, item);
        self.low += 1;
        Ok(())
    }

    /// Pushes on the high stack. The error is that there is no room; then nothing changed.
    pub fn push_high(&mut self, item: T) -> Result<(), Full>
        ensures pushed { OnOk result (self.new ≡ stacks self.old.low (self.old.high ++ item ∷ []) self.old.capacity) }
        ensures had_room { OnOk result (length self.old.low + length self.old.high < self.old.capacity) }
        ensures full { OnErr result (length self.old.low + length self.old.high ≡ self.old.capacity) }
        ensures unchanged { OnErr result (self.new ≡ self.old) }
    {
        if self.low + self.high == self.capacity {
            return Err(Full);
        }
        let place = self.capacity - 1 - self.high;
        self.cells.write(self.base, place, item);
        self.high += 1;
        Ok(())
    }

    /// The value at `index` of the low stack, counted from its bottom.
    pub fn low(&self, index: usize) -> T
        requires { index < length self.now.low }
        ensures { slice_get self.now.low index ≡ Some result }
    {
        *self.cells.get(self.base, index)
    }

    /// The value at `index` of the high stack, counted from its bottom.
    pub fn high(&self, index: usize) -> T
        requires { index < length self.now.high }
        ensures { slice_get self.now.high index ≡ Some result }
    {
        *self.cells.get(self.base, self.capacity - 1 - index)
    }

    /// Writes over the value at `index` of the low stack, counted from its bottom.
    pub fn set_low(&mut self, index: usize, item: T)
        requires { index < length self.old.low }
        ensures { self.new ≡ stacks (slice_set self.old.low index item) self.old.high self.old.capacity }
    {
        self.cells.write(self.base, index, item);
    }

    /// Takes values off the low stack until `len` are left, in one step.
    pub fn cut_low(&mut self, len: usize)
        requires { len ≤ length self.old.low }
        ensures { self.new ≡ stacks (take len self.old.low) self.old.high self.old.capacity }
    {
        self.low = len;
    }

    /// Takes values off the high stack until `len` are left, in one step.
    pub fn cut_high(&mut self, len: usize)
        requires { len ≤ length self.old.high }
        ensures { self.new ≡ stacks self.old.low (take len self.old.high) self.old.capacity }
    {
        self.high = len;
    }

    /// How many values the low stack holds.
    pub fn low_len(&self) -> usize
        ensures { result ≡ length self.now.low }
    {
        self.low
    }

    /// How many values the high stack holds.
    pub fn high_len(&self) -> usize
        ensures { result ≡ length self.now.high }
    {
        self.high
    }

    /// How many values the two stacks may hold together.
    pub fn capacity(&self) -> usize
        ensures capacity { result ≡ self.now.capacity }
        ensures within { length self.now.low + length self.now.high ≤ result }
        ensures bounded { result < 2 ^ 63 }
    {
        self.capacity
    }
}

impl<T: Copy> Drop for Area<T> {
    fn drop(self) {
        let Area {
            base,
            capacity,
            low: _,
            high: _,
            cells,
            deed,
            alloc,
        } = self;
        deallocate(&alloc, base, capacity, cells, deed);
    }
}
