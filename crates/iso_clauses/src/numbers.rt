//! Blocks: numbers of clauses, in two parts that are pushed onto.
ghost use Rattle.std.specs.Prelude.{◌≡◌, ◌≤◌, ◌<◌, ◌+◌, ℕ, [], length, get_or, IfSome, IfOk, OnOk, OnErr};
ghost use Rattle.iso_clauses.specs.Blocks.{Ids, ids_from, no_ids, grown};

use super::blocks::Side;
use super::ids::ClauseId;
use std::alloc::{AllocError, Global};
use std::marker::Model;
use std::mem;
use std::slice::from_ref;

/// Numbers that were added at both sides.
#[derive(Drop)]
struct Sides {
    /// Those that were added at the front, the outermost last.
    front: Vec<ClauseId>,
    /// Those that were added at the end.
    back: Vec<ClauseId>,
}

/// How numbers are stored. What most lists have takes no memory beside the list.
#[derive(Drop)]
enum Numbers {
    /// One that was added at the end.
    One(ClauseId, Global),
    /// Those that were added at the end.
    End(Vec<ClauseId>),
    /// Those that were added at the front, and those at the end.
    Both(Box<Sides>),
}

/// Numbers of clauses, in two parts that are pushed onto.
#[derive(Drop)]
pub struct Block {
    numbers: Numbers,
}

impl Model for Block {
    ghost use Rattle.iso_clauses.specs.Blocks.{Ids};
    ghost use Rattle.iso_clauses.specs.Numbers.{ids_in};

    ghost Value = { Ids };

    ghost view = { λ b. ids_in b.numbers };
}

impl Block {
    ghost use Rattle.iso_clauses.specs.declared.blocks.Side.TheVariants.{First, Last};

    /// No clauses. Takes no memory.
    pub(crate) fn new(alloc: Global) -> Block
        ensures { result ≡ no_ids }
    {
        Block {
            numbers: Numbers::End(Vec::new(alloc)),
        }
    }

    /// The number at this position, where `outer` numbers of the front are counted.
    #[inline(always)]
    pub(crate) fn at(&self, outer: usize, position: usize) -> ClauseId
        requires outer { outer ≤ length self.now.front }
        requires position { position < outer + length self.now.back }
        ensures { result ≡ get_or (ids_from self.now outer) position result }
    {
        match &self.numbers {
            Numbers::One(id, _) => *id,
            Numbers::End(back) => back[position],
            Numbers::Both(sides) => {
                if position < outer {
                    sides.front[outer - 1 - position]
                } else {
                    sides.back[position - outer]
                }
            }
        }
    }

    /// How many numbers the front has.
    #[inline(always)]
    pub(crate) fn outer(&self) -> usize
        ensures { result ≡ length self.now.front }
    {
        match &self.numbers {
            Numbers::One(_, _) | Numbers::End(_) => 0,
            Numbers::Both(sides) => sides.front.len(),
        }
    }

    /// How many numbers there are.
    #[inline(always)]
    pub(crate) fn len(&self) -> usize
        ensures { result ≡ length self.now.front + length self.now.back }
    {
        match &self.numbers {
            Numbers::One(_, _) => 1,
            Numbers::End(back) => back.len(),
            Numbers::Both(sides) => sides.front.len() + sides.back.len(),
        }
    }

    /// A block of these numbers. The error is that memory was refused.
    pub(crate) fn of(front: Vec<ClauseId>, back: Vec<ClauseId>) -> Result<Block, AllocError>
        ensures { IfOk result (λ b. b ≡ record { front = front.items; back = back.items }) }
    {
        if front.is_empty() {
            return Ok(Block {
                numbers: Numbers::End(back),
            });
        }
        let alloc = *front.allocator();
        let sides = Box::new(alloc, Sides { front, back })?;
        Ok(Block {
            numbers: Numbers::Both(sides),
        })
    }

    /// The numbers that were added at the front, the outermost last.
    pub(crate) fn front(&self) -> &[ClauseId]
        ensures { result.now ≡ self.now.front }
    {
        match &self.numbers {
            Numbers::One(_, _) | Numbers::End(_) => &[],
            Numbers::Both(sides) => sides.front.as_slice(),
        }
    }

    /// The numbers that were added at the end.
    #[inline(always)]
    pub fn back(&self) -> &[ClauseId]
        ensures { result.now ≡ self.now.back }
    {
        match &self.numbers {
            Numbers::One(id, _) => from_ref(id),
            Numbers::End(back) => back.as_slice(),
            Numbers::Both(sides) => sides.back.as_slice(),
        }
    }

    /// The numbers, where there are at most so many, all were added at the end, and none lies in the block itself.
    #[inline(always)]
    pub(crate) fn few_at_end(&self, most: usize) -> Option<&[ClauseId]>
        ensures { IfSome result (λ ns. (ns.now ≡ self.now.back) × (self.now.front ≡ [])) }
    {
        match &self.numbers {
            Numbers::End(back) => {
                if back.len() > most {
                    return None;
                }
                Some(back.as_slice())
            }
            _ => None,
        }
    }

    /// Adds a number at the front. The error is that memory was refused; nothing changed then.
    fn push_front(&mut self, id: ClauseId) -> Result<(), AllocError>
        ensures pushed { OnOk result (self.new ≡ grown First id self.old) }
        ensures unchanged { OnErr result (self.new ≡ self.old) }
    {
        let alloc = match &mut self.numbers {
            Numbers::One(_, alloc) => *alloc,
            Numbers::End(back) => *back.allocator(),
            Numbers::Both(sides) => {
                sides.front.push(id)?;
                return Ok(());
            }
        };
        let mut front = Vec::new(alloc);
        front.push(id)?;
        let mut sides = Box::new(
            alloc,
            Sides {
                front,
                back: Vec::new(alloc),
            },
        )?;
        match &mut self.numbers {
            Numbers::One(first, _) => sides.back.push(*first)?,
            Numbers::End(back) => mem::swap(back, &mut sides.back),
            Numbers::Both(_) => {}
        }
        self.numbers = Numbers::Both(sides);
        Ok(())
    }

    /// Adds a number at the end. The error is that memory was refused; nothing changed then.
    fn push_back(&mut self, id: ClauseId) -> Result<(), AllocError>
        ensures pushed { OnOk result (self.new ≡ grown Last id self.old) }
        ensures unchanged { OnErr result (self.new ≡ self.old) }
    {
        let numbers = match &mut self.numbers {
            Numbers::One(first, alloc) => {
                let mut back = Vec::new(*alloc);
                back.push(*first)?;
                back.push(id)?;
                Numbers::End(back)
            }
            Numbers::End(back) => {
                back.push(id)?;
                return Ok(());
            }
            Numbers::Both(sides) => {
                sides.back.push(id)?;
                return Ok(());
            }
        };
        self.numbers = numbers;
        Ok(())
    }

    /// Adds a number at this side. The error is that memory was refused; nothing changed then.
    pub(crate) fn push(&mut self, id: ClauseId, side: Side) -> Result<(), AllocError>
        ensures pushed { OnOk result (self.new ≡ grown side id self.old) }
        ensures unchanged { OnErr result (self.new ≡ self.old) }
    {
        match side {
            Side::First => self.push_front(id),
            Side::Last => self.push_back(id),
        }
    }

    /// Adds a number at this side, without memory where it is the first one and comes at the end. The error is that
    /// memory was refused; nothing changed then.
    pub(crate) fn push_in_place(&mut self, id: ClauseId, side: Side) -> Result<(), AllocError>
        ensures pushed { OnOk result (self.new ≡ grown side id self.old) }
        ensures unchanged { OnErr result (self.new ≡ self.old) }
    {
        if let (Numbers::End(back), Side::Last) = (&self.numbers, side) {
            if back.is_empty() {
                let alloc = *back.allocator();
                self.numbers = Numbers::One(id, alloc);
                return Ok(());
            }
        }
        self.push(id, side)
    }

    /// Takes the number away that was added last, at this side.
    pub(crate) fn pop(&mut self, side: Side)
        ensures { (id : ℕ) (b : Ids) → self.old ≡ grown side id b → self.new ≡ b }
    {
        match &mut self.numbers {
            Numbers::One(_, alloc) => {
                let alloc = *alloc;
                self.numbers = Numbers::End(Vec::new(alloc));
            }
            Numbers::End(back) => {
                let _ = back.pop();
            }
            Numbers::Both(sides) => {
                let _ = match side {
                    Side::First => sides.front.pop(),
                    Side::Last => sides.back.pop(),
                };
            }
        }
    }
}
