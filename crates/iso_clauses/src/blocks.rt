//! What is kept of a procedure, or of a part of one: blocks of the numbers of its clauses. A block only grows, so that a
//! view knows the clauses of its making by how long the block was.
ghost use Rattle.std.specs.Prelude.{◌≡◌, ◌++◌, ◌∷◌, [], length, IfSome, OnOk, OnErr};
ghost use Rattle.iso_clauses.specs.Blocks.{Kept, block_of, nothing_kept, passed, pushed, forgotten};

use super::ids::ClauseId;
use super::numbers::Block;
use std::alloc::{AllocError, Global};
use std::marker::Model;
use std::mem;

/// The blocks that only views made before need.
#[derive(Drop)]
enum Older {
    None(Global),
    Some(Box<Vec<Block>>),
}

/// What is kept of a procedure, or of a part of one.
#[derive(Drop)]
pub struct Entry {
    /// How many of the block's first numbers are those of clauses that were removed. What a look for a clause reads
    /// begins here, and lies close together.
    first: usize,
    /// Blocks that only views made before need.
    older: Older,
    /// The block of the clauses as they are now.
    current: Block,
    /// How many removals were counted since the block was made.
    removed: usize,
}

impl Model for Entry {
    ghost use Rattle.iso_clauses.specs.Blocks.{Kept};

    ghost Value = { Kept };

    ghost use Rattle.iso_clauses.specs.Older.{older_in};

    ghost view = { λ e. record { older = older_in e.older; current = e.current; first = e.first } };
}

/// Where a clause is added.
#[derive(Clone, Copy)]
pub enum Side {
    /// Before the others.
    First,
    /// Behind the others.
    Last,
}

impl Entry {
    /// So few removals do not make a block anew.
    const FEW: usize = 8;

    /// Of so many clauses a call passes over those that it can't use.
    const SHORT: usize = 12;

    /// No clauses. Takes no memory.
    pub fn new(alloc: Global) -> Entry
        ensures { result ≡ nothing_kept }
    {
        Entry {
            first: 0,
            older: Older::None(alloc),
            current: Block::new(alloc),
            removed: 0,
        }
    }

    /// The number of the list's own block.
    #[inline(always)]
    pub(crate) fn latest(&self) -> usize
        ensures { result ≡ length self.now.older }
    {
        match &self.older {
            Older::None(_) => 0,
            Older::Some(blocks) => blocks.len(),
        }
    }

    /// The block of this number.
    #[inline(always)]
    pub(crate) fn block(&self, block: usize) -> &Block
        ensures { result.now ≡ block_of self.now block }
    {
        if let Older::Some(blocks) = &self.older {
            if block < blocks.len() {
                return &blocks[block];
            }
        }
        &self.current
    }

    /// How many of the block's first numbers new views pass over.
    #[inline(always)]
    pub fn first(&self) -> usize
        ensures { result ≡ self.now.first }
    {
        self.first
    }

    /// Lets new views pass over so many of the block's first numbers.
    pub(crate) fn set_first(&mut self, first: usize)
        ensures { self.new ≡ record self.old { first = first } }
    {
        self.first = first;
    }

    /// The block of the clauses as they are now.
    #[inline(always)]
    pub fn current(&self) -> &Block
        ensures { result.now ≡ self.now.current }
    {
        &self.current
    }

    /// Notes that a number was added at this side.
    fn note_added(&mut self, side: Side)
        ensures { self.new ≡ record self.old { first = passed side self.old.first } }
    {
        if let Side::First = side {
            self.first = 0;
        }
    }

    /// Whether there are so few numbers that going through them is quicker than the index.
    #[inline(always)]
    pub fn is_short(&self) -> bool {
        self.current.len() <= Entry::SHORT
    }

    /// The numbers of a procedure, where there are so few and all were added at the end.
    #[inline(always)]
    pub fn few_at_end(&self) -> Option<&[ClauseId]>
        ensures { IfSome result (λ ns. (ns.now ≡ self.now.current.back) × (self.now.current.front ≡ [])) }
    {
        self.current.few_at_end(Entry::SHORT)
    }

    /// Counts a removal, and tells whether so many of the block's clauses were removed that it is to be made anew.
    pub(crate) fn count_removal(&mut self) -> bool
        ensures { self.new ≡ self.old }
    {
        self.removed = self.removed.saturating_add(1);
        self.removed > Entry::FEW && self.removed > self.current.len() / 2
    }

    /// Puts another block in the place of the list's own, which becomes one of the older. The error is that
    /// memory was refused; nothing changed then.
    pub(crate) fn renew(&mut self, block: Block) -> Result<(), AllocError>
        ensures renewed { OnOk result (self.new ≡ record self.old { older = self.old.older ++ self.old.current ∷ []; current = block; first = 0 }) }
        ensures unchanged { OnErr result (self.new ≡ self.old) }
    {
        if let Older::None(alloc) = &self.older {
            let alloc = *alloc;
            self.older = Older::Some(Box::new(alloc, Vec::new(alloc))?);
        }
        let Older::Some(blocks) = &mut self.older else {
            return Err(AllocError);
        };
        let current = mem::replace(&mut self.current, block);
        if let Err(refused) = blocks.push(current) {
            self.current = refused.value;
            return Err(AllocError);
        }
        self.first = 0;
        self.removed = 0;
        Ok(())
    }

    /// Gives the older blocks back.
    pub(crate) fn forget_older(&mut self)
        ensures { self.new ≡ forgotten self.old }
    {
        if let Older::Some(blocks) = &mut self.older {
            blocks.clear();
        }
    }
}

/// Adds the number of a clause to its procedure and to its part. The error is that memory was refused; nothing changed
/// then.
pub(crate) fn push_both(
    whole: &mut Entry,
    part: &mut Entry,
    id: ClauseId,
    side: Side,
) -> Result<(), AllocError>
    ensures whole { OnOk result (whole.new ≡ pushed side id whole.old) }
    ensures part { OnOk result (part.new ≡ pushed side id part.old) }
    ensures whole_stays { OnErr result (whole.new ≡ whole.old) }
    ensures part_stays { OnErr result (part.new ≡ part.old) }
{
    whole.current.push(id, side)?;
    if part.current.push_in_place(id, side).is_err() {
        whole.current.pop(side);
        return Err(AllocError);
    }
    whole.note_added(side);
    part.note_added(side);
    Ok(())
}
