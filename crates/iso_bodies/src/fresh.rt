//! The variables of a clause that its head doesn't meet.
ghost use Rattle.std.specs.Prelude.{◌≡◌, [], ◌∷◌, length, map, IfOk};
ghost use Rattle.iso_code.specs.Loaded.{all_operands, operand_got, met_behind};
ghost use Rattle.iso_bodies.specs.Notes.{Notes, Says};
ghost use Rattle.iso_bodies.specs.Clauses.{IsFresh, head_operands, none_met};

use iso_code::{Block, Get, Head, Operand};
use std::alloc::{AllocError, Global};

/// Notes the variable of an operand, where it is new.
fn note(met: &mut Vec<bool>, operand: &Operand)
    ensures { Notes (operand.now ∷ []) met.old.items met.new.items }
{
    if let Operand::New(variable) = operand {
        if *variable < met.len() {
            met[*variable] = true;
        }
    }
}

/// Notes the new variables of operands.
fn note_all(met: &mut Vec<bool>, operands: &[Operand])
    ensures { Notes operands.now met.old.items met.new.items }
{
    for operand in operands {
        note(met, operand);
    }
}

/// Notes the new variables of gets.
fn note_gets(met: &mut Vec<bool>, gets: &[Get])
    ensures { Notes (map operand_got gets.now) met.old.items met.new.items }
{
    for get in gets {
        note(met, &get.operand);
    }
}

/// Notes the new variables of blocks.
fn note_blocks(met: &mut Vec<bool>, blocks: &[Block])
    ensures { Notes (all_operands blocks.now) met.old.items met.new.items }
{
    for block in blocks {
        note_all(met, block.operands.as_slice());
    }
}

/// Which of so many variables the head meets. The error is that memory was refused.
fn met_by(alloc: Global, head: &Head, count: usize) -> Result<Vec<bool>, AllocError>
    ensures met { IfOk result (λ met. Says (met_behind none_met (head_operands head.now)) met.items) }
    ensures many { IfOk result (λ met. length met.items ≡ count) }
{
    let mut met = vec![in alloc; false; count]?;
    note_gets(&mut met, head.gets.as_slice());
    note_blocks(&mut met, head.blocks.as_slice());
    Ok(met)
}

/// The variables, of so many, that the head doesn't meet, each new. The error is that memory was refused.
pub(crate) fn fresh_behind(
    alloc: Global,
    head: &Head,
    count: usize,
) -> Result<Vec<Operand>, AllocError>
    ensures { IfOk result (λ fresh. IsFresh head.now count fresh.items) }
{
    let met = met_by(alloc, head, count)?;
    let mut fresh = Vec::new(alloc);
    for (variable, is_met) in met.iter().enumerate() {
        if !*is_met {
            fresh.push(Operand::New(variable))?;
        }
    }
    Ok(fresh)
}
