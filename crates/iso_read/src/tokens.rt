//! Reading from tokens that were cut before.
ghost use Rattle.std.specs.Prelude.{map};
ghost use Rattle.iso_model.specs.Syntax.Reading.{clause_of};
ghost use Rattle.iso_read.specs.Answers.{IsWhole};
ghost use Rattle.iso_token.specs.Shows.{shown};

use crate::clause::{Read, ReadFault, whole};
use crate::language::Language;
use iso_ops::{Flags, OpTable};
use iso_token::Token;
use std::alloc::Global;

/// Reads the clause that all of these tokens are, without an end token (6.2): a term of priority 1200 at most, by
/// these operators and flags. Syntax where they are none, and NoMemory where memory was refused.
pub fn read_tokens(
    alloc: Global,
    clause: &[Token<'_>],
    ops: &OpTable,
    flags: &Flags,
) -> Result<Read, ReadFault>
    ensures { IsWhole (clause_of ops.now flags.now (map shown clause.now)) result }
{
    whole(Language { alloc, ops, flags }, clause)
}
