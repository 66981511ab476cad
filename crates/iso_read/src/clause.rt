//! A clause: the tokens before the next end token, and the term that they are (6.2).
ghost use Rattle.std.specs.Prelude.{◌≡◌, ◌≤◌, [], ◌∷◌, map, length, Some, None, IfOk, MatchOption};
ghost use Rattle.iso_model.specs.Syntax.Clauses.{split_clause};
ghost use Rattle.iso_model.specs.Syntax.Reading.{clause_of};
ghost use Rattle.iso_read.specs.Answers.{IsWhole, ReadsNext, GivesNext, StandsBehind, TakesSome, IsWellFormed};
ghost use Rattle.iso_token.specs.Shows.{shown};
ghost use Rattle.iso_read.specs.declared.clause.ReadFault.TheVariants.{NoMemory};

use crate::input::Input;
use crate::language::Language;
use crate::reader::read_term;
use iso_model::Term;
use iso_ops::{Flags, OpTable};
use iso_token::{Kind, Token, Tokens};
use std::alloc::{AllocError, AllocFailed, Global};

/// The greatest priority of a clause or query (6.2).
const CLAUSE_PRIORITY: u16 = 1200;

/// How deep a term may be nested; the term itself has depth 0 (own limit).
const MAX_DEPTH: usize = 4096;

/// A term that was read, with the names of its variables.
#[derive(Debug, Drop)]
pub struct Read {
    /// The term; its variables are numbered 0, 1, .. by first occurrence, each `_` its own.
    pub term: Term,
    /// Every named variable but `_`, in the order of first occurrence, with its number.
    pub names: Vec<(String, u64)>,
}

/// Why no term was read.
#[derive(Clone, Copy, Debug, PartialEq, Eq)]
pub enum ReadFault {
    /// The grammar has no term for the tokens before the next end token, or there is no end token.
    Syntax,
    /// Memory was refused; the tokens are not to be used any more.
    NoMemory,
}

impl From<AllocError> for ReadFault {
    ghost from_gives = { λ _ fault. fault ≡ NoMemory };

    fn from(_fault: AllocError) -> ReadFault {
        ReadFault::NoMemory
    }
}

impl<T: Drop> From<AllocFailed<T>> for ReadFault {
    ghost from_gives = { λ _ fault. fault ≡ NoMemory };

    fn from(_fault: AllocFailed<T>) -> ReadFault {
        ReadFault::NoMemory
    }
}

/// The tokens from this one to the next end token, which is taken too. None where there is none.
fn clause_from<'t>(
    alloc: Global,
    first: Token<'t>,
    tokens: &mut Tokens<'t>,
) -> Result<Option<Vec<Token<'t>>>, AllocError>
    ensures split { IfOk result (λ found. MatchOption found ((split_clause (shown first.entry ∷ tokens.old) ≡ None) × (tokens.new ≡ [])) (λ clause. split_clause (shown first.entry ∷ tokens.old) ≡ Some (map shown clause.items, tokens.new))) }
    ensures shorter { length tokens.new ≤ length tokens.old }
{
    let mut clause = Vec::new(alloc);
    let mut token = first;
    while token.kind != Kind::End {
        clause.push(token)?;
        let Some(next) = tokens.next() else {
            return Ok(None);
        };
        token = next;
    }
    Ok(Some(clause))
}

/// The term that all of these tokens are. Syntax where the grammar has none.
#[tactic(auto, unfolding(iso_model::specs::Syntax::Reading::clause_of))]
pub fn whole(language: Language<'_>, clause: &[Token<'_>]) -> Result<Read, ReadFault>
    ensures { IsWhole (clause_of language.entry.ops.now language.entry.flags.now (map shown clause.now)) result }
{
    let mut input = Input::new(language.alloc, clause);
    let node = read_term(language, MAX_DEPTH + 1, CLAUSE_PRIORITY, &mut input)?;
    if !input.is_empty() {
        return Err(ReadFault::Syntax);
    }
    let names = input.into_names(language.alloc)?;
    Ok(Read {
        term: node.term,
        names,
    })
}

/// Reads the next clause (6.2): the term that the tokens before the next end token are, at priority 1200, by these
/// operators and flags. `None` where no token is left. After `Syntax` the tokens stand behind the next end token or at
/// the end.
pub fn read_clause(
    alloc: Global,
    tokens: &mut Tokens<'_>,
    ops: &OpTable,
    flags: &Flags,
) -> Result<Option<Read>, ReadFault>
    ensures reads { ReadsNext ops.now flags.now result tokens.old }
    ensures gives { GivesNext ops.now flags.now result tokens.old }
    ensures behind { StandsBehind result tokens.old tokens.new }
    ensures takes { TakesSome result tokens.old tokens.new }
    ensures well_formed { IfOk result IsWellFormed }
{
    // What holds of every table: by it the grammar has one reading.
    ops.is_table();
    let language = Language { alloc, ops, flags };
    let Some(first) = tokens.next() else {
        return Ok(None);
    };
    let Some(clause) = clause_from(alloc, first, tokens)? else {
        return Err(ReadFault::Syntax);
    };
    Ok(Some(whole(language, &clause)?))
}
