//! The tokens of a text, cut at its end tokens.
ghost use Rattle.std.specs.Prelude.{◌≡◌, ◌<◌, ◌≤◌, ◌∷◌, [], length, map, IfOk, MatchOption};
ghost use Rattle.iso_lint.specs.Cuts.{IsCut};
ghost use Rattle.iso_lint.specs.Parts.{cut};
ghost use Rattle.iso_token.specs.Shows.{shown};

use iso_token::{Kind, Token, Tokens};
use std::alloc::{AllocError, Global};

/// The tokens up to an end token.
#[derive(Debug, Drop)]
pub struct Cut<'t> {
    /// Those before it; all that were left, where there is none.
    pub tokens: Vec<Token<'t>>,
    /// Where the end token begins.
    pub ends: Option<usize>,
}

/// The tokens from this one to the next end token, which is taken too. The error is that memory was refused.
fn cut_from<'t>(
    alloc: Global,
    first: Token<'t>,
    tokens: &mut Tokens<'t>,
) -> Result<Cut<'t>, AllocError>
    ensures cut { IfOk result (λ c. IsCut c (shown first.entry ∷ tokens.old) tokens.new) }
    ensures shorter { length tokens.new ≤ length tokens.old }
{
    let mut before = Vec::new(alloc);
    let mut token = first;
    while token.kind != Kind::End {
        before.push(token)?;
        let Some(next) = tokens.next() else {
            return Ok(Cut {
                tokens: before,
                ends: None,
            });
        };
        token = next;
    }
    Ok(Cut {
        tokens: before,
        ends: Some(token.start),
    })
}

/// The tokens up to the next end token, which is taken too; none where no token is left. The error is that memory
/// was refused.
pub fn next_cut<'t>(alloc: Global, tokens: &mut Tokens<'t>) -> Result<Option<Cut<'t>>, AllocError>
    ensures cut { IfOk result (λ found. MatchOption found (tokens.old ≡ []) (λ c. IsCut c tokens.old tokens.new)) }
    ensures shorter { IfOk result (λ found. MatchOption found (tokens.old ≡ []) (λ _. length tokens.new < length tokens.old)) }
{
    match tokens.next() {
        None => Ok(None),
        Some(first) => {
            let cut = cut_from(alloc, first, tokens)?;
            Ok(Some(cut))
        }
    }
}
