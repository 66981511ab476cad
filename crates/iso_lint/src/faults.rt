//! Syntax errors: the token at which one shows, and what could stand there.
ghost use Rattle.std.specs.Prelude.{◌≡◌, ◌<◌, ◌≤◌, ◌+◌, ℕ, length, map, take, option_map, IfOk, Some, None};
ghost use Rattle.std.specs.List.{slice_get};
ghost use Rattle.iso_lint.specs.Completions as completions;
ghost use Rattle.iso_lint.specs.Boundaries.{boundary_from};
ghost use Rattle.iso_lint.specs.Faults as spec;
ghost use Rattle.iso_lint.specs.FaultViews.{expected_of, fault_of};
ghost use Rattle.iso_lint.specs.Cuts.{part_with};
ghost use Rattle.iso_token.specs.Shows.{shown};

use crate::completions::{anonymous, begins_clause, closers_of, goes_on_with, mark};
use crate::cuts::Cut;
use iso_lint_core::settings::Settings;
use iso_token::Token;
use std::alloc::{AllocError, Global};

/// What some clause goes on with behind the tokens that begin it.
#[derive(Clone, Copy, Debug, PartialEq, Eq)]
pub struct Expected {
    /// A term.
    pub term: bool,
    /// An operator, or what ends the innermost part: a term can end there.
    pub ending: bool,
    /// A comma, before a term.
    pub comma: bool,
    /// A bar, before a term.
    pub bar: bool,
    /// The mark that ends the innermost part; none where that is the clause, and an end token ends it.
    pub closer: Option<&'static str>,
}

/// A syntax error.
#[derive(Clone, Copy, Debug)]
pub struct Fault<'t> {
    /// Where it shows.
    pub start: usize,
    /// The token there; none at the end of the clause.
    pub token: Option<Token<'t>>,
    /// Whether an end token ends the clause.
    pub ended: bool,
    /// What could stand there.
    pub expected: Expected,
}

/// How many of the tokens begin a clause, while those with the next one begin none, where `low` of them do and
/// `high` don't. The error is that memory was refused.
fn begin_boundary(
    alloc: Global,
    settings: &Settings,
    tokens: &[Token<'_>],
    low: usize,
    high: usize,
) -> Result<usize, AllocError>
    requires low { low ≤ length tokens.now }
    requires high { high ≤ length tokens.now + 1 }
    ensures within { IfOk result (λ k. k ≤ length tokens.now) }
    ensures boundary { IfOk result (λ k. (turns : ℕ) → high ≤ low + turns → k ≡ boundary_from turns (λ n. completions.begins_clause settings.now (take n (map shown tokens.now))) low high) }
{
    if high.saturating_sub(low) < 2 {
        return Ok(low);
    }
    let middle = low + (high - low) / 2;
    if begins_clause(alloc, settings, &tokens[..middle])? {
        begin_boundary(alloc, settings, tokens, middle, high)
    } else {
        begin_boundary(alloc, settings, tokens, low, middle)
    }
}

/// What some clause goes on with behind these tokens. The error is that memory was refused.
fn expected_behind<'t>(
    alloc: Global,
    settings: &Settings,
    tokens: &[Token<'t>],
) -> Result<Expected, AllocError>
    ensures { IfOk result (λ e. expected_of e ≡ spec.expected_behind settings.now (map shown tokens.now)) }
{
    let marks = closers_of(alloc, tokens)?;
    Ok(Expected {
        term: goes_on_with(alloc, settings, tokens, &[anonymous()])?,
        ending: goes_on_with(alloc, settings, tokens, &[])?,
        comma: goes_on_with(alloc, settings, tokens, &[mark(","), anonymous()])?,
        bar: goes_on_with(alloc, settings, tokens, &[mark("|"), anonymous()])?,
        closer: marks.last().copied(),
    })
}

/// The token of this number, if there is one.
pub fn token_at<'t>(tokens: &[Token<'t>], number: usize) -> Option<Token<'t>>
    ensures { option_map shown result ≡ slice_get (map shown tokens.now) number }
{
    tokens.get(number).copied()
}

/// Where the token begins; where there is none, this number.
pub fn start_or(token: Option<Token<'_>>, otherwise: usize) -> usize
    ensures { result ≡ spec.start_or (option_map shown token.entry) otherwise }
{
    match token {
        Some(found) => found.start,
        None => otherwise,
    }
}

/// The syntax error behind so many tokens of a part of a text of this length. The error is that memory was refused.
fn fault_behind<'t>(
    alloc: Global,
    settings: &Settings,
    part: &Cut<'t>,
    size: usize,
    count: usize,
) -> Result<Fault<'t>, AllocError>
    requires { count ≤ length part.now.tokens.items }
    ensures { IfOk result (λ f. fault_of f ≡ spec.fault_behind size (part_with part.now settings.now) count) }
{
    let tokens = part.tokens.as_slice();
    let token = token_at(tokens, count);
    Ok(Fault {
        start: start_or(token, part.ends.unwrap_or(size)),
        token,
        ended: part.ends.is_some(),
        expected: expected_behind(alloc, settings, &tokens[..count])?,
    })
}

/// The syntax error of a part of a text of this length, which is one. The error is that memory was refused.
pub fn fault_in<'t>(
    alloc: Global,
    settings: &Settings,
    part: &Cut<'t>,
    size: usize,
) -> Result<Fault<'t>, AllocError>
    ensures { IfOk result (λ f. fault_of f ≡ spec.fault_in size (part_with part.now settings.now)) }
{
    let tokens = part.tokens.as_slice();
    let boundary = begin_boundary(alloc, settings, tokens, 0, tokens.len() + 1)?;
    fault_behind(alloc, settings, part, size, boundary)
}
