//! Variables that occur once in a clause.
ghost use Rattle.std.specs.Prelude.{◌≡◌, ◌==◌, ◌&&◌, ◌++◌, ◌∷◌, not, List, [], map, slice_index, codes, IfOk, OnOk};
ghost use Rattle.std.specs.List.{filter};
ghost use Rattle.iso_model.specs.Syntax.Characters.{byte_of};
ghost use Rattle.iso_model.specs.Syntax.Token.{Shown};
ghost use Rattle.iso_lint.specs.Counts.{AreCounted};
ghost use Rattle.iso_lint.specs.Once as spec;
ghost use Rattle.iso_token.specs.Shows.{shown};

use iso_token::{Kind, Token};
use std::alloc::{AllocError, Global};
use std::collections::BTreeMap;

/// Of each variable's name whether the variable occurs again.
type Counts<'t> = BTreeMap<&'t str, bool>;

/// Whether the token is a variable.
fn is_variable(token: &Token<'_>) -> bool
    ensures { result ≡ spec.is_variable (shown token.now).kind }
{
    token.kind == Kind::Variable
}

/// Whether the token is a variable that doesn't begin with `_`.
fn is_told(token: &Token<'_>) -> bool
    ensures { result ≡ (spec.is_variable (shown token.now).kind && not (slice_index token.now.text.now 0 == byte_of (codes "_"))) }
{
    is_variable(token) && !token.text.starts_with("_")
}

/// Counts a token, if it is a variable. The error is that memory was refused.
fn count<'t>(counts: &mut Counts<'t>, token: &Token<'t>) -> Result<(), AllocError>
    ensures { OnOk result ((ts : List Shown) → AreCounted counts.old ts → AreCounted counts.new (ts ++ shown token.now ∷ [])) }
{
    if is_variable(token) {
        let again = counts.contains_key(token.text);
        counts.insert(token.text, again)?;
    }
    Ok(())
}

/// The variables of these tokens, and which of them occur again. The error is that memory was refused.
fn counted<'t>(alloc: Global, tokens: &[Token<'t>]) -> Result<Counts<'t>, AllocError>
    ensures { IfOk result (λ counts. AreCounted counts (map shown tokens.now)) }
{
    let mut counts = BTreeMap::new(alloc);
    for token in tokens {
        count(&mut counts, token)?;
    }
    Ok(counts)
}

/// Whether a token is a variable that occurs once among those that are counted, and doesn't begin with `_`.
fn is_once(counts: &Counts<'_>, token: &Token<'_>) -> bool
    ensures { (ts : List Shown) → AreCounted counts.now ts → result ≡ spec.occurs_once ts (shown token.now) }
{
    is_told(token) && counts.get(token.text).copied() == Some(false)
}

/// The variables that occur once among these tokens of a clause, and don't begin with `_`: a token of each, in
/// order. The error is that memory was refused.
pub fn variables_once<'t>(alloc: Global, tokens: &[Token<'t>]) -> Result<Vec<Token<'t>>, AllocError>
    ensures { IfOk result (λ found. map shown found.items ≡ spec.once (map shown tokens.now)) }
{
    let counts = counted(alloc, tokens)?;
    let mut found = Vec::new(alloc);
    for token in tokens {
        if is_once(&counts, token) {
            found.push(*token)?;
        }
    }
    Ok(found)
}
