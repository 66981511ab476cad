//! What is found in a text.
ghost use Rattle.std.specs.Prelude.{◌≡◌, ◌++◌, map, option_map, IfOk, OnOk};
ghost use Rattle.iso_model.specs.Terms.TermOf.{term_of};
ghost use Rattle.iso_lint.specs.Cuts.{part_with};
ghost use Rattle.iso_lint.specs.FindingViews.{finding_of, procedure_of};
ghost use Rattle.iso_lint_core.specs.KeyViews.{key_view};
ghost use Rattle.iso_lint.specs.Once.{once};
ghost use Rattle.iso_lint.specs.Findings as spec;
ghost use Rattle.iso_lint.specs.Parts as parts;
ghost use Rattle.iso_token.specs.Shows.{shown};

use crate::cuts::Cut;
use crate::faults::{Fault, fault_in};
use crate::once::variables_once;
use iso_lint_core::keys::Key;
use iso_lint_core::settings::Settings;
use iso_model::Term;
use iso_token::Token;
use std::alloc::{AllocError, Global};

/// A procedure that a finding names (7.1.6.6).
#[derive(Debug, Drop)]
pub struct Procedure {
    /// Its name.
    pub name: String,
    /// How many arguments it has.
    pub arity: usize,
}

/// What is found at a token.
#[derive(Debug, Drop)]
pub enum What<'t> {
    /// A syntax error.
    Broken(Fault<'t>),
    /// The variable of this name occurs once in its clause.
    Once(&'t str),
    /// A clause of this procedure, of which another begins at this number of the text, with clauses of other
    /// procedures between.
    Apart(Procedure, usize),
    /// This procedure is called and not defined.
    Unknown(Procedure),
}

/// What is found, and where the token begins to which it belongs.
#[derive(Debug, Drop)]
pub struct Finding<'t> {
    /// The number of that token's first byte in the text; the text's length where the text ends there.
    pub start: usize,
    pub what: What<'t>,
}

/// The procedure that the key names. The error is that memory was refused.
pub fn named_procedure(alloc: Global, key: Key<'_>) -> Result<Procedure, AllocError>
    ensures { IfOk result (λ p. procedure_of p ≡ key_view key.entry) }
{
    Ok(Procedure {
        name: String::from_str(alloc, key.name)?,
        arity: key.arity,
    })
}

/// The variables that occur once among these tokens. The error is that memory was refused.
fn found_once<'t>(alloc: Global, tokens: &[Token<'t>]) -> Result<Vec<Finding<'t>>, AllocError>
    ensures { IfOk result (λ found. map finding_of found.items ≡ map spec.once_at (once (map shown tokens.now))) }
{
    let once = variables_once(alloc, tokens)?;
    let mut found = Vec::new(alloc);
    for token in &once {
        found.push(Finding {
            start: token.start,
            what: What::Once(token.text),
        })?;
    }
    Ok(found)
}

/// What is found in a part of a text of this length: its syntax error where it has no term, or the variables that
/// occur once. The error is that memory was refused.
pub fn found_by<'t>(
    alloc: Global,
    settings: &Settings,
    part: &Cut<'t>,
    size: usize,
    term: &Option<Term>,
) -> Result<Vec<Finding<'t>>, AllocError>
    ensures { IfOk result (λ found. map finding_of found.items ≡ spec.found_by size (part_with part.now settings.now) (option_map term_of term.now)) }
{
    match term {
        Some(_) => found_once(alloc, &part.tokens),
        None => {
            let fault = fault_in(alloc, settings, part, size)?;
            let mut found = Vec::new(alloc);
            found.push(Finding {
                start: fault.start,
                what: What::Broken(fault),
            })?;
            Ok(found)
        }
    }
}
