//! The parts of a text, as they are read.
ghost use Rattle.std.specs.Prelude.{◌≡◌, ◌<◌, ◌++◌, [], length, map, option_map, IfOk, MatchOption, OnOk};
ghost use Rattle.iso_model.specs.Syntax.Tokens.{tokens};
ghost use Rattle.iso_model.specs.Terms.TermOf.{term_of};
ghost use Rattle.iso_lint.specs.Cuts.{part_with};
ghost use Rattle.iso_lint.specs.Findings as spec;
ghost use Rattle.iso_lint.specs.ItemViews.{item_of};
ghost use Rattle.iso_lint.specs.Parts as parts;
ghost use Rattle.iso_lint_core.specs.Settings.{initial_settings};
ghost use Rattle.iso_token.specs.Shows.{shown};

use crate::cuts::{Cut, next_cut};
use crate::faults::{start_or, token_at};
use crate::findings::{Finding, found_by};
use iso_lint_core::settings::Settings;
use iso_model::Term;
use iso_read::{ReadFault, read_tokens};
use iso_token::Tokens;
use std::alloc::{AllocError, Global};

/// A part of a text, up to its end token, as it was read.
#[derive(Debug, Drop)]
pub struct Item<'t> {
    /// The number of its first byte in the text.
    pub start: usize,
    /// Its term; none where it is a syntax error.
    pub term: Option<Term>,
    /// What is found in it alone.
    pub found: Vec<Finding<'t>>,
}

/// The term of a part; none where it is a syntax error. The error is that memory was refused.
fn term_in(alloc: Global, settings: &Settings, part: &Cut<'_>) -> Result<Option<Term>, AllocError>
    ensures { IfOk result (λ term. option_map term_of term ≡ parts.term_in (part_with part.now settings.now)) }
{
    match part.ends {
        None => Ok(None),
        Some(_) => match read_tokens(alloc, &part.tokens, &settings.ops, &settings.flags) {
            Ok(read) => Ok(Some(read.term)),
            Err(ReadFault::Syntax) => Ok(None),
            Err(ReadFault::NoMemory) => Err(AllocError),
        },
    }
}

/// A part of a text of this length, as it is read. The error is that memory was refused.
fn item_in<'t>(
    alloc: Global,
    settings: &Settings,
    part: &Cut<'t>,
    size: usize,
) -> Result<Item<'t>, AllocError>
    ensures { IfOk result (λ i. item_of i ≡ spec.item size (part_with part.now settings.now)) }
{
    let term = term_in(alloc, settings, part)?;
    let found = found_by(alloc, settings, part, size, &term)?;
    let first = token_at(part.tokens.as_slice(), 0);
    Ok(Item {
        start: start_or(first, part.ends.unwrap_or(size)),
        term,
        found,
    })
}

/// Sets what a part of a text sets that has this term. The error is that memory was refused.
fn set_by(alloc: Global, settings: &mut Settings, term: &Option<Term>) -> Result<(), AllocError>
    ensures { OnOk result (settings.new ≡ parts.behind_read (option_map term_of term.now) settings.old) }
{
    match term {
        Some(term) => settings.set_by_term(alloc, term),
        None => Ok(()),
    }
}

/// The items of a text, in order; each is read by the operators and flags that the directives before it set. The
/// error is that memory was refused.
pub fn items_of<'t>(alloc: Global, text: &'t str) -> Result<Vec<Item<'t>>, AllocError>
    ensures { IfOk result (λ items. map item_of items.items ≡ map (spec.item (length text.entry.now)) (parts.parts (tokens text.entry.now))) }
{
    let mut tokens = Tokens::new(text);
    let mut settings = Settings::initial(alloc)?;
    let mut items = Vec::new(alloc);
    while let Some(part) = next_cut(alloc, &mut tokens)? {
        let item = item_in(alloc, &settings, &part, text.len())?;
        set_by(alloc, &mut settings, &item.term)?;
        items.push(item)?;
    }
    Ok(items)
}
