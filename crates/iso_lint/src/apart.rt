//! Clauses of one procedure that aren't together.
ghost use Rattle.std.specs.Prelude.{◌≡◌, ◌++◌, [], List, map, option_map, OnOk};
ghost use Rattle.iso_model.specs.Search.Keys as model;
ghost use Rattle.iso_lint.specs.FindingViews.{finding_of};
ghost use Rattle.iso_lint.specs.Findings as spec;
ghost use Rattle.iso_lint.specs.Findings.{Clause, is_previous, with_clause};
ghost use Rattle.iso_lint_core.specs.KeyViews.{key_view};
ghost use Rattle.iso_lint.specs.Tables.{AreSeen, Knows};

use crate::findings::{Finding, What, named_procedure};
use crate::tables::Table;
use iso_lint_core::keys::Key;
use std::alloc::{AllocError, Global};

/// The clauses of a text so far.
#[derive(Drop)]
pub struct Seen<'t> {
    /// Of each procedure, where its last clause begins.
    last: Table<'t>,
    /// The procedure of the last clause of all.
    previous: Option<Key<'t>>,
}

/// Whether this is the procedure of the last clause.
fn is_previous(key: Key<'_>, previous: Option<Key<'_>>) -> bool
    ensures { result ≡ is_previous (key_view key.entry) (option_map key_view previous.entry) }
{
    match previous {
        None => false,
        Some(other) => other == key,
    }
}

impl<'t> Seen<'t> {
    /// No clauses.
    pub fn new(alloc: Global) -> Seen<'t>
        ensures { AreSeen result.last.numbers result.previous [] }
    {
        Seen {
            last: Table::new(alloc),
            previous: None,
        }
    }

    /// Adds what is found of a clause of this procedure that begins there, unless the procedure is one of these:
    /// where its procedure has clauses, and the last of all is another's, it is apart. The error is that memory was
    /// refused.
    pub fn add_apart(
        &self,
        alloc: Global,
        loose: &Table<'_>,
        start: usize,
        key: Option<Key<'_>>,
        found: &mut Vec<Finding<'_>>,
    ) -> Result<(), AllocError>
        ensures { OnOk result ((seen : List Clause) (known : List model.Key) → AreSeen self.now.last.numbers self.now.previous seen → Knows loose.now.numbers known
            → map finding_of found.new.items ≡ map finding_of found.old.items ++ spec.apart known seen start (option_map key_view key.entry)) }
    {
        let Some(key) = key else {
            return Ok(());
        };
        if is_previous(key, self.previous) || loose.has(key) {
            return Ok(());
        }
        match self.last.last(key) {
            None => Ok(()),
            Some(before) => {
                let what = What::Apart(named_procedure(alloc, key)?, before);
                found.push(Finding { start, what })?;
                Ok(())
            }
        }
    }

    /// Goes on behind a part of the text that begins there and defines this procedure, if any. The error is that
    /// memory was refused.
    pub fn note(&mut self, start: usize, key: Option<Key<'t>>) -> Result<(), AllocError>
        ensures { OnOk result ((seen : List Clause) → AreSeen self.old.last.numbers self.old.previous seen → AreSeen self.new.last.numbers self.new.previous (with_clause seen start (option_map key_view key.entry))) }
    {
        match key {
            None => Ok(()),
            Some(key) => {
                self.last.note(key, start)?;
                self.previous = Some(key);
                Ok(())
            }
        }
    }
}
