//! Tables of procedures.
ghost use Rattle.std.specs.Prelude.{◌≡◌, ◌||◌, ◌++◌, ◌∷◌, [], List, option_map, OnOk};
ghost use Rattle.std.specs.List.{list_any};
ghost use Rattle.iso_model.specs.Search.Keys as model;
ghost use Rattle.iso_lint.specs.Findings.{Clause, last_of, is_known};
ghost use Rattle.iso_lint_core.specs.KeyViews.{key_view};
ghost use Rattle.iso_lint.specs.Tables.{StandsFor, Knows};

use indexmap::IndexMap;
use iso_lint_core::keys::Key;
use iso_model::is_built_in;
use std::alloc::{AllocError, Global};

/// Procedures, each with a number: where a clause of it begins.
#[derive(Drop)]
pub struct Table<'t> {
    numbers: IndexMap<Key<'t>, usize>,
}

impl<'t> Table<'t> {
    /// No procedures.
    pub fn new(alloc: Global) -> Table<'t>
        ensures last { StandsFor result.numbers [] }
        ensures known { Knows result.numbers [] }
    {
        Table {
            numbers: IndexMap::new(alloc),
        }
    }

    /// Where the last clause of the procedure begins, if it has one.
    pub fn last(&self, key: Key<'_>) -> Option<usize>
        ensures { (seen : List Clause) → StandsFor self.now.numbers seen → result ≡ option_map (λ c. c.start) (last_of (key_view key.entry) seen) }
    {
        self.numbers.get(&key).copied()
    }

    /// Whether the procedure is known: it is a built-in or a control construct, or the table has it.
    pub fn knows(&self, key: Key<'_>) -> bool
        ensures { (known : List model.Key) → Knows self.now.numbers known → result ≡ is_known known (key_view key.entry) }
    {
        is_built_in(key.name, key.arity) || self.numbers.contains_key(&key)
    }

    /// Whether the table has the procedure.
    pub fn has(&self, key: Key<'_>) -> bool
        ensures { (known : List model.Key) → Knows self.now.numbers known → result ≡ list_any (λ j. model.same_key j (key_view key.entry)) known }
    {
        self.numbers.contains_key(&key)
    }

    /// Notes a clause of the procedure that begins there. The error is that memory was refused.
    pub fn note(&mut self, key: Key<'t>, start: usize) -> Result<(), AllocError>
        ensures last { OnOk result ((seen : List Clause) → StandsFor self.old.numbers seen → StandsFor self.new.numbers (record { procedure = key_view key.entry; start = start } ∷ seen)) }
        ensures known { OnOk result ((known : List model.Key) → Knows self.old.numbers known → Knows self.new.numbers (known ++ key_view key.entry ∷ [])) }
    {
        self.numbers.insert(key, start)?;
        Ok(())
    }
}
