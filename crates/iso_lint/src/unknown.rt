//! Procedures that are called and not defined.
ghost use Rattle.std.specs.Prelude.{◌≡◌, ◌++◌, List, map, IfOk, OnOk};
ghost use Rattle.iso_model.specs.Search.Keys as model;
ghost use Rattle.iso_lint.specs.FindingViews.{finding_of};
ghost use Rattle.iso_lint.specs.Findings as spec;
ghost use Rattle.iso_lint_core.specs.KeyViews.{key_view, keys_view};
ghost use Rattle.iso_lint.specs.Tables.{Knows};

use crate::findings::{Finding, What, named_procedure};
use crate::tables::Table;
use indexmap::IndexSet;
use iso_lint_core::keys::Key;
use std::alloc::{AllocError, Global};

/// Notes a procedure unless it is known, or there. The error is that memory was refused.
fn note_unknown<'t>(
    known: &Table<'_>,
    noted: &mut IndexSet<Key<'t>>,
    key: Key<'t>,
) -> Result<(), AllocError>
    ensures { OnOk result ((ks : List model.Key) → Knows known.now.numbers ks
        → keys_view noted.new.keys ≡ spec.noted_unknown ks (keys_view noted.old.keys) (key_view key.entry)) }
{
    if known.knows(key) {
        return Ok(());
    }
    noted.insert(key)?;
    Ok(())
}

/// Those of these procedures that aren't known, each once. The error is that memory was refused.
fn unknown_of<'t>(
    alloc: Global,
    known: &Table<'_>,
    keys: &[Key<'t>],
) -> Result<IndexSet<Key<'t>>, AllocError>
    ensures { IfOk result (λ found. (ks : List model.Key) → Knows known.now.numbers ks
        → keys_view found.keys ≡ spec.unknown_of ks (keys_view keys.now)) }
{
    let mut found = IndexSet::new(alloc);
    for key in keys {
        note_unknown(known, &mut found, *key)?;
    }
    Ok(found)
}

/// Adds what is found at a part of the text that begins there and calls these procedures: those that aren't known.
/// The error is that memory was refused.
pub fn add_unknown(
    alloc: Global,
    known: &Table<'_>,
    start: usize,
    keys: &[Key<'_>],
    found: &mut Vec<Finding<'_>>,
) -> Result<(), AllocError>
    ensures { OnOk result ((ks : List model.Key) → Knows known.now.numbers ks
        → map finding_of found.new.items ≡ map finding_of found.old.items ++ map (spec.unknown_at start) (spec.unknown_of ks (keys_view keys.now))) }
{
    let unknown = unknown_of(alloc, known, keys)?;
    for key in unknown.as_slice() {
        let what = What::Unknown(named_procedure(alloc, *key)?);
        found.push(Finding { start, what })?;
    }
    Ok(())
}
