//! What is found in a whole text.
ghost use Rattle.std.specs.Prelude.{◌≡◌, ◌++◌, List, map, option_map, codes, IfOk, OnOk};
ghost use Rattle.iso_model.specs.Search.Keys as model;
ghost use Rattle.iso_model.specs.Syntax.Tokens.{tokens};
ghost use Rattle.iso_model.specs.Terms.TermOf.{term_of};
ghost use Rattle.iso_lint_core.specs.Calls as calls;
ghost use Rattle.iso_lint.specs.FindingViews.{finding_of, what_of};
ghost use Rattle.iso_lint.specs.Findings as spec;
ghost use Rattle.iso_lint.specs.Findings.{Clause};
ghost use Rattle.iso_lint.specs.ItemViews.{item_of};
ghost use Rattle.iso_lint_core.specs.KeyViews.{key_view, keys_view};
ghost use Rattle.iso_lint.specs.Parts as parts;
ghost use Rattle.iso_lint.specs.Tables.{AreSeen, Knows};

use crate::apart::Seen;
use crate::findings::{Finding, What, named_procedure};
use crate::items::{Item, items_of};
use crate::tables::Table;
use crate::unknown::add_unknown;
use iso_lint_core::calls::{calls, declares, defined};
use iso_lint_core::keys::Key;
use iso_model::Term;
use std::alloc::{AllocError, Global};

/// The procedure that a part of the text with this term defines.
fn defined_in(term: &Option<Term>) -> Option<Key<'_>>
    ensures { option_map key_view result ≡ spec.defined_in (option_map term_of term.now) }
{
    match term {
        Some(term) => defined(term),
        None => None,
    }
}

/// The procedures that it calls. The error is that memory was refused.
fn calls_in<'t>(alloc: Global, term: &'t Option<Term>) -> Result<Vec<Key<'t>>, AllocError>
    ensures { IfOk result (λ keys. keys_view keys.items ≡ spec.calls_in (option_map term_of term.entry.now)) }
{
    match term {
        Some(term) => calls(alloc, term),
        None => Ok(Vec::new(alloc)),
    }
}

/// The procedures that it declares by goals of this name. The error is that memory was refused.
fn declared_in<'t>(
    alloc: Global,
    declaration: &str,
    term: &'t Option<Term>,
) -> Result<Vec<Key<'t>>, AllocError>
    ensures { IfOk result (λ keys. keys_view keys.items ≡ spec.declares_in declaration.now (option_map term_of term.entry.now)) }
{
    match term {
        Some(term) => declares(alloc, declaration, term),
        None => Ok(Vec::new(alloc)),
    }
}

/// Notes the procedure, if there is one. The error is that memory was refused.
fn note_one<'t>(table: &mut Table<'t>, start: usize, key: Option<Key<'t>>) -> Result<(), AllocError>
    ensures { OnOk result ((known : List model.Key) → Knows table.old.numbers known → Knows table.new.numbers (known ++ spec.some_key (option_map key_view key.entry))) }
{
    match key {
        Some(key) => table.note(key, start),
        None => Ok(()),
    }
}

/// Notes the procedures. The error is that memory was refused.
fn note_all<'t>(table: &mut Table<'t>, start: usize, keys: &[Key<'t>]) -> Result<(), AllocError>
    ensures { OnOk result ((known : List model.Key) → Knows table.old.numbers known → Knows table.new.numbers (known ++ keys_view keys.now)) }
{
    for key in keys {
        table.note(*key, start)?;
    }
    Ok(())
}

/// Notes the procedures that an item defines, or declares as dynamic. The error is that memory was refused.
fn note_known<'i>(
    alloc: Global,
    table: &mut Table<'i>,
    item: &'i Item<'_>,
) -> Result<(), AllocError>
    ensures { OnOk result ((known : List model.Key) → Knows table.old.numbers known → Knows table.new.numbers (known ++ spec.made_known (item_of item.entry.now).term)) }
{
    note_one(table, item.start, defined_in(&item.term))?;
    let dynamic = declared_in(alloc, "dynamic", &item.term)?;
    note_all(table, item.start, &dynamic)
}

/// Notes the procedures that an item declares as apart. The error is that memory was refused.
fn note_loose<'i>(
    alloc: Global,
    table: &mut Table<'i>,
    item: &'i Item<'_>,
) -> Result<(), AllocError>
    ensures { OnOk result ((known : List model.Key) → Knows table.old.numbers known → Knows table.new.numbers (known ++ spec.made_loose (item_of item.entry.now).term)) }
{
    let loose = declared_in(alloc, "discontiguous", &item.term)?;
    note_all(table, item.start, &loose)
}

/// The procedures that the items define, or declare as dynamic. The error is that memory was refused.
fn known_in<'i>(alloc: Global, items: &'i [Item<'_>]) -> Result<Table<'i>, AllocError>
    ensures { IfOk result (λ table. Knows table.numbers (spec.known_in (map item_of items.entry.now))) }
{
    let mut table = Table::new(alloc);
    for item in items {
        note_known(alloc, &mut table, item)?;
    }
    Ok(table)
}

/// Those that they declare as apart. The error is that memory was refused.
fn loose_in<'i>(alloc: Global, items: &'i [Item<'_>]) -> Result<Table<'i>, AllocError>
    ensures { IfOk result (λ table. Knows table.numbers (spec.loose_in (map item_of items.entry.now))) }
{
    let mut table = Table::new(alloc);
    for item in items {
        note_loose(alloc, &mut table, item)?;
    }
    Ok(table)
}

/// What is found, once more. The error is that memory was refused.
fn copied<'t>(alloc: Global, what: &What<'t>) -> Result<What<'t>, AllocError>
    ensures { IfOk result (λ copy. what_of copy ≡ what_of what.now) }
{
    match what {
        What::Broken(fault) => Ok(What::Broken(*fault)),
        What::Once(name) => Ok(What::Once(name)),
        What::Apart(procedure, before) => {
            let key = Key {
                name: procedure.name.as_str(),
                arity: procedure.arity,
            };
            Ok(What::Apart(named_procedure(alloc, key)?, *before))
        }
        What::Unknown(procedure) => {
            let key = Key {
                name: procedure.name.as_str(),
                arity: procedure.arity,
            };
            Ok(What::Unknown(named_procedure(alloc, key)?))
        }
    }
}

/// Adds copies of these. The error is that memory was refused.
fn add_copies<'t>(
    alloc: Global,
    from: &[Finding<'t>],
    found: &mut Vec<Finding<'t>>,
) -> Result<(), AllocError>
    ensures { OnOk result (map finding_of found.new.items ≡ map finding_of found.old.items ++ map finding_of from.now) }
{
    for finding in from {
        let what = copied(alloc, &finding.what)?;
        found.push(Finding {
            start: finding.start,
            what,
        })?;
    }
    Ok(())
}

/// Adds what is found at an item, behind these clauses. The error is that memory was refused.
fn add_found<'t>(
    alloc: Global,
    known: &Table<'_>,
    loose: &Table<'_>,
    seen: &Seen<'_>,
    item: &Item<'t>,
    found: &mut Vec<Finding<'t>>,
) -> Result<(), AllocError>
    ensures { OnOk result ((ks ls : List model.Key) (cs : List Clause) → Knows known.now.numbers ks → Knows loose.now.numbers ls → AreSeen seen.now.last.numbers seen.now.previous cs
        → map finding_of found.new.items ≡ map finding_of found.old.items ++ spec.found_at ks ls cs (item_of item.now)) }
{
    seen.add_apart(alloc, loose, item.start, defined_in(&item.term), found)?;
    let called = calls_in(alloc, &item.term)?;
    add_unknown(alloc, known, item.start, &called, found)?;
    add_copies(alloc, &item.found, found)
}

/// What is found in a text of these items. The error is that memory was refused.
fn found_in<'t>(alloc: Global, items: &[Item<'t>]) -> Result<Vec<Finding<'t>>, AllocError>
    ensures { IfOk result (λ found. map finding_of found.items ≡ spec.found_in (map item_of items.now)) }
{
    let known = known_in(alloc, items)?;
    let loose = loose_in(alloc, items)?;
    let mut seen = Seen::new(alloc);
    let mut found = Vec::new(alloc);
    for item in items {
        add_found(alloc, &known, &loose, &seen, item, &mut found)?;
        seen.note(item.start, defined_in(&item.term))?;
    }
    Ok(found)
}

/// What is found in a text without preamble, in the order of the text. The error is that memory was refused.
pub fn found_in_text<'t>(alloc: Global, text: &'t str) -> Result<Vec<Finding<'t>>, AllocError>
    ensures { IfOk result (λ found. map finding_of found.items ≡ spec.found_in_text text.entry.now) }
{
    let items = items_of(alloc, text)?;
    found_in(alloc, &items)
}
