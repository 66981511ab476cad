//! Clauses written out for the store, with numbers for their names: once, before any goal is run.
ghost use Rattle.std.specs.Prelude.{◌≡◌, ◌<◌, ℕ, List, IfOk, codes, length, take};
ghost use Rattle.iso_atoms.specs.Texts.{text_at};
ghost use Rattle.iso_model.specs.Terms.Trees.{Tree};
ghost use Rattle.iso_model.specs.Terms.TermOf.{term_of};
ghost use Rattle.iso_model.specs.Search.Bodies.{two};
ghost use Rattle.iso_model.specs.Search.Databases as databases;
ghost use Rattle.iso_store_core.specs.Retaining.{Retains};
ghost use Rattle.iso_program.specs.Written.{IsPatternOf};
ghost use Rattle.iso_program.specs.Kept.{IsChecked, IsClause};

use super::checked::Checked;
use super::clauses::Clause;
use super::kept::Kept;
use iso_atoms::Atom;
use iso_model::{NoMemory, Term};
use iso_store_core::{Part, Pattern, Store};
use std::alloc::{AllocError, Global};

/// The pattern of the compound of this name with two arguments, which have these patterns. The error is that memory
/// was refused.
fn pair(alloc: Global, name: Atom, first: &Pattern, second: &Pattern) -> Result<Pattern, AllocError>
    requires first { (names : List (List ℕ)) × (t : Tree) × IsPatternOf names first.now t }
    requires second { (names : List (List ℕ)) × (t : Tree) × IsPatternOf names second.now t }
    ensures begins { IfOk result (λ pair. take (length first.now.parts.items) pair.parts.items ≡ first.now.parts.items) }
    ensures pattern { (names : List (List ℕ)) (t u : Tree) → name < length names → IsPatternOf names first.now t
        → IsPatternOf names second.now u
        → IfOk result (λ pair. IsPatternOf names pair (two (text_at names name) t u)) }
{
    let (first, second) = (first.parts.as_slice(), second.parts.as_slice());
    let count = first.len().saturating_add(second.len()).saturating_add(1);
    let mut parts = Vec::with_capacity(alloc, count)?;
    parts.extend_from_slice(first)?;
    parts.extend_from_slice(second)?;
    parts.push(Part::Compound(name, 2))?;
    Ok(Pattern { parts })
}

/// The pattern of the term `Head :- Body`, where the head has this one. The error is that memory was refused.
fn written_whole<S: Store>(
    alloc: Global,
    store: &mut S,
    head: &Pattern,
    body: &Term,
) -> Result<Pattern, NoMemory>
    requires head { (t : Tree) × IsPatternOf (S.names store.old) head.now t }
    ensures whole { (t : Tree) → IsPatternOf (S.names store.old) head.now t
        → IfOk result (λ whole. IsPatternOf (S.names store.new) whole (two (codes ":-") t (term_of body.now))) }
    ensures begins { IfOk result (λ whole. take (length head.now.parts.items) whole.parts.items ≡ head.now.parts.items) }
    ensures rest { Retains S.Store store.old store.new }
    ensures present { S.present store.new ≡ S.present store.old }
{
    let body = store.pattern(body)?;
    let name = store.intern(":-")?;
    Ok(pair(alloc, name, head, &body)?)
}

/// The clause ready to be tried. The error is that memory was refused.
pub fn written_clause<S: Store, C: Kept<S>>(
    alloc: Global,
    store: &mut S,
    checked: &Checked,
) -> Result<Clause<C>, NoMemory>
    ensures clause { (c : databases.Clause) → IsChecked checked.now c
        → IfOk result (λ clause. IsClause C.keeps (S.names store.new) clause c) }
    ensures rest { Retains S.Store store.old store.new }
    ensures present { S.present store.new ≡ S.present store.old }
{
    let head = store.pattern(checked.head())?;
    let whole = written_whole(alloc, store, &head, checked.prepared.body())?;
    let own = C::keep(alloc, store, checked)?;
    Ok(Clause {
        head: head.parts.len(),
        whole,
        variables: checked.prepared.variables(),
        own,
    })
}
