//! Terms written out for a store: their names as atoms and their variables as places.
ghost use Rattle.std.specs.Prelude.{◌≡◌, ℕ, ◌+◌, ◌<◌, ◌∷◌, [], ◌++◌, IfOk, OnOk, length, map, reverse, true};
ghost use Rattle.std.specs.List.{All};
ghost use Rattle.iso_atoms.specs.Texts.{KeepsTexts};
ghost use Rattle.iso_model.specs.Terms.Trees.{Variable, row};
ghost use Rattle.iso_model.specs.Terms.TermOf.{term_of};
ghost use Rattle.iso_model.specs.Terms.Sizes.{size};
ghost use Rattle.iso_model.specs.Terms.Building.{with_steps};
ghost use Rattle.iso_model.specs.Terms.Substitutions.{apply};
ghost use Rattle.iso_store_core.specs.Presents.{KeepsMarks};
ghost use Rattle.iso_store_core.specs.Exact.{are_exact};
ghost use Rattle.iso_store_core.specs.Patterns.{IsNamed, IsPattern, part_step};
ghost use Rattle.iso_store.specs.Writing.{placed_by, terms_left};

use super::primitives::Primitives;
use iso_model::{NoMemory, Numbering, Term};
use iso_store_core::{Part, Pattern};
use std::alloc::Global;

/// Which place a variable has.
#[derive(Clone, Copy)]
pub(crate) enum Places<'n> {
    /// Its number.
    Numbers,
    /// Its place among these.
    Among(&'n Numbering),
}

/// The place of the variable of this number.
fn place_of(places: Places, number: u64) -> usize
    ensures { placed_by places.entry number ≡ Variable result }
{
    match places {
        Places::Numbers => number as usize,
        Places::Among(numbering) => numbering.place_or_len(number),
    }
}

/// Leaves these terms to be written, the last one next.
fn leave<'t>(left: &mut Vec<&'t Term>, terms: &'t [Term]) -> Result<(), NoMemory>
    ensures { OnOk result (map (λ t. t.now) left.new.items ≡ map (λ t. t.now) left.old.items ++ terms.now) }
{
    for term in terms {
        left.push(term)?;
    }
    Ok(())
}

/// Writes the part of the term itself, and leaves its arguments to be written. The parts come in the order from the
/// end.
fn write_next<'t, S: Primitives>(
    store: &mut S,
    places: Places,
    term: &'t Term,
    left: &mut Vec<&'t Term>,
    parts: &mut Vec<Part>,
) -> Result<(), NoMemory>
    requires named { All (IsNamed (S.names store.old)) parts.old.items }
    ensures named { OnOk result (All (IsNamed (S.names store.new)) parts.new.items) }
    ensures exact { are_exact (reverse parts.old.items) (length left.old.items + 1) ≡ true → OnOk result (are_exact (reverse parts.new.items) (length left.new.items) ≡ true) }
    ensures written { OnOk result (with_steps (map (part_step (S.names store.new) Variable) parts.new.items) (map (apply (placed_by places.entry)) (terms_left left.new.items))
        ≡ with_steps (map (part_step (S.names store.old) Variable) parts.old.items) (map (apply (placed_by places.entry)) (terms_left left.old.items ++ term_of term.now ∷ []))) }
    ensures load { OnOk result (size (row (terms_left left.new.items)) < size (term_of term.now) + size (row (terms_left left.old.items))) }
    ensures present { S.present store.new ≡ S.present store.old }
    ensures names { KeepsTexts (S.names store.old) (S.names store.new) }
    ensures marks { KeepsMarks (S.stands store.old) (S.stands store.new) }
{
    match term {
        Term::Var(number) => {
            parts.push(Part::Variable(place_of(places, *number)))?;
            Ok(())
        }
        Term::Int(value) => {
            let value = *value;
            parts.push(Part::Integer(value))?;
            Ok(())
        }
        Term::Atom(name) => {
            let atom = store.intern(name.as_str())?;
            parts.push(Part::Atom(atom))?;
            Ok(())
        }
        Term::Compound(name, arguments) => {
            let atom = store.intern(name.as_str())?;
            parts.push(Part::Compound(atom, arguments.len()))?;
            leave(left, arguments.as_slice())
        }
    }
}

/// How many parts the term has where none of its arguments is a compound; it has more where one is.
fn parts_at_least(term: &Term) -> usize {
    match term {
        Term::Compound(_, arguments) => arguments.len().saturating_add(1),
        Term::Var(_) | Term::Int(_) | Term::Atom(_) => 1,
    }
}

/// The term with its variables by their places, written out. The error is that memory was refused.
pub(crate) fn written<S: Primitives>(
    alloc: Global,
    store: &mut S,
    term: &Term,
    places: Places,
) -> Result<Pattern, NoMemory>
    ensures pattern { IfOk result (λ r. IsPattern (S.names store.new) r.parts.items (apply (placed_by places.entry) (term_of term.now))) }
    ensures present { S.present store.new ≡ S.present store.old }
    ensures names { KeepsTexts (S.names store.old) (S.names store.new) }
    ensures marks { KeepsMarks (S.stands store.old) (S.stands store.new) }
{
    let mut parts = Vec::with_capacity(alloc, parts_at_least(term))?;
    let mut left = Vec::new(alloc);
    left.push(term)?;
    while let Some(next) = left.pop() {
        write_next(store, places, next, &mut left, &mut parts)?;
    }
    parts.reverse();
    Ok(Pattern { parts })
}
