//! Terms made in a store of patterns, with words for the variables.
ghost use Rattle.std.specs.Prelude.{◌≡◌, ℕ, ◌<◌, IfOk, IfSome, OnOk, length, map, true};
ghost use Rattle.std.specs.List.{All};
ghost use Rattle.iso_atoms.specs.Texts.{text_at};
ghost use Rattle.iso_model.specs.Terms.Trees.{Tree};
ghost use Rattle.iso_model.specs.Terms.Building.{Gather, with_step};
ghost use Rattle.iso_model.specs.Terms.Substitutions.{apply};
ghost use Rattle.iso_store_core.specs.Presents.{Holds, Gathers, Makes, KeepsNumbers, Grows, KeepsMarks};
ghost use Rattle.iso_store_core.specs.Copying.{cells_of};
ghost use Rattle.iso_store_core.specs.Patterns.{IsNamed, IsPattern, part_step, at_places};
ghost use Rattle.iso_store.specs.Writing.{IsFitPattern, IsReady, IsPlace, IsVariable, IsFlat, MakesOne, part_cells, picked, taken};

use super::primitives::Primitives;
use iso_atoms::Atom;
use iso_model::NoMemory;
use iso_store_core::{Part, Pattern, StoreFault};
use std::alloc::Global;

/// Makes a compound of the last words, so many, which it takes the place of.
fn gather<S: Primitives>(
    store: &mut S,
    name: Atom,
    count: usize,
    words: &mut Vec<S::Word>,
) -> Result<(), StoreFault>
    requires name { name < length (S.names store.old) }
    requires words { All (λ w. Holds (S.present store.old) w) words.old.items }
    requires some { 0 < taken (length words.old.items) count }
    requires few { taken (length words.old.items) count < 256 }
    ensures gathers { OnOk result (Gathers (S.present store.old) (S.present store.new) words.new.items
        (with_step (Gather (text_at (S.names store.old) name) count) (map (S.present store.old).term words.old.items))) }
    ensures numbers { OnOk result (KeepsNumbers (S.present store.old) (S.present store.new)) }
    ensures cells { Grows (S.present store.old) (S.present store.new) (S.width (taken (length words.old.items) count)) 0 }
    ensures full { result ≡ Err StoreFault.Full → S.full store.new }
    ensures names { S.names store.new ≡ S.names store.old }
    ensures marks { KeepsMarks (S.stands store.old) (S.stands store.new) }
{
    let first = words.len().saturating_sub(count);
    let word = store.compound(name, &words[first..])?;
    words.truncate(first);
    words.push(word)?;
    Ok(())
}

/// Does what the part says with the words that came before it.
#[inline(always)]
pub(crate) fn make_part<S: Primitives>(
    store: &mut S,
    part: Part,
    variables: &[S::Word],
    words: &mut Vec<S::Word>,
) -> Result<(), StoreFault>
    requires named { IsNamed (S.names store.old) part }
    requires ready { IsReady (length variables.now) (length words.old.items) part }
    requires variables { All (λ w. Holds (S.present store.old) w) variables.now }
    requires words { All (λ w. Holds (S.present store.old) w) words.old.items }
    ensures gathers { OnOk result (Gathers (S.present store.old) (S.present store.new) words.new.items
        (with_step (part_step (S.names store.old) (at_places (map (S.present store.old).term variables.now)) part) (map (S.present store.old).term words.old.items))) }
    ensures numbers { OnOk result (KeepsNumbers (S.present store.old) (S.present store.new)) }
    ensures cells { Grows (S.present store.old) (S.present store.new) (part_cells S.atomic S.width (length words.old.items) part) 0 }
    ensures full { result ≡ Err StoreFault.Full → S.full store.new }
    ensures names { S.names store.new ≡ S.names store.old }
    ensures marks { KeepsMarks (S.stands store.old) (S.stands store.new) }
{
    match part {
        Part::Variable(place) => {
            words.push(variables[place])?;
            Ok(())
        }
        Part::Integer(value) => {
            let word = store.int(value)?;
            words.push(word)?;
            Ok(())
        }
        Part::Atom(name) => {
            let word = store.atom(name)?;
            words.push(word)?;
            Ok(())
        }
        Part::Compound(name, count) => gather(store, name, count, words),
    }
}

/// The term of a last part, which takes all the words that came before it.
#[inline(always)]
fn make_last<S: Primitives>(
    store: &mut S,
    part: Part,
    variables: &[S::Word],
    words: &[S::Word],
) -> Result<S::Word, StoreFault>
    requires named { IsNamed (S.names store.old) part }
    requires ready { IsReady (length variables.now) (length words.now) part }
    requires one { (t : Tree) × MakesOne (S.names store.old) (at_places (map (S.present store.old).term variables.now)) part (map (S.present store.old).term words.now) t }
    requires variables { All (λ w. Holds (S.present store.old) w) variables.now }
    requires words { All (λ w. Holds (S.present store.old) w) words.now }
    ensures made { (t : Tree) → MakesOne (S.names store.old) (at_places (map (S.present store.old).term variables.now)) part (map (S.present store.old).term words.now) t
        → IfOk result (λ w. Makes (S.present store.old) (S.present store.new) w t) }
    ensures numbers { OnOk result (KeepsNumbers (S.present store.old) (S.present store.new)) }
    ensures cells { Grows (S.present store.old) (S.present store.new) (part_cells S.atomic S.width (length words.now) part) 0 }
    ensures full { result ≡ Err StoreFault.Full → S.full store.new }
    ensures names { S.names store.new ≡ S.names store.old }
    ensures marks { KeepsMarks (S.stands store.old) (S.stands store.new) }
{
    match part {
        Part::Variable(place) => Ok(variables[place]),
        Part::Integer(value) => store.int(value),
        Part::Atom(name) => store.atom(name),
        Part::Compound(name, _) => store.compound(name, words),
    }
}

/// Whether all of the parts are variables.
fn are_variables(parts: &[Part]) -> bool
    ensures { result ≡ true → All IsVariable parts.now }
{
    for part in parts {
        if !matches!(part, Part::Variable(_)) {
            return false;
        }
    }
    true
}

/// The words at the places of the parts, each of which is a variable. The error is that memory was refused.
pub(crate) fn pick_words<W: Copy>(
    alloc: Global,
    places: &[Part],
    variables: &[W],
) -> Result<Vec<W>, NoMemory>
    requires { All (IsPlace (length variables.now)) places.now }
    ensures { IfOk result (λ words. words.items ≡ picked variables.now places.now) }
{
    let mut words = Vec::with_capacity(alloc, places.len())?;
    for part in places {
        let Part::Variable(place) = part else {
            unreachable!()
        };
        words.push(variables[*place])?;
    }
    Ok(words)
}

/// The name of the compound that the parts write out, where its arguments are variables alone.
fn flat_name(parts: &[Part]) -> Option<Atom>
    requires { 0 < length parts.now }
    ensures { IfSome result (λ name. IsFlat name parts.now) }
{
    let last = parts.len() - 1;
    let Part::Compound(name, _) = parts[last] else {
        return None;
    };
    if !are_variables(&parts[..last]) {
        return None;
    }
    Some(name)
}

/// The term of the parts, a compound of this name whose arguments are variables alone.
fn make_flat<S: Primitives>(
    store: &mut S,
    name: Atom,
    parts: &[Part],
    variables: &[S::Word],
) -> Result<S::Word, StoreFault>
    requires pattern { IsFitPattern (S.names store.old) parts.now (length variables.now) }
    requires flat { IsFlat name parts.now }
    requires variables { All (λ w. Holds (S.present store.old) w) variables.now }
    ensures made { (t : Tree) → IsPattern (S.names store.old) parts.now t
        → IfOk result (λ w. Makes (S.present store.old) (S.present store.new) w (apply (at_places (map (S.present store.old).term variables.now)) t)) }
    ensures numbers { OnOk result (KeepsNumbers (S.present store.old) (S.present store.new)) }
    ensures cells { (t : Tree) → IsPattern (S.names store.old) parts.now t → Grows (S.present store.old) (S.present store.new) (cells_of S.atomic S.width t) 0 }
    ensures full { result ≡ Err StoreFault.Full → S.full store.new }
    ensures names { S.names store.new ≡ S.names store.old }
    ensures marks { KeepsMarks (S.stands store.old) (S.stands store.new) }
{
    store.compound_of(name, &parts[..parts.len() - 1], variables)
}

/// The term of the parts, made part by part, with the word at its place for each variable, and this list for the
/// words of its parts.
#[inline(always)]
fn make_nested<S: Primitives>(
    store: &mut S,
    parts: &[Part],
    variables: &[S::Word],
    words: &mut Vec<S::Word>,
) -> Result<S::Word, StoreFault>
    requires pattern { IsFitPattern (S.names store.old) parts.now (length variables.now) }
    requires variables { All (λ w. Holds (S.present store.old) w) variables.now }
    ensures made { (t : Tree) → IsPattern (S.names store.old) parts.now t
        → IfOk result (λ w. Makes (S.present store.old) (S.present store.new) w (apply (at_places (map (S.present store.old).term variables.now)) t)) }
    ensures numbers { OnOk result (KeepsNumbers (S.present store.old) (S.present store.new)) }
    ensures cells { (t : Tree) → IsPattern (S.names store.old) parts.now t → Grows (S.present store.old) (S.present store.new) (cells_of S.atomic S.width t) 0 }
    ensures full { result ≡ Err StoreFault.Full → S.full store.new }
    ensures names { S.names store.new ≡ S.names store.old }
    ensures marks { KeepsMarks (S.stands store.old) (S.stands store.new) }
{
    let last = parts.len() - 1;
    words.clear();
    for part in &parts[..last] {
        // Most parts are variables, which need no more than this.
        if let Part::Variable(place) = part {
            words.push(variables[*place])?;
        } else {
            make_part(store, *part, variables, words)?;
        }
    }
    make_last(store, parts[last], variables, words.as_slice())
}

/// The term of the parts, with the word at its place for each variable, and this list for the words of its parts.
pub(crate) fn make_parts<S: Primitives>(
    store: &mut S,
    parts: &[Part],
    variables: &[S::Word],
    words: &mut Vec<S::Word>,
) -> Result<S::Word, StoreFault>
    requires pattern { IsFitPattern (S.names store.old) parts.now (length variables.now) }
    requires variables { All (λ w. Holds (S.present store.old) w) variables.now }
    ensures made { (t : Tree) → IsPattern (S.names store.old) parts.now t
        → IfOk result (λ w. Makes (S.present store.old) (S.present store.new) w (apply (at_places (map (S.present store.old).term variables.now)) t)) }
    ensures numbers { OnOk result (KeepsNumbers (S.present store.old) (S.present store.new)) }
    ensures cells { (t : Tree) → IsPattern (S.names store.old) parts.now t → Grows (S.present store.old) (S.present store.new) (cells_of S.atomic S.width t) 0 }
    ensures full { result ≡ Err StoreFault.Full → S.full store.new }
    ensures names { S.names store.new ≡ S.names store.old }
    ensures marks { KeepsMarks (S.stands store.old) (S.stands store.new) }
{
    match flat_name(parts) {
        Some(name) => make_flat(store, name, parts, variables),
        None => make_nested(store, parts, variables, words),
    }
}

/// The term of the pattern, with the word at its place for each variable.
pub(crate) fn instantiate<S: Primitives>(
    alloc: Global,
    store: &mut S,
    pattern: &Pattern,
    variables: &[S::Word],
) -> Result<S::Word, StoreFault>
    requires pattern { IsFitPattern (S.names store.old) pattern.now.parts.items (length variables.now) }
    requires variables { All (λ w. Holds (S.present store.old) w) variables.now }
    ensures made { (t : Tree) → IsPattern (S.names store.old) pattern.now.parts.items t
        → IfOk result (λ w. Makes (S.present store.old) (S.present store.new) w (apply (at_places (map (S.present store.old).term variables.now)) t)) }
    ensures numbers { OnOk result (KeepsNumbers (S.present store.old) (S.present store.new)) }
    ensures cells { (t : Tree) → IsPattern (S.names store.old) pattern.now.parts.items t → Grows (S.present store.old) (S.present store.new) (cells_of S.atomic S.width t) 0 }
    ensures full { result ≡ Err StoreFault.Full → S.full store.new }
    ensures names { S.names store.new ≡ S.names store.old }
    ensures marks { KeepsMarks (S.stands store.old) (S.stands store.new) }
{
    let parts = pattern.parts.as_slice();
    if let Some(name) = flat_name(parts) {
        return make_flat(store, name, parts, variables);
    }
    let mut words = Vec::new(alloc);
    store.swap_words(&mut words);
    let made = make_nested(store, parts, variables, &mut words);
    store.swap_words(&mut words);
    made
}
