//! The parts of an atom that suit a goal of `sub_atom/5` (8.16.3).
ghost use Rattle.std.specs.Prelude.{◌≡◌, ◌≤◌, ◌++◌, true, map, length, chars, Option, Some, IfOk, OnOk};
ghost use Rattle.std.specs.List.{All, filter};
ghost use Rattle.std.specs.Option.{option_to_list};
ghost use Rattle.iso_model.specs.Terms.Trees.{Tree, Name};
ghost use Rattle.iso_model.specs.Terms.Arguments.{argument, arity};
ghost use Rattle.iso_model.specs.Search.AtomParts as model;
ghost use Rattle.iso_text.specs.declared.parts.Parts as kept_parts;
ghost use Rattle.iso_text.specs.Parts.{AreOf, part_offer, parts_in};
ghost use Rattle.iso_text.specs.Bounds.{allows, text_of, counted_of, begins, suits, length_suits, AreLengths, ArePartsAt};

use super::lengths::count_characters;
use super::parts::{Part, Parts, SubAtom};
use std::alloc::{AllocError, Global};

/// How many rows there is room for at first.
const FEW: usize = 16;

/// What is asked of a part by the arguments that are bound.
#[derive(Clone, Copy)]
pub(crate) struct Asked {
    /// How many characters stand before it.
    pub(crate) before: Option<u128>,
    /// How many it has.
    pub(crate) length: Option<u128>,
    /// How many stand behind it.
    pub(crate) behind: Option<u128>,
    /// How many the part has that is given.
    pub(crate) counted: Option<usize>,
}

/// A place in an atom.
#[derive(Clone, Copy)]
pub(crate) struct Place {
    /// How many characters stand before it.
    pub(crate) before: usize,
    /// How many bytes stand before it.
    pub(crate) start: usize,
    /// How many characters stand behind it.
    pub(crate) rest: usize,
}

/// The least length, and so many more.
#[derive(Clone, Copy)]
pub(crate) struct Lengths {
    pub(crate) least: usize,
    pub(crate) more: usize,
}

/// Whether the number is the one that is asked for, if one is.
fn allows(asked: Option<u128>, number: usize) -> bool
    ensures { result ≡ allows asked number }
{
    match asked {
        Some(asked) => asked == number as u128,
        None => true,
    }
}

/// How many characters the text has, if there is one.
pub(crate) fn counted(text: Option<&str>) -> Option<usize>
    ensures { result ≡ counted_of (text_of text.entry) }
{
    match text {
        Some(text) => Some(count_characters(text)),
        None => None,
    }
}

/// The lengths of the parts that suit at a place behind which so many characters stand.
fn suitable_lengths(asked: Asked, rest: usize) -> Option<Lengths>
    ensures { AreLengths (length_suits asked rest) rest result }
{
    let only = match (asked.counted, asked.length, asked.behind) {
        (Some(counted), _, _) => counted as u128,
        (None, Some(length), _) => length,
        (None, None, Some(behind)) => (rest as u128).checked_sub(behind)?,
        (None, None, None) => {
            return Some(Lengths {
                least: 0,
                more: rest,
            });
        }
    };
    if only > rest as u128 {
        return None;
    }
    let only = only as usize;
    if !allows(asked.length, only) || !allows(asked.behind, rest - only) {
        return None;
    }
    Some(Lengths {
        least: only,
        more: 0,
    })
}

/// Whether the text begins with the part.
fn begins(text: &str, part: &str) -> bool
    ensures { result ≡ begins (Some part.now) (chars text.now) }
{
    text.starts_with(part)
}

/// Whether the text begins with the part, if one is given.
fn may_begin(text: &str, part: Option<&str>) -> bool
    ensures { result ≡ begins (text_of part.entry) (chars text.now) }
{
    match part {
        Some(part) => begins(text, part),
        None => true,
    }
}

/// The parts at the place that suit, before this text.
fn parts_at(asked: Asked, part: Option<&str>, text: &str, place: Place) -> Option<Parts>
    requires counted { asked.counted ≡ counted_of (text_of part) }
    requires rest { place.rest ≡ length (chars text.now) }
    ensures { ArePartsAt asked (text_of part.entry) (chars text.now) place result }
{
    if !allows(asked.before, place.before) {
        return None;
    }
    let lengths = suitable_lengths(asked, place.rest)?;
    if !may_begin(text, part) {
        return None;
    }
    Some(Parts {
        first: Part::Sub(SubAtom {
            before: place.before,
            start: place.start,
            length: lengths.least,
            behind: place.rest - lengths.least,
        }),
        more: lengths.more,
    })
}

/// Keeps the parts at the place that suit, before this text. The error is that memory was refused.
fn keep_at(
    kept: &mut Vec<Parts>,
    asked: Asked,
    part: Option<&str>,
    text: &str,
    place: Place,
) -> Result<(), AllocError>
    requires counted { asked.counted ≡ counted_of (text_of part) }
    requires rest { place.rest ≡ length (chars text.now) }
    ensures { OnOk result ((found : Option kept_parts.Parts) × (kept.new.items ≡ kept.old.items ++ option_to_list found) × ArePartsAt asked (text_of part.entry) (chars text.now) place found) }
{
    if let Some(parts) = parts_at(asked, part, text, place) {
        kept.push(parts)?;
    }
    Ok(())
}

/// The parts of an atom of this text that suit; the first of them are kept last. The error is that memory was refused.
pub(crate) fn sub_atoms(
    alloc: Global,
    text: &str,
    asked: Asked,
    part: Option<&str>,
) -> Result<Vec<Parts>, AllocError>
    requires { asked.counted ≡ counted_of (text_of part) }
    ensures offers { IfOk result (λ kept. (t : Tree) → argument 0 t ≡ Name text.now → map (part_offer 8 t) (parts_in kept.items)
        ≡ map (model.part_offer text.now) (filter (suits asked (text_of part.entry) (chars text.now)) (model.all_parts (length (chars text.now))))) }
    ensures places { IfOk result (λ kept. (t : Tree) → arity t ≡ 5 → argument 0 t ≡ Name text.now → All (AreOf t) kept.items) }
{
    let count = count_characters(text);
    let mut kept = Vec::with_capacity(alloc, FEW)?;
    let mut rest = count;
    for (start, _) in text.char_indices() {
        let before = count - rest;
        let place = Place {
            before,
            start,
            rest,
        };
        keep_at(&mut kept, asked, part, &text[start..], place)?;
        rest -= 1;
    }
    let end = Place {
        before: count,
        start: text.len(),
        rest: 0,
    };
    keep_at(&mut kept, asked, part, "", end)?;
    kept.reverse();
    Ok(kept)
}
