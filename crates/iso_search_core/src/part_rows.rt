//! Rows of parts of atoms, as they are unified with the arguments of goals of `atom_concat/3` and `sub_atom/5`
//! (8.16.2, 8.16.3).
ghost use Rattle.std.specs.Prelude.{◌≡◌, ◌++◌, take, drop, chars, false, IfOk, Err, length};
ghost use Rattle.std.specs.List.{All};
ghost use Rattle.std.specs.Str.{encode_utf8_all};
ghost use Rattle.std.specs.String.{string_bytes};
ghost use Rattle.iso_model.specs.Terms.Trees.{Tree, Name};
ghost use Rattle.iso_model.specs.Terms.Unifiers.{NeverEqual};
ghost use Rattle.iso_store_core.specs.Presents.{Holds, meaning, IsUnification};
ghost use Rattle.iso_store_core.specs.Retaining.{Retains, Takes};
ghost use Rattle.iso_store_core.specs.ArgumentWords.{AreArguments};
ghost use Rattle.iso_text.specs.Parts.{part_row, text_of, IsOf};
ghost use Rattle.iso_text.specs.declared.parts.Part.TheVariants as part;
ghost use Rattle.iso_search_core.specs.Offers.{goal_arguments};

use super::offers::unify_each;
use iso_lib::Constant;
use iso_store_core::{Shape, Store, StoreFault};
use iso_text::parts::{Part, SubAtom};
use std::alloc::{AllocError, Global};

/// The text of the atom that the word stands for; no text where it stands for another term.
fn text_of<S: Store>(store: &S, word: S::Word) -> &str
    requires { Holds (S.present store.now) word }
    ensures { result.now ≡ text_of (meaning (S.present store.now) word) }
{
    match store.shape(word) {
        Shape::Atom(name) => store.text(name),
        Shape::Var(_) | Shape::Int(_) | Shape::Compound(_, _) => "",
    }
}

/// Whether the word may unify with the atom of this text: it stands for no other atom.
fn may_be<S: Store>(store: &S, word: S::Word, text: &str) -> bool
    requires { Holds (S.present store.now) word }
    ensures { result ≡ false → NeverEqual (meaning (S.present store.now) word) (Name text.now) }
{
    match store.shape(word) {
        Shape::Atom(name) => store.text(name) == text,
        Shape::Var(_) | Shape::Int(_) | Shape::Compound(_, _) => true,
    }
}

/// The texts of the two atoms, one behind the other. The error is that memory was refused.
fn joined<S: Store>(
    alloc: Global,
    store: &S,
    first: S::Word,
    second: S::Word,
) -> Result<String, AllocError>
    requires first { Holds (S.present store.now) first }
    requires second { Holds (S.present store.now) second }
    ensures { IfOk result (λ whole. string_bytes whole ≡ text_of (meaning (S.present store.now) first) ++ text_of (meaning (S.present store.now) second)) }
{
    let mut whole = String::from_str(alloc, text_of(store, first))?;
    whole.push_str(text_of(store, second))?;
    Ok(whole)
}

/// The first characters of the text, so many of them. The error is that memory was refused.
fn first_characters(alloc: Global, text: &str, count: usize) -> Result<String, AllocError>
    ensures { IfOk result (λ first. string_bytes first ≡ encode_utf8_all (take count (chars text.now))) }
{
    text.chars().take(count).collect(alloc)
}

/// Whether the third argument unifies with what the first two are joined to. The errors are those of `unify_part`.
fn unify_joined<S: Store>(
    alloc: Global,
    store: &mut S,
    arguments: &[S::Word],
) -> Result<bool, StoreFault>
    requires arguments { All (λ w. Holds (S.present store.old) w) arguments.now }
    requires row { (t : Tree) × AreArguments (S.present store.old) arguments.now t × IsOf t part.Joined }
    ensures unified { (t : Tree) → AreArguments (S.present store.old) arguments.now t → IsOf t part.Joined
        → IfOk result (IsUnification (S.present store.old) (S.present store.new) (goal_arguments t) (part_row t part.Joined)) }
    ensures full { result ≡ Err StoreFault.Full → S.full store.new }
    ensures cells { Takes S.Store store.old store.new 0 }
    ensures rest { Retains S.Store store.old store.new }
{
    let whole = joined(alloc, store, arguments[0], arguments[1])?;
    let row = [Constant::Atom(whole)];
    unify_each(store, &[arguments[2]], &row)
}

/// Whether the first two arguments unify with the parts of the third before the byte at this place and from there on.
/// The errors are those of `unify_part`.
fn unify_split<S: Store>(
    alloc: Global,
    store: &mut S,
    arguments: &[S::Word],
    place: usize,
) -> Result<bool, StoreFault>
    requires arguments { All (λ w. Holds (S.present store.old) w) arguments.now }
    requires row { (t : Tree) × AreArguments (S.present store.old) arguments.now t × IsOf t (part.Split place) }
    ensures unified { (t : Tree) → AreArguments (S.present store.old) arguments.now t → IsOf t (part.Split place)
        → IfOk result (IsUnification (S.present store.old) (S.present store.new) (goal_arguments t) (part_row t (part.Split place))) }
    ensures full { result ≡ Err StoreFault.Full → S.full store.new }
    ensures cells { Takes S.Store store.old store.new 0 }
    ensures rest { Retains S.Store store.old store.new }
{
    let (one, other) = (arguments[0], arguments[1]);
    let (first, second) = text_of(store, arguments[2]).split_at(place);
    if !may_be(store, one, first) || !may_be(store, other, second) {
        return Ok(false);
    }
    let row = [
        Constant::Atom(String::from_str(alloc, first)?),
        Constant::Atom(String::from_str(alloc, second)?),
    ];
    unify_each(store, &[one, other], &row)
}

/// Whether the last four arguments unify with the part of the first, with its place, its length and what stands
/// behind it. The errors are those of `unify_part`.
fn unify_sub<S: Store>(
    alloc: Global,
    store: &mut S,
    arguments: &[S::Word],
    sub: SubAtom,
) -> Result<bool, StoreFault>
    requires arguments { All (λ w. Holds (S.present store.old) w) arguments.now }
    requires row { (t : Tree) × AreArguments (S.present store.old) arguments.now t × IsOf t (part.Sub sub) }
    ensures unified { (t : Tree) → AreArguments (S.present store.old) arguments.now t → IsOf t (part.Sub sub)
        → IfOk result (IsUnification (S.present store.old) (S.present store.new) (goal_arguments t) (part_row t (part.Sub sub))) }
    ensures full { result ≡ Err StoreFault.Full → S.full store.new }
    ensures cells { Takes S.Store store.old store.new 0 }
    ensures rest { Retains S.Store store.old store.new }
{
    let text = text_of(store, arguments[0]);
    let row = [
        Constant::Int(sub.before as i128),
        Constant::Int(sub.length as i128),
        Constant::Int(sub.behind as i128),
        Constant::Atom(first_characters(alloc, &text[sub.start..], sub.length)?),
    ];
    let others = [arguments[1], arguments[2], arguments[3], arguments[4]];
    unify_each(store, &others, &row)
}

/// Whether a goal's arguments unify with the row of this part; then their unifier is bound. The errors: the store is
/// full, or memory was refused.
pub(crate) fn unify_part<S: Store>(
    alloc: Global,
    store: &mut S,
    arguments: &[S::Word],
    part: Part,
) -> Result<bool, StoreFault>
    requires arguments { All (λ w. Holds (S.present store.old) w) arguments.now }
    requires row { (t : Tree) × AreArguments (S.present store.old) arguments.now t × IsOf t part }
    ensures unified { (t : Tree) → AreArguments (S.present store.old) arguments.now t → IsOf t part
        → IfOk result (IsUnification (S.present store.old) (S.present store.new) (goal_arguments t) (part_row t part)) }
    ensures full { result ≡ Err StoreFault.Full → S.full store.new }
    ensures cells { Takes S.Store store.old store.new 0 }
    ensures rest { Retains S.Store store.old store.new }
{
    match part {
        Part::Joined => unify_joined(alloc, store, arguments),
        Part::Split(place) => unify_split(alloc, store, arguments, place),
        Part::Sub(sub) => unify_sub(alloc, store, arguments, sub),
    }
}
