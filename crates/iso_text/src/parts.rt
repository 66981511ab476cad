//! `atom_concat/3` and `sub_atom/5`: the rows that their arguments are unified with, one after another (8.16.2,
//! 8.16.3).
ghost use Rattle.std.specs.Prelude.{◌≡◌, ◌≢◌, ◌<◌, Err, [], ◌∷◌, IfSome, IfNone, length};
ghost use Rattle.std.specs.List.{All};
ghost use Rattle.iso_model.specs.Terms.Trees.{Tree};
ghost use Rattle.iso_model.specs.Search.AtomParts.{parts_settled, part_arity};
ghost use Rattle.iso_store_core.specs.Presents.{Holds, meaning};
ghost use Rattle.iso_store_core.specs.ArgumentWords.{AreArguments};
ghost use Rattle.iso_text.specs.Parts.{IsParted, IsOf, AreOf, longer, part_behind, parts_in};

use super::concat::concat_parts;
use super::sub::sub_parts;
use iso_lib_core::Fault;
use iso_model::AtomPart;
use iso_store_core::Store;
use std::alloc::{AllocError, Global};

/// A part of an atom (8.16.3).
#[derive(Clone, Copy, Debug)]
pub struct SubAtom {
    /// How many characters stand before it.
    pub before: usize,
    /// How many bytes stand before it.
    pub start: usize,
    /// How many characters it has.
    pub length: usize,
    /// How many characters stand behind it.
    pub behind: usize,
}

/// A row that the arguments of a goal are unified with.
#[derive(Clone, Copy, Debug)]
pub enum Part {
    /// The first two arguments, which are atoms, and the atom that they are joined to (8.16.2).
    Joined,
    /// The two parts of the third argument, an atom, before the byte at this place and from there on, and the atom
    /// (8.16.2).
    Split(usize),
    /// The first argument, an atom, and a part of it, with its place, its length, and what stands behind it (8.16.3).
    Sub(SubAtom),
}

/// A part, and so many more at the same place, each of them a character longer than the one before it.
#[derive(Clone, Copy, Debug)]
pub struct Parts {
    pub first: Part,
    pub more: usize,
}

/// The part that begins at the same place and is a character longer.
fn lengthened(part: Part) -> Part
    requires { (t : Tree) × IsOf t part × (0 < part_behind part) }
    ensures { result ≡ longer part }
{
    match part {
        Part::Sub(part) => Part::Sub(SubAtom {
            length: part.length + 1,
            behind: part.behind - 1,
            ..part
        }),
        other => other,
    }
}

/// Takes the row that comes first; `None` where none is left.
pub fn next_part(kept: &mut Vec<Parts>) -> Option<Part>
    requires each { (t : Tree) × All (AreOf t) kept.old.items }
    ensures some { IfSome result (λ p. parts_in kept.old.items ≡ p ∷ parts_in kept.new.items) }
    ensures none { IfNone result ((kept.old.items ≡ []) × (kept.new.items ≡ [])) }
    ensures each { (t : Tree) → All (AreOf t) kept.old.items → All (AreOf t) kept.new.items × IfSome result (IsOf t) }
{
    let Some(last) = kept.last_mut() else {
        return None;
    };
    let first = last.first;
    if last.more > 0 {
        last.first = lengthened(first);
        last.more -= 1;
    } else {
        kept.pop();
    }
    Some(first)
}

/// The rows that the arguments of a goal of this built-in, which has as many arguments, are unified with; the first
/// of them are kept last. The errors: one is raised, or memory was refused. Time and memory are in proportion to the
/// atom's length: of each place where a part begins, one item is kept. Where the part is given too, it is compared at
/// each place, so that the time is in proportion to both lengths at worst.
pub fn parted<S: Store>(
    alloc: Global,
    store: &S,
    built_in: AtomPart,
    arguments: &[S::Word],
) -> Result<Vec<Parts>, Fault>
    requires arguments { All (λ w. Holds (S.present store.now) w) arguments.now }
    requires count { length arguments.now ≡ part_arity built_in }
    ensures parted { (t : Tree) → AreArguments (S.present store.now) arguments.now t
        → IsParted built_in t (parts_settled built_in t) result }
    ensures full { result ≢ Err Fault.Full }
{
    match built_in {
        AtomPart::Concat => concat_parts(alloc, store, arguments),
        AtomPart::Sub => sub_parts(alloc, store, arguments),
    }
}
