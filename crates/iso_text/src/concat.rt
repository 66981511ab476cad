//! The rows of `atom_concat/3` (8.16.2).
ghost use Rattle.std.specs.Prelude.{◌≡◌, ◌≢◌, ◌&&◌, ◌||◌, [], ◌∷◌, IfOk, Err, length};
ghost use Rattle.std.specs.List.{All};
ghost use Rattle.iso_model.specs.Terms.Trees.{Tree};
ghost use Rattle.iso_model.specs.Terms.Arguments.{argument};
ghost use Rattle.iso_model.specs.Terms.Types.{is_atom, is_variable};
ghost use Rattle.iso_model.specs.Search.AtomParts.{concat_settled, joined, taken_apart};
ghost use Rattle.iso_model.specs.declared.kinds.AtomPart.TheVariants.{Concat};
ghost use Rattle.iso_store_core.specs.Presents.{Holds, meaning};
ghost use Rattle.iso_store_core.specs.ArgumentWords.{AreArguments};
ghost use Rattle.iso_text.specs.Parts.{IsParted};
ghost use Rattle.iso_text.specs.declared.parts.Part.TheVariants as part;

use super::checks::see_atom;
use super::parts::{Part, Parts};
use super::splits::splits;
use iso_lib_core::{Fault, errors, is_unbound};
use iso_store_core::{Shape, Store};
use std::alloc::{AllocError, Global};

/// Whether the term that the word stands for is an atom.
fn is_atom<S: Store>(store: &S, word: S::Word) -> bool
    requires { Holds (S.present store.now) word }
    ensures { result ≡ is_atom (meaning (S.present store.now) word) }
{
    matches!(store.shape(word), Shape::Atom(_))
}

/// Whether both are atoms.
fn are_atoms<S: Store>(store: &S, first: S::Word, second: S::Word) -> bool
    requires first { Holds (S.present store.now) first }
    requires second { Holds (S.present store.now) second }
    ensures { result ≡ (is_atom (meaning (S.present store.now) first) && is_atom (meaning (S.present store.now) second)) }
{
    is_atom(store, first) && is_atom(store, second)
}

/// Whether too few of them are bound (8.16.2 a, b).
fn are_too_few<S: Store>(store: &S, first: S::Word, second: S::Word, whole: S::Word) -> bool
    requires first { Holds (S.present store.now) first }
    requires second { Holds (S.present store.now) second }
    requires whole { Holds (S.present store.now) whole }
    ensures { result ≡ (is_variable (meaning (S.present store.now) whole) && (is_variable (meaning (S.present store.now) first) || is_variable (meaning (S.present store.now) second))) }
{
    is_unbound(store, whole) && (is_unbound(store, first) || is_unbound(store, second))
}

/// The row in which the first two arguments are joined. The error is that memory was refused.
fn joined_once(alloc: Global) -> Result<Vec<Parts>, AllocError>
    ensures { IfOk result (λ kept. kept.items ≡ record { first = part.Joined; more = 0 } ∷ []) }
{
    let mut kept = Vec::with_capacity(alloc, 1)?;
    kept.push(Parts {
        first: Part::Joined,
        more: 0,
    })?;
    Ok(kept)
}

/// The rows in which the third argument is taken apart. The errors are those of `concat_parts`.
fn taken_apart<S: Store>(
    alloc: Global,
    store: &S,
    arguments: &[S::Word],
) -> Result<Vec<Parts>, Fault>
    requires arguments { All (λ w. Holds (S.present store.now) w) arguments.now }
    requires count { length arguments.now ≡ 3 }
    ensures parted { (t : Tree) → AreArguments (S.present store.now) arguments.now t
        → IsParted Concat t (taken_apart (argument 0 t) (argument 1 t) (argument 2 t)) result }
    ensures full { result ≢ Err Fault.Full }
{
    let whole = arguments[2];
    match store.shape(whole) {
        Shape::Atom(name) => Ok(splits(alloc, store.text(name))?),
        _ => Err(Fault::Raise(errors::instantiation(alloc, "atom_concat", 3)?)),
    }
}

/// What a goal of `atom_concat/3` comes to, whose arguments are unbound or atoms. The errors are those of
/// `concat_parts`.
fn joined_parts<S: Store>(
    alloc: Global,
    store: &S,
    arguments: &[S::Word],
) -> Result<Vec<Parts>, Fault>
    requires arguments { All (λ w. Holds (S.present store.now) w) arguments.now }
    requires count { length arguments.now ≡ 3 }
    ensures parted { (t : Tree) → AreArguments (S.present store.now) arguments.now t
        → IsParted Concat t (joined (argument 0 t) (argument 1 t) (argument 2 t)) result }
    ensures full { result ≢ Err Fault.Full }
{
    let (first, second) = (arguments[0], arguments[1]);
    if are_atoms(store, first, second) {
        return Ok(joined_once(alloc)?);
    }
    taken_apart(alloc, store, arguments)
}

/// What a goal of `atom_concat/3` comes to; the first of its rows are kept last. The errors: one is raised, or memory
/// was refused.
pub(crate) fn concat_parts<S: Store>(
    alloc: Global,
    store: &S,
    arguments: &[S::Word],
) -> Result<Vec<Parts>, Fault>
    requires arguments { All (λ w. Holds (S.present store.now) w) arguments.now }
    requires count { length arguments.now ≡ 3 }
    ensures parted { (t : Tree) → AreArguments (S.present store.now) arguments.now t
        → IsParted Concat t (concat_settled (argument 0 t) (argument 1 t) (argument 2 t)) result }
    ensures full { result ≢ Err Fault.Full }
{
    let (first, second, whole) = (arguments[0], arguments[1], arguments[2]);
    if are_too_few(store, first, second, whole) {
        return Err(Fault::Raise(errors::instantiation(alloc, "atom_concat", 3)?));
    }
    see_atom(alloc, store, first, "atom_concat", 3)?;
    see_atom(alloc, store, second, "atom_concat", 3)?;
    see_atom(alloc, store, whole, "atom_concat", 3)?;
    joined_parts(alloc, store, arguments)
}
