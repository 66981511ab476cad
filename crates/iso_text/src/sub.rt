//! The rows of `sub_atom/5` (8.16.3).
ghost use Rattle.std.specs.Prelude.{◌≡◌, ◌≢◌, IfOk, Err, length};
ghost use Rattle.std.specs.List.{All};
ghost use Rattle.iso_model.specs.Terms.Trees.{Name, Tree};
ghost use Rattle.iso_model.specs.Terms.Arguments.{argument};
ghost use Rattle.iso_model.specs.Search.AtomParts.{sub_settled, with_atom, with_count, sub_key};
ghost use Rattle.iso_model.specs.declared.kinds.AtomPart.TheVariants.{Sub};
ghost use Rattle.iso_store_core.specs.Presents.{Holds, meaning};
ghost use Rattle.iso_store_core.specs.ArgumentWords.{AreArguments};
ghost use Rattle.iso_lib_core.specs.Checks.{PassesTo};
ghost use Rattle.iso_text.specs.Parts.{IsParted};
ghost use Rattle.iso_text.specs.Bounds.{text_of, name_of, asked_of};

use super::checks::{asked_count, see_atom};
use super::parts::Parts;
use super::sub_atoms::{Asked, counted, sub_atoms};
use iso_lib_core::{Fault, culprits, errors};
use iso_store_core::{Shape, Store};
use std::alloc::Global;

/// The name of the atom that the word stands for, if it is one.
fn name_of<S: Store>(store: &S, word: S::Word) -> Option<&str>
    requires { Holds (S.present store.now) word }
    ensures { text_of result ≡ name_of (meaning (S.present store.now) word) }
{
    match store.shape(word) {
        Shape::Atom(atom) => Some(store.text(atom)),
        _ => None,
    }
}

/// What the arguments of a goal ask of a part. The errors are those of `sub_parts`.
fn asked_by<S: Store>(alloc: Global, store: &S, arguments: &[S::Word]) -> Result<Asked, Fault>
    requires arguments { All (λ w. Holds (S.present store.now) w) arguments.now }
    requires count { length arguments.now ≡ 5 }
    ensures asked { (t : Tree) → AreArguments (S.present store.now) arguments.now t
        → IfOk result (λ asked. asked ≡ asked_of t) }
    ensures passes { (t : Tree) → AreArguments (S.present store.now) arguments.now t
        → PassesTo (λ goes_on. with_atom (argument 4 t) sub_key
        (with_count (argument 1 t) (with_count (argument 2 t) (with_count (argument 3 t) goes_on)))) (λ asked goes_on. goes_on) result }
    ensures full { result ≢ Err Fault.Full }
{
    let part = arguments[4];
    see_atom(alloc, store, part, "sub_atom", 5)?;
    let before = asked_count(alloc, store, arguments[1])?;
    let length = asked_count(alloc, store, arguments[2])?;
    let behind = asked_count(alloc, store, arguments[3])?;
    let counted = counted(name_of(store, part));
    Ok(Asked {
        before,
        length,
        behind,
        counted,
    })
}

/// What a goal comes to whose first argument is an atom of this text. The errors are those of `sub_parts`.
fn text_parts<S: Store>(
    alloc: Global,
    store: &S,
    arguments: &[S::Word],
    text: &str,
) -> Result<Vec<Parts>, Fault>
    requires arguments { All (λ w. Holds (S.present store.now) w) arguments.now }
    requires count { length arguments.now ≡ 5 }
    requires text { (t : Tree) → AreArguments (S.present store.now) arguments.now t → argument 0 t ≡ Name text.now }
    ensures parted { (t : Tree) → AreArguments (S.present store.now) arguments.now t
        → IsParted Sub t (sub_settled (argument 0 t) (argument 1 t) (argument 2 t) (argument 3 t) (argument 4 t)) result }
    ensures full { result ≢ Err Fault.Full }
{
    let asked = asked_by(alloc, store, arguments)?;
    let part = name_of(store, arguments[4]);
    Ok(sub_atoms(alloc, text, asked, part)?)
}

/// What a goal of `sub_atom/5` comes to; the first of its rows are kept last. The errors: one is raised, or memory
/// was refused.
pub(crate) fn sub_parts<S: Store>(
    alloc: Global,
    store: &S,
    arguments: &[S::Word],
) -> Result<Vec<Parts>, Fault>
    requires arguments { All (λ w. Holds (S.present store.now) w) arguments.now }
    requires count { length arguments.now ≡ 5 }
    ensures parted { (t : Tree) → AreArguments (S.present store.now) arguments.now t
        → IsParted Sub t (sub_settled (argument 0 t) (argument 1 t) (argument 2 t) (argument 3 t) (argument 4 t)) result }
    ensures full { result ≢ Err Fault.Full }
{
    let atom = arguments[0];
    match store.shape(atom) {
        Shape::Var(_) => Err(Fault::Raise(errors::instantiation(alloc, "sub_atom", 5)?)),
        Shape::Atom(name) => text_parts(alloc, store, arguments, store.text(name)),
        Shape::Int(_) | Shape::Compound(_, _) => {
            Err(culprits::wrong_type(alloc, store, "atom", atom, "sub_atom", 5))
        }
    }
}
