//! The parts of terms (8.5).
ghost use Rattle.std.specs.Prelude.{◌≡◌, IfOk, OnOk, Err, pos, true, length};
ghost use Rattle.std.specs.List.{All};
ghost use Rattle.iso_model.specs.Terms.Trees.{Tree};
ghost use Rattle.iso_model.specs.Terms.Arguments.{arity, argument};
ghost use Rattle.iso_model.specs.Search.Library.{library_answer, argument_at, argument_of, arg_answer};
ghost use Rattle.iso_model.specs.declared.kinds.Library.TheVariants as row;
ghost use Rattle.iso_store_core.specs.Presents.{Holds, meaning};
ghost use Rattle.iso_store_core.specs.Retaining.{RetainsAll, Takes};
ghost use Rattle.iso_store_core.specs.ArgumentWords.{AreArguments};
ghost use Rattle.iso_lib_core.specs.Cells.{made_for};
ghost use Rattle.iso_lib_core.specs.Replies.{IsReply};

use super::outcomes::{Fault, Reply, tested};
use super::{culprits, errors};
use iso_model::Term;
use iso_store_core::{Shape, Store};
use std::alloc::Global;

/// Unifies the argument at this place of the compound, which has so many, with the other word. The errors are those
/// of `arg`.
fn argument_at<S: Store>(
    alloc: Global,
    store: &mut S,
    place: i128,
    compound: S::Word,
    count: usize,
    other: S::Word,
) -> Result<Reply, Fault>
    requires compound { Holds (S.present store.old) compound }
    requires count { arity (meaning (S.present store.old) compound) ≡ count }
    requires other { Holds (S.present store.old) other }
    ensures replies { IsReply (S.present store.old) (S.present store.new) (argument_at place (meaning (S.present store.old) compound) (meaning (S.present store.old) other)) result }
    ensures full { result ≡ Err Fault.Full → S.full store.new }
    ensures cells { Takes S.Store store.old store.new 0 }
    ensures rest { RetainsAll S.Store store.old store.new }
{
    if place < 0 {
        let culprit = Term::Int(place);
        let ball = errors::out_of_domain(alloc, "not_less_than_zero", culprit, "arg", 3)?;
        return Err(Fault::Raise(ball));
    }
    if place == 0 || place > count as i128 {
        return Ok(Reply::Fail);
    }
    let argument = store.arg(compound, place as usize - 1);
    Ok(tested(store.unify(argument, other)?))
}

/// `arg/3` (8.5.2). The errors: one is raised, the store is full, or memory was refused.
pub fn arg<S: Store>(alloc: Global, store: &mut S, arguments: &[S::Word]) -> Result<Reply, Fault>
    requires arguments { All (λ w. Holds (S.present store.old) w) arguments.now }
    requires count { length arguments.now ≡ 3 }
    ensures replies { (t : Tree) → AreArguments (S.present store.old) arguments.now t
        → IsReply (S.present store.old) (S.present store.new) (library_answer row.Arg t) result }
    ensures full { result ≡ Err Fault.Full → S.full store.new }
    ensures cells { (t : Tree) → AreArguments (S.present store.old) arguments.now t
        → Takes S.Store store.old store.new (made_for (library_answer row.Arg t)) }
    ensures rest { RetainsAll S.Store store.old store.new }
{
    let (place, term, other) = (arguments[0], arguments[1], arguments[2]);
    let (place_shape, term_shape) = (store.shape(place), store.shape(term));
    if matches!(place_shape, Shape::Var(_)) || matches!(term_shape, Shape::Var(_)) {
        return Err(Fault::Raise(errors::instantiation(alloc, "arg", 3)?));
    }
    let Shape::Int(number) = place_shape else {
        return Err(culprits::wrong_type(alloc, store, "integer", place, "arg", 3));
    };
    let Shape::Compound(_, count) = term_shape else {
        return Err(culprits::wrong_type(alloc, store, "compound", term, "arg", 3));
    };
    argument_at(alloc, store, number, term, count, other)
}
