//! Expressions whose values are integers of 64 bits, and whose operations stand at most two deep: they need no list.
ghost use Rattle.std.specs.Prelude.{◌≡◌, ◌<◌, Ok, IfSome};
ghost use Rattle.iso_model.specs.Terms.Arguments.{argument, arity};
ghost use Rattle.iso_model.specs.Terms.Trees.{Integer};
ghost use Rattle.iso_model.specs.Search.Arithmetic as expressions;
ghost use Rattle.iso_store_core.specs.Presents.{Holds, meaning};
ghost use Rattle.iso_arith.specs.Operations.{does_unary, does_binary};
ghost use Rattle.iso_arith.specs.Evaluables.{AreEvaluables};
ghost use Rattle.iso_arith.specs.Evaluations.{IsCall};

use super::evaluables::Evaluables;
use super::operations::{Binary, Unary};
use iso_atoms::Atom;
use iso_store_core::{Shape, Store};

/// The value of an operation of one argument; none where it isn't short, or there is none.
#[inline(never)]
fn short_unary(operation: Unary, x: i64) -> Option<i64>
    ensures { IfSome result (λ z. does_unary operation x ≡ Ok z) }
{
    match operation.of(i128::from(x)) {
        Ok(value) => i64::try_from(value).ok(),
        Err(_) => None,
    }
}

/// The value of an operation that is rarer than a sum or a product; none where it isn't short, or there is none.
#[inline(never)]
fn rarer_binary(operation: Binary, x: i64, y: i64) -> Option<i64>
    ensures { IfSome result (λ z. does_binary operation x y ≡ Ok z) }
{
    match operation.of(i128::from(x), i128::from(y)) {
        Ok(value) => i64::try_from(value).ok(),
        Err(_) => None,
    }
}

/// The value of an operation of two arguments; none where it isn't short, or there is none.
#[inline(always)]
fn short_binary(operation: Binary, x: i64, y: i64) -> Option<i64>
    ensures { IfSome result (λ z. does_binary operation x y ≡ Ok z) }
{
    match operation {
        Binary::Add => x.checked_add(y),
        Binary::Subtract => x.checked_sub(y),
        Binary::Multiply => x.checked_mul(y),
        _ => rarer_binary(operation, x, y),
    }
}

/// The integer of 64 bits that is the argument at this place, from 0 on; none where the argument is anything else.
#[inline(never)]
fn short_argument<S: Store>(store: &S, word: S::Word, index: usize) -> Option<i64>
    requires word { Holds (S.present store.now) word }
    requires index { index < arity (meaning (S.present store.now) word) }
    ensures { IfSome result (λ z. argument index (meaning (S.present store.now) word) ≡ Integer z) }
{
    match store.shape(store.arg(word, index)) {
        Shape::Int(value) => i64::try_from(value).ok(),
        _ => None,
    }
}

/// The value of the compound of this name and so many arguments; none where it hasn't two integers as arguments, or
/// where it isn't found here.
#[inline(always)]
fn flat_compound<S: Store>(
    store: &S,
    evaluables: &Evaluables,
    name: Atom,
    count: usize,
    word: S::Word,
) -> Option<i64>
    requires word { Holds (S.present store.now) word }
    requires call { IsCall (S.names store.now) name count (meaning (S.present store.now) word) }
    requires evaluables { AreEvaluables (S.names store.now) evaluables.now }
    ensures { IfSome result (λ z. expressions.value (meaning (S.present store.now) word) ≡ Ok z) }
{
    if count != 2 {
        return None;
    }
    let operation = evaluables.binary(name)?;
    let x = short_argument(store, word, 0)?;
    let y = short_argument(store, word, 1)?;
    short_binary(operation, x, y)
}

/// The value of an integer, or of a compound that has two as arguments; none where it isn't found here.
#[inline(always)]
fn flat_value<S: Store>(store: &S, evaluables: &Evaluables, word: S::Word) -> Option<i64>
    requires word { Holds (S.present store.now) word }
    requires evaluables { AreEvaluables (S.names store.now) evaluables.now }
    ensures { IfSome result (λ z. expressions.value (meaning (S.present store.now) word) ≡ Ok z) }
{
    match store.shape(word) {
        Shape::Int(value) => i64::try_from(value).ok(),
        Shape::Compound(name, count) => flat_compound(store, evaluables, name, count, word),
        _ => None,
    }
}

/// The value of the compound of this name and so many arguments; none where it isn't found here.
#[inline(never)]
fn short_compound<S: Store>(
    store: &S,
    evaluables: &Evaluables,
    name: Atom,
    count: usize,
    word: S::Word,
) -> Option<i64>
    requires word { Holds (S.present store.now) word }
    requires call { IsCall (S.names store.now) name count (meaning (S.present store.now) word) }
    requires evaluables { AreEvaluables (S.names store.now) evaluables.now }
    ensures { IfSome result (λ z. expressions.value (meaning (S.present store.now) word) ≡ Ok z) }
{
    match count {
        2 => {
            let operation = evaluables.binary(name)?;
            let x = flat_value(store, evaluables, store.arg(word, 0))?;
            let y = flat_value(store, evaluables, store.arg(word, 1))?;
            short_binary(operation, x, y)
        }
        1 => {
            let operation = evaluables.unary(name)?;
            let x = flat_value(store, evaluables, store.arg(word, 0))?;
            short_unary(operation, x)
        }
        _ => None,
    }
}

/// The value of the expression that the word stands for; none where it isn't found here.
#[inline(always)]
pub(crate) fn short_eval<S: Store>(store: &S, evaluables: &Evaluables, word: S::Word) -> Option<i64>
    requires word { Holds (S.present store.now) word }
    requires evaluables { AreEvaluables (S.names store.now) evaluables.now }
    ensures { IfSome result (λ z. expressions.value (meaning (S.present store.now) word) ≡ Ok z) }
{
    match store.shape(word) {
        Shape::Int(value) => i64::try_from(value).ok(),
        Shape::Compound(name, count) => short_compound(store, evaluables, name, count, word),
        _ => None,
    }
}
