//! Indicators of procedures (7.1.6.6), and the goals that name some of them.
ghost use Rattle.std.specs.Prelude.{◌≡◌, ◌<◌, length, map, IfOk};
ghost use Rattle.std.specs.List.{All};
ghost use Rattle.iso_atoms.specs.Texts.{text_at};
ghost use Rattle.iso_model.specs.Search.Errors.{key};
ghost use Rattle.iso_model.specs.Search.Storages as table;
ghost use Rattle.iso_store_core.specs.Presents.{Holds, meaning};
ghost use Rattle.iso_lib.specs.Indicators.{IsIndicated};

use iso_atoms::Atom;
use iso_lib_core::lists::{ListParts, elements, is_nil, pair_named};
use iso_lib_core::{Fault, culprits, errors, is_unbound};
use iso_model::{MAX_ARITY, NoMemory};
use iso_store_core::{Shape, Store};
use std::alloc::Global;

/// A procedure by the atom of its name and its number of arguments.
#[derive(Clone, Copy)]
pub struct Functor {
    pub name: Atom,
    pub arity: usize,
}

/// The number of arguments that an indicator gives, of 0 to 255. The errors: one is raised by this procedure of one
/// argument, or memory was refused.
fn with_arity<S: Store>(
    alloc: Global,
    store: &S,
    name: Atom,
    word: S::Word,
    by: &str,
) -> Result<Functor, Fault>
    requires name { name < length (S.names store.now) }
    requires word { Holds (S.present store.now) word }
    ensures { IsIndicated (S.names store.now) (table.arity_named (text_at (S.names store.now) name) (meaning (S.present store.now) word) (key by.now 1)) result }
{
    let Shape::Int(number) = store.shape(word) else {
        return Err(culprits::wrong_type(alloc, store, "integer", word, by, 1));
    };
    if number < 0 {
        return Err(culprits::out_of_domain(alloc, store, "not_less_than_zero", word, by, 1));
    }
    if number > MAX_ARITY as i128 {
        return Err(Fault::Raise(errors::too_many_arguments(alloc, by, 1)?));
    }
    Ok(Functor {
        name,
        arity: number as usize,
    })
}

/// The procedure of this name and this number of arguments. The errors are those of `indicated`.
fn named_by<S: Store>(
    alloc: Global,
    store: &S,
    name: S::Word,
    arity: S::Word,
    by: &str,
) -> Result<Functor, Fault>
    requires name { Holds (S.present store.now) name }
    requires arity { Holds (S.present store.now) arity }
    ensures { IsIndicated (S.names store.now) (table.parts_named (meaning (S.present store.now) name) (meaning (S.present store.now) arity) (key by.now 1)) result }
{
    if is_unbound(store, name) || is_unbound(store, arity) {
        return Err(Fault::Raise(errors::instantiation(alloc, by, 1)?));
    }
    let Shape::Atom(atom) = store.shape(name) else {
        return Err(culprits::wrong_type(alloc, store, "atom", name, by, 1));
    };
    with_arity(alloc, store, atom, arity, by)
}

/// The procedure that the indicator names. It raises `instantiation_error` where it, its name or its number of
/// arguments is unbound. The other errors: `type_error(predicate_indicator, P)` where it is no pair of these, `type_error(atom, N)`,
/// `type_error(integer, A)`, `domain_error(not_less_than_zero, A)` and `representation_error(max_arity)` above 255,
/// in this order, raised by this procedure of one argument; or memory was refused.
pub fn indicated<S: Store>(
    alloc: Global,
    store: &S,
    word: S::Word,
    by: &str,
) -> Result<Functor, Fault>
    requires word { Holds (S.present store.now) word }
    ensures { IsIndicated (S.names store.now) (table.indicated (meaning (S.present store.now) word) (key by.now 1)) result }
{
    if is_unbound(store, word) {
        return Err(Fault::Raise(errors::instantiation(alloc, by, 1)?));
    }
    let Some((name, arity)) = pair_named(store, word, "/") else {
        return Err(culprits::wrong_type(alloc, store, "predicate_indicator", word, by, 1));
    };
    named_by(alloc, store, name, arity, by)
}

/// Words for the elements of a list; behind those of a partial list one for its variable. Any other term is one part.
/// The error is that memory was refused.
fn listed_parts<S: Store>(alloc: Global, store: &S, word: S::Word) -> Result<Vec<S::Word>, NoMemory>
    requires word { Holds (S.present store.now) word }
    ensures hold { IfOk result (λ ws. All (λ w. Holds (S.present store.now) w) ws.items) }
    ensures parts { IfOk result (λ ws. map (meaning (S.present store.now)) ws.items ≡ table.listed_parts (meaning (S.present store.now) word)) }
{
    let ListParts { mut elements, tail } = elements(alloc, store, word)?;
    if is_nil(store, tail) {
        return Ok(elements);
    }
    if !elements.is_empty() && is_unbound(store, tail) {
        elements.push(tail)?;
        return Ok(elements);
    }
    elements.clear();
    elements.push(word)?;
    Ok(elements)
}

/// Words for the indicators that a goal names, or for what stands in their places: conjunctions are taken apart, and
/// lists in these. The error is that memory was refused.
pub fn declared_parts<S: Store>(
    alloc: Global,
    store: &S,
    word: S::Word,
) -> Result<Vec<S::Word>, NoMemory>
    requires word { Holds (S.present store.now) word }
    ensures hold { IfOk result (λ ws. All (λ w. Holds (S.present store.now) w) ws.items) }
    ensures parts { IfOk result (λ ws. map (meaning (S.present store.now)) ws.items ≡ table.declared_parts (meaning (S.present store.now) word)) }
{
    let mut parts = Vec::new(alloc);
    let mut left = Vec::with_capacity(alloc, 1)?;
    left.push(word)?;
    while let Some(next) = left.pop() {
        if let Some(both) = pair_named(store, next, ",") {
            left.push(both.1)?;
            left.push(both.0)?;
        } else {
            let listed = listed_parts(alloc, store, next)?;
            parts.extend_from_slice(listed.as_slice())?;
        }
    }
    Ok(parts)
}
