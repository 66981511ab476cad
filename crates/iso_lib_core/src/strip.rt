//! Goals of bagof/3 and setof/3: what is left of them behind each `V^`, and their free variables (7.1.1.4, 8.10.2).
ghost use Rattle.std.specs.Prelude.{◌≡◌, ◌++◌, ◌∷◌, [], not, map, IfOk, OnOk};
ghost use Rattle.std.specs.List.{All, filter};
ghost use Rattle.iso_model.specs.Terms.Trees.{Variable};
ghost use Rattle.iso_model.specs.Terms.Variables.{is_in, distinct_from, variables};
ghost use Rattle.iso_model.specs.Search.Groups.{stripped, bound_terms, free_variables};
ghost use Rattle.iso_store_core.specs.Presents.{Holds, meaning};
ghost use Rattle.iso_lib_core.specs.Stripping.{is_free, with_variable};

use super::lists::pair_named;
use iso_model::{NoMemory, Numbering};
use iso_store_core::{Shape, Store};
use std::alloc::Global;

/// Adds what the word stands for, where that is a variable. The error is that memory was refused.
fn note_variable<S: Store>(store: &S, word: S::Word, bound: &mut Numbering) -> Result<(), NoMemory>
    requires word { Holds (S.present store.now) word }
    ensures numbers { OnOk result (bound.new ≡ with_variable bound.old (meaning (S.present store.now) word)) }
{
    match store.shape(word) {
        Shape::Var(number) => {
            bound.note(number)?;
            Ok(())
        }
        _ => Ok(()),
    }
}

/// Adds the variables of the term that the word stands for. Goes once through the cells of the term, also where its
/// parts are shared. The error is that memory was refused.
fn note<S: Store>(store: &S, word: S::Word, bound: &mut Numbering) -> Result<(), NoMemory>
    requires word { Holds (S.present store.now) word }
    ensures numbers { OnOk result (bound.new ≡ distinct_from bound.old (meaning (S.present store.now) word)) }
{
    let variables = store.variables(word)?;
    for variable in variables.as_slice() {
        note_variable(store, *variable, bound)?;
    }
    Ok(())
}

/// What is left of the goal behind each `V^` that it begins with; the variables of each V come to those that are bound.
/// The error is that memory was refused.
fn strip_bound<S: Store>(
    store: &S,
    goal: S::Word,
    bound: &mut Numbering,
) -> Result<S::Word, NoMemory>
    requires goal { Holds (S.present store.now) goal }
    ensures holds { IfOk result (λ w. Holds (S.present store.now) w) }
    ensures goal { IfOk result (λ w. meaning (S.present store.now) w ≡ stripped (meaning (S.present store.now) goal)) }
    ensures bound { OnOk result (bound.new ≡ distinct_from bound.old (bound_terms (meaning (S.present store.now) goal))) }
{
    let mut rest = goal;
    while let Some((term, next)) = pair_named(store, rest, "^") {
        note(store, term, bound)?;
        rest = next;
    }
    Ok(rest)
}

/// Whether the word stands for a variable that is none of these.
fn is_free<S: Store>(store: &S, word: S::Word, bound: &Numbering) -> bool
    requires word { Holds (S.present store.now) word }
    ensures { result ≡ is_free bound.now (meaning (S.present store.now) word) }
{
    match store.shape(word) {
        Shape::Var(number) => bound.place(number).is_none(),
        _ => false,
    }
}

/// Adds the word where it stands for a variable that is none of the bound ones. The error is that memory was refused.
fn push_free<S: Store>(
    store: &S,
    word: S::Word,
    bound: &Numbering,
    free: &mut Vec<S::Word>,
) -> Result<(), NoMemory>
    requires word { Holds (S.present store.now) word }
    requires hold { All (λ w. Holds (S.present store.now) w) free.old.items }
    ensures hold { OnOk result (All (λ w. Holds (S.present store.now) w) free.new.items) }
    ensures free { OnOk result (map (meaning (S.present store.now)) free.new.items
        ≡ map (meaning (S.present store.now)) free.old.items
        ++ filter (is_free bound.now) (meaning (S.present store.now) word ∷ [])) }
{
    if is_free(store, word, bound) {
        free.push(word)?;
    }
    Ok(())
}

/// Words for the variables of the term that are none of these, by first occurrence. The error is that memory was
/// refused.
fn free<S: Store>(
    alloc: Global,
    store: &S,
    word: S::Word,
    bound: &Numbering,
) -> Result<Vec<S::Word>, NoMemory>
    requires word { Holds (S.present store.now) word }
    ensures hold { IfOk result (λ ws. All (λ w. Holds (S.present store.now) w) ws.items) }
    ensures free { IfOk result (λ ws. map (meaning (S.present store.now)) ws.items
        ≡ map Variable (filter (λ x. not (is_in x bound.now)) (variables (meaning (S.present store.now) word)))) }
{
    let variables = store.variables(word)?;
    let mut free = Vec::new(alloc);
    for variable in variables.as_slice() {
        push_free(store, *variable, bound, &mut free)?;
    }
    Ok(free)
}

/// What is left of the goal behind each `V^` that it begins with, and words for its variables that stand neither in
/// the template nor in such a V, by first occurrence (8.10.2). The error is that memory was refused.
pub fn strip<S: Store>(
    alloc: Global,
    store: &S,
    template: S::Word,
    goal: S::Word,
) -> Result<(S::Word, Vec<S::Word>), NoMemory>
    requires template { Holds (S.present store.now) template }
    requires goal { Holds (S.present store.now) goal }
    ensures holds { IfOk result (λ r. Holds (S.present store.now) r.0) }
    ensures goal { IfOk result (λ r. meaning (S.present store.now) r.0 ≡ stripped (meaning (S.present store.now) goal)) }
    ensures hold { IfOk result (λ r. All (λ w. Holds (S.present store.now) w) r.1.items) }
    ensures free { IfOk result (λ r. map (meaning (S.present store.now)) r.1.items
        ≡ map Variable (free_variables (meaning (S.present store.now) template) (meaning (S.present store.now) goal))) }
{
    let mut bound = Numbering::new(alloc);
    note(store, template, &mut bound)?;
    let stripped = strip_bound(store, goal, &mut bound)?;
    let free = free(alloc, store, stripped, &bound)?;
    Ok((stripped, free))
}
