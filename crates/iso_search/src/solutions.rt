//! Solutions of a findall/3 that have no variables: they are kept as they are, and a list of constants is made in the
//! store at once (8.10.1).
ghost use Rattle.std.specs.Prelude.{◌≡◌, ◌<◌, ◌^◌, [], true, IfOk, OnOk, OnErr, Err, map};
ghost use Rattle.std.specs.List.{All};
ghost use Rattle.std.specs.Global.{Global};
ghost use Rattle.iso_model.specs.Terms.Lists.{list_of};
ghost use Rattle.iso_model.specs.Terms.Sizes.{size};
ghost use Rattle.iso_model.specs.Terms.TermOf.{term_of};
ghost use Rattle.iso_model.specs.Terms.Trees.{arities_fit};
ghost use Rattle.iso_model.specs.Terms.Variables.{variables};
ghost use Rattle.iso_store_core.specs.Presents.{Holds, meaning, KeepsNumbers, KeepsWords};
ghost use Rattle.iso_store_core.specs.Retaining.{Retains, Takes};
ghost use Rattle.iso_lib_core.specs.Lists.{Comes};
ghost use Rattle.iso_lib_core.specs.Replies.{MeetsCopy};
ghost use Rattle.iso_search_core.specs.Gathering.{ChangesAt, SameCopies};
ghost use Rattle.iso_search_core.specs.Solutions.{Gains, GainsCopy, KeepsCopies, copies_of};
ghost use Rattle.iso_search.specs.Constants.{is_constant};

use iso_lib::lists::make_list;
use iso_lib::unify_copy;
use iso_model::{NoMemory, Numbering, Term};
use iso_search_core::choices::{Choice, Left, gather};
use iso_search_core::solutions::Gathered;
use iso_store_core::{Store, StoreFault};
use std::alloc::Global;

/// Whether it was seen that no variable occurs in the term.
fn is_ground(alloc: Global, term: &Term) -> bool
    ensures { result ≡ true → variables (term_of term.now) ≡ [] }
{
    match term {
        Term::Int(_) | Term::Atom(_) => true,
        Term::Var(_) => false,
        Term::Compound(_, _) => {
            let mut variables = Numbering::new(alloc);
            match variables.note_all(alloc, term) {
                Ok(()) => variables.len() == 0,
                Err(_) => false,
            }
        }
    }
}

/// Adds a solution that has no variable. The error is that memory was refused; nothing changed then.
fn add_ground(gathered: &mut Gathered, solution: Term) -> Result<(), NoMemory>
    requires { variables (term_of solution) ≡ [] }
    ensures gains { OnOk result (GainsCopy (term_of solution) gathered.old gathered.new) }
    ensures kept { OnErr result (KeepsCopies gathered.old gathered.new) }
{
    gathered.copies.push(solution)?;
    Ok(())
}

/// The same as `gather`, for a solution that has no variable.
fn keep_ground<W, M, K, P, C>(
    alloc: Global,
    choices: &mut Vec<Choice<W, M, K, P, C>>,
    place: usize,
    solution: Term,
) -> Result<(), NoMemory>
    requires { variables (term_of solution) ≡ [] }
    ensures gains { OnOk result (ChangesAt (Gains (term_of solution)) place choices.old.items choices.new.items) }
    ensures kept { OnErr result (ChangesAt SameCopies place choices.old.items choices.new.items) }
{
    if place >= choices.len() {
        return Ok(());
    }
    match &mut choices[place].left {
        Left::Gathering(_, gathered) => add_ground(gathered, solution),
        Left::Grouping(_, pairs) => pairs.add(alloc, &solution),
        _ => Ok(()),
    }
}

/// Adds a copy of the solution to what is gathered at the choice at this place, as `gather` does. The error is that
/// memory was refused.
pub(crate) fn gather_solution<W, M, K, P, C>(
    alloc: Global,
    choices: &mut Vec<Choice<W, M, K, P, C>>,
    place: usize,
    solution: Term,
) -> Result<(), NoMemory>
    ensures gains { OnOk result (ChangesAt (Gains (term_of solution)) place choices.old.items choices.new.items) }
    ensures kept { OnErr result (ChangesAt SameCopies place choices.old.items choices.new.items) }
{
    if is_ground(alloc, &solution) {
        return keep_ground(alloc, choices, place, solution);
    }
    gather(alloc, choices, place, &solution)
}

/// Whether the term is an atom or an integer of 64 bits.
fn is_constant(term: &Term) -> bool
    ensures { result ≡ is_constant (term_of term.now) }
{
    match term {
        Term::Int(value) => *value >= -(1 << 63) && *value < 1 << 63,
        Term::Atom(_) => true,
        Term::Var(_) | Term::Compound(_, _) => false,
    }
}

/// Whether all of the terms are.
fn are_constants(terms: &[Term]) -> bool
    ensures { result ≡ true → All (λ t. is_constant (term_of t) ≡ true) terms.now }
{
    for term in terms {
        if !is_constant(term) {
            return false;
        }
    }
    true
}

/// A word for the constant. The errors: the store is full, or memory was refused.
fn make<S: Store>(store: &mut S, constant: &Term) -> Result<S::Word, StoreFault>
    requires { is_constant (term_of constant.now) ≡ true }
    ensures made { IfOk result (λ w. Comes (S.present store.old) (S.present store.new) w (term_of constant.now)) }
    ensures numbers { OnOk result (KeepsNumbers (S.present store.old) (S.present store.new)) }
    ensures full { result ≡ Err StoreFault.Full → S.full store.new }
    ensures cells { Takes S.Store store.old store.new 0 }
    ensures rest { Retains S.Store store.old store.new }
{
    match constant {
        Term::Int(value) => store.int(*value),
        Term::Atom(name) => {
            let atom = store.intern(name.as_str())?;
            store.atom(atom)
        }
        Term::Var(_) | Term::Compound(_, _) => unreachable!(),
    }
}

/// Words for the constants. The errors: the store is full, or memory was refused.
fn make_all<S: Store>(
    alloc: Global,
    store: &mut S,
    constants: &[Term],
) -> Result<Vec<S::Word>, StoreFault>
    requires { All (λ t. is_constant (term_of t) ≡ true) constants.now }
    ensures words { OnOk result (KeepsWords (S.present store.old) (S.present store.new)) }
    ensures substitution { OnOk result ((S.present store.new).substitution ≡ (S.present store.old).substitution) }
    ensures numbers { OnOk result (KeepsNumbers (S.present store.old) (S.present store.new)) }
    ensures hold { IfOk result (λ ws. All (λ w. Holds (S.present store.new) w) ws.items) }
    ensures values { IfOk result (λ ws. map (meaning (S.present store.new)) ws.items ≡ map term_of constants.now) }
    ensures full { result ≡ Err StoreFault.Full → S.full store.new }
    ensures cells { Takes S.Store store.old store.new 0 }
    ensures rest { Retains S.Store store.old store.new }
{
    let mut words = Vec::with_capacity(alloc, constants.len())?;
    for constant in constants {
        let word = make(store, constant)?;
        words.push(word)?;
    }
    Ok(words)
}

/// Whether the term that the word stands for unifies with the list of the constants; then their unifier is bound. The
/// errors: the store is full, or memory was refused.
fn unify_constants<S: Store>(
    alloc: Global,
    store: &mut S,
    word: S::Word,
    constants: &[Term],
) -> Result<bool, StoreFault>
    requires word { Holds (S.present store.old) word }
    requires constants { All (λ t. is_constant (term_of t) ≡ true) constants.now }
    ensures unified { IfOk result (MeetsCopy (S.present store.old) (S.present store.new) (meaning (S.present store.old) word)
        (list_of (map term_of constants.now))) }
    ensures full { result ≡ Err StoreFault.Full → S.full store.new }
    ensures cells { Takes S.Store store.old store.new (size (list_of (map term_of constants.now))) }
    ensures rest { Retains S.Store store.old store.new }
{
    let words = make_all(alloc, store, constants)?;
    let list = make_list(alloc, store, words.as_slice())?;
    store.unify(word, list)
}

/// Whether the term that the word stands for unifies with the list of what was gathered, which has new variables; then
/// their unifier is bound. The errors: the store is full, or memory was refused, as it is for a list of more than
/// 536,870,912 variables.
pub(crate) fn unify_gathered<S: Store>(
    alloc: Global,
    store: &mut S,
    word: S::Word,
    gathered: Gathered,
) -> Result<bool, StoreFault>
    requires word { Holds (S.present store.old) word }
    requires next { (S.present store.old).next < 2 ^ 63 }
    requires fits { arities_fit (list_of (copies_of gathered)) ≡ true }
    ensures unified { IfOk result (MeetsCopy (S.present store.old) (S.present store.new) (meaning (S.present store.old) word)
        (list_of (copies_of gathered))) }
    ensures full { result ≡ Err StoreFault.Full → S.full store.new }
    ensures cells { Takes S.Store store.old store.new (size (list_of (copies_of gathered))) }
    ensures rest { Retains S.Store store.old store.new }
{
    if are_constants(gathered.copies.as_slice()) {
        return unify_constants(alloc, store, word, gathered.copies.as_slice());
    }
    let list = gathered.into_list(alloc)?;
    unify_copy(alloc, store, word, &list)
}
