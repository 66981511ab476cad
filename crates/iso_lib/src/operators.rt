//! Operators (8.14.3 and 8.14.4).
ghost use Rattle.std.specs.Prelude.{◌≡◌, ◌<◌, ◌||◌, List, ◌∷◌, pos, map, length, IfOk, OnErr};
ghost use Rattle.std.specs.List.{All, list_any};
ghost use Rattle.iso_atoms.specs.Texts.{text_at};
ghost use Rattle.iso_ops.specs.Operators.{asked_op};
ghost use Rattle.iso_ops.specs.Entries.{operator_of};
ghost use Rattle.iso_model.specs.Terms.Trees.{Tree};
ghost use Rattle.iso_model.specs.Terms.Types.{is_variable};
ghost use Rattle.iso_model.specs.Terms.Lists.{elements, tail};
ghost use Rattle.iso_model.specs.Search.Settings as table;
ghost use Rattle.iso_model.specs.Search.Settings.{setting_settled};
ghost use Rattle.iso_model.specs.Search.Worlds.{World};
ghost use Rattle.iso_model.specs.declared.kinds.Setting.TheVariants as row;
ghost use Rattle.iso_store_core.specs.Presents.{Holds, meaning};
ghost use Rattle.iso_store_core.specs.ArgumentWords.{AreArguments};
ghost use Rattle.iso_lib.specs.Settlements.{IsSettled, OnOffers, OffersEach, PassesTo, AreSet, IsSet, offer_tree, with_settings};

use super::settings::{Constant, Offer, Settled};
use iso_atoms::Atom;
use iso_lib_core::lists::{ListParts, elements, is_nil};
use iso_lib_core::{Fault, culprits, errors, has_unbound, is_unbound};
use iso_model::NoMemory;
use iso_ops::{Entry, OpFault, OpTable, Spec};
use iso_store_core::{Shape, Store};
use std::alloc::Global;

/// Whether the priority or the specifier is unbound, or one of the names, or what stands behind them.
fn are_unbound<S: Store>(
    store: &S,
    priority: S::Word,
    specifier: S::Word,
    names: &[S::Word],
    tail: S::Word,
) -> bool
    requires priority { Holds (S.present store.now) priority }
    requires specifier { Holds (S.present store.now) specifier }
    requires names { All (λ w. Holds (S.present store.now) w) names.now }
    requires tail { Holds (S.present store.now) tail }
    ensures { result ≡ (is_variable (meaning (S.present store.now) priority) || (is_variable (meaning (S.present store.now) specifier)
        || (list_any is_variable (map (meaning (S.present store.now)) names.now) || is_variable (meaning (S.present store.now) tail)))) }
{
    is_unbound(store, priority)
        || is_unbound(store, specifier)
        || has_unbound(store, names)
        || is_unbound(store, tail)
}

/// The priority. The errors: one is raised, or memory was refused.
fn asked_priority<S: Store>(alloc: Global, store: &S, word: S::Word) -> Result<u16, Fault>
    requires word { Holds (S.present store.now) word }
    ensures passes { PassesTo (table.with_priority (meaning (S.present store.now) word)) (λ n goes_on. goes_on n) result }
{
    let Shape::Int(number) = store.shape(word) else {
        return Err(culprits::wrong_type(alloc, store, "integer", word, "op", 3));
    };
    if number < 0 || number > 1200 {
        return Err(culprits::out_of_domain(alloc, store, "operator_priority", word, "op", 3));
    }
    Ok(number as u16)
}

/// The specifier, as an atom. The errors: one is raised, or memory was refused.
fn asked_specifier<S: Store>(alloc: Global, store: &S, word: S::Word) -> Result<Atom, Fault>
    requires word { Holds (S.present store.now) word }
    ensures atom { IfOk result (λ a. a < length (S.names store.now)) }
    ensures passes { PassesTo (table.with_specifier (meaning (S.present store.now) word)) (λ a goes_on. goes_on (text_at (S.names store.now) a)) result }
{
    let Shape::Atom(name) = store.shape(word) else {
        return Err(culprits::wrong_type(alloc, store, "atom", word, "op", 3));
    };
    if Spec::named(store.text(name)).is_none() {
        return Err(culprits::out_of_domain(alloc, store, "operator_specifier", word, "op", 3));
    }
    Ok(name)
}

/// Words for the names: an atom alone is one, and a list has some, whose parts these are. The errors: one is raised,
/// or memory was refused.
fn listed_names<S: Store>(
    alloc: Global,
    store: &S,
    word: S::Word,
    parts: ListParts<S::Word>,
) -> Result<Vec<S::Word>, Fault>
    requires word { Holds (S.present store.now) word }
    requires elements_hold { All (λ w. Holds (S.present store.now) w) parts.elements.items }
    requires elements { map (meaning (S.present store.now)) parts.elements.items ≡ elements (meaning (S.present store.now) word) }
    requires tail_holds { Holds (S.present store.now) parts.tail }
    requires tail { meaning (S.present store.now) parts.tail ≡ tail (meaning (S.present store.now) word) }
    ensures hold { IfOk result (λ ws. All (λ w. Holds (S.present store.now) w) ws.items) }
    ensures passes { PassesTo (table.with_listed (meaning (S.present store.now) word) (table.name_list (meaning (S.present store.now) word)))
        (λ ws. table.with_texts (map (meaning (S.present store.now)) ws.items)) result }
{
    if is_nil(store, parts.tail) {
        return Ok(parts.elements);
    }
    if !matches!(store.shape(word), Shape::Atom(_)) {
        return Err(culprits::wrong_type(alloc, store, "list", word, "op", 3));
    }
    let mut words = Vec::with_capacity(alloc, 1)?;
    words.push(word)?;
    Ok(words)
}

/// The atom that the word stands for. The errors: one is raised, or memory was refused.
fn asked_name<S: Store>(alloc: Global, store: &S, word: S::Word) -> Result<Atom, Fault>
    requires word { Holds (S.present store.now) word }
    ensures atom { IfOk result (λ a. a < length (S.names store.now)) }
    ensures passes { (ts : List Tree) → PassesTo (table.with_texts (meaning (S.present store.now) word ∷ ts))
        (λ a goes_on. table.with_texts ts (λ texts. goes_on (text_at (S.names store.now) a ∷ texts))) result }
{
    let Shape::Atom(name) = store.shape(word) else {
        return Err(culprits::wrong_type(alloc, store, "atom", word, "op", 3));
    };
    Ok(name)
}

/// The atoms that the words stand for. The errors: one is raised, or memory was refused.
fn asked_names<S: Store>(alloc: Global, store: &S, words: &[S::Word]) -> Result<Vec<Atom>, Fault>
    requires words { All (λ w. Holds (S.present store.now) w) words.now }
    ensures atoms { IfOk result (λ names. All (λ a. a < length (S.names store.now)) names.items) }
    ensures passes { PassesTo (table.with_texts (map (meaning (S.present store.now)) words.now))
        (λ names goes_on. goes_on (map (text_at (S.names store.now)) names.items)) result }
{
    let mut names = Vec::with_capacity(alloc, words.len())?;
    let mut place = 0;
    while place < words.len() {
        names.push(asked_name(alloc, store, words[place])?)?;
        place += 1;
    }
    Ok(names)
}

/// Sets an operator. The errors: one is raised, or memory was refused.
fn set_name(
    alloc: Global,
    priority: u16,
    specifier: &str,
    name: &str,
    ops: &mut OpTable,
) -> Result<(), Fault>
    ensures { IsSet (λ goes_on. table.set_next goes_on name.now ops.old (asked_op (pos priority) specifier.now name.now ops.old)) ops.new result }
{
    match ops.add_op(priority as i128, specifier, name) {
        Ok(()) => Ok(()),
        Err(OpFault::NoMemory) => Err(Fault::NoMemory),
        Err(_) => {
            let operation = if name == "," { "modify" } else { "create" };
            let culprit = errors::atom(alloc, name)?;
            let ball = errors::not_permitted(alloc, operation, "operator", culprit, "op", 3)?;
            Err(Fault::Raise(ball))
        }
    }
}

/// Sets the names in turn, in a copy that takes the place of the operators at the end. The errors: one is raised, or
/// memory was refused.
fn set_names<S: Store>(
    alloc: Global,
    store: &S,
    priority: u16,
    specifier: Atom,
    names: &[Atom],
    ops: &mut OpTable,
) -> Result<(), Fault>
    requires specifier { specifier < length (S.names store.now) }
    requires names { All (λ a. a < length (S.names store.now)) names.now }
    ensures set { AreSet (table.set_names priority (text_at (S.names store.now) specifier) (map (text_at (S.names store.now)) names.now) ops.old) ops.new result }
    ensures unchanged { OnErr result (ops.new ≡ ops.old) }
{
    let specifier = store.text(specifier);
    let mut copy = ops.copied(alloc)?;
    let mut place = 0;
    while place < names.len() {
        let name = store.text(names[place]);
        set_name(alloc, priority, specifier, name, &mut copy)?;
        place += 1;
    }
    *ops = copy;
    Ok(())
}

/// `op/3` (8.14.3). The errors: one is raised, or memory was refused.
pub(crate) fn op<S: Store>(
    alloc: Global,
    store: &S,
    arguments: &[S::Word],
    ops: &mut OpTable,
) -> Result<Settled, Fault>
    requires arguments { All (λ w. Holds (S.present store.now) w) arguments.now }
    requires count { length arguments.now ≡ 3 }
    ensures settled { (t : Tree) → AreArguments (S.present store.now) arguments.now t
        → (w : World) → IsSettled w ops.new w.flags row.Op t
        (setting_settled row.Op t (with_settings w ops.old w.flags)) result }
    ensures offers { OffersEach 3 result }
    ensures operators { OnErr result (ops.new ≡ ops.old) }
    ensures operators_stay { OnOffers result (ops.new ≡ ops.old) }
{
    let (priority, specifier, names) = (arguments[0], arguments[1], arguments[2]);
    let parts = elements(alloc, store, names)?;
    if are_unbound(
        store,
        priority,
        specifier,
        parts.elements.as_slice(),
        parts.tail,
    ) {
        return Err(Fault::Raise(errors::instantiation(alloc, "op", 3)?));
    }
    let priority = asked_priority(alloc, store, priority)?;
    let specifier = asked_specifier(alloc, store, specifier)?;
    let words = listed_names(alloc, store, names, parts)?;
    let names = asked_names(alloc, store, words.as_slice())?;
    set_names(alloc, store, priority, specifier, names.as_slice(), ops)?;
    Ok(Settled::Done)
}

/// Whether the term that the word stands for may be an operator's priority.
fn may_be_priority<S: Store>(store: &S, word: S::Word) -> bool
    requires { Holds (S.present store.now) word }
    ensures { result ≡ table.may_be_priority (meaning (S.present store.now) word) }
{
    match store.shape(word) {
        Shape::Var(_) => true,
        Shape::Int(number) => 0 <= number && number <= 1200,
        _ => false,
    }
}

/// Whether it may be an operator's specifier.
fn may_be_specifier<S: Store>(store: &S, word: S::Word) -> bool
    requires { Holds (S.present store.now) word }
    ensures { result ≡ table.may_be_specifier (meaning (S.present store.now) word) }
{
    match store.shape(word) {
        Shape::Var(_) => true,
        Shape::Atom(name) => Spec::named(store.text(name)).is_some(),
        _ => false,
    }
}

/// Whether it may be an atom.
pub(crate) fn may_be_atom<S: Store>(store: &S, word: S::Word) -> bool
    requires { Holds (S.present store.now) word }
    ensures { result ≡ table.may_be_atom (meaning (S.present store.now) word) }
{
    matches!(store.shape(word), Shape::Var(_) | Shape::Atom(_))
}

/// An operator's priority, specifier and name as a row. The error is that memory was refused.
fn operator_offer(alloc: Global, entry: &Entry) -> Result<Offer, NoMemory>
    ensures row { IfOk result (λ offer. offer_tree offer ≡ table.operator_row (operator_of entry.now)) }
    ensures length { IfOk result (λ offer. length offer.constants.items ≡ 3) }
{
    let mut constants = Vec::with_capacity(alloc, 3)?;
    constants.push(Constant::Int(entry.priority as i128))?;
    constants.push(Constant::Atom(String::from_str(alloc, entry.spec.text())?))?;
    constants.push(Constant::Atom(String::from_str(alloc, entry.name.as_str())?))?;
    Ok(Offer { constants })
}

/// Each operator as a row. The error is that memory was refused.
fn operator_offers(alloc: Global, ops: &OpTable) -> Result<Vec<Offer>, NoMemory>
    ensures rows { IfOk result (λ offers. map offer_tree offers.items ≡ map table.operator_row ops.now) }
    ensures lengths { IfOk result (λ offers. All (λ offer. length offer.constants.items ≡ 3) offers.items) }
{
    let mut offers = Vec::with_capacity(alloc, ops.len())?;
    for place in 0..ops.len() {
        offers.push(operator_offer(alloc, ops.entry(place))?)?;
    }
    Ok(offers)
}

/// `current_op/3` (8.14.4). The errors: one is raised, or memory was refused.
pub(crate) fn current_op<S: Store>(
    alloc: Global,
    store: &S,
    arguments: &[S::Word],
    ops: &OpTable,
) -> Result<Settled, Fault>
    requires arguments { All (λ w. Holds (S.present store.now) w) arguments.now }
    requires count { length arguments.now ≡ 3 }
    ensures settled { (t : Tree) → AreArguments (S.present store.now) arguments.now t
        → (w : World) → IsSettled w ops.now w.flags row.CurrentOp t
        (setting_settled row.CurrentOp t (with_settings w ops.now w.flags)) result }
    ensures offers { OffersEach 3 result }
{
    let (priority, specifier, name) = (arguments[0], arguments[1], arguments[2]);
    if !may_be_priority(store, priority) {
        return Err(culprits::out_of_domain(
            alloc,
            store,
            "operator_priority",
            priority,
            "current_op",
            3,
        ));
    }
    if !may_be_specifier(store, specifier) {
        return Err(culprits::out_of_domain(
            alloc,
            store,
            "operator_specifier",
            specifier,
            "current_op",
            3,
        ));
    }
    if !may_be_atom(store, name) {
        return Err(culprits::wrong_type(alloc, store, "atom", name, "current_op", 3));
    }
    Ok(Settled::Offers(operator_offers(alloc, ops)?))
}
