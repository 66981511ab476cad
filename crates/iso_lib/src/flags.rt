//! Flags (8.17.1 and 8.17.2).
ghost use Rattle.std.specs.Prelude.{◌≡◌, length, map, false, true, IfOk, OnErr, MatchOption, codes};
ghost use Rattle.std.specs.List.{All};
ghost use Rattle.iso_ops.specs.Settings.{flag_entries, entry_of_flag};
ghost use Rattle.iso_model.specs.Terms.Trees.{Name, arities_fit, Tree};
ghost use Rattle.iso_model.specs.Terms.TermOf.{term_of};
ghost use Rattle.iso_model.specs.Search.Bodies.{two};
ghost use Rattle.iso_model.specs.Search.Errors.{domain_error, not_permitted};
ghost use Rattle.iso_model.specs.Search.Settings.{setting_settled, named_flag_settled, flags_with, is_settable, may_be_flag, flag_row, set_flag_key};
ghost use Rattle.iso_model.specs.Search.Worlds.{World};
ghost use Rattle.iso_model.specs.declared.kinds.Setting.TheVariants as row;
ghost use Rattle.iso_store_core.specs.Presents.{Holds, meaning};
ghost use Rattle.iso_store_core.specs.ArgumentWords.{AreArguments};
ghost use Rattle.iso_lib_core.specs.Replies.{IsError};
ghost use Rattle.iso_lib.specs.Settlements.{IsSettled, OnOffers, OffersEach, offer_tree, with_settings};

use super::operators::may_be_atom;
use super::settings::{Constant, Offer, Settled};
use iso_lib_core::{Fault, culprits, errors, is_unbound};
use iso_model::{Ball, NoMemory, Term};
use iso_ops::{FlagValue, Flags};
use iso_store_core::{Shape, Store};
use std::alloc::{AllocError, Global};

/// Whether a flag of this name can be set.
fn is_settable(name: &str) -> bool
    ensures { result ≡ is_settable name.now }
{
    name == "double_quotes" || name == "unknown"
}

/// Sets the flag of this name, where it can have the value that the word stands for. The answer is false, and nothing
/// changes, where it can't.
fn set_value<S: Store>(store: &S, name: &str, value: S::Word, flags: &mut Flags) -> bool
    requires value { Holds (S.present store.now) value }
    ensures set { MatchOption (flags_with name.now (meaning (S.present store.now) value) flags.old) (flags.new ≡ flags.old) (λ set. flags.new ≡ set) }
    ensures answer { MatchOption (flags_with name.now (meaning (S.present store.now) value) flags.old) (result ≡ false) (λ _. result ≡ true) }
{
    let Shape::Atom(text) = store.shape(value) else {
        return false;
    };
    flags.set(name, store.text(text))
}

/// `domain_error(prolog_flag, Flag)`, raised by `set_prolog_flag/2`.
fn no_flag(alloc: Global, name: &str) -> Result<Ball, AllocError>
    ensures { IfOk result (IsError (domain_error (codes "prolog_flag") (Name name.now) set_flag_key)) }
{
    let culprit = errors::atom(alloc, name)?;
    errors::out_of_domain(alloc, "prolog_flag", culprit, "set_prolog_flag", 2)
}

/// `permission_error(modify, flag, Flag)`, raised by `set_prolog_flag/2`.
fn not_settable(alloc: Global, name: &str) -> Result<Ball, AllocError>
    ensures { IfOk result (IsError (not_permitted (codes "modify") (codes "flag") (Name name.now) set_flag_key)) }
{
    let culprit = errors::atom(alloc, name)?;
    errors::not_permitted(alloc, "modify", "flag", culprit, "set_prolog_flag", 2)
}

/// `domain_error(flag_value, Flag + Value)`, raised by `set_prolog_flag/2`.
fn no_value(alloc: Global, name: &str, value: Term) -> Result<Ball, AllocError>
    requires { arities_fit (term_of value) ≡ true }
    ensures { IfOk result (IsError (domain_error (codes "flag_value") (two (codes "+") (Name name.now) (term_of value)) set_flag_key)) }
{
    let flag = errors::atom(alloc, name)?;
    let culprit = errors::compound2(alloc, "+", flag, value)?;
    errors::out_of_domain(alloc, "flag_value", culprit, "set_prolog_flag", 2)
}

/// `set_prolog_flag/2` for a flag of this name. The errors: one is raised, or memory was refused.
fn set_named<S: Store>(
    alloc: Global,
    store: &S,
    name: &str,
    value: S::Word,
    flags: &mut Flags,
) -> Result<Settled, Fault>
    requires value { Holds (S.present store.now) value }
    ensures settled { (t : Tree) (w : World) → IsSettled w w.operators flags.new row.SetFlag t
        (named_flag_settled name.now (meaning (S.present store.now) value) (with_settings w w.operators flags.old)) result }
    ensures offers { OffersEach 2 result }
    ensures flags { OnErr result (flags.new ≡ flags.old) }
    ensures flags_stay { OnOffers result (flags.new ≡ flags.old) }
{
    if flags.get(name).is_none() {
        return Err(Fault::Raise(no_flag(alloc, name)?));
    }
    if !is_settable(name) {
        return Err(Fault::Raise(not_settable(alloc, name)?));
    }
    if !set_value(store, name, value, flags) {
        let value = store.copy_out(value)?;
        return Err(Fault::Raise(no_value(alloc, name, value)?));
    }
    Ok(Settled::Done)
}

/// `set_prolog_flag/2` (8.17.1). The errors: one is raised, or memory was refused.
pub(crate) fn set_flag<S: Store>(
    alloc: Global,
    store: &S,
    arguments: &[S::Word],
    flags: &mut Flags,
) -> Result<Settled, Fault>
    requires arguments { All (λ w. Holds (S.present store.now) w) arguments.now }
    requires count { length arguments.now ≡ 2 }
    ensures settled { (t : Tree) → AreArguments (S.present store.now) arguments.now t
        → (w : World) → IsSettled w w.operators flags.new row.SetFlag t
        (setting_settled row.SetFlag t (with_settings w w.operators flags.old)) result }
    ensures offers { OffersEach 2 result }
    ensures flags { OnErr result (flags.new ≡ flags.old) }
    ensures flags_stay { OnOffers result (flags.new ≡ flags.old) }
{
    let (flag, value) = (arguments[0], arguments[1]);
    if is_unbound(store, flag) || is_unbound(store, value) {
        let ball = errors::instantiation(alloc, "set_prolog_flag", 2)?;
        return Err(Fault::Raise(ball));
    }
    let Shape::Atom(name) = store.shape(flag) else {
        return Err(culprits::wrong_type(alloc, store, "atom", flag, "set_prolog_flag", 2));
    };
    set_named(alloc, store, store.text(name), value, flags)
}

/// A flag and its value as a row. The error is that memory was refused.
fn flag_offer(alloc: Global, flag: &(&str, FlagValue)) -> Result<Offer, NoMemory>
    ensures row { IfOk result (λ offer. offer_tree offer ≡ flag_row (entry_of_flag flag.now)) }
    ensures length { IfOk result (λ offer. length offer.constants.items ≡ 2) }
{
    let mut constants = Vec::with_capacity(alloc, 2)?;
    constants.push(Constant::Atom(String::from_str(alloc, flag.0)?))?;
    let value = match flag.1 {
        FlagValue::Int(value) => Constant::Int(value),
        FlagValue::Word(text) => Constant::Atom(String::from_str(alloc, text)?),
    };
    constants.push(value)?;
    Ok(Offer { constants })
}

/// Each flag with its value as a row. The error is that memory was refused.
fn flag_offers(alloc: Global, flags: &Flags) -> Result<Vec<Offer>, NoMemory>
    ensures rows { IfOk result (λ offers. map offer_tree offers.items ≡ map flag_row (flag_entries flags.now)) }
    ensures lengths { IfOk result (λ offers. All (λ offer. length offer.constants.items ≡ 2) offers.items) }
{
    let entries = flags.entries();
    let mut offers = Vec::with_capacity(alloc, entries.len())?;
    for flag in &entries {
        offers.push(flag_offer(alloc, flag)?)?;
    }
    Ok(offers)
}

/// Whether the term that the word stands for, a variable or an atom, may name a flag.
fn may_be_flag<S: Store>(store: &S, word: S::Word, flags: &Flags) -> bool
    requires { Holds (S.present store.now) word }
    ensures { result ≡ may_be_flag (meaning (S.present store.now) word) flags.now }
{
    match store.shape(word) {
        Shape::Atom(name) => flags.get(store.text(name)).is_some(),
        _ => true,
    }
}

/// `current_prolog_flag/2` (8.17.2). The errors: one is raised, or memory was refused.
pub(crate) fn current_flag<S: Store>(
    alloc: Global,
    store: &S,
    arguments: &[S::Word],
    flags: &Flags,
) -> Result<Settled, Fault>
    requires arguments { All (λ w. Holds (S.present store.now) w) arguments.now }
    requires count { length arguments.now ≡ 2 }
    ensures settled { (t : Tree) → AreArguments (S.present store.now) arguments.now t
        → (w : World) → IsSettled w w.operators flags.now row.CurrentFlag t
        (setting_settled row.CurrentFlag t (with_settings w w.operators flags.now)) result }
    ensures offers { OffersEach 2 result }
{
    let flag = arguments[0];
    if !may_be_atom(store, flag) {
        return Err(culprits::wrong_type(alloc, store, "atom", flag, "current_prolog_flag", 2));
    }
    if !may_be_flag(store, flag, flags) {
        return Err(culprits::out_of_domain(
            alloc,
            store,
            "prolog_flag",
            flag,
            "current_prolog_flag",
            2,
        ));
    }
    Ok(Settled::Offers(flag_offers(alloc, flags)?))
}
