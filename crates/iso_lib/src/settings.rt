//! Built-ins that read or change the operators or the flags (8.14.3, 8.14.4, 8.17.1, 8.17.2), one by one.
ghost use Rattle.std.specs.Prelude.{◌≡◌, OnErr, length};
ghost use Rattle.std.specs.List.{All};
ghost use Rattle.iso_model.specs.Terms.Trees.{Tree};
ghost use Rattle.iso_model.specs.Search.Settings.{setting_settled, setting_arity};
ghost use Rattle.iso_model.specs.Search.Worlds.{World};
ghost use Rattle.iso_store_core.specs.Presents.{Holds, meaning};
ghost use Rattle.iso_store_core.specs.ArgumentWords.{AreArguments};
ghost use Rattle.iso_lib.specs.Settlements.{IsSettled, OnOffers, OffersEach};

use super::flags::{current_flag, set_flag};
use super::operators::{current_op, op};
use iso_lib_core::Fault;
use iso_model::Setting;
use iso_ops::{Flags, OpTable};
use iso_store_core::Store;
use std::alloc::Global;

/// A constant.
#[derive(Debug, Drop)]
pub enum Constant {
    /// An integer.
    Int(i128),
    /// An atom, by its text.
    Atom(String),
}

/// A row of constants, with which the arguments of a goal are unified, the first with the first.
#[derive(Debug, Drop)]
pub struct Offer {
    pub constants: Vec<Constant>,
}

/// What a goal comes to that raises no error.
#[derive(Debug, Drop)]
pub enum Settled {
    /// It succeeds; the operators and the flags are those behind it.
    Done,
    /// Its arguments are unified with each of these rows, which are tried in order.
    Offers(Vec<Offer>),
}

/// What a goal of this row comes to, which has as many arguments. The errors: one is raised, or memory was refused.
/// The operators and the flags are changed where the answer is `Done` alone.
pub fn settle<S: Store>(
    alloc: Global,
    store: &S,
    row: Setting,
    arguments: &[S::Word],
    ops: &mut OpTable,
    flags: &mut Flags,
) -> Result<Settled, Fault>
    requires arguments { All (λ w. Holds (S.present store.now) w) arguments.now }
    requires count { length arguments.now ≡ setting_arity row }
    ensures settled { (t : Tree) → AreArguments (S.present store.now) arguments.now t
        → (w : World) → w.operators ≡ ops.old → w.flags ≡ flags.old
        → IsSettled w ops.new flags.new row t (setting_settled row t w) result }
    ensures offers { OffersEach (setting_arity row) result }
    ensures operators { OnErr result (ops.new ≡ ops.old) }
    ensures flags { OnErr result (flags.new ≡ flags.old) }
    ensures operators_stay { OnOffers result (ops.new ≡ ops.old) }
    ensures flags_stay { OnOffers result (flags.new ≡ flags.old) }
{
    match row {
        Setting::Op => op(alloc, store, arguments, ops),
        Setting::CurrentOp => current_op(alloc, store, arguments, ops),
        Setting::SetFlag => set_flag(alloc, store, arguments, flags),
        Setting::CurrentFlag => current_flag(alloc, store, arguments, flags),
    }
}
