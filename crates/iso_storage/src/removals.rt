//! `retractall/1` and `abolish/1`: clauses are removed, or a procedure with all of them (8.9.4, and 8.9.5 of the
//! second corrigendum).
ghost use Rattle.std.specs.Prelude.{◌≡◌, ◌<◌, ◌+◌, ◌^◌, ◌≢◌, ℕ, List, length, true, OnErr, Err};
ghost use Rattle.iso_atoms.specs.Texts.{EachOnce};
ghost use Rattle.iso_model.specs.Search.Additions.{most_variables};
ghost use Rattle.iso_model.specs.Search.Errors.{key};
ghost use Rattle.iso_model.specs.Search.Storages.{indicated, retractall_settled, abolish_settled};
ghost use Rattle.iso_model.specs.Search.Worlds.{World};
ghost use Rattle.iso_model.specs.Search.Databases as databases;
ghost use Rattle.iso_db.specs.Databases.{kind_at, with_kind, is_not_static};
ghost use Rattle.iso_db.specs.Presents.{contents};
ghost use Rattle.iso_db.specs.declared.kinds.Kind.TheVariants.{Dynamic};
ghost use Rattle.iso_store_core.specs.Presents.{Holds, meaning};
ghost use Rattle.iso_store_core.specs.Retaining.{RetainsAll, Takes};
ghost use Rattle.iso_lib.specs.Indicators.{IsIndicated};
ghost use Rattle.iso_program.specs.Keying.{AreKeyed, Preserves};
ghost use Rattle.iso_storage.specs.Cells.{settled_cells};
ghost use Rattle.iso_storage.specs.Matching.{all_removed};
ghost use Rattle.iso_storage.specs.Storing.{IsProgram, IsChanged, UnlessStopped};

use super::heads::{place_of, procedure_of, see_changeable};
use super::matching::matching_at;
use iso_db::{ClauseId, Db};
use iso_lib::indicators::{Functor, indicated};
use iso_lib::{Fault, errors};
use iso_lib_core::is_unbound;
use iso_program::callables::{Callable, Callables};
use iso_program::clauses::Clause;
use iso_program::kept::OfClause;
use iso_program::procedures;
use iso_store_core::Store;
use std::alloc::Global;

/// Makes the procedure at this place, which is not static, dynamic where it is absent, and removes the clauses with
/// these numbers from it.
fn remove_all<C: Drop>(db: &mut Db<Clause<C>>, place: usize, numbers: &[ClauseId])
    requires place { place < length (contents db.old).procedures }
    requires allowed { is_not_static (kind_at (contents db.old) place) ≡ true }
    ensures contents { contents db.new ≡ all_removed place numbers.now (with_kind Dynamic place (contents db.old)) }
    ensures preserves { Preserves db.old db.new }
{
    let _ = db.declare(place);
    for number in numbers {
        db.remove_from(place, *number);
    }
}

/// Removes all clauses whose heads unify with the term. The errors: `instantiation_error` where it is unbound,
/// `type_error(callable, Head)` where it is a number, `permission_error(modify, static_procedure, PI)` where the
/// procedure is a built-in or static, in this order; or the store is full, or memory was refused. The database is as
/// it was then.
pub(crate) fn retractall<S: Store, C: OfClause>(
    alloc: Global,
    store: &mut S,
    db: &mut Db<Clause<C>>,
    callables: &mut Callables,
    head: S::Word,
) -> Result<(), Fault>
    requires head { Holds (S.present store.old) head }
    requires room { (S.present store.old).next + most_variables < 2 ^ 63 }
    requires program { (m : databases.Database) × IsProgram C.keeps (S.names store.old)
        (contents db.old) callables.old.items m }
    requires keyed { AreKeyed db.old }
    ensures changed { (w : World) → IsProgram C.keeps (S.names store.old)
        (contents db.old) callables.old.items w.database
        → IsChanged C.keeps (S.names store.new) (contents db.new) callables.new.items w
        (retractall_settled (meaning (S.present store.old) head) (S.present store.old).next w) result }
    ensures kept { (m : databases.Database) → IsProgram C.keeps (S.names store.old)
        (contents db.old) callables.old.items m
        → OnErr result (IsProgram C.keeps (S.names store.new) (contents db.new) callables.new.items m) }
    ensures present { UnlessStopped result (S.present store.new ≡ S.present store.old) }
    ensures full { result ≡ Err Fault.Full → S.full store.new }
    ensures cells { (w : World) → IsProgram C.keeps (S.names store.old) (contents db.old) callables.old.items w.database
        → Takes S.Store store.old store.new (settled_cells
        (retractall_settled (meaning (S.present store.old) head) (S.present store.old).next w)) }
    ensures rest { RetainsAll S.Store store.old store.new }
    ensures preserves { Preserves db.old db.new }
{
    let Functor { name, arity } = procedure_of(alloc, store, head, "retractall", 1)?;
    let text = store.text(name);
    let functor = Functor { name, arity };
    see_changeable(alloc, db, callables.as_slice(), functor, text, "retractall")?;
    let place = procedures::place(alloc, db, callables, Functor { name, arity }, text)?;
    let numbers = matching_at(alloc, store, db, place, head)?;
    remove_all(db, place, numbers.as_slice());
    Ok(())
}

/// The procedure that the indicator names. The errors are those of an indicator, raised by this procedure of one
/// argument; or memory was refused.
fn procedure_named<S: Store>(
    alloc: Global,
    store: &S,
    indicator: S::Word,
    by: &str,
) -> Result<Functor, Fault>
    requires indicator { Holds (S.present store.now) indicator }
    ensures named { IsIndicated (S.names store.now) (indicated (meaning (S.present store.now) indicator)
        (key by.now 1)) result }
    ensures each_once { EachOnce (S.names store.now) }
{
    if is_unbound(store, indicator) {
        return Err(Fault::Raise(errors::instantiation(alloc, by, 1)?));
    }
    indicated(alloc, store, indicator, by)
}

/// Removes the procedure that the indicator names, with all its clauses. The errors: those of an indicator, and
/// `permission_error(modify, static_procedure, PI)` where the procedure is a built-in or static; or memory was refused.
pub(crate) fn abolish<S: Store, C: OfClause>(
    alloc: Global,
    store: &S,
    db: &mut Db<Clause<C>>,
    callables: &[Vec<Callable>],
    indicator: S::Word,
) -> Result<(), Fault>
    requires indicator { Holds (S.present store.now) indicator }
    requires program { (m : databases.Database) × IsProgram C.keeps (S.names store.now)
        (contents db.old) callables.now m }
    ensures changed { (w : World) → IsProgram C.keeps (S.names store.now) (contents db.old) callables.now w.database
        → IsChanged C.keeps (S.names store.now) (contents db.new) callables.now w
        (abolish_settled (meaning (S.present store.now) indicator) w) result }
    ensures kept { (m : databases.Database) → IsProgram C.keeps (S.names store.now) (contents db.old) callables.now m
        → OnErr result (IsProgram C.keeps (S.names store.now) (contents db.new) callables.now m) }
    ensures full { result ≢ Err Fault.Full }
    ensures preserves { Preserves db.old db.new }
{
    let Functor { name, arity } = procedure_named(alloc, store, indicator, "abolish")?;
    let text = store.text(name);
    let functor = Functor { name, arity };
    see_changeable(alloc, db, callables, functor, text, "abolish")?;
    let Some(place) = place_of(callables, Functor { name, arity }) else {
        return Ok(());
    };
    let _ = db.abolish(place);
    Ok(())
}
