//! `asserta/1` and `assertz/1`: a clause is added to its procedure (8.9.1, 8.9.2).
ghost use Rattle.std.specs.Prelude.{◌≡◌, ◌≢◌, OnErr, Err};
ghost use Rattle.iso_model.specs.Terms.Trees.{Tree};
ghost use Rattle.iso_model.specs.Search.Additions.{asserted};
ghost use Rattle.iso_model.specs.Search.Databases as databases;
ghost use Rattle.iso_model.specs.Search.Errors.{key};
ghost use Rattle.iso_model.specs.Search.Storages.{addition_settled};
ghost use Rattle.iso_model.specs.Search.Worlds.{World};
ghost use Rattle.iso_program.specs.declared.procedures.Way.TheVariants.{Consulted};
ghost use Rattle.iso_db.specs.Presents.{contents};
ghost use Rattle.iso_store_core.specs.Presents.{Holds, meaning};
ghost use Rattle.iso_store_core.specs.Retaining.{Retains};
ghost use Rattle.iso_program.specs.Kept.{IsAddition};
ghost use Rattle.iso_program.specs.Keying.{Preserves};
ghost use Rattle.iso_storage.specs.Adding.{IsPrepared};
ghost use Rattle.iso_storage.specs.Storing.{IsProgram, IsChanged, place_of};

use super::heads::see_changeable;
use iso_db::Db;
use iso_lib::Fault;
use iso_lib::indicators::Functor;
use iso_model::AddFault;
use iso_program::callables::Callables;
use iso_program::checked::Checked;
use iso_program::clauses::{self, Clause};
use iso_program::kept::Kept;
use iso_program::patterns;
use iso_program::procedures::{self, Way};
use iso_store_core::Store;
use std::alloc::Global;

/// The clause that the word stands for, checked and converted. The errors are those of `clauses::checked_clause`, which
/// this procedure of one argument raises; or memory was refused.
fn prepared<S: Store>(alloc: Global, store: &S, clause: S::Word, by: &str) -> Result<Checked, Fault>
    requires { Holds (S.present store.now) clause }
    ensures { IsPrepared (key by.now 1) (meaning (S.present store.now) clause) result }
{
    let term = store.copy_out(clause)?;
    match clauses::checked_clause(alloc, &term, by) {
        Ok(checked) => Ok(checked),
        Err(AddFault::Refused(ball)) => Err(Fault::Raise(ball)),
        Err(AddFault::NoMemory) => Err(Fault::NoMemory),
    }
}

/// Adds the clause, which was checked, to its procedure in this way. The errors: `permission_error(modify,
/// static_procedure, PI)` where the procedure is static, raised by this procedure of one argument; or memory was
/// refused. The database is as it was then.
fn add_checked<S: Store, C: Kept<S>>(
    alloc: Global,
    store: &mut S,
    db: &mut Db<Clause<C>>,
    callables: &mut Callables,
    checked: &Checked,
    way: Way,
    by: &str,
) -> Result<(), Fault>
    requires clause { (t : Tree) × IsAddition t checked.now }
    requires way { way ≢ Consulted }
    requires program { (m : databases.Database) × IsProgram C.keeps (S.names store.old)
        (contents db.old) callables.old.items m }
    ensures added { (t : Tree) (w : World) → IsAddition t checked.now
        → IsProgram C.keeps (S.names store.old) (contents db.old) callables.old.items w.database
        → IsChanged C.keeps (S.names store.new) (contents db.new) callables.new.items w
        (addition_settled (asserted (place_of way) (key by.now 1) t w.database) w) result }
    ensures kept { (m : databases.Database) → IsProgram C.keeps (S.names store.old)
        (contents db.old) callables.old.items m
        → OnErr result (IsProgram C.keeps (S.names store.new) (contents db.new) callables.new.items m) }
    ensures present { S.present store.new ≡ S.present store.old }
    ensures full { result ≢ Err Fault.Full }
    ensures rest { Retains S.Store store.old store.new }
    ensures preserves { Preserves db.old db.new }
{
    let Some((text, arity)) = clauses::indicator_of(checked.head()) else {
        unreachable!();
    };
    let kept = patterns::written_clause(alloc, store, checked)?;
    let name = store.intern(text)?;
    let functor = Functor { name, arity };
    see_changeable(alloc, db, callables.as_slice(), functor, text, by)?;
    procedures::add(
        alloc,
        db,
        callables,
        Functor { name, arity },
        text,
        way,
        kept,
    )?;
    Ok(())
}

/// Adds the clause that the word stands for to its procedure in this way, which a goal of this procedure of one
/// argument asks for. The errors, in this order: those of `clauses::checked_clause`, and `permission_error(modify,
/// static_procedure, PI)` where the procedure is static; or memory was refused. The database is as it was then.
pub(crate) fn add<S: Store, C: Kept<S>>(
    alloc: Global,
    store: &mut S,
    db: &mut Db<Clause<C>>,
    callables: &mut Callables,
    clause: S::Word,
    way: Way,
    by: &str,
) -> Result<(), Fault>
    requires clause { Holds (S.present store.old) clause }
    requires way { way ≢ Consulted }
    requires program { (m : databases.Database) × IsProgram C.keeps (S.names store.old)
        (contents db.old) callables.old.items m }
    ensures added { (w : World) → IsProgram C.keeps (S.names store.old) (contents db.old) callables.old.items w.database
        → IsChanged C.keeps (S.names store.new) (contents db.new) callables.new.items w
        (addition_settled (asserted (place_of way) (key by.now 1)
        (meaning (S.present store.old) clause) w.database) w) result }
    ensures kept { (m : databases.Database) → IsProgram C.keeps (S.names store.old)
        (contents db.old) callables.old.items m
        → OnErr result (IsProgram C.keeps (S.names store.new) (contents db.new) callables.new.items m) }
    ensures present { S.present store.new ≡ S.present store.old }
    ensures full { result ≢ Err Fault.Full }
    ensures rest { Retains S.Store store.old store.new }
    ensures preserves { Preserves db.old db.new }
{
    let checked = prepared(alloc, store, clause, by)?;
    add_checked(alloc, store, db, callables, &checked, way, by)
}
