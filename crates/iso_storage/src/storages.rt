//! Built-ins that read or change the database, one by one.
ghost use Rattle.std.specs.Prelude.{◌≡◌, ◌+◌, ◌<◌, ◌^◌, ℕ, List, Err, length};
ghost use Rattle.std.specs.List.{All};
ghost use Rattle.iso_model.specs.Terms.Trees.{Tree};
ghost use Rattle.iso_model.specs.Search.Additions.{most_variables};
ghost use Rattle.iso_model.specs.Search.Databases as databases;
ghost use Rattle.iso_model.specs.Search.Storages.{storage_settled, storage_arity};
ghost use Rattle.iso_model.specs.Search.Worlds.{World};
ghost use Rattle.iso_db.specs.Presents.{contents};
ghost use Rattle.iso_lib_core.specs.Replies.{IsUnbound};
ghost use Rattle.iso_store_core.specs.Presents.{Holds, meaning};
ghost use Rattle.iso_store_core.specs.Retaining.{Retains, Takes};
ghost use Rattle.iso_store_core.specs.ArgumentWords.{AreArguments};
ghost use Rattle.iso_program.specs.Keying.{AreKeyed, Preserves};
ghost use Rattle.iso_storage.specs.Cells.{settled_cells};
ghost use Rattle.iso_storage.specs.Storing.{IsProgram, IsStorageReply, UnlessDone, UnlessStopped, done_of};

use super::additions::add;
use super::declarations::{check, declare};
use super::removals::{abolish, retractall};
use super::shown_clauses::{clause, retract};
use iso_db::Db;
use iso_lib::Fault;
use iso_model::Storage;
use iso_program::callables::Callables;
use iso_program::clauses::Clause;
use iso_program::kept::Kept;
use iso_program::procedures::Way;
use iso_program::showing::Showing;
use iso_store_core::Store;
use std::alloc::Global;

/// What a goal comes to that raises no error.
#[derive(Clone, Copy)]
pub enum StorageReply<W> {
    /// It succeeds; the database is the one behind it.
    Done,
    /// It fails: no clause is offered.
    Fails,
    /// Clauses are offered, whose heads and bodies are to be unified with two terms.
    Shows(Showing<W>),
}

/// A goal that changed the database is done, or its error is raised.
fn done<W: Copy>(changed: Result<(), Fault>) -> Result<StorageReply<W>, Fault>
    ensures { result ≡ done_of changed }
{
    changed?;
    Ok(StorageReply::Done)
}

/// What a goal of this row comes to, which has as many arguments. The errors: one is raised, the store is full, or
/// memory was refused. The database is changed where the answer is `Done` alone.
pub fn store_goal<S: Store, C: Kept<S>>(
    alloc: Global,
    store: &mut S,
    db: &mut Db<Clause<C>>,
    callables: &mut Callables,
    row: Storage,
    arguments: &[S::Word],
) -> Result<StorageReply<S::Word>, Fault>
    requires arguments { All (λ w. Holds (S.present store.old) w) arguments.now }
    requires count { length arguments.now ≡ storage_arity row }
    requires room { (S.present store.old).next + most_variables < 2 ^ 63 }
    requires program { (m : databases.Database) × IsProgram C.keeps (S.names store.old)
        (contents db.old) callables.old.items m }
    requires keyed { AreKeyed db.old }
    ensures stored { (t : Tree) → AreArguments (S.present store.old) arguments.now t
        → (w : World) → IsProgram C.keeps (S.names store.old) (contents db.old) callables.old.items w.database
        → IsStorageReply C.keeps (S.names store.new) (S.present store.new) db.new callables.new.items w
        (storage_settled row t (S.present store.old).next w) result }
    ensures kept { (m : databases.Database) → IsProgram C.keeps (S.names store.old)
        (contents db.old) callables.old.items m
        → UnlessDone result (IsProgram C.keeps (S.names store.new) (contents db.new) callables.new.items m) }
    ensures unbound { UnlessStopped result (IsUnbound (S.present store.old) (S.present store.new)) }
    ensures full { result ≡ Err Fault.Full → S.full store.new }
    ensures cells { (t : Tree) → AreArguments (S.present store.old) arguments.now t
        → (w : World) → IsProgram C.keeps (S.names store.old) (contents db.old) callables.old.items w.database
        → Takes S.Store store.old store.new (settled_cells (storage_settled row t (S.present store.old).next w)) }
    ensures rest { Retains S.Store store.old store.new }
    ensures preserves { Preserves db.old db.new }
{
    let first = arguments[0];
    match row {
        Storage::Clause => clause(alloc, store, db, callables.as_slice(), first, arguments[1]),
        Storage::Retract => retract(alloc, store, db, callables.as_slice(), first),
        Storage::Asserta => done(add(alloc, store, db, callables, first, Way::First, "asserta")),
        Storage::Assertz => done(add(alloc, store, db, callables, first, Way::Last, "assertz")),
        Storage::Retractall => done(retractall(alloc, store, db, callables, first)),
        Storage::Abolish => done(abolish(alloc, store, db, callables.as_slice(), first)),
        Storage::Dynamic => done(declare(alloc, store, db, callables, first)),
        Storage::Multifile => done(check(alloc, store, first, "multifile")),
        Storage::Discontiguous => done(check(alloc, store, first, "discontiguous")),
    }
}
