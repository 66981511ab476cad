//! `dynamic/1`, `multifile/1` and `discontiguous/1`, as goals and directives (7.4.2.1 to 7.4.2.3).
ghost use Rattle.std.specs.Prelude.{◌≡◌, ◌≢◌, ◌<◌, length, map, IfOk, OnErr, Err};
ghost use Rattle.std.specs.List.{All};
ghost use Rattle.iso_atoms.specs.Texts.{EachOnce};
ghost use Rattle.iso_model.specs.Search.Errors.{key};
ghost use Rattle.iso_model.specs.Search.Storages.{dynamic_settled, checked_settled, dynamic_key, changeable, indicated};
ghost use Rattle.iso_model.specs.Search.Storages.{all_indicated};
ghost use Rattle.iso_model.specs.Search.Worlds.{World};
ghost use Rattle.iso_model.specs.Search.Databases as databases;
ghost use Rattle.iso_db.specs.Databases.{with_kind};
ghost use Rattle.iso_db.specs.Presents.{contents};
ghost use Rattle.iso_db.specs.declared.kinds.Kind.TheVariants.{Dynamic};
ghost use Rattle.iso_store_core.specs.Presents.{Holds, meaning};
ghost use Rattle.iso_lib.specs.Indicators.{IsIndicated};
ghost use Rattle.iso_program.specs.Callables.{KeepsPlaces};
ghost use Rattle.iso_program.specs.Keying.{Preserves};
ghost use Rattle.iso_storage.specs.Storing.{IsProgram, IsChanged};
ghost use Rattle.iso_storage.specs.Declaring.{AreParts, AreIndicated, AreChecked, IsOnlyChecked, IsUser, IsPlaced};
ghost use Rattle.iso_storage.specs.Declaring.{ArePlaced, all_dynamic};

use super::heads::see_changeable;
use iso_db::Db;
use iso_lib::indicators::{Functor, declared_parts, indicated};
use iso_lib::{Fault, errors};
use iso_lib_core::has_unbound;
use iso_program::callables::{Callable, Callables};
use iso_program::clauses::Clause;
use iso_program::kept::OfClause;
use iso_program::procedures;
use iso_store_core::Store;
use std::alloc::{AllocError, Global};

/// Words for the indicators that a declaration names. The errors: `instantiation_error` where one of them is unbound,
/// raised by this procedure of one argument; or memory was refused.
fn parts<S: Store>(
    alloc: Global,
    store: &S,
    argument: S::Word,
    by: &str,
) -> Result<Vec<S::Word>, Fault>
    requires argument { Holds (S.present store.now) argument }
    ensures parts { AreParts (S.present store.now) (key by.now 1) (meaning (S.present store.now) argument) result }
    ensures each_once { IfOk result (λ ws. 0 < length ws.items → EachOnce (S.names store.now)) }
{
    let parts = declared_parts(alloc, store, argument)?;
    if has_unbound(store, parts.as_slice()) {
        return Err(Fault::Raise(errors::instantiation(alloc, by, 1)?));
    }
    Ok(parts)
}

/// Checks that these are indicators. The errors are those of the first that is none, raised by this procedure of one
/// argument; or memory was refused.
fn check_all<S: Store>(
    alloc: Global,
    store: &S,
    indicators: &[S::Word],
    by: &str,
) -> Result<(), Fault>
    requires { All (λ w. Holds (S.present store.now) w) indicators.now }
    ensures { AreChecked (all_indicated (λ p. indicated p (key by.now 1))
        (map (meaning (S.present store.now)) indicators.now)) result }
{
    for indicator in indicators {
        indicated(alloc, store, *indicator, by)?;
    }
    Ok(())
}

/// What a goal of `multifile/1` or `discontiguous/1` comes to, this procedure of one argument: its indicators are
/// checked. The errors are those of `parts`, and then those of the first indicator that is none.
pub(crate) fn check<S: Store>(
    alloc: Global,
    store: &S,
    argument: S::Word,
    by: &str,
) -> Result<(), Fault>
    requires argument { Holds (S.present store.now) argument }
    ensures checked { (w : World) → IsOnlyChecked w (checked_settled (key by.now 1)
        (meaning (S.present store.now) argument) w) result }
    ensures full { result ≢ Err Fault.Full }
{
    let parts = parts(alloc, store, argument, by)?;
    check_all(alloc, store, parts.as_slice(), by)
}

/// The procedure that the indicator names, which may be declared as dynamic. The errors are those of an indicator, and
/// `permission_error(modify, static_procedure, PI)` where it is a built-in or static; or memory was refused.
fn changeable<S: Store, C: OfClause>(
    alloc: Global,
    store: &S,
    db: &Db<Clause<C>>,
    callables: &[Vec<Callable>],
    indicator: S::Word,
) -> Result<Functor, Fault>
    requires each_once { EachOnce (S.names store.now) }
    requires indicator { Holds (S.present store.now) indicator }
    requires program { (m : databases.Database) × IsProgram C.keeps (S.names store.now)
        (contents db.now) callables.now m }
    ensures { (m : databases.Database) → IsProgram C.keeps (S.names store.now) (contents db.now) callables.now m
        → IsIndicated (S.names store.now) (changeable m.procedures dynamic_key
        (indicated (meaning (S.present store.now) indicator) dynamic_key)) result }
{
    let Functor { name, arity } = indicated(alloc, store, indicator, "dynamic")?;
    let text = store.text(name);
    let functor = Functor { name, arity };
    see_changeable(alloc, db, callables, functor, text, "dynamic")?;
    Ok(Functor { name, arity })
}

/// The procedures that the indicators name. The errors are those of `changeable` at the first that has one.
fn all_changeable<S: Store, C: OfClause>(
    alloc: Global,
    store: &S,
    db: &Db<Clause<C>>,
    callables: &[Vec<Callable>],
    indicators: &[S::Word],
) -> Result<Vec<Functor>, Fault>
    requires each_once { 0 < length indicators.now → EachOnce (S.names store.now) }
    requires indicators { All (λ w. Holds (S.present store.now) w) indicators.now }
    requires program { (m : databases.Database) × IsProgram C.keeps (S.names store.now)
        (contents db.now) callables.now m }
    ensures { (m : databases.Database) → IsProgram C.keeps (S.names store.now) (contents db.now) callables.now m
        → AreIndicated (S.names store.now) (all_indicated
        (λ p. changeable m.procedures dynamic_key (indicated p dynamic_key))
        (map (meaning (S.present store.now)) indicators.now)) result }
{
    let mut functors = Vec::new(alloc);
    for indicator in indicators {
        let functor = changeable(alloc, store, db, callables, *indicator)?;
        functors.push(functor)?;
    }
    Ok(functors)
}

/// The place of this procedure, which is no built-in: the one that it has, or a new one, where it is absent. The
/// error is that memory was refused.
fn place_of<S: Store, C: OfClause>(
    alloc: Global,
    store: &S,
    db: &mut Db<Clause<C>>,
    callables: &mut Callables,
    functor: Functor,
) -> Result<usize, AllocError>
    requires each_once { EachOnce (S.names store.now) }
    requires user { IsUser (S.names store.now) functor }
    requires program { (m : databases.Database) × IsProgram C.keeps (S.names store.now)
        (contents db.old) callables.old.items m }
    ensures placed { IfOk result (λ place. IsPlaced (S.names store.now)
        (contents db.new) callables.new.items functor place) }
    ensures stays { KeepsPlaces (contents db.old) (contents db.new) callables.old.items callables.new.items }
    ensures kept { (m : databases.Database) → IsProgram C.keeps (S.names store.now)
        (contents db.old) callables.old.items m
        → IsProgram C.keeps (S.names store.now) (contents db.new) callables.new.items m }
    ensures preserves { Preserves db.old db.new }
{
    let Functor { name, arity } = functor;
    let text = store.text(name);
    procedures::place(alloc, db, callables, Functor { name, arity }, text)
}

/// The places of these procedures; absent ones get places, and stay absent. The error is that memory was refused.
fn places<S: Store, C: OfClause>(
    alloc: Global,
    store: &S,
    db: &mut Db<Clause<C>>,
    callables: &mut Callables,
    functors: &[Functor],
) -> Result<Vec<usize>, AllocError>
    requires each_once { 0 < length functors.now → EachOnce (S.names store.now) }
    requires users { All (IsUser (S.names store.now)) functors.now }
    requires program { (m : databases.Database) × IsProgram C.keeps (S.names store.now)
        (contents db.old) callables.old.items m }
    ensures placed { IfOk result (λ places. ArePlaced (S.names store.now)
        (contents db.new) callables.new.items functors.now places.items) }
    ensures kept { (m : databases.Database) → IsProgram C.keeps (S.names store.now)
        (contents db.old) callables.old.items m
        → IsProgram C.keeps (S.names store.now) (contents db.new) callables.new.items m }
    ensures preserves { Preserves db.old db.new }
{
    let mut places = Vec::new(alloc);
    for functor in functors {
        let place = place_of(alloc, store, db, callables, *functor)?;
        places.push(place)?;
    }
    Ok(places)
}

/// Declares the procedure at this place as dynamic; a static one stays what it is.
fn declare_at<C: Drop>(db: &mut Db<Clause<C>>, place: usize)
    requires { place < length (contents db.old).procedures }
    ensures contents { contents db.new ≡ with_kind Dynamic place (contents db.old) }
    ensures preserves { Preserves db.old db.new }
{
    let _ = db.declare(place);
}

/// Declares the procedures at these places as dynamic.
fn declare_all<C: Drop>(db: &mut Db<Clause<C>>, places: &[usize])
    requires { All (λ place. place < length (contents db.old).procedures) places.now }
    ensures contents { contents db.new ≡ all_dynamic places.now (contents db.old) }
    ensures preserves { Preserves db.old db.new }
{
    for place in places {
        declare_at(db, *place);
    }
}

/// What a goal of `dynamic/1` comes to: the procedures that its indicators name are dynamic from then on. The errors
/// are those of `parts`, and then those of `changeable` at the first indicator that has one; the database is as it
/// was then.
pub(crate) fn declare<S: Store, C: OfClause>(
    alloc: Global,
    store: &S,
    db: &mut Db<Clause<C>>,
    callables: &mut Callables,
    argument: S::Word,
) -> Result<(), Fault>
    requires argument { Holds (S.present store.now) argument }
    requires program { (m : databases.Database) × IsProgram C.keeps (S.names store.now)
        (contents db.old) callables.old.items m }
    ensures changed { (w : World) → IsProgram C.keeps (S.names store.now)
        (contents db.old) callables.old.items w.database
        → IsChanged C.keeps (S.names store.now) (contents db.new) callables.new.items w
        (dynamic_settled (meaning (S.present store.now) argument) w) result }
    ensures kept { (m : databases.Database) → IsProgram C.keeps (S.names store.now)
        (contents db.old) callables.old.items m
        → OnErr result (IsProgram C.keeps (S.names store.now) (contents db.new) callables.new.items m) }
    ensures full { result ≢ Err Fault.Full }
    ensures preserves { Preserves db.old db.new }
{
    let parts = parts(alloc, store, argument, "dynamic")?;
    let functors = all_changeable(alloc, store, db, callables.as_slice(), parts.as_slice())?;
    let places = places(alloc, store, db, callables, functors.as_slice())?;
    declare_all(db, places.as_slice());
    Ok(())
}
