//! How a clause comes to its procedure (7.5).
ghost use Rattle.std.specs.Prelude.{◌≡◌, ◌<◌, ℕ, List, OnOk, OnErr, IfOk, None, Some, length};
ghost use Rattle.iso_model.specs.Search.Databases as databases;
ghost use Rattle.iso_model.specs.Search.BuiltIns.{built_in};
ghost use Rattle.iso_model.specs.Search.Errors.{key};
ghost use Rattle.iso_db.specs.Databases.{kind_at};
ghost use Rattle.iso_db.specs.Presents.{contents};
ghost use Rattle.iso_program.specs.Kept.{IsClause};
ghost use Rattle.iso_program.specs.Callables.{Finds, KeepsPlaces, callee_at};
ghost use Rattle.iso_program.specs.Programs.{IsDatabase, place_at, kind_of, kept_at};
ghost use Rattle.iso_program.specs.Adding.{IsFound, MayCome, came, with_more};
ghost use Rattle.iso_program.specs.FirstKeys.{IsKeyOf};
ghost use Rattle.iso_program.specs.Heads.{head_parts};
ghost use Rattle.iso_program.specs.Keying.{Preserves};
ghost use Rattle.iso_program.specs.declared.callables.Callee.TheVariants as callee;

use super::callables::{self, Callables, Callee};
use super::clauses::Clause;
use super::firsts::{first_part, key_of_first};
use super::kept::OfClause;
use iso_db::{Db, DbFault, FirstKey};
use iso_lib::indicators::Functor;
use std::alloc::{AllocError, Global};

/// How a clause comes to its procedure.
#[derive(Clone, Copy)]
pub enum Way {
    /// At the end, from a text; a new procedure is static.
    Consulted,
    /// Before the others, by a goal (8.9.1); a new procedure is dynamic.
    First,
    /// Behind the others, by a goal (8.9.2); a new procedure is dynamic.
    Last,
}

/// The place of the procedure of this name, whose text this is: the one that it has, or a new one. The error is that
/// memory was refused. No procedure comes or goes by it.
pub fn place<C: OfClause>(
    alloc: Global,
    db: &mut Db<Clause<C>>,
    callables: &mut Callables,
    functor: Functor,
    text: &str,
) -> Result<usize, AllocError>
    requires named { (names : List (List ℕ)) × IsFound names functor text.now (contents db.old) callables.old.items }
    requires user { built_in (key text.now functor.arity) ≡ None }
    ensures place { IfOk result (λ place. place_at (contents db.new) (key text.now functor.arity) ≡ Some place) }
    ensures within { IfOk result (λ place. place < length (contents db.new).procedures) }
    ensures kind { IfOk result (λ place. kind_at (contents db.new) place ≡ kind_of
        (kept_at (contents db.old) (key text.now functor.arity))) }
    ensures called { IfOk result (λ place. callee_at callables.new.items functor.name functor.arity ≡ Some
        (callee.User place)) }
    ensures stays { KeepsPlaces (contents db.old) (contents db.new) callables.old.items callables.new.items }
    ensures found { (names : List (List ℕ)) → IsFound names functor text.now (contents db.old) callables.old.items
        → Finds names callables.new.items (contents db.new) }
    ensures database { (names : List (List ℕ)) (m : databases.Database) → IsDatabase C.keeps names (contents db.old) m
        → IsDatabase C.keeps names (contents db.new) m }
    ensures preserves { Preserves db.old db.new }
{
    match callables::find(callables.as_slice(), functor.name, functor.arity) {
        Some(Callee::User(place)) => Ok(place),
        Some(Callee::BuiltIn(_)) => unreachable!(),
        None => {
            let place = db.place(text, functor.arity)?;
            let calls = Callee::User(place);
            callables::insert(alloc, callables, functor.name, functor.arity, calls)?;
            Ok(place)
        }
    }
}

/// The key of the first argument of the clause's head; none where that is a variable, or where there is no argument.
fn key_of_head<C>(clause: &Clause<C>) -> Option<FirstKey>
    ensures { IsKeyOf (head_parts clause.now) result }
{
    key_of_first(first_part(clause.head()))
}

/// Adds the clause with its key to the procedure at this place, which may take it. The error is that memory was
/// refused; nothing changed then.
fn insert<C: Drop>(
    db: &mut Db<Clause<C>>,
    place: usize,
    way: Way,
    clause: Clause<C>,
) -> Result<(), AllocError>
    requires within { place < length (contents db.old).procedures }
    requires allowed { MayCome way (kind_at (contents db.old) place) }
    ensures contents { OnOk result (contents db.new ≡ came way place clause (contents db.old)) }
    ensures unchanged { OnErr result (contents db.new ≡ contents db.old) }
    ensures preserves { Preserves db.old db.new }
{
    let key = key_of_head(&clause);
    match way {
        Way::Consulted => {
            db.add_consulted(place, key, clause)?;
            Ok(())
        }
        Way::First => match db.add_first(place, key, clause) {
            Ok(_) => Ok(()),
            Err(DbFault::Static) => unreachable!(),
            Err(DbFault::NoMemory | DbFault::Unknown) => Err(AllocError),
        },
        Way::Last => match db.add_last(place, key, clause) {
            Ok(_) => Ok(()),
            Err(DbFault::Static) => unreachable!(),
            Err(DbFault::NoMemory | DbFault::Unknown) => Err(AllocError),
        },
    }
}

/// Adds the clause to its procedure, whose name has this text, and which is made where there is none.
/// The error is that memory was refused; the procedures are as they were then.
pub fn add<C: OfClause>(
    alloc: Global,
    db: &mut Db<Clause<C>>,
    callables: &mut Callables,
    functor: Functor,
    text: &str,
    way: Way,
    clause: Clause<C>,
) -> Result<(), AllocError>
    requires named { (names : List (List ℕ)) × IsFound names functor text.now (contents db.old) callables.old.items }
    requires user { built_in (key text.now functor.arity) ≡ None }
    requires allowed { MayCome way (kind_of (kept_at (contents db.old) (key text.now functor.arity))) }
    ensures ok { OnOk result ((names : List (List ℕ)) (m : databases.Database) (c : databases.Clause)
        → IsFound names functor text.now (contents db.old) callables.old.items
        → IsDatabase C.keeps names (contents db.old) m → IsClause C.keeps names clause c → c.number ≡ m.added
        → IsDatabase C.keeps names (contents db.new) (with_more way m (key text.now functor.arity) c)
        × Finds names callables.new.items (contents db.new)) }
    ensures err { OnErr result ((names : List (List ℕ)) (m : databases.Database)
        → IsFound names functor text.now (contents db.old) callables.old.items
        → IsDatabase C.keeps names (contents db.old) m → IsDatabase C.keeps names (contents db.new) m
        × Finds names callables.new.items (contents db.new)) }
    ensures preserves { Preserves db.old db.new }
{
    let place = place(alloc, db, callables, functor, text)?;
    insert(db, place, way, clause)
}
