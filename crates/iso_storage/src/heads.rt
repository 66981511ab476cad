//! Procedures by the heads of their clauses, and which of them goals may neither read nor change (7.5.2, 8.8.1.3, 8.9).
ghost use Rattle.std.specs.Prelude.{◌≡◌, ◌≢◌, ◌<◌, ℕ, List, true, false, not, IfOk, IfErr, IfSome, OnErr, Err};
ghost use Rattle.iso_atoms.specs.Texts.{EachOnce};
ghost use Rattle.iso_model.specs.Search.Databases as databases;
ghost use Rattle.iso_model.specs.Search.Errors.{key, permission_error};
ghost use Rattle.iso_model.specs.Search.Storages as table;
ghost use Rattle.iso_db.specs.Databases as held;
ghost use Rattle.iso_db.specs.Databases.{is_not_static};
ghost use Rattle.iso_db.specs.Presents.{contents, GivesKeyed};
ghost use Rattle.iso_store_core.specs.Presents.{Holds, meaning};
ghost use Rattle.iso_lib_core.specs.Replies.{IsFault};
ghost use Rattle.iso_program.specs.declared.clauses.Clause as kept;
ghost use Rattle.iso_model.specs.Terms.Trees.{Tree};
ghost use Rattle.iso_program.specs.Callables.{callee_at};
ghost use Rattle.iso_program.specs.FirstKeys.{ShowsKey};
ghost use Rattle.iso_program.specs.Keying.{AreKeyed};
ghost use Rattle.iso_storage.specs.Storing.{IsProgram, HasHead, IsNamed, AreOf, user_place};

use iso_db::{Db, FirstKey, KeyedView, Kind};
use iso_lib::indicators::Functor;
use iso_lib::{Fault, errors};
use iso_model::{Term, is_control};
use iso_program::callables::{self, Callable, Callee};
use iso_program::clauses::Clause;
use iso_program::kept::OfClause;
use iso_program::left_clauses::clauses_for;
use iso_store_core::{Shape, Store};
use std::alloc::Global;

/// The procedure of a clause with this head. The errors: `instantiation_error` where it is unbound and
/// `type_error(callable, Head)` where it is a number, raised by this procedure; or memory was refused.
pub(crate) fn procedure_of<S: Store>(
    alloc: Global,
    store: &S,
    head: S::Word,
    by: &str,
    arity: usize,
) -> Result<Functor, Fault>
    requires head { Holds (S.present store.now) head }
    requires arity { arity < 256 }
    ensures head { HasHead (S.names store.now) (meaning (S.present store.now) head) (key by.now arity) result }
    ensures each_once { EachOnce (S.names store.now) }
{
    match store.shape(head) {
        Shape::Var(_) => Err(Fault::Raise(errors::instantiation(alloc, by, arity)?)),
        Shape::Int(number) => {
            let ball = errors::not_callable(alloc, Term::Int(number), by, arity)?;
            Err(Fault::Raise(ball))
        }
        Shape::Atom(name) => Ok(Functor { name, arity: 0 }),
        Shape::Compound(name, count) => Ok(Functor { name, arity: count }),
    }
}

/// The place in the database of the procedure with this name, where it has one.
pub(crate) fn place_of(callables: &[Vec<Callable>], functor: Functor) -> Option<usize>
    ensures { result ≡ user_place (callee_at callables.now functor.name functor.arity) }
{
    match callables::find(callables, functor.name, functor.arity) {
        Some(Callee::User(place)) => Some(place),
        Some(Callee::BuiltIn(_)) | None => None,
    }
}

/// Whether it is the kind of a static procedure.
fn is_static(kind: Option<Kind>) -> bool
    ensures { result ≡ not (is_not_static kind) }
{
    matches!(kind, Some(Kind::Static))
}

/// Whether goals may neither read nor change the procedure with this name, whose text this is: it is a built-in, or
/// static.
pub(crate) fn is_fixed<C: OfClause>(
    db: &Db<Clause<C>>,
    callables: &[Vec<Callable>],
    functor: Functor,
    text: &str,
) -> bool
    requires { (names : List (List ℕ)) × (m : databases.Database)
        × IsProgram C.keeps names (contents db.now) callables.now m × IsNamed names functor text.now }
    ensures { (names : List (List ℕ)) (m : databases.Database)
        → IsProgram C.keeps names (contents db.now) callables.now m → IsNamed names functor text.now
        → result ≡ table.is_fixed m.procedures (key text.now functor.arity) }
{
    if is_control(text, functor.arity) {
        return true;
    }
    match callables::find(callables, functor.name, functor.arity) {
        Some(Callee::BuiltIn(_)) => true,
        Some(Callee::User(place)) => is_static(db.kind(place)),
        None => false,
    }
}

/// Sees that goals may change the procedure with this name, whose text this is. The errors: `permission_error(modify,
/// static_procedure, PI)` where it is a built-in or static, raised by this procedure of one argument; or memory was
/// refused.
pub(crate) fn see_changeable<C: OfClause>(
    alloc: Global,
    db: &Db<Clause<C>>,
    callables: &[Vec<Callable>],
    functor: Functor,
    text: &str,
    by: &str,
) -> Result<(), Fault>
    requires { (names : List (List ℕ)) × (m : databases.Database)
        × IsProgram C.keeps names (contents db.now) callables.now m × IsNamed names functor text.now }
    ensures free { (names : List (List ℕ)) (m : databases.Database)
        → IsProgram C.keeps names (contents db.now) callables.now m → IsNamed names functor text.now
        → IfOk result (λ _. table.is_fixed m.procedures (key text.now functor.arity) ≡ false) }
    ensures fixed { (names : List (List ℕ)) (m : databases.Database)
        → IsProgram C.keeps names (contents db.now) callables.now m → IsNamed names functor text.now
        → OnErr result (table.is_fixed m.procedures (key text.now functor.arity) ≡ true) }
    ensures fault { IfErr result (IsFault (permission_error (key text.now functor.arity) (key by.now 1))) }
    ensures full { result ≢ Err Fault.Full }
{
    let arity = functor.arity;
    if is_fixed(db, callables, functor, text) {
        let ball = errors::static_procedure(alloc, text, arity, by)?;
        return Err(Fault::Raise(ball));
    }
    Ok(())
}

/// A view of the clauses for a head with this key of its first argument, of the procedure with this name, whose text
/// this is; none where it is absent.
pub(crate) fn clauses_of<C: OfClause>(
    db: &Db<Clause<C>>,
    callables: &[Vec<Callable>],
    functor: Functor,
    text: &str,
    first: Option<FirstKey>,
) -> Option<KeyedView>
    requires program { (names : List (List ℕ)) × (m : databases.Database)
        × IsProgram C.keeps names (contents db.now) callables.now m × IsNamed names functor text.now }
    requires keyed { AreKeyed db.now }
    ensures gives { IfSome result (λ view. (ks : List (held.Clause (kept.Clause C))) × GivesKeyed db.now view ks) }
    ensures are { (names : List (List ℕ)) (m : databases.Database) (head : Tree)
        → IsProgram C.keeps names (contents db.now) callables.now m → IsNamed names functor text.now
        → table.is_fixed m.procedures (key text.now functor.arity) ≡ false → ShowsKey names first head
        → AreOf C.keeps names db.now head (table.clauses_of m.procedures (key text.now functor.arity)) result }
{
    let place = place_of(callables, functor)?;
    match clauses_for(db, place, first) {
        Ok(view) => Some(view),
        Err(_) => None,
    }
}
