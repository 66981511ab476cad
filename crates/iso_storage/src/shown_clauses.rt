//! `clause/2` and `retract/1`: the clauses of a procedure are offered, one after another (8.8.1, 8.9.3).
ghost use Rattle.std.specs.Prelude.{◌≡◌, ◌≢◌, ℕ, List, IfOk, IfSome, OnOk, Err};
ghost use Rattle.iso_atoms.specs.Texts.{EachOnce};
ghost use Rattle.iso_model.specs.Terms.Trees.{Tree};
ghost use Rattle.iso_model.specs.Search.Additions.{head_of, body_of};
ghost use Rattle.iso_model.specs.Search.Databases as databases;
ghost use Rattle.iso_model.specs.Search.Storages.{clause_settled, retract_settled};
ghost use Rattle.iso_model.specs.Search.Worlds.{World};
ghost use Rattle.iso_db.specs.Databases as held;
ghost use Rattle.iso_db.specs.Presents.{contents, GivesKeyed};
ghost use Rattle.iso_lib_core.specs.Replies.{IsUnbound};
ghost use Rattle.iso_store_core.specs.Presents.{Holds, meaning};
ghost use Rattle.iso_store_core.specs.Retaining.{Retains, Takes};
ghost use Rattle.iso_program.specs.declared.clauses.Clause as kept;
ghost use Rattle.iso_program.specs.Keying.{AreKeyed};
ghost use Rattle.iso_storage.specs.Storing.{IsProgram, AreOf, IsOffered, OffersFirst, UnlessStopped};

use super::heads::{clauses_of, is_fixed, procedure_of, see_changeable};
use super::storages::StorageReply;
use iso_db::{Db, KeyedView};
use iso_lib::indicators::Functor;
use iso_lib::lists::pair_named;
use iso_lib::{Fault, errors};
use iso_model::Term;
use iso_program::callables::Callable;
use iso_program::clauses::Clause;
use iso_program::firsts::first_key;
use iso_program::kept::OfClause;
use iso_program::left_clauses::next_left;
use iso_program::showing::Showing;
use iso_store_core::{Shape, Store, StoreFault};
use std::alloc::Global;

/// The first of the clauses of the view, with those behind it, is offered to be unified with this head and this body.
fn offered<W: Copy, C: OfClause>(
    db: &Db<Clause<C>>,
    view: Option<KeyedView>,
    head: W,
    body: W,
    removes: bool,
) -> StorageReply<W>
    requires { IfSome view (λ v. (ks : List (held.Clause (kept.Clause C))) × GivesKeyed db.now v ks) }
    ensures { (names : List (List ℕ)) (call : Tree) (cs : List databases.Clause)
        → AreOf C.keeps names db.now call cs view
        → OffersFirst C.keeps names db.now head body removes call cs result }
{
    let Some(mut later) = view else {
        return StorageReply::Fails;
    };
    match next_left(db, &mut later) {
        Some(clause) => StorageReply::Shows(Showing {
            clause,
            later,
            head,
            body,
            removes,
        }),
        None => StorageReply::Fails,
    }
}

/// What a goal of `clause/2` comes to. The errors: `instantiation_error` where the head is unbound,
/// `type_error(callable, Head)` where it is a number, `type_error(callable, Body)` where the body is one,
/// `permission_error(access, private_procedure, PI)` where the procedure is a built-in or static, in this order; or
/// memory was refused.
pub(crate) fn clause<S: Store, C: OfClause>(
    alloc: Global,
    store: &S,
    db: &Db<Clause<C>>,
    callables: &[Vec<Callable>],
    head: S::Word,
    body: S::Word,
) -> Result<StorageReply<S::Word>, Fault>
    requires head { Holds (S.present store.now) head }
    requires body { Holds (S.present store.now) body }
    requires program { (m : databases.Database) × IsProgram C.keeps (S.names store.now)
        (contents db.now) callables.now m }
    requires keyed { AreKeyed db.now }
    ensures stored { (w : World) → IsProgram C.keeps (S.names store.now) (contents db.now) callables.now w.database
        → IsOffered C.keeps (S.names store.now) (S.present store.now) db.now
        (clause_settled (meaning (S.present store.now) head) (meaning (S.present store.now) body) w) result }
    ensures full { result ≢ Err Fault.Full }
{
    let Functor { name, arity } = procedure_of(alloc, store, head, "clause", 2)?;
    if let Shape::Int(number) = store.shape(body) {
        let ball = errors::not_callable(alloc, Term::Int(number), "clause", 2)?;
        return Err(Fault::Raise(ball));
    }
    let text = store.text(name);
    if is_fixed(db, callables, Functor { name, arity }, text) {
        let culprit = errors::indicator(alloc, text, arity)?;
        let ball = errors::not_permitted(
            alloc,
            "access",
            "private_procedure",
            culprit,
            "clause",
            2,
        )?;
        return Err(Fault::Raise(ball));
    }
    let first = first_key(store, head);
    let view = clauses_of(db, callables, Functor { name, arity }, text, first);
    Ok(offered(db, view, head, body, false))
}

/// The head and the body of the clause that the word stands for; the body of a fact is `true`. The errors: the store
/// is full, or memory was refused.
fn clause_parts<S: Store>(store: &mut S, clause: S::Word) -> Result<(S::Word, S::Word), StoreFault>
    requires clause { Holds (S.present store.old) clause }
    ensures unbound { OnOk result (IsUnbound (S.present store.old) (S.present store.new)) }
    ensures hold { IfOk result (λ ws. Holds (S.present store.new) ws.0 × Holds (S.present store.new) ws.1) }
    ensures head { IfOk result (λ ws. meaning (S.present store.new) ws.0 ≡ head_of
        (meaning (S.present store.old) clause)) }
    ensures body { IfOk result (λ ws. meaning (S.present store.new) ws.1 ≡ body_of
        (meaning (S.present store.old) clause)) }
    ensures each_once { EachOnce (S.names store.new) }
    ensures full { result ≡ Err StoreFault.Full → S.full store.new }
    ensures cells { Takes S.Store store.old store.new 0 }
    ensures rest { Retains S.Store store.old store.new }
{
    if let Some(parts) = pair_named(store, clause, ":-") {
        return Ok(parts);
    }
    let name = store.intern("true")?;
    Ok((clause, store.atom(name)?))
}

/// What a goal of `retract/1` comes to. The errors: `instantiation_error` where the head is unbound,
/// `type_error(callable, Head)` where it is a number, `permission_error(modify, static_procedure, PI)` where the
/// procedure is a built-in or static, in this order; or the store is full, or memory was refused.
pub(crate) fn retract<S: Store, C: OfClause>(
    alloc: Global,
    store: &mut S,
    db: &Db<Clause<C>>,
    callables: &[Vec<Callable>],
    clause: S::Word,
) -> Result<StorageReply<S::Word>, Fault>
    requires clause { Holds (S.present store.old) clause }
    requires program { (m : databases.Database) × IsProgram C.keeps (S.names store.old)
        (contents db.now) callables.now m }
    requires keyed { AreKeyed db.now }
    ensures offered { (w : World) → IsProgram C.keeps (S.names store.old) (contents db.now) callables.now w.database
        → IsOffered C.keeps (S.names store.new) (S.present store.new) db.now
        (retract_settled (meaning (S.present store.old) clause) w) result }
    ensures kept { (m : databases.Database) → IsProgram C.keeps (S.names store.old) (contents db.now) callables.now m
        → IsProgram C.keeps (S.names store.new) (contents db.now) callables.now m }
    ensures unbound { UnlessStopped result (IsUnbound (S.present store.old) (S.present store.new)) }
    ensures full { result ≡ Err Fault.Full → S.full store.new }
    ensures cells { Takes S.Store store.old store.new 0 }
    ensures rest { Retains S.Store store.old store.new }
{
    let (head, body) = clause_parts(store, clause)?;
    let Functor { name, arity } = procedure_of(alloc, store, head, "retract", 1)?;
    let text = store.text(name);
    let functor = Functor { name, arity };
    see_changeable(alloc, db, callables, functor, text, "retract")?;
    let first = first_key(store, head);
    let view = clauses_of(db, callables, Functor { name, arity }, text, first);
    Ok(offered(db, view, head, body, true))
}
