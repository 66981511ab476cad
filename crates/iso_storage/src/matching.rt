//! The clauses whose heads unify with a term, while nothing is bound (8.9.5 of the second corrigendum).
ghost use Rattle.std.specs.Prelude.{◌≡◌, ◌+◌, ◌<◌, ◌≤◌, ◌^◌, ℕ, List, Some, IfOk, OnOk, Err};
ghost use Rattle.iso_model.specs.Terms.Sizes.{size};
ghost use Rattle.iso_model.specs.Search.Databases as databases;
ghost use Rattle.iso_model.specs.Search.Additions.{most_variables};
ghost use Rattle.iso_model.specs.Search.Databases.{Key};
ghost use Rattle.iso_model.specs.Search.Storages.{head_unifies, clauses_of, largest_head};
ghost use Rattle.iso_db.specs.Databases as held;
ghost use Rattle.iso_db.specs.Presents.{contents, GivesKeyed};
ghost use Rattle.iso_db.specs.Keyed.{remaining_keyed};
ghost use Rattle.iso_store_core.specs.Presents.{Holds, meaning};
ghost use Rattle.iso_store_core.specs.Retaining.{RetainsAll, Takes};
ghost use Rattle.iso_program.specs.declared.clauses.Clause as kept;
ghost use Rattle.iso_program.specs.Keying.{AreKeyed};
ghost use Rattle.iso_program.specs.Leaving.{most_left};
ghost use Rattle.iso_program.specs.Kept.{IsClause};
ghost use Rattle.iso_program.specs.Programs.{AreClauses, IsDatabase, place_at};
ghost use Rattle.iso_storage.specs.Matching.{matching_numbers};

use iso_db::{ClauseId, Db, KeyedView};
use iso_program::clauses::Clause;
use iso_program::firsts::first_key;
use iso_program::kept::OfClause;
use iso_program::left_clauses::{clauses_for, next_left};
use iso_store_core::{Store, StoreFault};
use std::alloc::Global;

/// Whether the head of the clause, with new variables, unifies with the term; it leaves open what is bound. The
/// errors: the store is full, or memory was refused.
fn unifies<S: Store, C: OfClause>(
    store: &mut S,
    clause: &Clause<C>,
    head: S::Word,
) -> Result<bool, StoreFault>
    requires clause { (c : databases.Clause) × IsClause C.keeps (S.names store.old) clause.now c }
    requires head { Holds (S.present store.old) head }
    requires room { (S.present store.old).next + most_variables < 2 ^ 63 }
    ensures unifies { (c : databases.Clause) → IsClause C.keeps (S.names store.old) clause.now c
        → IfOk result (λ yes. yes ≡ head_unifies (meaning (S.present store.old) head) (S.present store.old).next c) }
    ensures cells { (c : databases.Clause) → IsClause C.keeps (S.names store.old) clause.now c
        → Takes S.Store store.old store.new (size c.head) }
    ensures full { result ≡ Err StoreFault.Full → S.full store.new }
    ensures rest { RetainsAll S.Store store.old store.new }
{
    // Reserves none: it says that no number from the next one on is taken.
    let _next = store.reserve(0);
    let shown = store.renew(clause.head(), clause.variables)?;
    store.unify(head, shown)
}

/// The numbers of the clauses of the view whose heads unify with the term; the store is as it was then. The errors:
/// the store is full, or memory was refused.
fn matching<S: Store, C: OfClause>(
    alloc: Global,
    store: &mut S,
    db: &Db<Clause<C>>,
    view: KeyedView,
    head: S::Word,
) -> Result<Vec<ClauseId>, StoreFault>
    requires clauses { (ks : List (held.Clause (kept.Clause C))) × (cs : List databases.Clause)
        × GivesKeyed db.now view ks × AreClauses C.keeps (S.names store.old) ks cs }
    requires few { remaining_keyed view ≤ most_left }
    requires head { Holds (S.present store.old) head }
    requires room { (S.present store.old).next + most_variables < 2 ^ 63 }
    ensures matching { (ks : List (held.Clause (kept.Clause C))) (cs : List databases.Clause)
        → GivesKeyed db.now view ks → AreClauses C.keeps (S.names store.old) ks cs
        → IfOk result (λ ids. ids.items ≡ matching_numbers (meaning (S.present store.old) head)
        (S.present store.old).next cs) }
    ensures cells { (ks : List (held.Clause (kept.Clause C))) (cs : List databases.Clause) → GivesKeyed db.now view ks
        → AreClauses C.keeps (S.names store.old) ks cs
        → Takes S.Store store.old store.new (largest_head cs) }
    ensures present { OnOk result (S.present store.new ≡ S.present store.old) }
    ensures full { result ≡ Err StoreFault.Full → S.full store.new }
    ensures rest { RetainsAll S.Store store.old store.new }
{
    let mut numbers = Vec::new(alloc);
    let mut later = view;
    let mark = store.mark();
    while let Some(number) = next_left(db, &mut later) {
        let matches = unifies(store, db.clause(number), head)?;
        store.undo(mark);
        if matches {
            numbers.push(number)?;
        }
    }
    store.forget(mark);
    Ok(numbers)
}

/// The numbers of the clauses of the procedure at this place whose heads unify with the term; there are none where it
/// is absent. The store is as it was then. The errors: the store is full, or memory was refused.
pub(crate) fn matching_at<S: Store, C: OfClause>(
    alloc: Global,
    store: &mut S,
    db: &Db<Clause<C>>,
    place: usize,
    head: S::Word,
) -> Result<Vec<ClauseId>, StoreFault>
    requires place { (k : Key) × (m : databases.Database) × (place_at (contents db.now) k ≡ Some place)
        × IsDatabase C.keeps (S.names store.old) (contents db.now) m }
    requires keyed { AreKeyed db.now }
    requires head { Holds (S.present store.old) head }
    requires room { (S.present store.old).next + most_variables < 2 ^ 63 }
    ensures matching { (k : Key) (m : databases.Database) → place_at (contents db.now) k ≡ Some place
        → IsDatabase C.keeps (S.names store.old) (contents db.now) m
        → IfOk result (λ ids. ids.items ≡ matching_numbers (meaning (S.present store.old) head)
        (S.present store.old).next (clauses_of m.procedures k)) }
    ensures cells { (k : Key) (m : databases.Database) → place_at (contents db.now) k ≡ Some place
        → IsDatabase C.keeps (S.names store.old) (contents db.now) m
        → Takes S.Store store.old store.new (largest_head (clauses_of m.procedures k)) }
    ensures present { OnOk result (S.present store.new ≡ S.present store.old) }
    ensures full { result ≡ Err StoreFault.Full → S.full store.new }
    ensures rest { RetainsAll S.Store store.old store.new }
{
    match clauses_for(db, place, first_key(store, head)) {
        Ok(view) => matching(alloc, store, db, view, head),
        Err(_) => Ok(Vec::new(alloc)),
    }
}
