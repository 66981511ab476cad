//! A clause as a term: it is made in the store, with new variables, and its head and its body are unified with two
//! terms (8.8.1, 8.9.3).
ghost use Rattle.std.specs.Prelude.{◌≡◌, ◌+◌, ◌<◌, ◌^◌, IfOk, Err};
ghost use Rattle.iso_model.specs.Search.Databases as databases;
ghost use Rattle.iso_model.specs.Search.Storages.{clause_cost};
ghost use Rattle.iso_store_core.specs.Presents.{Holds, meaning};
ghost use Rattle.iso_store_core.specs.Retaining.{Retains, Takes};
ghost use Rattle.iso_program.specs.Kept.{IsClause};
ghost use Rattle.iso_storage.specs.Shown.{UnifiesClause};

use iso_program::clauses::Clause;
use iso_program::kept::OfClause;
use iso_store_core::{Store, StoreFault};

/// Whether the head and the body of the clause, with new variables, unify with these two; then their unifier is
/// bound. The errors: the store is full, or memory was refused.
pub fn unify_clause<S: Store, C: OfClause>(
    store: &mut S,
    clause: &Clause<C>,
    head: S::Word,
    body: S::Word,
) -> Result<bool, StoreFault>
    requires clause { (c : databases.Clause) × IsClause C.keeps (S.names store.old) clause.now c }
    requires head { Holds (S.present store.old) head }
    requires body { Holds (S.present store.old) body }
    requires room { (S.present store.old).next + clause.now.variables < 2 ^ 63 }
    ensures unifies { (c : databases.Clause) → IsClause C.keeps (S.names store.old) clause.now c
        → IfOk result (UnifiesClause (S.present store.old) (S.present store.new) (meaning (S.present store.old) head)
        (meaning (S.present store.old) body) c) }
    ensures cells { (c : databases.Clause) → IsClause C.keeps (S.names store.old) clause.now c
        → Takes S.Store store.old store.new (clause_cost c) }
    ensures full { result ≡ Err StoreFault.Full → S.full store.new }
    ensures rest { Retains S.Store store.old store.new }
{
    // The mark is given up at once: it says that the bindings are a substitution.
    let mark = store.mark();
    store.forget(mark);
    let shown = store.renew(clause.whole.parts.as_slice(), clause.variables)?;
    let shown_head = store.arg(shown, 0);
    let shown_body = store.arg(shown, 1);
    if !store.unify(head, shown_head)? {
        return Ok(false);
    }
    store.unify(body, shown_body)
}
