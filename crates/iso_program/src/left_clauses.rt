//! The clauses that are left to be tried for a call, one after another (7.5.4).
ghost use Rattle.std.specs.Prelude.{◌≡◌, ◌<◌, ◌≤◌, ℕ, List, [], IfOk, IfErr, IfSome, MatchBool, length, is_ok, is_some};
ghost use Rattle.iso_model.specs.Terms.Trees.{Tree};
ghost use Rattle.iso_model.specs.Search.Databases as databases;
ghost use Rattle.iso_db.specs.Databases as held;
ghost use Rattle.iso_db.specs.Databases.{clauses_at, kind_at};
ghost use Rattle.iso_db.specs.Presents.{contents, GivesKeyed};
ghost use Rattle.iso_db.specs.Keyed.{remaining_keyed};
ghost use Rattle.iso_program.specs.declared.clauses.Clause as kept;
ghost use Rattle.iso_program.specs.FirstKeys.{ShowsKey};
ghost use Rattle.iso_program.specs.Keying.{AreKeyed};
ghost use Rattle.iso_program.specs.Programs.{AreClauses};
ghost use Rattle.iso_program.specs.Leaving.{most_left, AreLeft, NextLeft, GivesFor, FirstLeft};

use super::clauses::Clause;
use super::kept::OfClause;
use iso_db::{ClauseId, Db, DbFault, FirstKey, KeyedView};

/// A view of the clauses of the procedure at this place, as they are now, for a call with this key: it gives them in
/// their order, but for some whose first arguments show that they can't be unified with the call. A call without a key
/// gets them all. The error is that the procedure is absent.
pub fn clauses_for<C: OfClause>(
    db: &Db<Clause<C>>,
    place: usize,
    key: Option<FirstKey>,
) -> Result<KeyedView, DbFault>
    requires keyed { AreKeyed db.now }
    requires place { place < length (contents db.now).procedures }
    ensures gives { (names : List (List ℕ)) (call : Tree) (cs : List databases.Clause) → ShowsKey names key call
        → AreClauses C.keeps names (clauses_at (contents db.now) place) cs
        → IfOk result (λ view. GivesFor C.keeps names db.now view call cs) }
    ensures stands { IfOk result (λ view. (ks : List (held.Clause (kept.Clause C))) × GivesKeyed db.now view ks) }
    ensures there { is_ok result ≡ is_some (kind_at (contents db.now) place) }
    ensures unknown { IfErr result (λ fault. fault ≡ DbFault.Unknown) }
{
    db.view(place, key)
}

/// The first clause of a view of the clauses of the procedure at this place, as `clauses_for` makes it, if there is
/// one; `later`, which gave nothing, gives those behind it then. The error is that the procedure is absent.
#[inline(always)]
pub fn first_left<C: OfClause>(
    db: &Db<Clause<C>>,
    place: usize,
    key: Option<FirstKey>,
    later: &mut KeyedView,
) -> Result<Option<ClauseId>, DbFault>
    requires keyed { AreKeyed db.now }
    requires place { place < length (contents db.now).procedures }
    requires nothing { remaining_keyed later.old ≡ 0 }
    ensures left { (names : List (List ℕ)) (call : Tree) (cs : List databases.Clause) → ShowsKey names key call
        → AreClauses C.keeps names (clauses_at (contents db.now) place) cs
        → IfOk result (λ first. FirstLeft C.keeps names db.now first later.new call cs) }
    ensures there { is_ok result ≡ is_some (kind_at (contents db.now) place) }
    ensures unknown { IfErr result (λ fault. fault ≡ DbFault.Unknown) }
{
    db.begin(place, key, later)
}

/// Whether another clause is left in the view. Takes one step.
#[inline(always)]
pub fn has_left<C: OfClause>(db: &Db<Clause<C>>, later: &KeyedView) -> bool
    ensures { (names : List (List ℕ)) (ks : List (held.Clause (kept.Clause C))) (cs : List databases.Clause)
        → GivesKeyed db.now later.now ks → AreClauses C.keeps names ks cs → MatchBool result (0 < length cs) (cs ≡ []) }
{
    db.has_more(later)
}

/// The number of the next clause of a view, if there is one; the view gives those behind it then.
pub fn next_left<C: OfClause>(db: &Db<Clause<C>>, later: &mut KeyedView) -> Option<ClauseId>
    requires { (ks : List (held.Clause (kept.Clause C))) × GivesKeyed db.now later.old ks }
    ensures left { (names : List (List ℕ)) (ks : List (held.Clause (kept.Clause C))) (cs : List databases.Clause)
        → GivesKeyed db.now later.old ks → AreClauses C.keeps names ks cs → remaining_keyed later.old ≤ most_left
        → NextLeft (AreLeft C.keeps names db.now) result later.new cs }
    ensures falls { IfSome result (λ id. remaining_keyed later.new < remaining_keyed later.old) }
    ensures never_rises { remaining_keyed later.new ≤ remaining_keyed later.old }
{
    db.next_in(later)
}
