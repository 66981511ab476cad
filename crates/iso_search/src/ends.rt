//! The moves that give the caller an answer, or a ball that nothing catches (7.7).
ghost use Rattle.std.specs.Prelude.{◌≡◌, true, IfOk, List, ℕ, ◌∷◌, map};
ghost use Rattle.std.specs.List.{All};
ghost use Rattle.iso_model.specs.Terms.TermOf.{term_of};
ghost use Rattle.iso_model.specs.Terms.Trees.{Tree, arities_fit};
ghost use Rattle.iso_model.specs.Search.Walker.{State, Member, Raise};
ghost use Rattle.iso_search.specs.Catches.{IsUncaught};
ghost use Rattle.iso_search_core.specs.Words.{AreVariables};

use super::search::{Move, Search};
use iso_model::{Pause, Term};
use iso_search_core::lists::Lists;
use iso_search_core::nows::Now;
use iso_store_core::{Store, StoreFault};
use std::alloc::{AllocError, Global};

/// The terms that these words of variables stand for. The error is that memory was refused.
fn values<S: Store>(alloc: Global, store: &S, words: &[S::Word]) -> Result<Vec<Term>, AllocError>
    requires { (ns : List ℕ) × AreVariables (S.present store.now) words.now ns }
    ensures are { (ns : List ℕ) → AreVariables (S.present store.now) words.now ns
        → IfOk result (λ ts. map term_of ts.items ≡ map (S.present store.now).substitution ns) }
    ensures fit { IfOk result (λ ts. All (λ t. arities_fit (term_of t) ≡ true) ts.items) }
{
    let mut values = Vec::new(alloc);
    for word in words {
        let value = store.copy_out(*word)?;
        values.push(value)?;
    }
    Ok(values)
}

impl<S: Store + Drop, L: Lists<S>> Search<S, L> {
    ghost use Rattle.iso_search.specs.EngineStates.{IsBase, Represents, Moves, Falls, weight};
    ghost use Rattle.iso_search.specs.Limits.{ResultMet, MoveFull};
    ghost use Rattle.iso_search.specs.Stays.{Stays};
    ghost use Rattle.iso_search.specs.Moved.{Moved};
    ghost use Rattle.iso_search_core.specs.declared.nows.Now.TheVariants.{Answering, Raising};

    /// The values of the query's variables, by first occurrence; the engine fails next. The error is that memory was
    /// refused.
    pub(crate) fn answer(&mut self) -> Result<Move, StoreFault>
        requires now { self.old.now ≡ Answering }
        requires stands { (s : State) × Represents S.Store L.Lists self.old s }
        ensures moved { Moved S.Store L.Lists (λ s. ⊥) self.old result self.new }
        ensures base { IsBase S.Store self.old.store self.old.base → IsBase S.Store self.new.store self.new.base }
    {
        let values = values(self.alloc, &self.store, self.query.as_slice())?;
        self.now = Now::Failing;
        Ok(Move::Pauses(Pause::Answer(values)))
    }

    /// Ends the run with the ball that was kept, which nothing catches (7.8.10).
    pub(crate) fn end_by_ball(&mut self) -> Move
        requires now { (place : L.Place) × (self.old.now ≡ Raising place) }
        requires stands { (s : State) × Represents S.Store L.Lists self.old s }
        ensures moves { (s : State) → (r : Represents S.Store L.Lists self.old s) → ((ball : Tree)
            (behind : List Member) → r.own.list ≡ Raise ball ∷ behind → IsUncaught ball behind r.own)
            → Moves S.Store L.Lists result s self.new }
        ensures falls { Falls result (weight L.Lists self.old) (weight L.Lists self.new) }
        ensures frames { MoveFull ⊥ result }
        ensures met { ResultMet S.Store (Ok result) self.new }
        ensures stays { Stays S.Store self.old self.new }
    {
        let ball = self.raised.take();
        self.clear();
        match ball {
            Some(ball) => Move::Pauses(Pause::Uncaught(ball)),
            None => unreachable!(),
        }
    }
}
