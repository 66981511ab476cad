//! What engines differ in: how what comes first of a list is run, and how clauses are tried for a call.
ghost use Rattle.std.specs.Prelude.{◌≡◌, ℕ, None, Err, IfOk, OnErr};
ghost use Rattle.iso_model.specs.Search.Walker.{State};
ghost use Rattle.iso_model.specs.Search.Runs.{Quiet};
ghost use Rattle.iso_search.specs.Limits.{ComesFull};
ghost use Rattle.iso_search.specs.EngineStates.{Represents, Refused, weight};
ghost use Rattle.iso_search.specs.Moved.{Moved};
ghost use Rattle.iso_search.specs.Nexts.{ComesNext, FallsNext, WentOrFull};
ghost use Rattle.iso_search.specs.Retrying.{TriesNext};
ghost use Rattle.iso_search.specs.Stays.{Stays};
ghost use Rattle.iso_search_core.specs.declared.nows.Now.TheVariants as now;

use super::calls::{Next, NextGoal};
use super::retries::Retry;
use super::search::{Move, Search};
use iso_search_core::lists::Lists;
use iso_store_core::{Store, StoreFault};

/// How an engine runs what comes first of a list of goals, and tries clauses for a call.
pub trait Calls<S: Store + Drop>: Lists<S> {
    /// In the piece of a walk that begins with this state the frames may be full, where so many may stand.
    ghost over: { ℕ → State → Type 0 };
    /// What comes first is done by `step`.
    ghost by_step: { Self → Self.Next → Type 0 };

    /// Calls the procedure of the goal that comes first, where it is one with clauses and a step is left; anything else
    /// is left as it is, and `asked` is the goal then, or none. The errors: the store is full, or memory was refused.
    fn call_first(
        search: &mut Search<S, Self>,
        first: Self::Next,
        asked: &mut Option<NextGoal<S::Word, Self::Place>>,
    ) -> Result<Next, StoreFault>
        requires now { search.old.now ≡ now.Running first }
        requires stands { (s : State) × Represents S.Store Self.Lists search.old s }
        ensures next { (s : State) → Represents S.Store Self.Lists search.old s
            → IfOk result (λ n. ComesNext S.Store Self.Lists over by_step n asked.new s search.new) }
        ensures stopped { (s : State) → Represents S.Store Self.Lists search.old s
            → OnErr result (Refused S.Store Self.Lists search.new s) }
        ensures falls { IfOk result (λ n. FallsNext n (weight Self.Lists search.old) (weight Self.Lists search.new)) }
        ensures full { result ≡ Err StoreFault.Full → S.full search.new.store }
        ensures stays { Stays S.Store search.old search.new };

    /// Does what comes first, which is left to it. The errors: the store is full, or memory was refused.
    fn step(search: &mut Search<S, Self>, first: Self::Next) -> Result<Move, StoreFault>
        requires now { search.old.now ≡ now.Running first }
        requires left { by_step search.old.lists first }
        requires stands { (s : State) × Represents S.Store Self.Lists search.old s }
        ensures { Moved S.Store Self.Lists (over search.old.limit) search.old result search.new };

    /// Goes back to the newest choice, and enters the clause that it tries next (7.7.8); it leaves nothing as it is. The
    /// errors: the store is full, or memory was refused.
    fn retry(
        search: &mut Search<S, Self>,
        retry: Retry<Self::Call, Self::Place>,
    ) -> Result<Next, StoreFault>
        requires failing { search.old.now ≡ now.Failing }
        requires stands { (s : State) × Represents S.Store Self.Lists search.old s }
        requires tries { TriesNext search.old retry }
        ensures next { (s : State) → Represents S.Store Self.Lists search.old s
            → IfOk result (λ n. ComesNext S.Store Self.Lists over by_step n None s search.new) }
        ensures went { IfOk result WentOrFull }
        ensures stopped { (s : State) → Represents S.Store Self.Lists search.old s
            → OnErr result (Refused S.Store Self.Lists search.new s) }
        ensures falls { IfOk result (λ n. FallsNext n (weight Self.Lists search.old) (weight Self.Lists search.new)) }
        ensures full { result ≡ Err StoreFault.Full → S.full search.new.store }
        ensures stays { Stays S.Store search.old search.new };

    /// They may be full where the search comes to more alternatives, and to a state that spans more.
    ghost spans: { (limit : ℕ) (s : State) → ComesFull limit s → over limit s };
    /// They may be full where they may be ahead, before any event.
    ghost leads: { (limit : ℕ) (s t : State) → Quiet s t → over limit t → over limit s };
}
