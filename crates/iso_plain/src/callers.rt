//! How the plain engine runs what comes first of a list, and tries clauses for a call.
ghost use Rattle.std.specs.Prelude.{◌≡◌, Err, IfOk, OnErr};
ghost use Rattle.iso_model.specs.Search.Walker.{State};
ghost use Rattle.iso_model.specs.Search.Runs.{ComesOver};
ghost use Rattle.iso_model.proofs.Search.RunLaws.Quiets.{reaches_behind};
ghost use Rattle.iso_search_core.specs.declared.nows.Now.TheVariants as now;
ghost use Rattle.iso_search.specs.EngineStates.{Represents, Refused, weight};
ghost use Rattle.iso_search.specs.Nexts.{ComesNext, FallsNext, WentOrFull};
ghost use Rattle.iso_search.specs.Retrying.{TriesNext};
ghost use Rattle.iso_search.specs.Stays.{Stays};
ghost use Rattle.iso_plain.specs.Engines.{linked};
ghost use Rattle.iso_plain.specs.LinkMembers.{IsByStep};

use super::calling::{call, enter_clause};
use super::linked::Linked;
use iso_control::control::{First, run_member};
use iso_db::KeyedView;
use iso_model::Limit;
use iso_plain_core::bodies::Node;
use iso_plain_core::members::{Link, Todo};
use iso_search::callers::Calls;
use iso_search::calls::{Called, Next, NextGoal};
use iso_search::retries::Retry;
use iso_search::search::{Move, Search};
use iso_search_core::nows::Now;
use iso_store_core::{Store, StoreFault};

impl<S: Store + Drop> Calls<S> for Linked<S> {
    ghost over = { ComesOver };

    ghost by_step = { IsByStep };

    fn call_first(
        search: &mut Search<S, Linked<S>>,
        first: Link,
        asked: &mut Option<NextGoal<S::Word, Option<usize>>>,
    ) -> Result<Next, StoreFault> {
        *asked = None;
        let Todo::Body(place) = first.todo else {
            return Ok(Next::Other);
        };
        let Node::Run(goal) = search.lists.nodes[place] else {
            return Ok(Next::Other);
        };
        let mut later = KeyedView::nothing();
        let called = search.called(goal, &mut later);
        let rest = first.next;
        if search.steps == 0 {
            *asked = Some(NextGoal { goal, rest, called });
            return Ok(Next::Other);
        }
        match called {
            Called::User(clause) => {
                search.steps -= 1;
                if call(search, clause, &mut later, goal, rest)? {
                    return Ok(Next::Went);
                }
                search.now = Now::Spent(Limit::Frames);
                Ok(Next::Full)
            }
            called => {
                *asked = Some(NextGoal { goal, rest, called });
                Ok(Next::Other)
            }
        }
    }

    fn step(search: &mut Search<S, Linked<S>>, first: Link) -> Result<Move, StoreFault> {
        run_member(
            search,
            First {
                todo: first.todo,
                height: first.height,
                behind: first.next,
            },
        )
    }

    #[inline(always)]
    fn retry(
        search: &mut Search<S, Linked<S>>,
        retry: Retry<S::Word, Option<usize>>,
    ) -> Result<Next, StoreFault>
        requires failing { search.old.now ≡ now.Failing }
        requires stands { (s : State) × Represents S.Store linked search.old s }
        requires tries { TriesNext search.old retry }
        ensures next { (s : State) → Represents S.Store linked search.old s
            → IfOk result (λ n. ComesNext S.Store linked ComesOver IsByStep n None s search.new) }
        ensures went { IfOk result WentOrFull }
        ensures stopped { (s : State) → Represents S.Store linked search.old s
            → OnErr result (Refused S.Store linked search.new s) }
        ensures falls { IfOk result (λ n. FallsNext n (weight linked search.old) (weight linked search.new)) }
        ensures full { result ≡ Err StoreFault.Full → S.full search.new.store }
        ensures stays { Stays S.Store search.old search.new }
    {
        let newest = search.go_back();
        let below = search.leave_choice(newest.mark);
        enter_clause(search, retry.clause, retry.call, newest.rest, below)?;
        Ok(Next::Went)
    }

    ghost spans = { λ limit s full. full.0 };

    ghost leads = { λ limit s t quiet over. reaches_behind quiet over };
}
