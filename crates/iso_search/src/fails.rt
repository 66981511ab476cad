//! The move back to the newest choice, and what is done with it (7.7.8).
ghost use Rattle.std.specs.Prelude.{◌≡◌};
ghost use Rattle.iso_model.specs.Search.Walker.{State};

use super::callers::Calls;
use super::calls::Next;
use super::retries::Retry;
use super::search::{Move, Search};
use iso_model::Pause;
use iso_search_core::choices::Left;
use iso_store_core::{Store, StoreFault};

impl<S: Store + Drop, L: Calls<S>> Search<S, L> {
    ghost use Rattle.iso_search.specs.EngineStates.{Represents};
    ghost use Rattle.iso_search.specs.Moved.{Moved};
    ghost use Rattle.iso_search.specs.Retrying.{TriesNext};
    ghost use Rattle.iso_search_core.specs.declared.nows.Now.TheVariants as now;

    /// Goes back to the newest choice, and enters the clause that it tries next (7.7.8). The errors: the store is full,
    /// or memory was refused.
    fn retried(&mut self, retry: Retry<L::Call, L::Place>) -> Result<Move, StoreFault>
        requires failing { self.old.now ≡ now.Failing }
        requires stands { (s : State) × Represents S.Store L.Lists self.old s }
        requires tries { TriesNext self.old retry }
        ensures { Moved S.Store L.Lists (L.over self.old.limit) self.old result self.new }
    {
        match L::retry(self, retry)? {
            Next::Went => Ok(Move::Goes),
            Next::Full => Ok(Move::Pauses(Pause::FramesFull)),
            Next::Other => unreachable!(),
        }
    }

    /// Goes on with what is left at the newest choice; where there is no choice the run ends (7.7.8). The errors: the
    /// store is full, or memory was refused.
    pub(crate) fn fail(&mut self) -> Result<Move, StoreFault>
        requires failing { self.old.now ≡ now.Failing }
        requires stands { (s : State) × Represents S.Store L.Lists self.old s }
        ensures { Moved S.Store L.Lists (L.over self.old.limit) self.old result self.new }
    {
        if self.choices.is_empty() {
            self.clear();
            return Ok(Move::Pauses(Pause::NoMore));
        }
        if let Some(retry) = self.next_retry() {
            return self.retried(retry);
        }
        let newest = self.go_back();
        match self.choices[self.choices.len() - 1].left {
            Left::AsIs => {
                self.go_on(newest);
                Ok(Move::Goes)
            }
            Left::Again if self.steps == 0 => {
                self.clear();
                Ok(Move::Pauses(Pause::Budget))
            }
            Left::Again => {
                self.go_again(newest.rest);
                Ok(Move::Goes)
            }
            Left::Catching(_) => {
                self.pass_catch(newest.mark);
                Ok(Move::Goes)
            }
            Left::Gathering(solutions, _) => {
                self.end_gathering(newest, solutions)?;
                Ok(Move::Goes)
            }
            Left::Grouping(_, _) => {
                self.try_groups(newest)?;
                Ok(Move::Goes)
            }
            Left::Groups(_, _) => {
                self.try_groups(newest)?;
                Ok(Move::Goes)
            }
            Left::Offered(goal, _) => {
                self.try_next(newest, goal)?;
                Ok(Move::Goes)
            }
            Left::Shown(shown) => {
                self.show_next(newest, shown)?;
                Ok(Move::Goes)
            }
            Left::Clauses(_) => unreachable!(),
        }
    }
}
