//! What the machine does at what comes first of a list: it calls goals, and takes steps of its own.
ghost use Rattle.std.specs.Prelude.{◌≡◌, ℕ, None, Err, IfOk, OnErr, Option};
ghost use Rattle.iso_model.specs.Search.RunLaws.Spans.{ComesBeyond};
ghost use Rattle.iso_model.specs.Search.Walker.{State};
ghost use Rattle.iso_model.proofs.Search.RunLaws.Quiets.{reaches_behind};
ghost use Rattle.iso_search_core.specs.declared.nows.Now.TheVariants as now;
ghost use Rattle.iso_frames.specs.declared.frames.Next.TheVariants as next;
ghost use Rattle.iso_search.specs.EngineStates.{Represents, Refused, weight};
ghost use Rattle.iso_search.specs.Moved.{Moved};
ghost use Rattle.iso_search.specs.Nexts.{ComesNext, FallsNext, WentOrFull};
ghost use Rattle.iso_search.specs.Retrying.{TriesNext};
ghost use Rattle.iso_search.specs.Stays.{Stays};
ghost use Rattle.iso_machine.specs.Engines.{framed};
ghost use Rattle.iso_machine.specs.Steps.{IsByStep, IsOtherThere};

use super::arithmetic::run_arithmetic;
use super::callers;
use super::control::run_instruction;
use super::framed::{Framed, KeptCall};
use super::goal_places::{Act, act_there};
use super::retrying::try_next;
use iso_cells::Cells;
use iso_control::control::{First, run_member};
use iso_frames::{Next as Coming, Rest};
use iso_search::callers::Calls;
use iso_search::calls::{Next, NextGoal};
use iso_search::retries::Retry;
use iso_search::search::{Move, Search};
use iso_store_core::{Store, StoreFault};

/// Does the instruction there, which calls no goal. The errors: the store is full, or memory was refused.
fn run_code<S: Cells + Drop>(
    search: &mut Search<S, Framed<S>>,
    rest: Rest,
) -> Result<Move, StoreFault>
    requires now { search.old.now ≡ now.Running (next.Code rest) }
    requires there { IsOtherThere search.old.lists.frames.items rest }
    requires stands { (s : State) × Represents S.Store (framed S.atom_word) search.old s }
    ensures { Moved S.Store (framed S.atom_word) (ComesBeyond search.old.limit) search.old result search.new }
{
    match act_there(search.lists.frames.as_slice(), rest) {
        Act::Computes => run_arithmetic(search, rest),
        _ => run_instruction(search, rest),
    }
}

impl<S: Cells + Drop> Calls<S> for Framed<S> {
    ghost over = { ComesBeyond };

    ghost by_step = { IsByStep };

    fn call_first(
        search: &mut Search<S, Framed<S>>,
        first: Coming<S::Word>,
        asked: &mut Option<NextGoal<S::Word, Option<Rest>>>,
    ) -> Result<Next, StoreFault> {
        callers::call_first(search, first, asked)
    }

    fn step(search: &mut Search<S, Framed<S>>, first: Coming<S::Word>) -> Result<Move, StoreFault> {
        match first {
            Coming::Member(link) => run_member(
                search,
                First {
                    todo: link.todo,
                    height: link.height,
                    behind: link.behind,
                },
            ),
            Coming::Goal(_, _) => unreachable!(),
            Coming::Code(rest) => run_code(search, rest),
        }
    }

    #[inline(always)]
    fn retry(
        search: &mut Search<S, Framed<S>>,
        retry: Retry<KeptCall, Option<Rest>>,
    ) -> Result<Next, StoreFault>
        requires failing { search.old.now ≡ now.Failing }
        requires stands { (s : State) × Represents S.Store (framed S.atom_word) search.old s }
        requires tries { TriesNext search.old retry }
        ensures next { (s : State) → Represents S.Store (framed S.atom_word) search.old s
            → IfOk result (λ n. ComesNext S.Store (framed S.atom_word) ComesBeyond IsByStep n None s search.new) }
        ensures went { IfOk result WentOrFull }
        ensures stopped { (s : State) → Represents S.Store (framed S.atom_word) search.old s
            → OnErr result (Refused S.Store (framed S.atom_word) search.new s) }
        ensures falls { IfOk result (λ n. FallsNext n (weight (framed S.atom_word) search.old)
            (weight (framed S.atom_word) search.new)) }
        ensures full { result ≡ Err StoreFault.Full → S.full search.new.store }
        ensures stays { Stays S.Store search.old search.new }
    {
        try_next(search, retry)?;
        Ok(Next::Went)
    }

    ghost spans = { λ limit s full. full.1 };

    ghost leads = { λ limit s t quiet beyond. reaches_behind quiet beyond };
}
