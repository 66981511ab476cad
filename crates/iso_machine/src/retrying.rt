//! How the machine tries the clauses again that a choice has left (7.7.8).
ghost use Rattle.std.specs.Prelude.{◌≡◌, ◌≢◌, IfOk, Ok, true};
ghost use Rattle.iso_db.specs.declared.keyed.KeyedView.{KeyedView};
ghost use Rattle.iso_model.specs.Search.Walker.{State};
ghost use Rattle.iso_search_core.specs.declared.nows.Now.TheVariants as now;
ghost use Rattle.iso_search.specs.EngineStates.{Represents};
ghost use Rattle.iso_search.specs.Retrying.{TriesNext};
ghost use Rattle.iso_machine.specs.Came.{CameLast, CameTo, went_on};
ghost use Rattle.iso_plain_core.specs.Entering.{Adds};
ghost use Rattle.iso_machine.specs.Engines.{Engine, framed};
ghost use Rattle.iso_machine.specs.Lists.{arguments_at};
ghost use Rattle.iso_machine.specs.Unpushed.{Choices, IsBack, with_choices};

use super::calling::{Gone, enter_clause, take_arguments};
use super::framed::{Framed, KeptCall};
use iso_cells::Cells;
use iso_db::ClauseId;
use iso_environments::Put;
use iso_frames::Rest;
use iso_search::retries::Retry;
use iso_search::search::Search;
use iso_store_core::{Store, StoreFault};

/// Enters this clause for a call that was kept, before the list from this place on, above so many choices. The arguments
/// of the call are those that were put. It makes no frame where it is said to be the last and its body is one goal of a
/// procedure. The errors: the store is full, or memory was refused.
#[inline(always)]
pub(crate) fn enter_kept<S: Cells + Drop>(
    search: &mut Search<S, Framed<S>>,
    clause: ClauseId,
    call: KeptCall,
    behind: Option<Rest>,
    below: usize,
    last: bool,
) -> Result<Gone, StoreFault>
    requires arguments { search.old.lists.arguments.items ≡ arguments_at search.old.lists call }
    requires back { (choices : Choices S.Word S.Mark) × (later : KeyedView) × (old : Engine S S.Word S.Mark)
        × (s : State) × Represents S.Store (framed S.atom_word) old s
        × IsBack S.Store S.atom_word old (with_choices search.old choices)
        (record { clause = clause; later = later; call = call }) behind below }
    ensures came { (choices : Choices S.Word S.Mark) (later : KeyedView) (old : Engine S S.Word S.Mark) (s : State)
        → Represents S.Store (framed S.atom_word) old s
        → IsBack S.Store S.atom_word old (with_choices search.old choices)
        (record { clause = clause; later = later; call = call }) behind below
        → CameLast S.Store S.atom_word old result (with_choices search.new choices) clause behind }
    ensures alone { result ≡ Ok Gone.Last → last ≡ true }
    ensures entered { result ≢ Ok Gone.Full }
    ensures same { search.new.choices ≡ search.old.choices }
    ensures arguments { search.new.lists.arguments ≡ search.old.lists.arguments }
    ensures words { Adds search.old.lists.words.items search.new.lists.words.items }
    ensures steps { search.new.steps ≡ search.old.steps }
{
    let put = Put {
        name: call.name,
        behind,
    };
    match enter_clause(search, clause, &put, below, last)? {
        Gone::Went => Ok(Gone::Went),
        Gone::Full => unreachable!(),
        Gone::Last => Ok(Gone::Last),
    }
}

/// Enters the clause that was left, above so many choices: the arguments of its call come back first. The errors: the
/// store is full, or memory was refused.
#[inline(always)]
fn retry_above<S: Cells + Drop>(
    search: &mut Search<S, Framed<S>>,
    retry: Retry<KeptCall, Option<Rest>>,
    below: usize,
) -> Result<(), StoreFault>
    requires { (choices : Choices S.Word S.Mark) × (later : KeyedView) × (old : Engine S S.Word S.Mark) × (s : State)
        × Represents S.Store (framed S.atom_word) old s
        × IsBack S.Store S.atom_word old (with_choices search.old choices)
        (record { clause = retry.clause; later = later; call = retry.call }) retry.rest below }
    ensures came { (choices : Choices S.Word S.Mark) (later : KeyedView) (old : Engine S S.Word S.Mark) (s : State)
        → Represents S.Store (framed S.atom_word) old s
        → IsBack S.Store S.atom_word old (with_choices search.old choices)
        (record { clause = retry.clause; later = later; call = retry.call }) retry.rest below
        → CameTo S.Store S.atom_word old (went_on result) (with_choices search.new choices) }
    ensures same { search.new.choices ≡ search.old.choices }
    ensures steps { IfOk result (λ done. search.new.steps ≡ search.old.steps) }
{
    take_arguments(&mut search.lists, retry.call)?;
    match enter_kept(search, retry.clause, retry.call, retry.rest, below, false)? {
        Gone::Went => Ok(()),
        Gone::Full => unreachable!(),
        Gone::Last => unreachable!(),
    }
}

/// Goes back to the newest choice, and enters the clause that it tries next. The errors: the store is full, or memory
/// was refused.
#[inline(always)]
pub(crate) fn try_next<S: Cells + Drop>(
    search: &mut Search<S, Framed<S>>,
    retry: Retry<KeptCall, Option<Rest>>,
) -> Result<(), StoreFault>
    requires failing { search.old.now ≡ now.Failing }
    requires stands { (s : State) × Represents S.Store (framed S.atom_word) search.old s }
    requires tries { TriesNext search.old retry }
    ensures came { CameTo S.Store S.atom_word search.old (went_on result) search.new }
    ensures steps { IfOk result (λ done. search.new.steps ≡ search.old.steps) }
{
    let newest = search.go_back();
    let below = search.leave_choice(newest.mark);
    let again = Retry {
        clause: retry.clause,
        call: retry.call,
        rest: newest.rest,
    };
    retry_above(search, again, below)
}
