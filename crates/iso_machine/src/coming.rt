//! The engine goes on with the list from a place on.
ghost use Rattle.std.specs.Prelude.{◌≤◌, List};
ghost use Rattle.iso_model.specs.Search.Engines.{IsAwake};
ghost use Rattle.iso_model.specs.Search.Walker.{Member};
ghost use Rattle.iso_store_core.specs.Presents.{Present};
ghost use Rattle.iso_search_core.specs.Costs.{now_cost};
ghost use Rattle.iso_frames.specs.Costs.{first_cost};
ghost use Rattle.iso_search.specs.EngineStates.{IsBehind, phase_of};
ghost use Rattle.iso_machine.specs.Engines.{framed};
ghost use Rattle.iso_machine.specs.Lists.{IsList, cost_at, extent_of};

use super::framed::Framed;
use iso_cells::Cells;
use iso_frames::{Next as First, Rest};
use iso_search_core::lists::Lists;
use iso_search_core::nows::Now;
use iso_store_core::Store;

/// Goes on with what comes first of the list from the place on, or with an answer where nothing is left.
#[inline(never)]
fn look_ahead<S: Cells>(
    doing: &mut Now<First<S::Word>, Option<Rest>>,
    lists: &Framed<S>,
    place: Option<Rest>,
)
    requires { (p : Present S.Word) × (ms : List Member)
        × IsList S.atom_word p lists.now (extent_of lists.now) place ms }
    ensures behind { (p : Present S.Word) (ms : List Member)
        → IsList S.atom_word p lists.now (extent_of lists.now) place ms
        → IsBehind (framed S.atom_word) p lists.now place doing.new ms }
    ensures cost { now_cost (first_cost lists.now.frames.items) doing.new ≤ cost_at lists.now place }
    ensures awake { IsAwake (phase_of doing.new) }
{
    match lists.at(place) {
        Some(first) => *doing = Now::Running(first),
        None => *doing = Now::Answering,
    }
}

/// Goes on with what comes first of the list from the place on, or with an answer where nothing is left.
#[inline(always)]
pub(crate) fn go_on<S: Cells>(
    doing: &mut Now<First<S::Word>, Option<Rest>>,
    lists: &Framed<S>,
    place: Option<Rest>,
)
    requires { (p : Present S.Word) × (ms : List Member)
        × IsList S.atom_word p lists.now (extent_of lists.now) place ms }
    ensures behind { (p : Present S.Word) (ms : List Member)
        → IsList S.atom_word p lists.now (extent_of lists.now) place ms
        → IsBehind (framed S.atom_word) p lists.now place doing.new ms }
    ensures cost { now_cost (first_cost lists.now.frames.items) doing.new ≤ cost_at lists.now place }
    ensures awake { IsAwake (phase_of doing.new) }
{
    match lists.code_from(place) {
        Some(rest) => *doing = Now::Running(First::Code(rest)),
        None => look_ahead(doing, lists, place),
    }
}
