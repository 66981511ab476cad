//! Whether frames and choices may still come: while they are few; or while what they are for, members and alternatives
//! of the search, is little beside how many there may be.
ghost use Rattle.std.specs.Prelude.{◌≡◌, ◌≤◌, ◌<◌, ◌^◌, ℕ, List, Option, length, true, false};
ghost use Rattle.iso_model.specs.Terms.Trees.{Tree};
ghost use Rattle.iso_model.specs.Search.Walker.{Alternative, Member};
ghost use Rattle.iso_store_core.specs.Presents.{Present};
ghost use Rattle.iso_search.specs.EngineStates.{HasChoices};
ghost use Rattle.iso_machine.specs.Engines.{IsBeyond, framed};
ghost use Rattle.iso_machine.specs.Lists.{IsList, extent_of};

use super::framed::{Framed, first_of};
use iso_cells::Cells;
use iso_frames::Rest;
use iso_search::search::Search;

/// How many frames of the list from the place on have something left; not counted past so many. Each is for a member at
/// least.
fn members_from<S: Cells>(lists: &Framed<S>, place: Option<Rest>, most: usize) -> usize
    requires { (p : Present S.Word) × (ms : List Member)
        × IsList S.atom_word p lists.now (extent_of lists.now) place ms }
    ensures few { (p : Present S.Word) (ms : List Member)
        → IsList S.atom_word p lists.now (extent_of lists.now) place ms → result ≤ length ms }
    ensures most { result ≤ most }
{
    let mut count = 0;
    let mut place = place;
    while let Some(rest) = place {
        if count == most {
            return count;
        }
        let frame = &lists.frames[rest.frame];
        if first_of::<S::Word>(frame, rest).is_some() {
            count += 1;
        }
        place = frame.behind;
    }
    count
}

/// Whether the list from the place on, and the choices with the lists behind them, are for so many members and
/// alternatives that three times as many are more than there may be frames and choices.
#[inline(never)]
fn is_beyond<S: Cells + Drop>(search: &Search<S, Framed<S>>, place: &Option<Rest>) -> bool
    requires { (query : Tree) × (ks : List Alternative) × (ms : List Member)
        × HasChoices S.Store (framed S.atom_word) search.now query ks
        × IsList S.atom_word (S.present search.now.store) search.now.lists (extent_of search.now.lists) place.now ms }
    ensures { result ≡ true → IsBeyond S.Store S.atom_word search.entry.now place.now }
{
    let most = search.limit as usize / 3;
    let mut count = members_from(&search.lists, *place, most);
    let mut height = search.choices.len();
    while height > 0 && count < most {
        height -= 1;
        let rest = search.choices[height].rest;
        count += 1 + members_from(&search.lists, rest, most - count);
    }
    count >= most
}

/// Whether a choice and a frame may come, where the list from the place on is the engine's.
pub(crate) fn has_room<S: Cells + Drop>(search: &Search<S, Framed<S>>, place: &Option<Rest>) -> bool
    requires { (query : Tree) × (ks : List Alternative) × (ms : List Member)
        × HasChoices S.Store (framed S.atom_word) search.now query ks
        × IsList S.atom_word (S.present search.now.store) search.now.lists (extent_of search.now.lists) place.now ms }
    ensures room { result ≡ true → length search.entry.now.choices.items < search.entry.now.limit }
    ensures few { result ≡ true → length search.entry.now.choices.items < 2 ^ 32 }
    ensures full { result ≡ false → IsBeyond S.Store S.atom_word search.entry.now place.now }
{
    let limit = search.limit as usize;
    let choices = search.choices.len();
    if choices + search.lists.frames.len() < limit {
        return true;
    }
    choices < limit && !is_beyond(search, place)
}
