//! Taking bindings of a heap back.
ghost use Rattle.std.specs.Prelude.{◌≡◌, ◌≤◌, length, take, drop};
ghost use Rattle.iso_area.specs.Stacks.{stacks};
ghost use Rattle.iso_store.specs.HeapStores.{unbound_at, reset};

use super::flat_cells::CellArea;
use super::heap_cells::Cell;

/// Takes the binding at this place back.
fn unbind(area: &mut CellArea, place: usize)
    ensures { area.new ≡ stacks (unbound_at area.old.low place) area.old.high area.old.capacity }
{
    if place < area.low_len() {
        if let Some(number) = area.bound_number(place) {
            area.set_low(place, Cell::Unbound(number));
        }
    }
}

/// Takes the bindings from the entry `top` of the trail on back, the newest first.
pub(crate) fn unwind(area: &mut CellArea, top: usize)
    requires { top ≤ length area.old.high }
    ensures { area.new ≡ stacks (reset (drop top area.old.high) area.old.low) (take top area.old.high) area.old.capacity }
{
    let mut left = area.high_len();
    while left > top {
        left -= 1;
        if let Cell::Entry(place) = area.high(left) {
            unbind(area, place);
        }
    }
    area.cut_high(top);
}
