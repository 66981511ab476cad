//! A frame of a clause whose slot keeps another height.
ghost use Rattle.std.specs.Prelude.{◌≡◌, ◌<◌, ◌-◌, ◌++◌, ℕ, List, [], ◌∷◌, Option, Some, IfOk, length};
ghost use Rattle.std.specs.List.{slice_get};
ghost use Rattle.iso_compile.specs.ControlLaws.{with_level};
ghost use Rattle.iso_plain_core.specs.Entering.{Adds};
ghost use Rattle.iso_frames.specs.Frames.{Levels};
ghost use Rattle.iso_frames.specs.declared.frames.Work.TheVariants.{Clause};
ghost use Rattle.iso_environments.specs.Leveled.{IsAtClause, HasLeveled};

use iso_frames::{Frame, Level, Rest, Work};
use std::alloc::AllocError;

/// Appends a frame of the same clause, at the address before, whose slot keeps this height (`get_level`). The error is
/// that memory was refused.
pub fn push_level(
    frames: &mut Vec<Frame>,
    rest: Rest,
    slot: usize,
    height: usize,
) -> Result<Rest, AllocError>
    requires clause { (f : _) × (code : _) × (level : Option _) × IsAtClause frames.old.items rest f code level }
    requires address { 0 < rest.address }
    ensures level { (f : _) (code : _) (level : Option _) → IsAtClause frames.old.items rest f code level
        → IfOk result (λ made. HasLeveled frames.old.items rest slot height f code frames.new.items made) }
    ensures stand { Adds frames.old.items frames.new.items }
{
    let frame = &frames[rest.frame];
    let Work::Clause(code, _) = &frame.work else {
        unreachable!();
    };
    let level = Level {
        slot,
        height,
        frame: rest.frame,
    };
    let made = Frame {
        work: Work::Clause(code.clone()?, Some(level)),
        height: frame.height,
        top: frame.top,
        behind: frame.behind,
    };
    let place = frames.len();
    frames.push(made)?;
    Ok(Rest {
        frame: place,
        address: rest.address - 1,
    })
}
