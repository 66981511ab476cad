//! The heights that slots keep.
ghost use Rattle.std.specs.Prelude.{◌≡◌, ℕ};
ghost use Rattle.iso_frames.specs.Frames.{Levels};

use super::frames::{Frame, Level, Work};

/// The height that a slot keeps; 0 where it keeps none.
pub fn height_of(frames: &[Frame], level: Option<Level>, slot: usize) -> usize
    requires { (i : ℕ) × (kept : ℕ → ℕ) × Levels frames.now i level kept }
    ensures { (i : ℕ) (kept : ℕ → ℕ) → Levels frames.now i level kept → result ≡ kept slot }
{
    let mut level = level;
    while let Some(newest) = level {
        if newest.slot == slot {
            return newest.height;
        }
        level = match &frames[newest.frame].work {
            Work::Clause(_, older) => *older,
            Work::Member(_) => None,
        };
    }
    0
}
