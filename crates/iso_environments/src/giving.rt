//! Frames and words that are given up.
ghost use Rattle.std.specs.Prelude.{◌≡◌, ◌≤◌, ℕ, List, max, take};
ghost use Rattle.iso_model.specs.Search.Walker.{Member};
ghost use Rattle.iso_store_core.specs.Presents.{Present};
ghost use Rattle.iso_prep.specs.declared.bodies.Node.{Node};
ghost use Rattle.iso_frames.specs.Frames.{Chain, IsPlace, top_of, depth_of};
ghost use Rattle.iso_environments.specs.Stacks.{stack};

use super::words::Words;
use iso_frames::{Frame, Rest, top_of};

/// Gives up all frames but the lowest, so many: one by one, since mostly it is none or one.
#[inline(always)]
fn keep_lowest(frames: &mut Vec<Frame>, count: usize)
    ensures { frames.new.items ≡ take count frames.old.items }
{
    while frames.len() > count {
        frames.pop();
    }
}

/// Gives up the frames and words that are neither among the first ones, so many, nor needed for the list from the place
/// on.
#[inline(always)]
pub fn give_up<W: Copy>(
    frames: &mut Vec<Frame>,
    words: &mut Words<W>,
    kept_frames: usize,
    kept_words: usize,
    behind: Option<Rest>,
)
    requires { IsPlace frames.old.items behind }
    ensures frames { frames.new.items ≡ take (max kept_frames (depth_of behind)) frames.old.items }
    ensures words { words.new.items ≡ take (max kept_words (top_of frames.old.items behind)) words.old.items }
    ensures list { (atom_word : ℕ → W) (p : Present W) (nodes : List (Node W)) (ms : List Member)
        → Chain atom_word p (stack nodes frames.old.items words.old.items) behind ms
        → Chain atom_word p (stack nodes frames.new.items words.new.items) behind ms }
    ensures kept_frames { (j : ℕ) → j ≤ kept_frames → take j frames.new.items ≡ take j frames.old.items }
    ensures kept_words { (j : ℕ) → j ≤ kept_words → take j words.new.items ≡ take j words.old.items }
{
    let needed = match behind {
        Some(rest) => rest.frame + 1,
        None => 0,
    };
    let top = top_of(frames.as_slice(), behind);
    keep_lowest(frames, kept_frames.max(needed));
    words.truncate(kept_words.max(top));
}
