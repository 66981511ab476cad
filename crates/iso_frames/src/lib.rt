//! Frames: what is left of clauses' bodies, over environments, and members of the list of goals beside them.
#![tactic(auto)]

mod frames;
mod jumps;
mod levels;

pub use frames::{Frame, Level, Link, Next, Rest, Work, top_of};
pub use jumps::going;
pub use levels::height_of;
