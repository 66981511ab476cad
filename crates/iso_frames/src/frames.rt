//! Frames, and how much stands for them.
ghost use Rattle.std.specs.Prelude.{◌≡◌};
ghost use Rattle.iso_frames.specs.Frames.{IsPlace, top_of};

use iso_instructions::Code;
use iso_plain_core::members::Todo;
use std::rc::Rc;

/// Where a list goes on: at this address of the code of the frame at this place. A frame of one member has address 0.
#[derive(Clone, Copy)]
pub struct Rest {
    pub frame: usize,
    pub address: usize,
}

/// The height of the stack of choice points that a slot keeps (`get_level`).
#[derive(Clone, Copy)]
pub struct Level {
    pub slot: usize,
    pub height: usize,
    /// The frame that has the other slots of the clause.
    pub frame: usize,
}

/// What a frame has to do.
#[derive(Drop)]
pub enum Work {
    /// What is left of the code of a clause, and the level that was kept last.
    Clause(Rc<Code>, Option<Level>),
    /// One member.
    Member(Todo),
}

/// A frame. It stands behind all that its list goes on with.
#[derive(Drop)]
pub struct Frame {
    pub work: Work,
    /// The height of the cut mark, or of what the member asks for.
    pub height: usize,
    /// How many words stand for it and for all behind it. The last of them are the environment of its clause.
    pub top: usize,
    /// Where the list goes on behind it.
    pub behind: Option<Rest>,
}

/// A member that isn't in a frame.
#[derive(Clone, Copy)]
pub struct Link {
    pub todo: Todo,
    /// The height of its cut mark, or of what it asks for.
    pub height: usize,
    /// Where the list goes on behind it.
    pub behind: Option<Rest>,
}

/// What comes first of a list.
#[derive(Clone, Copy)]
pub enum Next<W> {
    /// A member.
    Member(Link),
    /// The goal that the word stands for, before the list from the place on.
    Goal(W, Option<Rest>),
    /// The instruction there, which is neither `proceed` nor a jump.
    Code(Rest),
}

/// How many words stand for a list that begins at this place.
pub fn top_of(frames: &[Frame], place: Option<Rest>) -> usize
    requires { IsPlace frames.now place }
    ensures { result ≡ top_of frames.now place }
{
    match place {
        Some(rest) => frames[rest.frame].top,
        None => 0,
    }
}
