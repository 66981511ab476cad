//! The limits of a session.

/// What a session may use.
#[derive(Clone, Copy, Debug, PartialEq, Eq)]
pub struct Limits {
    /// Steps for each query: 0 to 4,294,967,295.
    pub budget: u32,
    /// Cells (for the plain engine over nodes: nodes): 1 to 268,435,456.
    pub cells: u32,
    /// Frames (for the plain engine: alternatives): 1 to 16,777,216.
    pub frames: u32,
}

impl Limits {
    /// The limits of a session for which nothing else is said.
    pub const DEFAULT: Limits = Limits {
        budget: 1_000_000,
        cells: 16_777_216,
        frames: 1_000_000,
    };
    /// The most cells that may be asked for.
    pub const MOST_CELLS: u32 = 268_435_456;
    /// The most frames that may be asked for.
    pub const MOST_FRAMES: u32 = 16_777_216;
}

/// What ends a run, and with it the session, before its end.
#[derive(Clone, Copy, Debug, PartialEq, Eq)]
pub enum Limit {
    /// The cells (or nodes) were used up.
    Heap,
    /// The frames were used up.
    Frames,
    /// Memory was refused.
    Memory,
}
