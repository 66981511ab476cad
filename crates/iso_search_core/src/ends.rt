//! What stands behind a goal that another one runs, and what a thrown ball passes.

/// What is done where the goal that another one runs has a solution.
#[derive(Clone, Copy)]
pub enum End<W> {
    /// The choices above so many are taken away: its first solution is the only one (8.15.2).
    CutTo(usize),
    /// The same, and then it fails (8.15.1).
    Refute(usize),
    /// The catch is left whose choice has this height for its place (7.8.9).
    Leave(usize),
    /// A copy of this template is gathered at the choice that has this height for its place, and it fails (8.10.1).
    Gather(usize, W),
}

/// What a thrown ball passes: some of a list.
#[derive(Clone, Copy)]
pub struct Past<P> {
    /// The height of the catch whose end was passed, where one was.
    pub leave: Option<usize>,
    /// The list behind it.
    pub behind: P,
}
