//! The members of the list of goals.
ghost use Rattle.std.specs.Prelude.{◌≡◌, ◌++◌, ◌∷◌, [], IfOk, OnOk, OnErr, length};

use std::alloc::AllocError;

/// What a member of the list of goals asks for.
#[derive(Clone, Copy)]
pub enum Todo {
    /// To run the body at this place of the nodes.
    Body(usize),
    /// To take the choices away that were made since so many stood as the height says.
    CutTo,
    /// To go back to the newest choice.
    Fail,
    /// To leave the catch whose choice has this height for its place (7.8.9).
    Leave,
    /// To gather a copy of the template, whose word is at this place of the nodes, at the choice that has this height
    /// for its place, and to go back to the newest choice (8.10.1).
    Gather(usize),
}

/// A member of the list of goals, with the height of the choices that is its cut mark (how many stood when it came),
/// and the place of the member behind it.
#[derive(Clone, Copy)]
pub struct Link {
    pub todo: Todo,
    pub height: usize,
    pub next: Option<usize>,
}

/// Appends the link; the answer is its place. The error is that memory was refused.
pub fn push_link(members: &mut Vec<Link>, link: Link) -> Result<usize, AllocError>
    ensures place { IfOk result (λ place. place ≡ length members.old.items) }
    ensures pushed { OnOk result (members.new.items ≡ members.old.items ++ link ∷ []) }
    ensures kept { OnErr result (members.new.items ≡ members.old.items) }
{
    let place = members.len();
    members.push(link)?;
    Ok(place)
}
