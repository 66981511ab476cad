//! Instructions of bodies.

use super::expressions::Step;
use super::goals::Call;
use super::instructions::Part;
use iso_model::Comparison;

/// A cut mark: a height of the stack of choice points (7.8.4).
#[derive(Clone, Copy, Debug)]
pub enum Mark {
    /// The height at the call of the clause.
    Clause,
    /// The height that this slot keeps.
    Level(usize),
    /// One more than the height that this slot keeps.
    AboveLevel(usize),
}

/// An instruction of a body. Code has its last instruction first: what follows an instruction stands before it. An
/// address is a place in code.
#[derive(Drop)]
pub enum Instruction {
    /// `call`: calls the goal, and goes on behind it.
    Call(Call),
    /// `execute`: calls the goal, behind which the clause ends.
    Execute(Call),
    /// `is/2`: what comes first is unified with the value that the steps leave (8.6.1).
    Is(Part, Vec<Step>),
    /// A comparison: goes on where it holds of the two values that the steps leave (8.7.1).
    Compare(Comparison, Vec<Step>),
    /// `proceed`: the clause ends.
    Proceed,
    /// `neck_cut`, `cut`: cuts back to the mark.
    Cut(Mark),
    /// `get_level`: this slot keeps the height of the stack.
    GetLevel(usize),
    /// `try_me_else`: an alternative goes on at this address.
    TryElse(usize),
    /// Goes on at this address.
    Jump(usize),
}
