//! Instructions of bodies as a machine runs them, and the code of a clause.
#![tactic(auto)]

mod instructions;

pub use instructions::{Code, Form, Goal, Instruction, Step, form_of};
