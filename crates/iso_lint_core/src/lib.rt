//! What the terms of a program text say of it: the procedures that they define, declare and call, and the operators and
//! flags that they set.
#![tactic(auto)]

pub mod calls;
pub mod keys;
mod names;
pub mod settings;
mod shapes;
