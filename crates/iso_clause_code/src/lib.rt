//! What the Warren machine keeps of a clause: its code.
#![tactic(auto)]

mod keeping;

pub use keeping::kept_code;
