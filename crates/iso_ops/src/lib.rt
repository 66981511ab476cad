//! Operators and flags (ISO/IEC 13211-1:1995, 6.3.4, 7.11 and 8.14.3), in this project's profile.
#![tactic(auto)]

mod initial;
pub mod settings;
pub mod specifiers;
pub mod table;

pub use settings::{DoubleQuotes, FlagValue, Flags, Unknown};
pub use specifiers::{Kind, Spec};
pub use std::alloc::AllocError as NoMemory;
pub use table::{Entry, OpFault, OpTable};
