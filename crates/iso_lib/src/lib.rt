//! Built-ins that run no goal (ISO/IEC 13211-1:1995, 8.2 to 8.7, 8.14.3, 8.14.4, 8.17), over any store of terms, and
//! the error terms (7.12.2).
#![tactic(auto)]

pub mod arithmetic;
mod equations;
mod flags;
pub mod indicators;
mod library;
mod operators;
mod order;
mod settings;
mod types;

pub use iso_lib_core::collecting::{Meeting, make_template, meet_group};
pub use iso_lib_core::copies::unify_copy;
pub use iso_lib_core::groups::{Group, groups};
pub use iso_lib_core::strip::strip;
pub use iso_lib_core::{Fault, Reply, errors, lists};
pub use library::builtin;
pub use settings::{Constant, Offer, Settled, settle};
