//! Compounds that code makes in a store: of words that a machine has, and of variables that it meets for the first time.
#![tactic(auto)]

mod flat;
mod known;
mod variables;
mod wide;
mod writing;

pub use flat::write_flat;
pub use known::{write_all, write_known};
pub use variables::{make_all_variables, make_variables};
pub use wide::known_words;
pub use writing::{write_block, write_group};
