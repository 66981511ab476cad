//! What engines share below their search: how lists of goals are kept, choices, and what goals of built-ins come to.
#![tactic(auto)]

// how an engine keeps its lists of goals
pub mod ends;
pub mod lists;
pub mod own;
// rows that goals offer, and what is gathered
pub mod offers;
pub mod pairs;
mod part_rows;
pub mod solutions;
// choices, and what comes next
pub mod choices;
pub mod nows;
// goals that are called, new variables, and what goals of built-ins come to
pub mod asking;
pub mod callable_goals;
pub mod exists;
pub mod goals;
pub mod replies;
pub mod variables;
