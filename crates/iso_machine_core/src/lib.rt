//! Instructions of a Warren machine over a store of cells: a clause is entered, and arguments of goals are put.
#![tactic(auto)]

mod blocks;
mod entering;
mod filling;
mod goals;
mod heads;

pub use entering::enter_clause;
pub use goals::put_arguments;
pub use heads::meet_head;
