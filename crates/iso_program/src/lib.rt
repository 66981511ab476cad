//! The program that clauses form (7.5): what a name calls, how a clause comes to its procedure, and which clauses are
//! left to be tried for a call. What is kept of a clause besides is an engine's own.
#![tactic(auto)]

// what is called under each name, and names known beforehand
pub mod callables;
pub mod controls;
pub mod vocabulary;
// clauses, and how they come to their procedures
pub mod checked;
pub mod clauses;
pub mod kept;
pub mod patterns;
pub mod procedures;
// the clauses that are left for a call
pub mod firsts;
pub mod left_clauses;
pub mod showing;
