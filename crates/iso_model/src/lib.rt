//! Terms, limits, the trait that an engine meets, and the definitions (in `specs/`) of what a session
//! must write, said without any engine: ISO/IEC 13211-1:1995, clauses 6 to 9, in this project's profile.
#![tactic(auto)]

pub mod built_ins;
pub mod characters;
pub mod engines;
pub mod kinds;
pub mod laws_of_copies;
pub mod laws_of_order;
pub mod laws_of_reading;
pub mod laws_of_runs;
pub mod laws_of_sessions;
pub mod laws_of_terms;
pub mod laws_of_unifiers;
pub mod laws_of_variables;
pub mod laws_of_writing;
pub mod limit;
pub mod numbering;
pub mod pauses;
pub mod terms;
pub mod worked_arithmetic;
pub mod worked_control;
pub mod worked_groups;
pub mod worked_loads;
pub mod worked_runs;
pub mod worked_terms;
pub mod worked_texts;

pub use built_ins::{BuiltIn, Row, built_in, built_in_rows, is_built_in, is_control};
pub use engines::Engine;
pub use kinds::{
    AtomPart, Comparison, Library, OrderTest, Output, Setting, Storage, Text, TypeTest,
};
pub use limit::{Limit, Limits};
pub use numbering::Numbering;
pub use pauses::{AddFault, Ball, Pause, StartFault};
pub use std::alloc::AllocError as NoMemory;
pub use terms::{MAX_ARITY, Term, copied, renumbered, renumbered_from, well_formed};
