//! Terms as words of a store: bindings in place, seen as one substitution that marks bring back
//! (unification, ISO/IEC 13211-1:1995, 7.3; backtracking, 7.7).
#![tactic(auto)]

mod copies;
mod duplicates;
mod few;
mod flat_cells;
mod heads;
mod heap;
mod heap_arguments;
mod heap_builds;
mod heap_cells;
mod heap_copies;
mod heap_instructions;
mod heap_marks;
mod heap_meetings;
mod instances;
mod joins;
mod meetings;
mod node_marks;
mod nodes;
mod notes;
mod occurs;
mod order;
mod patterns;
mod plans;
mod primitives;
mod reaches;
mod reading;
mod renewals;
mod scratch;
mod unify;
mod variables;

pub use heap::Heap;
pub use heap_cells::{HeapMark, HeapWord};
pub use iso_store_core::{Part, Pattern, Shape, Store, StoreFault};
pub use node_marks::NodesMark;
pub use nodes::Nodes;
