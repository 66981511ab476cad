//! Built-ins on the characters of atoms and on the texts of numbers, and built-ins that write (ISO/IEC 13211-1:1995,
//! 8.12.3, 8.14.2, 8.16), over any store of terms.
#![tactic(auto)]

// checks of arguments, the elements of lists, and texts as lists
mod checks;
mod elements;
mod reading;
mod spelling;
// the built-ins
mod atoms;
mod characters;
mod integers;
mod lengths;
mod numbers;
mod outputs;
mod texts;
// the parts of atoms
mod concat;
pub mod parts;
mod splits;
mod sub;
mod sub_atoms;

pub use outputs::output;
pub use texts::builtin;
