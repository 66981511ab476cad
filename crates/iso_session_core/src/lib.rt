//! Sessions on any engine: a program text is consulted, queries are answered, and every output, answer and error is
//! written. Also the program's words, its reading and its statuses.
#![tactic(auto)]

pub mod composed;
pub mod console;
pub mod consulting;
mod directives;
mod files;
pub mod flows;
pub mod items;
pub mod preambles;
mod queries;
mod sessions;
mod statuses;
pub mod terms;
pub mod words;

pub use files::{Obstacle, TextFault, read_text};
pub use preambles::body_of_text;
pub use sessions::{refused_session, session_on};
pub use statuses::{Ended, EngineName, Fault, status_of};
pub use terms::{TextTerm, text_term};
pub use words::{Words, WordsFault, read_words};
