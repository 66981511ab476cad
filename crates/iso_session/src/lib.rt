//! Sessions with the engines that the program has, and with any other: a program text is consulted, queries are
//! answered, and every output, answer and error is written. Also the program's words, its reading and its statuses.
#![tactic(auto)]

pub mod machine_sessions;
pub mod plain_sessions;
mod sessions;

pub use iso_session_core::{
    Ended, EngineName, Fault, Obstacle, TextFault, Words, WordsFault, read_text, read_words,
    session_on, status_of, words,
};
pub use sessions::session;
