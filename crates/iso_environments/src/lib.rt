//! What a machine does over frames and the words of environments, with no search.
#![tactic(auto)]

mod answering;
mod entering;
mod giving;
mod leveling;
mod meeting;
mod putting;
mod words;

pub use answering::answer;
pub use entering::{is_fact, push_clause};
pub use giving::give_up;
pub use leveling::push_level;
pub use meeting::meet_clause;
pub use putting::{Put, put_words};
pub use words::Words;
