//! The plain engine: the search that engines share, over linked members.
use super::linked::Linked;
use iso_search::search::Search;

/// The plain engine, for any store.
pub type Plain<S> = Search<S, Linked<S>>;
