//! The Warren machine.
use super::framed::Framed;
use iso_search::search::Search;

/// The Warren machine, over a store of cells: the search that engines share, over lists of goals in frames.
pub type Machine<S> = Search<S, Framed<S>>;
