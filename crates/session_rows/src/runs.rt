//! A session with either engine over cells, or with the plain one over nodes, and with any writer.
use super::rows::Session;
use super::writers::Sink;
use anyhow::Result;
use iso_model::Limits;
use iso_plain::plain::Plain;
use iso_session::{EngineName, session, session_on, status_of};
use iso_store::Nodes;
use std::alloc::Global;

/// What a session wrote, and its status.
#[derive(Drop)]
pub struct Written {
    pub bytes: Vec<u8>,
    pub status: u8,
}

/// The session over cells within these limits, as the program runs it with this engine, with this writer.
pub fn over_cells(
    alloc: Global,
    row: &Session<'_>,
    engine: EngineName,
    limits: &Limits,
    mut sink: Sink,
) -> Written {
    let outcome = session(alloc, row.text, row.queries, limits, engine, &mut sink);
    let status = status_of(&outcome);
    Written {
        bytes: sink.bytes,
        status,
    }
}

/// The same session with the plain engine over nodes, of which there may be as many as cells. The error: memory was refused.
pub fn over_nodes(alloc: Global, row: &Session<'_>, limits: &Limits) -> Result<Written> {
    let mut sink = Sink::with_room(alloc, usize::MAX);
    let store = Nodes::new(alloc, limits.cells)?;
    let mut engine = Plain::new(alloc, store, limits.frames)?;
    let outcome = session_on(
        alloc,
        &mut engine,
        row.text,
        row.queries,
        limits.budget,
        &mut sink,
    );
    let status = status_of(&outcome);
    Ok(Written {
        bytes: sink.bytes,
        status,
    })
}
