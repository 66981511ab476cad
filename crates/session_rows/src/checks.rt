//! What is wrong with a session: with each engine over cells, with the plain one over nodes, within few cells and few
//! frames, and with writers that take little or fail.
use super::rows::Session;
use super::runs::{Written, over_cells, over_nodes};
use super::writers::Sink;
use anyhow::Result;
use iso_model::Limits;
use iso_session::EngineName;
use std::alloc::Global;
use std::fmt::Write;

/// The last line of a session that ends because the heap is full.
const HEAP_FULL: &str = "end: heap full\n";

/// The last line of one that ends because the frames are.
const FRAMES_FULL: &str = "end: frames full\n";

/// What a session must write within its limits.
#[derive(Clone, Copy)]
enum Wanted {
    /// Its output.
    Whole,
    /// A beginning of its output, and this line of a limit.
    Cut(&'static str),
    /// One of the two.
    Begun(&'static str),
}

/// Whether the session wrote its output, and has its status.
fn is_whole(row: &Session<'_>, written: &Written) -> bool {
    written.bytes.as_slice() == row.output.as_bytes() && written.status == row.status
}

/// Whether this is a beginning of the whole, with a newline behind it where it ends within a line.
fn is_beginning(begun: &[u8], whole: &[u8]) -> bool {
    if begun.is_empty() {
        return true;
    }
    match begun.strip_suffix(b"\n".as_slice()) {
        Some(front) => whole.starts_with(begun) || whole.starts_with(front),
        None => false,
    }
}

/// Whether the session wrote a beginning of its output, and then this line of a limit.
fn is_cut(row: &Session<'_>, written: &Written, line: &str) -> bool {
    match written.bytes.as_slice().strip_suffix(line.as_bytes()) {
        Some(begun) => written.status == 3 && is_beginning(begun, row.output.as_bytes()),
        None => false,
    }
}

/// Whether the session wrote what it must.
fn is_right(row: &Session<'_>, written: &Written, wanted: Wanted) -> bool {
    match wanted {
        Wanted::Whole => is_whole(row, written),
        Wanted::Cut(line) => is_cut(row, written, line),
        Wanted::Begun(line) => is_whole(row, written) || is_cut(row, written, line),
    }
}

/// Says what the session wrote, which is wrong, and how it was run.
fn say(
    alloc: Global,
    faults: &mut String,
    how: &str,
    limits: &Limits,
    written: &Written,
) -> Result<()> {
    let (cells, frames, status) = (limits.cells, limits.frames, written.status);
    let text = String::from_utf8_lossy(alloc, written.bytes.as_slice())?;
    writeln!(
        faults,
        "  {how}, {cells} cells, {frames} frames, status {status}:"
    )?;
    writeln!(faults, "{text}")?;
    Ok(())
}

/// The engines, and how a session is run with each of them over cells.
const ENGINES: [(EngineName, &str); 2] = [
    (EngineName::Plain, "with the plain engine over cells"),
    (EngineName::Wam, "with the machine over cells"),
];

/// Says what is wrong with the session with this engine over cells within these limits.
fn try_engine(
    alloc: Global,
    row: &Session<'_>,
    (engine, how): (EngineName, &str),
    limits: &Limits,
    wanted: Wanted,
    faults: &mut String,
) -> Result<()> {
    if !row.is_for(engine) {
        return Ok(());
    }
    let sink = Sink::with_room(alloc, usize::MAX);
    let written = over_cells(alloc, row, engine, limits, sink);
    if !is_right(row, &written, wanted) {
        say(alloc, faults, how, limits, &written)?;
    }
    Ok(())
}

/// Says what is wrong with the session with each engine over cells within these limits.
fn try_cells(
    alloc: Global,
    row: &Session<'_>,
    limits: &Limits,
    wanted: Wanted,
    faults: &mut String,
) -> Result<()> {
    for engine in ENGINES {
        try_engine(alloc, row, engine, limits, wanted, faults)?;
    }
    Ok(())
}

/// Says what is wrong with the session over cells and over nodes within these limits.
fn try_both(
    alloc: Global,
    row: &Session<'_>,
    limits: &Limits,
    wanted: Wanted,
    faults: &mut String,
) -> Result<()> {
    try_cells(alloc, row, limits, wanted, faults)?;
    if !row.is_for(EngineName::Plain) {
        return Ok(());
    }
    let written = over_nodes(alloc, row, limits)?;
    if !is_right(row, &written, wanted) {
        say(alloc, faults, "over nodes", limits, &written)?;
    }
    Ok(())
}

/// Says what is wrong within each number of cells that the session is tried with.
fn try_few_cells(alloc: Global, row: &Session<'_>, faults: &mut String) -> Result<()> {
    if let Some(cells) = row.enough {
        let limits = row.within_cells(cells);
        try_cells(alloc, row, &limits, Wanted::Whole, faults)?;
    }
    if let Some(cells) = row.too_few {
        let limits = row.within_cells(cells);
        try_engine(
            alloc,
            row,
            ENGINES[0],
            &limits,
            Wanted::Cut(HEAP_FULL),
            faults,
        )?;
    }
    for cells in 1..=row.cells_to {
        let limits = row.within_cells(cells);
        try_both(alloc, row, &limits, Wanted::Begun(HEAP_FULL), faults)?;
    }
    Ok(())
}

/// Says what is wrong within each number of frames that the session is tried with.
fn try_few_frames(alloc: Global, row: &Session<'_>, faults: &mut String) -> Result<()> {
    for frames in 1..=row.frames_to {
        let limits = row.within_frames(frames);
        try_both(alloc, row, &limits, Wanted::Begun(FRAMES_FULL), faults)?;
    }
    Ok(())
}

/// Whether the session wrote its output or, where the writer has no room for all of it, as many bytes as there is room
/// for; its status is 4 then.
fn is_right_for(row: &Session<'_>, written: &Written, room: usize) -> bool {
    match row.output.as_bytes().get(..room) {
        Some(begun) if room < row.output.len() => {
            written.bytes.as_slice() == begun && written.status == 4
        }
        _ => is_whole(row, written),
    }
}

/// A writer that takes at most so many bytes a call, has room for so many, and then fails or takes nothing more.
fn small_sink(alloc: Global, step: usize, room: usize, fails: bool) -> Sink {
    let bytes = Vec::new(alloc);
    Sink {
        bytes,
        step,
        room,
        fails,
    }
}

/// Says what is wrong with the session with such a writer, with this engine.
fn try_sink(
    alloc: Global,
    row: &Session<'_>,
    engine: EngineName,
    sink: Sink,
    faults: &mut String,
) -> Result<()> {
    if !row.is_for(engine) {
        return Ok(());
    }
    let room = sink.room;
    let written = over_cells(alloc, row, engine, &row.limits, sink);
    if !is_right_for(row, &written, room) {
        say(alloc, faults, "with a small writer", &row.limits, &written)?;
    }
    Ok(())
}

/// Says what is wrong with writers that take at most so many bytes a call and have room for so many: with each engine,
/// one that fails then, and one that takes nothing more.
fn try_room(
    alloc: Global,
    row: &Session<'_>,
    step: usize,
    room: usize,
    faults: &mut String,
) -> Result<()> {
    for (engine, _) in ENGINES {
        try_sink(
            alloc,
            row,
            engine,
            small_sink(alloc, step, room, true),
            faults,
        )?;
        try_sink(
            alloc,
            row,
            engine,
            small_sink(alloc, step, room, false),
            faults,
        )?;
    }
    Ok(())
}

/// Says what is wrong with writers that take at most so many bytes a call, for each number of bytes that there is room
/// for.
fn try_rooms(alloc: Global, row: &Session<'_>, step: usize, faults: &mut String) -> Result<()> {
    for room in 0..=row.output.len() {
        try_room(alloc, row, step, room, faults)?;
    }
    Ok(())
}

/// Says what is wrong with each writer that the session is tried with.
fn try_writers(alloc: Global, row: &Session<'_>, faults: &mut String) -> Result<()> {
    for step in 1..=row.bytes_to {
        try_rooms(alloc, row, step as usize, faults)?;
    }
    Ok(())
}

/// What is wrong with the session; empty where it is right.
pub fn faults(alloc: Global, row: &Session<'_>) -> Result<String> {
    let mut faults = String::new(alloc);
    try_both(alloc, row, &row.limits, Wanted::Whole, &mut faults)?;
    try_few_cells(alloc, row, &mut faults)?;
    try_few_frames(alloc, row, &mut faults)?;
    try_writers(alloc, row, &mut faults)?;
    Ok(faults)
}
