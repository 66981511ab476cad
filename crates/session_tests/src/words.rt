//! The program's words, and the line at each wrong one.
use anyhow::{Result, bail};
use iso_session_core::{WordsFault, read_words};
use std::alloc::{AllocError, Global};

/// The words of a line, with one space between two; none of an empty line.
fn split(alloc: Global, line: &str) -> Result<Vec<&str>, AllocError> {
    let mut words = Vec::new(alloc);
    if !line.is_empty() {
        for word in line.split(' ') {
            words.push(word)?;
        }
    }
    Ok(words)
}

/// Says the words, and what they ask for or why they are no use of the program. A `¶` in them stands for a newline. The
/// error: memory was refused, or what is said can't be written.
pub fn say(rt: &HostRuntime, line: &str) -> Result<()> {
    println!(rt; "prolog {line}")?;
    let line = line.replace(rt.alloc(), "¶", "\n")?;
    let words = split(rt.alloc(), line.as_str())?;
    match read_words(rt.alloc(), words.as_slice()) {
        Ok(asked) => {
            let (budget, cells, frames) = (
                asked.limits.budget,
                asked.limits.cells,
                asked.limits.frames,
            );
            println!(rt;
                "  {}: {budget} steps, {cells} cells, {frames} frames",
                asked.file
            )?;
        }
        Err(WordsFault::NoMemory) => bail!("no memory"),
        Err(fault) => println!(rt; "  {fault}")?,
    }
    Ok(())
}
