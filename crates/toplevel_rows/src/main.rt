//! Runs dialogues that stand as data, with both engines, and writes what each shows.
#![tactic(auto)]

use anyhow::{Context, Result, ensure};
use iso_model::Limits;
use iso_session_core::{Ended, EngineName, read_text};
use iso_toplevel::{Fault, toplevel};
use std::alloc::Global;

/// What stands before each dialogue.
const DIALOGUE: &str = "=== ";
/// What stands between a program text and what is typed.
const TYPED: &str = "---\n";

/// A dialogue: its head line, the program text, and what is typed.
#[derive(Clone, Copy)]
struct Row<'a> {
    head: &'a str,
    text: &'a str,
    typed: &'a str,
}

/// The dialogue of these lines. The error: it has no head line, or nothing is typed.
fn read_row<'a>(lines: &'a str) -> Result<Row<'a>> {
    let (head, rest) = lines.split_once('\n').context("no head line")?;
    let (text, typed) = rest.split_once(TYPED).context("nothing is typed")?;
    Ok(Row { head, text, typed })
}

/// How it ended, in a word or two.
fn ending(alloc: Global, outcome: &Result<Ended, Fault>) -> Result<String> {
    Ok(match outcome {
        Ok(Ended::Done) => String::from_str(alloc, "done")?,
        Ok(Ended::Halt(status)) => format!(in alloc; "halt {status}")?,
        Ok(Ended::HeapFull) => String::from_str(alloc, "heap full")?,
        Ok(Ended::FramesFull) => String::from_str(alloc, "frames full")?,
        Ok(Ended::NoMemory) => String::from_str(alloc, "no memory")?,
        Err(fault) => format!(in alloc; "{fault}")?,
    })
}

/// What the dialogue shows with this engine, and how it ends.
fn shown(alloc: Global, row: &Row<'_>, engine: EngineName) -> Result<String> {
    let limits = Limits {
        budget: 100000,
        cells: 20000,
        frames: 10000,
    };
    let waits = row.head.starts_with("waits");
    let mut input = row.typed.as_bytes();
    let mut out = Vec::new(alloc);
    let outcome = toplevel(
        alloc, row.text, &limits, engine, waits, &mut input, &mut out,
    );
    let mut screen = String::from_utf8(out)?;
    let ending = ending(alloc, &outcome)?;
    screen.push_str("[")?;
    screen.push_str(ending.as_str())?;
    screen.push_str("]\n")?;
    Ok(screen)
}

/// Runs the dialogue of these lines and writes what it shows. The error: it is no dialogue, or the engines differ.
fn run_row(rt: &HostRuntime, lines: &str) -> Result<()> {
    let row = read_row(lines)?;
    let plain = shown(rt.alloc(), &row, EngineName::Plain)?;
    let machine = shown(rt.alloc(), &row, EngineName::Wam)?;
    print!(rt; "{DIALOGUE}{}\n{plain}", row.head)?;
    ensure!(
        plain == machine,
        "the machine shows another thing: {machine}"
    );
    Ok(())
}

fn main(rt: HostRuntime) -> Result<()> {
    let rows = read_text(rt.alloc(), &mut rt.reader())?;
    for lines in rows.as_str().split(DIALOGUE).skip(1) {
        run_row(&rt, lines)?;
    }
    Ok(())
}
