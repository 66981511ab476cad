//! Says what `lint` finds in each of the texts on standard input, and what some words ask the program `lint` for.
#![tactic(auto)]

use anyhow::{Result, bail};
use iso_lint::words::file_asked;
use iso_lint::{clauses_stop_at_faults, lint, parts_are_items};
use iso_session_core::{WordsFault, read_text};

/// Says what is found in a text. The error: memory was refused, or what is said can't be written.
fn say_found(rt: &HostRuntime, text: &str) -> Result<()> {
    let messages = lint(rt.alloc(), text)?;
    if messages.is_empty() {
        println!(rt; "nothing")?;
    }
    for message in &messages {
        println!(rt; "{message}")?;
    }
    println!(rt; "==")?;
    Ok(())
}

/// Says what these words ask for. The error: memory was refused, or what is said can't be written.
fn say_asked(rt: &HostRuntime, words: &[&str]) -> Result<()> {
    match file_asked(rt.alloc(), words) {
        Ok(file) => println!(rt; "the file {file}")?,
        Err(WordsFault::NoMemory) => bail!("no memory"),
        Err(fault) => println!(rt; "{fault}")?,
    }
    Ok(())
}

fn main(rt: HostRuntime) -> Result<()> {
    clauses_stop_at_faults();
    parts_are_items();
    let texts = read_text(rt.alloc(), &mut rt.reader())?;
    for text in texts.as_str().split("\n==\n") {
        say_found(&rt, text)?;
    }
    say_asked(&rt, &["p.pl"])?;
    say_asked(&rt, &["--help"])?;
    say_asked(&rt, &[])?;
    say_asked(&rt, &["p.pl", "q.pl"])?;
    say_asked(&rt, &["--quiet", "p.pl"])
}
