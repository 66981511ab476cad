//! Makes the calls of `iso_session_core` that need no engine of the program's: its words, texts by readers that fail,
//! and a session on the smallest engine.
#![tactic(auto)]

mod quitter;
mod readers;
mod words;

use anyhow::Result;
use iso_session_core::read_text;

fn main(rt: HostRuntime) -> Result<()> {
    let lines = read_text(rt.alloc(), &mut rt.reader())?;
    for line in lines.as_str().lines() {
        words::say(&rt, line)?;
    }
    readers::say_all(&rt)?;
    quitter::run(&rt)
}
