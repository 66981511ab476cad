//! Runs the sessions of files of rows, over both stores, and says of each file how many it has. Says what is wrong with
//! those that do not give what they must.
#![tactic(auto)]

mod checks;
mod definite_runs;
mod rows;
mod runs;
mod writers;

use anyhow::{Context, Result, ensure};
use std::{env, fs};

/// What stands before each session of a file.
const SESSION: &str = "\n[[session]]\n";

/// Runs the session of these lines, and says what is wrong with it. Whether that is nothing.
fn run_session(rt: &HostRuntime, text: &str, lines: &str) -> Result<bool> {
    let session = rows::read_session(text, lines)?;
    let faults = checks::faults(rt.alloc(), &session)?;
    if !faults.is_empty() {
        println!(rt; "{}:\n{faults}", session.name)?;
    }
    Ok(faults.is_empty())
}

/// Runs the sessions of the file, and says how many they are. How many are wrong.
fn run_file(rt: &HostRuntime, path: &str) -> Result<u64> {
    let file = fs::read_to_string(rt, path)?;
    let (head, sessions) = file.as_str().split_once(SESSION).context("no session")?;
    let text = rows::text_above(head)?;
    let (mut count, mut wrong) = (0u64, 0u64);
    for lines in sessions.split(SESSION) {
        count = count.saturating_add(1);
        if !run_session(rt, text, lines)? {
            wrong = wrong.saturating_add(1);
        }
    }
    println!(rt; "{path}: {count} sessions")?;
    Ok(wrong)
}

fn main(rt: HostRuntime) -> Result<()> {
    let mut wrong: u64 = 0;
    for path in env::args(&rt)?.skip(1) {
        wrong = wrong.saturating_add(run_file(&rt, path.as_str()).context(path.as_str())?);
    }
    ensure!(wrong == 0, "{wrong} sessions did not give what they must");
    ensure!(
        definite_runs::fact_has_one_answer(rt.alloc())?,
        "a definite run did not give one answer"
    );
    Ok(())
}
