//! The program `toplevel`: its words, the program text, and a toplevel on standard input and output.
#![tactic(auto)]

use iso_session_core::{TextFault, WordsFault, read_text, status_of};
use iso_toplevel::{Fault, Words, read_words, toplevel};
use std::io::{ErrorKind, IsTerminal};
use std::process::ExitCode;
use std::{env, fs, io};

/// The status of a file or of standard input that can't be read.
const UNREADABLE: u8 = 1;
/// The status of a usage fault.
const MISUSE: u8 = 2;
/// The status where memory was refused before the toplevel began.
const NO_MEMORY: u8 = 3;
/// The status where the output can't be written.
const UNWRITABLE: u8 = 4;

/// The usage fault of a word that isn't UTF-8, or NoMemory where memory for its line was refused.
fn not_utf8(rt: &HostRuntime) -> WordsFault {
    match String::from_str(rt.alloc(), "a word is not UTF-8") {
        Ok(line) => WordsFault::Usage(line),
        Err(_) => WordsFault::NoMemory,
    }
}

/// The words behind the program's name. Usage where a word isn't UTF-8.
fn words_of(rt: &HostRuntime) -> Result<Vec<String>, WordsFault> {
    let given = match env::args(rt) {
        Ok(given) => given,
        Err(error) if error.kind() == ErrorKind::OutOfMemory => return Err(WordsFault::NoMemory),
        Err(_) => return Err(not_utf8(rt)),
    };
    let mut words = Vec::new(rt.alloc());
    for word in given.skip(1) {
        if words.push(word).is_err() {
            return Err(WordsFault::NoMemory);
        }
    }
    Ok(words)
}

/// Says on standard error that memory was refused.
fn refuse_memory(rt: &HostRuntime) -> u8 {
    let _ = rt.eprintln("toplevel: no memory");
    NO_MEMORY
}

/// The status for words that were not taken.
fn refuse_words(rt: &HostRuntime, fault: &WordsFault) -> u8 {
    match fault {
        WordsFault::Help => {
            let _ = rt.print(iso_toplevel::words::USAGE);
            0
        }
        WordsFault::Usage(line) => {
            let _ = eprint!(rt; "toplevel: {line}\n{}", iso_toplevel::words::USAGE);
            MISUSE
        }
        WordsFault::NoMemory => refuse_memory(rt),
    }
}

/// Says on standard error that the file can't be read, and on a second line why, or that memory was refused.
fn refuse_text(rt: &HostRuntime, name: &str, fault: &TextFault) -> u8 {
    match fault {
        TextFault::Unreadable(obstacle) => {
            let _ = eprint!(rt; "toplevel: cannot read {name}\ntoplevel: {obstacle}\n");
            UNREADABLE
        }
        TextFault::NoMemory => refuse_memory(rt),
    }
}

/// Says on standard error why the toplevel broke off.
fn break_off(rt: &HostRuntime, fault: &Fault) -> u8 {
    match fault {
        Fault::Output => {
            let _ = eprint!(rt; "toplevel: {fault}\n");
            UNWRITABLE
        }
        Fault::Input(obstacle) => {
            let _ = eprint!(rt; "toplevel: cannot read queries\ntoplevel: {obstacle}\n");
            UNREADABLE
        }
    }
}

/// The text of the file, or no text where none is named.
fn read_file(rt: &HostRuntime, path: Option<&str>) -> Result<String, TextFault> {
    let Some(path) = path else {
        return Ok(String::new(rt.alloc()));
    };
    let mut file = fs::open(rt, path)?;
    read_text(rt.alloc(), &mut file)
}

/// Reads the file and runs the toplevel; gives the status.
fn run(rt: &HostRuntime, words: &Words) -> u8 {
    let path = words.file.as_ref().map(|path| path.as_str());
    let text = match read_file(rt, path) {
        Ok(text) => text,
        Err(fault) => return refuse_text(rt, path.unwrap_or("no file"), &fault),
    };
    let waits = rt.stdin().is_terminal();
    let mut input = rt.reader();
    let mut out = io::writer(rt);
    let outcome = toplevel(
        rt.alloc(),
        text.as_str(),
        &words.limits,
        words.engine,
        waits,
        &mut input,
        &mut out,
    );
    match outcome {
        Ok(ended) => status_of(&Ok(ended)),
        Err(fault) => break_off(rt, &fault),
    }
}

fn main(rt: HostRuntime) -> ExitCode {
    let alloc = rt.alloc();
    let owned = match words_of(&rt) {
        Ok(owned) => owned,
        Err(fault) => return ExitCode::from(refuse_words(&rt, &fault)),
    };
    let mut words: Vec<&str> = Vec::new(alloc);
    for word in &owned {
        if words.push(word.as_str()).is_err() {
            return ExitCode::from(refuse_memory(&rt));
        }
    }
    let status = match read_words(alloc, words.as_slice()) {
        Ok(words) => run(&rt, &words),
        Err(fault) => refuse_words(&rt, &fault),
    };
    ExitCode::from(status)
}
