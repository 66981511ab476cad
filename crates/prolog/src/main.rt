//! The program `prolog`: its words, the program text, the queries, and a session on standard output.
#![tactic(auto)]

use iso_session::{TextFault, Words, WordsFault, read_text, read_words, session, status_of};
use std::io::{ErrorKind, IsTerminal};
use std::process::ExitCode;
use std::{env, fs, io};

/// The status of a file or of standard input that can't be read.
const UNREADABLE: u8 = 1;
/// The status of a usage fault.
const MISUSE: u8 = 2;
/// The status where memory was refused before the session began.
const NO_MEMORY: u8 = 3;

/// The usage fault of a word that isn't UTF-8, or NoMemory where memory for its line was refused.
fn not_utf8(rt: &HostRuntime) -> WordsFault {
    match String::from_str(rt.alloc(), "a word is not UTF-8") {
        Ok(line) => WordsFault::Usage(line),
        Err(_) => WordsFault::NoMemory,
    }
}

/// The words behind the program's name. Usage where a word isn't UTF-8.
fn words_of(rt: &HostRuntime) -> Result<Vec<String>, WordsFault> {
    let given = match env::args(rt) {
        Ok(given) => given,
        Err(error) if error.kind() == ErrorKind::OutOfMemory => return Err(WordsFault::NoMemory),
        Err(_) => return Err(not_utf8(rt)),
    };
    let mut words = Vec::new(rt.alloc());
    for word in given.skip(1) {
        if words.push(word).is_err() {
            return Err(WordsFault::NoMemory);
        }
    }
    Ok(words)
}

/// Says on standard error that memory was refused.
fn refuse_memory(rt: &HostRuntime) -> u8 {
    let _ = rt.eprintln("prolog: no memory");
    NO_MEMORY
}

/// The status for words that were not taken.
fn refuse_words(rt: &HostRuntime, fault: &WordsFault) -> u8 {
    match fault {
        WordsFault::Help => {
            let _ = rt.print(iso_session::words::USAGE);
            0
        }
        WordsFault::Usage(line) => {
            let _ = eprint!(rt; "prolog: {line}\n{}", iso_session::words::USAGE);
            MISUSE
        }
        WordsFault::NoMemory => refuse_memory(rt),
    }
}

/// Says on standard error that a text can't be read, and on a second line why, or that memory was refused.
fn refuse_text(rt: &HostRuntime, name: &str, fault: &TextFault) -> u8 {
    match fault {
        TextFault::Unreadable(obstacle) => {
            let _ = eprint!(rt; "prolog: cannot read {name}\nprolog: {obstacle}\n");
            UNREADABLE
        }
        TextFault::NoMemory => refuse_memory(rt),
    }
}

/// The text of the file.
fn read_file(rt: &HostRuntime, path: &str) -> Result<String, TextFault> {
    let mut file = fs::open(rt, path)?;
    read_text(rt.alloc(), &mut file)
}

/// The queries on standard input; a terminal is told that they are read until it ends.
fn read_queries(rt: &HostRuntime) -> Result<String, TextFault> {
    if rt.stdin().is_terminal() {
        let _ = rt.eprintln("prolog: queries are read until the end of input (Ctrl-D)");
    }
    read_text(rt.alloc(), &mut rt.reader())
}

/// Reads the file and the queries, and runs the session; gives the status.
fn run(rt: &HostRuntime, words: &Words) -> u8 {
    let path = words.file.as_str();
    let text = match read_file(rt, path) {
        Ok(text) => text,
        Err(fault) => return refuse_text(rt, path, &fault),
    };
    let queries = match read_queries(rt) {
        Ok(queries) => queries,
        Err(fault) => return refuse_text(rt, "queries", &fault),
    };
    let mut out = io::writer(rt);
    let outcome = session(
        rt.alloc(),
        text.as_str(),
        queries.as_str(),
        &words.limits,
        words.engine,
        &mut out,
    );
    if let Err(fault) = &outcome {
        let _ = rt.eprintln(format_args!("prolog: {fault}"));
    }
    status_of(&outcome)
}

fn main(rt: HostRuntime) -> ExitCode {
    let alloc = rt.alloc();
    let owned = match words_of(&rt) {
        Ok(owned) => owned,
        Err(fault) => return ExitCode::from(refuse_words(&rt, &fault)),
    };
    let mut words: Vec<&str> = Vec::new(alloc);
    for word in &owned {
        if words.push(word.as_str()).is_err() {
            return ExitCode::from(refuse_memory(&rt));
        }
    }
    let status = match read_words(alloc, words.as_slice()) {
        Ok(words) => run(&rt, &words),
        Err(fault) => refuse_words(&rt, &fault),
    };
    ExitCode::from(status)
}
