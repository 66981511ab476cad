//! The program `lint`: its word, the program text, and the messages on it on standard output.
#![tactic(auto)]

use iso_lint::words::{USAGE, file_asked};
use iso_lint::{Message, lint};
use iso_session_core::{TextFault, WordsFault, read_text};
use std::io::{BufWriter, ErrorKind, Write};
use std::process::ExitCode;
use std::{env, fs, io};

/// The status where there is something to say.
const TOLD: u8 = 1;
/// The status of wrong words, and of a file that can't be read.
const MISUSE: u8 = 2;
/// The status where memory was refused.
const NO_MEMORY: u8 = 3;
/// The status of an output that can't be written.
const UNWRITTEN: u8 = 4;

/// The usage fault of a word that isn't UTF-8, or NoMemory where memory for its line was refused.
fn not_utf8(rt: &HostRuntime) -> WordsFault {
    match String::from_str(rt.alloc(), "a word is not UTF-8") {
        Ok(line) => WordsFault::Usage(line),
        Err(_) => WordsFault::NoMemory,
    }
}

/// The words behind the program's name. Usage where a word isn't UTF-8.
fn words_of(rt: &HostRuntime) -> Result<Vec<String>, WordsFault> {
    let given = match env::args(rt) {
        Ok(given) => given,
        Err(error) if error.kind() == ErrorKind::OutOfMemory => return Err(WordsFault::NoMemory),
        Err(_) => return Err(not_utf8(rt)),
    };
    let mut words = Vec::new(rt.alloc());
    for word in given.skip(1) {
        if words.push(word).is_err() {
            return Err(WordsFault::NoMemory);
        }
    }
    Ok(words)
}

/// Says on standard error that memory was refused.
fn refuse_memory(rt: &HostRuntime) -> u8 {
    let _ = rt.eprintln("lint: no memory");
    NO_MEMORY
}

/// The status for words that were not taken.
fn refuse_words(rt: &HostRuntime, fault: &WordsFault) -> u8 {
    match fault {
        WordsFault::Help => {
            let _ = rt.print(USAGE);
            0
        }
        WordsFault::Usage(line) => {
            let _ = eprint!(rt; "lint: {line}\n{USAGE}");
            MISUSE
        }
        WordsFault::NoMemory => refuse_memory(rt),
    }
}

/// Says on standard error that the text can't be read, and on a second line why, or that memory was refused.
fn refuse_text(rt: &HostRuntime, name: &str, fault: &TextFault) -> u8 {
    match fault {
        TextFault::Unreadable(obstacle) => {
            let _ = eprint!(rt; "lint: cannot read {name}\nlint: {obstacle}\n");
            MISUSE
        }
        TextFault::NoMemory => refuse_memory(rt),
    }
}

/// The text of the file.
fn read_file(rt: &HostRuntime, path: &str) -> Result<String, TextFault> {
    let mut file = fs::open(rt, path)?;
    read_text(rt.alloc(), &mut file)
}

/// Writes the messages, each on a line behind the file's name.
fn write_messages(rt: &HostRuntime, path: &str, messages: &[Message<'_>]) -> io::Result<()> {
    let mut out = BufWriter::new(rt.alloc(), io::writer(rt))?;
    for message in messages {
        writeln!(out, "{path}:{message}")?;
    }
    out.flush()
}

/// Looks through the file; gives the status.
fn run(rt: &HostRuntime, path: &str) -> u8 {
    let text = match read_file(rt, path) {
        Ok(text) => text,
        Err(fault) => return refuse_text(rt, path, &fault),
    };
    let Ok(messages) = lint(rt.alloc(), text.as_str()) else {
        return refuse_memory(rt);
    };
    if write_messages(rt, path, messages.as_slice()).is_err() {
        let _ = rt.eprintln("lint: the output can't be written");
        return UNWRITTEN;
    }
    if messages.is_empty() { 0 } else { TOLD }
}

fn main(rt: HostRuntime) -> ExitCode {
    let alloc = rt.alloc();
    let owned = match words_of(&rt) {
        Ok(owned) => owned,
        Err(fault) => return ExitCode::from(refuse_words(&rt, &fault)),
    };
    let mut words: Vec<&str> = Vec::new(alloc);
    for word in &owned {
        if words.push(word.as_str()).is_err() {
            return ExitCode::from(refuse_memory(&rt));
        }
    }
    let status = match file_asked(alloc, words.as_slice()) {
        Ok(path) => run(&rt, path),
        Err(fault) => refuse_words(&rt, &fault),
    };
    ExitCode::from(status)
}
