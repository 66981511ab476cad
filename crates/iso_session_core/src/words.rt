//! The program's words, read by `clap`.
ghost use Rattle.std.specs.Prelude.{◌≡◌, ◌≤◌, ◌^◌, true, false, Some, None, map, option_map, IfOk, MatchResult, MatchOption};
ghost use Rattle.std.specs.List.{list_all};
ghost use Rattle.clap.specs.Words.{app_of, rule_of, found_of, first_value, kind_of};
ghost use Rattle.iso_model.specs.Syntax.Characters.{is_digit};
ghost use Rattle.iso_model.specs.Syntax.Token.{digits_value};
ghost use Rattle.iso_session_core.specs.Words as asked;
ghost use Rattle.iso_session_core.specs.declared.words.WordsFault.TheVariants.{Usage, NoMemory};

use super::statuses::EngineName;
use clap::error::ErrorKind;
use clap::{Arg, ArgAction, ArgMatches, Command, Error};
use iso_model::Limits;
use std::alloc::{AllocError, Global};

/// What the program is asked for.
#[derive(Debug, Drop)]
pub struct Words {
    pub limits: Limits,
    pub engine: EngineName,
    /// The program text's file, as the word was given.
    pub file: String,
}

/// Why the words were not taken.
#[derive(Debug, Drop, thiserror::Error)]
pub enum WordsFault {
    /// Help was asked for; the status is 0.
    #[error("help was asked for")]
    Help,
    /// The words are no use of the program; the status is 2. The line names the wrong word and what it should be.
    #[error("{0}")]
    Usage(String),
    /// Memory was refused; the status is 3.
    #[error("no memory")]
    NoMemory,
}

impl From<AllocError> for WordsFault {
    ghost from_gives = { λ _ fault. fault ≡ NoMemory };

    fn from(_refused: AllocError) -> WordsFault {
        WordsFault::NoMemory
    }
}

/// How the program is used, as help and as the answer to a usage fault.
pub const USAGE: &str = "usage: prolog [--budget N] [--cells N] [--frames N] [--engine E] FILE
Consults the program text FILE, then answers the queries on standard input.
  --budget N   steps for each query, 0 to 4294967295 (1000000)
  --cells N    cells of the store, 1 to 268435456 (16777216)
  --frames N   alternatives that may stand at once, 1 to 16777216 (1000000)
  --engine E   the engine: wam for the Warren machine, or plain (wam)
  --help       this text
";

/// An option with one value.
pub fn option<'a>(alloc: Global, name: &'a str) -> Arg<'a>
    ensures rule { rule_of result ≡ asked.option_rule name.entry.now }
    ensures local { result.global ≡ false }
{
    Arg::new(alloc, name).long(name).action(ArgAction::Set)
}

/// The command as `clap` sees it; the first word is no program's name.
fn command<'a>(alloc: Global) -> Result<Command<'a>, AllocError>
    ensures { IfOk result (λ command. app_of command ≡ asked.program) }
{
    let file = Arg::new(alloc, "FILE")
        .required(true)
        .action(ArgAction::Set);
    Command::new(alloc, "prolog")
        .no_binary_name(true)
        .arg(option(alloc, "budget"))?
        .arg(option(alloc, "cells"))?
        .arg(option(alloc, "frames"))?
        .arg(option(alloc, "engine"))?
        .arg(file)
}

/// The usage fault with this line, or NoMemory where memory for the line was refused.
pub fn usage(line: Result<String, AllocError>) -> WordsFault
    ensures { MatchResult line (λ text. result ≡ Usage text) (λ _. result ≡ NoMemory) }
{
    match line {
        Ok(line) => WordsFault::Usage(line),
        Err(_) => WordsFault::NoMemory,
    }
}

/// The lines of the text as one, with a space between two.
fn one_line(alloc: Global, text: &str) -> Result<String, AllocError> {
    let mut line = String::new(alloc);
    for part in text.lines() {
        if !line.is_empty() {
            line.push_str(" ")?;
        }
        line.push_str(part.trim())?;
    }
    Ok(line)
}

/// What an error of `clap` says of the words: its text behind the title, up to the first empty line.
fn said_by(alloc: Global, error: &Error) -> Result<String, AllocError> {
    let text = error.to_string(alloc)?;
    let text = text.as_str();
    let text = text.strip_prefix("error: ").unwrap_or(text);
    let said = match text.split_once("\n\n") {
        Some((said, _)) => said,
        None => text,
    };
    one_line(alloc, said)
}

/// What an error of `clap` is here: Help where help was asked for, and else Usage with its line, or NoMemory.
pub fn fault_by(alloc: Global, error: &Error) -> WordsFault
    ensures { asked.Stands (kind_of error.now) result }
{
    match error.kind() {
        ErrorKind::DisplayHelp => WordsFault::Help,
        ErrorKind::OutOfMemory => WordsFault::NoMemory,
        _ => usage(said_by(alloc, error)),
    }
}

/// Whether the bytes are decimal digits alone.
fn are_digits(bytes: &[u8]) -> bool
    ensures { result ≡ list_all is_digit bytes.now }
{
    bytes.iter().all(|byte| byte.is_ascii_digit())
}

/// The number that a text of decimal digits alone writes; none above 4,294,967,295, and for any other text.
fn decimal(text: &str) -> Option<u32>
    ensures { MatchOption result (asked.is_number text.now ≡ true → 2 ^ 32 ≤ digits_value text.now)
        (λ n. (asked.is_number text.now ≡ true) × (n ≡ digits_value text.now)) }
{
    if !are_digits(text.as_bytes()) {
        return None;
    }
    text.parse().ok()
}

/// The line for a value that an option doesn't take: the option, what it takes, and the value.
fn refusal(alloc: Global, name: &str, takes: &str, value: &str) -> Result<String, AllocError> {
    let value = if value.is_empty() {
        "an empty word"
    } else {
        value
    };
    let line = format!(in alloc; "--{name} takes {takes}, not {value}")?;
    one_line(alloc, line.as_str())
}

/// The line for a value that is no number from `least` to `most`.
fn range_refusal(
    alloc: Global,
    name: &str,
    value: &str,
    least: u32,
    most: u32,
) -> Result<String, AllocError> {
    let takes = format!(in alloc; "a number from {least} to {most}")?;
    refusal(alloc, name, takes.as_str(), value)
}

/// The decimal number of the value of the option of this name, which is from `least` to `most`, or the default where
/// the option isn't given. Usage where the value is no such number, NoMemory where memory for the line that says so
/// was refused.
pub fn number(
    alloc: Global,
    name: &str,
    value: Option<&str>,
    default: u32,
    least: u32,
    most: u32,
) -> Result<u32, WordsFault>
    ensures { MatchResult result
        (λ n. asked.number_in default least most (option_map (λ text. text.now) value.entry) ≡ Some n)
        (λ fault. asked.Refuses (asked.number_in default least most (option_map (λ text. text.now) value.entry) ≡ None) fault) }
{
    let Some(text) = value else {
        return Ok(default);
    };
    match decimal(text) {
        Some(number) if least <= number && number <= most => Ok(number),
        _ => Err(usage(range_refusal(alloc, name, text, least, most))),
    }
}

/// The engine of this name; the default is the Warren machine. Usage where there is no such engine, NoMemory where memory
/// for the line that says so was refused.
pub fn engine_name(alloc: Global, value: Option<&str>) -> Result<EngineName, WordsFault>
    ensures { MatchResult result
        (λ name. asked.engine_named (option_map (λ name. name.now) value.entry) ≡ Some name)
        (λ fault. asked.Refuses (asked.engine_named (option_map (λ name. name.now) value.entry) ≡ None) fault) }
{
    match value {
        None => Ok(EngineName::Wam),
        Some("plain") => Ok(EngineName::Plain),
        Some("wam") => Ok(EngineName::Wam),
        Some(name) => Err(usage(refusal(alloc, "engine", "plain or wam", name))),
    }
}

/// The limits that the options' values give. Usage where one is not in its range, NoMemory where memory was refused.
pub fn limits<'a>(alloc: Global, matches: &ArgMatches<'a>) -> Result<Limits, WordsFault>
    ensures { asked.LimitsSay (first_value (found_of matches.now)) result }
{
    let standard = Limits::DEFAULT;
    let budget = number(
        alloc,
        "budget",
        matches.get_str("budget"),
        standard.budget,
        0,
        u32::MAX,
    )?;
    let cells = number(
        alloc,
        "cells",
        matches.get_str("cells"),
        standard.cells,
        1,
        Limits::MOST_CELLS,
    )?;
    let frames = number(
        alloc,
        "frames",
        matches.get_str("frames"),
        standard.frames,
        1,
        Limits::MOST_FRAMES,
    )?;
    Ok(Limits {
        budget,
        cells,
        frames,
    })
}

/// What is asked for, of the options' values. Usage where one is missing or not in its range, NoMemory where memory was
/// refused.
fn fields<'a>(alloc: Global, matches: &ArgMatches<'a>) -> Result<Words, WordsFault>
    ensures { asked.FieldsSay (first_value (found_of matches.now)) result }
{
    let limits = limits(alloc, matches)?;
    let engine = engine_name(alloc, matches.get_str("engine"))?;
    let Some(file) = matches.get_str("FILE") else {
        return Err(usage(String::from_str(alloc, "FILE is missing")));
    };
    let file = String::from_str(alloc, file)?;
    Ok(Words {
        limits,
        engine,
        file,
    })
}

/// Reads the words behind the program's name. The errors:
/// - Help: `--help` comes before a fault;
/// - Usage, with a line that names the wrong word: a word is no option and no single FILE, an option is given twice or
///   without its value, or a value is no decimal number in its range;
/// - NoMemory: memory was refused, for that line too.
pub fn read_words<'a>(alloc: Global, words: &'a [&'a str]) -> Result<Words, WordsFault>
    ensures { asked.WordsSay (map (λ word. word.now) words.entry.now) result }
{
    let command = command(alloc)?;
    match command.try_get_matches_from(words) {
        Ok(matches) => fields(alloc, &matches),
        Err(error) => Err(fault_by(alloc, &error)),
    }
}
