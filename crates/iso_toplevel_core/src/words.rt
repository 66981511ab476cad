//! The toplevel's words, read by `clap`.
ghost use Rattle.std.specs.Prelude.{◌≡◌, map, option_map, IfOk, MatchResult};
ghost use Rattle.std.specs.String.{string_bytes};
ghost use Rattle.clap.specs.Words.{app_of, found_of, first_value};
ghost use Rattle.iso_toplevel_core.specs.Words as asked;

use clap::{Arg, ArgAction, ArgMatches, Command};
use iso_model::Limits;
use iso_session_core::words::{engine_name, fault_by, limits, option};
use iso_session_core::{EngineName, WordsFault};
use std::alloc::{AllocError, Global};

/// What the toplevel is asked for.
#[derive(Debug, Drop)]
pub struct Words {
    pub limits: Limits,
    pub engine: EngineName,
    /// The program text's file, as the word was given; none where no text is consulted.
    pub file: Option<String>,
}

/// How the toplevel is used, as help and as the answer to a usage fault.
pub const USAGE: &str = "usage: toplevel [--budget N] [--cells N] [--frames N] [--engine E] [FILE]
Consults the program text FILE, then takes queries from standard input. At a terminal it waits behind each answer.
  --budget N   steps for each query, 0 to 4294967295 (1000000)
  --cells N    cells of the store, 1 to 268435456 (16777216)
  --frames N   alternatives that may stand at once, 1 to 16777216 (1000000)
  --engine E   the engine: wam for the Warren machine, or plain (wam)
  --help       this text
";

/// The command as `clap` sees it; the first word is no program's name.
fn command<'a>(alloc: Global) -> Result<Command<'a>, AllocError>
    ensures { IfOk result (λ command. app_of command ≡ asked.program) }
{
    let file = Arg::new(alloc, "FILE").action(ArgAction::Set);
    Command::new(alloc, "toplevel")
        .no_binary_name(true)
        .arg(option(alloc, "budget"))?
        .arg(option(alloc, "cells"))?
        .arg(option(alloc, "frames"))?
        .arg(option(alloc, "engine"))?
        .arg(file)
}

/// A copy of the word, where there is one. The error is that memory was refused.
fn copied(alloc: Global, word: Option<&str>) -> Result<Option<String>, AllocError>
    ensures { IfOk result (λ copy. option_map string_bytes copy ≡ option_map (λ text. text.now) word.entry) }
{
    match word {
        Some(word) => Ok(Some(String::from_str(alloc, word)?)),
        None => Ok(None),
    }
}

/// What is asked for, of the options' values. Usage where one is not in its range, NoMemory where memory was refused.
fn fields<'a>(alloc: Global, matches: &ArgMatches<'a>) -> Result<Words, WordsFault>
    ensures { asked.FieldsSay (first_value (found_of matches.now)) result }
{
    let limits = limits(alloc, matches)?;
    let engine = engine_name(alloc, matches.get_str("engine"))?;
    let file = copied(alloc, matches.get_str("FILE"))?;
    Ok(Words {
        limits,
        engine,
        file,
    })
}

/// Reads the words behind the program's name. The errors:
/// - Help: `--help` comes before a fault;
/// - Usage, with a line that names the wrong word: a word is no option and not the only FILE, an option is given twice
///   or without its value, or a value is no decimal number in its range;
/// - NoMemory: memory was refused, for that line too.
pub fn read_words<'a>(alloc: Global, words: &'a [&'a str]) -> Result<Words, WordsFault>
    ensures { asked.WordsSay (map (λ word. word.now) words.entry.now) result }
{
    let command = command(alloc)?;
    match command.try_get_matches_from(words) {
        Ok(matches) => fields(alloc, &matches),
        Err(error) => Err(fault_by(alloc, &error)),
    }
}
