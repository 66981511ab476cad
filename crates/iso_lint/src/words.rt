//! The words of the program `lint`, read by `clap`.
ghost use Rattle.std.specs.Prelude.{◌≡◌, map, IfOk};
ghost use Rattle.clap.specs.Words.{app_of, first_value, found_of};
ghost use Rattle.iso_lint.specs.Words as asked;

use clap::{Arg, ArgAction, ArgMatches, Command};
use iso_session_core::WordsFault;
use iso_session_core::words::{fault_by, usage};
use std::alloc::{AllocError, Global};

/// How the program is used, as help and as the answer to a usage fault.
pub const USAGE: &str = "usage: lint FILE
Looks through the program text FILE without running it, and says on a line each what it finds.
  --help   this text
";

/// The command as `clap` sees it; the first word is no program's name.
fn command<'a>(alloc: Global) -> Result<Command<'a>, AllocError>
    ensures { IfOk result (λ command. app_of command ≡ asked.program) }
{
    let file = Arg::new(alloc, "FILE")
        .required(true)
        .action(ArgAction::Set);
    Command::new(alloc, "lint").no_binary_name(true).arg(file)
}

/// The file that the words give. Usage where it is missing, NoMemory where memory for the line that says so was
/// refused.
fn file_in<'a>(alloc: Global, matches: &ArgMatches<'a>) -> Result<&'a str, WordsFault>
    ensures { asked.FileSays (first_value (found_of matches.now) asked.FILE) result }
{
    match matches.get_str("FILE") {
        Some(file) => Ok(file),
        None => Err(usage(String::from_str(alloc, "FILE is missing"))),
    }
}

/// Reads the words behind the program's name, and gives the file. The errors:
/// - Help: `--help` comes before a fault;
/// - Usage, with a line that names the wrong word: the words are not one FILE;
/// - NoMemory: memory was refused, for that line too.
pub fn file_asked<'a>(alloc: Global, words: &'a [&'a str]) -> Result<&'a str, WordsFault>
    ensures { asked.WordsSay (map (λ word. word.now) words.entry.now) result }
{
    let command = command(alloc)?;
    match command.try_get_matches_from(words) {
        Ok(matches) => file_in(alloc, &matches),
        Err(error) => Err(fault_by(alloc, &error)),
    }
}
