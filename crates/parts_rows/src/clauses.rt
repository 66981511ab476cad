//! Texts with the clauses that are read from them (6.2 to 6.4).
use super::operators::with_operators;
use super::rows::{field, parts, say, text};
use super::terms::{first_clause, write_term};
use anyhow::{Context, Result, bail, ensure};
use iso_logic::{Program, is_definite};
use iso_ops::{Flags, OpTable};
use iso_read::{Read, ReadFault, read_clause};
use iso_token::Tokens;
use std::alloc::{AllocError, Global};
use std::fmt::Write;

/// The names of the variables of a clause, with their numbers.
fn write_names(out: &mut String, read: &Read) -> Result<(), AllocError> {
    for (name, number) in &read.names {
        write!(out, " {name}={number}")?;
    }
    Ok(())
}

/// Says a clause in functional notation, where a variable is `_` and its number, and the names of its variables.
fn say_clause(alloc: Global, out: &mut String, read: &Read) -> Result<(), AllocError> {
    let mut fact = String::new(alloc);
    write_term(&mut fact, &read.term)?;
    write_names(&mut fact, read)?;
    say(out, fact.as_str())
}

/// What stands in the text up to its end: each clause, or `Syntax`.
fn all_clauses(alloc: Global, text: &str, ops: &OpTable, flags: &Flags) -> Result<String> {
    let mut out = String::new(alloc);
    let mut tokens = Tokens::new(text);
    for _ in 0..text.len() {
        match read_clause(alloc, &mut tokens, ops, flags) {
            Ok(Some(read)) => say_clause(alloc, &mut out, &read)?,
            Ok(None) => break,
            Err(ReadFault::Syntax) => say(&mut out, "Syntax")?,
            Err(ReadFault::NoMemory) => bail!("no memory"),
        }
    }
    Ok(out)
}

/// What stands in the text by the operators and flags of the row.
pub fn clauses(alloc: Global, row: &str) -> Result<String> {
    let mut flags = Flags::initial();
    if let Some(value) = field(row, "double_quotes") {
        ensure!(flags.set("double_quotes", value), "no such value");
    }
    let ops = with_operators(alloc, row)?;
    all_clauses(alloc, text(alloc, row)?.as_str(), &ops, &flags)
}

/// Whether the text is read.
pub fn reads(alloc: Global, row: &str) -> Result<String> {
    let read = first_clause(alloc, text(alloc, row)?.as_str())?;
    Ok(format!(in alloc; "  {}\n", read.is_some())?)
}

/// The names of a clause's variables, with their numbers.
pub fn names(alloc: Global, row: &str) -> Result<String> {
    let read = first_clause(alloc, text(alloc, row)?.as_str())?.context("not read")?;
    let mut out = String::new(alloc);
    write_names(&mut out, &read)?;
    Ok(out)
}

/// The clauses of the text. Each has a byte at least, so it has no more of them than bytes.
fn program(alloc: Global, text: &str) -> Result<Program> {
    let ops = OpTable::initial(alloc)?;
    let mut tokens = Tokens::new(text);
    let mut clauses = Vec::new(alloc);
    for _ in 0..text.len() {
        match read_clause(alloc, &mut tokens, &ops, &Flags::initial()) {
            Ok(Some(read)) => clauses.push(read.term)?,
            Ok(None) => break,
            Err(_) => bail!("not read"),
        }
    }
    Ok(Program { clauses })
}

/// Each text of the row, and whether its clauses are a definite program.
pub fn definite(alloc: Global, row: &str) -> Result<String> {
    let mut out = String::new(alloc);
    for line in row.lines() {
        let (word, text) = parts(line);
        if word == "text" {
            let is_definite = is_definite(&program(alloc, text)?);
            writeln!(out, "  {is_definite} {text}")?;
        }
    }
    Ok(out)
}
