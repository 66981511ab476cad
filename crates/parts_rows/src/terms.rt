//! Terms from their texts, and in functional notation.
use anyhow::{Context, Result, bail};
use iso_model::Term;
use iso_model::characters::{is_alphanumeric, is_graphic};
use iso_ops::{Flags, OpTable};
use iso_read::{Read, ReadFault, read_clause};
use iso_token::Tokens;
use std::alloc::{AllocError, Global};
use std::fmt::Write;

/// The first clause of a text, read with the operators and the flags that stand before any is set; none where it is a
/// syntax error.
pub fn first_clause(alloc: Global, text: &str) -> Result<Option<Read>> {
    let ops = OpTable::initial(alloc)?;
    let mut tokens = Tokens::new(text);
    match read_clause(alloc, &mut tokens, &ops, &Flags::initial()) {
        Ok(read) => Ok(read),
        Err(ReadFault::Syntax) => Ok(None),
        Err(ReadFault::NoMemory) => bail!("no memory"),
    }
}

/// The term of a clause's text. Where numbers are given, its variables have them, the first to occur the first one, and
/// so on.
pub fn read_term(alloc: Global, text: &str, numbers: &[u64]) -> Result<Term> {
    let mut read = first_clause(alloc, text)?.context("not read")?;
    if !numbers.is_empty() {
        number_variables(&mut read.term, numbers);
    }
    Ok(read.term)
}

/// Gives each variable the number at its place among these, where there is one.
fn number_variables(term: &mut Term, numbers: &[u64]) {
    match term {
        Term::Var(number) => {
            if let Some(other) = numbers.get(*number as usize) {
                *number = *other;
            }
        }
        Term::Int(_) | Term::Atom(_) => {}
        Term::Compound(_, arguments) => {
            for argument in arguments {
                number_variables(argument, numbers);
            }
        }
    }
}

/// Whether a name stands without quotes.
fn is_plain(name: &str) -> bool {
    if matches!(name, "[]" | "{}" | "!" | ";") {
        return true;
    }
    let mut is_word = matches!(name.as_bytes(), [b'a'..=b'z', ..]);
    let mut is_sign = !matches!(name, "" | ".");
    for byte in name.bytes() {
        is_word = is_word && is_alphanumeric(byte);
        is_sign = is_sign && is_graphic(byte);
    }
    is_word || is_sign
}

/// Writes a name, in quotes where it needs them.
fn write_name(out: &mut String, name: &str) -> Result<(), AllocError> {
    if is_plain(name) {
        out.push_str(name)?;
        return Ok(());
    }
    out.push_str("'")?;
    for c in name.chars() {
        match c {
            '\'' => out.push_str("\\'")?,
            '\\' => out.push_str("\\\\")?,
            '\n' => out.push_str("\\n")?,
            _ => out.push(c)?,
        }
    }
    out.push_str("'")?;
    Ok(())
}

/// Writes a term in functional notation.
pub fn write_term(out: &mut String, term: &Term) -> Result<(), AllocError> {
    match term {
        Term::Var(number) => write!(out, "_{number}")?,
        Term::Int(value) => write!(out, "{value}")?,
        Term::Atom(name) => write_name(out, name.as_str())?,
        Term::Compound(name, arguments) => {
            write_name(out, name.as_str())?;
            out.push_str("(")?;
            let mut is_first = true;
            for argument in arguments {
                if !is_first {
                    out.push_str(",")?;
                }
                is_first = false;
                write_term(out, argument)?;
            }
            out.push_str(")")?;
        }
    }
    Ok(())
}
