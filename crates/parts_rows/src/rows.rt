//! What every kind of row has: lines, each of a word and what stands behind it, and what is said of their calls.
use anyhow::{Context, Result};
use std::alloc::{AllocError, Global};
use std::fmt::Write;

/// The word of a line, and what stands behind it.
pub fn parts(line: &str) -> (&str, &str) {
    line.split_once(' ').unwrap_or((line, ""))
}

/// What stands behind this word on the first line of the row that has it.
pub fn field<'a>(row: &'a str, wanted: &str) -> Option<&'a str> {
    for line in row.lines() {
        let (word, rest) = parts(line);
        if word == wanted {
            return Some(rest);
        }
    }
    None
}

/// The number that the text is.
pub fn number(text: &str) -> Result<u64> {
    Ok(text.parse::<u64>()?)
}

/// The numbers behind this word, if the row has it.
pub fn numbers(alloc: Global, row: &str, wanted: &str) -> Result<Vec<u64>> {
    let mut found = Vec::new(alloc);
    for word in field(row, wanted).unwrap_or("").split_whitespace() {
        found.push(number(word)?)?;
    }
    Ok(found)
}

/// A text, in which `«10»` stands for the character of that number, and so on.
fn decoded(alloc: Global, text: &str) -> Result<String> {
    let mut out = String::new(alloc);
    for (place, piece) in text.split('«').enumerate() {
        let rest = match piece.split_once('»') {
            Some((digits, rest)) if place > 0 => {
                let code = digits.parse::<u32>()?;
                out.push(char::from_u32(code).context("no character")?)?;
                rest
            }
            _ => piece,
        };
        out.push_str(rest)?;
    }
    Ok(out)
}

/// Appends so many copies of the text, each with its number, from 0 on, in the place of each `#`.
fn push_each(out: &mut String, count: u64, text: &str) -> Result<()> {
    for number in 0..count {
        for (place, piece) in text.split('#').enumerate() {
            if place > 0 {
                write!(out, "{number}")?;
            }
            out.push_str(piece)?;
        }
    }
    Ok(())
}

/// Appends so many copies of the text.
fn push_times(out: &mut String, count: u64, text: &str) -> Result<()> {
    for _ in 0..count {
        out.push_str(text)?;
    }
    Ok(())
}

/// The text of the row: that of its lines `text`, and that of each line `times` and `each` so many times.
pub fn text(alloc: Global, row: &str) -> Result<String> {
    let mut out = String::new(alloc);
    for line in row.lines() {
        let (word, rest) = parts(line);
        let (count, copied) = parts(rest);
        match word {
            "text" => out.push_str(decoded(alloc, rest)?.as_str())?,
            "times" => push_times(&mut out, number(count)?, decoded(alloc, copied)?.as_str())?,
            "each" => push_each(&mut out, number(count)?, copied)?,
            _ => {}
        }
    }
    Ok(out)
}

/// Says a fact: a line, in which each control character stands as its number.
pub fn say(out: &mut String, fact: &str) -> Result<(), AllocError> {
    out.push_str("  ")?;
    for character in fact.chars() {
        if character.is_control() {
            write!(out, "«{}»", u32::from(character))?;
        } else {
            out.push(character)?;
        }
    }
    out.push_str("\n")
}

/// A number that tells texts apart.
fn digest(text: &str) -> u64 {
    let mut sum = 0u64;
    for byte in text.bytes() {
        sum = sum.wrapping_mul(1_000_003).wrapping_add(u64::from(byte));
    }
    sum
}

/// What is said in place of it where it is long: how many bytes it has, and their digest.
pub fn shortened(alloc: Global, said: String) -> Result<String> {
    if said.len() <= 4_000 {
        return Ok(said);
    }
    let text = said.as_str();
    Ok(format!(in alloc; "  {} bytes, digest {:x}\n", text.len(), digest(text))?)
}
