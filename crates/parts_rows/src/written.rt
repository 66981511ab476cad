//! Terms with their texts (7.10.5, 8.14.2).
use super::operators::with_operators;
use super::rows::{field, numbers, say, text};
use super::terms::read_term;
use anyhow::Result;
use iso_model::Numbering;
use iso_write::{Style, write_to};
use std::alloc::Global;
use std::fmt::Write;

/// The style of this name: quoted, where there is none.
fn style(name: Option<&str>) -> Style {
    match name {
        Some("write") => Style::Write,
        Some("write_canonical") => Style::Canonical,
        _ => Style::Writeq,
    }
}

/// The priority of the place, which is that of a whole term where none is named.
fn priority(text: Option<&str>) -> Result<u16> {
    match text {
        Some(text) => Ok(text.parse::<u16>()?),
        None => Ok(1200),
    }
}

/// Says the places of these variables among those that were seen, and how many were.
fn say_seen(alloc: Global, out: &mut String, seen: &Numbering, variables: &[u64]) -> Result<()> {
    let mut fact = format!(in alloc; "{} seen:", seen.len())?;
    for number in variables {
        write!(fact, " {number} at {}", seen.place_or_len(*number))?;
    }
    say(out, fact.as_str())?;
    Ok(())
}

/// The text of the term, behind `before`, with the variables `seen_before` seen then. Where the row has `seen`, also
/// those seen behind it.
pub fn written(alloc: Global, row: &str) -> Result<String> {
    let text = text(alloc, row)?;
    let term = read_term(
        alloc,
        text.as_str(),
        numbers(alloc, row, "variables")?.as_slice(),
    )?;
    let mut seen = Numbering::new(alloc);
    for number in &numbers(alloc, row, "seen_before")? {
        seen.note(*number)?;
    }
    let ops = with_operators(alloc, row)?;
    let (style, priority) = (
        style(field(row, "style")),
        priority(field(row, "priority"))?,
    );
    let mut bytes = Vec::from_slice(alloc, field(row, "before").unwrap_or("").as_bytes())?;
    write_to(alloc, &mut bytes, &term, style, priority, &ops, &mut seen)?;
    let mut out = String::new(alloc);
    say(
        &mut out,
        String::from_utf8_lossy(alloc, bytes.as_slice())?.as_str(),
    )?;
    let variables = numbers(alloc, row, "seen")?;
    if !variables.is_empty() {
        say_seen(alloc, &mut out, &seen, variables.as_slice())?;
    }
    Ok(out)
}
