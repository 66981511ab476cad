//! Two stacks in one block, names with their numbers, variables with their places, and errors of limits.
ghost use Rattle.std.specs.Prelude.{◌≡◌, [], ◌∷◌, ◌++◌, ◌≤◌, ◌<◌, length, IfOk, OnOk, OnErr};
ghost use Rattle.iso_area.specs.Stacks.{stacks};

use super::rows::{field, numbers, parts, say};
use super::terms::{read_term, write_term};
use anyhow::Result;
use iso_area::{Area, Full, NoMemory};
use iso_atoms::{Atom, Atoms};
use iso_lib::errors;
use iso_model::{Numbering, Term};
use std::alloc::{AllocError, Global};
use std::fmt::{Debug, Write};

/// An area; where memory is refused, once more.
fn area_at_last<T: Copy>(alloc: Global, capacity: usize) -> Result<Area<T>, NoMemory> {
    match Area::new(alloc, capacity) {
        Ok(area) => Ok(area),
        Err(NoMemory) => Area::new(alloc, capacity),
    }
}

/// Pushes a value on both stacks, or on neither: a caller sees lists alone.
fn push_both(area: &mut Area<u64>, item: u64) -> Result<(), Full>
    ensures pushed { OnOk result (area.new
        ≡ stacks (area.old.low ++ item ∷ []) (area.old.high ++ item ∷ []) area.old.capacity) }
    ensures unchanged { OnErr result (area.new ≡ area.old) }
{
    let low_len = area.low_len();
    area.push_low(item)?;
    match area.push_high(item) {
        Ok(()) => Ok(()),
        Err(Full) => {
            area.cut_low(low_len);
            Err(Full)
        }
    }
}

/// Pushes so many numbers from this one on, up to the first that has no room: how many have.
fn push_all(area: &mut Area<u64>, is_low: bool, first: u64, count: u64) -> u64 {
    for step in 0..count {
        let item = first.saturating_add(step);
        let pushed = if is_low {
            area.push_low(item)
        } else {
            area.push_high(item)
        };
        if pushed.is_err() {
            return step;
        }
    }
    count
}

/// Says the values of both stacks, each from its bottom on.
fn say_stacks(out: &mut String, area: &Area<u64>) -> Result<()> {
    out.push_str("  low")?;
    for index in 0..area.low_len() {
        write!(out, " {}", area.low(index))?;
    }
    out.push_str(", high")?;
    for index in 0..area.high_len() {
        write!(out, " {}", area.high(index))?;
    }
    writeln!(out, " of {}", area.capacity())?;
    Ok(())
}

/// Does with the area what a line says, with these two numbers; says the stacks where it does nothing else.
fn act(area: &mut Area<u64>, out: &mut String, deed: &str, one: u64, two: u64) -> Result<()> {
    let len = one as usize;
    match deed {
        "low" => writeln!(out, "  {} pushed", push_all(area, true, one, two))?,
        "high" => writeln!(out, "  {} pushed", push_all(area, false, one, two))?,
        "both" => writeln!(out, "  {:?}", push_both(area, one))?,
        "set_low" if len < area.low_len() => area.set_low(len, two),
        "cut_low" if len <= area.low_len() => area.cut_low(len),
        "cut_high" if len <= area.high_len() => area.cut_high(len),
        _ => say_stacks(out, &*area)?,
    }
    Ok(())
}

/// The two numbers of a line; 0, where one isn't there.
fn two_numbers(text: &str) -> (u64, u64) {
    let (one, two) = parts(text);
    (
        one.parse::<u64>().unwrap_or(0),
        two.parse::<u64>().unwrap_or(0),
    )
}

/// An area with room for so many values, call by call.
pub fn area(alloc: Global, row: &str) -> Result<String> {
    let mut out = String::new(alloc);
    let (room, _) = two_numbers(field(row, "room").unwrap_or(""));
    let mut area = area_at_last(alloc, room as usize)?;
    for line in row.lines() {
        let (deed, rest) = parts(line);
        let (one, two) = two_numbers(rest);
        if deed != "" && deed != "room" {
            act(&mut area, &mut out, deed, one, two)?;
        }
    }
    Ok(out)
}

/// Says of an area with room for so many values of a type whether it was refused; where it wasn't and isn't large, what
/// two pushes come to, and the values then.
fn say_sized<T: Copy + Debug>(
    alloc: Global,
    out: &mut String,
    room: usize,
    low: T,
    high: T,
) -> Result<()> {
    let Ok(mut area) = area_at_last(alloc, room) else {
        say(out, "refused")?;
        return Ok(());
    };
    let (first, second) = (area.push_low(low), area.push_high(high));
    let third = area.push_low(low);
    writeln!(out, "  {} {first:?} {second:?} {third:?}", area.capacity())?;
    if area.low_len() > 0 && area.high_len() > 0 {
        writeln!(out, "  {:?} {:?}", area.low(0), area.high(0))?;
    }
    Ok(())
}

/// Areas with so much room for values of several sizes and alignments, and of no bytes at all.
pub fn sizes(alloc: Global, row: &str) -> Result<String> {
    let mut out = String::new(alloc);
    let (room, _) = two_numbers(field(row, "room").unwrap_or(""));
    let room = room as usize;
    say_sized(alloc, &mut out, room, (), ())?;
    say_sized(alloc, &mut out, room, 1u8, 2u8)?;
    say_sized(alloc, &mut out, room, 7u64, 9u64)?;
    say_sized(alloc, &mut out, room, (255u8, 7u64), (3u8, 1u64 << 63))?;
    Ok(out)
}

/// Numbers the text; where memory is refused, once more.
fn numbered_at_last(atoms: &mut Atoms, text: &str) -> Result<Atom, NoMemory>
    ensures within { IfOk result (λ atom. atom < length atoms.new) }
    ensures kept { length atoms.old ≤ length atoms.new }
{
    match atoms.intern(text) {
        Ok(atom) => Ok(atom),
        Err(NoMemory) => atoms.intern(text),
    }
}

/// Names and their numbers: each line's two names with their numbers and texts, and how they compare.
pub fn atoms(alloc: Global, row: &str) -> Result<String> {
    let mut out = String::new(alloc);
    let mut atoms = Atoms::new(alloc);
    for line in row.lines() {
        let (deed, rest) = parts(line);
        let (one, two) = parts(rest);
        if deed == "names" {
            let first = numbered_at_last(&mut atoms, one)?;
            let second = numbered_at_last(&mut atoms, two)?;
            writeln!(out, "  {first:?} {}", atoms.text(first))?;
            writeln!(out, "  {second:?} {}", atoms.text(second))?;
            writeln!(out, "  {:?} of {}", atoms.order(first, second), atoms.len())?;
        }
    }
    Ok(out)
}

/// Variables in the order in which they are noted, call by call. `all` notes those of `f(A, g(B), A, C)`, which have
/// these numbers.
pub fn numbering(alloc: Global, row: &str) -> Result<String> {
    let mut out = String::new(alloc);
    let mut seen = Numbering::new(alloc);
    for line in row.lines() {
        let (deed, rest) = parts(line);
        let (one, _) = two_numbers(rest);
        match deed {
            "note" => seen.note(one)?,
            "cut" => seen.truncate(one as usize),
            "place" => writeln!(out, "  {:?} of {}", seen.place(one), seen.len())?,
            "all" => {
                let numbers = numbers(alloc, row, "all")?;
                let term = read_term(alloc, "f(A, g(B), A, C).", numbers.as_slice())?;
                seen.note_all(alloc, &term)?;
            }
            _ => {}
        }
    }
    Ok(out)
}

/// Says a term.
fn say_term(out: &mut String, term: &Term) -> Result<(), AllocError> {
    out.push_str("  ")?;
    write_term(out, term)?;
    out.push_str("\n")
}

/// Error terms that no session of the data shows; those of each kind stand in sessions.
pub fn limits(alloc: Global) -> Result<String> {
    let mut out = String::new(alloc);
    say_term(&mut out, &errors::indicator(alloc, "foo", 255)?)?;
    say_term(
        &mut out,
        &errors::wrong_type(alloc, "list", Term::Int(3), "p", 0)?.term,
    )?;
    say_term(
        &mut out,
        &errors::static_procedure(alloc, "foo", 3, "consult")?.term,
    )?;
    say_term(
        &mut out,
        &errors::too_many_variables(alloc, "consult")?.term,
    )?;
    Ok(out)
}
