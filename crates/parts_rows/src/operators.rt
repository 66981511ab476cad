//! Tables of operators (6.3.4.4, 8.14.3) and flags (7.11).
use super::rows::{parts, say};
use anyhow::{Context, Result, bail, ensure};
use iso_ops::{FlagValue, Flags, OpFault, OpTable, Spec};
use std::alloc::Global;
use std::fmt::Write;

/// Sets the operator of a line, as `700 xfx =>`.
fn set_once(ops: &mut OpTable, line: &str) -> Result<Result<(), OpFault>> {
    let (priority, rest) = parts(line);
    let (specifier, name) = parts(rest);
    Ok(ops.add_op(priority.parse::<i128>()?, specifier, name))
}

/// Sets the operator of a line; where memory is refused, once more, since a refused call changes nothing.
fn set_operator(ops: &mut OpTable, line: &str) -> Result<Result<(), OpFault>> {
    let len = ops.len();
    let set = set_once(ops, line)?;
    if set == Err(OpFault::NoMemory) {
        ensure!(ops.len() == len, "a refused call changed the table");
        return set_once(ops, line);
    }
    Ok(set)
}

/// The operators that stand before any is set, with those of the lines `op` of the row.
pub fn with_operators(alloc: Global, row: &str) -> Result<OpTable> {
    let mut ops = OpTable::initial(alloc)?;
    for line in row.lines() {
        let (word, rest) = parts(line);
        if word == "op" {
            ensure!(set_operator(&mut ops, rest)?.is_ok(), "no such operator");
        }
    }
    Ok(ops)
}

/// Writes what is found of a kind.
fn write_found(out: &mut String, kind: &str, operator: Option<(u16, Spec)>) -> Result<()> {
    if let Some((priority, spec)) = operator {
        write!(out, " {kind} {priority} {}", spec.text())?;
    }
    Ok(())
}

/// Says which operators the name is, of each kind.
fn say_found(out: &mut String, ops: &OpTable, name: &str) -> Result<()> {
    write!(out, "  {name}")?;
    write_found(out, "prefix", ops.prefix(name))?;
    write_found(out, "infix", ops.infix(name))?;
    write_found(out, "postfix", ops.postfix(name))?;
    out.push_str("\n")?;
    Ok(())
}

/// Whether the name is one of these, or these are none.
fn lists(names: &str, name: &str) -> bool {
    for listed in names.split_whitespace() {
        if listed == name {
            return true;
        }
    }
    names.is_empty()
}

/// Says the operators of these names, or all where there is none, in the order of the table.
fn say_table(out: &mut String, ops: &OpTable, names: &str) -> Result<()> {
    for place in 0..ops.len() {
        let entry = ops.entry(place);
        let name = entry.name.as_str();
        if lists(names, name) {
            writeln!(out, "  {} {} {name}", entry.priority, entry.spec.text())?;
        }
    }
    Ok(())
}

/// Says what came of an operator that was set.
fn say_set(out: &mut String, set: Result<(), OpFault>) -> Result<()> {
    match set {
        Ok(()) => say(out, "set")?,
        Err(fault) => writeln!(out, "  {fault:?}")?,
    }
    Ok(())
}

/// Operators that are set in a copy of the first table, and what each table then has.
pub fn operators(alloc: Global, row: &str) -> Result<String> {
    let mut out = String::new(alloc);
    let first = OpTable::initial(alloc)?;
    let mut ops = first.copied(alloc)?;
    for line in row.lines() {
        match parts(line) {
            ("set", rest) => say_set(&mut out, set_operator(&mut ops, rest)?)?,
            ("count", _) => writeln!(out, "  {} operators", ops.len())?,
            ("table", names) => say_table(&mut out, &ops, names)?,
            ("found", name) => say_found(&mut out, &ops, name)?,
            ("before", name) => say_found(&mut out, &first, name)?,
            _ => {}
        }
    }
    writeln!(out, "  {} operators before", first.len())?;
    Ok(out)
}

/// Says a flag with its value.
fn say_flag(out: &mut String, name: &str, value: FlagValue) -> Result<()> {
    match value {
        FlagValue::Int(value) => writeln!(out, "  {name} {value}")?,
        FlagValue::Word(value) => writeln!(out, "  {name} {value}")?,
    }
    Ok(())
}

/// Says the flags, each as it is listed and as its name gives it.
fn say_flags(out: &mut String, flags: &Flags) -> Result<()> {
    for (name, value) in flags.entries() {
        if flags.get(name) != Some(value) {
            bail!("{name} has another value by its name");
        }
        say_flag(out, name, value)?;
    }
    Ok(())
}

/// Flags that are set one behind the other, and whether each is; all flags with their values, and names of no flag.
pub fn flags(alloc: Global, row: &str) -> Result<String> {
    let mut out = String::new(alloc);
    let mut flags = Flags::initial();
    for line in row.lines() {
        let (word, rest) = parts(line);
        let (name, value) = parts(rest);
        match word {
            "set" => writeln!(out, "  {}", flags.set(name, value))?,
            "get" => writeln!(out, "  {}", flags.get(name).is_some())?,
            "flags" => say_flags(&mut out, &flags)?,
            _ => {}
        }
    }
    Ok(out)
}
