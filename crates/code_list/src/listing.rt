//! The code of clauses in the notation of the tutorials: one instruction a line, in the order in which they are done.
//! A register is `X` and its number, an argument `A`, a slot `Y`.
use anyhow::Result;
use iso_alloc::Place;
use iso_compile::{Arguments, Block, Call, Code, Get, Instruction, Mark, Part, Step};
use iso_model::Comparison;
use std::fmt::Write;

/// Writes where a variable is kept.
fn write_place(out: &mut String, place: Place) -> Result<()> {
    match place {
        Place::Register(register) => write!(out, "X{register}")?,
        Place::Slot(slot) => write!(out, "Y{slot}")?,
        Place::Nowhere => out.push_str("none")?,
    }
    Ok(())
}

/// Writes an instruction of this kind (`get`, `put`, `unify` or `set`) for an argument.
fn write_part(out: &mut String, kind: &str, part: &Part) -> Result<()> {
    out.push_str("    ")?;
    out.push_str(kind)?;
    match part {
        Part::New(_, place) => {
            out.push_str("_variable ")?;
            write_place(out, *place)?;
        }
        Part::Old(_, place) => {
            out.push_str("_value ")?;
            write_place(out, *place)?;
        }
        Part::Void(_) => out.push_str("_void 1")?,
        Part::Integer(value) => write!(out, "_constant {value}")?,
        Part::Atom(name) => write!(out, "_constant {name}")?,
        Part::Inner(register) if kind == "unify" => write!(out, "_variable X{register}")?,
        Part::Inner(register) => write!(out, "_value X{register}")?,
    }
    Ok(())
}

/// Lists a block that is read or made.
fn list_block(out: &mut String, structure: &str, kind: &str, block: &Block) -> Result<()> {
    writeln!(
        out,
        "    {structure}_structure {}/{}, X{}",
        block.name,
        block.parts.len(),
        block.register,
    )?;
    for part in &block.parts {
        write_part(out, kind, part)?;
        out.push_str("\n")?;
    }
    Ok(())
}

/// Lists what an argument of a head is met with that is no compound.
fn list_get(out: &mut String, get: &Get) -> Result<()> {
    write_part(out, "get", &get.part)?;
    writeln!(out, ", A{}", get.register)?;
    Ok(())
}

/// Lists how the arguments of a goal are put: its blocks, of which the last is made first, and then its parts.
fn list_arguments(out: &mut String, arguments: &Arguments) -> Result<()> {
    let count = arguments.blocks.len();
    for index in 0..count {
        list_block(out, "put", "set", &arguments.blocks[count - 1 - index])?;
    }
    for (argument, part) in arguments.parts.iter().enumerate() {
        write_part(out, "put", part)?;
        writeln!(out, ", A{argument}")?;
    }
    Ok(())
}

/// Lists a call by this instruction.
fn list_call(out: &mut String, instruction: &str, call: &Call) -> Result<()> {
    list_arguments(out, &call.arguments)?;
    writeln!(
        out,
        "    {instruction} {}/{}",
        call.name,
        call.arguments.parts.len(),
    )?;
    Ok(())
}

/// Lists the steps of an expression.
fn list_steps(out: &mut String, steps: &[Step]) -> Result<()> {
    for step in steps {
        match step {
            Step::Value(part) => {
                write_part(out, "push", part)?;
                out.push_str("\n")?;
            }
            Step::One(name) => writeln!(out, "    apply {name}/1")?,
            Step::Two(name) => writeln!(out, "    apply {name}/2")?,
        }
    }
    Ok(())
}

/// The name of a comparison.
fn comparison_name(comparison: Comparison) -> &'static str {
    match comparison {
        Comparison::Equal => "=:=",
        Comparison::Unequal => "=\\=",
        Comparison::Less => "<",
        Comparison::AtMost => "=<",
        Comparison::Greater => ">",
        Comparison::AtLeast => ">=",
    }
}

/// Lists a cut to the mark.
fn list_cut(out: &mut String, mark: Mark) -> Result<()> {
    match mark {
        Mark::Clause => out.push_str("    cut\n")?,
        Mark::Level(slot) => writeln!(out, "    cut Y{slot}")?,
        Mark::AboveLevel(slot) => writeln!(out, "    cut Y{slot} + 1")?,
    }
    Ok(())
}

/// Lists an instruction of a body.
fn list_instruction(out: &mut String, instruction: &Instruction) -> Result<()> {
    match instruction {
        Instruction::Call(call) => list_call(out, "call", call)?,
        Instruction::Execute(call) => list_call(out, "execute", call)?,
        Instruction::Is(part, steps) => {
            list_steps(out, steps.as_slice())?;
            write_part(out, "is", part)?;
            out.push_str("\n")?;
        }
        Instruction::Compare(comparison, steps) => {
            list_steps(out, steps.as_slice())?;
            writeln!(out, "    compare {}", comparison_name(*comparison))?;
        }
        Instruction::Proceed => out.push_str("    proceed\n")?,
        Instruction::Cut(mark) => list_cut(out, *mark)?,
        Instruction::GetLevel(slot) => writeln!(out, "    get_level Y{slot}")?,
        Instruction::TryElse(address) => writeln!(out, "    try_me_else {address}")?,
        Instruction::Jump(address) => writeln!(out, "    jump {address}")?,
    }
    Ok(())
}

/// Lists the code of a clause. An instruction of the body stands behind its address.
pub fn list_code(out: &mut String, code: &Code) -> Result<()> {
    for get in &code.gets {
        list_get(out, get)?;
    }
    for block in &code.blocks {
        list_block(out, "get", "unify", block)?;
    }
    for part in &code.fresh {
        write_part(out, "put", part)?;
        out.push_str("\n")?;
    }
    let count = code.body.len();
    for index in 0..count {
        let address = count - 1 - index;
        writeln!(out, "  {address}:")?;
        list_instruction(out, &code.body[address])?;
    }
    writeln!(out, "  {} slots, {} registers", code.slots, code.registers)?;
    Ok(())
}
