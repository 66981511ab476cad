//! Clauses with a large head, made here: a text of such a clause would be long, and so would its code.
use anyhow::Result;
use iso_compile::Code;
use iso_model::Term;
use std::alloc::{AllocError, Global};
use std::fmt::Write;

/// The term of this name and these arguments.
fn compound(alloc: Global, name: &str, arguments: Vec<Term>) -> Result<Term, AllocError> {
    Ok(Term::Compound(String::from_str(alloc, name)?, arguments))
}

/// The clause `p(s(s(..)))` of so many compounds in one another.
pub fn deep_clause(alloc: Global, depth: u64) -> Result<Term, AllocError> {
    let mut term = Term::Atom(String::from_str(alloc, "zero")?);
    for _ in 0..depth {
        let mut arguments = Vec::new(alloc);
        arguments.push(term)?;
        term = compound(alloc, "s", arguments)?;
    }
    let mut arguments = Vec::new(alloc);
    arguments.push(term)?;
    compound(alloc, "p", arguments)
}

/// The list of so many variables, from number 0 on.
fn variables(alloc: Global, count: u64) -> Result<Term, AllocError> {
    let mut list = Term::Atom(String::from_str(alloc, "[]")?);
    for index in 0..count {
        let mut arguments = Vec::new(alloc);
        arguments.push(Term::Var(count - 1 - index))?;
        arguments.push(list)?;
        list = compound(alloc, ".", arguments)?;
    }
    Ok(list)
}

/// The clause `p([A, B, ..]) :- q([A, B, ..])` of so many variables.
pub fn wide_clause(alloc: Global, count: u64) -> Result<Term, AllocError> {
    let mut sides = Vec::new(alloc);
    for name in ["p", "q"] {
        let mut arguments = Vec::new(alloc);
        arguments.push(variables(alloc, count)?)?;
        sides.push(compound(alloc, name, arguments)?)?;
    }
    compound(alloc, ":-", sides)
}

/// Writes how large code is.
pub fn write_sizes(out: &mut String, code: &Code) -> Result<()> {
    writeln!(
        out,
        "  {} gets, {} blocks, {} fresh variables, {} instructions, {} slots, {} registers",
        code.gets.len(),
        code.blocks.len(),
        code.fresh.len(),
        code.body.len(),
        code.slots,
        code.registers,
    )?;
    Ok(())
}
