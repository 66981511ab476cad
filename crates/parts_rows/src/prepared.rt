//! Clauses and goals that are made ready (7.4, 7.6): their heads and bodies, the classes and last uses of their
//! variables, their constructs, and the faults in their order.
use super::rows::{field, number, numbers, say, text};
use super::terms::{read_term, write_term};
use anyhow::{Context, Result, bail};
use iso_model::Term;
use iso_prep::{Class, Fault, Node, Prepared, prepare, prepare_goal};
use std::alloc::Global;
use std::fmt::Write;

/// Writes the class and the last use of each variable.
fn write_variables(alloc: Global, out: &mut String, prepared: &Prepared) -> Result<()> {
    let uses = prepared.uses(alloc)?;
    for variable in 0..prepared.variables() {
        let class = match uses.class(variable) {
            Class::Void => "void",
            Class::Temporary => "temporary",
            Class::Permanent => "permanent",
        };
        write!(out, " {class} {}", uses.last_use(variable))?;
    }
    Ok(())
}

/// Writes a part of a body.
fn write_node(out: &mut String, node: Node<&Term>) -> Result<()> {
    out.push_str(" ")?;
    match node {
        Node::Cut => out.push_str("!")?,
        Node::Run(goal) => write_term(out, goal)?,
        Node::And(first) => write!(out, "And({first})")?,
        Node::Or(first) => write!(out, "Or({first})")?,
        Node::If(condition) => write!(out, "If({condition})")?,
        Node::Choose(condition, next) => write!(out, "Choose({condition},{next})")?,
    }
    Ok(())
}

/// Writes what was prepared: head, body, variables, constructs.
fn write_prepared(alloc: Global, out: &mut String, prepared: &Prepared) -> Result<()> {
    match prepared.head() {
        Some(head) => write_term(out, head)?,
        None => out.push_str("goal")?,
    }
    out.push_str(" :- ")?;
    write_term(out, prepared.body())?;
    out.push_str(" |")?;
    write_variables(alloc, out, prepared)?;
    out.push_str(" |")?;
    for node in &prepared.constructs(alloc)? {
        write_node(out, *node)?;
    }
    Ok(())
}

/// Writes why nothing was prepared.
fn write_fault(out: &mut String, fault: Fault) -> Result<()> {
    match fault {
        Fault::Instantiation => out.push_str("instantiation")?,
        Fault::TooManyVariables => out.push_str("too many variables")?,
        Fault::NoMemory => bail!("no memory"),
        Fault::Callable(culprit) => {
            out.push_str("callable ")?;
            write_term(out, &culprit)?;
        }
    }
    Ok(())
}

/// The term of a clause or, where the row says so, of a goal, and what it becomes: the head, the body, the variables in
/// order, each with its class and the last goal that has it, and the parts of the body; or the fault. Where it says
/// `count`, only how many variables there are.
pub fn prepared(alloc: Global, row: &str) -> Result<String> {
    let text = text(alloc, row)?;
    let term = read_term(
        alloc,
        text.as_str(),
        numbers(alloc, row, "numbers")?.as_slice(),
    )?;
    let prepared = match field(row, "goal") {
        Some(_) => prepare_goal(alloc, &term),
        None => prepare(alloc, &term),
    };
    let mut fact = String::new(alloc);
    match prepared {
        Err(fault) => write_fault(&mut fact, fault)?,
        Ok(prepared) if field(row, "count").is_some() => {
            write!(fact, "{} variables", prepared.variables())?;
        }
        Ok(prepared) => write_prepared(alloc, &mut fact, &prepared)?,
    }
    let mut out = String::new(alloc);
    say(&mut out, fact.as_str())?;
    Ok(out)
}

/// A compound of two arguments.
fn two(alloc: Global, name: &str, first: Term, second: Term) -> Result<Term> {
    let arguments = vec![in alloc; first, second]?;
    Ok(Term::Compound(String::from_str(alloc, name)?, arguments))
}

/// A conjunction of so many goals, which nest to the right or to the left.
fn conjunction(alloc: Global, count: u64, to_the_right: bool) -> Result<Term> {
    let mut body = Term::Atom(String::from_str(alloc, "a")?);
    for _ in 1..count {
        let goal = Term::Atom(String::from_str(alloc, "a")?);
        body = if to_the_right {
            two(alloc, ",", goal, body)?
        } else {
            two(alloc, ",", body, goal)?
        };
    }
    Ok(body)
}

/// A clause with a conjunction of so many goals: how many parts its body has, and the last of them.
pub fn body(alloc: Global, row: &str) -> Result<String> {
    let count = number(field(row, "goals").context("no number of goals")?)?;
    let body = conjunction(alloc, count, field(row, "right").is_some())?;
    let head = Term::Atom(String::from_str(alloc, "p")?);
    let clause = two(alloc, ":-", head, body)?;
    let Ok(prepared) = prepare(alloc, &clause) else {
        bail!("not prepared");
    };
    let parts = prepared.constructs(alloc)?;
    let mut out = format!(in alloc; "  {} parts, the last is", parts.len())?;
    if let Some(last) = parts.last() {
        write_node(&mut out, *last)?;
    }
    out.push_str("\n")?;
    Ok(out)
}
