//! Lists the code of each clause of the texts that its words name. For `--deep=N` and `--wide=N` it says how large the
//! code of a clause with a large head is.
#![tactic(auto)]

mod listing;
mod sizes;

use anyhow::{Result, bail};
use iso_alloc::assign;
use iso_compile::compile;
use iso_model::Term;
use iso_ops::{Flags, OpFault, OpTable};
use iso_prep::{Fault, Prepared, prepare, prepare_goal};
use iso_read::{ReadFault, read_clause};
use iso_token::Tokens;
use std::alloc::Global;
use std::{env, fs};

/// The code of what was prepared.
fn listed(alloc: Global, prepared: &Prepared) -> Result<String> {
    let plan = assign(alloc, prepared)?;
    let code = compile(alloc, prepared, &plan)?;
    let mut out = String::new(alloc);
    listing::list_code(&mut out, &code)?;
    Ok(out)
}

/// The goal behind `?-` or `:-`, where the term is a query or a directive.
fn goal_of(term: &Term) -> Option<&Term> {
    let Term::Compound(name, arguments) = term else {
        return None;
    };
    match arguments.as_slice() {
        [goal] if name.as_str() == "?-" => Some(goal),
        [goal] if name.as_str() == ":-" => Some(goal),
        _ => None,
    }
}

/// Does a directive that declares an operator.
fn declare_operator(ops: &mut OpTable, directive: &Term) -> Result<()> {
    let Term::Compound(name, arguments) = directive else {
        return Ok(());
    };
    let [Term::Int(priority), Term::Atom(spec), Term::Atom(operator)] = arguments.as_slice() else {
        return Ok(());
    };
    if name.as_str() == "op" {
        if let Err(OpFault::NoMemory) = ops.add_op(*priority, spec.as_str(), operator.as_str()) {
            bail!("no memory");
        }
    }
    Ok(())
}

/// The code of a clause, of a query or of a directive; or that the term is neither.
fn listed_term(alloc: Global, term: &Term) -> Result<String> {
    let prepared = match goal_of(term) {
        Some(goal) => prepare_goal(alloc, goal),
        None => prepare(alloc, term),
    };
    match prepared {
        Ok(prepared) => listed(alloc, &prepared),
        Err(Fault::NoMemory) => bail!("no memory"),
        Err(_) => Ok(String::from_str(alloc, "  no clause\n")?),
    }
}

/// Lists the code of each clause of the text, under its number. The operators that it declares are there behind it.
fn list_text(rt: &HostRuntime, ops: &mut OpTable, text: &str) -> Result<()> {
    let flags = Flags::initial();
    let mut tokens = Tokens::new(text);
    for number in 0..text.len() {
        match read_clause(rt.alloc(), &mut tokens, ops, &flags) {
            Ok(Some(read)) => {
                if let Some(goal) = goal_of(&read.term) {
                    declare_operator(ops, goal)?;
                }
                let code = listed_term(rt.alloc(), &read.term)?;
                print!(rt; "clause {number}\n{code}")?;
            }
            Ok(None) => return Ok(()),
            Err(ReadFault::Syntax) => println!(rt; "clause {number}\n  not read")?,
            Err(ReadFault::NoMemory) => bail!("no memory"),
        }
    }
    Ok(())
}

/// Says how large the code of a clause is.
fn list_sizes(rt: &HostRuntime, word: &str, clause: &Term) -> Result<()> {
    let Ok(prepared) = prepare(rt.alloc(), clause) else {
        bail!("no clause");
    };
    let plan = assign(rt.alloc(), &prepared)?;
    let code = compile(rt.alloc(), &prepared, &plan)?;
    let mut out = String::new(rt.alloc());
    sizes::write_sizes(&mut out, &code)?;
    print!(rt; "{word}\n{out}")?;
    Ok(())
}

/// Does what a word asks for.
fn list_word(rt: &HostRuntime, ops: &mut OpTable, word: &str) -> Result<()> {
    if let Some(depth) = word.strip_prefix("--deep=") {
        let clause = sizes::deep_clause(rt.alloc(), depth.parse::<u64>()?)?;
        return list_sizes(rt, word, &clause);
    }
    if let Some(count) = word.strip_prefix("--wide=") {
        let clause = sizes::wide_clause(rt.alloc(), count.parse::<u64>()?)?;
        return list_sizes(rt, word, &clause);
    }
    let text = fs::read_to_string(rt, word)?;
    list_text(rt, ops, text.as_str())
}

fn main(rt: HostRuntime) -> Result<()> {
    let mut ops = OpTable::initial(rt.alloc())?;
    for word in env::args(&rt)?.skip(1) {
        list_word(&rt, &mut ops, word.as_str())?;
    }
    Ok(())
}
