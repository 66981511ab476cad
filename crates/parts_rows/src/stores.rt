//! Terms in both stores, of nodes and of cells: how the sides of an equation compare (7.2), whether they unify (7.3),
//! what a mark brings back, goals of built-ins that run no goal, and what a full store says.
ghost use Rattle.std.specs.Prelude.{◌≡◌, ◌<◌, ◌^◌, IfOk, IfSome, length, true};
ghost use Rattle.std.specs.List.{All};
ghost use Rattle.iso_model.specs.Terms.Trees.{arities_fit};
ghost use Rattle.iso_model.specs.Terms.TermOf.{term_of};
ghost use Rattle.iso_model.specs.Search.Library.{library_arity};
ghost use Rattle.iso_store_core.specs.Presents.{Holds, KeepsMarks};
ghost use Rattle.iso_arith.specs.Evaluables.{AreEvaluables};
ghost use Rattle.parts_rows.specs.NewStores.{IsNew};
ghost use Rattle.parts_rows.specs.Replies.{Stays};

use super::calls;
use super::rows::{field, parts, text};
use super::terms::{read_term, write_term};
use anyhow::{Result, bail, ensure};
use iso_arith::{EvalFault, Evaluables, eval};
use iso_lib::{Fault, Reply, builtin};
use iso_model::{BuiltIn, Library, Term, built_in, well_formed};
use iso_store::{Heap, Nodes, Shape, Store, StoreFault};
use std::alloc::Global;
use std::fmt::Write;

/// The two sides of the equation that the word stands for, if it stands for one.
fn sides<S: Store>(store: &S, word: S::Word) -> Option<(S::Word, S::Word)>
    requires { Holds (S.present store.now) word }
    ensures first { IfSome result (λ both. Holds (S.present store.now) both.0) }
    ensures second { IfSome result (λ both. Holds (S.present store.now) both.1) }
{
    match store.shape(word) {
        Shape::Compound(_, 2) => Some((store.arg(word, 0), store.arg(word, 1))),
        _ => None,
    }
}

/// Says how the sides of the equation compare, and how they do when they are exchanged.
fn compared<S: Store>(store: &mut S, term: &Term, out: &mut String) -> Result<(), StoreFault>
    requires fits { arities_fit (term_of term.now) ≡ true }
    requires next { (S.present store.old).next < 2 ^ 63 }
{
    let whole = store.build(term)?;
    let Some((first, second)) = sides(&*store, whole) else {
        return Ok(());
    };
    let order = store.compare(first, second)?;
    let turned = store.compare(second, first)?;
    writeln!(out, "  {order:?}, {turned:?}")?;
    Ok(())
}

/// Says the variables of the term that the word stands for.
fn say_variables<S: Store>(store: &S, word: S::Word, out: &mut String) -> Result<(), StoreFault>
    requires { Holds (S.present store.now) word }
{
    out.push_str("  variables")?;
    for variable in &store.variables(word)? {
        out.push_str(" ")?;
        write_term(out, &store.copy_out(*variable)?)?;
    }
    out.push_str("\n")?;
    Ok(())
}

/// Says the term that the word stands for, behind this text.
pub fn say_term<S: Store>(
    store: &S,
    before: &str,
    word: S::Word,
    out: &mut String,
) -> Result<(), StoreFault>
    requires { Holds (S.present store.now) word }
{
    let term = store.copy_out(word)?;
    out.push_str(before)?;
    write_term(out, &term)?;
    out.push_str("\n")?;
    Ok(())
}

/// Says the variables of an equation and, where its sides unify, the equation then, its variables, and the equation
/// behind the mark.
fn unified<S: Store>(store: &mut S, term: &Term, out: &mut String) -> Result<(), StoreFault>
    requires fits { arities_fit (term_of term.now) ≡ true }
    requires next { (S.present store.old).next < 2 ^ 63 }
{
    let whole = store.build(term)?;
    say_variables(&*store, whole, out)?;
    let Some((first, second)) = sides(&*store, whole) else {
        return Ok(());
    };
    let before = store.mark();
    if !store.unify(first, second)? {
        out.push_str("  no unifier\n")?;
        return Ok(());
    }
    say_term(&*store, "  ", whole, out)?;
    say_variables(&*store, whole, out)?;
    store.undo(before);
    say_term(&*store, "  back ", whole, out)
}

/// Says the value of an expression, or why it has none.
fn evaluated<S: Store>(
    alloc: Global,
    store: &mut S,
    term: &Term,
    out: &mut String,
) -> Result<(), StoreFault>
    requires fits { arities_fit (term_of term.now) ≡ true }
    requires next { (S.present store.old).next < 2 ^ 63 }
{
    let expression = store.build(term)?;
    let evaluables = Evaluables::new(alloc, store)?;
    match eval(alloc, &*store, &evaluables, expression) {
        Ok(value) => writeln!(out, "  {value}")?,
        Err(EvalFault::NoMemory) => return Err(StoreFault::NoMemory),
        Err(fault) => writeln!(out, "  {fault:?}")?,
    }
    Ok(())
}

/// The built-in of the term's name and number of arguments, if it is one that runs no goal, with this number.
fn library_row(term: &Term) -> Option<(Library, usize)>
    ensures { IfSome result (λ found. found.1 ≡ library_arity found.0) }
{
    let Term::Compound(name, arguments) = term else {
        return None;
    };
    let count = arguments.len();
    match built_in(name.as_str(), count) {
        Some(BuiltIn::Library(row)) => Some((row, count)),
        _ => None,
    }
}

/// Words for the arguments of the compound that the word stands for; none for another term.
fn argument_words<S: Store>(
    alloc: Global,
    store: &S,
    word: S::Word,
) -> Result<Vec<S::Word>, StoreFault>
    requires { Holds (S.present store.now) word }
    ensures { IfOk result (λ words. All (λ w. Holds (S.present store.now) w) words.items) }
{
    let mut words = Vec::new(alloc);
    if let Shape::Compound(_, count) = store.shape(word) {
        for index in 0..count {
            words.push(store.arg(word, index))?;
        }
    }
    Ok(words)
}

/// Runs the built-in on these words.
fn replied<S: Store>(
    alloc: Global,
    store: &mut S,
    evaluables: &Evaluables,
    row: Library,
    words: &[S::Word],
) -> Result<Reply, Fault>
    requires words { All (λ w. Holds (S.present store.old) w) words.now }
    requires count { length words.now ≡ library_arity row }
    requires next { (S.present store.old).next < 2 ^ 63 }
    requires evaluables { AreEvaluables (S.names store.old) evaluables.now }
    ensures words { Stays (S.present store.old) (S.present store.new) result }
    ensures marks { KeepsMarks (S.stands store.old) (S.stands store.new) }
{
    builtin(alloc, store, evaluables, row, words)
}

/// Says what comes of a goal, and the goal as it stands then. Where it fails, and where the store is full, what was
/// bound is taken back first.
fn ran<S: Store>(
    alloc: Global,
    store: &mut S,
    term: &Term,
    out: &mut String,
) -> Result<(), StoreFault>
    requires fits { arities_fit (term_of term.now) ≡ true }
    requires new { IsNew (S.present store.old) }
{
    let goal = store.build(term)?;
    let evaluables = Evaluables::new(alloc, store)?;
    let words = argument_words(alloc, &*store, goal)?;
    let Some((row, count)) = library_row(term) else {
        return Ok(());
    };
    if words.len() != count {
        return Ok(());
    }
    let before = store.mark();
    match replied(alloc, store, &evaluables, row, words.as_slice()) {
        Ok(Reply::Done) => say_term(&*store, "  done ", goal, out),
        Ok(Reply::Fail) => {
            store.undo(before);
            say_term(&*store, "  fails ", goal, out)
        }
        Err(fault) => match fault {
            Fault::Raise(ball) => {
                out.push_str("  ")?;
                write_term(out, &*ball.term)?;
                say_term(&*store, " ", goal, out)
            }
            Fault::Full => {
                store.undo(before);
                say_term(&*store, "  full ", goal, out)
            }
            Fault::NoMemory => Err(StoreFault::NoMemory),
        },
    }
}

/// Says what the call of this name gives in a new store.
fn call<S: Store>(
    alloc: Global,
    store: &mut S,
    name: &str,
    term: &Term,
    out: &mut String,
) -> Result<(), StoreFault>
    requires fits { arities_fit (term_of term.now) ≡ true }
    requires new { IsNew (S.present store.old) }
{
    match name {
        "compared" => compared(store, term, out),
        "unified" => unified(store, term, out),
        "evaluated" => evaluated(alloc, store, term, out),
        "ran" => ran(alloc, store, term, out),
        "built" => calls::built(store, term, out),
        "copied" => calls::copied(store, term, out),
        "atomic" => calls::atomic(store, out),
        "compound" => calls::compound(alloc, store, out),
        "names" => calls::names(store, term, out),
        "marks" => calls::marks(store, out),
        "older" => calls::older(store, out),
        "instances" => calls::instances(alloc, store, out),
        "renewed" => calls::renewed(alloc, store, out),
        "head" => calls::head(alloc, store, term, out),
        _ => Err(StoreFault::Full),
    }
}

/// The term of the row; 0, where it has no text.
fn row_term(alloc: Global, row: &str) -> Result<Term>
    ensures { IfOk result (λ t. arities_fit (term_of t) ≡ true) }
{
    let text = text(alloc, row)?;
    if text.is_empty() {
        return Ok(Term::Int(0));
    }
    let term = read_term(alloc, text.as_str(), &[])?;
    ensure!(well_formed(&term), "too many arguments");
    Ok(term)
}

/// How large a store is, which the row says: 100, where it doesn't.
fn size(text: Option<&str>) -> Result<u32> {
    match text {
        Some(text) => Ok(text.parse::<u32>()?),
        None => Ok(100),
    }
}

/// Says that the store was full, if it was.
fn say_end(out: &mut String, ended: Result<(), StoreFault>) -> Result<()> {
    match ended {
        Ok(()) => {}
        Err(StoreFault::Full) => out.push_str("  full\n")?,
        Err(StoreFault::NoMemory) => bail!("no memory"),
    }
    Ok(())
}

/// What the call of this name gives in a new store of nodes and in one of cells: once, where both give the same.
fn called(alloc: Global, row: &str, name: &str, term: &Term) -> Result<String>
    requires fits { arities_fit (term_of term.now) ≡ true }
{
    let (mut over_nodes, mut over_cells) = (String::new(alloc), String::new(alloc));
    let mut nodes = Nodes::new(alloc, size(field(row, "nodes"))?)?;
    let ended = call(alloc, &mut nodes, name, term, &mut over_nodes);
    say_end(&mut over_nodes, ended)?;
    let mut cells = Heap::new(alloc, size(field(row, "cells"))?)?;
    let ended = call(alloc, &mut cells, name, term, &mut over_cells);
    say_end(&mut over_cells, ended)?;
    if over_nodes.as_str() == over_cells.as_str() {
        return Ok(over_nodes);
    }
    Ok(format!(in alloc; "  nodes:\n{over_nodes}  cells:\n{over_cells}")?)
}

/// What each call of the row gives in new stores.
pub fn stores(alloc: Global, row: &str) -> Result<String> {
    let term = row_term(alloc, row)?;
    let mut out = String::new(alloc);
    for line in row.lines() {
        let (word, name) = parts(line);
        if word == "call" {
            out.push_str(called(alloc, row, name, &term)?.as_str())?;
        }
    }
    Ok(out)
}
