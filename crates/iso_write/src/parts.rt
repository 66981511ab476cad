//! The parts of terms, as tasks.
ghost use Rattle.std.specs.Prelude.{◌≡◌, ◌≤◌, ◌<◌, ◌+◌, ◌++◌, ℕ, List, map, OnOk};
ghost use Rattle.iso_ops.specs.Operators as ops;
ghost use Rattle.iso_model.specs.Terms.TermOf.{term_of, row_of};
ghost use Rattle.iso_model.specs.Syntax.Pieces as pieces;
ghost use Rattle.iso_write.specs.Styles.{style_of};
ghost use Rattle.iso_write.specs.Forms.{form_written, arguments_written, written, is_nil, operator_of};
ghost use Rattle.iso_write.specs.Tasks.{placed, stands_apart, pieces_of, with_tasks, load, form_load, tasks_load};

use super::brackets::has_brackets;
use super::forms::{Form, Operator, form_of};
use super::leads::leading_byte;
use super::names::is_symbolic;
use super::style::Style;
use super::tasks::{Place, Task};
use iso_model::Term;
use iso_ops::OpTable;
use std::alloc::AllocError;

/// Puts tasks before the other tasks, the last of them first.
fn push_all<'t>(todo: &mut Vec<Task<'t>>, tasks: &[Task<'t>]) -> Result<(), AllocError>
    ensures pieces { OnOk result ((style : pieces.Style) (table : List ops.Operator) (seen : List ℕ) → pieces_of style table seen todo.new.items
        ≡ with_tasks style table seen (pieces_of style table seen todo.old.items) tasks.now) }
    ensures load { OnOk result (tasks_load todo.new.items ≡ tasks_load tasks.now + tasks_load todo.old.items) }
{
    todo.extend_from_slice(tasks)
}

/// Puts a term in its place before the other tasks.
pub(crate) fn push_placed<'t>(
    todo: &mut Vec<Task<'t>>,
    term: &'t Term,
    place: Place<'t>,
    style: Style,
    ops: &OpTable,
) -> Result<(), AllocError>
    ensures pieces { OnOk result ((seen : List ℕ) → pieces_of (style_of style) ops.now seen todo.new.items
        ≡ placed place.entry (written (style_of style) ops.now seen (term_of term.now)) ++ pieces_of (style_of style) ops.now seen todo.old.items) }
    ensures load { OnOk result (tasks_load todo.new.items < 3 + load (term_of term.now) + tasks_load todo.old.items) }
{
    if has_brackets(form_of(term, style, ops), place, style, ops) {
        push_all(todo, &[Task::Mark(")"), Task::Bare(term), Task::Mark("(")])
    } else {
        push_all(todo, &[Task::Bare(term)])
    }
}

/// Puts an infix operator and its operands before the other tasks.
fn push_infix<'t>(
    todo: &mut Vec<Task<'t>>,
    operator: Operator<'t>,
    left: &'t Term,
    right: &'t Term,
) -> Result<(), AllocError>
    ensures pieces { OnOk result ((style : pieces.Style) (table : List ops.Operator) (seen : List ℕ) → pieces_of style table seen todo.new.items
        ≡ pieces.infix_pieces style table seen (operator_of operator.entry) (written style table seen (term_of left.now)) (written style table seen (term_of right.now)) ++ pieces_of style table seen todo.old.items) }
    ensures load { OnOk result (tasks_load todo.new.items < 24 + load (term_of left.now) + load (term_of right.now) + tasks_load todo.old.items) }
{
    let before = Task::Placed(left, Place::Left(operator));
    let behind = Task::Placed(right, Place::Right(operator));
    if operator.name == "," {
        push_all(todo, &[behind, Task::Mark(operator.name), before])
    } else if is_symbolic(operator.name) {
        push_all(todo, &[behind, Task::Name(operator.name), before])
    } else {
        let name = Task::Name(operator.name);
        push_all(todo, &[behind, Task::Gap, name, Task::Gap, before])
    }
}

/// Whether a space stands between a prefix operator and its operand: the operator is no symbol, or the operand's text
/// begins with a bracket or, behind `-`, with a digit.
fn is_apart<'t>(operator: Operator<'t>, term: &'t Term, style: Style, ops: &OpTable) -> bool
    ensures { (seen : List ℕ) → result ≡ stands_apart (operator_of operator.entry) (written (style_of style) ops.now seen (term_of term.now)) }
{
    if !is_symbolic(operator.name) {
        return true;
    }
    let first = leading_byte(term, Place::Right(operator), style, ops).unwrap_or(0);
    first == b'(' || operator.name == "-" && first.is_ascii_digit()
}

/// Puts a prefix operator and its operand before the other tasks.
fn push_prefix<'t>(
    todo: &mut Vec<Task<'t>>,
    operator: Operator<'t>,
    term: &'t Term,
    style: Style,
    ops: &OpTable,
) -> Result<(), AllocError>
    ensures pieces { OnOk result ((seen : List ℕ) → pieces_of (style_of style) ops.now seen todo.new.items
        ≡ pieces.prefix_pieces (style_of style) ops.now seen (operator_of operator.entry) (written (style_of style) ops.now seen (term_of term.now)) ++ pieces_of (style_of style) ops.now seen todo.old.items) }
    ensures load { OnOk result (tasks_load todo.new.items < 16 + load (term_of term.now) + tasks_load todo.old.items) }
{
    let behind = Task::Placed(term, Place::Right(operator));
    if is_apart(operator, term, style, ops) {
        push_all(todo, &[behind, Task::Gap, Task::Name(operator.name)])
    } else {
        push_all(todo, &[behind, Task::Name(operator.name)])
    }
}

/// Puts a postfix operator and its operand before the other tasks.
fn push_postfix<'t>(
    todo: &mut Vec<Task<'t>>,
    operator: Operator<'t>,
    term: &'t Term,
) -> Result<(), AllocError>
    ensures pieces { OnOk result ((style : pieces.Style) (table : List ops.Operator) (seen : List ℕ) → pieces_of style table seen todo.new.items
        ≡ pieces.postfix_pieces style table seen (operator_of operator.entry) (written style table seen (term_of term.now)) ++ pieces_of style table seen todo.old.items) }
    ensures load { OnOk result (tasks_load todo.new.items < 16 + load (term_of term.now) + tasks_load todo.old.items) }
{
    let before = Task::Placed(term, Place::Left(operator));
    if is_symbolic(operator.name) {
        push_all(todo, &[Task::Name(operator.name), before])
    } else {
        push_all(todo, &[Task::Name(operator.name), Task::Gap, before])
    }
}

/// Puts a name with its arguments before the other tasks.
fn push_compound<'t>(
    todo: &mut Vec<Task<'t>>,
    name: &'t str,
    arguments: &'t [Term],
) -> Result<(), AllocError>
    ensures pieces { OnOk result ((style : pieces.Style) (table : List ops.Operator) (seen : List ℕ) → pieces_of style table seen todo.new.items
        ≡ (arguments_written style table seen name.now (map term_of arguments.now)).bare ++ pieces_of style table seen todo.old.items) }
    ensures load { OnOk result (tasks_load todo.new.items < 8 + load (row_of arguments.now) + tasks_load todo.old.items) }
{
    match arguments {
        [] => push_all(todo, &[Task::Name(name)]),
        [first, others @ ..] => {
            let first = Task::Placed(first, Place::Whole(999));
            let others = Task::Others(others);
            push_all(
                todo,
                &[
                    Task::Mark(")"),
                    others,
                    first,
                    Task::Mark("("),
                    Task::Name(name),
                ],
            )
        }
    }
}

/// Puts what is written in a form before the other tasks.
pub(crate) fn push_form<'t>(
    todo: &mut Vec<Task<'t>>,
    form: Form<'t>,
    style: Style,
    ops: &OpTable,
) -> Result<(), AllocError>
    ensures pieces { OnOk result ((seen : List ℕ) → pieces_of (style_of style) ops.now seen todo.new.items
        ≡ (form_written (style_of style) ops.now seen form.entry).bare ++ pieces_of (style_of style) ops.now seen todo.old.items) }
    ensures load { OnOk result (tasks_load todo.new.items < form_load form.entry + tasks_load todo.old.items) }
{
    match form {
        Form::Variable(number) => push_all(todo, &[Task::Variable(number)]),
        Form::NumberedVariable(number) => push_all(todo, &[Task::NumberedVariable(number)]),
        Form::Integer(value) => push_all(todo, &[Task::Integer(value)]),
        Form::Atom(name) => push_all(todo, &[Task::Name(name)]),
        Form::List(first, rest) => {
            let first = Task::Placed(first, Place::Whole(999));
            push_all(todo, &[Task::Tail(rest), first, Task::Mark("[")])
        }
        Form::Braces(term) => {
            let term = Task::Placed(term, Place::Whole(1200));
            push_all(todo, &[Task::Mark("}"), term, Task::Mark("{")])
        }
        Form::Prefix(operator, term) => push_prefix(todo, operator, term, style, ops),
        Form::Infix(operator, left, right) => push_infix(todo, operator, left, right),
        Form::Postfix(operator, term) => push_postfix(todo, operator, term),
        Form::Compound(name, arguments) => push_compound(todo, name, arguments),
    }
}

/// Whether what is written is the empty list.
fn is_nil(form: Form<'_>) -> bool
    ensures { result ≡ is_nil form.entry }
{
    match form {
        Form::Atom(name) => name == "[]",
        _ => false,
    }
}

/// Puts what a list's tail adds before the other tasks.
pub(crate) fn push_tail<'t>(
    todo: &mut Vec<Task<'t>>,
    tail: &'t Term,
    style: Style,
    ops: &OpTable,
) -> Result<(), AllocError>
    ensures pieces { OnOk result ((seen : List ℕ) → pieces_of (style_of style) ops.now seen todo.new.items
        ≡ (written (style_of style) ops.now seen (term_of tail.now)).tail ++ pieces_of (style_of style) ops.now seen todo.old.items) }
    ensures load { OnOk result (tasks_load todo.new.items < 7 + load (term_of tail.now) + tasks_load todo.old.items) }
{
    let form = form_of(tail, style, ops);
    if let Form::List(first, rest) = form {
        let first = Task::Placed(first, Place::Whole(999));
        return push_all(todo, &[Task::Tail(rest), first, Task::Mark(",")]);
    }
    if is_nil(form) {
        return push_all(todo, &[Task::Mark("]")]);
    }
    let tail = Task::Placed(tail, Place::Whole(999));
    push_all(todo, &[Task::Mark("]"), tail, Task::Mark("|")])
}

/// Puts further arguments before the other tasks.
pub(crate) fn push_others<'t>(
    todo: &mut Vec<Task<'t>>,
    arguments: &'t [Term],
) -> Result<(), AllocError>
    ensures pieces { OnOk result ((style : pieces.Style) (table : List ops.Operator) (seen : List ℕ) → pieces_of style table seen todo.new.items
        ≡ (written style table seen (row_of arguments.now)).others ++ pieces_of style table seen todo.old.items) }
    ensures load { OnOk result (tasks_load todo.new.items < 1 + load (row_of arguments.now) + tasks_load todo.old.items) }
{
    if let [first, others @ ..] = arguments {
        let first = Task::Placed(first, Place::Whole(999));
        push_all(todo, &[Task::Others(others), first, Task::Mark(",")])?;
    }
    Ok(())
}
