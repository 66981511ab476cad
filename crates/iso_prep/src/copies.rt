//! Copies of bodies with their variables numbered, and with `call(X)` for a variable `X` that is a goal (7.6.2).
ghost use Rattle.std.specs.Prelude.{◌≡◌, ◌+◌, ◌*◌, ◌<◌, ◌∷◌, [], ◌++◌, codes, map, IfOk, OnOk, None};
ghost use Rattle.iso_prep.specs.Connectives.{control_of};
ghost use Rattle.iso_model.specs.Terms.TermOf.{term_of};
ghost use Rattle.iso_model.specs.Terms.Sizes.{size};
ghost use Rattle.iso_model.specs.Terms.Substitutions.{apply};
ghost use Rattle.iso_model.specs.Terms.Building.{with_step, with_steps, step_load, steps_load};
ghost use Rattle.iso_model.specs.Search.Bodies.{one};
ghost use Rattle.iso_prep.specs.Conversions.{numbers, with_calls, step_of};

use super::connectives::control;
use iso_model::terms::build_last;
use iso_model::{Numbering, Term, renumbered};
use std::alloc::{AllocError, Global};

/// What is left to do of a copy.
#[derive(Clone, Copy)]
pub enum Task<'t> {
    /// This body is to be copied.
    Body(&'t Term),
    /// A compound of this name is to be built of the last copies, so many.
    Build(&'t str, usize),
}

/// The goal `call(X)` that a variable stands for in a body.
fn call_of(alloc: Global, variable: Term) -> Result<Term, AllocError>
    ensures { IfOk result (λ t. term_of t ≡ one (codes "call") (term_of variable)) }
{
    let mut arguments = Vec::with_capacity(alloc, 1)?;
    arguments.push(variable)?;
    Ok(Term::Compound(String::from_str(alloc, "call")?, arguments))
}

/// A copy of a goal, which is no control construct.
fn copy_goal(alloc: Global, variables: &Numbering, goal: &Term) -> Result<Term, AllocError>
    requires { control_of (term_of goal.now) ≡ None }
    ensures { IfOk result (λ copy. term_of copy ≡ with_calls (apply (numbers variables.now) (term_of goal.now))) }
{
    match goal {
        Term::Var(number) => call_of(alloc, Term::Var(variables.place_or_len(*number) as u64)),
        Term::Int(value) => Ok(Term::Int(*value)),
        Term::Atom(name) => Ok(Term::Atom(name.clone()?)),
        Term::Compound(_, _) => renumbered(alloc, goal, variables),
    }
}

/// Copies a goal, and leaves a control construct to be copied by its parts.
fn copy_body<'t>(
    alloc: Global,
    variables: &Numbering,
    body: &'t Term,
    tasks: &mut Vec<Task<'t>>,
    copies: &mut Vec<Term>,
) -> Result<(), AllocError>
    ensures steps { OnOk result (with_steps (map (step_of variables.now) tasks.new.items) (map term_of copies.new.items)
        ≡ with_steps (map (step_of variables.now) tasks.old.items) (map term_of copies.old.items ++ with_calls (apply (numbers variables.now) (term_of body.now)) ∷ [])) }
    ensures load { OnOk result (steps_load (map (step_of variables.now) tasks.new.items)
        < 2 * size (with_calls (apply (numbers variables.now) (term_of body.now))) + steps_load (map (step_of variables.now) tasks.old.items)) }
{
    match control(body) {
        Some((connective, first, second)) => {
            tasks.push(Task::Build(connective.text(), 2))?;
            tasks.push(Task::Body(second))?;
            tasks.push(Task::Body(first))?;
        }
        None => copies.push(copy_goal(alloc, variables, body)?)?,
    }
    Ok(())
}

/// Does what a task says.
fn do_task<'t>(
    alloc: Global,
    variables: &Numbering,
    task: Task<'t>,
    tasks: &mut Vec<Task<'t>>,
    copies: &mut Vec<Term>,
) -> Result<(), AllocError>
    ensures steps { OnOk result (with_steps (map (step_of variables.now) tasks.new.items) (map term_of copies.new.items)
        ≡ with_steps (map (step_of variables.now) tasks.old.items) (with_step (step_of variables.now task.entry) (map term_of copies.old.items))) }
    ensures load { OnOk result (steps_load (map (step_of variables.now) tasks.new.items)
        < step_load (step_of variables.now task.entry) + steps_load (map (step_of variables.now) tasks.old.items)) }
{
    match task {
        Task::Body(body) => copy_body(alloc, variables, body, tasks, copies),
        Task::Build(name, count) => build_last(alloc, name, count, copies),
    }
}

/// Does all that is left to do.
fn do_all(
    alloc: Global,
    variables: &Numbering,
    tasks: Vec<Task<'_>>,
    copies: &mut Vec<Term>,
) -> Result<(), AllocError>
    ensures { OnOk result (map term_of copies.new.items ≡ with_steps (map (step_of variables.now) tasks.entry.items) (map term_of copies.old.items)) }
{
    let mut tasks = tasks;
    while let Some(task) = tasks.pop() {
        do_task(alloc, variables, task, &mut tasks, copies)?;
    }
    Ok(())
}

/// The body with each variable by its place among the variables, and with `call(X)` for each variable `X` that is a
/// goal. The error is that memory was refused.
pub fn numbered_body(alloc: Global, variables: &Numbering, body: &Term) -> Result<Term, AllocError>
    ensures { IfOk result (λ copy. term_of copy ≡ with_calls (apply (numbers variables.now) (term_of body.now))) }
{
    let mut tasks = Vec::new(alloc);
    let mut copies = Vec::new(alloc);
    copy_body(alloc, variables, body, &mut tasks, &mut copies)?;
    do_all(alloc, variables, tasks, &mut copies)?;
    let Some(copy) = copies.pop() else {
        unreachable!()
    };
    Ok(copy)
}
