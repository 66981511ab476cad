//! Terms (ISO/IEC 13211-1:1995, 6.1.2 and 7.1) as Rust data.
ghost use Rattle.std.specs.Prelude.{◌≡◌, ◌&&◌, ◌+◌, ◌-◌, ◌*◌, ◌<◌, ◌∷◌, [], ◌++◌, nat_le, map, take, slice_get, vec_len, Some, IfOk, OnOk, MatchOption};
ghost use Rattle.iso_model.specs.Terms.Trees.{Variable, arities_fit, row};
ghost use Rattle.iso_model.specs.Terms.TermOf.{term_of, row_of};
ghost use Rattle.iso_model.specs.Terms.Sizes.{size, light_size};
ghost use Rattle.iso_model.specs.Terms.Building.{Gather, with_step, with_steps, step_load, steps_load};
ghost use Rattle.iso_model.specs.Terms.Copying.{named_by, step_of, steps_of};
ghost use Rattle.iso_model.specs.Terms.Copies.{place_of};
ghost use Rattle.iso_model.specs.Terms.Substitutions.{apply};

use super::numbering::Numbering;
use std::alloc::{AllocError, Global};
use std::mem;

/// A term: a variable by its number, a 128-bit integer, an atom, or a compound with 1 to 255 arguments.
#[derive(Debug)]
pub enum Term {
    /// A variable; the number names it.
    Var(u64),
    /// An integer of this profile's 128 bits.
    Int(i128),
    /// An atom by its text.
    Atom(String),
    /// A name with its arguments, of which there are 1 to 255.
    Compound(String, Vec<Term>),
}

impl Term {
    /// The name and the arguments of a compound; nothing of another term.
    fn parts(self) -> Option<(String, Vec<Term>)>
        ensures { MatchOption result ((0 < size (term_of self)) × (light_size (term_of self) ≡ size (term_of self))) (λ p. self ≡ Term.Compound p.0 p.1) }
    {
        match self {
            Term::Var(_) | Term::Int(_) | Term::Atom(_) => None,
            Term::Compound(name, arguments) => Some((name, arguments)),
        }
    }

    /// Lets go a term that only kept a place.
    fn clear(self)
        requires { self ≡ Term.Var 0 }
    {
        match self {
            Term::Var(_) | Term::Int(_) | Term::Atom(_) => {}
            Term::Compound(_, arguments) => arguments.destroy_empty(),
        }
    }
}

/// A term of any depth is let go without recursion, and takes no memory for it.
impl Drop for Term {
    fn drop(self) {
        match self {
            Term::Var(_) | Term::Int(_) | Term::Atom(_) => {}
            Term::Compound(_, arguments) => let_go(arguments),
        }
    }
}

/// Lets all of the terms go, the last one first.
fn let_go(terms: Vec<Term>) {
    let mut rest = terms;
    while !rest.is_empty() {
        match last_of(&mut rest).parts() {
            None => remove_last(&mut rest),
            Some((name, arguments)) => rest = hung(name, arguments, rest),
        }
    }
    rest.destroy_empty();
}

/// The last term, in whose place a variable stands now.
fn last_of(terms: &mut Vec<Term>) -> Term
    requires { 0 < vec_len terms.old }
    ensures whole { take (vec_len terms.new - 1) terms.new.items ++ result ∷ [] ≡ terms.old.items }
    ensures place { slice_get terms.new.items (vec_len terms.new - 1) ≡ Some (Term.Var 0) }
{
    let last = terms.len() - 1;
    mem::replace(&mut terms[last], Term::Var(0))
}

/// Takes away the last term, which only keeps a place.
fn remove_last(terms: &mut Vec<Term>)
    requires { slice_get terms.old.items (vec_len terms.old - 1) ≡ Some (Term.Var 0) }
    ensures { terms.new.items ≡ take (vec_len terms.old - 1) terms.old.items }
{
    if let Some(place) = terms.pop() {
        place.clear();
    }
}

/// The terms that are left of these others, the last of which was a compound of this name and these arguments: the
/// arguments, where the others hang as a compound in the first place, and the argument from there stands last among
/// them.
fn hung(name: String, arguments: Vec<Term>, others: Vec<Term>) -> Vec<Term>
    requires { slice_get others.items (vec_len others - 1) ≡ Some (Term.Var 0) }
    ensures { light_size (row_of result.items) < light_size (row_of (take (vec_len others - 1) others.items ++ Term.Compound name arguments ∷ [])) }
{
    let mut arguments = arguments;
    let mut others = others;
    if arguments.is_empty() {
        arguments.destroy_empty();
        remove_last(&mut others);
        return others;
    }
    let last = others.len() - 1;
    if last == 0 {
        remove_last(&mut others);
        others.destroy_empty();
        return arguments;
    }
    let first = mem::replace(&mut arguments[0], Term::Var(0));
    mem::replace(&mut others[last], first).clear();
    mem::replace(&mut arguments[0], Term::Compound(name, others)).clear();
    arguments
}

/// The greatest number of arguments that a compound may have (the flag `max_arity`, 7.11.2.3).
pub const MAX_ARITY: usize = 255;

/// Whether a compound may have so many arguments.
fn is_arity(count: usize) -> bool
    ensures { result ≡ nat_le 1 count && nat_le count 255 }
{
    1 <= count && count <= MAX_ARITY
}

/// Whether every compound in the term has 1 to 255 arguments (own limit; 6.1.2, 7.1.5).
pub fn well_formed(term: &Term) -> bool
    ensures { result ≡ arities_fit (term_of term.now) }
{
    match term {
        Term::Var(_) | Term::Int(_) | Term::Atom(_) => true,
        Term::Compound(_, arguments) => {
            let arguments = arguments.as_slice();
            if !is_arity(arguments.len()) {
                return false;
            }
            for argument in arguments {
                if !well_formed(argument) {
                    return false;
                }
            }
            true
        }
    }
}

/// How the variables of a copy are named.
#[derive(Clone, Copy)]
enum Naming<'n> {
    /// As they are.
    Same,
    /// Each by its place among these; one that isn't there by how many there are.
    Places(&'n Numbering),
    /// So, behind this number.
    From(&'n Numbering, u32),
}

/// The number of this variable in a copy.
fn name_of(naming: Naming<'_>, number: u64) -> u64
    ensures { Variable result ≡ named_by naming.entry number }
{
    match naming {
        Naming::Same => number,
        Naming::Places(variables) => variables.place_or_len(number) as u64,
        Naming::From(variables, first) => first as u64 + variables.place_or_len(number) as u64,
    }
}

/// What is left to do of a copy.
#[derive(Clone, Copy)]
enum Task<'t> {
    /// These terms are to be copied, the first one next.
    Copy(&'t [Term]),
    /// A compound of this name is to be built of the last copies, so many.
    Build(&'t str, usize),
}

/// Copies a term that has no arguments, and leaves a compound to be copied by its arguments.
fn copy_next<'t>(
    naming: Naming<'_>,
    term: &'t Term,
    tasks: &mut Vec<Task<'t>>,
    copies: &mut Vec<Term>,
) -> Result<(), AllocError>
    ensures steps { OnOk result (with_steps (steps_of (named_by naming.entry) tasks.new.items) (map term_of copies.new.items)
        ≡ with_steps (steps_of (named_by naming.entry) tasks.old.items) (map term_of copies.old.items ++ apply (named_by naming.entry) (term_of term.now) ∷ [])) }
    ensures load { OnOk result (steps_load (steps_of (named_by naming.entry) tasks.new.items) < 2 * size (apply (named_by naming.entry) (term_of term.now)) + steps_load (steps_of (named_by naming.entry) tasks.old.items)) }
{
    match term {
        Term::Var(number) => {
            copies.push(Term::Var(name_of(naming, *number)))?;
            Ok(())
        }
        Term::Int(value) => {
            copies.push(Term::Int(*value))?;
            Ok(())
        }
        Term::Atom(text) => {
            copies.push(Term::Atom(text.clone()?))?;
            Ok(())
        }
        Term::Compound(name, arguments) => {
            tasks.push(Task::Build(name.as_str(), arguments.len()))?;
            tasks.push(Task::Copy(arguments.as_slice()))?;
            Ok(())
        }
    }
}

/// Copies the first of the terms, and leaves the others.
fn copy_row<'t>(
    naming: Naming<'_>,
    terms: &'t [Term],
    tasks: &mut Vec<Task<'t>>,
    copies: &mut Vec<Term>,
) -> Result<(), AllocError>
    ensures steps { OnOk result (with_steps (steps_of (named_by naming.entry) tasks.new.items) (map term_of copies.new.items)
        ≡ with_steps (steps_of (named_by naming.entry) tasks.old.items) (map term_of copies.old.items ++ map (apply (named_by naming.entry)) (map term_of terms.now))) }
    ensures load { OnOk result (steps_load (steps_of (named_by naming.entry) tasks.new.items) < 1 + 2 * size (row (map (apply (named_by naming.entry)) (map term_of terms.now))) + steps_load (steps_of (named_by naming.entry) tasks.old.items)) }
{
    match terms {
        [] => Ok(()),
        [only] => copy_next(naming, only, tasks, copies),
        [first, others @ ..] => {
            tasks.push(Task::Copy(others))?;
            copy_next(naming, first, tasks, copies)
        }
    }
}

/// Builds a compound of the last copies, so many. The error is that memory was refused.
pub fn build_last(
    alloc: Global,
    name: &str,
    count: usize,
    copies: &mut Vec<Term>,
) -> Result<(), AllocError>
    ensures { OnOk result (map term_of copies.new.items ≡ with_step (Gather name.now count) (map term_of copies.old.items)) }
{
    let arguments = copies.split_off(copies.len().saturating_sub(count))?;
    let name = String::from_str(alloc, name)?;
    copies.push(Term::Compound(name, arguments))?;
    Ok(())
}

/// Does what a task says.
fn do_task<'t>(
    alloc: Global,
    naming: Naming<'_>,
    task: Task<'t>,
    tasks: &mut Vec<Task<'t>>,
    copies: &mut Vec<Term>,
) -> Result<(), AllocError>
    ensures steps { OnOk result (with_steps (steps_of (named_by naming.entry) tasks.new.items) (map term_of copies.new.items)
        ≡ with_steps (steps_of (named_by naming.entry) tasks.old.items) (with_step (step_of (named_by naming.entry) task.entry) (map term_of copies.old.items))) }
    ensures load { OnOk result (steps_load (steps_of (named_by naming.entry) tasks.new.items) < step_load (step_of (named_by naming.entry) task.entry) + steps_load (steps_of (named_by naming.entry) tasks.old.items)) }
{
    match task {
        Task::Copy(terms) => copy_row(naming, terms, tasks, copies),
        Task::Build(name, count) => build_last(alloc, name, count, copies),
    }
}

/// The term with its variables named so. The error is that memory was refused.
fn copied_by(alloc: Global, naming: Naming<'_>, term: &Term) -> Result<Term, AllocError>
    ensures { IfOk result (λ copy. term_of copy ≡ apply (named_by naming.entry) (term_of term.now)) }
{
    let mut tasks = Vec::new(alloc);
    let mut copies = Vec::new(alloc);
    copy_next(naming, term, &mut tasks, &mut copies)?;
    while let Some(task) = tasks.pop() {
        do_task(alloc, naming, task, &mut tasks, &mut copies)?;
    }
    let Some(copy) = copies.pop() else {
        unreachable!()
    };
    Ok(copy)
}

/// The same term once more. The error is that memory was refused.
pub fn copied(alloc: Global, term: &Term) -> Result<Term, AllocError>
    ensures { IfOk result (λ copy. term_of copy ≡ term_of term.now) }
{
    copied_by(alloc, Naming::Same, term)
}

/// The term with each variable's number replaced by its place among the variables; by how many there are where it isn't
/// there. The error is that memory was refused.
pub fn renumbered(alloc: Global, term: &Term, variables: &Numbering) -> Result<Term, AllocError>
    ensures { IfOk result (λ copy. term_of copy ≡ apply (λ x. Variable (place_of x variables.now)) (term_of term.now)) }
{
    copied_by(alloc, Naming::Places(variables), term)
}

/// The same with this number added to each: for the term's own variables a copy of it, whose variables are numbered
/// from there on. The error is that memory was refused.
pub fn renumbered_from(
    alloc: Global,
    term: &Term,
    variables: &Numbering,
    first: u32,
) -> Result<Term, AllocError>
    ensures { IfOk result (λ copy. term_of copy ≡ apply (λ x. Variable (first + place_of x variables.now)) (term_of term.now)) }
{
    copied_by(alloc, Naming::From(variables, first), term)
}
