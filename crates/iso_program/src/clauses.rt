//! Clauses as they are kept: checked, converted, with their variables numbered 0, 1, .. (7.4, 7.6).
ghost use Rattle.std.specs.Prelude.{◌≡◌, ◌<◌, IfOk, MatchOption, codes, Some, None, true};
ghost use Rattle.iso_model.specs.Terms.Trees.{Tree, arities_fit};
ghost use Rattle.iso_model.specs.Terms.TermOf.{term_of};
ghost use Rattle.iso_model.specs.Search.Databases.{key_of};
ghost use Rattle.iso_model.specs.Search.Errors.{key};
ghost use Rattle.iso_store_core.specs.Exact.{are_exact};
ghost use Rattle.iso_program.specs.Heads.{head_parts};
ghost use Rattle.iso_program.specs.Kept.{IsReady, Refuses, ChecksUser, Prepares};

use super::checked::Checked;
use iso_lib::errors;
use iso_model::{AddFault, Term, is_built_in};
use iso_prep::{Fault, Prepared};
use iso_store_core::{Part, Pattern};
use std::alloc::{AllocError, Global};

/// A clause ready to be tried: one that was checked, with its terms written out for the store.
#[derive(Drop)]
pub struct Clause<C> {
    /// What an engine runs.
    pub own: C,
    pub variables: usize,
    /// How many of the first parts of the whole are those of the head.
    pub head: usize,
    /// The term `Head :- Body`, as which the clause is shown.
    pub whole: Pattern,
}

impl<C> Clause<C> {
    /// The parts of the head.
    #[inline]
    pub fn head(&self) -> &[Part]
        ensures parts { result.now ≡ head_parts self.now }
        ensures exact { are_exact result.now 0 ≡ true }
    {
        let parts = self.whole.parts.as_slice();
        &parts[..self.head.min(parts.len())]
    }
}

/// The name and the number of arguments of a callable term.
pub fn indicator_of(term: &Term) -> Option<(&str, usize)>
    ensures { MatchOption result (key_of (term_of term.now) ≡ None)
        (λ p. key_of (term_of term.now) ≡ Some (key p.0.now p.1)) }
{
    match term {
        Term::Atom(name) => Some((name.as_str(), 0)),
        Term::Compound(name, arguments) => Some((name.as_str(), arguments.len())),
        Term::Var(_) | Term::Int(_) => None,
    }
}

/// Checks that the head names no built-in and no control construct. Else the procedure `by` of one argument raises
/// the error.
fn check_user(alloc: Global, name: &str, arity: usize, by: &str) -> Result<(), AddFault>
    requires { arity < 256 }
    ensures { ChecksUser (key by.now 1) (key name.now arity) result }
{
    if is_built_in(name, arity) {
        let ball = errors::static_procedure(alloc, name, arity, by)?;
        return Err(AddFault::Refused(ball));
    }
    Ok(())
}

/// The error for a clause that could not be prepared, by the reason for it. The procedure `by` of one argument raises
/// it.
fn refusal(alloc: Global, fault: Fault, by: &str) -> Result<AddFault, AllocError>
    ensures { IfOk result (Refuses (key by.now 1) fault) }
{
    match fault {
        Fault::Instantiation => Ok(AddFault::Refused(errors::instantiation(alloc, by, 1)?)),
        Fault::Callable(culprit) => Ok(AddFault::Refused(errors::not_callable(
            alloc, culprit, by, 1,
        )?)),
        Fault::TooManyVariables => Ok(AddFault::Refused(errors::too_many_variables(alloc, by)?)),
        Fault::NoMemory => Ok(AddFault::NoMemory),
    }
}

/// The prepared clause as it is kept. Refused where its head is that of a built-in or of a control construct.
fn kept(alloc: Global, prepared: Prepared, by: &str) -> Result<Checked, AddFault>
    requires { (t : Tree) × IsReady prepared t }
    ensures { (t : Tree) → IsReady prepared t → Prepares (key by.now 1) t result }
{
    let checked = Checked { prepared };
    let Some((name, arity)) = indicator_of(checked.head()) else {
        unreachable!();
    };
    check_user(alloc, name, arity, by)?;
    Ok(checked)
}

/// The clause, checked and converted for the procedure `by` of one argument, which raises the errors (8.9.1, 8.9.2).
/// It is refused in these cases, checked in this order:
/// - the head is a variable: `instantiation_error`;
/// - the head is a number: `type_error(callable, Head)`;
/// - the body can't be converted: `type_error(callable, Body)`;
/// - it has more than 65,535 distinct variables: `representation_error(max_variables)`;
/// - the head is that of a built-in: `permission_error(modify, static_procedure, PI)`.
pub fn checked_clause(alloc: Global, clause: &Term, by: &str) -> Result<Checked, AddFault>
    requires { arities_fit (term_of clause.now) ≡ true }
    ensures { Prepares (key by.now 1) (term_of clause.now) result }
{
    match iso_prep::prepare(alloc, clause) {
        Ok(prepared) => kept(alloc, prepared, by),
        Err(fault) => Err(refusal(alloc, fault, by)?),
    }
}
