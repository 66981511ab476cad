//! Clauses and goals made ready (7.4, 7.6).
ghost use Rattle.std.specs.Prelude.{◌≡◌, ◌<◌, ◌^◌, true, length, Some, None, option_map, IfOk, MatchOption};
ghost use Rattle.iso_model.specs.Terms.Trees.{arities_fit};
ghost use Rattle.iso_model.specs.Terms.TermOf.{term_of};
ghost use Rattle.iso_model.specs.Terms.Substitutions.{apply};
ghost use Rattle.iso_model.specs.Terms.Variables.{variables};
ghost use Rattle.iso_model.specs.Terms.Copies.{copy_from};
ghost use Rattle.iso_model.specs.Search.Bodies.{converted, body_term};
ghost use Rattle.iso_model.specs.Search.Additions as additions;
ghost use Rattle.iso_prep.specs.Conversions.{is_callable, with_calls, numbers};
ghost use Rattle.iso_prep.specs.Assembling.{given, assembly, ChecksHead, ChecksBody};
ghost use Rattle.iso_prep.specs.Preparations.{PreparesClause, PreparesGoal};
ghost use Rattle.iso_prep.specs.PreparationLaws.{HasTerms};
ghost use Rattle.iso_prep.specs.Classes.{goals_of};
ghost use Rattle.iso_prep.specs.Trees.{EndsWith, IsBorrowed, borrowed, goals_in};

use super::bodies::Node;
use super::callable::can_be_called;
use super::classes::Uses;
use super::constructs::parts_of;
use super::copies::numbered_body;
use super::fault::Fault;
use super::uses::uses_of;
use iso_model::{Numbering, Term, copied, renumbered};
use std::alloc::{AllocError, Global};
use std::marker::Model;

/// The most distinct variables that a clause may have (own limit).
const MOST_VARIABLES: usize = 65_535;

/// No memory holds a goal of more distinct variables than this: each takes 16 bytes or more.
const MOST_IN_MEMORY: usize = 1 << 59;

/// A clause or a goal that is ready to be run: its variables are numbered 0, 1, .. by first occurrence, and its body
/// is converted.
#[derive(Drop)]
pub struct Prepared {
    head: Option<Term>,
    body: Term,
    variables: usize,
}

impl Model for Prepared {
    ghost use Rattle.iso_model.specs.Terms.TermOf.{term_of};
    ghost use Rattle.std.specs.Prelude.{option_map};
    ghost use Rattle.iso_prep.specs.Preparations.{Preparation};
    ghost use Rattle.iso_prep.specs.Assembling.{preparation_of, IsMade};
    ghost use Rattle.iso_prep.specs.Codes.{coded_preparation};

    ghost Value = { Preparation };

    ghost coded = { coded_preparation };

    ghost view = { λ p. preparation_of (option_map term_of p.head) (term_of p.body) p.variables };

    ghost invariant = { λ p. IsMade (term_of p.body) p.variables };
}

impl Prepared {
    /// The head, where this is a clause.
    pub fn head(&self) -> Option<&Term>
        ensures { option_map (λ head. term_of head.now) result ≡ self.now.head }
    {
        self.head.as_ref()
    }

    /// The converted body as a term.
    pub fn body(&self) -> &Term
        ensures { term_of result.now ≡ body_term self.now.body }
    {
        &self.body
    }

    /// How many variables there are.
    pub fn variables(&self) -> usize
        ensures count { result ≡ self.now.variables }
        ensures few { result < 2 ^ 60 }
    {
        self.variables
    }

    /// Its head, its converted body as a term, and how many variables there are.
    pub fn into_parts(self) -> (Option<Term>, Term, usize)
        ensures head { option_map term_of result.0 ≡ self.head }
        ensures body { term_of result.1 ≡ body_term self.body }
        ensures count { result.2 ≡ self.variables }
        ensures few { result.2 < 2 ^ 60 }
    {
        (self.head, self.body, self.variables)
    }

    /// The class and the last use of each variable, found in one pass through the head and the goals of the body. The
    /// error is that memory was refused.
    pub fn uses(&self, alloc: Global) -> Result<Uses<'_>, AllocError>
        ensures { IfOk result (λ uses. uses ≡ self.now) }
    {
        let uses = uses_of(alloc, self.variables, self.head.as_ref(), &self.body)?;
        Ok(Uses {
            prepared: self,
            uses,
        })
    }

    /// The body as a list of its parts, each part before what it is a part of, and the whole last; their goals are
    /// the body's. The error is that memory was refused.
    pub fn constructs(&self, alloc: Global) -> Result<Vec<Node<&Term>>, AllocError>
        ensures ends { IfOk result (λ parts. EndsWith IsBorrowed parts.items self.now.body) }
        ensures goals { IfOk result (λ parts. goals_in borrowed parts.items ≡ goals_of self.now.body) }
    {
        parts_of(alloc, &self.body)
    }
}

/// The head of a clause and, where it has one, its body (7.4.2).
fn parts(clause: &Term) -> (&Term, Option<&Term>)
    ensures head { term_of result.0.now ≡ additions.head_of (term_of clause.now) }
    ensures body { given result.1 ≡ additions.body_of (term_of clause.now) }
{
    match clause {
        Term::Compound(name, arguments) => match arguments.as_slice() {
            [head, body] if name.as_str() == ":-" => (head, Some(body)),
            _ => (clause, None),
        },
        Term::Var(_) | Term::Int(_) | Term::Atom(_) => (clause, None),
    }
}

/// Checks that the head is an atom or a compound.
fn check_head(head: &Term) -> Result<(), Fault>
    ensures { ChecksHead (term_of head.now) result }
{
    match head {
        Term::Var(_) => Err(Fault::Instantiation),
        Term::Int(value) => Err(Fault::Callable(Term::Int(*value))),
        Term::Atom(_) | Term::Compound(_, _) => Ok(()),
    }
}

/// Checks that the body can be converted, as that of a fact can.
fn check_body(alloc: Global, body: Option<&Term>) -> Result<(), Fault>
    ensures { ChecksBody (given body.entry) result }
{
    let Some(body) = body else {
        return Ok(());
    };
    if can_be_called(alloc, body)? {
        return Ok(());
    }
    Err(Fault::Callable(copied(alloc, body)?))
}

/// The converted body with its variables numbered; a fact's is `true`.
fn body_of(alloc: Global, variables: &Numbering, body: Option<&Term>) -> Result<Term, AllocError>
    ensures { IfOk result (λ copy. term_of copy ≡ with_calls (apply (numbers variables.now) (given body.entry))) }
{
    match body {
        Some(body) => numbered_body(alloc, variables, body),
        None => Ok(Term::Atom(String::from_str(alloc, "true")?)),
    }
}

/// The variables of the term by first occurrence.
fn variables_of(alloc: Global, term: &Term) -> Result<Numbering, AllocError>
    ensures { IfOk result (λ numbering. numbering ≡ variables (term_of term.now)) }
{
    let mut numbering = Numbering::new(alloc);
    numbering.note_all(alloc, term)?;
    Ok(numbering)
}

/// The head with its variables numbered, where there is one.
fn numbered_head(
    alloc: Global,
    variables: &Numbering,
    head: Option<&Term>,
) -> Result<Option<Term>, AllocError>
    ensures { IfOk result (λ copy. option_map term_of copy ≡ option_map (apply (numbers variables.now)) (option_map (λ h. term_of h.now) head.entry)) }
{
    match head {
        Some(head) => Ok(Some(renumbered(alloc, head, variables)?)),
        None => Ok(None),
    }
}

/// The head and the body with their variables numbered and the body converted.
fn assembled(
    alloc: Global,
    variables: &Numbering,
    head: Option<&Term>,
    body: Option<&Term>,
) -> Result<Prepared, AllocError>
    requires callable { is_callable (given body) ≡ true }
    requires few { length variables.now < 2 ^ 60 }
    ensures { IfOk result (λ p. p ≡ assembly variables.now (option_map (λ h. term_of h.now) head.entry) (given body.entry)) }
{
    let head = numbered_head(alloc, variables, head)?;
    let body = body_of(alloc, variables, body)?;
    Ok(Prepared {
        head,
        body,
        variables: variables.len(),
    })
}

/// The clause ready to be run. The errors, in this order: its head is a variable or a number, its body can't be
/// converted (all of the body is the culprit), or it has more than 65,535 distinct variables; and any time that
/// memory was refused. Of a clause that is well formed, the head and the body are well formed.
pub fn prepare(alloc: Global, clause: &Term) -> Result<Prepared, Fault>
    ensures prepares { PreparesClause (λ p. p) (term_of clause.now) (additions.prepared (term_of clause.now)) result }
    ensures terms { arities_fit (term_of clause.now) ≡ true → IfOk result HasTerms }
{
    let (head, body) = parts(clause);
    check_head(head)?;
    check_body(alloc, body)?;
    let variables = variables_of(alloc, clause)?;
    if variables.len() > MOST_VARIABLES {
        return Err(Fault::TooManyVariables);
    }
    Ok(assembled(alloc, &variables, Some(head), body)?)
}

/// The goal ready to be run. The errors: it can't be converted (all of it is the culprit), or memory was refused. Of a
/// goal that is well formed, the body is well formed.
pub fn prepare_goal(alloc: Global, goal: &Term) -> Result<Prepared, Fault>
    ensures prepares { PreparesGoal (λ p. p) (term_of goal.now) (converted (copy_from (term_of goal.now) 0)) result }
    ensures terms { arities_fit (term_of goal.now) ≡ true → IfOk result HasTerms }
{
    check_body(alloc, Some(goal))?;
    let variables = variables_of(alloc, goal)?;
    if variables.len() > MOST_IN_MEMORY {
        return Err(Fault::NoMemory);
    }
    Ok(assembled(alloc, &variables, None, Some(goal))?)
}
