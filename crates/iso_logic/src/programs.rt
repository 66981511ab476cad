//! Programs, and which of them are definite.
ghost use Rattle.std.specs.Prelude.{◌≡◌, map, not};
ghost use Rattle.iso_logic.specs.DefinitePrograms as definite;
ghost use Rattle.iso_model.specs.Search.Keys.{key, key_of};
ghost use Rattle.iso_model.specs.Search.Table as table;
ghost use Rattle.iso_model.specs.Terms.TermOf.{term_of};

use iso_model::{Term, is_built_in};

/// A list of clauses.
#[derive(Debug, Drop)]
pub struct Program {
    /// The clauses, in order.
    pub clauses: Vec<Term>,
}

/// Whether the term is an atom or a compound, and its name and arity are those of no built-in and no control construct.
fn is_user_goal(term: &Term) -> bool
    ensures { result ≡ definite.is_user (key_of (term_of term.now)) }
{
    match term {
        Term::Var(_) | Term::Int(_) => false,
        Term::Atom(name) => !is_built_in(name.as_str(), 0),
        Term::Compound(name, arguments) => !is_built_in(name.as_str(), arguments.len()),
    }
}

/// Whether the term is a conjunction of goals of user procedures.
fn are_goals(term: &Term) -> bool
    ensures { result ≡ definite.are_goals (term_of term.now) }
{
    match term {
        Term::Var(_) | Term::Int(_) | Term::Atom(_) => is_user_goal(term),
        Term::Compound(name, arguments) => match arguments.as_slice() {
            [first, second] => {
                if name.as_str() == "," {
                    are_goals(first) && are_goals(second)
                } else {
                    is_user_goal(term)
                }
            }
            [] => is_user_goal(term),
            [_] => is_user_goal(term),
            [_, _, _, ..] => is_user_goal(term),
        },
    }
}

/// Whether the body is `true`, or a conjunction of goals of user procedures.
fn is_definite_body(body: &Term) -> bool
    ensures { result ≡ definite.is_definite_body (term_of body.now) }
{
    match body {
        Term::Atom(name) => name.as_str() == "true" || is_user_goal(body),
        Term::Var(_) | Term::Int(_) | Term::Compound(_, _) => are_goals(body),
    }
}

/// Whether the clause is definite: its head is that of a user procedure, and its body is `true` or a conjunction of
/// goals of user procedures.
fn is_definite_clause(clause: &Term) -> bool
    ensures { result ≡ definite.is_definite_clause (term_of clause.now) }
{
    match clause {
        Term::Var(_) | Term::Int(_) | Term::Atom(_) => is_user_goal(clause),
        Term::Compound(name, arguments) => match arguments.as_slice() {
            [head, body] => {
                if name.as_str() == ":-" {
                    is_user_goal(head) && is_definite_body(body)
                } else {
                    is_user_goal(clause)
                }
            }
            [] => is_user_goal(clause),
            [_] => is_user_goal(clause),
            [_, _, _, ..] => is_user_goal(clause),
        },
    }
}

/// Whether the program is definite. Each head must be an atom or a compound, and that of no built-in and no control
/// construct. Each body must be `true`, or a conjunction of goals, none of which is a variable, an integer, a built-in
/// or a control construct.
pub fn is_definite(program: &Program) -> bool
    ensures { result ≡ definite.are_definite (map term_of program.now.clauses.items) }
{
    for clause in &program.clauses {
        if !is_definite_clause(clause) {
            return false;
        }
    }
    true
}
