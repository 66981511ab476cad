//! What the terms of a text are, and the goals of queries.
ghost use Rattle.std.specs.Prelude.{◌≡◌, true};
ghost use Rattle.iso_model.specs.Terms.Copies.{IsNumbered};
ghost use Rattle.iso_model.specs.Search.Errors.{key};
ghost use Rattle.iso_model.specs.Session.Directives as directives;
ghost use Rattle.iso_model.specs.Session.Sessions as sessions;
ghost use Rattle.iso_model.specs.Terms.TermOf.{term_of};
ghost use Rattle.iso_model.specs.Terms.Trees.{arities_fit};
ghost use Rattle.iso_session_core.specs.Directed.{text_term_of, GoalFits};

use iso_model::Term;

/// What a term of a text is (7.4.2, 7.4.3).
#[derive(Clone, Copy, Debug)]
pub enum TextTerm<'t> {
    /// A clause.
    Clause,
    /// A directive, with its goal.
    Directive(&'t Term),
    /// A directive that keeps this goal until behind the text.
    Initialization(&'t Term),
    /// A grammar rule, or a directive that is passed over.
    PassedOver,
}

/// Whether directives with a goal of this name and arity are passed over.
fn passes_over(name: &str, arity: usize) -> bool
    ensures { result ≡ directives.passes_over (key name.now arity) }
{
    match arity {
        1 => name == "use_module" || name == "include" || name == "ensure_loaded",
        2 => name == "module" || name == "use_module" || name == "char_conversion",
        _ => false,
    }
}

/// A directive with this goal.
fn directive(goal: &Term) -> TextTerm<'_>
    ensures is { text_term_of result ≡ directives.directive_term (term_of goal.now) }
    ensures fits { arities_fit (term_of goal.now) ≡ true → IsNumbered (term_of goal.now) → GoalFits result }
{
    match goal {
        Term::Compound(name, arguments) => {
            if passes_over(name.as_str(), arguments.len()) {
                return TextTerm::PassedOver;
            }
            match arguments.as_slice() {
                [kept] => {
                    if name.as_str() == "initialization" {
                        TextTerm::Initialization(kept)
                    } else {
                        TextTerm::Directive(goal)
                    }
                }
                [] => TextTerm::Directive(goal),
                [_, _, ..] => TextTerm::Directive(goal),
            }
        }
        _ => TextTerm::Directive(goal),
    }
}

/// What a term of a text is.
pub fn text_term(term: &Term) -> TextTerm<'_>
    ensures is { text_term_of result ≡ directives.text_term (term_of term.now) }
    ensures fits { arities_fit (term_of term.now) ≡ true → IsNumbered (term_of term.now) → GoalFits result }
{
    match term {
        Term::Compound(name, arguments) => match arguments.as_slice() {
            [goal] => {
                if name.as_str() == ":-" || name.as_str() == "?-" {
                    directive(goal)
                } else {
                    TextTerm::Clause
                }
            }
            [_, _] => {
                if name.as_str() == "-->" {
                    TextTerm::PassedOver
                } else {
                    TextTerm::Clause
                }
            }
            [] => TextTerm::Clause,
            [_, _, _, ..] => TextTerm::Clause,
        },
        _ => TextTerm::Clause,
    }
}

/// The goal of a query: `?- G` as a query is G.
pub fn goal_of(query: &Term) -> &Term
    ensures value { term_of result.now ≡ sessions.query_goal (term_of query.now) }
    ensures fits { arities_fit (term_of query.now) ≡ true → arities_fit (term_of result.now) ≡ true }
    ensures numbered { IsNumbered (term_of query.now) → IsNumbered (term_of result.now) }
{
    match query {
        Term::Compound(name, arguments) if name.as_str() == "?-" => match arguments.as_slice() {
            [goal] => goal,
            _ => query,
        },
        _ => query,
    }
}
