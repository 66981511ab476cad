//! The procedures that the terms of a text define, declare and call.
ghost use Rattle.std.specs.Prelude.{◌≡◌, ◌+◌, ◌*◌, ◌<◌, ◌++◌, ◌∷◌, [], reverse, sum_by, option_map, IfOk, OnOk};
ghost use Rattle.std.specs.List.{flat_map};
ghost use Rattle.iso_model.specs.Search.Additions as additions;
ghost use Rattle.iso_model.specs.Search.Keys as model;
ghost use Rattle.iso_model.specs.Terms.Sizes.{size};
ghost use Rattle.iso_model.specs.Terms.TermOf.{term_of};
ghost use Rattle.iso_lint_core.specs.Calls as spec;
ghost use Rattle.iso_lint_core.specs.Indicators.{IsIndicatorStep};
ghost use Rattle.iso_lint_core.specs.KeyViews.{key_view, keys_view};

use crate::keys::{Key, key_of};
use crate::shapes::{Shape, shape_of};
use iso_model::Term;
use iso_session_core::{TextTerm, text_term};
use std::alloc::{AllocError, Global};

/// The head of a clause.
fn head_of(clause: &Term) -> &Term
    ensures { term_of result.now ≡ additions.head_of (term_of clause.now) }
{
    match shape_of(clause) {
        Shape::Two(name, head, _) if name == ":-" => head,
        Shape::Two(_, _, _) => clause,
        Shape::Variable => clause,
        Shape::Integer(_) => clause,
        Shape::Atom(_) => clause,
        Shape::One(_, _) => clause,
        Shape::Three(_, _, _, _) => clause,
        Shape::Other(_, _) => clause,
    }
}

/// The procedure that a term of a text defines, which is one of its clauses.
pub fn defined(term: &Term) -> Option<Key<'_>>
    ensures { option_map key_view result ≡ spec.defined (term_of term.now) }
{
    match text_term(term) {
        TextTerm::Clause => key_of(head_of(term)),
        TextTerm::Directive(_) => None,
        TextTerm::Initialization(_) => None,
        TextTerm::PassedOver => None,
    }
}

/// The body of a clause, where it is no fact, whose body calls nothing that the text defines.
fn body_of(clause: &Term) -> Option<&Term>
    ensures { spec.match_body (option_map (λ body. term_of body.now) result) ≡ additions.body_of (term_of clause.now) }
{
    match shape_of(clause) {
        Shape::Two(name, _, body) if name == ":-" => Some(body),
        Shape::Two(_, _, _) => None,
        Shape::Variable => None,
        Shape::Integer(_) => None,
        Shape::Atom(_) => None,
        Shape::One(_, _) => None,
        Shape::Three(_, _, _, _) => None,
        Shape::Other(_, _) => None,
    }
}

/// Whether a goal of this name calls its one argument.
fn calls_one(name: &str) -> bool
    ensures { result ≡ spec.calls_one name.now }
{
    matches!(name, "call" | "once" | "\\+")
}

/// Whether a goal of this name calls its two arguments.
fn calls_both(name: &str) -> bool
    ensures { result ≡ spec.calls_both name.now }
{
    matches!(name, "," | ";" | "->")
}

/// Whether a goal of this name calls the second of its three arguments.
fn calls_second(name: &str) -> bool
    ensures { result ≡ spec.calls_second name.now }
{
    matches!(name, "findall" | "bagof" | "setof")
}

/// Adds the procedure of a goal behind the others, unless the goal puts others together, and leaves the goals that it
/// calls to be gone through. The error is that memory was refused.
fn add_first_called<'t>(
    goal: &'t Term,
    left: &mut Vec<&'t Term>,
    keys: &mut Vec<Key<'t>>,
) -> Result<(), AllocError>
    ensures called { OnOk result (
        keys_view keys.new.items ++ flat_map (λ t. spec.called (term_of t.now)) (reverse left.new.items)
        ≡ keys_view keys.old.items ++ (spec.called (term_of goal.entry.now)
        ++ flat_map (λ t. spec.called (term_of t.now)) (reverse left.old.items))) }
    ensures smaller { OnOk result (sum_by (λ t. size (term_of t.now)) left.new.items
        < size (term_of goal.entry.now) + sum_by (λ t. size (term_of t.now)) left.old.items) }
{
    match shape_of(goal) {
        Shape::Variable => Ok(()),
        Shape::Integer(_) => Ok(()),
        Shape::Atom(name) => {
            keys.push(Key { name, arity: 0 })?;
            Ok(())
        }
        Shape::One(name, only) => {
            keys.push(Key { name, arity: 1 })?;
            if calls_one(name) {
                left.push(only)?;
            }
            Ok(())
        }
        Shape::Two(name, first, second) => {
            if calls_both(name) {
                left.push(second)?;
                left.push(first)?;
            } else {
                keys.push(Key { name, arity: 2 })?;
                if name == "^" {
                    left.push(second)?;
                }
            }
            Ok(())
        }
        Shape::Three(name, first, second, third) => {
            keys.push(Key { name, arity: 3 })?;
            if calls_second(name) {
                left.push(second)?;
            } else if name == "catch" {
                left.push(third)?;
                left.push(first)?;
            }
            Ok(())
        }
        Shape::Other(name, arity) => {
            keys.push(Key { name, arity })?;
            Ok(())
        }
    }
}

/// Adds the procedures that a goal calls, with itself, behind the others. The error is that memory was refused.
fn add_called<'t>(alloc: Global, goal: &'t Term, keys: &mut Vec<Key<'t>>) -> Result<(), AllocError>
    ensures { OnOk result (keys_view keys.new.items ≡ keys_view keys.old.items ++ spec.called (term_of goal.entry.now)) }
{
    let mut left = Vec::new(alloc);
    left.push(goal)?;
    while let Some(next) = left.pop() {
        add_first_called(next, &mut left, keys)?;
    }
    Ok(())
}

/// Adds the procedures that the body of a clause calls behind the others. The error is that memory was refused.
fn add_called_in_body<'t>(
    alloc: Global,
    clause: &'t Term,
    keys: &mut Vec<Key<'t>>,
) -> Result<(), AllocError>
    ensures { OnOk result (keys_view keys.new.items ≡ keys_view keys.old.items ++ spec.called (additions.body_of (term_of clause.entry.now))) }
{
    match body_of(clause) {
        Some(body) => add_called(alloc, body, keys),
        None => {
            keys.push(Key {
                name: "true",
                arity: 0,
            })?;
            Ok(())
        }
    }
}

/// The procedures that a term of a text calls, in the order of the text. The error is that memory was refused.
pub fn calls<'t>(alloc: Global, term: &'t Term) -> Result<Vec<Key<'t>>, AllocError>
    ensures { IfOk result (λ keys. keys_view keys.items ≡ spec.calls (term_of term.entry.now)) }
{
    let mut keys = Vec::new(alloc);
    match text_term(term) {
        TextTerm::Clause => add_called_in_body(alloc, term, &mut keys)?,
        TextTerm::Directive(goal) => add_called(alloc, goal, &mut keys)?,
        TextTerm::Initialization(goal) => add_called(alloc, goal, &mut keys)?,
        TextTerm::PassedOver => {}
    }
    Ok(keys)
}

/// Adds the procedure that an indicator with these two parts names behind the others. The error is that memory was
/// refused.
fn add_indicated<'t>(
    name: &'t Term,
    arity: &Term,
    keys: &mut Vec<Key<'t>>,
) -> Result<(), AllocError>
    ensures { OnOk result (keys_view keys.new.items ≡ keys_view keys.old.items ++ spec.indicated (term_of name.entry.now) (term_of arity.now)) }
{
    let Shape::Atom(name) = shape_of(name) else {
        return Ok(());
    };
    let Shape::Integer(value) = shape_of(arity) else {
        return Ok(());
    };
    if value < 0 || value > 255 {
        return Ok(());
    }
    keys.push(Key {
        name,
        arity: value as usize,
    })?;
    Ok(())
}

/// What indicators begin with.
#[derive(Clone, Copy)]
enum IndicatorStep<'t> {
    /// Indicators, before others.
    Both(&'t Term, &'t Term),
    /// It is an indicator of this name and arity.
    One(&'t Term, &'t Term),
    /// It is no indicator.
    Nothing,
}

/// Whether a term of this name puts indicators together.
fn joins(name: &str) -> bool
    ensures { result ≡ spec.joins name.now }
{
    matches!(name, "," | ".")
}

/// What these indicators begin with.
fn indicator_step(indicators: &Term) -> IndicatorStep<'_>
    ensures { IsIndicatorStep result (term_of indicators.now) }
{
    match shape_of(indicators) {
        Shape::Two(name, first, others) if joins(name) => IndicatorStep::Both(first, others),
        Shape::Two(name, first, second) if name == "/" => IndicatorStep::One(first, second),
        Shape::Two(_, _, _) => IndicatorStep::Nothing,
        Shape::Variable => IndicatorStep::Nothing,
        Shape::Integer(_) => IndicatorStep::Nothing,
        Shape::Atom(_) => IndicatorStep::Nothing,
        Shape::One(_, _) => IndicatorStep::Nothing,
        Shape::Three(_, _, _, _) => IndicatorStep::Nothing,
        Shape::Other(_, _) => IndicatorStep::Nothing,
    }
}

/// Adds the procedure that an indicator names behind the others; of indicators that are put together it leaves both
/// parts to be gone through. The error is that memory was refused.
fn add_first_declared<'t>(
    indicators: &'t Term,
    left: &mut Vec<&'t Term>,
    keys: &mut Vec<Key<'t>>,
) -> Result<(), AllocError>
    ensures declared { OnOk result (
        keys_view keys.new.items ++ flat_map (λ t. spec.declared (term_of t.now)) (reverse left.new.items)
        ≡ keys_view keys.old.items ++ (spec.declared (term_of indicators.entry.now)
        ++ flat_map (λ t. spec.declared (term_of t.now)) (reverse left.old.items))) }
    ensures smaller { OnOk result (sum_by (λ t. 1 + 2 * size (term_of t.now)) left.new.items
        < 1 + 2 * size (term_of indicators.entry.now) + sum_by (λ t. 1 + 2 * size (term_of t.now)) left.old.items) }
{
    match indicator_step(indicators) {
        IndicatorStep::Both(first, others) => {
            left.push(others)?;
            left.push(first)?;
            Ok(())
        }
        IndicatorStep::One(name, arity) => add_indicated(name, arity, keys),
        IndicatorStep::Nothing => Ok(()),
    }
}

/// Adds the procedures that indicators name, in conjunctions and lists, behind the others. The error is that memory
/// was refused.
fn add_declared<'t>(
    alloc: Global,
    indicators: &'t Term,
    keys: &mut Vec<Key<'t>>,
) -> Result<(), AllocError>
    ensures { OnOk result (keys_view keys.new.items ≡ keys_view keys.old.items ++ spec.declared (term_of indicators.entry.now)) }
{
    let mut left = Vec::new(alloc);
    left.push(indicators)?;
    while let Some(next) = left.pop() {
        add_first_declared(next, &mut left, keys)?;
    }
    Ok(())
}

/// Adds the procedures that a goal of this name and one argument declares behind the others. The error is that
/// memory was refused.
fn add_declared_by<'t>(
    alloc: Global,
    declaration: &str,
    goal: &'t Term,
    keys: &mut Vec<Key<'t>>,
) -> Result<(), AllocError>
    ensures { OnOk result (keys_view keys.new.items ≡ keys_view keys.old.items ++ spec.declared_goal declaration.now (term_of goal.entry.now)) }
{
    match shape_of(goal) {
        Shape::One(name, indicators) if name == declaration => add_declared(
            alloc, indicators, keys,
        ),
        Shape::One(_, _) => Ok(()),
        Shape::Variable => Ok(()),
        Shape::Integer(_) => Ok(()),
        Shape::Atom(_) => Ok(()),
        Shape::Two(_, _, _) => Ok(()),
        Shape::Three(_, _, _, _) => Ok(()),
        Shape::Other(_, _) => Ok(()),
    }
}

/// The procedures that a term of a text declares by goals of this name, as `dynamic` or `discontiguous` (7.4.2). The
/// error is that memory was refused.
pub fn declares<'t>(
    alloc: Global,
    declaration: &str,
    term: &'t Term,
) -> Result<Vec<Key<'t>>, AllocError>
    ensures { IfOk result (λ keys. keys_view keys.items ≡ spec.declares declaration.now (term_of term.entry.now)) }
{
    let mut keys = Vec::new(alloc);
    if let TextTerm::Directive(goal) = text_term(term) {
        add_declared_by(alloc, declaration, goal, &mut keys)?;
    }
    Ok(keys)
}
