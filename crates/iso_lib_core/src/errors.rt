//! Error terms (7.12.2), each with the indicator of the procedure that raised it (own). A call fails where memory was
//! refused.
ghost use Rattle.std.specs.Prelude.{◌≡◌, ◌<◌, IfOk, codes};
ghost use Rattle.iso_model.specs.Terms.Trees.{Name};
ghost use Rattle.iso_model.specs.Terms.TermOf.{term_of};
ghost use Rattle.iso_model.specs.Search.Bodies.{one, two};
ghost use Rattle.iso_model.specs.Search.Errors.{key};
ghost use Rattle.iso_model.specs.Search.Errors as errors;
ghost use Rattle.iso_model.specs.Search.Arithmetic.{not_evaluable};

use iso_model::{Ball, Term};
use std::alloc::{AllocError, Global};

/// An atom of this text.
pub fn atom(alloc: Global, text: &str) -> Result<Term, AllocError>
    ensures { IfOk result (λ t. term_of t ≡ Name text.now) }
{
    Ok(Term::Atom(String::from_str(alloc, text)?))
}

/// A compound of this name and these two arguments.
pub fn compound2(alloc: Global, name: &str, first: Term, second: Term) -> Result<Term, AllocError>
    ensures { IfOk result (λ t. term_of t ≡ two name.now (term_of first) (term_of second)) }
{
    let mut arguments = Vec::with_capacity(alloc, 2)?;
    arguments.push(first)?;
    arguments.push(second)?;
    Ok(Term::Compound(String::from_str(alloc, name)?, arguments))
}

/// The indicator as a term, `Name/Arity` (7.1.6.6).
pub fn indicator(alloc: Global, name: &str, arity: usize) -> Result<Term, AllocError>
    requires { arity < 256 }
    ensures { IfOk result (λ t. term_of t ≡ errors.indicator (key name.now arity)) }
{
    let name = atom(alloc, name)?;
    compound2(alloc, "/", name, Term::Int(arity as i128))
}

/// `error(what, PI)`, as a ball, raised by this procedure.
fn error(alloc: Global, what: Term, by: &str, by_arity: usize) -> Result<Ball, AllocError>
    requires { by_arity < 256 }
    ensures { IfOk result (λ b. term_of b.term.value ≡ errors.raised (term_of what) (key by.now by_arity)) }
{
    let place = indicator(alloc, by, by_arity)?;
    let term = compound2(alloc, "error", what, place)?;
    Ok(Ball {
        term: Box::new(alloc, term)?,
    })
}

/// `instantiation_error`, raised by this procedure (7.12.2 a).
pub fn instantiation(alloc: Global, by: &str, by_arity: usize) -> Result<Ball, AllocError>
    requires { by_arity < 256 }
    ensures { IfOk result (λ b. term_of b.term.value ≡ errors.instantiation_error (key by.now by_arity)) }
{
    let what = atom(alloc, "instantiation_error")?;
    error(alloc, what, by, by_arity)
}

/// `type_error(kind, culprit)`, raised by this procedure (7.12.2 b).
pub fn wrong_type(
    alloc: Global,
    kind: &str,
    culprit: Term,
    by: &str,
    by_arity: usize,
) -> Result<Ball, AllocError>
    requires { by_arity < 256 }
    ensures { IfOk result (λ b. term_of b.term.value ≡ errors.type_error kind.now (term_of culprit) (key by.now by_arity)) }
{
    let kind = atom(alloc, kind)?;
    let what = compound2(alloc, "type_error", kind, culprit)?;
    error(alloc, what, by, by_arity)
}

/// `type_error(callable, culprit)`, raised by this procedure (7.12.2 b).
pub fn not_callable(
    alloc: Global,
    culprit: Term,
    by: &str,
    by_arity: usize,
) -> Result<Ball, AllocError>
    requires { by_arity < 256 }
    ensures { IfOk result (λ b. term_of b.term.value ≡ errors.type_error_callable (term_of culprit) (key by.now by_arity)) }
{
    wrong_type(alloc, "callable", culprit, by, by_arity)
}

/// `domain_error(domain, culprit)`, raised by this procedure (7.12.2 c).
pub fn out_of_domain(
    alloc: Global,
    domain: &str,
    culprit: Term,
    by: &str,
    by_arity: usize,
) -> Result<Ball, AllocError>
    requires { by_arity < 256 }
    ensures { IfOk result (λ b. term_of b.term.value ≡ errors.domain_error domain.now (term_of culprit) (key by.now by_arity)) }
{
    let domain = atom(alloc, domain)?;
    let what = compound2(alloc, "domain_error", domain, culprit)?;
    error(alloc, what, by, by_arity)
}

/// `type_error(evaluable, Name/Arity)` of this culprit, raised by this procedure (7.9.2).
pub fn not_evaluable(
    alloc: Global,
    culprit: &str,
    count: usize,
    by: &str,
    by_arity: usize,
) -> Result<Ball, AllocError>
    requires count { count < 256 }
    requires by_arity { by_arity < 256 }
    ensures { IfOk result (λ b. term_of b.term.value ≡ errors.raised (not_evaluable (key culprit.now count)) (key by.now by_arity)) }
{
    let culprit = indicator(alloc, culprit, count)?;
    wrong_type(alloc, "evaluable", culprit, by, by_arity)
}

/// `existence_error(procedure, PI)`, raised by the unknown procedure itself (7.7.7, 7.12.2 d).
pub fn unknown_procedure(alloc: Global, name: &str, arity: usize) -> Result<Ball, AllocError>
    requires { arity < 256 }
    ensures { IfOk result (λ b. term_of b.term.value ≡ errors.existence_error (key name.now arity)) }
{
    let kind = atom(alloc, "procedure")?;
    let culprit = indicator(alloc, name, arity)?;
    let what = compound2(alloc, "existence_error", kind, culprit)?;
    error(alloc, what, name, arity)
}

/// `permission_error(operation, kind, culprit)`, raised by this procedure (7.12.2 e).
pub fn not_permitted(
    alloc: Global,
    operation: &str,
    kind: &str,
    culprit: Term,
    by: &str,
    by_arity: usize,
) -> Result<Ball, AllocError>
    requires { by_arity < 256 }
    ensures { IfOk result (λ b. term_of b.term.value ≡ errors.not_permitted operation.now kind.now (term_of culprit) (key by.now by_arity)) }
{
    let mut arguments = Vec::with_capacity(alloc, 3)?;
    arguments.push(atom(alloc, operation)?)?;
    arguments.push(atom(alloc, kind)?)?;
    arguments.push(culprit)?;
    let what = Term::Compound(String::from_str(alloc, "permission_error")?, arguments);
    error(alloc, what, by, by_arity)
}

/// `permission_error(modify, static_procedure, PI)`, raised by this procedure of one argument (7.12.2 e).
pub fn static_procedure(
    alloc: Global,
    name: &str,
    arity: usize,
    by: &str,
) -> Result<Ball, AllocError>
    requires { arity < 256 }
    ensures { IfOk result (λ b. term_of b.term.value ≡ errors.permission_error (key name.now arity) (key by.now 1)) }
{
    let culprit = indicator(alloc, name, arity)?;
    not_permitted(alloc, "modify", "static_procedure", culprit, by, 1)
}

/// `kind(what)`, raised by this procedure.
fn named(
    alloc: Global,
    kind: &str,
    what: &str,
    by: &str,
    by_arity: usize,
) -> Result<Ball, AllocError>
    requires { by_arity < 256 }
    ensures { IfOk result (λ b. term_of b.term.value ≡ errors.raised (one kind.now (Name what.now)) (key by.now by_arity)) }
{
    let mut arguments = Vec::with_capacity(alloc, 1)?;
    let what = atom(alloc, what)?;
    arguments.push(what)?;
    let what = Term::Compound(String::from_str(alloc, kind)?, arguments);
    error(alloc, what, by, by_arity)
}

/// `evaluation_error(what)`, raised by this procedure (7.12.2 g).
pub fn evaluation(alloc: Global, what: &str, by: &str, by_arity: usize) -> Result<Ball, AllocError>
    requires { by_arity < 256 }
    ensures { IfOk result (λ b. term_of b.term.value ≡ errors.raised (one (codes "evaluation_error") (Name what.now)) (key by.now by_arity)) }
{
    named(alloc, "evaluation_error", what, by, by_arity)
}

/// `representation_error(max_variables)`, raised by this procedure of one argument (own limit).
pub fn too_many_variables(alloc: Global, by: &str) -> Result<Ball, AllocError>
    ensures { IfOk result (λ b. term_of b.term.value ≡ errors.max_variables_error (key by.now 1)) }
{
    named(alloc, "representation_error", "max_variables", by, 1)
}

/// `representation_error(max_arity)`, raised by this procedure (own limit).
pub fn too_many_arguments(alloc: Global, by: &str, by_arity: usize) -> Result<Ball, AllocError>
    requires { by_arity < 256 }
    ensures { IfOk result (λ b. term_of b.term.value ≡ errors.max_arity_error (key by.now by_arity)) }
{
    named(alloc, "representation_error", "max_arity", by, by_arity)
}

/// `representation_error(character_code)`, raised by this procedure (7.12.2 f).
pub fn no_character_code(alloc: Global, by: &str, by_arity: usize) -> Result<Ball, AllocError>
    requires { by_arity < 256 }
    ensures { IfOk result (λ b. term_of b.term.value ≡ errors.raised (one (codes "representation_error") (Name (codes "character_code"))) (key by.now by_arity)) }
{
    named(
        alloc,
        "representation_error",
        "character_code",
        by,
        by_arity,
    )
}

/// `syntax_error(illegal_number)`, raised by this procedure (8.16.7).
pub fn illegal_number(alloc: Global, by: &str, by_arity: usize) -> Result<Ball, AllocError>
    requires { by_arity < 256 }
    ensures { IfOk result (λ b. term_of b.term.value ≡ errors.raised (one (codes "syntax_error") (Name (codes "illegal_number"))) (key by.now by_arity)) }
{
    named(alloc, "syntax_error", "illegal_number", by, by_arity)
}
