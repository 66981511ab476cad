//! Calls of a new store, over any store, and what they give. A store that is full ends them.
ghost use Rattle.std.specs.Prelude.{◌≡◌, ◌<◌, ◌^◌, ◌∷◌, [], IfOk, IfSome, OnOk, length, true};
ghost use Rattle.std.specs.List.{All};
ghost use Rattle.iso_model.specs.Terms.Trees.{arities_fit};
ghost use Rattle.iso_model.specs.Terms.TermOf.{term_of};
ghost use Rattle.iso_store_core.specs.Presents.{Holds, KeepsWords};
ghost use Rattle.iso_store_core.specs.Patterns.{HasPlaces};
ghost use Rattle.parts_rows.specs.NewStores.{IsNew};

use super::stores::say_term;
use iso_atoms::Atom;
use iso_model::Term;
use iso_store::{Store, StoreFault};
use std::alloc::{AllocError, Global};
use std::fmt::Write;

/// Says that the term is built.
pub fn built<S: Store>(store: &mut S, term: &Term, out: &mut String) -> Result<(), StoreFault>
    requires fits { arities_fit (term_of term.now) ≡ true }
    requires new { IsNew (S.present store.old) }
{
    let _ = store.build(term)?;
    out.push_str("  built\n")?;
    Ok(())
}

/// Says the term's copy.
pub fn copied<S: Store>(store: &mut S, term: &Term, out: &mut String) -> Result<(), StoreFault>
    requires fits { arities_fit (term_of term.now) ≡ true }
    requires new { IsNew (S.present store.old) }
{
    let whole = store.build(term)?;
    let copy = store.copy(whole)?;
    say_term(&*store, "  ", copy, out)
}

/// An integer, an atom, and the number that is next: none was used.
pub fn atomic<S: Store>(store: &mut S, out: &mut String) -> Result<(), StoreFault>
    requires new { IsNew (S.present store.old) }
{
    let integer = store.int(-3)?;
    writeln!(out, "  {:?}", store.shape(integer))?;
    let nil = store.intern("[]")?;
    let name = store.atom(nil)?;
    writeln!(out, "  {:?} {}", store.shape(name), store.text(nil))?;
    writeln!(out, "  {}", store.reserve(2))?;
    Ok(())
}

/// Two words.
fn pair<W: Copy>(alloc: Global, first: W, second: W) -> Result<Vec<W>, AllocError>
    ensures { IfOk result (λ v. v.items ≡ first ∷ second ∷ []) }
{
    let mut words = Vec::new(alloc);
    if words.push(first).is_err() || words.push(second).is_err() {
        return Err(AllocError);
    }
    Ok(words)
}

/// A variable of a number that was reserved, one of the next number, and a compound of both.
pub fn compound<S: Store>(alloc: Global, store: &mut S, out: &mut String) -> Result<(), StoreFault>
    requires new { IsNew (S.present store.old) }
{
    writeln!(out, "  {}", store.reserve(2))?;
    let variable = store.variable(1)?;
    writeln!(out, "  {:?}", store.shape(variable))?;
    let next = store.fresh()?;
    let both = pair(alloc, variable, next)?;
    let functor = store.intern("f")?;
    let whole = store.compound(functor, both.as_slice())?;
    writeln!(out, "  {:?}", store.shape(whole))?;
    let second = store.arg(whole, 1);
    writeln!(out, "  {:?}", store.shape(second))?;
    say_term(&*store, "  ", whole, out)
}

/// Says an atom and its name.
fn say_name<S: Store>(store: &S, atom: Atom, out: &mut String) -> Result<(), StoreFault>
    requires { atom < length (S.names store.now) }
{
    writeln!(out, "  {atom:?} {}", store.text(atom))?;
    Ok(())
}

/// A name has one atom, which gives it back, and other names have others, also once a term was built of them.
pub fn names<S: Store>(store: &mut S, term: &Term, out: &mut String) -> Result<(), StoreFault>
    requires fits { arities_fit (term_of term.now) ≡ true }
    requires new { IsNew (S.present store.old) }
{
    let foo = store.intern("foo")?;
    let bar = store.intern("bar")?;
    let built = store.build(term)?;
    writeln!(out, "  {foo:?} {bar:?} {:?}", store.shape(built))?;
    let second = store.intern("bar")?;
    say_name(&*store, second, out)?;
    let first = store.intern("foo")?;
    say_name(&*store, first, out)
}

/// A mark that is given up leaves what was bound since, and an older one still takes it back, and the numbers given
/// since.
pub fn marks<S: Store>(store: &mut S, out: &mut String) -> Result<(), StoreFault>
    requires new { IsNew (S.present store.old) }
{
    let variable = store.fresh()?;
    let five = store.int(5)?;
    let six = store.int(6)?;
    let older = store.mark();
    let newer = store.mark();
    if !store.unify(variable, five)? {
        return Ok(());
    }
    store.forget(newer);
    writeln!(out, "  {:?}", store.shape(variable))?;
    writeln!(out, "  {}", store.unify(variable, six)?)?;
    store.undo(older);
    writeln!(out, "  {:?}", store.shape(variable))?;
    let next = store.fresh()?;
    writeln!(out, "  {:?}", store.shape(next))?;
    Ok(())
}

/// A variable younger than the newest mark is bound, and then an older one.
pub fn older<S: Store>(store: &mut S, out: &mut String) -> Result<(), StoreFault>
    requires new { IsNew (S.present store.old) }
{
    let older = store.fresh()?;
    let five = store.int(5)?;
    let _ = store.mark();
    let newer = store.fresh()?;
    if !store.unify(newer, five)? {
        return Ok(());
    }
    writeln!(out, "  {:?}", store.shape(newer))?;
    let is_bound = store.unify(older, five)?;
    writeln!(out, "  {is_bound}")?;
    Ok(())
}

/// p(X, X, g(Y), 7, a), where X and Y have the places 0 and 1
fn head_term(alloc: Global) -> Result<Term, AllocError>
    ensures fits { IfOk result (λ t. arities_fit (term_of t) ≡ true) }
    ensures places { IfOk result (λ t. HasPlaces 2 (term_of t)) }
{
    let inner = Term::Compound(String::from_str(alloc, "g")?, vec![in alloc; Term::Var(1)]?);
    let atom = Term::Atom(String::from_str(alloc, "a")?);
    let arguments = vec![in alloc; Term::Var(0), Term::Var(0), inner, Term::Int(7), atom]?;
    Ok(Term::Compound(String::from_str(alloc, "p")?, arguments))
}

/// The term, once it is written out, with these words for its variables.
fn instance<S: Store>(
    store: &mut S,
    term: &Term,
    variables: &[S::Word],
) -> Result<S::Word, StoreFault>
    requires fits { arities_fit (term_of term.now) ≡ true }
    requires places { HasPlaces (length variables.now) (term_of term.now) }
    requires variables { All (λ w. Holds (S.present store.old) w) variables.now }
    ensures made { IfOk result (λ w. Holds (S.present store.new) w) }
    ensures words { OnOk result (KeepsWords (S.present store.old) (S.present store.new)) }
{
    let pattern = store.pattern(term)?;
    store.instantiate(&pattern, variables)
}

/// Two instances of p(X, X, g(Y), 7, a), and a third.
pub fn instances<S: Store>(alloc: Global, store: &mut S, out: &mut String) -> Result<(), StoreFault>
    requires new { IsNew (S.present store.old) }
{
    let term = head_term(alloc)?;
    let variable = store.fresh()?;
    let five = store.int(5)?;
    let words = pair(alloc, variable, five)?;
    let whole = instance(store, &term, words.as_slice())?;
    say_term(&*store, "  ", whole, out)?;
    let words = pair(alloc, five, variable)?;
    let turned = instance(store, &term, words.as_slice())?;
    say_term(&*store, "  ", turned, out)?;
    let third = instance(store, &term, words.as_slice())?;
    say_term(&*store, "  ", third, out)
}

/// The term, once it is written out, with new variables.
fn renewal<S: Store>(store: &mut S, term: &Term) -> Result<S::Word, StoreFault>
    requires fits { arities_fit (term_of term.now) ≡ true }
    requires places { HasPlaces 2 (term_of term.now) }
    requires next { (S.present store.old).next < 2 ^ 62 }
    ensures { IfOk result (λ w. Holds (S.present store.new) w) }
{
    let pattern = store.pattern(term)?;
    store.renew(pattern.parts.as_slice(), 2)
}

/// p(X, X, g(Y), 7, a) with new variables.
pub fn renewed<S: Store>(alloc: Global, store: &mut S, out: &mut String) -> Result<(), StoreFault>
    requires new { IsNew (S.present store.old) }
{
    let term = head_term(alloc)?;
    let whole = renewal(store, &term)?;
    say_term(&*store, "  ", whole, out)
}

/// Words for the two variables of the term, once it is written out and unified as a head with the goal; none where it
/// can't be.
fn head_words<S: Store>(
    alloc: Global,
    store: &mut S,
    head: &Term,
    goal: S::Word,
) -> Result<Option<Vec<S::Word>>, StoreFault>
    requires fits { arities_fit (term_of head.now) ≡ true }
    requires places { HasPlaces 2 (term_of head.now) }
    requires goal { Holds (S.present store.old) goal }
    requires next { (S.present store.old).next < 2 ^ 62 }
    ensures words { IfOk result (λ found. IfSome found (λ ws. All (λ w. Holds (S.present store.new) w) ws.items)) }
    ensures goal { IfOk result (λ found. IfSome found (λ ws. Holds (S.present store.new) goal)) }
{
    let pattern = store.pattern(head)?;
    let mut words = Vec::new(alloc);
    if store.unify_head(pattern.parts.as_slice(), goal, 2, &mut words)? {
        return Ok(Some(words));
    }
    Ok(None)
}

/// p(X, X, g(Y), 7, a) as a head, unified with the term as a goal: the values of X and Y, and the goal then.
pub fn head<S: Store>(
    alloc: Global,
    store: &mut S,
    term: &Term,
    out: &mut String,
) -> Result<(), StoreFault>
    requires fits { arities_fit (term_of term.now) ≡ true }
    requires new { IsNew (S.present store.old) }
{
    let goal = store.build(term)?;
    let Some(words) = head_words(alloc, store, &head_term(alloc)?, goal)? else {
        out.push_str("  missed\n")?;
        return Ok(());
    };
    for word in &words {
        say_term(&*store, "  ", *word, out)?;
    }
    say_term(&*store, "  ", goal, out)
}
