//! Lists (6.3.5), and what a double quoted item stands for (6.3.7).
ghost use Rattle.std.specs.Prelude.{◌≡◌, [], ◌∷◌, map, chars, codes, pos, encode_utf8, IfOk};
ghost use Rattle.iso_model.specs.Syntax.Lists as model;
ghost use Rattle.iso_model.specs.Terms.TermOf.{term_of};
ghost use Rattle.iso_model.specs.Terms.Trees.{Integer, Name, Apply, row};

use iso_model::Term;
use iso_ops::DoubleQuotes;
use std::alloc::{AllocError, Global};

/// The atom of this name.
fn atom(alloc: Global, name: &str) -> Result<Term, AllocError>
    ensures { IfOk result (λ term. term_of term ≡ Name name.now) }
{
    Ok(Term::Atom(String::from_str(alloc, name)?))
}

/// The empty list.
pub fn nil(alloc: Global) -> Result<Term, AllocError>
    ensures { IfOk result (λ term. term_of term ≡ Name model.nil) }
{
    atom(alloc, "[]")
}

/// The list of this element and those of another list.
fn cell(alloc: Global, first: Term, others: Term) -> Result<Term, AllocError>
    ensures { IfOk result (λ term. term_of term ≡ Apply model.dot (row (term_of first ∷ term_of others ∷ []))) }
{
    let name = String::from_str(alloc, ".")?;
    let mut parts = Vec::new(alloc);
    parts.push(first)?;
    parts.push(others)?;
    Ok(Term::Compound(name, parts))
}

/// The list of these elements before a tail.
pub fn list_before(alloc: Global, terms: Vec<Term>, tail: Term) -> Result<Term, AllocError>
    ensures { IfOk result (λ term. term_of term ≡ model.list_before (map term_of terms.items) (term_of tail)) }
{
    let mut list = tail;
    for term in terms.into_iter().rev() {
        list = cell(alloc, term, list)?;
    }
    Ok(list)
}

/// The code of a character.
fn code(c: char) -> Term
    ensures { term_of result ≡ Integer (pos c) }
{
    Term::Int(i128::from(u32::from(c)))
}

/// The list of the codes of the text's characters.
fn codes_of(alloc: Global, text: &str) -> Result<Term, AllocError>
    ensures { IfOk result (λ term. term_of term ≡ model.list_before (map (λ c. Integer (pos c)) (chars text.now)) (Name model.nil)) }
{
    let mut terms = Vec::new(alloc);
    for c in text.chars() {
        terms.push(code(c))?;
    }
    let end = nil(alloc)?;
    list_before(alloc, terms, end)
}

/// The atom of one character.
fn character(alloc: Global, c: char) -> Result<Term, AllocError>
    ensures { IfOk result (λ term. term_of term ≡ Name (encode_utf8 c)) }
{
    let mut name = String::new(alloc);
    name.push(c)?;
    Ok(Term::Atom(name))
}

/// The list of the text's characters.
fn characters_of(alloc: Global, text: &str) -> Result<Term, AllocError>
    ensures { IfOk result (λ term. term_of term ≡ model.list_before (map (λ c. Name (encode_utf8 c)) (chars text.now)) (Name model.nil)) }
{
    let mut terms = Vec::new(alloc);
    for c in text.chars() {
        let name = character(alloc, c)?;
        terms.push(name)?;
    }
    let end = nil(alloc)?;
    list_before(alloc, terms, end)
}

/// What a double quoted item of these characters stands for, by the flag `double_quotes` (7.11.2.5).
pub fn quoted_term(alloc: Global, quotes: DoubleQuotes, text: &str) -> Result<Term, AllocError>
    ensures { IfOk result (λ term. term_of term ≡ model.quoted_term quotes text.now) }
{
    match quotes {
        DoubleQuotes::Codes => codes_of(alloc, text),
        DoubleQuotes::Chars => characters_of(alloc, text),
        DoubleQuotes::Atom => atom(alloc, text),
    }
}
