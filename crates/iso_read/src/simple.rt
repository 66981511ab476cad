//! Terms of one token: variables (6.3.2), integers (6.3.1.1), negative literals (6.3.1.2) and double quoted items
//! (6.3.7).
ghost use Rattle.std.specs.Prelude.{◌≡◌, ◌≤◌, ◌+◌, ◌^◌, Some, None, option_map, pos, neg_ℤ, IfOk, IfErr, MatchResult};
ghost use Rattle.iso_model.specs.Syntax.Grammar as grammar;
ghost use Rattle.iso_model.specs.Syntax.Lists as lists;
ghost use Rattle.iso_model.specs.Syntax.Reading as reading;
ghost use Rattle.iso_model.specs.Syntax.Token.{magnitude, content};
ghost use Rattle.iso_model.specs.Terms.Trees.{Variable};
ghost use Rattle.iso_read.specs.Gives.{Gives};
ghost use Rattle.iso_read.specs.Views.{node_of};
ghost use Rattle.iso_read.specs.declared.clause.ReadFault.TheVariants.{Syntax, NoMemory};
ghost use Rattle.iso_token.specs.Shows.{shown};

use crate::clause::ReadFault;
use crate::input::Input;
use crate::language::Language;
use crate::lists::quoted_term;
use crate::node::{Node, closed};
use iso_model::Term;
use iso_token::Token;

/// The greatest integer (the flag `max_integer`, 7.11.1.2).
const MAX_INTEGER: u128 = 170_141_183_460_469_231_731_687_303_715_884_105_727;

/// The variable of its token, at one more occurrence.
#[inline(never)]
pub fn variable<'c>(token: &Token<'c>, input: &mut Input<'c>) -> Result<Node, ReadFault>
    ensures node { IfOk result (λ node. node_of node ≡ grammar.closed (Variable (grammar.number_of token.now.text.now input.old.names)) 0) }
    ensures after { IfOk result (λ _. input.new ≡ grammar.with_name token.now.text.now input.old) }
    ensures refused { IfErr result (λ fault. fault ≡ NoMemory) }
{
    let number = input.variable(token.text)?;
    Ok(closed(Term::Var(number), 0))
}

/// The integer of its token. The error: it is out of range.
#[inline(never)]
pub fn integer(token: &Token<'_>) -> Result<Node, ReadFault>
    ensures { MatchResult result (λ node. reading.integer (magnitude (shown token.now)) ≡ Some (node_of node)) (λ fault. (fault ≡ Syntax) × (reading.integer (magnitude (shown token.now)) ≡ None)) }
{
    match token.magnitude() {
        Some(value) if value <= MAX_INTEGER => Ok(closed(Term::Int(value as i128), 0)),
        _ => Err(ReadFault::Syntax),
    }
}

/// The integer below 0 of this size.
fn negated(size: u128) -> i128
    requires { size ≤ 2 ^ 127 }
    ensures { result ≡ neg_ℤ (pos size) }
{
    if size > MAX_INTEGER {
        i128::MIN
    } else {
        -(size as i128)
    }
}

/// The negative literal of these digits.
fn literal(digits: &Token<'_>) -> Option<Node>
    ensures { option_map node_of result ≡ reading.literal (magnitude (shown digits.now)) }
{
    let size = digits.magnitude()?;
    Some(closed(Term::Int(negated(size)), 0))
}

/// The negative literal whose digits are next. The error: it is out of range.
#[inline(never)]
pub fn negative(input: &mut Input<'_>) -> Result<Node, ReadFault>
    ensures { Gives node_of (reading.negative input.old input.old.tokens) result input.new }
{
    let Some(digits) = input.next() else {
        return Err(ReadFault::Syntax);
    };
    literal(&digits).ok_or(ReadFault::Syntax)
}

/// What a double quoted item stands for.
#[inline(never)]
pub fn quoted(language: Language<'_>, token: &Token<'_>) -> Result<Node, ReadFault>
    ensures node { IfOk result (λ node. node_of node ≡ grammar.closed (lists.quoted_term language.entry.flags.now.double_quotes (content (shown token.now))) 0) }
    ensures refused { IfErr result (λ fault. fault ≡ NoMemory) }
{
    let text = token.content(language.alloc)?;
    let term = quoted_term(language.alloc, language.flags.double_quotes, &text)?;
    Ok(closed(term, 0))
}
