//! Terms from tokens: an operand, and then the operators that go on from it, by precedence (6.3).
//!
//! These functions call one another as deep as the parts of a term stand. What they call besides is marked
//! `inline(never)`: so it stands in no frame of theirs, and a term of the greatest depth is read on a stack of 8 MB.
ghost use Rattle.std.specs.Prelude.{◌≡◌, ◌<◌, ◌≤◌, ◌+◌, ◌^◌, codes, length, map, max, option_map, IfOk, OnOk};
ghost use Rattle.std.specs.String.{string_bytes};
ghost use Rattle.iso_model.specs.Syntax.Grammar as grammar;
ghost use Rattle.iso_model.specs.Syntax.Lists as lists;
ghost use Rattle.iso_model.specs.Syntax.Operators.{prefix_named};
ghost use Rattle.iso_model.specs.Syntax.Reading as reading;
ghost use Rattle.iso_model.specs.Terms.TermOf.{term_of};
ghost use Rattle.iso_read.specs.Gives.{Gives};
ghost use Rattle.iso_read.specs.Views.{node_of, row_of, following_of, terms_in};
ghost use Rattle.iso_token.specs.Shows.{shown};

use crate::clause::ReadFault;
use crate::input::{Input, is_mark, negates, opens_arguments};
use crate::language::Language;
use crate::lists::{list_before, nil};
use crate::node::{Node, Row, apply, closed, fits, in_braces, join, right_of};
use crate::operators::{Following, Operator, begins, operator_in};
use crate::simple::{integer, negative, quoted, variable};
use iso_model::{MAX_ARITY, Term};
use iso_token::{Kind, Token};
use std::alloc::{AllocError, Global};

/// The greatest priority of an argument (6.3.3.1).
const ARGUMENT_PRIORITY: u16 = 999;

/// The greatest priority of a term in brackets or braces (6.3.4.1).
const BRACKETED_PRIORITY: u16 = 1200;

/// A term of at most this priority, in which nothing stands as deep as `depth`.
#[cycle(reader)]
#[tactic(auto, unfolding(iso_model::specs::Syntax::Reading::term))]
pub fn read_term(
    language: Language<'_>,
    depth: usize,
    most: u16,
    input: &mut Input<'_>,
) -> Result<Node, ReadFault>
    ensures read { Gives node_of (terms_in language.entry depth most input.old) result input.new }
    ensures height { IfOk result (λ node. node.height < depth) }
    ensures shorter { OnOk result (length input.new.tokens ≤ length input.old.tokens) }
{
    if depth == 0 {
        return Err(ReadFault::Syntax);
    }
    let first = operand(language, depth - 1, input)?;
    if first.priority > most {
        return Err(ReadFault::Syntax);
    }
    climb(language, depth - 1, most, first, input)
}

/// What stands where an operand may begin; its parts stand less deep than `depth`.
#[inline(never)]
#[cycle(reader)]
#[tactic(auto, unfolding(iso_model::specs::Syntax::Reading::operand))]
fn operand(language: Language<'_>, depth: usize, input: &mut Input<'_>) -> Result<Node, ReadFault>
    ensures read { Gives node_of (reading.operand language.entry.ops.now language.entry.flags.now (terms_in language.entry depth) input.old) result input.new }
    ensures height { IfOk result (λ node. node.height ≤ depth) }
    ensures shorter { OnOk result (length input.new.tokens ≤ length input.old.tokens) }
{
    let Some(token) = input.next() else {
        return Err(ReadFault::Syntax);
    };
    match token.kind {
        Kind::Variable => variable(&token, input),
        Kind::Integer => integer(&token),
        Kind::Double => quoted(language, &token),
        Kind::Name | Kind::Quoted => {
            let name = token.content(language.alloc)?;
            named(language, depth, token.kind == Kind::Name, name, input)
        }
        Kind::Punct => punctuated(language, depth, &token, input),
        Kind::End | Kind::Bad => Err(ReadFault::Syntax),
    }
}

/// What a name, unquoted or not, stands for: the functor of the arguments that follow directly (6.3.3), the sign of the
/// digits that follow directly (6.3.1.2), a prefix operator (6.3.4.2) or an atom (6.3.1.3).
#[inline(never)]
#[cycle(reader)]
#[tactic(auto, unfolding(iso_model::specs::Syntax::Reading::named))]
fn named(
    language: Language<'_>,
    depth: usize,
    unquoted: bool,
    name: String,
    input: &mut Input<'_>,
) -> Result<Node, ReadFault>
    ensures read { Gives node_of (reading.named language.entry.ops.now language.entry.flags.now (terms_in language.entry depth) unquoted (string_bytes name) input.old) result input.new }
    ensures height { IfOk result (λ node. node.height ≤ depth) }
    ensures shorter { OnOk result (length input.new.tokens ≤ length input.old.tokens) }
{
    if opens_arguments(input.tokens()) {
        input.next();
        return compound(language, depth, name, input);
    }
    if negates(unquoted, &name, input.tokens()) {
        return negative(input);
    }
    prefixed(language, depth, name, input)
}

/// What a name that is no functor and no sign stands for: the prefix operator of that name with its operand, where the
/// next tokens can begin one (own), else an atom.
#[inline(never)]
#[cycle(reader)]
fn prefixed(
    language: Language<'_>,
    depth: usize,
    name: String,
    input: &mut Input<'_>,
) -> Result<Node, ReadFault>
    ensures read { Gives node_of (reading.prefixed language.entry.ops.now language.entry.flags.now (terms_in language.entry depth) (string_bytes name) input.old (prefix_named language.entry.ops.now (string_bytes name))) result input.new }
    ensures height { IfOk result (λ node. node.height ≤ depth) }
    ensures shorter { OnOk result (length input.new.tokens ≤ length input.old.tokens) }
{
    let Some((priority, spec)) = language.ops.prefix(&name) else {
        return Ok(closed(Term::Atom(name), 0));
    };
    if !begins(language, input.tokens())? {
        return Ok(closed(Term::Atom(name), 0));
    }
    let operator = Operator {
        name,
        priority,
        spec,
    };
    let mut operand = read_term(language, depth, right_of(&operator), input)?;
    apply(language.alloc, operator, &mut operand)?;
    Ok(operand)
}

/// The compound of this name whose arguments are next (6.3.3).
#[cycle(reader)]
#[tactic(auto, unfolding(iso_model::specs::Syntax::Reading::compound))]
fn compound(
    language: Language<'_>,
    depth: usize,
    name: String,
    input: &mut Input<'_>,
) -> Result<Node, ReadFault>
    ensures read { Gives node_of (reading.compound (terms_in language.entry depth) (string_bytes name) input.old) result input.new }
    ensures height { IfOk result (λ node. node.height ≤ depth) }
    ensures shorter { OnOk result (length input.new.tokens ≤ length input.old.tokens) }
{
    let row = elements(language, depth, input)?;
    if !input.takes(")") || row.terms.len() > MAX_ARITY {
        return Err(ReadFault::Syntax);
    }
    Ok(closed(Term::Compound(name, row.terms), row.height + 1))
}

/// One or more terms with commas between them.
#[inline(never)]
#[cycle(reader)]
#[tactic(auto, unfolding(iso_model::specs::Syntax::Reading::elements))]
fn elements(language: Language<'_>, depth: usize, input: &mut Input<'_>) -> Result<Row, ReadFault>
    ensures read { Gives row_of (reading.elements (terms_in language.entry depth) input.old) result input.new }
    ensures height { IfOk result (λ row. row.height < depth) }
    ensures shorter { OnOk result (length input.new.tokens ≤ length input.old.tokens) }
{
    let first = read_term(language, depth, ARGUMENT_PRIORITY, input)?;
    let mut height = first.height;
    let mut terms = Vec::new(language.alloc);
    terms.push(first.term)?;
    while input.takes(",") {
        let next = read_term(language, depth, ARGUMENT_PRIORITY, input)?;
        height = height.max(next.height);
        terms.push(next.term)?;
    }
    Ok(Row { terms, height })
}

/// What a mark that is no comma, bar or closing bracket stands before: a term in brackets or braces, a list, or what
/// the names `[]` and `{}` stand for.
#[inline(never)]
#[cycle(reader)]
#[tactic(auto, unfolding(iso_model::specs::Syntax::Reading::punctuated))]
fn punctuated(
    language: Language<'_>,
    depth: usize,
    mark: &Token<'_>,
    input: &mut Input<'_>,
) -> Result<Node, ReadFault>
    ensures read { Gives node_of (reading.punctuated language.entry.ops.now language.entry.flags.now (terms_in language.entry depth) (shown mark.now) input.old) result input.new }
    ensures height { IfOk result (λ node. node.height ≤ depth) }
    ensures shorter { OnOk result (length input.new.tokens ≤ length input.old.tokens) }
{
    if is_mark(mark, "(") {
        return bracketed(language, depth, input);
    }
    if is_mark(mark, "[") {
        if input.takes("]") {
            let name = String::from_str(language.alloc, "[]")?;
            return named(language, depth, false, name, input);
        }
        return listed(language, depth, input);
    }
    if is_mark(mark, "{") {
        if input.takes("}") {
            let name = String::from_str(language.alloc, "{}")?;
            return named(language, depth, false, name, input);
        }
        return braced(language, depth, input);
    }
    Err(ReadFault::Syntax)
}

/// The term in brackets, of which the first is behind (6.3.4.1).
#[inline(never)]
#[cycle(reader)]
#[tactic(auto, unfolding(iso_model::specs::Syntax::Reading::bracketed))]
fn bracketed(language: Language<'_>, depth: usize, input: &mut Input<'_>) -> Result<Node, ReadFault>
    ensures read { Gives node_of (reading.bracketed (terms_in language.entry depth) input.old) result input.new }
    ensures height { IfOk result (λ node. node.height ≤ depth) }
    ensures shorter { OnOk result (length input.new.tokens ≤ length input.old.tokens) }
{
    let inner = read_term(language, depth, BRACKETED_PRIORITY, input)?;
    if !input.takes(")") {
        return Err(ReadFault::Syntax);
    }
    Ok(closed(inner.term, inner.height + 1))
}

/// The term in braces, of which the first is behind (6.3.6).
#[inline(never)]
#[cycle(reader)]
#[tactic(auto, unfolding(iso_model::specs::Syntax::Reading::braced))]
fn braced(language: Language<'_>, depth: usize, input: &mut Input<'_>) -> Result<Node, ReadFault>
    ensures read { Gives node_of (reading.braced (terms_in language.entry depth) input.old) result input.new }
    ensures height { IfOk result (λ node. node.height ≤ depth) }
    ensures shorter { OnOk result (length input.new.tokens ≤ length input.old.tokens) }
{
    let inner = read_term(language, depth, BRACKETED_PRIORITY, input)?;
    if !input.takes("}") {
        return Err(ReadFault::Syntax);
    }
    in_braces(language.alloc, inner)
}

/// The list whose first bracket is behind (6.3.5).
#[inline(never)]
#[cycle(reader)]
#[tactic(auto, unfolding(iso_model::specs::Syntax::Reading::listed))]
fn listed(language: Language<'_>, depth: usize, input: &mut Input<'_>) -> Result<Node, ReadFault>
    ensures read { Gives node_of (reading.listed (terms_in language.entry depth) input.old) result input.new }
    ensures height { IfOk result (λ node. node.height ≤ depth) }
    ensures shorter { OnOk result (length input.new.tokens ≤ length input.old.tokens) }
{
    let row = elements(language, depth, input)?;
    list_end(language, depth, row, input)
}

/// The list of these elements before a tail (6.3.5), where the bracket that closes it is next.
#[inline(never)]
fn list_closed(
    alloc: Global,
    row: Row,
    tail: Node,
    input: &mut Input<'_>,
) -> Result<Node, ReadFault>
    requires { max row.height tail.height + 1 < 2 ^ 64 }
    ensures read { Gives node_of (reading.closing (codes "]") (grammar.closed (lists.list_before (map term_of row.terms.items) (term_of tail.term)) (max row.height tail.height + 1)) input.old) result input.new }
    ensures height { IfOk result (λ node. node.height ≡ max row.height tail.height + 1) }
    ensures shorter { OnOk result (length input.new.tokens ≤ length input.old.tokens) }
{
    if !input.takes("]") {
        return Err(ReadFault::Syntax);
    }
    let height = row.height.max(tail.height);
    let list = list_before(alloc, row.terms, tail.term)?;
    Ok(closed(list, height + 1))
}

/// What closes a list behind its elements: a tail and the last bracket, or that bracket alone.
#[inline(never)]
#[cycle(reader)]
#[tactic(auto, unfolding(iso_model::specs::Syntax::Reading::list_end))]
fn list_end(
    language: Language<'_>,
    depth: usize,
    row: Row,
    input: &mut Input<'_>,
) -> Result<Node, ReadFault>
    requires { row.height < depth }
    ensures read { Gives node_of (reading.list_end (terms_in language.entry depth) (row_of row) input.old) result input.new }
    ensures height { IfOk result (λ node. node.height ≤ depth) }
    ensures shorter { OnOk result (length input.new.tokens ≤ length input.old.tokens) }
{
    if input.takes("|") {
        let tail = read_term(language, depth, ARGUMENT_PRIORITY, input)?;
        return list_closed(language.alloc, row, tail, input);
    }
    let tail = closed(nil(language.alloc)?, 0);
    list_closed(language.alloc, row, tail, input)
}

/// The operator that the next token is, where it may take this operand on its left.
#[inline(never)]
#[tactic(auto, unfolding(iso_model::specs::Syntax::Reading::operator_behind))]
fn operator_behind(
    language: Language<'_>,
    most: u16,
    left: &Node,
    input: &mut Input<'_>,
) -> Result<Option<Following>, AllocError>
    ensures found { IfOk result (λ found. option_map following_of found ≡ reading.operator_behind language.entry.ops.now language.entry.flags.now most (node_of left.now) input.old) }
    ensures same { input.new ≡ input.old }
{
    let Some(found) = input.following(language)? else {
        return Ok(None);
    };
    if fits(most, left, operator_in(&found)) {
        Ok(Some(found))
    } else {
        Ok(None)
    }
}

/// The operators that go on from an operand in a place of at most this priority.
#[inline(never)]
#[cycle(reader)]
fn climb(
    language: Language<'_>,
    depth: usize,
    most: u16,
    first: Node,
    input: &mut Input<'_>,
) -> Result<Node, ReadFault>
    requires { first.height ≤ depth }
    ensures read { Gives node_of (reading.continued language.entry.ops.now language.entry.flags.now (terms_in language.entry depth) depth most (node_of first) input.old) result input.new }
    ensures height { IfOk result (λ node. node.height ≤ depth) }
    ensures shorter { OnOk result (length input.new.tokens ≤ length input.old.tokens) }
{
    let mut left = first;
    while let Some(following) = operator_behind(language, most, &left, input)? {
        input.next();
        extend(language, depth, &mut left, following, input)?;
    }
    Ok(left)
}

/// Extends an operand by the operator behind it, and by that operator's right operand where it has one.
#[inline(never)]
#[cycle(reader)]
#[tactic(auto, unfolding(iso_model::specs::Syntax::Reading::extended))]
fn extend(
    language: Language<'_>,
    depth: usize,
    left: &mut Node,
    following: Following,
    input: &mut Input<'_>,
) -> Result<(), ReadFault>
    ensures read { Gives (λ _. node_of left.new) (reading.extended language.entry.ops.now language.entry.flags.now (terms_in language.entry depth) depth (node_of left.old) (following_of following) input.old) result input.new }
    ensures height { IfOk result (λ _. (left.old.height < left.new.height) × (left.new.height ≤ depth)) }
    ensures shorter { OnOk result (length input.new.tokens ≤ length input.old.tokens) }
{
    if left.height >= depth {
        return Err(ReadFault::Syntax);
    }
    match following {
        Following::Between(operator) => {
            let right = read_term(language, depth, right_of(&operator), input)?;
            join(language.alloc, left, operator, right)
        }
        Following::Behind(operator) => apply(language.alloc, operator, left),
    }
}
