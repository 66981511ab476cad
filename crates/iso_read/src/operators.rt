//! The operators (6.3.4) that tokens are, and whether tokens can begin a prefix operator's operand.
ghost use Rattle.std.specs.Prelude.{◌≡◌, option_map, map, IfOk};
ghost use Rattle.std.specs.String.{string_bytes};
ghost use Rattle.iso_model.specs.Syntax.Grammar as grammar;
ghost use Rattle.iso_model.specs.Syntax.Operators as model;
ghost use Rattle.iso_model.specs.Syntax.Reading as reading;
ghost use Rattle.iso_model.specs.Syntax.Token.{content};
ghost use Rattle.iso_read.specs.Views.{operator_of, following_of, named_so};
ghost use Rattle.iso_token.specs.Shows.{shown};

use crate::input::{is_mark, negates, opens_arguments};
use crate::language::Language;
use iso_ops::Spec;
use iso_token::{Kind, Token};
use std::alloc::{AllocError, Global};

/// An operator, with its name.
#[derive(Debug, Drop)]
pub struct Operator {
    pub name: String,
    /// From 1 to 1200.
    pub priority: u16,
    pub spec: Spec,
}

/// An operator that goes on behind an operand.
#[derive(Debug, Drop)]
pub enum Following {
    /// It stands between that operand and another.
    Between(Operator),
    /// It stands behind that operand.
    Behind(Operator),
}

/// The operator that goes on.
pub fn operator_in(following: &Following) -> &Operator
    ensures { operator_of result.now ≡ reading.operator_of (following_of following.now) }
{
    match following {
        Following::Between(operator) | Following::Behind(operator) => operator,
    }
}

/// The operator of this name with what the table has of it, if it has any.
fn with_name(
    alloc: Global,
    name: &str,
    entry: Option<(u16, Spec)>,
) -> Result<Option<Operator>, AllocError>
    ensures { IfOk result (λ found. option_map operator_of found ≡ option_map (named_so name.now) entry) }
{
    let Some((priority, spec)) = entry else {
        return Ok(None);
    };
    let name = String::from_str(alloc, name)?;
    Ok(Some(Operator {
        name,
        priority,
        spec,
    }))
}

/// The infix operator of this name.
#[tactic(auto, using(crate::proofs::Found::found_at))]
fn infix_named(language: Language<'_>, name: &str) -> Result<Option<Operator>, AllocError>
    ensures { IfOk result (λ found. option_map operator_of found ≡ model.infix_named language.entry.ops.now name.now) }
{
    with_name(language.alloc, name, language.ops.infix(name))
}

/// The postfix operator of this name.
#[tactic(auto, using(crate::proofs::Found::found_at))]
fn postfix_named(language: Language<'_>, name: &str) -> Result<Option<Operator>, AllocError>
    ensures { IfOk result (λ found. option_map operator_of found ≡ model.postfix_named language.entry.ops.now name.now) }
{
    with_name(language.alloc, name, language.ops.postfix(name))
}

/// The infix or postfix operator of this name.
fn following_named(language: Language<'_>, name: &str) -> Result<Option<Following>, AllocError>
    ensures { IfOk result (λ found. option_map following_of found ≡ reading.following_by language.entry.ops.now language.entry.flags.now (model.infix_named language.entry.ops.now name.now) (model.postfix_named language.entry.ops.now name.now)) }
{
    if let Some(operator) = infix_named(language, name)? {
        return Ok(Some(Following::Between(operator)));
    }
    Ok(postfix_named(language, name)?.map(Following::Behind))
}

/// The infix or postfix operator that the token is, which stands for this text.
#[inline(never)]
pub fn operator_at(
    language: Language<'_>,
    token: &Token<'_>,
    text: &str,
) -> Result<Option<Following>, AllocError>
    requires { text.now ≡ content (shown token.now) }
    ensures { IfOk result (λ found. option_map following_of found ≡ reading.following_by language.entry.ops.now language.entry.flags.now (grammar.infix_at language.entry.ops.now (shown token.now)) (grammar.postfix_at language.entry.ops.now (shown token.now))) }
{
    match token.kind {
        Kind::Name | Kind::Quoted => following_named(language, text),
        Kind::Punct => {
            if token.text == "," {
                Ok(infix_named(language, text)?.map(Following::Between))
            } else {
                Ok(None)
            }
        }
        _ => Ok(None),
    }
}

/// Whether this name begins the operand of the prefix operator before it, where these tokens stand behind it.
fn name_begins(
    language: Language<'_>,
    token: &Token<'_>,
    others: &[Token<'_>],
) -> Result<bool, AllocError>
    ensures { IfOk result (λ begins. begins ≡ grammar.name_begins language.entry.ops.now (shown token.now) (map shown others.now)) }
{
    let name = token.content(language.alloc)?;
    let ops = language.ops;
    let goes_on = ops.infix(&name).is_some() || ops.postfix(&name).is_some();
    Ok(
        !goes_on
            || ops.prefix(&name).is_some()
            || opens_arguments(others)
            || negates(token.kind == Kind::Name, &name, others),
    )
}

/// Whether these tokens can begin the operand of a prefix operator.
#[inline(never)]
pub fn begins(language: Language<'_>, tokens: &[Token<'_>]) -> Result<bool, AllocError>
    ensures { IfOk result (λ begins. begins ≡ grammar.begins language.entry.ops.now (map shown tokens.now)) }
{
    match tokens {
        [] => Ok(false),
        [first, others @ ..] => match first.kind {
            Kind::Name | Kind::Quoted => name_begins(language, first, others),
            Kind::Punct => Ok(is_mark(first, "(") || is_mark(first, "[") || is_mark(first, "{")),
            Kind::End | Kind::Bad => Ok(false),
            Kind::Double | Kind::Variable | Kind::Integer => Ok(true),
        },
    }
}
