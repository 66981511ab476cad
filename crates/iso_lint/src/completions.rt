//! Whether tokens begin a clause: they are one once what is open in them is closed, with a term behind them or
//! without.
ghost use Rattle.std.specs.Prelude.{◌≡◌, ◌++◌, ◌∷◌, [], map, option_map, reverse, IfOk, OnOk, IfSome};
ghost use Rattle.iso_model.specs.Syntax.Grammar as model;
ghost use Rattle.iso_lint.specs.Completions as spec;
ghost use Rattle.iso_lint.specs.Completions.{behind_bracket, closers, goes_on_with, begins_clause};
ghost use Rattle.iso_ops.specs.Entries.{text_of};
ghost use Rattle.iso_token.specs.Shows.{shown};

use iso_lint_core::settings::Settings;
use iso_read::{ReadFault, read_tokens};
use iso_token::{Kind, Token};
use std::alloc::{AllocError, Global};

/// The mark of this text.
pub fn mark(text: &str) -> Token<'_>
    ensures { shown result ≡ spec.mark text.entry.now }
{
    Token {
        kind: Kind::Punct,
        text,
        start: 0,
        after_layout: false,
    }
}

/// The variable `_`.
pub fn anonymous<'t>() -> Token<'t>
    ensures { shown result ≡ spec.anonymous }
{
    Token {
        kind: Kind::Variable,
        text: "_",
        start: 0,
        after_layout: false,
    }
}

/// Whether the tokens are a clause. The error is that memory was refused.
fn is_clause(alloc: Global, settings: &Settings, tokens: &[Token<'_>]) -> Result<bool, AllocError>
    ensures { IfOk result (λ is. is ≡ spec.is_clause settings.now (map shown tokens.now)) }
{
    match read_tokens(alloc, tokens, &settings.ops, &settings.flags) {
        Ok(_) => Ok(true),
        Err(ReadFault::Syntax) => Ok(false),
        Err(ReadFault::NoMemory) => Err(AllocError),
    }
}

/// Whether the token is this mark.
fn is_mark(token: &Token<'_>, mark: &str) -> bool
    ensures { result ≡ model.is_mark mark.now (shown token.now) }
{
    token.kind == Kind::Punct && token.text == mark
}

/// The mark that closes the bracket that the token is, if it is one.
fn closing_mark(token: &Token<'_>) -> Option<&'static str>
    ensures { option_map text_of result ≡ spec.closing_mark (shown token.now) }
{
    if is_mark(token, "(") {
        Some(")")
    } else if is_mark(token, "[") {
        Some("]")
    } else if is_mark(token, "{") {
        Some("}")
    } else {
        None
    }
}

/// Whether the token is a mark that closes a bracket.
fn is_closing(token: &Token<'_>) -> bool
    ensures { result ≡ spec.is_closing (shown token.now) }
{
    is_mark(token, ")") || is_mark(token, "]") || is_mark(token, "}")
}

/// Goes on by a token with the marks that close what is open, of which the innermost is the last. The error is that
/// memory was refused.
fn take_bracket(marks: &mut Vec<&'static str>, token: &Token<'_>) -> Result<(), AllocError>
    ensures { OnOk result (reverse (map text_of marks.new.items) ≡ behind_bracket (reverse (map text_of marks.old.items)) (shown token.now)) }
{
    match closing_mark(token) {
        Some(mark) => {
            marks.push(mark)?;
            Ok(())
        }
        None => {
            if is_closing(token) {
                marks.pop();
            }
            Ok(())
        }
    }
}

/// The marks that close what is open behind the tokens; the innermost is the last. The error is that memory was
/// refused.
pub fn closers_of(alloc: Global, tokens: &[Token<'_>]) -> Result<Vec<&'static str>, AllocError>
    ensures { IfOk result (λ marks. reverse (map text_of marks.items) ≡ closers (map shown tokens.now)) }
{
    let mut marks = Vec::new(alloc);
    for token in tokens {
        take_bracket(&mut marks, token)?;
    }
    Ok(marks)
}

/// Puts these marks behind the tokens, the last one first. The error is that memory was refused.
fn close_all<'t>(tokens: &mut Vec<Token<'t>>, marks: Vec<&'static str>) -> Result<(), AllocError>
    ensures { OnOk result (map shown tokens.new.items ≡ map shown tokens.old.items ++ map spec.mark (reverse (map text_of marks.entry.items))) }
{
    for text in marks.into_iter().rev() {
        tokens.push(mark(text))?;
    }
    Ok(())
}

/// Whether the tokens are a clause with these behind them, once all that is open is closed. The error is that memory
/// was refused.
pub fn goes_on_with<'t>(
    alloc: Global,
    settings: &Settings,
    tokens: &[Token<'t>],
    more: &[Token<'t>],
) -> Result<bool, AllocError>
    ensures { IfOk result (λ does. does ≡ spec.goes_on_with settings.now (map shown tokens.now) (map shown more.now)) }
{
    let marks = closers_of(alloc, tokens)?;
    let mut all = Vec::new(alloc);
    all.extend_from_slice(tokens)?;
    all.extend_from_slice(more)?;
    close_all(&mut all, marks)?;
    is_clause(alloc, settings, &all)
}

/// Whether the tokens begin a clause. The error is that memory was refused.
pub fn begins_clause(
    alloc: Global,
    settings: &Settings,
    tokens: &[Token<'_>],
) -> Result<bool, AllocError>
    ensures { IfOk result (λ does. does ≡ spec.begins_clause settings.now (map shown tokens.now)) }
{
    if goes_on_with(alloc, settings, tokens, &[])? {
        return Ok(true);
    }
    goes_on_with(alloc, settings, tokens, &[anonymous()])
}
