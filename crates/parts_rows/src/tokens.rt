//! Texts with their tokens, and what tokens stand for (6.4).
use super::rows::{field, say, text};
use anyhow::{Context, Result};
use iso_token::{Kind, Token, Tokens};
use std::alloc::Global;

/// Each token of the text as its kind, text and place, with `~` before those behind layout.
pub fn tokens(alloc: Global, row: &str) -> Result<String> {
    let mut out = String::new(alloc);
    let text = text(alloc, row)?;
    let mut tokens = Tokens::new(text.as_str());
    for _ in 0..text.len() {
        let Some(token) = tokens.next() else {
            break;
        };
        let gap = if token.after_layout { "~" } else { "" };
        let fact = format!(in alloc; "{gap}{:?} {} {}", token.kind, token.text, token.start)?;
        say(&mut out, fact.as_str())?;
    }
    Ok(out)
}

/// The first token of the text or, where the row names a kind, the token of that kind that the text is.
fn made<'a>(kind: Option<&str>, text: &'a str) -> Option<Token<'a>> {
    let kind = match kind {
        None => return Tokens::new(text).next(),
        Some("name") => Kind::Name,
        Some(_) => Kind::Quoted,
    };
    Some(Token {
        kind,
        text,
        start: 0,
        after_layout: false,
    })
}

/// The value of a token as an integer, if it has one, and the characters that it stands for.
pub fn token(alloc: Global, row: &str) -> Result<String> {
    let mut out = String::new(alloc);
    let text = text(alloc, row)?;
    let token = made(field(row, "kind"), text.as_str()).context("no token")?;
    if let Some(value) = token.magnitude() {
        say(&mut out, format!(in alloc; "{value}")?.as_str())?;
    }
    say(&mut out, token.content(alloc)?.as_str())?;
    Ok(out)
}

/// How many tokens the text has, and how many of them are bad characters.
pub fn counted(alloc: Global, row: &str) -> Result<String> {
    let text = text(alloc, row)?;
    let mut tokens = Tokens::new(text.as_str());
    let (mut all, mut bad) = (0u64, 0u64);
    for _ in 0..text.len() {
        let Some(token) = tokens.next() else {
            break;
        };
        all = all.saturating_add(1);
        if token.kind == Kind::Bad {
            bad = bad.saturating_add(1);
        }
    }
    Ok(format!(in alloc; "  {all} tokens, {bad} bad\n")?)
}
