//! What is left of a clause while it is read.
ghost use Rattle.std.specs.Prelude.{◌≡◌, ◌<◌, ◌++◌, [], ◌∷◌, length, map, not, position, nat_lt, if◌then◌else◌, option_map, IfSome, IfOk, MatchOption};
ghost use Rattle.std.specs.Str.{bytes_eq};
ghost use Rattle.std.specs.String.{string_bytes};
ghost use Rattle.iso_model.specs.Syntax.Grammar as model;
ghost use Rattle.iso_model.specs.Syntax.Reading as reading;
ghost use Rattle.iso_model.specs.Syntax.Reading.{rest};
ghost use Rattle.iso_model.specs.Syntax.Token.{content};
ghost use Rattle.iso_read.specs.Views.{following_of};
ghost use Rattle.iso_token.specs.Shows.{shown};

use crate::language::Language;
use crate::names::Names;
use crate::operators::{Following, operator_at};
use iso_token::{Kind, Token};
use std::alloc::{AllocError, Global};
use std::marker::Model;
use std::mem;

/// The tokens that are left of a clause, and the names of the variables so far. What the first token stands for is
/// kept once it was asked for, since each term that ends before it asks.
#[derive(Drop)]
pub struct Input<'c> {
    tokens: &'c [Token<'c>],
    names: Names<'c>,
    content: Option<String>,
}

impl<'c> Model for Input<'c> {
    ghost use Rattle.iso_model.specs.Syntax.Grammar.{Left};

    ghost Value = { Left };

    ghost use Rattle.iso_read.specs.Cursor.{left_of, KeepsContent};

    ghost view = { left_of };

    ghost invariant = { λ input. KeepsContent input.content input.tokens.now };
}

/// Whether the token is this mark of punctuation.
pub fn is_mark(token: &Token<'_>, mark: &str) -> bool
    ensures { result ≡ model.is_mark mark.now (shown token.now) }
{
    token.kind == Kind::Punct && token.text == mark
}

/// Whether the first token is the `(` of an argument list, one with no layout before it (6.3.3).
pub fn opens_arguments(tokens: &[Token<'_>]) -> bool
    ensures { result ≡ model.next_is model.opens_arguments (map shown tokens.now) }
{
    match tokens {
        [first, ..] => is_mark(first, "(") && !first.after_layout,
        [] => false,
    }
}

/// Whether a name, unquoted or not, begins a negative literal before these tokens (6.3.1.2).
pub fn negates(unquoted: bool, name: &str, tokens: &[Token<'_>]) -> bool
    ensures { result ≡ model.negates unquoted name.now (map shown tokens.now) }
{
    match tokens {
        [first, ..] => {
            unquoted && name == "-" && first.kind == Kind::Integer && !first.after_layout
        }
        [] => false,
    }
}

/// What the token stands for, which may be known.
fn content_of(alloc: Global, known: Option<String>, token: &Token<'_>) -> Result<String, AllocError>
    requires { IfSome known (λ text. string_bytes text ≡ content (shown token.now)) }
    ensures { IfOk result (λ text. string_bytes text ≡ content (shown token.now)) }
{
    match known {
        Some(text) => Ok(text),
        None => token.content(alloc),
    }
}

impl<'c> Input<'c> {
    /// These tokens, and no variable so far.
    pub fn new(alloc: Global, tokens: &'c [Token<'c>]) -> Input<'c>
        ensures { result ≡ model.start_of (map shown tokens.now) }
    {
        Input {
            tokens,
            names: Names::new(alloc),
            content: None,
        }
    }

    /// The infix or postfix operator that the next token is.
    pub fn following(&mut self, language: Language<'_>) -> Result<Option<Following>, AllocError>
        ensures found { IfOk result (λ found. option_map following_of found ≡ reading.next_operator language.entry.ops.now language.entry.flags.now self.old.tokens) }
        ensures same { self.new ≡ self.old }
    {
        match self.tokens {
            [] => Ok(None),
            [first, ..] => {
                let kept = mem::replace(&mut self.content, None);
                let content = content_of(language.alloc, kept, first)?;
                let found = operator_at(language, first, content.as_str());
                self.content = Some(content);
                found
            }
        }
    }

    /// The tokens that are left.
    pub fn tokens(&self) -> &'c [Token<'c>]
        ensures { map shown result.now ≡ self.now.tokens }
    {
        self.tokens
    }

    /// The next token.
    pub fn next(&mut self) -> Option<Token<'c>>
        ensures token { MatchOption result (self.old.tokens ≡ []) (λ t. self.old ≡ model.before (shown t) self.new) }
        ensures after { self.new ≡ rest self.old }
    {
        match self.tokens {
            [] => None,
            [first, rest @ ..] => {
                self.content = None;
                self.tokens = rest;
                Some(*first)
            }
        }
    }

    /// Whether the next token is this mark; it is taken then.
    pub fn takes(&mut self, mark: &str) -> bool
        ensures taken { result ≡ model.next_is (model.is_mark mark.now) self.old.tokens }
        ensures after { self.new ≡ (if result then rest self.old else self.old) }
    {
        match self.tokens {
            [first, rest @ ..] if is_mark(first, mark) => {
                self.content = None;
                self.tokens = rest;
                true
            }
            _ => false,
        }
    }

    /// The number of the variable of this name, at one more occurrence.
    pub fn variable(&mut self, name: &'c str) -> Result<u64, AllocError>
        ensures { IfOk result (λ number. (number ≡ model.number_of name.now self.old.names) × (self.new ≡ model.with_name name.now self.old)) }
    {
        let number = self.names.number(name)?;
        Ok(number as u64)
    }

    /// Whether no token is left.
    pub fn is_empty(&self) -> bool
        ensures { result ≡ not (nat_lt 0 (length self.now.tokens)) }
    {
        self.tokens.is_empty()
    }

    /// The named variables but `_`, in the order of their first occurrence, each with its number.
    pub fn into_names(self, alloc: Global) -> Result<Vec<(String, u64)>, AllocError>
        ensures { IfOk result (λ numbered. map (λ entry. (string_bytes entry.0, entry.1)) numbered.items ≡ model.numbered 0 self.entry.names) }
    {
        let Input { names, .. } = self;
        names.numbered(alloc)
    }
}
