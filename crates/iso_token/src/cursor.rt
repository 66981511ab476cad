//! A cursor over the tokens of a text, which cuts each as it is reached.
ghost use Rattle.std.specs.Prelude.{◌≡◌, [], ◌∷◌, MatchOption};
ghost use Rattle.iso_model.specs.Syntax.Tokens.{tokens};
ghost use Rattle.iso_model.specs.Syntax.TokenPlaces.{StandInOrder};
ghost use Rattle.iso_token.specs.Shows.{shown};

use crate::kinds::Token;
use crate::known::{Known, known_behind, nothing_known};
use crate::lexemes::first_lexeme;
use std::marker::Model;

/// The tokens of a text (ISO/IEC 13211-1:1995, 6.4), in order.
#[derive(Debug, Drop)]
pub struct Tokens<'t> {
    rest: &'t str,
    start: usize,
    /// What is known of what is left.
    known: Known,
}

impl<'t> Model for Tokens<'t> {
    ghost use Rattle.std.specs.Prelude.{List};
    ghost use Rattle.iso_model.specs.Syntax.Token.{Shown};

    ghost Value = { List Shown };

    ghost use Rattle.iso_token.specs.Cursor.{tokens_left, IsKept};

    ghost view = { tokens_left };

    ghost invariant = { IsKept };
}

impl<'t> Tokens<'t> {
    /// All tokens of the text. It takes no memory.
    #[tactic(auto, using(iso_model::proofs::Syntax::PlaceLemmas::tokens_stand))]
    pub fn new(text: &'t str) -> Tokens<'t>
        ensures all { result ≡ tokens text.now }
        ensures places { StandInOrder text.now 0 result }
    {
        Tokens {
            rest: text,
            start: 0,
            known: nothing_known(),
        }
    }

    /// The next token; none at the end. It takes no memory.
    pub fn next(&mut self) -> Option<Token<'t>>
        ensures { MatchOption result ((self.old ≡ []) × (self.new ≡ [])) (λ t. self.old ≡ shown t ∷ self.new) }
    {
        let mut after_layout = false;
        while !self.rest.is_empty() {
            let bytes = self.rest.as_bytes();
            let lexeme = first_lexeme(bytes, self.known);
            let known = known_behind(bytes, self.known, lexeme);
            let start = self.start;
            let (text, rest) = self.rest.split_at(lexeme.len);
            self.rest = rest;
            self.start += lexeme.len;
            self.known = known;
            match lexeme.kind {
                Some(kind) => {
                    return Some(Token {
                        kind,
                        text,
                        start,
                        after_layout,
                    });
                }
                None => after_layout = true,
            }
        }
        None
    }
}
