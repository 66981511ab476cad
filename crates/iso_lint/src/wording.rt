//! What messages say.
use crate::faults::{Expected, Fault};
use crate::findings::{Procedure, What};
use crate::messages::Message;
use iso_token::{Kind, Token};
use std::fmt;
use std::fmt::Write;

/// The most bytes of a token's text that a message shows.
const MOST_SHOWN: usize = 60;

/// Writes a text within one line.
fn write_text<W: fmt::Write>(f: &mut fmt::Formatter<W>, text: &str) -> fmt::Result {
    for c in text.chars() {
        if c == '\n' {
            f.write_str("\\n")?;
        } else {
            f.write_char(c)?;
        }
    }
    Ok(())
}

/// Writes the token that was found.
fn write_token<W: fmt::Write>(f: &mut fmt::Formatter<W>, token: &Token<'_>) -> fmt::Result {
    if token.text.len() > MOST_SHOWN {
        return f.write_str("a long token");
    }
    f.write_str("`")?;
    write_text(f, token.text)?;
    f.write_str("`")
}

/// Why no token begins with this character.
fn bad_character(token: &Token<'_>) -> &'static str {
    if token.text.starts_with("'") || token.text.starts_with("\"") {
        "this quoted item is never closed, or has an escape that is none"
    } else if token.text.starts_with("/") {
        "this comment is never closed"
    } else {
        "this character begins no token"
    }
}

/// Writes one of the things that could stand there, behind so many others.
fn write_one<W: fmt::Write>(
    f: &mut fmt::Formatter<W>,
    is_first: bool,
    thing: &str,
) -> Result<bool, fmt::Error> {
    if !is_first {
        f.write_str(" or ")?;
    }
    f.write_str(thing)?;
    Ok(false)
}

/// What ends the innermost part.
fn ending_of(closer: Option<&'static str>) -> &'static str {
    match closer {
        Some(")") => "`)`",
        Some("]") => "`]`",
        Some("}") => "`}`",
        _ => "an end token",
    }
}

impl fmt::Display for Expected {
    fn fmt<W: fmt::Write>(&self, f: &mut fmt::Formatter<W>) -> fmt::Result {
        let mut is_first = true;
        if self.term {
            is_first = write_one(f, is_first, "a term")?;
        }
        if self.ending {
            is_first = write_one(f, is_first, "an operator")?;
        }
        if self.comma && self.closer.is_some() {
            is_first = write_one(f, is_first, "`,`")?;
        }
        if self.bar {
            is_first = write_one(f, is_first, "`|`")?;
        }
        if self.ending {
            write_one(f, is_first, ending_of(self.closer))?;
        }
        Ok(())
    }
}

impl fmt::Display for Fault<'_> {
    fn fmt<W: fmt::Write>(&self, f: &mut fmt::Formatter<W>) -> fmt::Result {
        match &self.token {
            Some(token) if token.kind == Kind::Bad => {
                f.write_str("syntax error: ")?;
                f.write_str(bad_character(token))
            }
            Some(token) => {
                write!(f, "syntax error: {} is expected, not ", self.expected)?;
                write_token(f, token)
            }
            None if self.ended => {
                write!(
                    f,
                    "syntax error: {} is expected, not the end token",
                    self.expected
                )
            }
            None => write!(
                f,
                "syntax error: {} is expected, not the end of the text",
                self.expected
            ),
        }
    }
}

impl fmt::Display for Procedure {
    fn fmt<W: fmt::Write>(&self, f: &mut fmt::Formatter<W>) -> fmt::Result {
        write_text(f, self.name.as_str())?;
        write!(f, "/{}", self.arity)
    }
}

/// Its `Display` is a line without its end: line, column, and what is to be said.
impl fmt::Display for Message<'_> {
    fn fmt<W: fmt::Write>(&self, f: &mut fmt::Formatter<W>) -> fmt::Result {
        write!(f, "{}:{}: ", self.place.line, self.place.column)?;
        match &self.what {
            What::Broken(fault) => write!(f, "{fault}"),
            What::Once(name) => write!(f, "the variable {name} occurs once in this clause"),
            What::Apart(procedure, _) => {
                write!(f, "the clauses of {procedure} are not together")?;
                match &self.before {
                    Some(place) => write!(
                        f,
                        "; one before begins at {}:{}",
                        place.line, place.column
                    ),
                    None => Ok(()),
                }
            }
            What::Unknown(procedure) => write!(f, "{procedure} is called and not defined"),
        }
    }
}
