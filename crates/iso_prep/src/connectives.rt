//! The control constructs of two parts (7.8.5 to 7.8.8).
ghost use Rattle.std.specs.Prelude.{◌≡◌, MatchOption, None};
ghost use Rattle.iso_model.specs.Terms.TermOf.{term_of};
ghost use Rattle.iso_model.specs.Search.Bodies.{two};
ghost use Rattle.iso_prep.specs.Connectives.{text_of, connective_of, control_of};

use iso_model::Term;

/// What joins two parts of a body.
#[derive(Clone, Copy, Debug, PartialEq, Eq)]
pub enum Connective {
    /// `A, B`
    And,
    /// `A ; B`
    Or,
    /// `A -> B`
    If,
}

impl Connective {
    /// Its name as a functor.
    pub fn text(self) -> &'static str
        ensures { result.now ≡ text_of self }
    {
        match self {
            Connective::And => ",",
            Connective::Or => ";",
            Connective::If => "->",
        }
    }
}

/// The connective with this name.
fn connective_named(name: &str) -> Option<Connective>
    ensures { result ≡ connective_of name.now }
{
    match name {
        "," => Some(Connective::And),
        ";" => Some(Connective::Or),
        "->" => Some(Connective::If),
        _ => None,
    }
}

/// A control construct with its two parts, where the term is one.
pub fn control(term: &Term) -> Option<(Connective, &Term, &Term)>
    ensures { MatchOption result (control_of (term_of term.now) ≡ None)
        (λ c. term_of term.now ≡ two (text_of c.0) (term_of c.1.now) (term_of c.2.now)) }
{
    let Term::Compound(name, arguments) = term else {
        return None;
    };
    let [first, second] = arguments.as_slice() else {
        return None;
    };
    let connective = connective_named(name.as_str())?;
    Some((connective, first, second))
}
