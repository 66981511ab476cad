//! The styles in which terms are written.
ghost use Rattle.std.specs.Prelude.{◌≡◌};
ghost use Rattle.iso_model.specs.Syntax.Pieces as pieces;
ghost use Rattle.iso_write.specs.Styles.{style_of};

/// How terms are written (8.14.2): as `write`, `writeq` and `write_canonical` do.
#[derive(Clone, Copy, Debug, PartialEq, Eq)]
pub enum Style {
    /// Operators are written as such and numbered variables as letters, and no name is quoted.
    Write,
    /// Operators are written as such and numbered variables as letters, and a name is quoted where it needs it.
    Writeq,
    /// Functional notation and lists, and a name is quoted where it needs it.
    Canonical,
}

impl Style {
    /// Whether names are quoted where they need it.
    pub(crate) fn quotes(self) -> bool
        ensures { result ≡ pieces.quotes (style_of self) }
    {
        match self {
            Style::Write => false,
            Style::Writeq | Style::Canonical => true,
        }
    }

    /// Whether operators are written as such.
    pub(crate) fn uses_operators(self) -> bool
        ensures { result ≡ pieces.uses_operators (style_of self) }
    {
        match self {
            Style::Write | Style::Writeq => true,
            Style::Canonical => false,
        }
    }

    /// Whether `'$VAR'(N)` is written as a numbered variable.
    pub(crate) fn numbers_variables(self) -> bool
        ensures { result ≡ pieces.numbers_variables (style_of self) }
    {
        matches!(self, Style::Write | Style::Writeq)
    }
}
