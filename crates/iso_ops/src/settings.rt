//! Flags (7.11).
ghost use Rattle.std.specs.Prelude.{◌≡◌, true, false, map, MatchOption};
ghost use Rattle.std.specs.Option.{option_map};
ghost use Rattle.iso_ops.specs.Settings.{initial_flags, flag_entries, entry_of_flag, flag_value, term_of_value, with_flag, quotes_named, quotes_text, unknown_named, unknown_text};

/// What a double quoted item stands for (the flag `double_quotes`, 7.11.2.5).
#[derive(Clone, Copy, Debug, PartialEq, Eq)]
pub enum DoubleQuotes {
    /// The list of its character codes.
    Codes,
    /// The list of its characters.
    Chars,
    /// The atom with that text.
    Atom,
}

/// What a call of an unknown procedure does (the flag `unknown`, 7.11.2.4).
#[derive(Clone, Copy, Debug, PartialEq, Eq)]
pub enum Unknown {
    /// It raises an existence error.
    Error,
    /// It fails.
    Fail,
}

/// A flag's value.
#[derive(Clone, Copy, Debug, PartialEq, Eq)]
pub enum FlagValue {
    /// An integer.
    Int(i128),
    /// An atom, by its text.
    Word(&'static str),
}

/// The flags. Those that can be set have a field.
#[derive(Clone, Copy, Debug, PartialEq, Eq)]
pub struct Flags {
    /// The flag `double_quotes`.
    pub double_quotes: DoubleQuotes,
    /// The flag `unknown`.
    pub unknown: Unknown,
}

impl DoubleQuotes {
    // The value that is written so, if there is one.
    fn named(text: &str) -> Option<DoubleQuotes>
        ensures { result ≡ quotes_named text.now }
    {
        match text {
            "codes" => Some(DoubleQuotes::Codes),
            "chars" => Some(DoubleQuotes::Chars),
            "atom" => Some(DoubleQuotes::Atom),
            _ => None,
        }
    }

    // How the value is written.
    fn text(self) -> &'static str
        ensures { result.now ≡ quotes_text self }
    {
        match self {
            DoubleQuotes::Codes => "codes",
            DoubleQuotes::Chars => "chars",
            DoubleQuotes::Atom => "atom",
        }
    }
}

impl Unknown {
    // The value that is written so, if there is one.
    fn named(text: &str) -> Option<Unknown>
        ensures { result ≡ unknown_named text.now }
    {
        match text {
            "error" => Some(Unknown::Error),
            "fail" => Some(Unknown::Fail),
            _ => None,
        }
    }

    // How the value is written.
    fn text(self) -> &'static str
        ensures { result.now ≡ unknown_text self }
    {
        match self {
            Unknown::Error => "error",
            Unknown::Fail => "fail",
        }
    }
}

impl Flags {
    /// The flags before any is set.
    pub fn initial() -> Self
        ensures { result ≡ initial_flags }
    {
        Flags {
            double_quotes: DoubleQuotes::Codes,
            unknown: Unknown::Error,
        }
    }

    /// The value of the flag `name`, if there is such a flag.
    pub fn get(&self, name: &str) -> Option<FlagValue>
        ensures { option_map term_of_value result ≡ flag_value self.now name.now }
    {
        match name {
            "bounded" => Some(FlagValue::Word("true")),
            "max_integer" => Some(FlagValue::Int(i128::MAX)),
            "min_integer" => Some(FlagValue::Int(i128::MIN)),
            "integer_rounding_function" => Some(FlagValue::Word("toward_zero")),
            "max_arity" => Some(FlagValue::Int(255)),
            "double_quotes" => Some(FlagValue::Word(self.double_quotes.text())),
            "unknown" => Some(FlagValue::Word(self.unknown.text())),
            _ => None,
        }
    }

    /// Each flag with its value, in the order of `current_prolog_flag/2`.
    pub fn entries(&self) -> [(&'static str, FlagValue); 7]
        ensures { map entry_of_flag result ≡ flag_entries self.now }
    {
        [
            ("bounded", FlagValue::Word("true")),
            ("max_integer", FlagValue::Int(i128::MAX)),
            ("min_integer", FlagValue::Int(i128::MIN)),
            ("integer_rounding_function", FlagValue::Word("toward_zero")),
            ("max_arity", FlagValue::Int(255)),
            ("double_quotes", FlagValue::Word(self.double_quotes.text())),
            ("unknown", FlagValue::Word(self.unknown.text())),
        ]
    }

    /// Sets the flag `name` to `value`. The answer is false, and nothing changes, where there is no such flag, where
    /// it can't be set, or where it has no such value.
    pub fn set(&mut self, name: &str, value: &str) -> bool
        ensures set { MatchOption (with_flag self.old name.now value.now) (self.new ≡ self.old) (λ flags. self.new ≡ flags) }
        ensures answer { MatchOption (with_flag self.old name.now value.now) (result ≡ false) (λ _. result ≡ true) }
    {
        match name {
            "double_quotes" => match DoubleQuotes::named(value) {
                Some(double_quotes) => {
                    self.double_quotes = double_quotes;
                    true
                }
                None => false,
            },
            "unknown" => match Unknown::named(value) {
                Some(unknown) => {
                    self.unknown = unknown;
                    true
                }
                None => false,
            },
            _ => false,
        }
    }
}
