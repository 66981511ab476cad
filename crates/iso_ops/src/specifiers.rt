//! Specifiers of operators (6.3.4).
ghost use Rattle.std.specs.Prelude.{◌≡◌};
ghost use Rattle.iso_ops.specs.Specifiers as specifiers;
ghost use Rattle.iso_ops.specs.Specifiers.{spec_text, spec_named, kind_of, same_kind};

/// An operator's specifier: where its operands stand, and which priorities they may have (6.3.4.1). An `x` operand
/// has a lower priority than the operator, a `y` operand at most the same.
#[derive(Clone, Copy, Debug, PartialEq, Eq)]
pub enum Spec {
    /// Between two operands of lower priority.
    Xfx,
    /// Between two operands, of which the right one may have the same priority.
    Xfy,
    /// Between two operands, of which the left one may have the same priority.
    Yfx,
    /// Before an operand of lower priority.
    Fx,
    /// Before an operand of at most the same priority.
    Fy,
    /// Behind an operand of lower priority.
    Xf,
    /// Behind an operand of at most the same priority.
    Yf,
}

/// Where an operator stands. A name can be an operator of more than one kind.
#[derive(Clone, Copy, Debug, PartialEq, Eq)]
pub enum Kind {
    /// Before its operand.
    Prefix,
    /// Between its operands.
    Infix,
    /// Behind its operand.
    Postfix,
}

impl Spec {
    /// The specifier that is written so, if there is one.
    pub fn named(text: &str) -> Option<Spec>
        ensures { result ≡ spec_named text.now }
    {
        match text {
            "xfx" => Some(Spec::Xfx),
            "xfy" => Some(Spec::Xfy),
            "yfx" => Some(Spec::Yfx),
            "fx" => Some(Spec::Fx),
            "fy" => Some(Spec::Fy),
            "xf" => Some(Spec::Xf),
            "yf" => Some(Spec::Yf),
            _ => None,
        }
    }

    /// How the specifier is written.
    pub fn text(self) -> &'static str
        ensures { result.now ≡ spec_text self }
    {
        match self {
            Spec::Xfx => "xfx",
            Spec::Xfy => "xfy",
            Spec::Yfx => "yfx",
            Spec::Fx => "fx",
            Spec::Fy => "fy",
            Spec::Xf => "xf",
            Spec::Yf => "yf",
        }
    }

    /// Where an operator of this specifier stands.
    pub fn kind(self) -> Kind
        ensures { result ≡ kind_of self }
    {
        match self {
            Spec::Xfx | Spec::Xfy | Spec::Yfx => Kind::Infix,
            Spec::Fx | Spec::Fy => Kind::Prefix,
            Spec::Xf | Spec::Yf => Kind::Postfix,
        }
    }

    /// Whether an operator of this specifier takes a left operand of its own priority (6.3.4, table 4).
    pub fn takes_equal(self) -> bool
        ensures { result ≡ specifiers.takes_equal self }
    {
        matches!(self, Spec::Yfx | Spec::Yf)
    }

    /// Whether it takes a right operand of its own priority.
    pub fn is_right_open(self) -> bool
        ensures { result ≡ specifiers.is_right_open self }
    {
        matches!(self, Spec::Xfy | Spec::Fy)
    }

    /// The greatest priority of its left operand, where its own is this.
    pub fn left_priority(self, priority: u16) -> u16
        ensures { result ≡ specifiers.left_priority self priority }
    {
        if self.takes_equal() {
            priority
        } else {
            priority.saturating_sub(1)
        }
    }

    /// The greatest priority of its right operand, where its own is this.
    pub fn right_priority(self, priority: u16) -> u16
        ensures { result ≡ specifiers.right_priority self priority }
    {
        if self.is_right_open() {
            priority
        } else {
            priority.saturating_sub(1)
        }
    }
}
