//! What operations give, in range or out of it (9.1.7, 9.3.10, 9.4).
ghost use Rattle.std.specs.Prelude.{◌≡◌, ℕ, ◌<◌, ◌≤◌, ◌^◌, ◌*ℤ◌, pos, unsigned_abs};
ghost use Rattle.iso_model.specs.Search.Arithmetic.{in_range, power, shifted, floored_by};
ghost use Rattle.iso_arith.specs.Faults.{value_of};
ghost use Rattle.iso_arith.specs.Operations.{does_unary, does_binary};

use super::faults::Refusal;
use super::quotients::{divided, divided_whole, modulo, remainder, rounded_down};

/// An operation of one argument.
#[derive(Clone, Copy, Debug)]
pub enum Unary {
    /// `-`
    Negate,
    /// `abs`
    Absolute,
    /// `sign`
    Sign,
    /// `\`
    Complement,
}

/// An operation of two arguments.
#[derive(Clone, Copy, Debug)]
pub enum Binary {
    /// `+`
    Add,
    /// `-`
    Subtract,
    /// `*`
    Multiply,
    /// `//`
    Divide,
    /// `rem`
    Remainder,
    /// `div`
    DivideDown,
    /// `mod`
    Modulo,
    /// `/`
    DivideWhole,
    /// `min`
    Least,
    /// `max`
    Greatest,
    /// `^`
    Power,
    /// `/\`
    And,
    /// `\/`
    Or,
    /// `<<`
    ShiftLeft,
    /// `>>`
    ShiftRight,
}

impl Unary {
    /// The value for this argument, or why there is none.
    pub fn of(self, x: i128) -> Result<i128, Refusal>
        ensures { value_of result ≡ does_unary self x }
    {
        match self {
            Unary::Negate => x.checked_neg().ok_or(Refusal::Overflow),
            Unary::Absolute => x.checked_abs().ok_or(Refusal::Overflow),
            Unary::Sign => Ok(x.signum()),
            Unary::Complement => Ok(!x),
        }
    }
}

impl Binary {
    /// The value for these arguments, or why there is none.
    pub fn of(self, x: i128, y: i128) -> Result<i128, Refusal>
        ensures { value_of result ≡ does_binary self x y }
    {
        match self {
            Binary::Add => x.checked_add(y).ok_or(Refusal::Overflow),
            Binary::Subtract => x.checked_sub(y).ok_or(Refusal::Overflow),
            Binary::Multiply => x.checked_mul(y).ok_or(Refusal::Overflow),
            Binary::Divide => divided(x, y),
            Binary::Remainder => remainder(x, y),
            Binary::DivideDown => rounded_down(x, y),
            Binary::Modulo => modulo(x, y),
            Binary::DivideWhole => divided_whole(x, y),
            Binary::Least => Ok(x.min(y)),
            Binary::Greatest => Ok(x.max(y)),
            Binary::Power => raised(x, y),
            Binary::And => Ok(x & y),
            Binary::Or => Ok(x | y),
            Binary::ShiftLeft => shifted_left(x, y),
            Binary::ShiftRight => shifted_right(x, y),
        }
    }
}

/// `^` for an exponent that isn't negative.
fn raised_to(x: i128, exponent: u128) -> Result<i128, Refusal>
    ensures { value_of result ≡ power x (pos exponent) }
{
    if x == 1 {
        return Ok(1);
    }
    if x == 0 {
        return Ok(if exponent == 0 { 1 } else { 0 });
    }
    if x == -1 {
        return Ok(if exponent % 2 == 0 { 1 } else { -1 });
    }
    if exponent >= 128 {
        return Err(Refusal::Overflow);
    }
    x.checked_pow(exponent as u32).ok_or(Refusal::Overflow)
}

/// `^`: the power; where the exponent is negative, that of 1 or -1.
fn raised(x: i128, y: i128) -> Result<i128, Refusal>
    ensures { value_of result ≡ power x y }
{
    if y < 0 && x != 1 && x != -1 {
        return Err(Refusal::NotFloat(x));
    }
    raised_to(x, y.unsigned_abs())
}

/// `<<`: the product with a power of two.
fn shifted_left(x: i128, y: i128) -> Result<i128, Refusal>
    ensures { value_of result ≡ shifted (λ n. x *ℤ pos (2 ^ n)) y }
{
    match y {
        0..=126 => x.checked_mul(1 << y).ok_or(Refusal::Overflow),
        127 => match x {
            0 => Ok(0),
            -1 => Ok(i128::MIN),
            _ => Err(Refusal::Overflow),
        },
        _ => Err(Refusal::Undefined),
    }
}

/// `>>`: the quotient by a power of two, rounded down.
fn shifted_right(x: i128, y: i128) -> Result<i128, Refusal>
    ensures { value_of result ≡ shifted (λ n. floored_by x (2 ^ n)) y }
{
    match y {
        0..=127 => Ok(x >> y),
        _ => Err(Refusal::Undefined),
    }
}
