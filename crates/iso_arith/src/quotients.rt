//! Quotients and what they leave (9.1.3, 9.1.7).
ghost use Rattle.std.specs.Prelude.{◌≡◌, int_div};
ghost use Rattle.std.specs.Int.{w128, IsNonZero};
ghost use Rattle.iso_model.specs.Search.Arithmetic.{in_range, unless_zero, floored, rest, whole};
ghost use Rattle.iso_arith.specs.Faults.{value_of};
ghost use Rattle.iso_arith.specs.Quotients as cut;

use super::faults::Refusal;

/// `//`: the quotient cut toward zero.
pub(crate) fn divided(x: i128, y: i128) -> Result<i128, Refusal>
    ensures { value_of result ≡ unless_zero y (in_range (int_div x y)) }
{
    if y == 0 {
        return Err(Refusal::ZeroDivisor);
    }
    x.checked_div(y).ok_or(Refusal::Overflow)
}

/// `rem`: what the quotient that is cut toward zero leaves, with the dividend's sign.
pub(crate) fn remainder(x: i128, y: i128) -> Result<i128, Refusal>
    ensures { value_of result ≡ unless_zero y (in_range (rest x y (int_div x y))) }
{
    if y == 0 {
        return Err(Refusal::ZeroDivisor);
    }
    Ok(x.wrapping_rem(y))
}

/// Whether the quotient is cut upwards where it is cut toward zero: what it leaves has not the divisor's sign.
fn is_cut_upwards(x: i128, y: i128) -> bool
    requires { IsNonZero w128 y }
    ensures { result ≡ cut.is_cut_upwards x y }
{
    let left = x.wrapping_rem(y);
    if y < 0 { 0 < left } else { left < 0 }
}

/// `div`: the quotient rounded down.
pub(crate) fn rounded_down(x: i128, y: i128) -> Result<i128, Refusal>
    ensures { value_of result ≡ unless_zero y (in_range (floored x y)) }
{
    if y == 0 {
        return Err(Refusal::ZeroDivisor);
    }
    let quotient = x.checked_div(y).ok_or(Refusal::Overflow)?;
    if is_cut_upwards(x, y) {
        return quotient.checked_sub(1).ok_or(Refusal::Overflow);
    }
    Ok(quotient)
}

/// `mod`: what the quotient that is rounded down leaves, with the divisor's sign.
pub(crate) fn modulo(x: i128, y: i128) -> Result<i128, Refusal>
    ensures { value_of result ≡ unless_zero y (in_range (rest x y (floored x y))) }
{
    if y == 0 {
        return Err(Refusal::ZeroDivisor);
    }
    let left = x.wrapping_rem(y);
    if is_cut_upwards(x, y) {
        return left.checked_add(y).ok_or(Refusal::Overflow);
    }
    Ok(left)
}

/// `/`: the quotient where it is whole.
pub(crate) fn divided_whole(x: i128, y: i128) -> Result<i128, Refusal>
    ensures { value_of result ≡ unless_zero y (whole x y) }
{
    if y == 0 {
        return Err(Refusal::ZeroDivisor);
    }
    if x.wrapping_rem(y) != 0 {
        return Err(Refusal::Undefined);
    }
    x.checked_div(y).ok_or(Refusal::Overflow)
}
