//! Worked values of expressions. All are the contract of a function that does nothing.
ghost use Rattle.iso_model.specs.Worked.Arithmetic.{QuotientsAreRounded, LeastIsDivided, PowersAreWhole, ShiftsAreProducts, FirstErrorComes};

/// What expressions come to, operation by operation.
pub fn worked_arithmetic()
    // `7 // -2` is -3, and `7 div -2` is -4 (9.1.3; 9.1.7).
    ensures quotients { QuotientsAreRounded }
    // The least integer divided by -1 is out of range, its remainder is 0 (9.1.3).
    ensures least { LeastIsDivided }
    // `2 ^ -1` is no whole number (9.3.10).
    ensures powers { PowersAreWhole }
    // A shift is a product or a quotient that is rounded down (9.4.1, 9.4.2).
    ensures shifts { ShiftsAreProducts }
    // The functor is looked at first, then the arguments from the left (7.9.1, 7.9.2).
    ensures errors { FirstErrorComes }
{}
