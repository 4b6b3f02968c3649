//! The digits of a value in groups of four.

ghost use Rattle.std.specs.Prelude.{◌≡◌, ◌≢◌, ◌⊎◌, ℕ, ◌+◌, ◌-◌, ◌*◌, ◌%◌, ◌^◌, ◌<◌, ◌≤◌, pos, ◌-ℤ◌};
ghost use Rattle.apfloat_model.specs.{arithmetic.Exponents.IsLogarithm, order.Classes.quanta_of};
ghost use Rattle.apfloat_model.specs.{order.Positive.IsPositive, rounding.Bounds.IsWithin};
ghost use Rattle.apfloat_ieee.specs.Types.{format_of};
ghost use Rattle.apfloat_digits.specs.hexadecimal.HexTexts.{IsNumberOf};

use apfloat_base::ExpInt;
use apfloat_decimals::exponents::exponent_above;
use apfloat_ieee::{IeeeFloat, Semantics};

/// How many digits after the dot a significand has here.
pub(crate) const PLACES: u32 = 31;

/// A positive value: 125 binary digits, the first of which has that exponent.
#[derive(Clone, Copy)]
pub(crate) struct Aligned {
    pub digits: u128,
    pub exponent: ExpInt,
}

/// The digits of a positive value.
pub(crate) fn digits_of<S: Semantics>(x: IeeeFloat<S>) -> Aligned
    requires { IsPositive (format_of S.Semantics) x }
    ensures low { 2 ^ 124 ≤ result.digits }
    ensures high { result.digits < 2 ^ 125 }
    ensures within { IsWithin (2 ^ 22) result.exponent }
    ensures first { IsLogarithm (format_of S.Semantics) (quanta_of x) result.exponent }
    ensures number { IsNumberOf (format_of S.Semantics) (quanta_of x) result.digits 31
        result.exponent }
{
    let number = x.number();
    let precision = S::PRECISION as u32;
    Aligned {
        digits: number.significand << (125 - precision),
        exponent: exponent_above(number.exponent, precision - 1),
    }
}

/// Digits after a dot.
#[derive(Clone, Copy)]
pub(crate) struct Fraction {
    pub places: u32,
    pub digits: u128,
}

/// The 31 digits of a fraction without the zeros at their end.
pub(crate) fn shortened(fraction: u128) -> Fraction
    requires { fraction < 2 ^ 124 }
    ensures few { result.places ≤ 31 }
    ensures fits { result.digits < 16 ^ result.places }
    ensures same { fraction ≡ result.digits * 16 ^ (31 - result.places) }
    ensures last { (result.places ≡ 0) ⊎ (result.digits % 16 ≢ 0) }
{
    let mut places = PLACES;
    let mut digits = fraction;
    while places > 0 && digits % 16 == 0 {
        places -= 1;
        digits /= 16;
    }
    Fraction { places, digits }
}
