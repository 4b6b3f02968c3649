//! Rounding to odd from integers, to integers and to integral values.

ghost use Rattle.std.specs.Prelude.{◌≡◌, ◌*◌, ◌^◌, ◌<◌, ◌≤◌, ◌%◌, ℕ, Bool, eqb, not, pos, false, if◌then◌else◌};
ghost use Rattle.apfloat_model.specs.{formats.Datum.finite, arithmetic.Exact.sign_of, arithmetic.Exact.magnitude};
ghost use Rattle.apfloat_model.specs.{order.Classes.is_negative, rounding.Flags.Gives, rounding.Flags.bits_of};
ghost use Rattle.apfloat_model.specs.declared.kinds.Round.TheVariants.{TowardPositive, TowardNegative};
ghost use Rattle.apfloat_ieee.specs.FlaggedTypes.{format_of};
ghost use Rattle.round_to_odd.specs.Odd.{IsToOdd};
ghost use Rattle.round_to_odd.specs.Wholes.{IsOddWhole, IsRoundToOddIntegral, to_odd_unsigned, to_odd_signed};

use crate::odd::to_odd;
use apfloat_base::{Category, Float, Round, StatusAnd};
use apfloat_ieee::{Flagged, IeeeFloat};

/// The value of an unsigned integer, rounded to odd, with the flags of rounding toward zero.
pub fn from_u128_odd<S: Flagged>(input: u128) -> StatusAnd<IeeeFloat<S>>
    ensures { let f = format_of S.Flagged in
        Gives (IsToOdd f false (input * 2 ^ f.scale) 1) result }
{
    to_odd(IeeeFloat::from_u128_r(input, Round::TowardZero), false)
}

/// The value of a signed integer, rounded to odd, with the flags of rounding toward zero.
pub fn from_i128_odd<S: Flagged>(input: i128) -> StatusAnd<IeeeFloat<S>>
    ensures { let f = format_of S.Flagged in
        Gives (IsToOdd f (sign_of false input) (magnitude input * 2 ^ f.scale) 1) result }
{
    to_odd(IeeeFloat::from_i128_r(input, Round::TowardZero), input < 0)
}

/// The mode that rounds this value away from zero.
fn outward<S: Flagged>(x: IeeeFloat<S>) -> Round
    ensures { result ≡ (if is_negative x then TowardNegative else TowardPositive) }
{
    if x.is_negative() {
        Round::TowardNegative
    } else {
        Round::TowardPositive
    }
}

/// The value as an unsigned integer of `width` bits, 1 to 128, rounded to odd: the value if it is an integer, otherwise
/// the odd one of the two integers beside it, with INEXACT.
///
/// If that is out of range, the result is the nearer end of the range, or 0 for a NaN, with INVALID_OP alone (IEEE
/// 754-2019 5.8); so it is for -0.5, whose odd integer is -1.
pub fn to_u128_odd<S: Flagged>(x: IeeeFloat<S>, width: usize) -> StatusAnd<u128>
    requires low { 1 ≤ width }
    requires high { width ≤ 128 }
    ensures answer { IsOddWhole (to_odd_unsigned (format_of S.Flagged) width x) (pos result.value)
        (bits_of result.status) }
    ensures fits { result.value < 2 ^ width }
{
    let mut is_exact = true;
    let truncated = x.to_u128_r(width, Round::TowardZero, &mut is_exact);
    if truncated.value % 2 == 1 {
        truncated
    } else {
        x.to_u128_r(width, outward(x), &mut is_exact)
    }
}

/// The value as a signed integer of `width` bits, 2 to 128, rounded to odd, as `to_u128_odd`.
///
/// The least integer of that width is even, so a value that is less than 1 below it is out of range too.
pub fn to_i128_odd<S: Flagged>(x: IeeeFloat<S>, width: usize) -> StatusAnd<i128>
    requires low { 2 ≤ width }
    requires high { width ≤ 128 }
    ensures { IsOddWhole (to_odd_signed (format_of S.Flagged) width x) result.value
        (bits_of result.status) }
{
    let mut is_exact = true;
    let truncated = x.to_i128_r(width, Round::TowardZero, &mut is_exact);
    if truncated.value.unsigned_abs() % 2 == 1 {
        truncated
    } else {
        x.to_i128_r(width, outward(x), &mut is_exact)
    }
}

/// The value rounded to odd to an integral value of its format, with its sign: the value if it is integral, otherwise
/// the odd one of the two integers beside it, with INEXACT. Infinities and zeros are unchanged; a NaN is quieted, with
/// INVALID_OP if it was signaling.
pub fn round_to_odd_integral<S: Flagged>(x: IeeeFloat<S>) -> StatusAnd<IeeeFloat<S>>
    ensures { Gives (IsRoundToOddIntegral (format_of S.Flagged) x) result }
{
    let truncated = x.round_to_integral(Round::TowardZero);
    if is_even(truncated.value) {
        x.round_to_integral(outward(x))
    } else {
        truncated
    }
}

/// Whether a value that is an integer is even. Infinities and NaNs are not.
fn is_even<S: Flagged>(x: IeeeFloat<S>) -> bool
    ensures { (sign : Bool) (t : ℕ) → x ≡ finite sign (t * 2 ^ (format_of S.Flagged).scale)
        → eqb (t % 2) 1 ≡ not result }
{
    match x.category() {
        Category::NaN => false,
        Category::Infinity => false,
        Category::Zero => true,
        Category::Normal => x.scalbn(-1).is_integer(),
    }
}
