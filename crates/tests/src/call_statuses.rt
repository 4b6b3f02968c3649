//! OVERFLOW and UNDERFLOW are raised only together with INEXACT: each function makes the calls of one kind, and its
//! contract states this for their statuses.

ghost use Rattle.std.specs.Prelude.{◌≤◌, Bool};
ghost use Rattle.rustc_apfloat.specs.{Conversions.IsConversion, Flags.Gives, Flags.bits_of};
ghost use Rattle.rustc_apfloat.specs.FusedSums.{IsFusedSum, fused_limit};
ghost use Rattle.rustc_apfloat.specs.{NextUp.IsNextDown, NextUp.IsNextUp, Parsing.IsRead, Products.IsProduct};
ghost use Rattle.rustc_apfloat.specs.{Products.product_limit, Quotients.IsQuotient, RaisedFlags.FlagsGoTogether};
ghost use Rattle.rustc_apfloat.specs.Remainders.{IsNearestRemainder, IsTruncatedRemainder};
ghost use Rattle.rustc_apfloat.specs.{Roots.IsRoot, Sums.IsDifference, Sums.IsSum, FlaggedTypes.format_of};
ghost use Rattle.rustc_apfloat.specs.WholeNumbers.{IsFromSigned, IsFromUnsigned, IsRoundToIntegral};
ghost use Rattle.rustc_apfloat.specs.WholeNumbersOut.{IsToSigned, IsToUnsigned};
ghost use Rattle.tests.specs.Statuses.{HasFlagsTogether};

use rustc_apfloat::ieee::{Flagged, IeeeFloat};
use rustc_apfloat::{Float, FloatConvert, ParseError, Round, StatusAnd};

/// A sum and a difference.
pub fn sum_and_difference<S: Flagged>(
    x: IeeeFloat<S>,
    y: IeeeFloat<S>,
    mode: Round,
) -> (StatusAnd<IeeeFloat<S>>, StatusAnd<IeeeFloat<S>>)
    ensures adds { Gives (IsSum (format_of S.Flagged) mode x y) result.0 }
    ensures subtracts { Gives (IsDifference (format_of S.Flagged) mode x y) result.1 }
    ensures sum { FlagsGoTogether (bits_of result.0.status) }
    ensures difference { FlagsGoTogether (bits_of result.1.status) }
{
    (x.add_r(y, mode), x.sub_r(y, mode))
}

/// A product.
pub fn product<S: Flagged>(x: IeeeFloat<S>, y: IeeeFloat<S>, mode: Round) -> StatusAnd<IeeeFloat<S>>
    requires { S.PRECISION ≤ product_limit }
    ensures multiplies { Gives (IsProduct (format_of S.Flagged) mode x y) result }
    ensures flags { FlagsGoTogether (bits_of result.status) }
{
    x.mul_r(y, mode)
}

/// A product plus an addend.
pub fn fused_sum<S: Flagged>(
    x: IeeeFloat<S>,
    y: IeeeFloat<S>,
    z: IeeeFloat<S>,
    mode: Round,
) -> StatusAnd<IeeeFloat<S>>
    requires { S.PRECISION ≤ fused_limit }
    ensures multiplies_and_adds { Gives (IsFusedSum (format_of S.Flagged) mode x y z) result }
    ensures flags { FlagsGoTogether (bits_of result.status) }
{
    x.mul_add_r(y, z, mode)
}

/// A quotient, and the remainders by the truncated quotient and by the nearest integer.
pub fn quotient_and_remainders<S: Flagged>(
    x: IeeeFloat<S>,
    y: IeeeFloat<S>,
    mode: Round,
) -> (
    StatusAnd<IeeeFloat<S>>,
    StatusAnd<IeeeFloat<S>>,
    StatusAnd<IeeeFloat<S>>,
)
    ensures divides { Gives (IsQuotient (format_of S.Flagged) mode x y) result.0 }
    ensures leaves { Gives (IsTruncatedRemainder (format_of S.Flagged) x y) result.1 }
    ensures leaves_nearest { Gives (IsNearestRemainder (format_of S.Flagged) x y) result.2 }
    ensures quotient { FlagsGoTogether (bits_of result.0.status) }
    ensures truncated { FlagsGoTogether (bits_of result.1.status) }
    ensures nearest { FlagsGoTogether (bits_of result.2.status) }
{
    (x.div_r(y, mode), x.c_fmod(y), x.ieee_rem(y))
}

/// A square root.
pub fn root<S: Flagged>(x: IeeeFloat<S>, mode: Round) -> StatusAnd<IeeeFloat<S>>
    ensures extracts { Gives (IsRoot (format_of S.Flagged) mode x) result }
    ensures flags { FlagsGoTogether (bits_of result.status) }
{
    x.sqrt_r(mode)
}

/// The next values up and down.
pub fn neighbours<S: Flagged>(x: IeeeFloat<S>) -> (StatusAnd<IeeeFloat<S>>, StatusAnd<IeeeFloat<S>>)
    ensures steps_up { Gives (IsNextUp (format_of S.Flagged) x) result.0 }
    ensures steps_down { Gives (IsNextDown (format_of S.Flagged) x) result.1 }
    ensures up { FlagsGoTogether (bits_of result.0.status) }
    ensures down { FlagsGoTogether (bits_of result.1.status) }
{
    (x.next_up(), x.next_down())
}

/// The value converted to the format `T`, and rounded to an integral value.
pub fn converted_and_integral<S: Flagged, T: Flagged>(
    x: IeeeFloat<S>,
    mode: Round,
) -> (StatusAnd<IeeeFloat<T>>, StatusAnd<IeeeFloat<S>>)
    ensures converts { (loses : Bool) × IsConversion (format_of S.Flagged) (format_of T.Flagged)
        mode x result.0.value (bits_of result.0.status) loses }
    ensures rounds { Gives (IsRoundToIntegral (format_of S.Flagged) mode x) result.1 }
    ensures converted { FlagsGoTogether (bits_of result.0.status) }
    ensures integral { FlagsGoTogether (bits_of result.1.status) }
{
    let mut loses_info = false;
    (
        x.convert_r(mode, &mut loses_info),
        x.round_to_integral(mode),
    )
}

/// The values converted from an unsigned and from a signed integer.
pub fn of_integers<S: Flagged>(
    unsigned: u128,
    signed: i128,
    mode: Round,
) -> (StatusAnd<IeeeFloat<S>>, StatusAnd<IeeeFloat<S>>)
    ensures converts_unsigned { Gives (IsFromUnsigned (format_of S.Flagged) mode unsigned)
        result.0 }
    ensures converts_signed { Gives (IsFromSigned (format_of S.Flagged) mode signed) result.1 }
    ensures unsigned { FlagsGoTogether (bits_of result.0.status) }
    ensures signed { FlagsGoTogether (bits_of result.1.status) }
{
    (
        IeeeFloat::from_u128_r(unsigned, mode),
        IeeeFloat::from_i128_r(signed, mode),
    )
}

/// The value as an unsigned and as a signed integer of `width` bits.
pub fn to_integers<S: Flagged>(
    x: IeeeFloat<S>,
    width: usize,
    mode: Round,
) -> (StatusAnd<u128>, StatusAnd<i128>)
    requires low { 2 ≤ width }
    requires high { width ≤ 128 }
    ensures converts_unsigned { (exact : Bool) × IsToUnsigned (format_of S.Flagged) mode width x
        result.0.value (bits_of result.0.status) exact }
    ensures converts_signed { (exact : Bool) × IsToSigned (format_of S.Flagged) mode width x
        result.1.value (bits_of result.1.status) exact }
    ensures unsigned { FlagsGoTogether (bits_of result.0.status) }
    ensures signed { FlagsGoTogether (bits_of result.1.status) }
{
    let mut is_exact = false;
    let unsigned = x.to_u128_r(width, mode, &mut is_exact);
    (unsigned, x.to_i128_r(width, mode, &mut is_exact))
}

/// The value of a text, or a refusal.
pub fn reading<S: Flagged>(text: &str, mode: Round) -> Result<StatusAnd<IeeeFloat<S>>, ParseError>
    ensures reads { IsRead (format_of S.Flagged) mode text.now result }
    ensures flags { HasFlagsTogether result }
{
    IeeeFloat::from_str_r(text, mode)
}
