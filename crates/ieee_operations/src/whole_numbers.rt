//! Rounding to integral values without INEXACT (IEEE 754-2019 5.9), and conversions to integers with INEXACT and
//! without it (5.8), in each rounding mode.
//!
//! `round_to_integral` of `Float` is roundToIntegralExact, and `to_u128_r` and `to_i128_r` raise INEXACT.

ghost use Rattle.std.specs.Prelude.{◌≡◌, ◌^◌, ◌<◌, ◌≤◌, pos};
ghost use Rattle.apfloat_model.specs.rounding.Flags.{Gives, bits_of};
ghost use Rattle.apfloat_model.specs.whole_numbers.WholeNumbersOut.{to_unsigned, to_signed};
ghost use Rattle.apfloat_ieee.specs.FlaggedTypes.{format_of};
ghost use Rattle.ieee_operations.specs.WholeNumbers.{IsRoundedToIntegral, IsConvertedToSigned};
ghost use Rattle.ieee_operations.specs.WholeNumbers.{IsConvertedToUnsigned, IsConvertedToIntegerExactly};

use crate::status_flags::lower_flags;
use apfloat_base::{Float, Round, Status, StatusAnd};
use apfloat_ieee::{Flagged, IeeeFloat};

/// roundToIntegralTiesToEven, roundToIntegralTowardZero and so on (5.9), as the mode says: the value rounded to an
/// integral value of its format, with its sign. Infinities and zeros are unchanged. A NaN is quieted; INVALID_OP is
/// raised exactly if it was signaling, and INEXACT never.
pub fn round_to_integral_in<S: Flagged>(x: IeeeFloat<S>, mode: Round) -> StatusAnd<IeeeFloat<S>>
    ensures { Gives (IsRoundedToIntegral (format_of S.Flagged) mode x) result }
{
    let exact = x.round_to_integral(mode);
    lower_flags(exact.status, Status::INEXACT).and(exact.value)
}

/// convertToIntegerTiesToEven, convertToIntegerTowardZero and so on (5.8), as the mode says, to a signed integer of
/// `width` bits, 2 to 128, in two's complement.
///
/// INVALID_OP is raised exactly if no integer of that width is the rounded value: the result is the nearer end of the
/// range, or 0 for a NaN. INEXACT is never raised.
pub fn convert_to_signed<S: Flagged>(x: IeeeFloat<S>, width: usize, mode: Round) -> StatusAnd<i128>
    requires low { 2 ≤ width }
    requires high { width ≤ 128 }
    ensures { Gives (IsConvertedToSigned (format_of S.Flagged) mode width x) result }
{
    let exact = convert_to_signed_exact(x, width, mode);
    lower_flags(exact.status, Status::INEXACT).and(exact.value)
}

/// convertToIntegerExactTiesToEven and so on (5.8), as `convert_to_signed`, but INEXACT is raised if the value is in
/// range and not an integer.
pub fn convert_to_signed_exact<S: Flagged>(
    x: IeeeFloat<S>,
    width: usize,
    mode: Round,
) -> StatusAnd<i128>
    requires low { 2 ≤ width }
    requires high { width ≤ 128 }
    ensures { let answer = to_signed (format_of S.Flagged) mode width x in
        IsConvertedToIntegerExactly answer result.value (bits_of result.status) }
{
    let mut is_exact = true;
    x.to_i128_r(width, mode, &mut is_exact)
}

/// convertToIntegerTiesToEven and so on (5.8), as the mode says, to an unsigned integer of `width` bits, 1 to 128.
///
/// INVALID_OP is raised exactly if no integer of that width is the rounded value: the result is the nearer end of the
/// range, or 0 for a NaN. INEXACT is never raised.
pub fn convert_to_unsigned<S: Flagged>(
    x: IeeeFloat<S>,
    width: usize,
    mode: Round,
) -> StatusAnd<u128>
    requires low { 1 ≤ width }
    requires high { width ≤ 128 }
    ensures answer { Gives (IsConvertedToUnsigned (format_of S.Flagged) mode width x) result }
    ensures fits { result.value < 2 ^ width }
{
    let exact = convert_to_unsigned_exact(x, width, mode);
    lower_flags(exact.status, Status::INEXACT).and(exact.value)
}

/// convertToIntegerExactTiesToEven and so on (5.8), as `convert_to_unsigned`, but INEXACT is raised if the value is in
/// range and not an integer.
pub fn convert_to_unsigned_exact<S: Flagged>(
    x: IeeeFloat<S>,
    width: usize,
    mode: Round,
) -> StatusAnd<u128>
    requires low { 1 ≤ width }
    requires high { width ≤ 128 }
    ensures answer { let answer = to_unsigned (format_of S.Flagged) mode width x in
        IsConvertedToIntegerExactly answer (pos result.value) (bits_of result.status) }
    ensures fits { result.value < 2 ^ width }
{
    let mut is_exact = true;
    x.to_u128_r(width, mode, &mut is_exact)
}
