//! Two results of the same operation on the same operands, in two modes.
//!
//! - If the first has status OK, the other has the same value, and status OK (`same`). For sums, the sign of an exact
//!   zero is left out.
//! - Rounded downward and upward, the first is at most the second, and they are equal exactly where a status is OK, or
//!   where a zero is converted or divided by; unless one of them is a NaN (`bounds`).

ghost use Rattle.std.specs.Prelude.{◌≤◌, Bool};
ghost use Rattle.rustc_apfloat.specs.{Conversions.IsConversion, FusedSums.IsFusedSum, FusedSums.fused_limit};
ghost use Rattle.rustc_apfloat.specs.{Parsing.IsRead, Products.IsProduct, Products.product_limit, Quotients.IsQuotient};
ghost use Rattle.rustc_apfloat.specs.{Sums.IsDifference, Sums.IsSum, TwoModes.AreBoundsUnlessNan};
ghost use Rattle.rustc_apfloat.specs.TwoModes.{AreOutward, AreSameIfOk, AreSameIfOkButForZeros, IsOk, IsOkOrOfZero};
ghost use Rattle.rustc_apfloat.specs.{FlaggedTypes.format_of, WholeNumbers.IsFromSigned, WholeNumbers.IsFromUnsigned};
ghost use Rattle.tests.specs.{TwoModes.AreInModes, TwoReadings.AreReadings};

use rustc_apfloat::ieee::{Flagged, IeeeFloat};
use rustc_apfloat::{Float, FloatConvert, ParseError, Round, StatusAnd};

/// The sum of two values, in both modes.
pub fn sums<S: Flagged>(
    x: IeeeFloat<S>,
    y: IeeeFloat<S>,
    mode: Round,
    other: Round,
) -> (StatusAnd<IeeeFloat<S>>, StatusAnd<IeeeFloat<S>>)
    ensures { AreInModes (λ mode. IsSum (format_of S.Flagged) mode x y) AreSameIfOkButForZeros
        IsOk mode other result.0 result.1 }
{
    (x.add_r(y, mode), x.add_r(y, other))
}

/// The difference of two values, in both modes.
pub fn differences<S: Flagged>(
    x: IeeeFloat<S>,
    y: IeeeFloat<S>,
    mode: Round,
    other: Round,
) -> (StatusAnd<IeeeFloat<S>>, StatusAnd<IeeeFloat<S>>)
    ensures { AreInModes (λ mode. IsDifference (format_of S.Flagged) mode x y) AreSameIfOkButForZeros
        IsOk mode other result.0 result.1 }
{
    (x.sub_r(y, mode), x.sub_r(y, other))
}

/// The product of two values, in both modes, in a format of at most 64 digits.
pub fn products<S: Flagged>(
    x: IeeeFloat<S>,
    y: IeeeFloat<S>,
    mode: Round,
    other: Round,
) -> (StatusAnd<IeeeFloat<S>>, StatusAnd<IeeeFloat<S>>)
    requires { S.PRECISION ≤ product_limit }
    ensures { AreInModes (λ mode. IsProduct (format_of S.Flagged) mode x y) AreSameIfOk
        IsOk mode other result.0 result.1 }
{
    (x.mul_r(y, mode), x.mul_r(y, other))
}

/// The fused sum of three values, in both modes, in a format of at most 63 digits.
pub fn fused_sums<S: Flagged>(
    x: IeeeFloat<S>,
    y: IeeeFloat<S>,
    z: IeeeFloat<S>,
    mode: Round,
    other: Round,
) -> (StatusAnd<IeeeFloat<S>>, StatusAnd<IeeeFloat<S>>)
    requires { S.PRECISION ≤ fused_limit }
    ensures { AreInModes (λ mode. IsFusedSum (format_of S.Flagged) mode x y z) AreSameIfOkButForZeros
        IsOk mode other result.0 result.1 }
{
    (x.mul_add_r(y, z, mode), x.mul_add_r(y, z, other))
}

/// The quotient of two values, in both modes. Divided by a zero, a number gives the same infinity in both.
pub fn quotients<S: Flagged>(
    x: IeeeFloat<S>,
    y: IeeeFloat<S>,
    mode: Round,
    other: Round,
) -> (StatusAnd<IeeeFloat<S>>, StatusAnd<IeeeFloat<S>>)
    ensures { AreInModes (λ mode. IsQuotient (format_of S.Flagged) mode x y) AreSameIfOk
        (IsOkOrOfZero y) mode other result.0 result.1 }
{
    (x.div_r(y, mode), x.div_r(y, other))
}

/// The value converted to the format `T`, in both modes. A zero is converted to the same zero in both.
pub fn conversions<S: Flagged, T: Flagged>(
    x: IeeeFloat<S>,
    mode: Round,
    other: Round,
) -> (StatusAnd<IeeeFloat<T>>, StatusAnd<IeeeFloat<T>>)
    ensures { AreInModes (λ mode value status. (loses : Bool)
        × IsConversion (format_of S.Flagged) (format_of T.Flagged) mode x value status loses)
        AreSameIfOk (IsOkOrOfZero x) mode other result.0 result.1 }
{
    let mut loses_info = false;
    let one = x.convert_r(mode, &mut loses_info);
    (one, x.convert_r(other, &mut loses_info))
}

/// The value of an unsigned integer and that of a signed one, in both modes.
pub fn of_integers<S: Flagged>(
    unsigned: u128,
    signed: i128,
    mode: Round,
    other: Round,
) -> (
    StatusAnd<IeeeFloat<S>>,
    StatusAnd<IeeeFloat<S>>,
    StatusAnd<IeeeFloat<S>>,
    StatusAnd<IeeeFloat<S>>,
)
    ensures unsigned { AreInModes (λ mode. IsFromUnsigned (format_of S.Flagged) mode unsigned)
        AreSameIfOk IsOk mode other result.0 result.1 }
    ensures signed { AreInModes (λ mode. IsFromSigned (format_of S.Flagged) mode signed) AreSameIfOk
        IsOk mode other result.2 result.3 }
{
    (
        IeeeFloat::from_u128_r(unsigned, mode),
        IeeeFloat::from_u128_r(unsigned, other),
        IeeeFloat::from_i128_r(signed, mode),
        IeeeFloat::from_i128_r(signed, other),
    )
}

/// The reading of a text, a value or a refusal, in both modes.
pub fn readings<S: Flagged>(
    text: &str,
    mode: Round,
    other: Round,
) -> (
    Result<StatusAnd<IeeeFloat<S>>, ParseError>,
    Result<StatusAnd<IeeeFloat<S>>, ParseError>,
)
    ensures in_mode { IsRead (format_of S.Flagged) mode text.now result.0 }
    ensures in_other { IsRead (format_of S.Flagged) other text.now result.1 }
    ensures same { AreReadings AreSameIfOk result.0 result.1 }
    ensures bounds { AreOutward mode other
        → AreReadings (AreBoundsUnlessNan IsOk) result.0 result.1 }
{
    (
        IeeeFloat::from_str_r(text, mode),
        IeeeFloat::from_str_r(text, other),
    )
}
