//! The total order of the values of a format (IEEE 754-2019 5.10).

ghost use Rattle.std.specs.Prelude.{◌≡◌, ◌<◌, true};
ghost use Rattle.apfloat_model.specs.order.Classes.{is_nan, is_negative};
ghost use Rattle.apfloat_model.specs.{bits.Layout.trailing_bits, formats.Nan.nan_significand};
ghost use Rattle.apfloat_ieee.specs.FlaggedTypes.{format_of};
ghost use Rattle.ieee_operations.specs.TotalOrder.{total_order, total_order_mag, total_cmp, numbers_in_order};
ghost use Rattle.ieee_operations.specs.TotalOrder.{nans_in_order, positive_nans_in_order};

use apfloat_base::Float;
use apfloat_ieee::{Flagged, IeeeFloat};
use apfloat_words::power_of_two;
use std::cmp::Ordering;

/// totalOrder (5.10): whether `x` is at or below `y` in the total order of the format's values.
///
/// From the bottom: negative quiet NaNs, negative signaling NaNs, the numbers and infinities by value with -0 below
/// +0, positive signaling NaNs, positive quiet NaNs. Of two positive NaNs of one kind, the one with the lesser payload
/// is below; of two negative ones, the one with the greater payload. No flag is raised.
///
/// Only for a format with bits: the payload of a NaN is read from them.
pub fn total_order<S: Flagged>(x: IeeeFloat<S>, y: IeeeFloat<S>) -> bool
    requires { S.PRECISION < S.BITS }
    ensures { result ≡ total_order (format_of S.Flagged) x y }
{
    if x.is_nan() {
        if y.is_nan() {
            nans_in_order(x, y)
        } else {
            x.is_negative()
        }
    } else if y.is_nan() {
        !y.is_negative()
    } else {
        numbers_in_order(x, y)
    }
}

/// totalOrderMag (5.10): `total_order` of the values without their signs.
pub fn total_order_mag<S: Flagged>(x: IeeeFloat<S>, y: IeeeFloat<S>) -> bool
    requires { S.PRECISION < S.BITS }
    ensures { result ≡ total_order_mag (format_of S.Flagged) x y }
{
    total_order(x.abs(), y.abs())
}

/// The order of two values in the total order of `total_order`, for sorting. `Equal` only if they are identical.
pub fn total_cmp<S: Flagged>(x: IeeeFloat<S>, y: IeeeFloat<S>) -> Ordering
    requires { S.PRECISION < S.BITS }
    ensures { result ≡ total_cmp (format_of S.Flagged) x y }
{
    if total_order(x, y) {
        if total_order(y, x) {
            Ordering::Equal
        } else {
            Ordering::Less
        }
    } else {
        Ordering::Greater
    }
}

/// Whether `x < y`, or the values are equal and not +0 and -0, in this order.
pub(crate) fn numbers_in_order<S: Flagged>(x: IeeeFloat<S>, y: IeeeFloat<S>) -> bool
    ensures { result ≡ numbers_in_order x y }
{
    x < y || (x == y && (x.is_negative() || !y.is_negative()))
}

/// Whether a NaN is at or below another: the order of negative NaNs is the reverse of that of positive ones.
fn nans_in_order<S: Flagged>(x: IeeeFloat<S>, y: IeeeFloat<S>) -> bool
    requires left { is_nan x ≡ true }
    requires right { is_nan y ≡ true }
    requires bits { S.PRECISION < S.BITS }
    ensures { result ≡ nans_in_order (format_of S.Flagged)
        (is_negative x) (nan_significand x) (is_negative y) (nan_significand y) }
{
    if x.is_negative() == y.is_negative() {
        if x.is_negative() {
            positive_nans_in_order(y, x)
        } else {
            positive_nans_in_order(x, y)
        }
    } else {
        x.is_negative()
    }
}

/// Whether a NaN is at or below another, both taken as positive: a signaling one is below a quiet one, and
/// otherwise the lesser significand decides.
fn positive_nans_in_order<S: Flagged>(x: IeeeFloat<S>, y: IeeeFloat<S>) -> bool
    requires left { is_nan x ≡ true }
    requires right { is_nan y ≡ true }
    requires bits { S.PRECISION < S.BITS }
    ensures { result
        ≡ positive_nans_in_order (format_of S.Flagged) (nan_significand x) (nan_significand y) }
{
    if x.is_signaling() {
        !y.is_signaling() || significand_of_nan(x) <= significand_of_nan(y)
    } else {
        !y.is_signaling() && significand_of_nan(x) <= significand_of_nan(y)
    }
}

/// The significand of a NaN: the trailing field of its encoding.
fn significand_of_nan<S: Flagged>(x: IeeeFloat<S>) -> u128
    requires nan { is_nan x ≡ true }
    requires bits { S.PRECISION < S.BITS }
    ensures { result ≡ nan_significand x }
{
    x.to_bits() % power_of_two(trailing_bits::<S>())
}

/// The width of the trailing field.
fn trailing_bits<S: Flagged>() -> u32
    ensures few { result < 128 }
    ensures value { result ≡ trailing_bits (format_of S.Flagged) }
{
    if S::EXPLICIT_INTEGER_BIT {
        S::PRECISION as u32
    } else {
        S::PRECISION as u32 - 1
    }
}
