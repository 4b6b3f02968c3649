//! Conversion of pairs to the wide format, as the exact sum of the parts, rounded once; and back, as the nearest double
//! and the rest.

ghost use Rattle.std.specs.Prelude.{◌≡◌, ◌≢◌, true};
ghost use Rattle.apfloat_model.specs.order.Classes.{is_finite_non_zero};
ghost use Rattle.apfloat_model.specs.rounding.{Flags.bits_of, Rounding.ok_bits};
ghost use Rattle.apfloat_pair_theory.specs.PairAccuracy.{IsExactSplit};
ghost use Rattle.apfloat_pair_theory.specs.Pairs.{IsJoined, IsNearestDouble, IsSplit, IsWidened, left_over};

use crate::double_doubles::{DoubleFloat, Fallback};
use apfloat_base::{Float, FloatConvert, Round, Status, StatusAnd};
use apfloat_ieee::built_in_formats::Double;

/// A double in the wide format, which has every double; a signaling NaN is quieted.
#[inline]
fn widened(part: Double) -> Fallback
    ensures { IsWidened part result }
{
    let mut loses_info = false;
    part.convert_r(Round::NearestTiesToEven, &mut loses_info)
        .value
}

/// The wide value of a pair, which `Fallback::from` describes.
#[inline]
pub(crate) fn joined(x: DoubleFloat) -> Fallback
    ensures { IsJoined x result }
{
    let high = widened(x.0);
    if x.1.is_zero() {
        // The high part is a value of its format, as `category` ensures, so the sum with a zero is exact.
        let _ = x.0.category();
        return high;
    }
    if x.0.is_finite_non_zero() {
        (high + widened(x.1)).value
    } else {
        high
    }
}

/// What a wide value leaves beyond `rounded`, the double nearest to it, if that is a number and inexact. Each step is
/// exact.
#[inline]
fn rest(x: Fallback, rounded: StatusAnd<Double>) -> Double
    requires nearest { IsNearestDouble x rounded.value (bits_of rounded.status) }
    requires number { is_finite_non_zero rounded.value ≡ true }
    requires inexact { bits_of rounded.status ≢ ok_bits }
    ensures { result ≡ left_over x rounded.value }
{
    // Both are values of their formats, as `category` ensures, so neither step loses anything.
    let _ = (x.category(), rounded.value.category());
    let mut loses_info = false;
    let rest = (x - widened(rounded.value)).value;
    rest.convert_r(Round::NearestTiesToEven, &mut loses_info)
        .value
}

/// The pair of a wide value, which `DoubleFloat::from` describes.
#[inline]
pub(crate) fn split(x: Fallback) -> DoubleFloat
    ensures { IsSplit x result }
{
    let mut loses_info = false;
    let rounded: StatusAnd<Double> = x.convert_r(Round::NearestTiesToEven, &mut loses_info);
    if rounded.value.is_finite_non_zero() && rounded.status != Status::OK {
        DoubleFloat(rounded.value, rest(x, rounded))
    } else {
        DoubleFloat::alone(rounded.value)
    }
}

impl From<Fallback> for DoubleFloat {
    ghost from_gives = { IsSplit };

    /// The double nearest to a wide value, with the rest as the low part: if the high part is finite, both add up to
    /// the value. A value past the largest double becomes an infinity, and a signaling NaN is quieted.
    #[inline]
    fn from(x: Fallback) -> DoubleFloat
        ensures split { IsSplit x result }
        ensures exact { IsExactSplit x result }
    {
        split(x)
    }
}

impl From<DoubleFloat> for Fallback {
    ghost from_gives = { IsJoined };

    /// The exact sum of the parts, rounded once to the nearest value, ties to even. If the high part is zero, infinite
    /// or a NaN, the low part is ignored; a signaling NaN is quieted.
    #[inline]
    fn from(x: DoubleFloat) -> Fallback {
        joined(x)
    }
}
