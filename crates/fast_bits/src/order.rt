//! The order of two values.

ghost use Rattle.std.specs.Prelude.{◌≡◌, ◌+◌, ◌-◌, ◌*◌, ◌<◌, ◌≤◌, ◌^◌, false, true, IsTrue, IfSome, None};
ghost use Rattle.apfloat_model.specs.{arithmetic.Exact.signed, bits.Layout.all_ones, order.Classes.is_nan};
ghost use Rattle.apfloat_model.specs.declared.kinds.NonfiniteBehavior.TheVariants.{IEEE754};
ghost use Rattle.apfloat_model.specs.order.Order.{compared};
ghost use Rattle.apfloat_ieee.specs.FlaggedTypes.{constants_of};
ghost use Rattle.fast_bits.specs.{Encoded.value_in, Order.IsPlaceOf};

use crate::numbers::{exponents, is_minus, magnitude_of};
use apfloat_base::Float;
use apfloat_ieee::{Flagged, IeeeFloat};
use apfloat_model::NonfiniteBehavior;
use std::cmp::Ordering;

/// Whether the encodings of the format fit in a word, with an implied integer bit, and infinities above all numbers and
/// below all NaNs, if the sign bit is left out.
#[inline(always)]
pub fn has_ordered_words<S: Flagged>() -> bool
    ensures implied { IsTrue result → S.EXPLICIT_INTEGER_BIT ≡ false }
    ensures nonfinite { IsTrue result → S.NONFINITE_BEHAVIOR ≡ IEEE754 }
    ensures bits { IsTrue result → S.BITS ≤ 64 }
{
    match S::NONFINITE_BEHAVIOR {
        NonfiniteBehavior::IEEE754 => !S::EXPLICIT_INTEGER_BIT & (S::BITS <= 64),
        NonfiniteBehavior::NanOnly => false,
        NonfiniteBehavior::NanNegativeZero => false,
    }
}

/// A magnitude with its sign.
#[inline(always)]
pub(crate) fn signed(negative: bool, magnitude: u64) -> i64
    requires { magnitude < 2 ^ 63 }
    ensures { result ≡ signed negative magnitude }
{
    let number = magnitude as i64;
    if negative { -number } else { number }
}

/// The bits of infinities without their sign bit.
#[inline(always)]
fn infinity<S: Flagged>() -> u64
    requires bits { S.PRECISION < S.BITS }
    requires word { S.BITS ≤ 64 }
    requires implied { S.EXPLICIT_INTEGER_BIT ≡ false }
    ensures { result ≡ all_ones S.EXP_BITS * 2 ^ (S.PRECISION - 1) }
{
    u64::from(exponents::<S>() - 1) << (S::PRECISION as u32 - 1)
}

/// The bits of a value without their sign bit, as a number with that sign, unless the value is a NaN.
#[inline(always)]
fn place_of<S: Flagged>(bits: u128) -> Option<i64>
    requires bits { S.PRECISION < S.BITS }
    requires word { S.BITS ≤ 64 }
    requires implied { S.EXPLICIT_INTEGER_BIT ≡ false }
    requires nonfinite { S.NONFINITE_BEHAVIOR ≡ IEEE754 }
    ensures some { IfSome result (IsPlaceOf (constants_of S.Flagged) bits) }
    ensures none { result ≡ None → is_nan (value_in (constants_of S.Flagged) bits) ≡ true }
{
    let magnitude = magnitude_of::<S>(bits);
    if magnitude > infinity::<S>() {
        return None;
    }
    Some(signed(is_minus::<S>(bits), magnitude))
}

/// The order of two values in a format whose words are ordered.
#[inline(always)]
fn compare_words<S: Flagged>(x: u128, y: u128) -> Option<Ordering>
    requires bits { S.PRECISION < S.BITS }
    requires word { S.BITS ≤ 64 }
    requires implied { S.EXPLICIT_INTEGER_BIT ≡ false }
    requires nonfinite { S.NONFINITE_BEHAVIOR ≡ IEEE754 }
    ensures { let c = constants_of S.Flagged in result ≡ compared (value_in c x) (value_in c y) }
{
    let Some(left) = place_of::<S>(x) else {
        return None;
    };
    let Some(right) = place_of::<S>(y) else {
        return None;
    };
    Some(left.cmp(&right))
}

/// The numeric order of two values (IEEE 754-2019 5.11), from their bits: both zeros are equal, the infinities are at
/// the ends, and a NaN is unordered. It raises no flag.
#[inline(always)]
pub fn compare_bits<S: Flagged>(x: u128, y: u128) -> Option<Ordering>
    requires { S.PRECISION < S.BITS }
    ensures { let c = constants_of S.Flagged in result ≡ compared (value_in c x) (value_in c y) }
{
    if has_ordered_words::<S>() {
        compare_words::<S>(x, y)
    } else {
        IeeeFloat::<S>::from_bits(x).partial_cmp(&IeeeFloat::<S>::from_bits(y))
    }
}
