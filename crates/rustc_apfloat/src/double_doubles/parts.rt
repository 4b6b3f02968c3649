//! Operations on pairs that act on the parts.

ghost use Rattle.std.specs.Prelude.{◌≡◌, ◌<◌, ◌^◌};
ghost use Rattle.std.specs.Option.{unwrap_or};
ghost use Rattle.apfloat_model.specs.formats.Members.{IsMember};
ghost use Rattle.apfloat_pair_theory.specs.PairFormats.{double};
ghost use Rattle.apfloat_pair_theory.specs.Pairs.{negated_pair, pair_category, pair_of, IsPairEncodedBy};
ghost use Rattle.apfloat_pair_theory.specs.PairParts.{is_denormal_pair, is_integer_pair, pair_infinity, pair_largest};
ghost use Rattle.apfloat_pair_theory.specs.PairParts.{pair_qnan, pair_smallest, pair_smallest_normalized, pair_snan};
ghost use Rattle.apfloat_pair_theory.specs.PairParts.{pair_zero, same_pair, IsPairFraction, IsPairScaling};

use crate::double_doubles::DoubleFloat;
use apfloat_base::{Category, ExpInt, Float, Round};
use apfloat_ieee::built_in_formats::Double;

/// The category of the high part, which is that of the pair.
#[inline]
pub(crate) fn category(x: DoubleFloat) -> Category
    ensures category { result ≡ pair_category x }
    ensures high { IsMember double x.high }
    ensures low { IsMember double x.low }
{
    let _ = x.1.category();
    x.0.category()
}

/// The negation. A low part that is zero, infinite or a NaN is unchanged.
#[inline]
pub(crate) fn negation(x: DoubleFloat) -> DoubleFloat
    ensures { result ≡ negated_pair x }
{
    let low = if x.1.is_finite_non_zero() { -x.1 } else { x.1 };
    DoubleFloat(-x.0, low)
}

/// The pair whose encoding is `bits`.
#[inline]
pub(crate) fn of_bits(bits: u128) -> DoubleFloat
    ensures { result ≡ pair_of bits }
{
    DoubleFloat(Double::from_bits(bits), Double::from_bits(bits >> 64))
}

/// The bits of a pair, the high part in the lower half.
#[inline]
pub(crate) fn bits_of(x: DoubleFloat) -> u128
    ensures written { IsPairEncodedBy result x }
    ensures back { pair_of result ≡ x }
{
    x.0.to_bits() | (x.1.to_bits() << 64)
}

/// The largest pair: the largest double, plus the double just below half an ulp of it.
#[inline]
pub(crate) fn largest() -> DoubleFloat
    ensures { result ≡ pair_largest }
{
    of_bits(0x7c8f_ffff_ffff_fffe_7fef_ffff_ffff_ffff)
}

/// 2 to the power of `MIN_EXP`: from this pair up, a low part can have all its digits.
#[inline]
pub(crate) fn smallest_normalized() -> DoubleFloat
    ensures { result ≡ pair_smallest_normalized }
{
    of_bits(0x0360_0000_0000_0000)
}

/// Whether both pairs have the same parts.
#[inline]
pub(crate) fn is_same(x: DoubleFloat, y: DoubleFloat) -> bool
    ensures { result ≡ same_pair x y }
{
    x.0.bitwise_eq(y.0) && x.1.bitwise_eq(y.1)
}

/// Whether both parts are integers.
#[inline]
pub(crate) fn is_integer(x: DoubleFloat) -> bool
    ensures { result ≡ is_integer_pair x }
{
    x.0.is_integer() && x.1.is_integer()
}

/// Whether the high part is a nonzero number that is denormal, or is not the double nearest to the sum of the parts.
#[inline]
pub(crate) fn is_denormal(x: DoubleFloat) -> bool
    ensures { result ≡ is_denormal_pair x }
{
    x.0.is_finite_non_zero() && (x.0.is_denormal() || x.0 != (x.0 + x.1).value)
}

/// The pair times 2 to the power of `exp`, each part rounded once.
#[inline]
pub(crate) fn scaled(x: DoubleFloat, exp: ExpInt, round: Round) -> DoubleFloat
    ensures { IsPairScaling round x exp result }
{
    DoubleFloat(x.0.scalbn_r(exp, round), x.1.scalbn_r(exp, round))
}

/// The fraction of the high part and its exponent; the low part is scaled by the same power of two.
#[inline]
pub(crate) fn fraction(x: DoubleFloat, exp: &mut ExpInt, round: Round) -> DoubleFloat
    ensures { IsPairFraction round x result exp.new }
{
    let high = x.0.frexp_r(exp, round);
    let exponent = *exp;
    match category(x) {
        Category::Normal => DoubleFloat(high, x.1.scalbn_r(-exponent, round)),
        Category::Zero | Category::Infinity | Category::NaN => DoubleFloat(high, x.1),
    }
}
