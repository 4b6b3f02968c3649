//! Unpacked values, and one constructor for each kind of them.

ghost use Rattle.std.specs.Prelude.{◌≡◌, ◌+◌, ◌-◌, ◌*◌, ◌^◌, ◌<◌, ◌≤◌, pos, neg_ℤ, ◌+ℤ◌, ◌-ℤ◌, ◌≤ℤ◌};
ghost use Rattle.apfloat_model.specs.arithmetic.Exact.{up, down};
ghost use Rattle.apfloat_model.specs.formats.{Format.largest, Datum.finite, Datum.infinite, Datum.nan};
ghost use Rattle.apfloat_model.specs.formats.Constants.{infinity_of, smallest_datum, smallest_normalized_datum};
ghost use Rattle.apfloat_model.specs.formats.Nan.{nan_sign};
ghost use Rattle.apfloat_model.specs.rounding.Bounds.{IsWithin, number_bound, format_bound, place_bound};
ghost use Rattle.apfloat_model.specs.rounding.Rounding.{zero_sign, signed_quanta};
ghost use Rattle.apfloat_rounding.specs.Shapes.{format_at};
ghost use Rattle.apfloat_rounding.specs.Stored.{IsNanSignificandAt, IsNormal, IsStored, datum_at};

use crate::exponents::{exponent_at, last_exponent};
use crate::shape::Shape;
use apfloat_model::{Category, ExpInt, NonfiniteBehavior, StatusAnd};
use apfloat_words::{Term, digits};

/// An unpacked value.
///
/// A nonzero number is `significand * 2^(exponent - (precision - 1))`, and its significand has the integer bit set,
/// even for a denormal value: its digits below the quantum are then zero. The significand of a NaN is as it is encoded.
/// Fields that a kind of value does not need are zero.
#[derive(Clone, Copy)]
pub struct Unpacked {
    /// The digits of a number, or those of a NaN as they are encoded.
    pub significand: u128,
    /// The exponent of a number's integer bit.
    pub exponent: ExpInt,
    /// The category of the value.
    pub category: Category,
    /// Whether the sign is minus.
    pub negative: bool,
}

impl Unpacked {
    ghost use Rattle.std.specs.Prelude.{◌≡◌};

    /// The same value, rebuilt from its fields, for a call that takes it by address.
    #[inline(always)]
    pub fn remade(self) -> Unpacked
        ensures { result ≡ self }
    {
        Unpacked {
            significand: self.significand,
            exponent: self.exponent,
            category: self.category,
            negative: self.negative,
        }
    }
}

/// The result, rebuilt from its fields: a struct written by another function is copied whole, with its padding, but
/// separate fields are copied in registers.
#[inline(always)]
pub fn remade(answer: StatusAnd<Unpacked>) -> StatusAnd<Unpacked>
    ensures { result ≡ answer }
{
    let value = answer.value;
    StatusAnd {
        status: answer.status,
        value: Unpacked {
            significand: value.significand,
            exponent: value.exponent,
            category: value.category,
            negative: value.negative,
        },
    }
}

/// The significand of a value. In a format of at most 64 digits it is rebuilt from one word, so that the compiler
/// computes with one word only.
#[inline(always)]
pub fn significand_of(shape: Shape, x: Unpacked) -> u128
    requires { x.significand < 2 ^ shape.precision }
    ensures { result ≡ x.significand }
{
    if shape.precision <= 64 {
        u128::from(x.significand as u64)
    } else {
        x.significand
    }
}

/// A nonzero number as a term. Operations count exponents from last digits, as terms do, up to the rounding of their
/// results.
#[inline(always)]
pub fn term_of(shape: Shape, x: Unpacked) -> Term
    requires { IsNormal shape x }
    ensures negative { result.negative ≡ x.negative }
    ensures significand { result.significand ≡ x.significand }
    ensures exponent { (result.exponent +ℤ pos shape.precision) ≡ (x.exponent +ℤ pos 1) }
    ensures within { IsWithin number_bound result.exponent }
{
    Term {
        negative: x.negative,
        exponent: last_exponent(shape, x.exponent),
        significand: x.significand,
    }
}

/// The zero of that sign, or the format's only zero.
#[inline(always)]
pub fn zero_of(shape: Shape, negative: bool) -> Unpacked
    ensures stored { IsStored shape result }
    ensures datum { datum_at shape result ≡ finite (zero_sign shape.nonfinite negative) 0 }
{
    Unpacked {
        significand: 0,
        exponent: 0,
        category: Category::Zero,
        negative: match shape.nonfinite {
            NonfiniteBehavior::IEEE754 => negative,
            NonfiniteBehavior::NanOnly => negative,
            NonfiniteBehavior::NanNegativeZero => false,
        },
    }
}

/// The NaN with that significand, and with that sign if NaNs have one.
#[inline(always)]
pub fn nan_of(shape: Shape, negative: bool, significand: u128) -> Unpacked
    requires { IsNanSignificandAt shape significand }
    ensures stored { IsStored shape result }
    ensures datum { datum_at shape result ≡ nan (nan_sign shape.nonfinite negative) significand }
{
    Unpacked {
        significand,
        exponent: 0,
        category: Category::NaN,
        negative: match shape.nonfinite {
            NonfiniteBehavior::IEEE754 => negative,
            NonfiniteBehavior::NanOnly => negative,
            NonfiniteBehavior::NanNegativeZero => false,
        },
    }
}

/// The infinity of that sign, or, in a format without infinities, the NaN that replaces it.
#[inline(always)]
pub fn infinity_of(shape: Shape, negative: bool) -> Unpacked
    ensures stored { IsStored shape result }
    ensures datum { datum_at shape result ≡ infinity_of (format_at shape) negative }
{
    match shape.nonfinite {
        NonfiniteBehavior::IEEE754 => Unpacked {
            significand: 0,
            exponent: 0,
            category: Category::Infinity,
            negative,
        },
        NonfiniteBehavior::NanOnly => nan_of(shape, negative, shape.integer_bit() - 1),
        NonfiniteBehavior::NanNegativeZero => nan_of(shape, negative, 0),
    }
}

/// A significand moved up by so many digits, in one word where all digits of the format fit in it.
#[inline(always)]
fn moved_up(shape: Shape, significand: u128, places: u32) -> u128
    requires fits { significand * 2 ^ places < 2 ^ shape.precision }
    requires short { places < shape.precision }
    ensures { result ≡ significand * 2 ^ places }
{
    if shape.precision <= 64 {
        u128::from((significand as u64) << places)
    } else {
        significand << places
    }
}

/// `significand * 2^place` quanta with that sign.
#[inline(always)]
pub fn from_quanta(shape: Shape, negative: bool, significand: u128, place: u32) -> Unpacked
    requires fits { significand < 2 ^ shape.precision }
    requires near { place ≤ place_bound }
    requires within { significand * 2 ^ place ≤ largest (format_at shape) }
    ensures stored { IsStored shape result }
    ensures datum { datum_at shape result
        ≡ signed_quanta shape.nonfinite negative (significand * 2 ^ place) }
{
    if significand == 0 {
        return zero_of(shape, negative);
    }
    let shift = shape.precision - digits(significand);
    Unpacked {
        significand: moved_up(shape, significand, shift),
        exponent: exponent_at(shape.min_exp, place, shift),
        category: Category::Normal,
        negative,
    }
}

/// `significand * 2^place` quanta with that sign, if the significand has all its digits.
#[inline(always)]
pub fn from_full_quanta(shape: Shape, negative: bool, significand: u128, place: u32) -> Unpacked
    requires fits { significand < 2 ^ shape.precision }
    requires full { 2 ^ (shape.precision - 1) ≤ significand }
    requires near { place ≤ place_bound }
    requires within { significand * 2 ^ place ≤ largest (format_at shape) }
    ensures stored { IsStored shape result }
    ensures datum { datum_at shape result
        ≡ signed_quanta shape.nonfinite negative (significand * 2 ^ place) }
{
    Unpacked {
        significand,
        exponent: exponent_at(shape.min_exp, place, 0),
        category: Category::Normal,
        negative,
    }
}

/// `significand * 2^place` quanta with that sign, after a rounding: most of these significands have all their digits
/// and need not be normalized again.
#[inline(always)]
pub fn from_rounded_quanta(shape: Shape, negative: bool, significand: u128, place: u32) -> Unpacked
    requires fits { significand < 2 ^ shape.precision }
    requires near { place ≤ place_bound }
    requires within { significand * 2 ^ place ≤ largest (format_at shape) }
    ensures stored { IsStored shape result }
    ensures datum { datum_at shape result
        ≡ signed_quanta shape.nonfinite negative (significand * 2 ^ place) }
{
    if significand >= shape.integer_bit() {
        return from_full_quanta(shape, negative, significand, place);
    }
    from_quanta(shape, negative, significand, place)
}

/// That many quanta with that sign, at most the smallest normalized value. The number is computed before it is tested
/// for zero, so that the test needs no branch.
#[inline(always)]
pub fn from_few_quanta(shape: Shape, negative: bool, quanta: u64) -> Unpacked
    requires short { shape.precision ≤ 62 }
    requires few { quanta ≤ 2 ^ (shape.precision - 1) }
    ensures stored { IsStored shape result }
    ensures datum { datum_at shape result ≡ signed_quanta shape.nonfinite negative quanta }
{
    let shift = shape.precision - digits(u128::from(quanta));
    let number = Unpacked {
        significand: u128::from(quanta << shift),
        exponent: exponent_at(shape.min_exp, 0, shift),
        category: Category::Normal,
        negative,
    };
    if quanta == 0 {
        zero_of(shape, negative)
    } else {
        number
    }
}

/// The greatest finite value, with that sign.
#[inline(always)]
pub fn largest_of(shape: Shape, negative: bool) -> Unpacked
    ensures stored { IsStored shape result }
    ensures datum { datum_at shape result ≡ finite negative (largest (format_at shape)) }
{
    from_full_quanta(shape, negative, shape.greatest_significand(), shape.span())
}

/// One quantum.
#[inline(always)]
pub fn smallest_of(shape: Shape) -> Unpacked
    ensures stored { IsStored shape result }
    ensures datum { datum_at shape result ≡ smallest_datum }
{
    from_quanta(shape, false, 1, 0)
}

/// The smallest positive value that is not denormal.
#[inline(always)]
pub fn smallest_normalized_of(shape: Shape) -> Unpacked
    ensures stored { IsStored shape result }
    ensures datum { datum_at shape result ≡ smallest_normalized_datum (format_at shape) }
{
    from_quanta(shape, false, shape.integer_bit(), 0)
}
