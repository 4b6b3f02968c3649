//! Encoding and decoding. From the top, an encoding has the sign, the biased exponent and the trailing significand.

ghost use Rattle.std.specs.Prelude.{◌≡◌, ℕ, ◌+◌, ◌-◌, ◌*◌, ◌/◌, ◌%◌, ◌^◌, ◌<◌};
ghost use Rattle.std.specs.Prelude.{◌≤◌, ltb, ◌&&◌, true, false, if◌then◌else◌};
ghost use Rattle.apfloat_model.specs.formats.{Format.largest, Format.smallest_normalized, Datum.nan};
ghost use Rattle.apfloat_model.specs.rounding.Rounding.{zero_sign};
ghost use Rattle.apfloat_model.specs.bits.Layout.{all_ones, trailing_bits, fields_of, implied_number, implied_datum};
ghost use Rattle.apfloat_model.specs.bits.Layout.{written_number, written_datum, datum_of, IsEncodedBy};
ghost use Rattle.apfloat_model.specs.bits.Interchange.{IsInterchange, AreWithin, AreFieldsOf, bits_of_fields};
ghost use Rattle.apfloat_rounding.specs.Shapes.{format_at};
ghost use Rattle.apfloat_rounding.specs.Stored.{IsStored, IsNormal, IsNan, quanta_of, datum_at, number_of};
ghost use Rattle.apfloat_rounding.specs.Encoded.{layout_at, fields_at};

use crate::shape::Shape;
use crate::unpacked::{Unpacked, from_full_quanta, from_quanta, infinity_of, nan_of};
use apfloat_model::{Category, NonfiniteBehavior};
use apfloat_words::{low_digits, power_of_two, steps_between};

/// How many bits an encoding has, and how many of them are the biased exponent.
#[derive(Clone, Copy)]
pub struct Widths {
    /// How many bits an encoding has.
    pub bits: u32,
    /// How many bits the biased exponent has.
    pub exponent_bits: u32,
}

/// The fields of an encoding.
#[derive(Clone, Copy)]
pub struct Fields {
    /// Whether the sign bit is set.
    pub negative: bool,
    /// The exponent minus the least one, plus 1; 0 for zeros and denormal values.
    pub biased_exponent: u32,
    /// The digits of the significand that the encoding contains.
    pub trailing: u128,
}

/// How many bits the trailing significand has.
#[inline(always)]
fn trailing_width(shape: Shape) -> u32
    ensures value { result ≡ trailing_bits (format_at shape) }
    ensures bound { result ≤ 125 }
{
    if shape.explicit_integer_bit {
        shape.precision
    } else {
        shape.precision - 1
    }
}

/// The number of `width` binary digits that are all ones.
#[inline(always)]
fn ones(width: u32) -> u128
    requires { width < 128 }
    ensures { result ≡ all_ones width }
{
    power_of_two(width) - 1
}

/// The biased exponent that is all ones.
#[inline(always)]
fn greatest_exponent(shape: Shape, widths: Widths) -> u32
    requires { IsInterchange (format_at shape) (layout_at widths) }
    ensures { result ≡ all_ones widths.exponent_bits }
{
    ones(widths.exponent_bits) as u32
}

/// The biased exponent in an encoding. Where the encoding fits in one word, it is cut out of that word.
#[inline(always)]
fn biased_exponent(shape: Shape, widths: Widths, bits: u128) -> u32
    requires { IsInterchange (format_at shape) (layout_at widths) }
    ensures { result ≡ bits / 2 ^ trailing_bits (format_at shape) % 2 ^ widths.exponent_bits }
{
    let width = trailing_width(shape);
    let upper = if widths.bits <= 64 {
        u128::from(low_digits(bits, 64) as u64 >> width)
    } else {
        bits >> width
    };
    low_digits(upper, widths.exponent_bits) as u32
}

/// The fields of an encoding; bits above the sign are ignored.
#[inline(always)]
fn split(shape: Shape, widths: Widths, bits: u128) -> Fields
    requires { IsInterchange (format_at shape) (layout_at widths) }
    ensures { fields_at result ≡ fields_of (format_at shape) (layout_at widths) bits }
{
    let width = trailing_width(shape);
    Fields {
        negative: low_digits(bits >> (widths.bits - 1), 1) == 1,
        biased_exponent: biased_exponent(shape, widths, bits),
        trailing: low_digits(bits, width),
    }
}

/// The sign bit: 1 for minus.
#[inline(always)]
fn sign_bit(negative: bool) -> u128
    ensures { result ≡ (if negative then 1 else 0) }
{
    if negative { 1 } else { 0 }
}

/// The bit pattern with those fields.
#[inline(always)]
fn join(shape: Shape, widths: Widths, fields: Fields) -> u128
    requires interchange { IsInterchange (format_at shape) (layout_at widths) }
    requires within { AreWithin (format_at shape) (layout_at widths) (fields_at fields) }
    ensures { result ≡ bits_of_fields (format_at shape) (layout_at widths) (fields_at fields) }
{
    let upper = (sign_bit(fields.negative) << widths.exponent_bits)
        | u128::from(fields.biased_exponent);
    (upper << trailing_width(shape)) | fields.trailing
}

/// A number whose biased exponent implies the integer bit.
#[inline(always)]
fn normal_number(shape: Shape, widths: Widths, fields: Fields) -> Unpacked
    requires interchange { IsInterchange (format_at shape) (layout_at widths) }
    requires biased { fields.biased_exponent < 2 ^ widths.exponent_bits }
    requires implies { 0 < fields.biased_exponent }
    requires trailing { fields.trailing < smallest_normalized (format_at shape) }
    requires within { (smallest_normalized (format_at shape) + fields.trailing) * 2
        ^ (fields.biased_exponent - 1) ≤ largest (format_at shape) }
    ensures stored { IsStored shape result }
    ensures datum { datum_at shape result ≡ implied_number (format_at shape) (fields_at fields) }
{
    from_full_quanta(
        shape,
        fields.negative,
        shape.integer_bit() + fields.trailing,
        fields.biased_exponent - 1,
    )
}

/// A number whose integer bit is implied by its biased exponent.
#[inline(always)]
fn implied_number(shape: Shape, widths: Widths, fields: Fields) -> Unpacked
    requires interchange { IsInterchange (format_at shape) (layout_at widths) }
    requires biased { fields.biased_exponent < 2 ^ widths.exponent_bits }
    requires trailing { fields.trailing < smallest_normalized (format_at shape) }
    requires within { 0 < fields.biased_exponent
        → (smallest_normalized (format_at shape) + fields.trailing) * 2
        ^ (fields.biased_exponent - 1) ≤ largest (format_at shape) }
    requires signed { fields.biased_exponent ≡ 0 → fields.trailing ≡ 0
        → zero_sign shape.nonfinite fields.negative ≡ fields.negative }
    ensures stored { IsStored shape result }
    ensures datum { datum_at shape result ≡ implied_number (format_at shape) (fields_at fields) }
{
    if fields.biased_exponent == 0 {
        from_quanta(shape, fields.negative, fields.trailing, 0)
    } else {
        normal_number(shape, widths, fields)
    }
}

/// Whether a biased exponent is neither 0 nor the greatest one, by one comparison.
#[inline(always)]
fn is_between(biased_exponent: u32, greatest: u32) -> bool
    requires { 0 < greatest }
    ensures { result ≡ ltb 0 biased_exponent && ltb biased_exponent greatest }
{
    biased_exponent.wrapping_sub(1) < greatest - 1
}

/// A value whose integer bit is implied.
#[inline(always)]
fn implied_value(shape: Shape, widths: Widths, fields: Fields) -> Unpacked
    requires interchange { IsInterchange (format_at shape) (layout_at widths) }
    requires implied { shape.explicit_integer_bit ≡ false }
    requires within { AreWithin (format_at shape) (layout_at widths) (fields_at fields) }
    ensures stored { IsStored shape result }
    ensures datum { datum_at shape result
        ≡ implied_datum shape.nonfinite (format_at shape) (layout_at widths) (fields_at fields) }
{
    let greatest = greatest_exponent(shape, widths);
    let is_greatest = fields.biased_exponent == greatest;
    match shape.nonfinite {
        NonfiniteBehavior::IEEE754 => {
            if is_between(fields.biased_exponent, greatest) {
                normal_number(shape, widths, fields)
            } else if fields.biased_exponent == 0 {
                implied_number(shape, widths, fields)
            } else if fields.trailing == 0 {
                infinity_of(shape, fields.negative)
            } else {
                nan_of(shape, fields.negative, fields.trailing)
            }
        }
        NonfiniteBehavior::NanOnly => {
            if is_greatest && fields.trailing == ones(shape.precision - 1) {
                nan_of(shape, fields.negative, fields.trailing)
            } else {
                implied_number(shape, widths, fields)
            }
        }
        NonfiniteBehavior::NanNegativeZero => {
            if fields.negative && fields.biased_exponent == 0 && fields.trailing == 0 {
                nan_of(shape, false, 0)
            } else {
                implied_number(shape, widths, fields)
            }
        }
    }
}

/// A number with an explicit integer bit. If that bit is 0 above the least exponent, the result is a NaN.
#[inline(always)]
fn written_number(shape: Shape, widths: Widths, fields: Fields) -> Unpacked
    requires interchange { IsInterchange (format_at shape) (layout_at widths) }
    requires explicit { shape.explicit_integer_bit ≡ true }
    requires within { AreWithin (format_at shape) (layout_at widths) (fields_at fields) }
    requires number { fields.biased_exponent ≡ all_ones widths.exponent_bits → ⊥ }
    ensures stored { IsStored shape result }
    ensures datum { datum_at shape result ≡ written_number (format_at shape) (fields_at fields) }
{
    if fields.biased_exponent == 0 {
        from_quanta(shape, fields.negative, fields.trailing, 0)
    } else if shape.integer_bit() <= fields.trailing {
        from_full_quanta(
            shape,
            fields.negative,
            fields.trailing,
            fields.biased_exponent - 1,
        )
    } else {
        nan_of(shape, fields.negative, fields.trailing)
    }
}

/// A value with an explicit integer bit.
#[inline(always)]
fn written_value(shape: Shape, widths: Widths, fields: Fields) -> Unpacked
    requires interchange { IsInterchange (format_at shape) (layout_at widths) }
    requires explicit { shape.explicit_integer_bit ≡ true }
    requires within { AreWithin (format_at shape) (layout_at widths) (fields_at fields) }
    ensures stored { IsStored shape result }
    ensures datum { datum_at shape result
        ≡ written_datum (format_at shape) (layout_at widths) (fields_at fields) }
{
    if fields.biased_exponent != greatest_exponent(shape, widths) {
        written_number(shape, widths, fields)
    } else if fields.trailing == shape.integer_bit() {
        infinity_of(shape, fields.negative)
    } else {
        nan_of(shape, fields.negative, fields.trailing)
    }
}

/// The value that `bits` encode; bits above the sign are ignored.
#[inline(always)]
pub fn decode(shape: Shape, widths: Widths, bits: u128) -> Unpacked
    requires { IsInterchange (format_at shape) (layout_at widths) }
    ensures stored { IsStored shape result }
    ensures datum { datum_at shape result ≡ datum_of (format_at shape) (layout_at widths) bits }
{
    let fields = split(shape, widths, bits);
    if shape.explicit_integer_bit {
        written_value(shape, widths, fields)
    } else {
        implied_value(shape, widths, fields)
    }
}

/// The fields of a number.
#[inline(always)]
fn fields_of_number(shape: Shape, widths: Widths, x: Unpacked) -> Fields
    requires interchange { IsInterchange (format_at shape) (layout_at widths) }
    requires normal { IsNormal shape x }
    ensures { AreFieldsOf (format_at shape) (layout_at widths) (fields_at result)
        (number_of shape x) }
{
    if x.exponent < shape.min_exp {
        return Fields {
            negative: x.negative,
            biased_exponent: 0,
            trailing: x.significand >> steps_between(shape.min_exp, x.exponent),
        };
    }
    Fields {
        negative: x.negative,
        biased_exponent: steps_between(x.exponent, shape.min_exp) + 1,
        trailing: if shape.explicit_integer_bit {
            x.significand
        } else {
            x.significand - shape.integer_bit()
        },
    }
}

/// The fields of a NaN.
#[inline(always)]
fn fields_of_nan(shape: Shape, widths: Widths, x: Unpacked) -> Fields
    requires interchange { IsInterchange (format_at shape) (layout_at widths) }
    requires nan { IsNan shape x }
    ensures { AreFieldsOf (format_at shape) (layout_at widths) (fields_at result)
        (nan x.negative x.significand) }
{
    match shape.nonfinite {
        NonfiniteBehavior::NanNegativeZero => Fields {
            negative: true,
            biased_exponent: 0,
            trailing: 0,
        },
        _ => Fields {
            negative: x.negative,
            biased_exponent: greatest_exponent(shape, widths),
            trailing: x.significand,
        },
    }
}

/// The fields of the canonical encoding of a value.
#[inline(always)]
fn fields_of_value(shape: Shape, widths: Widths, x: Unpacked) -> Fields
    requires interchange { IsInterchange (format_at shape) (layout_at widths) }
    requires stored { IsStored shape x }
    ensures { AreFieldsOf (format_at shape) (layout_at widths) (fields_at result)
        (datum_at shape x) }
{
    match x.category {
        Category::Zero => Fields {
            negative: x.negative,
            biased_exponent: 0,
            trailing: 0,
        },
        Category::Infinity => Fields {
            negative: x.negative,
            biased_exponent: greatest_exponent(shape, widths),
            trailing: if shape.explicit_integer_bit {
                shape.integer_bit()
            } else {
                0
            },
        },
        Category::NaN => fields_of_nan(shape, widths, x),
        Category::Normal => fields_of_number(shape, widths, x),
    }
}

/// The bits of the canonical encoding of a value.
#[inline(always)]
pub fn encode(shape: Shape, widths: Widths, x: Unpacked) -> u128
    requires interchange { IsInterchange (format_at shape) (layout_at widths) }
    requires stored { IsStored shape x }
    ensures encoded { IsEncodedBy (format_at shape) (layout_at widths) result (datum_at shape x) }
    ensures only { (other : ℕ)
        → IsEncodedBy (format_at shape) (layout_at widths) other (datum_at shape x)
        → other ≡ result }
{
    let fields = fields_of_value(shape, widths, x);
    join(shape, widths, fields)
}
