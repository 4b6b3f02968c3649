//! Conversion of values from one format to another.

ghost use Rattle.std.specs.Prelude.{◌≡◌, cond, not};
ghost use Rattle.apfloat_model.specs.{declared.kinds.NonfiniteBehavior.NonfiniteBehavior, rounding.Flags.bits_of};
ghost use Rattle.apfloat_model.specs.rounding.Rounding.{ok_bits, inexact_bit, zero_sign};
ghost use Rattle.apfloat_model.specs.formats.{Datum.finite, Constants.infinity_of, Nan.invalid_if, Nan.is_signaling};
ghost use Rattle.apfloat_model.specs.arithmetic.Conversions.{IsConversion, IsConvertedNumber, IsExactlyConverted};
ghost use Rattle.apfloat_model.specs.arithmetic.Conversions.{IsKept, loses_zero_sign, has_infinities, IsConverted};
ghost use Rattle.apfloat_model.specs.arithmetic.Conversions.{converted_nan, nan_loses};
ghost use Rattle.apfloat_rounding.specs.Shapes.{format_at};
ghost use Rattle.apfloat_rounding.specs.Stored.{IsNan, IsNormal, IsStored, datum_at, quanta_of};
ghost use Rattle.apfloat_conversions.specs.Results.{ConvertsAt};

use crate::held::{has, widened};
use apfloat_model::{Category, NonfiniteBehavior, Round, Status, StatusAnd};
use apfloat_rounding::exponents::last_exponent;
use apfloat_rounding::payloads::{converted_nan, nan_loses};
use apfloat_rounding::rounding::deliver_counted_u128;
use apfloat_rounding::shape::Shape;
use apfloat_rounding::unpacked::{Unpacked, infinity_of, remade, significand_of, zero_of};

/// A result in the other format, and whether information was lost.
#[derive(Clone, Copy)]
pub struct Converted {
    /// The value in the other format, with its status.
    pub answer: StatusAnd<Unpacked>,
    /// Whether information was lost.
    pub loses_info: bool,
}

/// A nonzero number, rounded once; an inexact result loses information. If the other format has the number, its
/// significand is only shifted.
#[inline(always)]
fn converted_number(from: Shape, into: Shape, x: Unpacked, round: Round) -> Converted
    requires { IsNormal from x }
    ensures stored { IsStored into result.answer.value }
    ensures converted { ConvertsAt into (IsConvertedNumber (format_at from) (format_at into) round
        x.negative (quanta_of from x)) result }
{
    if has(from, into, x) {
        return Converted {
            answer: Status::OK.and(widened(from, into, x)),
            loses_info: false,
        };
    }
    let answer = deliver_counted_u128(
        into,
        significand_of(from, x),
        from.precision,
        last_exponent(from, x.exponent),
        round,
        x.negative,
    );
    Converted {
        answer,
        loses_info: answer.status != Status::OK,
    }
}

/// A result that is inexact if it loses information.
#[inline(always)]
fn kept(value: Unpacked, loses_info: bool) -> Converted
    ensures value { result.answer.value ≡ value }
    ensures status { bits_of result.answer.status ≡ cond loses_info inexact_bit ok_bits }
    ensures loses { result.loses_info ≡ loses_info }
{
    let status = if loses_info {
        Status::INEXACT
    } else {
        Status::OK
    };
    Converted {
        answer: status.and(value),
        loses_info,
    }
}

/// The infinity with this sign, or what the other format has in its place.
#[inline(always)]
fn converted_infinity(into: Shape, negative: bool) -> Converted
    ensures stored { IsStored into result.answer.value }
    ensures converted { ConvertsAt into (IsKept (infinity_of (format_at into) negative)
        (not (has_infinities into.nonfinite))) result }
{
    let loses_info = match into.nonfinite {
        NonfiniteBehavior::IEEE754 => false,
        NonfiniteBehavior::NanOnly => true,
        NonfiniteBehavior::NanNegativeZero => true,
    };
    kept(infinity_of(into, negative), loses_info)
}

/// The zero with this sign, or the other format's only zero.
#[inline(always)]
fn converted_zero(into: Shape, negative: bool) -> Converted
    ensures stored { IsStored into result.answer.value }
    ensures converted { ConvertsAt into (IsKept (finite (zero_sign into.nonfinite negative) 0)
        (loses_zero_sign (format_at into) negative)) result }
{
    let zero = zero_of(into, negative);
    kept(zero, zero.negative != negative)
}

/// A NaN, quieted, with the leading bits of its payload that the other format has room for (IEEE 754-2019 6.2.3).
#[inline(always)]
fn carried_nan(from: Shape, into: Shape, x: Unpacked) -> Converted
    requires { IsNan from x }
    ensures stored { IsStored into result.answer.value }
    ensures converted { ConvertsAt into (IsConverted
        (converted_nan (format_at from) (format_at into) x.negative x.significand)
        (invalid_if (is_signaling (format_at from) x.significand))
        (nan_loses (format_at from) (format_at into) x.significand)) result }
{
    Converted {
        answer: converted_nan(from, into, x),
        loses_info: nan_loses(from, into, x.significand),
    }
}

/// Converts any value, out of line, so that only the conversion of a nonzero number is inlined.
#[cold]
#[inline(never)]
fn convert_apart(from: Shape, into: Shape, x: Unpacked, round: Round) -> Converted
    requires { IsStored from x }
    ensures stored { IsStored into result.answer.value }
    ensures converted { ConvertsAt into
        (IsConversion (format_at from) (format_at into) round (datum_at from x)) result }
    ensures exact { ConvertsAt into
        (IsExactlyConverted (format_at from) (format_at into) (datum_at from x)) result }
{
    match x.category {
        Category::Normal => converted_number(from, into, x, round),
        Category::Zero => converted_zero(into, x.negative),
        Category::Infinity => converted_infinity(into, x.negative),
        Category::NaN => carried_nan(from, into, x),
    }
}

/// The result of `convert_apart`, rebuilt from its fields. Otherwise its address would be passed, and the inlined
/// conversion of a number would have to zero it first.
#[inline(always)]
fn convert_other(from: Shape, into: Shape, x: Unpacked, round: Round) -> Converted
    requires { IsStored from x }
    ensures stored { IsStored into result.answer.value }
    ensures converted { ConvertsAt into
        (IsConversion (format_at from) (format_at into) round (datum_at from x)) result }
    ensures exact { ConvertsAt into
        (IsExactlyConverted (format_at from) (format_at into) (datum_at from x)) result }
{
    let converted = convert_apart(from.remade(), into.remade(), x.remade(), round);
    Converted {
        answer: remade(converted.answer),
        loses_info: converted.loses_info,
    }
}

/// A value converted to another format, rounded once, and whether information was lost (IEEE 754-2019 5.4.2,
/// convertFormat).
#[inline(always)]
pub fn convert(from: Shape, into: Shape, x: Unpacked, round: Round) -> Converted
    requires { IsStored from x }
    ensures stored { IsStored into result.answer.value }
    ensures converted { ConvertsAt into
        (IsConversion (format_at from) (format_at into) round (datum_at from x)) result }
    ensures exact { ConvertsAt into
        (IsExactlyConverted (format_at from) (format_at into) (datum_at from x)) result }
{
    match x.category {
        Category::Normal => converted_number(from, into, x, round),
        _ => convert_other(from, into, x, round),
    }
}
