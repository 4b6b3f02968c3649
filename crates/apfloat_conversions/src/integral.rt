//! Rounding values to integers in their own format.

ghost use Rattle.std.specs.Prelude.{◌≡◌, ◌%◌, ◌^◌, eqb};
ghost use Rattle.apfloat_model.specs.{order.Classes.is_integer, declared.kinds.Category.TheVariants.Normal};
ghost use Rattle.apfloat_model.specs.whole_numbers.WholeNumbers.{IsRoundToIntegral};
ghost use Rattle.apfloat_rounding.specs.Shapes.{format_at};
ghost use Rattle.apfloat_rounding.specs.Stored.{IsStored, IsNormal, quanta_of, datum_at, GivesAt};

use crate::integers::status_of;
use crate::whole::round_at_dot;
use apfloat_model::{Category, Round, Status, StatusAnd};
use apfloat_rounding::exponents::last_exponent;
use apfloat_rounding::nans::propagated;
use apfloat_rounding::shape::Shape;
use apfloat_rounding::unpacked::{Unpacked, from_quanta};

/// A nonzero number, rounded to an integer.
#[inline(always)]
fn round_number(shape: Shape, x: Unpacked, round: Round) -> StatusAnd<Unpacked>
    requires number { x.category ≡ Normal }
    requires normal { IsNormal shape x }
    ensures stored { IsStored shape result.value }
    ensures delivered { GivesAt shape
        (IsRoundToIntegral (format_at shape) round (datum_at shape x)) result }
{
    let exponent = last_exponent(shape, x.exponent);
    if exponent >= 0 {
        return Status::OK.and(x);
    }
    let whole = round_at_dot(shape, x, exponent, round);
    status_of(whole.exact).and(from_quanta(shape, x.negative, whole.magnitude, shape.scale()))
}

/// A value rounded to an integer in its own format (IEEE 754-2019 5.9, roundToIntegralExact).
#[inline(always)]
pub fn round_to_integral(shape: Shape, x: Unpacked, round: Round) -> StatusAnd<Unpacked>
    requires { IsStored shape x }
    ensures stored { IsStored shape result.value }
    ensures delivered { GivesAt shape
        (IsRoundToIntegral (format_at shape) round (datum_at shape x)) result }
{
    match x.category {
        Category::Normal => round_number(shape, x, round),
        Category::NaN => propagated(shape, x),
        Category::Zero => Status::OK.and(x),
        _ => Status::OK.and(x),
    }
}

/// Whether a nonzero number is an integer.
#[inline(always)]
fn is_whole_number(shape: Shape, x: Unpacked) -> bool
    requires { IsNormal shape x }
    ensures { result ≡ eqb (quanta_of shape x % 2 ^ (format_at shape).scale) 0 }
{
    let exponent = last_exponent(shape, x.exponent);
    if exponent >= 0 {
        return true;
    }
    round_at_dot(shape, x, exponent, Round::TowardZero).exact
}

/// Whether a value is finite and an integer; true for zeros.
#[inline(always)]
pub fn is_integer(shape: Shape, x: Unpacked) -> bool
    requires { IsStored shape x }
    ensures { result ≡ is_integer (format_at shape) (datum_at shape x) }
{
    match x.category {
        Category::Normal => is_whole_number(shape, x),
        Category::Zero => true,
        Category::Infinity => false,
        _ => false,
    }
}
