//! The next value up.

ghost use Rattle.std.specs.Prelude.{◌≡◌, ◌^◌, ◌<◌, eqb, pos, ◌+ℤ◌, ◌-ℤ◌, ◌≤ℤ◌};
ghost use Rattle.apfloat_model.specs.{declared.kinds.Category.TheVariants.NaN, arithmetic.Exact.down};
ghost use Rattle.apfloat_model.specs.arithmetic.NextUp.{IsNextGreater, IsNextLess, IsNextOfNumber, IsNextUp};
ghost use Rattle.apfloat_model.specs.formats.Format.{largest};
ghost use Rattle.apfloat_rounding.specs.Shapes.{format_at};
ghost use Rattle.apfloat_rounding.specs.Stored.{IsStored, IsNormal, quanta_of, datum_at, GivesAt};

use apfloat_model::{Category, ExpInt, Status, StatusAnd};
use apfloat_rounding::exponents::{one_higher, one_lower};
use apfloat_rounding::nans::{quiet_significand, signals};
use apfloat_rounding::shape::Shape;
use apfloat_rounding::unpacked::{Unpacked, infinity_of, largest_of, nan_of, smallest_of, zero_of};
use apfloat_words::{power_of_two, steps_between};

/// The distance between neighbouring numbers at this exponent of the integer bit, in units of the last digit of a
/// stored significand: one unit, or a quantum for a denormal number.
#[inline(always)]
fn step(shape: Shape, exponent: ExpInt) -> u128
    requires least { ((shape.min_exp +ℤ pos 1) -ℤ pos shape.precision) ≤ℤ exponent }
    requires greatest { exponent ≤ℤ shape.max_exp }
    ensures { result ≡ 2 ^ down (exponent -ℤ shape.min_exp) }
{
    if exponent >= shape.min_exp {
        1
    } else {
        power_of_two(steps_between(shape.min_exp, exponent))
    }
}

/// The exponent of the integer bit of one quantum.
#[inline(always)]
fn least_exponent(shape: Shape) -> ExpInt
    ensures { result ≡ (shape.min_exp +ℤ pos 1) -ℤ pos shape.precision }
{
    shape.min_exp + 1 - shape.precision as ExpInt
}

/// Whether the magnitude is the largest finite one.
#[inline(always)]
fn is_largest(shape: Shape, x: Unpacked) -> bool
    requires { IsNormal shape x }
    ensures { result ≡ eqb (quanta_of shape x) (largest (format_at shape)) }
{
    if x.exponent == shape.max_exp {
        x.significand == shape.greatest_significand()
    } else {
        false
    }
}

/// The least number that is greater than a positive one below the largest.
#[inline(always)]
fn next_greater(shape: Shape, x: Unpacked) -> Unpacked
    requires normal { IsNormal shape x }
    requires below { quanta_of shape x < largest (format_at shape) }
    ensures stored { IsStored shape result }
    ensures next { IsNextGreater (format_at shape) (quanta_of shape x) (datum_at shape result) 0 }
{
    let significand = x.significand + step(shape, x.exponent);
    if significand < power_of_two(shape.precision) {
        Unpacked {
            significand,
            exponent: x.exponent,
            category: Category::Normal,
            negative: false,
        }
    } else {
        Unpacked {
            significand: shape.integer_bit(),
            exponent: one_higher(x.exponent),
            category: Category::Normal,
            negative: false,
        }
    }
}

/// The least number that is greater than a negative one: the next smaller magnitude.
#[inline(always)]
fn next_less(shape: Shape, x: Unpacked) -> Unpacked
    requires { IsNormal shape x }
    ensures stored { IsStored shape result }
    ensures next { IsNextLess (format_at shape) (quanta_of shape x) (datum_at shape result) 0 }
{
    if x.significand > shape.integer_bit() {
        return Unpacked {
            significand: x.significand - step(shape, x.exponent),
            exponent: x.exponent,
            category: Category::Normal,
            negative: true,
        };
    }
    if x.exponent == least_exponent(shape) {
        return zero_of(shape, true);
    }
    let exponent = one_lower(x.exponent);
    Unpacked {
        significand: power_of_two(shape.precision) - step(shape, exponent),
        exponent,
        category: Category::Normal,
        negative: true,
    }
}

/// The next value up from a nonzero number.
#[inline(always)]
fn next_of_number(shape: Shape, x: Unpacked) -> Unpacked
    requires { IsNormal shape x }
    ensures stored { IsStored shape result }
    ensures next { IsNextOfNumber (format_at shape) x.negative (quanta_of shape x)
        (datum_at shape result) 0 }
{
    if x.negative {
        next_less(shape, x)
    } else if is_largest(shape, x) {
        infinity_of(shape, false)
    } else {
        next_greater(shape, x)
    }
}

/// The next value up from a NaN: the NaN itself, or, if it is signaling, the quiet one without a payload.
#[inline(always)]
fn next_of_nan(shape: Shape, x: Unpacked) -> StatusAnd<Unpacked>
    requires stored { IsStored shape x }
    requires nan { x.category ≡ NaN }
    ensures stored { IsStored shape result.value }
    ensures next { GivesAt shape (IsNextUp (format_at shape) (datum_at shape x)) result }
{
    if signals(shape, x.significand) {
        Status::INVALID_OP.and(nan_of(shape, x.negative, quiet_significand(shape, 0)))
    } else {
        Status::OK.and(x)
    }
}

/// The least value that compares greater (IEEE 754-2019 5.3.1, nextUp).
#[inline(always)]
pub fn next_up(shape: Shape, x: Unpacked) -> StatusAnd<Unpacked>
    requires { IsStored shape x }
    ensures stored { IsStored shape result.value }
    ensures next { GivesAt shape (IsNextUp (format_at shape) (datum_at shape x)) result }
{
    match x.category {
        Category::Normal => Status::OK.and(next_of_number(shape, x)),
        Category::Zero => Status::OK.and(smallest_of(shape)),
        Category::Infinity => Status::OK.and(if x.negative {
            largest_of(shape, true)
        } else {
            x
        }),
        Category::NaN => next_of_nan(shape, x),
    }
}
