//! Tests whether a format has all numbers of another, or those with a given exponent, and the conversion of such
//! numbers.

ghost use Rattle.std.specs.Prelude.{◌≡◌, ◌-◌, ◌*◌, ◌^◌, ◌≤◌, true};
ghost use Rattle.apfloat_model.specs.formats.Datum.{finite};
ghost use Rattle.apfloat_rounding.specs.Shapes.{format_at};
ghost use Rattle.apfloat_rounding.specs.Stored.{IsNormal, IsStored, datum_at, quanta_of};
ghost use Rattle.apfloat_conversions.specs.Held.{IsHeld, IsHeldNumber, IsInside, IsReached};

use apfloat_model::{Category, ExpInt};
use apfloat_rounding::shape::Shape;
use apfloat_rounding::unpacked::{Unpacked, significand_of};

/// Whether the largest value of `from` is at most that of `into`, which has at least as many digits.
#[inline(always)]
fn reaches(from: Shape, into: Shape) -> bool
    requires { from.precision ≤ into.precision }
    ensures { result ≡ true → IsReached from into }
{
    if from.max_exp == into.max_exp {
        let places = into.precision - from.precision;
        from.greatest_significand() << places <= into.greatest_significand()
    } else {
        from.max_exp < into.max_exp
    }
}

/// Whether every number of the first format is also a number of the second.
#[inline(always)]
fn holds(from: Shape, into: Shape) -> bool
    ensures { result ≡ true → IsHeld from into }
{
    if from.precision > into.precision || from.scale() > into.scale() {
        return false;
    }
    reaches(from, into)
}

/// Whether another format has at least as many digits as a number, and all of them available at this exponent of the
/// integer bit.
#[inline(always)]
fn is_inside(from: Shape, into: Shape, exponent: ExpInt) -> bool
    ensures { result ≡ true → IsInside from into exponent }
{
    from.precision <= into.precision && into.min_exp <= exponent && exponent < into.max_exp
}

/// Whether another format has a number, as far as the formats or its exponent decide.
#[inline(always)]
pub fn has(from: Shape, into: Shape, x: Unpacked) -> bool
    ensures { result ≡ true → IsHeldNumber from into x }
{
    holds(from, into) || is_inside(from, into, x.exponent)
}

/// A number in a format that has it: the significand is extended with zeros to the precision of that format.
#[inline(always)]
pub fn widened(from: Shape, into: Shape, x: Unpacked) -> Unpacked
    requires held { IsHeldNumber from into x }
    requires x { IsNormal from x }
    ensures stored { IsStored into result }
    ensures datum { datum_at into result ≡ finite x.negative (quanta_of into result) }
    ensures same { quanta_of from x * 2 ^ (format_at into).scale
        ≡ quanta_of into result * 2 ^ (format_at from).scale }
{
    Unpacked {
        significand: significand_of(from, x) << (into.precision - from.precision),
        exponent: x.exponent,
        category: Category::Normal,
        negative: x.negative,
    }
}
