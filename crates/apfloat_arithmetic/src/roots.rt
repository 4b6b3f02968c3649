//! Square roots.

ghost use Rattle.std.specs.Prelude.{◌≡◌, ◌-◌, ◌*◌, ◌^◌, ◌<◌, ◌≤◌, pos, ◌+ℤ◌, true, false};
ghost use Rattle.apfloat_model.specs.rounding.Bounds.{IsWithin, number_bound};
ghost use Rattle.apfloat_model.specs.arithmetic.Roots.{IsDeliveredRoot, IsRoot};
ghost use Rattle.apfloat_rounding.specs.Shapes.{format_at};
ghost use Rattle.apfloat_rounding.specs.Stored.{IsStored, IsNormal, quanta_of, datum_at, GivesAt};

use crate::specials::{Operation, special};
use apfloat_model::{Category, ExpInt, Round, StatusAnd};
use apfloat_rounding::exponents::last_exponent;
use apfloat_rounding::rounding::deliver;
use apfloat_rounding::shape::Shape;
use apfloat_rounding::unpacked::Unpacked;
use apfloat_words::root_of;

/// Half of an exponent, rounded down, and 1 if it is odd.
#[derive(Clone, Copy)]
pub struct Halves {
    /// Half of it, rounded down.
    pub half: ExpInt,
    /// 1 if it is odd.
    pub odd: u32,
}

/// Half of the even number that is added to an exponent so that it is not negative: exponents of numbers are at most
/// this far from 0.
const HALF_RAISE: ExpInt = 2097152;

/// Half of an exponent. An even number is added first, so that the exponent is not negative.
#[inline(always)]
pub fn halves_of(exponent: ExpInt) -> Halves
    requires { IsWithin number_bound exponent }
    ensures odd { result.odd ≤ 1 }
    ensures halves { exponent ≡ (result.half +ℤ result.half) +ℤ pos result.odd }
    ensures within { IsWithin number_bound result.half }
{
    let raised = (exponent + 2 * HALF_RAISE) as u32;
    Halves {
        half: (raised / 2) as ExpInt - HALF_RAISE,
        odd: raised % 2,
    }
}

/// The root of a positive number, rounded once. The significand is followed by as many zeros as an integral root with
/// all digits of the format and an even exponent require.
#[inline(always)]
fn root_of_number(shape: Shape, x: Unpacked, round: Round) -> StatusAnd<Unpacked>
    requires { IsNormal shape x }
    ensures stored { IsStored shape result.value }
    ensures delivered { GivesAt shape (IsDeliveredRoot (format_at shape) round
        (quanta_of shape x * 2 ^ (format_at shape).scale) 1) result }
{
    let exponent = halves_of(x.exponent);
    let places = shape.precision - 1 + exponent.odd;
    let root = root_of(shape.precision, x.significand, places);
    let last = last_exponent(shape, exponent.half);
    deliver(shape, root.whole, last, root.loss, round, false)
}

/// Whether the value is a positive number, neither zero nor infinity.
#[inline(always)]
fn is_positive_number(x: Unpacked) -> bool
    ensures yes { result ≡ true → (x.category ≡ Category.Normal) × (x.negative ≡ false) }
    ensures no { result ≡ false → x.category ≡ Category.Normal → x.negative ≡ true }
{
    (x.category == Category::Normal) & !x.negative
}

/// The square root of a value, rounded once (IEEE 754-2019 5.4.1, squareRoot).
#[inline(always)]
pub fn square_root(shape: Shape, x: Unpacked, round: Round) -> StatusAnd<Unpacked>
    requires { IsStored shape x }
    ensures stored { IsStored shape result.value }
    ensures delivered { GivesAt shape (IsRoot (format_at shape) round (datum_at shape x)) result }
{
    if is_positive_number(x) {
        root_of_number(shape, x, round)
    } else {
        special(shape, Operation::Root(x.remade()))
    }
}
