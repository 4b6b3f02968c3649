//! Scaling by powers of two, exponents, and the decomposition of values into a fraction and a power of two.

ghost use Rattle.std.specs.Prelude.{◌≡◌, ◌⊎◌, ◌*◌, ◌^◌, pos, neg_ℤ, ◌+ℤ◌, ◌≤ℤ◌};
ghost use Rattle.apfloat_model.specs.arithmetic.{Exact.up, Exact.down, Exponents.IsIlogb, Exponents.IsFrexp};
ghost use Rattle.apfloat_model.specs.arithmetic.{Exponents.IsFraction, Scaling.IsScaling};
ghost use Rattle.apfloat_model.specs.rounding.Bounds.{IsWithin, number_bound, scaling_bound, integer_bit_bound};
ghost use Rattle.apfloat_model.specs.rounding.Rounding.{IsDelivered};
ghost use Rattle.apfloat_rounding.specs.Shapes.{format_at};
ghost use Rattle.apfloat_rounding.specs.Stored.{IsStored, IsNormal, quanta_of, datum_at, GivesAt};
ghost use Rattle.apfloat_conversions.specs.Scalings.{IsScaled};

use apfloat_model::{Category, ExpInt, IEK_INF, IEK_NAN, IEK_ZERO, Loss, Round, Status, StatusAnd};
use apfloat_rounding::exponents::{last_exponent, one_higher};
use apfloat_rounding::nans::propagated;
use apfloat_rounding::rounding::deliver;
use apfloat_rounding::shape::Shape;
use apfloat_rounding::unpacked::Unpacked;

/// Scaling by more places than this gives the same results as scaling by this many.
const SCALING_BOUND: ExpInt = 6_000_000;

/// The number of places, clamped to a range beyond which no result changes.
#[inline(always)]
pub fn clamped(places: ExpInt) -> ExpInt
    ensures within { IsWithin scaling_bound result }
    ensures is { (result ≡ places)
        ⊎ (((result ≡ pos scaling_bound) × (pos scaling_bound ≤ℤ places))
        ⊎ ((result ≡ neg_ℤ (pos scaling_bound)) × (places ≤ℤ neg_ℤ (pos scaling_bound)))) }
{
    if places > SCALING_BOUND {
        SCALING_BOUND
    } else if places < -SCALING_BOUND {
        -SCALING_BOUND
    } else {
        places
    }
}

/// The exponent of the integer bit after scaling by `places`.
#[inline(always)]
fn moved(exponent: ExpInt, places: ExpInt) -> ExpInt
    requires exponent { IsWithin number_bound exponent }
    requires places { IsWithin scaling_bound places }
    ensures value { result ≡ exponent +ℤ places }
    ensures within { IsWithin integer_bit_bound result }
{
    exponent + places
}

/// A nonzero number times 2 to the power of `places`, rounded once.
#[inline(always)]
fn scale_number(shape: Shape, x: Unpacked, places: ExpInt, round: Round) -> StatusAnd<Unpacked>
    requires { IsNormal shape x }
    ensures stored { IsStored shape result.value }
    ensures delivered { GivesAt shape (IsDelivered (format_at shape) round x.negative
        (quanta_of shape x * 2 ^ up places) (2 ^ down places)) result }
{
    let near = clamped(places);
    let exponent = last_exponent(shape, moved(x.exponent, near));
    deliver(
        shape,
        x.significand,
        exponent,
        Loss::ExactlyZero,
        round,
        x.negative,
    )
}

/// A value times 2 to the power of `places`, rounded once (IEEE 754-2019 5.3.3, scaleB).
#[inline(always)]
pub fn scaled(shape: Shape, x: Unpacked, places: ExpInt, round: Round) -> Unpacked
    requires { IsStored shape x }
    ensures stored { IsStored shape result }
    ensures scaled { IsScaling (format_at shape) round (datum_at shape x) places
        (datum_at shape result) }
{
    match x.category {
        Category::Normal => scale_number(shape, x, places, round).value,
        Category::NaN => propagated(shape, x).value,
        Category::Zero => x,
        _ => x,
    }
}

/// A value times 2 to the power of `places`, rounded once, with its status (IEEE 754-2019 5.3.3, scaleB).
#[inline(always)]
pub fn scaled_with_status(
    shape: Shape,
    x: Unpacked,
    places: ExpInt,
    round: Round,
) -> StatusAnd<Unpacked>
    requires { IsStored shape x }
    ensures stored { IsStored shape result.value }
    ensures scaled { GivesAt shape (IsScaled (format_at shape) round (datum_at shape x) places)
        result }
{
    match x.category {
        Category::Normal => scale_number(shape, x, places, round),
        Category::NaN => propagated(shape, x),
        Category::Zero => Status::OK.and(x),
        _ => Status::OK.and(x),
    }
}

/// The exponent of the highest digit of a value, or the constant returned in its place (IEEE 754-2019 5.3.3, logB).
#[inline(always)]
pub fn ilogb(shape: Shape, x: Unpacked) -> ExpInt
    requires { IsStored shape x }
    ensures { IsIlogb (format_at shape) (datum_at shape x) result }
{
    match x.category {
        Category::Normal => x.exponent,
        Category::Zero => IEK_ZERO,
        Category::Infinity => IEK_INF,
        _ => IEK_NAN,
    }
}

/// A value of magnitude from 0.5 to below 1, and the exponent of the power of two that it is multiplied by.
#[derive(Clone, Copy)]
pub struct Fraction {
    /// The fraction, with the sign of the value; a zero or an infinity itself, and a NaN quieted.
    pub value: Unpacked,
    /// One more than the exponent of the integer bit of a number; 0 for a zero, `IEK_INF` for an infinity, `IEK_NAN`
    /// for a NaN.
    pub exponent: ExpInt,
}

/// The fraction of a nonzero number, and its exponent.
#[inline(always)]
fn number_fraction(shape: Shape, x: Unpacked) -> Fraction
    requires { IsNormal shape x }
    ensures stored { IsStored shape result.value }
    ensures fraction { IsFraction (format_at shape) x.negative (quanta_of shape x)
        (datum_at shape result.value) result.exponent }
{
    Fraction {
        value: Unpacked {
            significand: x.significand,
            exponent: -1,
            category: Category::Normal,
            negative: x.negative,
        },
        exponent: one_higher(x.exponent),
    }
}

/// The fraction of a value and its exponent; the fraction times 2 to that power is the value. A zero, an infinity or a
/// NaN is its own fraction (the NaN quieted), with 0, `IEK_INF` or `IEK_NAN`.
#[inline(always)]
pub fn fraction_of(shape: Shape, x: Unpacked) -> Fraction
    requires { IsStored shape x }
    ensures stored { IsStored shape result.value }
    ensures fraction { IsFrexp (format_at shape) (datum_at shape x)
        (datum_at shape result.value) result.exponent }
{
    match x.category {
        Category::Normal => number_fraction(shape, x),
        Category::Zero => Fraction {
            value: x,
            exponent: 0,
        },
        Category::Infinity => Fraction {
            value: x,
            exponent: IEK_INF,
        },
        Category::NaN => Fraction {
            value: propagated(shape, x).value,
            exponent: IEK_NAN,
        },
    }
}
