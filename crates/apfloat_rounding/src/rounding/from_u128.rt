//! The rounding of a significand in a `u128` that is already rounded to odd.
//!
//! The significand is moved up to the top of the `u128`, so that the cut is always at the same digit.

ghost use Rattle.std.specs.Prelude.{◌≡◌, ℕ, ◌+◌, ◌-◌, ◌*◌, ◌^◌, ◌<◌, ◌≤◌, pos, ◌+ℤ◌, ◌≤ℤ◌};
ghost use Rattle.apfloat_model.specs.rounding.{Rounding.IsDelivered, RoundingToOdd.IsRoundedToOdd};
ghost use Rattle.apfloat_model.specs.rounding.Bounds.{IsWithin, exponent_bound, unit_bound, place_bound};
ghost use Rattle.apfloat_model.specs.rounding.Standing.{up, down};
ghost use Rattle.apfloat_rounding.specs.{Cuts.IsCut, Cuts.loss_at, Shapes.format_at, Stored.IsStored, Stored.GivesAt};

use super::{Cut, Known, deliver_any, full_place, round, split};
use crate::exponents::unit_place;
use crate::shape::Shape;
use crate::unpacked::{Unpacked, remade};
use apfloat_model::{ExpInt, Loss, Round, StatusAnd};
use apfloat_words::digits;

/// A significand with `digits` digits, moved up until it has 128.
#[inline(always)]
fn at_u128_top(significand: u128, digits: u32) -> u128
    requires word { digits ≤ 128 }
    requires any { 0 < digits }
    requires fits { significand < 2 ^ digits }
    ensures { result ≡ significand * 2 ^ (128 - digits) }
{
    significand << (128 - digits)
}

/// Cuts a significand with `digits` digits, which was rounded to odd, to the precision.
#[inline(always)]
fn cut_u128(precision: u32, significand: u128, digits: u32, unit: ExpInt) -> Cut
    requires some { 0 < precision }
    requires short { precision ≤ 125 }
    requires word { digits ≤ 128 }
    requires any { 0 < digits }
    requires fits { significand < 2 ^ digits }
    requires full { 2 ^ (digits - 1) ≤ significand }
    requires within { IsWithin unit_bound unit }
    requires above { pos precision ≤ℤ (unit +ℤ pos digits) }
    ensures fits { result.significand < 2 ^ precision }
    ensures full { 2 ^ (precision - 1) ≤ result.significand }
    ensures near { result.place < place_bound }
    ensures rest { result.rest < 2 * result.half }
    ensures cut { (amount parts : ℕ) → 0 < parts
        → IsRoundedToOdd (2 ^ (precision + 1)) significand (amount * 2 ^ down unit)
        (parts * 2 ^ up unit)
        → IsCut precision result amount parts }
{
    let pieces = split(at_u128_top(significand, digits), 128, 128 - precision);
    Cut {
        significand: pieces.kept,
        place: full_place(precision, digits, unit),
        rest: pieces.rest,
        half: pieces.half,
    }
}

/// The loss of a rest, in units of which the lowest kept digit is `2 * half`.
#[inline(always)]
fn loss_of(rest: u64, half: u64) -> Loss
    ensures { result ≡ loss_at rest half }
{
    if rest == 0 {
        Loss::ExactlyZero
    } else if rest < half {
        Loss::LessThanHalf
    } else if rest == half {
        Loss::ExactlyHalf
    } else {
        Loss::MoreThanHalf
    }
}

/// Delivers `significand * 2^exponent`, which was rounded to odd, if it is below the smallest normalized value, or
/// exact: digits below a quarter of the quantum matter only by whether they are all zero. Kept out of line, for results
/// that are rare.
#[cold]
#[inline(never)]
fn deliver_u128_below(
    shape: Shape,
    significand: u128,
    exponent: ExpInt,
    mode: Round,
    negative: bool,
) -> StatusAnd<Unpacked>
    requires within { IsWithin exponent_bound exponent }
    requires exact { pos 0 ≤ℤ ((exponent +ℤ pos (format_at shape).scale) +ℤ pos 2)
        → significand < 2 ^ (shape.precision + 1) }
    ensures stored { IsStored shape result.value }
    ensures delivered { let unit = exponent +ℤ pos (format_at shape).scale in (amount parts : ℕ)
        → 0 < parts
        → IsRoundedToOdd (2 ^ (shape.precision + 1)) significand (amount * 2 ^ down unit)
        (parts * 2 ^ up unit)
        → GivesAt shape (IsDelivered (format_at shape) mode negative amount parts) result }
{
    if unit_place(shape, exponent) >= -2 {
        return deliver_any(
            shape,
            significand,
            exponent,
            Loss::ExactlyZero,
            mode,
            negative,
        );
    }
    deliver_any(
        shape,
        significand / 4,
        exponent + 2,
        loss_of((significand % 4) as u64, 2),
        mode,
        negative,
    )
}

/// Delivers `significand * 2^exponent`, which was rounded to odd, rounded once: an odd significand may differ from the
/// exact result by less than one unit.
#[inline(always)]
pub fn deliver_u128(
    shape: Shape,
    significand: u128,
    exponent: ExpInt,
    mode: Round,
    negative: bool,
) -> StatusAnd<Unpacked>
    requires within { IsWithin exponent_bound exponent }
    ensures stored { IsStored shape result.value }
    ensures delivered { let unit = exponent +ℤ pos (format_at shape).scale in (amount parts : ℕ)
        → 0 < parts
        → IsRoundedToOdd (2 ^ (shape.precision + 1)) significand (amount * 2 ^ down unit)
        (parts * 2 ^ up unit)
        → GivesAt shape (IsDelivered (format_at shape) mode negative amount parts) result }
{
    let unit = unit_place(shape, exponent);
    let digits = digits(significand);
    if digits > 0 && unit + digits as ExpInt >= shape.precision as ExpInt {
        let cut = cut_u128(shape.precision, significand, digits, unit);
        return round(shape, Known::Normal, cut, mode, negative);
    }
    remade(deliver_u128_below(shape.remade(), significand, exponent, mode, negative))
}
