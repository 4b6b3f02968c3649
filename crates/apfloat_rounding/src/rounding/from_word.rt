//! The rounding of a significand in one word that is already rounded to odd.
//!
//! It has at least two digits more than the format keeps, or it is exact. So the rest that is cut off compares with
//! zero and with half as the exact rest does, since both are even numbers of its units. The significand is moved up to
//! the top of a word, so that the cut is always at the same digit.

ghost use Rattle.std.specs.Prelude.{◌≡◌, ℕ, ◌+◌, ◌-◌, ◌*◌, ◌%◌, ◌^◌, ◌<◌, ◌≤◌, pos, ◌+ℤ◌, ◌≤ℤ◌};
ghost use Rattle.apfloat_model.specs.rounding.{Rounding.IsDelivered, RoundingToOdd.IsRoundedToOdd};
ghost use Rattle.apfloat_model.specs.rounding.Bounds.{IsWithin, exponent_bound, unit_bound, place_bound};
ghost use Rattle.apfloat_model.specs.rounding.Standing.{StandsFor, up, down};
ghost use Rattle.apfloat_rounding.specs.{Cuts.IsCut, Shapes.format_at, Stored.IsStored, Stored.GivesAt};

use super::denormal::{Word, cut_at_quantum, whole_quanta};
use super::{Cut, Known, full_place, low_of_word, round, round_below, word_power};
use crate::exponents::unit_place;
use crate::shape::Shape;
use crate::unpacked::{Unpacked, from_few_quanta};
use apfloat_model::{ExpInt, Loss, Round, Status, StatusAnd};
use apfloat_words::{digits, is_exact};

/// A significand with `digits` digits, moved up until it has 64.
#[inline(always)]
fn at_word_top(significand: u64, digits: u32) -> u64
    requires word { digits ≤ 64 }
    requires any { 0 < digits }
    requires fits { significand < 2 ^ digits }
    ensures { result ≡ significand * 2 ^ (64 - digits) }
{
    significand << (64 - digits)
}

/// Cuts a significand with `digits` digits, which was rounded to odd, to the precision.
#[inline(always)]
fn cut_word(precision: u32, significand: u64, digits: u32, unit: ExpInt) -> Cut
    requires some { 0 < precision }
    requires short { precision ≤ 59 }
    requires word { digits ≤ 64 }
    requires any { 0 < digits }
    requires fits { significand < 2 ^ digits }
    requires full { 2 ^ (digits - 1) ≤ significand }
    requires within { IsWithin unit_bound unit }
    requires above { pos precision ≤ℤ (unit +ℤ pos digits) }
    ensures fits { result.significand < 2 ^ precision }
    ensures full { 2 ^ (precision - 1) ≤ result.significand }
    ensures near { result.place < place_bound }
    ensures rest { result.rest < 2 * result.half }
    ensures cut { (amount parts : ℕ) → 0 < parts
        → IsRoundedToOdd (2 ^ (precision + 1)) significand (amount * 2 ^ down unit)
        (parts * 2 ^ up unit)
        → IsCut precision result amount parts }
{
    let top = at_word_top(significand, digits);
    let places = 64 - precision;
    Cut {
        significand: u128::from(top >> places),
        place: full_place(precision, digits, unit),
        rest: low_of_word(top, places),
        half: word_power(places - 1),
    }
}

/// Delivers `significand * 2^exponent`, which was rounded to odd, rounded once: an odd significand may differ from the
/// exact result by less than one unit.
#[inline(always)]
pub fn deliver_word(
    shape: Shape,
    significand: u64,
    exponent: ExpInt,
    mode: Round,
    negative: bool,
) -> StatusAnd<Unpacked>
    requires short { shape.precision ≤ 59 }
    requires within { IsWithin exponent_bound exponent }
    ensures stored { IsStored shape result.value }
    ensures delivered { let unit = exponent +ℤ pos (format_at shape).scale in (amount : ℕ)
        → IsRoundedToOdd (2 ^ (shape.precision + 1)) significand (amount * 2 ^ down unit)
        (1 * 2 ^ up unit)
        → GivesAt shape (IsDelivered (format_at shape) mode negative amount 1) result }
{
    let unit = unit_place(shape, exponent);
    let digits = digits(u128::from(significand));
    if digits > 0 && unit + digits as ExpInt >= shape.precision as ExpInt {
        let cut = cut_word(shape.precision, significand, digits, unit);
        return round(shape, Known::Normal, cut, mode, negative);
    }
    let quanta = whole_quanta(shape.precision, significand, digits, unit);
    Status::OK.and(from_few_quanta(shape, negative, quanta))
}

/// The significand, rounded to odd for what was lost below it.
#[inline(always)]
pub(super) fn odd_for(significand: u64, loss: Loss) -> u64
    requires room { significand < 2 ^ 63 }
    ensures rounded { (least amount unit : ℕ) → least ≤ significand → 0 < unit
        → StandsFor significand loss amount unit → IsRoundedToOdd least result amount unit }
    ensures bound { result ≤ significand + 1 - significand % 2 }
    ensures above { significand ≤ result }
{
    if !is_exact(loss) & (significand % 2 == 0) {
        significand + 1
    } else {
        significand
    }
}

/// Cuts off the last two digits of a significand that was rounded to odd with two digits more than the precision.
#[inline(always)]
fn cut_quarters(precision: u32, significand: u64, unit: ExpInt) -> Cut
    requires some { 0 < precision }
    requires short { precision ≤ 59 }
    requires fits { significand < 2 ^ (precision + 2) }
    requires full { 2 ^ (precision + 1) ≤ significand }
    requires within { IsWithin unit_bound unit }
    requires above { pos 0 ≤ℤ (unit +ℤ pos 2) }
    ensures fits { result.significand < 2 ^ precision }
    ensures full { 2 ^ (precision - 1) ≤ result.significand }
    ensures near { result.place < place_bound }
    ensures rest { result.rest < 2 * result.half }
    ensures cut { (amount parts : ℕ) → 0 < parts
        → IsRoundedToOdd (2 ^ (precision + 1)) significand (amount * 2 ^ down unit)
        (parts * 2 ^ up unit)
        → IsCut precision result amount parts }
{
    Cut {
        significand: u128::from(significand / 4),
        place: full_place(precision, precision + 2, unit),
        rest: significand % 4,
        half: 2,
    }
}

/// Delivers `significand * 2^exponent`, which was rounded to odd and has two digits more than the format keeps, rounded
/// once.
#[inline(always)]
pub fn deliver_counted_word(
    shape: Shape,
    significand: u64,
    exponent: ExpInt,
    mode: Round,
    negative: bool,
) -> StatusAnd<Unpacked>
    requires short { shape.precision ≤ 59 }
    requires fits { significand < 2 ^ (shape.precision + 2) }
    requires full { 2 ^ (shape.precision + 1) ≤ significand }
    requires within { IsWithin exponent_bound exponent }
    ensures stored { IsStored shape result.value }
    ensures delivered { let unit = exponent +ℤ pos (format_at shape).scale in (amount parts : ℕ)
        → 0 < parts
        → IsRoundedToOdd (2 ^ (shape.precision + 1)) significand (amount * 2 ^ down unit)
        (parts * 2 ^ up unit)
        → GivesAt shape (IsDelivered (format_at shape) mode negative amount parts) result }
{
    let unit = unit_place(shape, exponent);
    if unit >= -2 {
        let cut = cut_quarters(shape.precision, significand, unit);
        return round(shape, Known::Normal, cut, mode, negative);
    }
    let word = Word {
        significand,
        digits: shape.precision + 2,
        unit,
    };
    let cut = cut_at_quantum(shape.precision, word);
    round_below(shape, cut, mode, negative)
}
