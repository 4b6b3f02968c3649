//! A number cut once, at the last digit that a precision keeps.

ghost use Rattle.std.specs.Prelude.{◌≡◌, ◌⊎◌, ℕ, ◌+◌, ◌-◌, ◌*◌, ◌/◌, ◌%◌, ◌^◌, ◌<◌, ◌≤◌, pos, neg_ℤ, ◌≤ℤ◌};
ghost use Rattle.apfloat_model.specs.rounding.Bounds.{IsWithin, unit_bound, place_bound};
ghost use Rattle.apfloat_model.specs.rounding.{Enclosure.IsEnclosed, Standing.StandsFor, Standing.up, Standing.down};

use apfloat_base::ExpInt;
use apfloat_model::Loss;
use apfloat_words::{low_digits, shift_right};

/// The number of digits of what is cut.
pub(crate) const DIGITS: u32 = 125;

/// The digits that are kept, the place of the last of them, how many were cut off below it, and what they were.
#[derive(Clone, Copy)]
pub(crate) struct Kept {
    pub significand: u128,
    pub place: u32,
    pub places: u32,
    pub loss: Loss,
}

/// The place of the lowest kept digit of a number with `count` digits at `unit`; places and units are counted from the
/// quantum.
pub fn kept_place(precision: u32, count: u32, unit: ExpInt) -> u32
    requires precise { precision ≤ 125 }
    requires short { count ≤ 128 }
    requires within { IsWithin unit_bound unit }
    ensures near { result < place_bound }
    ensures covers { count + up unit ≤ result + precision + down unit }
    ensures reached { (result ≡ 0) ⊎ (count + up unit ≡ result + precision + down unit) }
{
    let top = count as ExpInt + unit;
    if top > precision as ExpInt {
        (top - precision as ExpInt) as u32
    } else {
        0
    }
}

/// How far the place is above the unit.
pub fn steps_up(unit: ExpInt, place: u32) -> u32
    requires above { unit ≤ℤ pos place }
    requires near { place ≤ place_bound }
    requires far { neg_ℤ (pos unit_bound) ≤ℤ unit }
    ensures { result + up unit ≡ place + down unit }
{
    (place as ExpInt - unit) as u32
}

/// A number with `count` digits at `unit`, below which `loss` was lost, cut to the digits that the precision keeps of
/// it. It has as many digits as the precision keeps, so that it is cut only once.
pub(crate) fn cut_number(precision: u32, number: u128, count: u32, unit: ExpInt, loss: Loss) -> Kept
    requires some { 0 < precision }
    requires precise { precision ≤ 125 }
    requires long { precision ≤ count }
    requires short { count ≤ 128 }
    requires low { 2 ^ (count - 1) ≤ number }
    requires high { number < 2 ^ count }
    requires within { IsWithin unit_bound unit }
    ensures fits { result.significand < 2 ^ precision }
    ensures full { (result.place ≡ 0) ⊎ (2 ^ (precision - 1) ≤ result.significand) }
    ensures near { result.place < place_bound }
    ensures places { result.places + up unit ≡ result.place + down unit }
    ensures quotient { result.significand ≡ number / 2 ^ result.places }
    ensures rest { StandsFor number loss number 1
        → StandsFor result.significand result.loss number (2 ^ result.places * 1) }
    ensures cut { (amount parts : ℕ) → 0 < parts
        → StandsFor number loss (amount * 2 ^ down unit) (parts * 2 ^ up unit)
        → IsEnclosed precision (2 ^ (precision - 1)) result.significand result.place amount parts
        × StandsFor result.significand result.loss amount (2 ^ result.place * parts) }
{
    let place = kept_place(precision, count, unit);
    let places = steps_up(unit, place);
    let shifted = shift_right(number, places, loss);
    Kept {
        significand: shifted.significand,
        place,
        places,
        loss: shifted.loss,
    }
}

/// A number with `DIGITS` digits at `unit`, cut to the digits that the precision keeps of it.
pub(crate) fn cut(precision: u32, digits: u128, unit: ExpInt) -> Kept
    requires some { 0 < precision }
    requires precise { precision ≤ 125 }
    requires low { 2 ^ 124 ≤ digits }
    requires high { digits < 2 ^ 125 }
    requires within { IsWithin unit_bound unit }
    ensures fits { result.significand < 2 ^ precision }
    ensures full { (result.place ≡ 0) ⊎ (2 ^ (precision - 1) ≤ result.significand) }
    ensures near { result.place < place_bound }
    ensures places { result.places + up unit ≡ result.place + down unit }
    ensures quotient { result.significand ≡ digits / 2 ^ result.places }
    ensures rest { StandsFor result.significand result.loss digits (2 ^ result.places * 1) }
    ensures cut { (amount parts : ℕ) → 0 < parts
        → amount * 2 ^ down unit ≡ digits * (parts * 2 ^ up unit)
        → IsEnclosed precision (2 ^ (precision - 1)) result.significand result.place amount parts
        × StandsFor result.significand result.loss amount (2 ^ result.place * parts) }
{
    cut_number(precision, digits, DIGITS, unit, Loss::ExactlyZero)
}

/// How many parts the rest that was cut off has, where the lowest kept digit has 2^digits; only whole ones count.
pub fn parts_of_rest(number: u128, places: u32, digits: u32) -> u64
    requires few { digits ≤ 32 }
    ensures value { result ≡ 2 ^ digits * (number % 2 ^ places) / 2 ^ places }
    ensures below { result < 2 ^ digits }
{
    if places <= digits {
        (low_digits(number, places) as u64) << (digits - places)
    } else {
        let shifted = shift_right(number, places - digits, Loss::ExactlyZero);
        low_digits(shifted.significand, digits) as u64
    }
}
