//! The rounding of a magnitude below the smallest normalized value.
//!
//! The lowest kept digit is the quantum, so the number of digits that are cut off varies from one significand to the
//! next. A longer significand is first rounded to odd into a word. There, two shifts by that number separate the
//! digits: one down leaves the digits that are kept, and one up leaves the rest at the top of the word, where half a
//! quantum is always the highest digit. There is no branch on a number of digits, on a `Loss` or on a zero, which the
//! processor could not predict.

ghost use Rattle.std.specs.Prelude.{◌≡◌, ◌⊎◌, ℕ, ◌+◌, ◌-◌, ◌*◌, ◌^◌, ◌<◌, ◌≤◌, pos, ◌+ℤ◌, ◌≤ℤ◌};
ghost use Rattle.apfloat_model.specs.rounding.{Bounds.IsWithin, Bounds.unit_bound, RoundingToOdd.IsRoundedToOdd};
ghost use Rattle.apfloat_model.specs.rounding.Standing.{StandsFor, up, down};
ghost use Rattle.apfloat_rounding.specs.Cuts.{IsCut, IsCutFinely};

use super::from_word::odd_for;
use super::{Cut, word_power};
use crate::exponents::unit_above;
use apfloat_model::{ExpInt, Loss};
use apfloat_words::shift_right;

/// How many places the quantum is above the unit, but at most 63: a shift by 63 places, like any longer one, leaves
/// nothing of 62 digits.
#[inline(always)]
fn places_below(unit: ExpInt) -> u32
    requires { (unit +ℤ pos 1) ≤ℤ pos 0 }
    ensures near { down unit ≤ 63 → result ≡ down unit }
    ensures far { 63 < down unit → result ≡ 63 }
    ensures bound { result ≤ 63 }
    ensures some { 0 < result }
{
    if unit < -63 { 63 } else { (-unit) as u32 }
}

/// At most 62 digits of a significand, rounded to odd for what was cut off below them, and their unit.
#[derive(Clone, Copy)]
pub(super) struct Word {
    pub(super) significand: u64,
    pub(super) digits: u32,
    pub(super) unit: ExpInt,
}

/// A significand with `digits` digits in a word: all of them, or the highest 62.
#[inline(always)]
pub(super) fn in_word(significand: u128, digits: u32, unit: ExpInt) -> Word
    requires short { digits ≤ 128 }
    requires fits { significand < 2 ^ digits }
    requires full { 2 ^ (digits - 1) ≤ significand }
    requires within { IsWithin unit_bound unit }
    ensures short { result.digits ≤ 62 }
    ensures long { (result.digits ≡ digits) ⊎ (result.digits ≡ 62) }
    ensures fits { result.significand < 2 ^ result.digits }
    ensures same { (result.unit +ℤ pos result.digits) ≡ (unit +ℤ pos digits) }
    ensures within { IsWithin (unit_bound + 128) result.unit }
    ensures odd { (amount parts : ℕ) → 0 < parts
        → StandsFor significand Loss.ExactlyZero (amount * 2 ^ down unit) (parts * 2 ^ up unit)
        → IsRoundedToOdd (2 ^ 61) result.significand (amount * 2 ^ down result.unit)
        (parts * 2 ^ up result.unit) }
{
    if digits <= 62 {
        return Word {
            significand: significand as u64,
            digits,
            unit,
        };
    }
    let places = digits - 62;
    let kept = shift_right(significand, places, Loss::ExactlyZero);
    Word {
        significand: odd_for(kept.significand as u64, kept.loss),
        digits: 62,
        unit: unit_above(unit, places),
    }
}

/// `significand * 2^unit` quanta below the smallest normalized value, if that is an integral number of quanta.
#[inline(always)]
pub(super) fn whole_quanta(precision: u32, significand: u64, digits: u32, unit: ExpInt) -> u64
    requires some { 0 < precision }
    requires short { precision ≤ 59 }
    requires fits { significand < 2 ^ digits }
    requires within { IsWithin unit_bound unit }
    requires below { (significand ≡ 0) ⊎ ((unit +ℤ pos (digits + 1)) ≤ℤ pos precision) }
    ensures few { result ≤ 2 ^ (precision - 1) }
    ensures quanta { (amount : ℕ) → amount * 2 ^ down unit ≡ significand * 2 ^ up unit
        → result ≡ amount }
{
    if unit < 0 {
        significand >> places_below(unit)
    } else if significand == 0 {
        0
    } else {
        significand << unit as u32
    }
}

/// Cuts the digits of a word at the quantum.
#[inline(always)]
pub(super) fn cut_at_quantum(precision: u32, word: Word) -> Cut
    requires some { 0 < precision }
    requires short { word.digits ≤ 62 }
    requires fits { word.significand < 2 ^ word.digits }
    requires within { IsWithin (unit_bound + 128) word.unit }
    requires fine { (word.unit +ℤ pos 1) ≤ℤ pos 0 }
    requires below { (word.unit +ℤ pos (word.digits + 1)) ≤ℤ pos precision }
    ensures fits { result.significand < 2 ^ (precision - 1) }
    ensures place { result.place ≡ 0 }
    ensures rest { result.rest < 2 * result.half }
    ensures cut { (amount parts : ℕ) → 0 < parts
        → IsRoundedToOdd (2 ^ (precision + 1)) word.significand (amount * 2 ^ down word.unit)
        (parts * 2 ^ up word.unit)
        → IsCut precision result amount parts × IsCutFinely precision result amount parts }
{
    let places = places_below(word.unit);
    Cut {
        significand: u128::from(word.significand >> places),
        place: 0,
        rest: word.significand << (64 - places),
        half: word_power(63),
    }
}
