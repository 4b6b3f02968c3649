//! The exponent of a hexadecimal text: the written one counts from the dot, the returned one from the last digit.

ghost use Rattle.std.specs.Prelude.{◌≡◌, ℕ, ◌+◌, ◌*◌, ◌<◌, ℤ, pos, ◌+ℤ◌, ◌-ℤ◌, ◌≤ℤ◌, drop, Some, None, MatchResult};
ghost use Rattle.apfloat_model.specs.{rounding.Bounds.IsWithin, rounding.Bounds.text_bound, texts.Digits.number};
ghost use Rattle.apfloat_model.specs.texts.{Specials.after_mark, Faults.exponent_fault, Literals.exponent_number};
ghost use Rattle.apfloat_conversions.specs.hex_texts.Saturation.{IsSaturated, IsNear, count_bound, far_bound};
ghost use Rattle.apfloat_conversions.specs.hex_texts.Saturation.{fault_after};

use crate::hex_texts::characters::{digit_value, is_decimal};
use crate::hex_texts::mark::split_mark;
use apfloat_model::ExpInt;
use apfloat_model::parse_error::Fault;

/// From this integer on, digits are no longer counted.
const FAR: u128 = 1 << 96;

/// Exponents of last digits are clamped to this distance from 0, beyond which no result changes.
const TEXT_BOUND: ExpInt = 1 << 22;

/// The integer followed by one more decimal digit; if that is at least `FAR`, possibly another integer of at least
/// `FAR`.
#[inline(always)]
fn with_digit(number: u128, digit: u8) -> u128
    requires small { digit < 16 }
    requires fits { number < count_bound }
    ensures saturated { (exact : ℕ) → IsSaturated exact number
        → IsSaturated (exact * 10 + digit) result }
    ensures fits { result < count_bound }
{
    if number < FAR {
        number * 10 + u128::from(digit)
    } else {
        number
    }
}

/// The integer that decimal digits spell, saturating from `FAR` on, or the first fault.
#[inline(always)]
fn magnitude(digits: &[u8]) -> Result<u128, Fault>
    ensures { MatchResult result (λ n. IsSaturated (number 10 digits.now) n × (n < count_bound)
        × (exponent_fault digits.now ≡ None))
        (λ fault. exponent_fault digits.now ≡ Some fault) }
{
    if digits.is_empty() {
        return Err(Fault::NoExponentDigits);
    }
    let mut number = 0;
    let mut left = digits;
    while let [byte, tail @ ..] = left {
        if !is_decimal(*byte) {
            return Err(Fault::WrongInExponent);
        }
        number = with_digit(number, digit_value(*byte));
        left = tail;
    }
    Ok(number)
}

/// The number that a text spells with decimal digits after an optional sign; past `2^96`, some number that far from 0
/// on the same side.
#[inline(always)]
pub fn signed_number(text: &[u8]) -> Result<i128, Fault>
    ensures { MatchResult result (λ e. IsNear far_bound (exponent_number text.now) e
        × IsWithin count_bound e
        × (exponent_fault (after_mark text.now) ≡ None))
        (λ fault. exponent_fault (after_mark text.now) ≡ Some fault) }
{
    let (mark, digits) = split_mark(text);
    let magnitude = magnitude(digits)? as i128;
    Ok(if mark.is_minus() {
        -magnitude
    } else {
        magnitude
    })
}

/// The written exponent in the text after a significand, or the first fault there; `some` says whether the significand
/// has a digit.
#[inline(always)]
pub fn exponent_in(tail: &[u8], some: bool) -> Result<i128, Fault>
    ensures { MatchResult result (λ e. IsNear far_bound (exponent_number (drop 1 tail.now)) e
        × IsWithin count_bound e
        × (fault_after some tail.now ≡ None))
        (λ fault. fault_after some tail.now ≡ Some fault) }
{
    match tail {
        [b'p' | b'P', exponent @ ..] if some => signed_number(exponent),
        [b'p' | b'P', ..] => Err(Fault::NoDigits),
        [_, ..] => Err(Fault::WrongInSignificand),
        [] if some => Err(Fault::NoExponent),
        [] => Err(Fault::NoDigits),
    }
}

/// The exponent of the last kept digit, from the written one, if `cut` digits were cut off and `places` digits follow
/// the dot.
#[inline(always)]
fn unit_of(exponent: i128, cut: usize, places: usize) -> i128
    requires { IsWithin count_bound exponent }
    ensures { result ≡ (exponent +ℤ pos (4 * cut)) -ℤ pos (4 * places) }
{
    exponent + 4 * cut as i128 - 4 * places as i128
}

/// The exponent of a last digit, clamped.
#[inline(always)]
fn clamped(exponent: i128) -> ExpInt
    ensures near { IsNear text_bound exponent result }
    ensures within { IsWithin text_bound result }
{
    if exponent > TEXT_BOUND as i128 {
        TEXT_BOUND
    } else if exponent < -(TEXT_BOUND as i128) {
        -TEXT_BOUND
    } else {
        exponent as ExpInt
    }
}

/// The exponent of the last kept digit, from the written one, clamped to one past every value on its side.
#[inline(always)]
pub fn unit_exponent(exponent: i128, cut: usize, places: usize) -> ExpInt
    requires { IsWithin count_bound exponent }
    ensures near { (exact : ℤ) → IsNear far_bound exact exponent
        → IsNear text_bound ((exact +ℤ pos (4 * cut)) -ℤ pos (4 * places)) result }
    ensures within { IsWithin text_bound result }
{
    clamped(unit_of(exponent, cut, places))
}
