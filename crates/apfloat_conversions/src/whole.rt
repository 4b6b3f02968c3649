//! Rounding a number to an integer.

ghost use Rattle.std.specs.Prelude.{◌≡◌, ℕ, ◌+◌, ◌-◌, ◌*◌, ◌/◌, ◌^◌, ◌<◌, ◌≤◌, pos, ◌+ℤ◌, ◌-ℤ◌, ◌≤ℤ◌};
ghost use Rattle.apfloat_model.specs.rounding.Standing.{StandsFor};
ghost use Rattle.apfloat_rounding.specs.{Shapes.format_at, Stored.IsNormal, Stored.quanta_of};
ghost use Rattle.apfloat_conversions.specs.Wholes.{IsPicked, IsPickedWithin};

use apfloat_model::{ExpInt, Loss, Round};
use apfloat_rounding::exponents::last_exponent;
use apfloat_rounding::rounding::{low_of_word, moves_past, moves_up, next_word_if, word_power};
use apfloat_rounding::shape::Shape;
use apfloat_rounding::unpacked::Unpacked;
use apfloat_words::{is_exact, power_of_two, shift_right, steps_between};

/// The magnitude of the integer that a number was rounded to, and whether it is exact.
#[derive(Clone, Copy)]
pub struct Whole {
    /// The integer without its sign.
    pub magnitude: u128,
    /// Whether the number itself was that integer.
    pub exact: bool,
}

/// How far a word is shifted: 63 places already leave nothing of 62 digits.
#[inline(always)]
fn word_places(places: u32) -> u32
    ensures near { places ≤ 63 → result ≡ places }
    ensures far { 63 < places → result ≡ 63 }
    ensures bound { result ≤ 63 }
    ensures some { 0 < places → 0 < result }
{
    if places > 63 { 63 } else { places }
}

/// At most 62 digits, the lowest `places` of them after the binary point, rounded by the mode to an integer in one
/// word. There is no branch on the digits, since a processor cannot predict them.
#[inline(always)]
fn round_in_word(significand: u128, places: u32, round: Round, negative: bool) -> Whole
    requires short { significand < 2 ^ 62 }
    requires some { 0 < places }
    ensures bound { result.magnitude ≤ significand / 2 ^ places + 1 }
    ensures picked { (amount parts : ℕ) → 0 < parts → amount * 2 ^ places ≡ significand * parts
        → IsPicked round negative amount parts result }
{
    let word = significand as u64;
    let shift = word_places(places);
    let half = word_power(shift - 1);
    let rest = low_of_word(word, shift);
    let kept = word >> shift;
    let moved = moves_past(round, negative, rest, half, kept % 2 == 1);
    Whole {
        magnitude: u128::from(next_word_if(kept, moved)),
        exact: rest == 0,
    }
}

/// `significand * 2^-places`, rounded by the mode to an integer.
#[inline(always)]
fn round_fraction(
    precision: u32,
    significand: u128,
    places: u32,
    round: Round,
    negative: bool,
) -> Whole
    requires precise { precision ≤ 125 }
    requires fits { significand < 2 ^ precision }
    requires some { 0 < places }
    ensures bound { result.magnitude ≤ significand / 2 ^ places + 1 }
    ensures picked { (amount parts : ℕ) → 0 < parts → amount * 2 ^ places ≡ significand * parts
        → IsPicked round negative amount parts result }
{
    if precision <= 62 {
        return round_in_word(significand, places, round, negative);
    }
    let kept = shift_right(significand, places, Loss::ExactlyZero);
    let exact = is_exact(kept.loss);
    if moves_up(round, negative, kept.loss, kept.significand % 2 == 1) {
        Whole {
            magnitude: kept.significand + 1,
            exact,
        }
    } else {
        Whole {
            magnitude: kept.significand,
            exact,
        }
    }
}

/// A nonzero number with digits after its binary point, rounded by the mode to an integer; `exponent` is that of its
/// last digit.
#[inline(always)]
pub(crate) fn round_at_dot(shape: Shape, x: Unpacked, exponent: ExpInt, round: Round) -> Whole
    requires normal { IsNormal shape x }
    requires last { exponent ≡ x.exponent -ℤ pos (shape.precision - 1) }
    requires small { (exponent +ℤ pos 1) ≤ℤ pos 0 }
    ensures bound { result.magnitude ≤ 2 ^ (shape.precision - 1) }
    ensures picked { IsPicked round x.negative (quanta_of shape x) (2 ^ (format_at shape).scale)
        result }
{
    round_fraction(
        shape.precision,
        x.significand,
        steps_between(0, exponent),
        round,
        x.negative,
    )
}

/// A number below `2^61` rounded by the mode to an integer, in one word. Shifted up to 62 digits, it has digits after
/// the binary point at each of these exponents, so integers need no branch of their own.
#[inline(always)]
fn round_word(shape: Shape, x: Unpacked, round: Round) -> Whole
    requires normal { IsNormal shape x }
    requires short { shape.precision ≤ 62 }
    requires small { x.exponent ≤ℤ pos 60 }
    ensures { IsPicked round x.negative (quanta_of shape x) (2 ^ (format_at shape).scale) result }
{
    let top = (x.significand as u64) << (62 - shape.precision);
    let places = steps_between(61, x.exponent);
    round_fraction(62, u128::from(top), places, round, x.negative)
}

/// The integer `significand * 2^places`.
#[inline(always)]
fn integer_of(precision: u32, significand: u128, places: u32) -> u128
    requires some { 0 < precision }
    requires fits { significand < 2 ^ precision }
    requires near { precision + places ≤ 128 }
    ensures { result ≡ significand * 2 ^ places }
{
    significand * power_of_two(places)
}

/// A nonzero number rounded to an integer, if that is below `2^128`.
#[inline(always)]
pub fn whole_of(shape: Shape, x: Unpacked, round: Round) -> Option<Whole>
    requires { IsNormal shape x }
    ensures { IsPickedWithin round x.negative (quanta_of shape x) (2 ^ (format_at shape).scale)
        result }
{
    if shape.precision <= 62 && x.exponent <= 60 {
        return Some(round_word(shape, x, round));
    }
    if x.exponent >= 128 {
        return None;
    }
    let exponent = last_exponent(shape, x.exponent);
    if exponent >= 0 {
        return Some(Whole {
            magnitude: integer_of(shape.precision, x.significand, steps_between(exponent, 0)),
            exact: true,
        });
    }
    Some(round_at_dot(shape, x, exponent, round))
}
