//! The point that is picked for a number.

ghost use Rattle.std.specs.Prelude.{◌≡◌, ℕ, ◌+◌, ◌-◌, ◌*◌, ◌/◌, ◌%◌, ◌^◌, ◌<◌, ◌≤◌, not, ◌&&◌, leb, eqb, if◌then◌else◌};
ghost use Rattle.apfloat_model.specs.order.{Classes.quanta_of, Positive.IsPositive};
ghost use Rattle.apfloat_model.specs.rounding.Bounds.{IsWithin, unit_bound, place_bound};
ghost use Rattle.apfloat_model.specs.rounding.Standing.{StandsFor, up, down};
ghost use Rattle.apfloat_ieee.specs.Types.{format_of};
ghost use Rattle.small_formats.specs.{Codes.index_of, Modes.ieee_mode, PicksBy.IsPointAt, PicksBy.moves};

use crate::cuts::{cut, parts_of_rest};
use crate::modes::{ConversionRound, RandomDigits};
use crate::quanta::in_quanta;
use apfloat_base::{ExpInt, Round};
use apfloat_ieee::{IeeeFloat, Semantics};
use apfloat_model::Loss;
use apfloat_rounding::rounding::moves_up;
use apfloat_words::{is_exact, power_of_two};

/// The index of the point that is picked, and whether the point is the number itself.
#[derive(Clone, Copy)]
pub struct Picked {
    pub index: u128,
    pub exact: bool,
}

/// The index of the point `significand * 2^place`.
pub(crate) fn index_of(precision: u32, significand: u128, place: u32) -> u128
    requires some { 0 < precision }
    requires precise { precision ≤ 15 }
    requires fits { significand < 2 ^ precision }
    requires near { place < place_bound }
    ensures value { result ≡ index_of precision significand place }
    ensures near { result < 2 ^ 40 }
{
    significand + u128::from(place) * power_of_two(precision - 1)
}

/// The index of the point, or of the next one if the mode moves past it.
pub(crate) fn moved_index(index: u128, moves: bool) -> u128
    requires { index < 2 ^ 40 }
    ensures { result ≡ (if moves then index + 1 else index) }
{
    if moves { index + 1 } else { index }
}

/// The mode of IEEE 754 that treats alike a pick past the largest number, and what is not rounded.
pub fn ieee_mode(mode: ConversionRound) -> Round
    ensures { result ≡ ieee_mode mode }
{
    match mode {
        ConversionRound::Ieee(round) => round,
        ConversionRound::ToOdd => Round::TowardZero,
        ConversionRound::Stochastic(_) => Round::NearestTiesToEven,
    }
}

/// Whether rounding to odd takes the point above what was kept.
fn odd_takes_next(exact: bool, odd: bool) -> bool
    ensures { result ≡ (not exact && not odd) }
{
    !exact && !odd
}

/// Whether that many parts and the random number reach the whole together.
pub(crate) fn reaches_whole(parts: u64, bits: RandomDigits) -> bool
    ensures { result ≡ leb (2 ^ bits.digits) (parts + bits.random) }
{
    u128::from(parts) + u128::from(bits.random) >= power_of_two(bits.digits)
}

/// Whether the mode takes the point above a number of which `places` digits were cut off with that loss. `odd` says
/// whether what was kept is odd. It is `moves` of the definitions: false where the rest is 0.
pub(crate) fn takes_next(
    mode: ConversionRound,
    negative: bool,
    number: u128,
    places: u32,
    loss: Loss,
    odd: bool,
) -> bool
    requires { StandsFor (number / 2 ^ places) loss number (2 ^ places * 1) }
    ensures { result ≡ moves mode negative (number % 2 ^ places) (2 ^ places - number % 2 ^ places)
        odd }
{
    match mode {
        ConversionRound::Ieee(round) => moves_up(round, negative, loss, odd),
        ConversionRound::ToOdd => odd_takes_next(is_exact(loss), odd),
        ConversionRound::Stochastic(bits) => {
            reaches_whole(parts_of_rest(number, places, bits.digits), bits)
        }
    }
}

/// The point that is picked for `digits * 2^unit` quanta in a mode of conversions. The odd number is that of the odd
/// significand, unless the precision is one digit, where each significand is odd.
fn pick_by(
    precision: u32,
    digits: u128,
    unit: ExpInt,
    mode: ConversionRound,
    negative: bool,
) -> Picked
    requires some { 0 < precision }
    requires precise { precision ≤ 15 }
    requires low { 2 ^ 124 ≤ digits }
    requires high { digits < 2 ^ 125 }
    requires within { IsWithin unit_bound unit }
    ensures { (amount parts : ℕ) → 0 < parts
        → amount * 2 ^ down unit ≡ digits * (parts * 2 ^ up unit)
        → IsPointAt precision mode negative amount parts result.index result.exact }
{
    let kept = cut(precision, digits, unit);
    let below = index_of(precision, kept.significand, kept.place);
    let odd = below % 2 == 1;
    let moves = takes_next(mode, negative, digits, kept.places, kept.loss, odd);
    Picked {
        index: moved_index(below, moves),
        exact: is_exact(kept.loss),
    }
}

/// The point that is picked for a positive value, in quanta of `2^-scale`, as for a value with that sign.
pub fn pick_value<S: Semantics>(
    x: IeeeFloat<S>,
    precision: u32,
    scale: u32,
    mode: ConversionRound,
    negative: bool,
) -> Picked
    requires positive { IsPositive (format_of S.Semantics) x }
    requires some { 0 < precision }
    requires precise { precision ≤ 15 }
    requires scale { scale ≤ 2 ^ 21 }
    ensures { IsPointAt precision mode negative (quanta_of x * 2 ^ scale)
        (2 ^ (format_of S.Semantics).scale) result.index result.exact }
{
    let number = in_quanta(x, scale);
    pick_by(precision, number.digits, number.unit, mode, negative)
}
