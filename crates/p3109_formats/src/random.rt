//! The neighbour that random digits choose, where the parts of the distance are rounded. Nothing else is rounded here.

ghost use Rattle.std.specs.Prelude.{◌≡◌, ℕ, ◌*◌, ◌%◌, ◌^◌, ◌<◌, ◌≤◌, eqb, false};
ghost use Rattle.apfloat_model.specs.order.{Classes.quanta_of, Positive.IsPositive};
ghost use Rattle.apfloat_model.specs.rounding.{Bounds.IsWithin, Standing.up, Standing.down};
ghost use Rattle.apfloat_model.specs.whole_numbers.WholeNumbers.{whole_pick};
ghost use Rattle.apfloat_ieee.specs.Types.{format_of};
ghost use Rattle.small_formats.specs.{stochastic.Directions.direction, Codes.point};
ghost use Rattle.p3109_formats.specs.{Picks.IsAway, Rules.IsRandomPick, Rules.IsRulePick};

use crate::rules::ProjectionRound;
use apfloat_base::Round;
use apfloat_ieee::{IeeeFloat, Semantics};
use apfloat_model::Loss;
use apfloat_rounding::rounding::moves_up;
use apfloat_words::{low_digits, power_of_two, shift_right};
use small_formats::cuts::{kept_place, steps_up};
use small_formats::picks::{Picked, pick_value};
use small_formats::{ConversionRound, InQuanta, RandomDigits, in_quanta};

/// The parts of the rest that is cut off, where the lowest kept digit has 2^digits, rounded.
fn parts_of(number: u128, places: u32, mode: Round, digits: u32) -> u64
    requires few { digits ≤ 32 }
    requires cut { digits ≤ places }
    ensures { (amount parts : ℕ) → 0 < parts
        → amount * 2 ^ places ≡ 2 ^ digits * (number % 2 ^ places) * parts
        → result ≡ whole_pick mode false amount parts }
{
    let rest = shift_right(number, places - digits, Loss::ExactlyZero);
    let whole = low_digits(rest.significand, digits) as u64;
    if moves_up(mode, false, rest.loss, whole % 2 == 1) {
        whole + 1
    } else {
        whole
    }
}

/// Whether a random number takes a number to the point above it.
fn leads_away(number: InQuanta, precision: u32, mode: Round, bits: RandomDigits) -> bool
    requires some { 0 < precision }
    requires precise { precision ≤ 15 }
    requires low { 2 ^ 124 ≤ number.digits }
    requires high { number.digits < 2 ^ 125 }
    requires within { IsWithin (2 ^ 23) number.unit }
    ensures { (amount parts : ℕ) → 0 < parts
        → amount * 2 ^ down number.unit ≡ number.digits * (parts * 2 ^ up number.unit)
        → IsAway precision mode bits amount parts result }
{
    let place = kept_place(precision, 125, number.unit);
    let places = steps_up(number.unit, place);
    let parts = parts_of(number.digits, places, mode, bits.digits);
    u128::from(parts) + u128::from(bits.random) >= power_of_two(bits.digits)
}

/// The mode that rounds a positive number away from zero, or toward it.
fn direction(away: bool) -> Round
    ensures { result ≡ direction away false }
{
    if away {
        Round::TowardPositive
    } else {
        Round::TowardZero
    }
}

/// The point that a random number chooses for a positive value, in quanta of `2^-scale`, for either sign.
fn pick_randomly<S: Semantics>(
    x: IeeeFloat<S>,
    precision: u32,
    scale: u32,
    mode: Round,
    bits: RandomDigits,
) -> Picked
    requires positive { IsPositive (format_of S.Semantics) x }
    requires some { 0 < precision }
    requires precise { precision ≤ 15 }
    requires scale { scale ≤ 2 ^ 21 }
    ensures picked { IsRandomPick precision mode bits (quanta_of x * 2 ^ scale)
        (2 ^ (format_of S.Semantics).scale) result.index }
    ensures exact { result.exact ≡ eqb (point precision result.index * 2 ^ (format_of S.Semantics).scale)
        (quanta_of x * 2 ^ scale) }
{
    let away = leads_away(in_quanta(x, scale), precision, mode, bits);
    let round = ConversionRound::Ieee(direction(away));
    pick_value(x, precision, scale, round, false)
}

/// The point that is picked for a positive value, in quanta of `2^-scale`, as for a value with that sign.
pub(crate) fn pick_by_rule<S: Semantics>(
    x: IeeeFloat<S>,
    precision: u32,
    scale: u32,
    round: ProjectionRound,
    negative: bool,
) -> Picked
    requires positive { IsPositive (format_of S.Semantics) x }
    requires some { 0 < precision }
    requires precise { precision ≤ 15 }
    requires scale { scale ≤ 2 ^ 21 }
    ensures picked { IsRulePick precision round negative (quanta_of x * 2 ^ scale)
        (2 ^ (format_of S.Semantics).scale) result.index }
    ensures exact { result.exact ≡ eqb (point precision result.index * 2 ^ (format_of S.Semantics).scale)
        (quanta_of x * 2 ^ scale) }
{
    match round {
        ProjectionRound::By(mode) => pick_value(x, precision, scale, mode, negative),
        ProjectionRound::StochasticB(bits) => {
            pick_randomly(x, precision, scale, Round::NearestTiesToAway, bits)
        }
        ProjectionRound::StochasticC(bits) => {
            pick_randomly(x, precision, scale, Round::NearestTiesToEven, bits)
        }
    }
}
