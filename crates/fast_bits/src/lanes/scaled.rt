//! Numbers brought to the place that they have in a format, with sixteen binary digits below its own.

ghost use Rattle.std.specs.Prelude.{◌≡◌, ◌+◌, ◌-◌, ◌*◌, ◌/◌, ◌%◌, ◌^◌, ◌<◌, ◌≤◌, min, pos, ◌+ℤ◌};
ghost use Rattle.apfloat_model.specs.rounding.RoundingToOdd.{odd_for_rest, odd_quotient};
ghost use Rattle.fast_bits.specs.lanes.{Scaled.IsReachedLane, At.format_at};

use crate::lanes::constants::Target;
use crate::lanes::few_counts::one_if;
use crate::lanes::halves::{power_of_two, significand_of};
use crate::lanes::targets::places;

/// A number in a target's quanta, with sixteen binary digits below them. As one number, these could not be computed in
/// lanes of sixteen bits.
#[derive(Clone, Copy)]
pub(crate) struct Scaled {
    /// Its place and the digits that are kept, added.
    pub(crate) kept: u16,
    /// The digits below them.
    pub(crate) rest: u16,
    ghost short: { rest < 2 ^ 16 },
}

/// The place, among the quanta of singles, of the last digit of the target's least normal number.
#[inline(always)]
fn first_place(target: Target) -> u16
    ensures is { pos result ≡ (target.min_exp +ℤ pos 126) }
    ensures below { result ≤ 125 }
{
    (target.min_exp + 126) as u16
}

/// The place of a number's last digit, which is the same for denormal numbers and the least normal ones.
#[inline(always)]
fn place_of(magnitude: u16) -> u16
    ensures { result ≡ magnitude / 2 ^ 7 - 1 }
{
    (magnitude / 0x80).saturating_sub(1)
}

/// The place, among the target's from `first` on, of a number at this place, at most the first one past them.
#[inline(always)]
fn above(target: Target, place: u16, first: u16) -> u16
    ensures { result ≡ min (place - first) ((format_at target).span + 1) }
{
    (place.max(first) - first).min(places(target) as u16)
}

/// How many places a significand of fifteen digits is moved up: fewer for each place that the number is below the first
/// one.
#[inline(always)]
fn up(target: Target, place: u16, first: u16) -> u16
    ensures { result ≡ target.precision + 1 - (first - place) }
{
    let most = target.precision as u16 + 1;
    most - (place.max(first) - place).min(most)
}

/// A quotient rounded to odd, by its rest.
#[inline(always)]
fn odd_for(quotient: u16, rest: u16) -> u16
    ensures { result ≡ odd_for_rest quotient rest }
{
    quotient | one_if(rest != 0)
}

/// The significand of a number, by the upper and the lower half of its bits, rounded to odd to fifteen digits.
#[inline(always)]
fn odd_significand(magnitude: u16, lower: u16) -> u16
    ensures { result ≡ odd_quotient
        ((magnitude % 2 ^ 7 + min (magnitude / 2 ^ 7) 1 * 2 ^ 7) * 2 ^ 16 + lower) (2 ^ 9) }
{
    odd_for(
        significand_of(magnitude) * 0x80 + lower / 0x200,
        lower % 0x200,
    )
}

/// A number, by the upper and the lower half of its bits, scaled to the target.
#[inline(always)]
pub(crate) fn scaled_to(target: Target, magnitude: u16, lower: u16) -> Scaled
    requires { magnitude < 2 ^ 15 }
    ensures reached { IsReachedLane (format_at target) (result.kept * 2 ^ 16 + result.rest)
        (((magnitude % 2 ^ 7 + min (magnitude / 2 ^ 7) 1 * 2 ^ 7) * 2 ^ 16 + lower)
        * 2 ^ (magnitude / 2 ^ 7 - 1) * 2 ^ (format_at target).scale) (2 ^ 149) }
    ensures below { result.kept + 2 < 2 ^ 16 }
{
    let place = place_of(magnitude);
    let first = first_place(target);
    let power = power_of_two(up(target, place, first));
    let significand = odd_significand(magnitude, lower);
    let places = above(target, place, first) << (target.precision - 1);
    Scaled {
        kept: (u32::from(significand) * u32::from(power) / 0x1_0000) as u16 + places,
        rest: significand.wrapping_mul(power),
    }
}
