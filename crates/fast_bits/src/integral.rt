//! Values rounded to integral values.

ghost use Rattle.std.specs.Prelude.{◌≡◌, ℕ, ◌+◌, ◌-◌, ◌*◌, ◌^◌, ◌<◌, ◌≤◌, false, IfSome};
ghost use Rattle.apfloat_model.specs.bits.Layout.{fields_of};
ghost use Rattle.apfloat_model.specs.declared.kinds.NonfiniteBehavior.TheVariants.{IEEE754};
ghost use Rattle.apfloat_model.specs.rounding.Enclosure.{rounds_up};
ghost use Rattle.apfloat_rounding.specs.Cuts.{loss_at};
ghost use Rattle.apfloat_ieee.specs.FlaggedTypes.{constants_of, format_of, layout_of};
ghost use Rattle.fast_bits.specs.{Encoded.IsEncodedIntegral, Numbers.FitsWord, Numbers.IsNumberOf};

use crate::cuts::{bits_at, integer_bit, power_of, sign_bit, status_of};
use crate::encoded::Encoded;
use crate::numbers::{
    Number, biased_exponent, either, fits_word, is_minus, magnitude_of, normal_number, precision_of,
};
use crate::order::has_ordered_words;
use apfloat_base::{ExpInt, Round};
use apfloat_ieee::Flagged;
use apfloat_rounding::rounding::{low_of_word, moves_past, next_word_if};

/// The place of the last digit of 1, which is also the biased exponent of 1/2.
#[inline(always)]
pub(crate) fn place_of_one<S: Flagged>() -> u32
    ensures { result + (S.PRECISION - 1) ≡ (format_of S.Flagged).scale }
{
    (-S::MIN_EXP) as u32
}

/// How many digits of a significand at this place are below the binary point, if some are, but not all.
#[inline(always)]
fn places_below_point<S: Flagged>(place: u32) -> Option<u32>
    requires { place < 2 ^ 22 }
    ensures { IfSome result (λ n. (0 < n) × (n < S.PRECISION)
        × (place + n ≡ (format_of S.Flagged).scale)) }
{
    let places = S::PRECISION as ExpInt - 1 - S::MIN_EXP - place as ExpInt;
    if places <= 0 {
        return None;
    }
    if places < S::PRECISION as ExpInt {
        Some(places as u32)
    } else {
        None
    }
}

/// Whether a number below 1 is rounded to 1, by its magnitude. Encodings without their sign are in the order of the
/// magnitudes, so they say on which side of 1/2 the number is.
#[inline(always)]
pub(crate) fn moves_to_one<S: Flagged>(round: Round, negative: bool, magnitude: u64) -> bool
    requires bits { S.PRECISION < S.BITS }
    requires fit { FitsWord (constants_of S.Flagged) }
    requires nonfinite { S.NONFINITE_BEHAVIOR ≡ IEEE754 }
    ensures { (half : ℕ) → half + (S.PRECISION - 1) ≡ (format_of S.Flagged).scale
        → result ≡ rounds_up round negative (loss_at magnitude (half * 2 ^ (S.PRECISION - 1)))
        false }
{
    let half = place_of_one::<S>() as u64 * integer_bit::<S>();
    moves_past(round, negative, magnitude, half, false)
}

/// A number below 1, rounded to 0 or to 1.
#[inline(always)]
fn round_below_one<S: Flagged>(bits: u128, round: Round) -> Encoded
    requires bits { S.PRECISION < S.BITS }
    requires fit { FitsWord (constants_of S.Flagged) }
    requires nonfinite { S.NONFINITE_BEHAVIOR ≡ IEEE754 }
    requires below { (fields_of (format_of S.Flagged) (layout_of S.Flagged) bits).biased_exponent
        + (S.PRECISION - 1) ≤ (format_of S.Flagged).scale }
    ensures { IsEncodedIntegral (constants_of S.Flagged) round bits result }
{
    let negative = is_minus::<S>(bits);
    let place = place_of_one::<S>();
    let unit = integer_bit::<S>();
    let one = bits_at::<S>(negative, unit, place);
    let zero = sign_bit::<S>(negative);
    let magnitude = magnitude_of::<S>(bits);
    let moved = moves_to_one::<S>(round, negative, magnitude);
    Encoded {
        bits: either(moved, one, zero) as u128,
        status: status_of(magnitude),
    }
}

/// A number of at least 1 with digits below the binary point, rounded.
#[inline(always)]
fn round_at_point<S: Flagged>(bits: u128, x: Number, places: u32, round: Round) -> Encoded
    requires bits { S.PRECISION < S.BITS }
    requires fit { FitsWord (constants_of S.Flagged) }
    requires nonfinite { S.NONFINITE_BEHAVIOR ≡ IEEE754 }
    requires x { IsNumberOf (constants_of S.Flagged) bits x }
    requires some { 0 < places }
    requires near { places < S.PRECISION }
    requires at { x.place + places ≡ (format_of S.Flagged).scale }
    ensures { IsEncodedIntegral (constants_of S.Flagged) round bits result }
{
    let half = power_of(places - 1);
    let rest = low_of_word(x.significand, places);
    let kept = x.significand >> places;
    let moved = moves_past(round, x.negative, rest, half, kept % 2 == 1);
    let picked = next_word_if(kept, moved);
    Encoded {
        bits: bits_at::<S>(x.negative, picked << places, x.place) as u128,
        status: status_of(rest),
    }
}

/// The value that these bits encode, rounded to an integral value, with INEXACT if that differs (IEEE 754-2019 5.9).
/// Only numbers below `2^(PRECISION - 1)` have an answer, as greater ones are integers, in formats of at most 64 bits
/// and 59 digits with an implied integer bit and infinities. Bits at and above the width of the format are ignored.
#[inline(always)]
pub fn round_number<S: Flagged>(bits: u128, round: Round) -> Option<Encoded>
    requires { S.PRECISION < S.BITS }
    ensures { IfSome result (IsEncodedIntegral (constants_of S.Flagged) round bits) }
{
    if has_ordered_words::<S>() {
        if fits_word::<S>() {
            let biased = biased_exponent::<S>(bits);
            let one = place_of_one::<S>();
            if biased <= one {
                return Some(round_below_one::<S>(bits, round));
            }
            // Of the tests below this one, the compiler keeps none.
            if biased - one < precision_of::<S>() {
                if let Some(x) = normal_number::<S>(bits) {
                    if let Some(places) = places_below_point::<S>(x.place) {
                        return Some(round_at_point::<S>(bits, x, places, round));
                    }
                }
            }
        }
    }
    None
}
