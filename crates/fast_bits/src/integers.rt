//! Values as integers.

ghost use Rattle.std.specs.Prelude.{◌≡◌, ◌+◌, ◌-◌, ◌^◌, ◌<◌, ◌≤◌, IsTrue, IfSome};
ghost use Rattle.apfloat_model.specs.bits.Layout.{fields_of};
ghost use Rattle.apfloat_model.specs.declared.kinds.NonfiniteBehavior.TheVariants.{IEEE754};
ghost use Rattle.apfloat_model.specs.whole_numbers.WholeNumbersOut.{to_signed, to_unsigned};
ghost use Rattle.apfloat_conversions.specs.{Results.GivesSigned, Results.GivesWhole, Wholes.signed_limit};
ghost use Rattle.apfloat_ieee.specs.FlaggedTypes.{constants_of, format_of, layout_of};
ghost use Rattle.fast_bits.specs.{Encoded.value_in, Integers.IsRounded, Integers.IsSignedOf, Integers.IsUnsignedOf};
ghost use Rattle.fast_bits.specs.Numbers.{FitsWord};

use crate::cuts::status_of;
use crate::integral::moves_to_one;
use crate::numbers::{
    biased_exponent, exponents, fits_word, is_minus, magnitude_of, significand_of,
};
use crate::order::{has_ordered_words, signed};
use apfloat_base::{ExpInt, Round, Status};
use apfloat_conversions::integers::{Signed, Unsigned};
use apfloat_ieee::Flagged;
use apfloat_rounding::rounding::{moves_past, next_word_if};

/// The magnitude of a number, rounded to an integer.
#[derive(Clone, Copy)]
pub(crate) struct Rounded {
    /// The integer.
    pub magnitude: u64,
    /// OK or INEXACT.
    pub status: Status,
    /// Whether the integer equals the number; false for -0.
    pub is_exact: bool,
}

/// How far a word of 62 digits is shifted: 63 places already leave nothing of it.
#[inline(always)]
fn word_places(places: u32) -> u32
    ensures near { places ≤ 63 → result ≡ places }
    ensures far { 63 < places → result ≡ 63 }
    ensures bound { result ≤ 63 }
    ensures some { 0 < places → 0 < result }
{
    if places > 63 { 63 } else { places }
}

/// A normal number whose significand, as a word of 62 digits, has that many below the binary point, rounded. These are
/// moved to the top of a word, so that half of 1 is the same for all. There is no branch on whether some are above the
/// point, since a processor cannot predict it.
#[inline(always)]
fn round_normal<S: Flagged>(
    bits: u128,
    negative: bool,
    biased: u32,
    places: u32,
    round: Round,
) -> Rounded
    requires fit { FitsWord (constants_of S.Flagged) }
    requires sign { negative
        ≡ (fields_of (format_of S.Flagged) (layout_of S.Flagged) bits).negative }
    requires biased { biased
        ≡ (fields_of (format_of S.Flagged) (layout_of S.Flagged) bits).biased_exponent }
    requires normal { 0 < biased }
    requires number { biased + 1 < 2 ^ S.EXP_BITS }
    requires some { 0 < places }
    requires at { biased + places + (S.PRECISION - 1) ≡ 62 + (format_of S.Flagged).scale }
    ensures { IsRounded (constants_of S.Flagged) round bits negative result }
{
    let word = significand_of::<S>(bits) << (62 - S::PRECISION as u32);
    let shift = word_places(places);
    let rest = word << (64 - shift);
    let kept = word >> shift;
    let moved = moves_past(round, negative, rest, 1 << 63, kept % 2 == 1);
    Rounded {
        magnitude: next_word_if(kept, moved),
        status: status_of(rest),
        is_exact: rest == 0,
    }
}

/// A number below 1, rounded.
#[inline(always)]
fn round_to_one<S: Flagged>(bits: u128, negative: bool, round: Round) -> Rounded
    requires bits { S.PRECISION < S.BITS }
    requires fit { FitsWord (constants_of S.Flagged) }
    requires nonfinite { S.NONFINITE_BEHAVIOR ≡ IEEE754 }
    requires sign { negative
        ≡ (fields_of (format_of S.Flagged) (layout_of S.Flagged) bits).negative }
    requires below { (fields_of (format_of S.Flagged) (layout_of S.Flagged) bits).biased_exponent
        + (S.PRECISION - 1) ≤ (format_of S.Flagged).scale }
    ensures { IsRounded (constants_of S.Flagged) round bits negative result }
{
    let magnitude = magnitude_of::<S>(bits);
    let moved = moves_to_one::<S>(round, negative, magnitude);
    Rounded {
        magnitude: next_word_if(0, moved),
        status: status_of(magnitude),
        is_exact: (magnitude == 0) & !negative,
    }
}

/// A number below `2^62`, rounded.
#[inline(always)]
fn round_to_integer<S: Flagged>(bits: u128, negative: bool, round: Round) -> Option<Rounded>
    requires bits { S.PRECISION < S.BITS }
    requires fit { FitsWord (constants_of S.Flagged) }
    requires nonfinite { S.NONFINITE_BEHAVIOR ≡ IEEE754 }
    requires sign { negative
        ≡ (fields_of (format_of S.Flagged) (layout_of S.Flagged) bits).negative }
    ensures { IfSome result (IsRounded (constants_of S.Flagged) round bits negative) }
{
    let biased = biased_exponent::<S>(bits);
    let places = 62 - S::MIN_EXP - biased as ExpInt;
    if (biased != 0) & (places > 0) & (biased + 1 < exponents::<S>()) {
        return Some(round_normal::<S>(bits, negative, biased, places as u32, round));
    }
    if biased == 0 {
        return Some(round_to_one::<S>(bits, negative, round));
    }
    None
}

/// Whether a magnitude with this sign is in the range of signed integers of `width` binary digits.
#[inline(always)]
fn fits_signed(magnitude: u64, negative: bool, width: u32) -> bool
    requires some { 2 ≤ width }
    requires small { magnitude ≤ 2 ^ 62 }
    ensures { IsTrue result → magnitude ≤ signed_limit width negative }
{
    if width > 64 {
        return true;
    }
    magnitude <= (1_u64 << (width - 1)) - u64::from(!negative)
}

/// A number that was rounded as a signed integer of `width` binary digits, if it is in range.
#[inline(always)]
fn signed_within(x: Rounded, negative: bool, width: u32) -> Option<Signed>
    requires some { 2 ≤ width }
    requires small { x.magnitude ≤ 2 ^ 62 }
    ensures { IfSome result (IsSignedOf x negative width) }
{
    if fits_signed(x.magnitude, negative, width) {
        Some(Signed {
            answer: x.status.and(i128::from(signed(negative, x.magnitude))),
            is_exact: x.is_exact,
        })
    } else {
        None
    }
}

/// The value that these bits encode as a signed integer of `width` binary digits (IEEE 754-2019 5.4.1). Only numbers
/// below `2^62` that are in range have an answer, with a width of 2 to 128, in formats of at most 64 bits and 59 digits
/// with an implied integer bit and infinities. Bits at and above the width of the format are ignored.
#[inline(always)]
pub fn signed_of_bits<S: Flagged>(bits: u128, width: u32, round: Round) -> Option<Signed>
    requires { S.PRECISION < S.BITS }
    ensures { IfSome result (λ integer. (2 ≤ width) × (width ≤ 128) × GivesSigned
        (to_signed (format_of S.Flagged) round width (value_in (constants_of S.Flagged) bits))
        integer) }
{
    if has_ordered_words::<S>() {
        if fits_word::<S>() {
            if width >= 2 {
                if width <= 128 {
                    let negative = is_minus::<S>(bits);
                    if let Some(x) = round_to_integer::<S>(bits, negative, round) {
                        return signed_within(x, negative, width);
                    }
                }
            }
        }
    }
    None
}

/// Whether a magnitude has at most `width` binary digits.
#[inline(always)]
fn fits_unsigned(magnitude: u64, width: u32) -> bool
    requires some { 1 ≤ width }
    requires small { magnitude ≤ 2 ^ 62 }
    ensures { IsTrue result → magnitude < 2 ^ width }
{
    if width > 64 {
        return true;
    }
    magnitude >> (width - 1) <= 1
}

/// A number that was rounded as an integer of `width` binary digits, if it has no minus sign and is in range.
#[inline(always)]
fn unsigned_within(x: Rounded, negative: bool, width: u32) -> Option<Unsigned>
    requires some { 1 ≤ width }
    requires small { x.magnitude ≤ 2 ^ 62 }
    ensures { IfSome result (IsUnsignedOf x negative width) }
{
    if !negative & fits_unsigned(x.magnitude, width) {
        Some(Unsigned {
            answer: x.status.and(u128::from(x.magnitude)),
            is_exact: x.is_exact,
        })
    } else {
        None
    }
}

/// The value that these bits encode as an integer of `width` binary digits, 1 to 128, as `signed_of_bits`; with a minus
/// sign there is no answer.
#[inline(always)]
pub fn unsigned_of_bits<S: Flagged>(bits: u128, width: u32, round: Round) -> Option<Unsigned>
    requires { S.PRECISION < S.BITS }
    ensures { IfSome result (λ integer. (1 ≤ width) × (width ≤ 128) × GivesWhole
        (to_unsigned (format_of S.Flagged) round width (value_in (constants_of S.Flagged) bits))
        integer) }
{
    if has_ordered_words::<S>() {
        if fits_word::<S>() {
            if width >= 1 {
                if width <= 128 {
                    let negative = is_minus::<S>(bits);
                    if let Some(x) = round_to_integer::<S>(bits, negative, round) {
                        return unsigned_within(x, negative, width);
                    }
                }
            }
        }
    }
    None
}
