//! Numbers that were rounded to odd, rounded and encoded.

ghost use Rattle.std.specs.Prelude.{◌≡◌, ℕ, ◌+◌, ◌-◌, ◌*◌, ◌^◌, ◌<◌, ◌≤◌, pos, ◌+ℤ◌, IfSome};
ghost use Rattle.apfloat_model.specs.rounding.{Bounds.IsWithin, Bounds.unit_bound, RoundingToOdd.IsRoundedToOdd};
ghost use Rattle.apfloat_model.specs.rounding.Standing.{up, down};
ghost use Rattle.apfloat_ieee.specs.FlaggedTypes.{constants_of};
ghost use Rattle.fast_bits.specs.{Encoded.IsEncodedNumber, Numbers.FitsWord};

use crate::cuts::{encode_cut, inner_place, power_of};
use crate::encoded::Encoded;
use crate::numbers::precision_of;
use apfloat_base::{ExpInt, Round};
use apfloat_ieee::Flagged;
use apfloat_words::digits;

/// A significand with `digits` digits, moved up until it has 64.
#[inline(always)]
fn at_top(significand: u64, digits: u32) -> u64
    requires word { digits ≤ 64 }
    requires any { 0 < digits }
    requires fits { significand < 2 ^ digits }
    ensures { result ≡ significand * 2 ^ (64 - digits) }
{
    significand << (64 - digits)
}

/// The place of the lowest kept digit of a significand with `digits` digits, in a format that keeps `precision`.
#[inline(always)]
fn kept_place(precision: u32, digits: u32, unit: ExpInt) -> ExpInt
    requires precise { precision ≤ 125 }
    requires short { digits ≤ 128 }
    requires within { IsWithin unit_bound unit }
    ensures { (result +ℤ pos precision) ≡ (unit +ℤ pos digits) }
{
    unit + digits as ExpInt - precision as ExpInt
}

/// `encode_odd` of a significand whose digits have been counted.
#[inline(always)]
pub(crate) fn encode_counted<S: Flagged>(
    significand: u64,
    digits: u32,
    unit: ExpInt,
    negative: bool,
    round: Round,
) -> Option<Encoded>
    requires bits { S.PRECISION < S.BITS }
    requires word { FitsWord (constants_of S.Flagged) }
    requires any { 0 < digits }
    requires short { digits ≤ 64 }
    requires fits { significand < 2 ^ digits }
    requires full { 2 ^ (digits - 1) ≤ significand }
    requires within { IsWithin unit_bound unit }
    ensures { (amount parts : ℕ) → 0 < parts
        → IsRoundedToOdd (2 ^ (S.PRECISION + 1)) significand (amount * 2 ^ down unit)
        (parts * 2 ^ up unit)
        → IfSome result (IsEncodedNumber (constants_of S.Flagged) round negative amount parts) }
{
    let precision = precision_of::<S>();
    let top = at_top(significand, digits);
    let last = power_of(64 - precision);
    let half = power_of(64 - precision - 1);
    let from = kept_place(precision, digits, unit);
    if let Some(place) = inner_place::<S>(from) {
        let kept = top / last;
        let rest = top % last;
        Some(encode_cut::<S>(negative, kept, rest, half, place, round))
    } else {
        None
    }
}

/// The encoding of `significand * 2^unit` quanta, which were rounded to odd, rounded, if the result is a normal number.
#[inline(always)]
pub fn encode_odd<S: Flagged>(
    significand: u64,
    unit: ExpInt,
    negative: bool,
    round: Round,
) -> Option<Encoded>
    requires bits { S.PRECISION < S.BITS }
    requires word { FitsWord (constants_of S.Flagged) }
    requires some { 0 < significand }
    requires within { IsWithin unit_bound unit }
    ensures { (amount parts : ℕ) → 0 < parts
        → IsRoundedToOdd (2 ^ (S.PRECISION + 1)) significand (amount * 2 ^ down unit)
        (parts * 2 ^ up unit)
        → IfSome result (IsEncodedNumber (constants_of S.Flagged) round negative amount parts) }
{
    let digits = digits(significand as u128);
    encode_counted::<S>(significand, digits, unit, negative, round)
}
