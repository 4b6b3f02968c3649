//! Conversions.

ghost use Rattle.std.specs.Prelude.{◌≡◌, ◌+◌, ◌-◌, ◌*◌, ◌^◌, ◌<◌, ◌≤◌, pos, ◌+ℤ◌, IfSome};
ghost use Rattle.apfloat_ieee.specs.FlaggedTypes.{constants_of, format_of};
ghost use Rattle.fast_bits.specs.Encoded.{IsEncodedConversion, IsEncodedNumber};
ghost use Rattle.fast_bits.specs.Numbers.{FitsWord, IsFullNumber, quanta_of};

use crate::cuts::{encode_cut, inner_place, power_of};
use crate::encoded::Encoded;
use crate::numbers::{Number, fits_word, normal_number};
use apfloat_base::{ExpInt, Round};
use apfloat_ieee::Flagged;

/// The place, among the quanta of `T`, of the lowest kept digit of a number at this place among those of `S`.
#[inline(always)]
fn converted_place<S: Flagged, T: Flagged>(place: u32) -> ExpInt
    requires { place < 2 ^ 22 }
    ensures { (result +ℤ pos (T.PRECISION + (format_of S.Flagged).scale))
        ≡ pos (S.PRECISION + place + (format_of T.Flagged).scale) }
{
    place as ExpInt + S::MIN_EXP - T::MIN_EXP
}

/// How many more digits `S` has than `T`.
#[inline(always)]
fn more_digits<S: Flagged, T: Flagged>() -> u32
    requires more { T.PRECISION ≤ S.PRECISION }
    requires short { S.PRECISION ≤ 59 }
    ensures { result ≡ S.PRECISION - T.PRECISION }
{
    (S::PRECISION - T::PRECISION) as u32
}

/// A normal number in a format of fewer digits, if it is one there.
#[inline(always)]
fn shortened<S: Flagged, T: Flagged>(x: Number, round: Round) -> Option<Encoded>
    requires written { T.PRECISION < T.BITS }
    requires from { FitsWord (constants_of S.Flagged) }
    requires to { FitsWord (constants_of T.Flagged) }
    requires longer { T.PRECISION < S.PRECISION }
    requires x { IsFullNumber (constants_of S.Flagged) x }
    ensures { IfSome result (IsEncodedNumber (constants_of T.Flagged) round x.negative
        (quanta_of x * 2 ^ (format_of T.Flagged).scale) (2 ^ (format_of S.Flagged).scale)) }
{
    let places = more_digits::<S, T>();
    let last = power_of(places);
    let half = power_of(places - 1);
    let from = converted_place::<S, T>(x.place);
    if let Some(place) = inner_place::<T>(from) {
        let kept = x.significand / last;
        let rest = x.significand % last;
        Some(encode_cut::<T>(x.negative, kept, rest, half, place, round))
    } else {
        None
    }
}

/// A significand with more digits, which are zeros.
#[inline(always)]
fn lengthened_significand<S: Flagged, T: Flagged>(significand: u64) -> u64
    requires to { T.PRECISION ≤ 59 }
    requires shorter { S.PRECISION ≤ T.PRECISION }
    requires full { 2 ^ (S.PRECISION - 1) ≤ significand }
    requires fits { significand < 2 ^ S.PRECISION }
    ensures value { result ≡ significand * 2 ^ (T.PRECISION - S.PRECISION) }
    ensures full { 2 ^ (T.PRECISION - 1) ≤ result }
    ensures fits { result < 2 ^ T.PRECISION }
{
    let places = more_digits::<T, S>();
    let power = power_of(places);
    significand * power
}

/// A normal number in a format of at least as many digits, if it is one there.
#[inline(always)]
fn lengthened<S: Flagged, T: Flagged>(x: Number, round: Round) -> Option<Encoded>
    requires written { T.PRECISION < T.BITS }
    requires from { FitsWord (constants_of S.Flagged) }
    requires to { FitsWord (constants_of T.Flagged) }
    requires shorter { S.PRECISION ≤ T.PRECISION }
    requires x { IsFullNumber (constants_of S.Flagged) x }
    ensures { IfSome result (IsEncodedNumber (constants_of T.Flagged) round x.negative
        (quanta_of x * 2 ^ (format_of T.Flagged).scale) (2 ^ (format_of S.Flagged).scale)) }
{
    let kept = lengthened_significand::<S, T>(x.significand);
    let from = converted_place::<S, T>(x.place);
    if let Some(place) = inner_place::<T>(from) {
        Some(encode_cut::<T>(x.negative, kept, 0, 1, place, round))
    } else {
        None
    }
}

/// A normal number in the other format, if it is one there.
#[inline(always)]
fn convert_number<S: Flagged, T: Flagged>(x: Number, round: Round) -> Option<Encoded>
    requires written { T.PRECISION < T.BITS }
    requires from { FitsWord (constants_of S.Flagged) }
    requires to { FitsWord (constants_of T.Flagged) }
    requires x { IsFullNumber (constants_of S.Flagged) x }
    ensures { IfSome result (IsEncodedNumber (constants_of T.Flagged) round x.negative
        (quanta_of x * 2 ^ (format_of T.Flagged).scale) (2 ^ (format_of S.Flagged).scale)) }
{
    if S::PRECISION > T::PRECISION {
        shortened::<S, T>(x, round)
    } else {
        lengthened::<S, T>(x, round)
    }
}

/// The conversion of a value from bits to bits, in formats that fit in a word.
#[inline(always)]
fn convert_word<S: Flagged, T: Flagged>(bits: u128, round: Round) -> Option<Encoded>
    requires read { S.PRECISION < S.BITS }
    requires written { T.PRECISION < T.BITS }
    requires from { FitsWord (constants_of S.Flagged) }
    requires to { FitsWord (constants_of T.Flagged) }
    ensures { IfSome result
        (IsEncodedConversion (constants_of S.Flagged) (constants_of T.Flagged) round bits) }
{
    if let Some(x) = normal_number::<S>(bits) {
        convert_number::<S, T>(x, round)
    } else {
        None
    }
}

/// The conversion of the value that these bits of the format `S` encode to the format `T`, rounded once (IEEE 754-2019
/// 5.4.2). Only normal numbers that become normal numbers have an answer, and not all of these: both formats have at
/// most 64 bits and 59 digits and an implied integer bit, and the result is not near the greatest exponent.
#[inline(always)]
pub fn convert_normal<S: Flagged, T: Flagged>(bits: u128, round: Round) -> Option<Encoded>
    requires read { S.PRECISION < S.BITS }
    requires written { T.PRECISION < T.BITS }
    ensures { IfSome result
        (IsEncodedConversion (constants_of S.Flagged) (constants_of T.Flagged) round bits) }
{
    if fits_word::<S>() {
        if fits_word::<T>() {
            return convert_word::<S, T>(bits, round);
        }
    }
    None
}
