//! Sums and differences.

ghost use Rattle.std.specs.Prelude.{◌≡◌, ◌+◌, ◌-◌, ◌*◌, ◌%◌, ◌^◌, ◌<◌, ◌≤◌, pos};
ghost use Rattle.std.specs.Prelude.{◌+ℤ◌, IfSome, false, true, not, if◌then◌else◌};
ghost use Rattle.apfloat_model.specs.arithmetic.{Exact.IsRounded, Exact.signed, Sums.IsDifference, Sums.IsSum};
ghost use Rattle.apfloat_model.specs.{arithmetic.Sums.zero_sum_sign, rounding.RoundingToOdd.IsRoundedToOdd};
ghost use Rattle.apfloat_words.specs.Totals.{IsApartToOdd};
ghost use Rattle.apfloat_ieee.specs.FlaggedTypes.{constants_of, format_of};
ghost use Rattle.fast_bits.specs.Encoded.{IsEncodedAnswer, IsNumberAnswer, value_in};
ghost use Rattle.fast_bits.specs.Numbers.{FitsWord, IsFullNumber, IsOrdered, quanta_of};
ghost use mathlib.Core.Bool.{beq};

use crate::encoded::Encoded;
use crate::numbers::{Ordered, fits_word, ordered_numbers, precision_of, word_of};
use crate::totals::encode_odd;
use apfloat_base::{ExpInt, Float, Round};
use apfloat_ieee::{Flagged, IeeeFloat};

/// The digits that both significands have once they are moved up, so that at least three are free below them.
const MOVED_DIGITS: u32 = 62;

/// A significand moved up.
#[inline(always)]
fn moved_up(significand: u64, precision: u32) -> u64
    requires short { precision ≤ 59 }
    requires fits { significand < 2 ^ precision }
    ensures { result ≡ significand * 2 ^ (62 - precision) }
{
    significand << (MOVED_DIGITS - precision)
}

/// The place of the last digit of a significand that was moved up.
#[inline(always)]
fn moved_place(place: u32, precision: u32) -> ExpInt
    requires near { place < 2 ^ 22 }
    requires short { precision ≤ 59 }
    ensures { (result +ℤ pos (62 - precision)) ≡ pos place }
{
    place as ExpInt - (MOVED_DIGITS - precision) as ExpInt
}

/// The number, or the next one if it is even and something was lost below it.
#[inline(always)]
pub(crate) fn odd_if(number: u64, lost: bool) -> u64
    ensures { result ≡ (if lost then number + (1 - number % 2) else number) }
{
    number | u64::from(lost)
}

/// A number without its `places` lowest digits, rounded to odd: if anything is lost, the last remaining digit is set.
#[inline(always)]
fn cut_to_odd(number: u64, places: u32) -> u64
    requires { 0 < number }
    ensures { IsRoundedToOdd 1 result number (2 ^ places) }
{
    if places >= 64 {
        return 1;
    }
    let whole = number >> places;
    let lost = whole << places != number;
    odd_if(whole, lost)
}

/// The sum or the difference of `high * 2^gap` and `low`, which is not above it, in units of `2^gap`, rounded to odd.
/// No place at which a format of at most 59 digits cuts it is as low as the last digit, so it is rounded there as the
/// exact one would be.
#[inline(always)]
fn total_of(high: u64, low: u64, gap: u32, unlike: bool) -> u64
    requires high_full { 2 ^ 61 ≤ high }
    requires high_fits { high < 2 ^ 62 }
    requires high_free { high % 2 ≡ 0 }
    requires low_full { 2 ^ 61 ≤ low }
    requires low_fits { low < 2 ^ 62 }
    requires low_free { low % 2 ≡ 0 }
    requires order { gap ≡ 0 → low ≤ high }
    ensures together { unlike ≡ false
        → IsRoundedToOdd (2 ^ 60) result (high * 2 ^ gap + low) (2 ^ gap) }
    ensures apart { unlike ≡ true
        → IsApartToOdd (2 ^ 60) (high * 2 ^ gap) low false result (2 ^ gap) }
{
    let cut = cut_to_odd(low, gap);
    if unlike { high - cut } else { high + cut }
}

/// The sum of two normal numbers, if it is one.
#[inline(always)]
fn add_ordered<S: Flagged>(numbers: Ordered, round: Round) -> Option<Encoded>
    requires bits { S.PRECISION < S.BITS }
    requires word { FitsWord (constants_of S.Flagged) }
    requires high { IsFullNumber (constants_of S.Flagged) numbers.high }
    requires low { IsFullNumber (constants_of S.Flagged) numbers.low }
    requires order { IsOrdered numbers }
    requires unlike { numbers.unlike
        ≡ not (beq numbers.high.negative numbers.low.negative) }
    ensures { let high = numbers.high in
        let low = numbers.low in
        IfSome result (IsNumberAnswer (constants_of S.Flagged) (IsRounded
        (format_of S.Flagged) round (zero_sum_sign round high.negative low.negative)
        (signed high.negative (quanta_of high) +ℤ signed low.negative (quanta_of low)) 1)) }
{
    let precision = precision_of::<S>();
    let Ordered { high, low, unlike } = numbers;
    let total = total_of(
        moved_up(high.significand, precision),
        moved_up(low.significand, precision),
        high.place - low.place,
        unlike,
    );
    if total == 0 {
        None
    } else {
        let place = moved_place(high.place, precision);
        encode_odd::<S>(total, place, high.negative, round)
    }
}

/// The sum of two values in a format that fits in a word, if they and their sum are normal numbers.
#[inline(always)]
fn add_words<S: Flagged>(x: u128, y: u128, round: Round) -> Option<Encoded>
    requires bits { S.PRECISION < S.BITS }
    requires word { FitsWord (constants_of S.Flagged) }
    ensures { let c = constants_of S.Flagged in
        IfSome result (IsNumberAnswer c
        (IsSum (format_of S.Flagged) round (value_in c x) (value_in c y))) }
{
    if let Some(numbers) = ordered_numbers::<S>(x, y, false) {
        add_ordered::<S>(numbers, round)
    } else {
        None
    }
}

/// The difference of two values in a format that fits in a word, if they and their difference are normal numbers.
#[inline(always)]
fn subtract_words<S: Flagged>(x: u128, y: u128, round: Round) -> Option<Encoded>
    requires bits { S.PRECISION < S.BITS }
    requires word { FitsWord (constants_of S.Flagged) }
    ensures { let c = constants_of S.Flagged in
        IfSome result (IsNumberAnswer c
        (IsDifference (format_of S.Flagged) round (value_in c x) (value_in c y))) }
{
    if let Some(numbers) = ordered_numbers::<S>(x, y, true) {
        add_ordered::<S>(numbers, round)
    } else {
        None
    }
}

/// The sum of two values as `add_bits`, if they and their sum are normal numbers of a format that fits in a word.
#[inline(always)]
pub fn add_normal<S: Flagged>(x: u128, y: u128, round: Round) -> Option<Encoded>
    requires { S.PRECISION < S.BITS }
    ensures { let c = constants_of S.Flagged in
        IfSome result (IsNumberAnswer c
        (IsSum (format_of S.Flagged) round (value_in c x) (value_in c y))) }
{
    if fits_word::<S>() {
        add_words::<S>(x, y, round)
    } else {
        None
    }
}

/// The difference of two values as `subtract_bits`, if they and their difference are normal numbers of a format that
/// fits in a word.
#[inline(always)]
pub fn subtract_normal<S: Flagged>(x: u128, y: u128, round: Round) -> Option<Encoded>
    requires { S.PRECISION < S.BITS }
    ensures { let c = constants_of S.Flagged in
        IfSome result (IsNumberAnswer c
        (IsDifference (format_of S.Flagged) round (value_in c x) (value_in c y))) }
{
    if fits_word::<S>() {
        subtract_words::<S>(x, y, round)
    } else {
        None
    }
}

/// The sum of two values by `add_r`: what `add_normal` leaves.
#[inline(never)]
fn add_values<S: Flagged>(x: u128, y: u128, round: Round) -> Encoded
    requires { S.PRECISION < S.BITS }
    ensures { let c = constants_of S.Flagged in
        IsEncodedAnswer c (IsSum (format_of S.Flagged) round (value_in c x) (value_in c y)) result }
{
    let sum = IeeeFloat::<S>::from_bits(x).add_r(IeeeFloat::<S>::from_bits(y), round);
    Encoded {
        bits: sum.value.to_bits(),
        status: sum.status,
    }
}

/// The difference of two values by `sub_r`: what `subtract_normal` leaves.
#[inline(never)]
fn subtract_values<S: Flagged>(x: u128, y: u128, round: Round) -> Encoded
    requires { S.PRECISION < S.BITS }
    ensures { let c = constants_of S.Flagged in
        IsEncodedAnswer c (IsDifference (format_of S.Flagged) round (value_in c x) (value_in c y))
        result }
{
    let difference = IeeeFloat::<S>::from_bits(x).sub_r(IeeeFloat::<S>::from_bits(y), round);
    Encoded {
        bits: difference.value.to_bits(),
        status: difference.status,
    }
}

/// The sum of the values that `x` and `y` encode, rounded once, as `add_r` of them (IEEE 754-2019 5.4.1). Bits at and
/// above the width of the format are ignored.
#[inline(always)]
pub fn add_bits<S: Flagged>(x: u128, y: u128, round: Round) -> Encoded
    requires { S.PRECISION < S.BITS }
    ensures { let c = constants_of S.Flagged in
        IsEncodedAnswer c (IsSum (format_of S.Flagged) round (value_in c x) (value_in c y)) result }
{
    let left = word_of::<S>(x);
    let right = word_of::<S>(y);
    if let Some(sum) = add_normal::<S>(left, right, round) {
        sum
    } else {
        add_values::<S>(left, right, round)
    }
}

/// The difference of the values that `x` and `y` encode, rounded once, as `sub_r` of them (IEEE 754-2019 5.4.1). Bits
/// at and above the width of the format are ignored.
#[inline(always)]
pub fn subtract_bits<S: Flagged>(x: u128, y: u128, round: Round) -> Encoded
    requires { S.PRECISION < S.BITS }
    ensures { let c = constants_of S.Flagged in
        IsEncodedAnswer c (IsDifference (format_of S.Flagged) round (value_in c x) (value_in c y))
        result }
{
    let left = word_of::<S>(x);
    let right = word_of::<S>(y);
    if let Some(difference) = subtract_normal::<S>(left, right, round) {
        difference
    } else {
        subtract_values::<S>(left, right, round)
    }
}
