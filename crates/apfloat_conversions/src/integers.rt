//! Conversions from and to integers.

ghost use Rattle.std.specs.Int.{cast_signed, w128};
ghost use Rattle.std.specs.Prelude.{◌≡◌, ◌-◌, ◌*◌, ◌^◌, ◌<◌, ◌≤◌, pos, false, if◌then◌else◌};
ghost use Rattle.apfloat_model.specs.{formats.Datum.finite, formats.Nan.invalid_bit, rounding.Flags.bits_of};
ghost use Rattle.apfloat_model.specs.{whole_numbers.WholeNumbersOut.to_unsigned, arithmetic.Exact.signed};
ghost use Rattle.apfloat_model.specs.whole_numbers.WholeNumbers.{IsFromUnsigned, inexact_unless};
ghost use Rattle.apfloat_model.specs.whole_numbers.WholeNumbersOut.{exact_or_not, invalid_whole, to_signed};
ghost use Rattle.apfloat_rounding.specs.Shapes.{format_at};
ghost use Rattle.apfloat_rounding.specs.Stored.{IsStored, IsNormal, datum_at, number_of, quanta_of, GivesAt};
ghost use Rattle.apfloat_conversions.specs.Results.{GivesSigned, GivesWhole, IsLimited};
ghost use Rattle.apfloat_conversions.specs.Wholes.{signed_limit};

use crate::whole::{Whole, whole_of};
use apfloat_model::{Category, Round, Status, StatusAnd};
use apfloat_rounding::exponents::aligned_exponent;
use apfloat_rounding::rounding::deliver_counted_u128;
use apfloat_rounding::shape::Shape;
use apfloat_rounding::unpacked::{Unpacked, zero_of};
use apfloat_words::{digits, power_of_two};

/// An integer of `count` digits, shifted up until it has 128.
#[inline(always)]
fn aligned(number: u128, count: u32) -> u128
    requires some { 0 < count }
    requires short { count ≤ 128 }
    requires below { number < 2 ^ count }
    requires full { 2 ^ (count - 1) ≤ number }
    ensures value { result ≡ number * 2 ^ (128 - count) }
    ensures full { 2 ^ 127 ≤ result }
{
    number << (128 - count)
}

/// The value of an integer, rounded once. The integer is normalized first, so that the cut is at the same digit for
/// all.
#[inline(always)]
pub fn from_unsigned(shape: Shape, number: u128, round: Round) -> StatusAnd<Unpacked>
    ensures stored { IsStored shape result.value }
    ensures delivered { GivesAt shape (IsFromUnsigned (format_at shape) round number) result }
{
    let count = digits(number);
    if count == 0 {
        return Status::OK.and(zero_of(shape, false));
    }
    let significand = aligned(number, count);
    deliver_counted_u128(
        shape,
        significand,
        128,
        aligned_exponent(count),
        round,
        false,
    )
}

/// The integer that a value was converted to, and whether it equals the value.
#[derive(Clone, Copy)]
pub struct Unsigned {
    /// The integer, with its status.
    pub answer: StatusAnd<u128>,
    /// Whether the integer equals the value; false for -0.
    pub is_exact: bool,
}

/// The signed integer that a value was converted to, and whether it equals the value.
#[derive(Clone, Copy)]
pub struct Signed {
    /// The integer, with its status.
    pub answer: StatusAnd<i128>,
    /// Whether the integer equals the value; false for -0.
    pub is_exact: bool,
}

/// The status of an integer in range.
#[inline(always)]
pub fn status_of(exact: bool) -> Status
    ensures { bits_of result ≡ inexact_unless exact }
{
    if exact { Status::OK } else { Status::INEXACT }
}

/// The greatest integer of `width` binary digits.
#[inline(always)]
fn greatest(width: u32) -> u128
    requires low { 1 ≤ width }
    requires high { width ≤ 128 }
    ensures { result ≡ 2 ^ width - 1 }
{
    u128::MAX >> (128 - width)
}

/// The result for a value out of range: the nearer end of the range, with `INVALID_OP`.
#[inline(always)]
fn out_of_range(number: u128) -> Unsigned
    ensures { GivesWhole (invalid_whole (pos number)) result }
{
    Unsigned {
        answer: Status::INVALID_OP.and(number),
        is_exact: false,
    }
}

/// The end of the range on the side of this sign.
#[inline(always)]
fn limit_of(width: u32, negative: bool) -> u128
    requires low { 1 ≤ width }
    requires high { width ≤ 128 }
    ensures value { result ≡ (if negative then 0 else 2 ^ width - 1) }
    ensures fits { result < 2 ^ width }
{
    if negative { 0 } else { greatest(width) }
}

/// By how much the greatest magnitude with this sign is below a power of two.
#[inline(always)]
fn below_power(negative: bool) -> u128
    ensures { result ≡ (if negative then 0 else 1) }
{
    u128::from(!negative)
}

/// The greatest magnitude of a signed integer of `width` binary digits with this sign.
#[inline(always)]
fn signed_limit(width: u32, negative: bool) -> u128
    requires low { 1 ≤ width }
    requires high { width ≤ 128 }
    ensures value { result ≡ signed_limit width negative }
    ensures fits { result ≤ signed_limit 128 negative }
{
    power_of_two(width - 1) - below_power(negative)
}

/// The integer of that magnitude with this sign, in 128-bit two's complement. The magnitude is negated before the sign
/// is asked for, so that the compiler makes a choice of it and no branch: a processor cannot predict the sign.
#[inline(always)]
fn bits_with_sign(negative: bool, magnitude: u128) -> u128
    requires { magnitude ≤ signed_limit 128 negative }
    ensures { cast_signed w128 result ≡ signed negative magnitude }
{
    let negated = magnitude.wrapping_neg();
    if negative { negated } else { magnitude }
}

/// The integer of that magnitude with this sign.
#[inline(always)]
fn with_sign(negative: bool, magnitude: u128) -> i128
    requires { magnitude ≤ signed_limit 128 negative }
    ensures { result ≡ signed negative magnitude }
{
    bits_with_sign(negative, magnitude).cast_signed()
}

/// The status of an integer, by whether it is in range.
#[inline(always)]
fn status_within(fits: bool, exact: bool) -> Status
    ensures { bits_of result ≡ (if fits then inexact_unless exact else invalid_bit) }
{
    if fits {
        status_of(exact)
    } else {
        Status::INVALID_OP
    }
}

/// An integer if it is at most `limit`, and else the limit, with `INVALID_OP`. There is no branch on which of them it
/// is: for an unsigned integer the sign decides that, which a processor cannot predict.
#[inline(always)]
fn within_limit(whole: Whole, limit: u128) -> Unsigned
    ensures past { limit < whole.magnitude → GivesWhole (invalid_whole (pos limit)) result }
    ensures within { whole.magnitude ≤ limit
        → GivesWhole (exact_or_not (pos whole.magnitude) whole.exact false) result }
    ensures fits { result.answer.value ≤ limit }
{
    let fits = whole.magnitude <= limit;
    Unsigned {
        answer: status_within(fits, whole.exact).and(whole.magnitude.min(limit)),
        is_exact: whole.exact & fits,
    }
}

/// The magnitude of a nonzero number rounded to an integer, if that is at most `limit`, and else the limit, with
/// `INVALID_OP`.
#[inline(always)]
fn magnitude_within(shape: Shape, x: Unpacked, limit: u128, round: Round) -> Unsigned
    requires { IsNormal shape x }
    ensures limited { IsLimited (format_at shape) round x.negative (quanta_of shape x) limit
        result }
    ensures fits { result.answer.value ≤ limit }
{
    match whole_of(shape, x, round) {
        None => out_of_range(limit),
        Some(whole) => within_limit(whole, limit),
    }
}

/// A nonzero number as an integer of `width` binary digits.
#[inline(always)]
fn number_to_unsigned(shape: Shape, x: Unpacked, width: u32, round: Round) -> Unsigned
    requires normal { IsNormal shape x }
    requires low { 1 ≤ width }
    requires high { width ≤ 128 }
    ensures whole { GivesWhole (to_unsigned (format_at shape) round width (number_of shape x))
        result }
    ensures fits { result.answer.value < 2 ^ width }
{
    magnitude_within(shape, x, limit_of(width, x.negative), round)
}

/// A nonzero number as a signed integer of `width` binary digits. Both signs take the same path, since a processor
/// cannot predict the sign.
#[inline(always)]
fn number_to_signed(shape: Shape, x: Unpacked, width: u32, round: Round) -> Signed
    requires normal { IsNormal shape x }
    requires low { 1 ≤ width }
    requires high { width ≤ 128 }
    ensures { GivesSigned (to_signed (format_at shape) round width (number_of shape x)) result }
{
    let magnitude = magnitude_within(shape, x, signed_limit(width, x.negative), round);
    Signed {
        answer: magnitude
            .answer
            .status
            .and(with_sign(x.negative, magnitude.answer.value)),
        is_exact: magnitude.is_exact,
    }
}

/// A value as an integer of `width` binary digits.
#[inline(always)]
pub fn to_unsigned(shape: Shape, x: Unpacked, width: u32, round: Round) -> Unsigned
    requires stored { IsStored shape x }
    requires low { 1 ≤ width }
    requires high { width ≤ 128 }
    ensures whole { GivesWhole (to_unsigned (format_at shape) round width (datum_at shape x))
        result }
    ensures fits { result.answer.value < 2 ^ width }
{
    match x.category {
        Category::Normal => number_to_unsigned(shape, x, width, round),
        Category::Zero => Unsigned {
            answer: Status::OK.and(0),
            is_exact: !x.negative,
        },
        Category::Infinity => out_of_range(limit_of(width, x.negative)),
        Category::NaN => out_of_range(0),
    }
}

/// The result for a value out of the range of signed integers: the nearer end of the range, with `INVALID_OP`.
#[inline(always)]
fn signed_out_of_range(number: i128) -> Signed
    ensures { GivesSigned (invalid_whole number) result }
{
    Signed {
        answer: Status::INVALID_OP.and(number),
        is_exact: false,
    }
}

/// A value as a signed integer of `width` binary digits, in two's complement.
#[inline(always)]
pub fn to_signed(shape: Shape, x: Unpacked, width: u32, round: Round) -> Signed
    requires stored { IsStored shape x }
    requires low { 1 ≤ width }
    requires high { width ≤ 128 }
    ensures { GivesSigned (to_signed (format_at shape) round width (datum_at shape x)) result }
{
    match x.category {
        Category::Normal => number_to_signed(shape, x, width, round),
        Category::Zero => Signed {
            answer: Status::OK.and(0),
            is_exact: !x.negative,
        },
        Category::Infinity => {
            let limit = signed_limit(width, x.negative);
            signed_out_of_range(with_sign(x.negative, limit))
        }
        Category::NaN => signed_out_of_range(0),
    }
}
