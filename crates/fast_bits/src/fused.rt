//! Fused sums: the product of two values plus a third, rounded once (IEEE 754-2019 5.4.1, fusedMultiplyAdd).

ghost use Rattle.std.specs.Prelude.{◌≡◌, ℕ, ◌+◌, ◌-◌, ◌*◌, ◌%◌, ◌^◌, ◌<◌, ◌≤◌, pos, ◌+ℤ◌, true, false, IfSome};
ghost use Rattle.apfloat_model.specs.arithmetic.{Exact.IsRounded, Exact.product_sign, Exact.signed};
ghost use Rattle.apfloat_model.specs.arithmetic.{FusedSums.IsFusedSum, Sums.zero_sum_sign};
ghost use Rattle.apfloat_model.specs.rounding.{Bounds.IsWithin, Bounds.exponent_bound, RoundingToOdd.IsRoundedToOdd};
ghost use Rattle.apfloat_model.specs.rounding.Standing.{up, down};
ghost use Rattle.apfloat_ieee.specs.FlaggedTypes.{constants_of, format_of};
ghost use Rattle.fast_bits.specs.Encoded.{IsEncodedNumber, IsNumberAnswer, value_in};
ghost use Rattle.fast_bits.specs.Numbers.{FitsWord, IsFullNumber, IsTermOf, quanta_of};

use crate::encoded::Encoded;
use crate::numbers::{Number, Operands, fits_word, normal_number, normal_operands, precision_of};
use crate::products::{raised_product, sign_of_product};
use crate::sums::odd_if;
use crate::totals::encode_counted;
use apfloat_base::{ExpInt, Round};
use apfloat_ieee::Flagged;
use apfloat_words::{Term, U128Total, add_u128_terms, digits, low_digits, power_of_two};

/// The exponent of the last digit of a product that was moved up, in units of its numbers' quanta.
#[inline(always)]
fn product_exponent(left: u32, right: u32, moved: u32) -> ExpInt
    requires left { left < 2 ^ 22 }
    requires right { right < 2 ^ 22 }
    requires moved { moved ≤ 1 }
    ensures { (result +ℤ pos moved) ≡ pos (left + right) }
{
    left as ExpInt + right as ExpInt - moved as ExpInt
}

/// The exponent of the last digit of an addend that was moved up by the precision, in the same units.
#[inline(always)]
fn addend_exponent<S: Flagged>(place: u32) -> ExpInt
    requires { place < 2 ^ 22 }
    ensures { (result +ℤ pos S.PRECISION) ≡ pos (place + (format_of S.Flagged).scale) }
{
    place as ExpInt - (S::MIN_EXP + 1)
}

/// The product of two numbers.
#[inline(always)]
fn product_term<S: Flagged>(x: Number, y: Number) -> Term
    requires word { FitsWord (constants_of S.Flagged) }
    requires x { IsFullNumber (constants_of S.Flagged) x }
    requires y { IsFullNumber (constants_of S.Flagged) y }
    ensures { IsTermOf (2 * S.PRECISION) (product_sign x.negative y.negative)
        (quanta_of x * quanta_of y) result }
{
    let product = raised_product(precision_of::<S>(), x.significand, y.significand);
    Term {
        negative: sign_of_product(x.negative, y.negative),
        exponent: product_exponent(x.place, y.place, product.moved),
        significand: product.significand,
    }
}

/// A significand, moved up to twice its number of digits.
#[inline(always)]
fn raised_addend(precision: u32, significand: u64) -> u128
    requires some { 0 < precision }
    requires short { precision ≤ 59 }
    requires fits { significand < 2 ^ precision }
    requires full { 2 ^ (precision - 1) ≤ significand }
    ensures value { result ≡ significand * 2 ^ precision }
    ensures fits { result < 2 ^ (2 * precision) }
    ensures full { 2 ^ (2 * precision - 1) ≤ result }
{
    significand as u128 * power_of_two(precision)
}

/// A number, with twice the digits of the format.
#[inline(always)]
fn addend_term<S: Flagged>(z: Number) -> Term
    requires word { FitsWord (constants_of S.Flagged) }
    requires z { IsFullNumber (constants_of S.Flagged) z }
    ensures { IsTermOf (2 * S.PRECISION) z.negative
        (quanta_of z * 2 ^ (format_of S.Flagged).scale) result }
{
    Term {
        negative: z.negative,
        exponent: addend_exponent::<S>(z.place),
        significand: raised_addend(precision_of::<S>(), z.significand),
    }
}

/// A significand with `digits` digits, moved up until it has 128.
#[inline(always)]
fn at_double_top(significand: u128, digits: u32) -> u128
    requires word { digits ≤ 128 }
    requires any { 0 < digits }
    requires fits { significand < 2 ^ digits }
    ensures { result ≡ significand * 2 ^ (128 - digits) }
{
    significand << (128 - digits)
}

/// Whether any of the lowest 64 digits of a number is not 0.
#[inline(always)]
fn ends_in_some(number: u128) -> bool
    ensures some { result ≡ true → 0 < number % 2 ^ 64 }
    ensures none { result ≡ false → number % 2 ^ 64 ≡ 0 }
{
    low_digits(number, 64) != 0
}

/// The highest 64 of 128 digits, rounded to odd.
#[inline(always)]
fn upper_word(number: u128) -> u64
    requires { 2 ^ 127 ≤ number }
    ensures rounded { IsRoundedToOdd 1 result number (2 ^ 64) }
    ensures full { 2 ^ 63 ≤ result }
{
    odd_if((number >> 64) as u64, ends_in_some(number))
}

/// The place of the lowest digit of the highest 64 digits of a total.
#[inline(always)]
fn upper_place<S: Flagged>(exponent: ExpInt, digits: u32) -> ExpInt
    requires near { IsWithin exponent_bound exponent }
    requires short { digits ≤ 128 }
    ensures { (result +ℤ pos ((format_of S.Flagged).scale + 64)) ≡ (exponent +ℤ pos digits) }
{
    exponent + digits as ExpInt + (S::MIN_EXP - 63) - S::PRECISION as ExpInt
}

/// A total that was rounded to odd, rounded, if it is a normal number.
#[inline(always)]
fn encode_total<S: Flagged>(total: U128Total, round: Round) -> Option<Encoded>
    requires bits { S.PRECISION < S.BITS }
    requires word { FitsWord (constants_of S.Flagged) }
    requires some { 0 < total.significand }
    requires near { IsWithin exponent_bound total.exponent }
    ensures { (amount : ℕ) → IsRoundedToOdd (2 ^ 125) total.significand
        (amount * 2 ^ down total.exponent) (1 * 2 ^ up total.exponent)
        → IfSome result (IsEncodedNumber (constants_of S.Flagged) round total.negative amount
        (2 ^ (format_of S.Flagged).scale)) }
{
    let digits = digits(total.significand);
    let word = upper_word(at_double_top(total.significand, digits));
    let place = upper_place::<S>(total.exponent, digits);
    encode_counted::<S>(word, 64, place, total.negative, round)
}

/// The product of two normal numbers plus a third, if it is a normal number.
#[inline(always)]
fn multiply_add_numbers<S: Flagged>(
    x: Number,
    y: Number,
    z: Number,
    round: Round,
) -> Option<Encoded>
    requires bits { S.PRECISION < S.BITS }
    requires word { FitsWord (constants_of S.Flagged) }
    requires x { IsFullNumber (constants_of S.Flagged) x }
    requires y { IsFullNumber (constants_of S.Flagged) y }
    requires z { IsFullNumber (constants_of S.Flagged) z }
    ensures { let sign = product_sign x.negative y.negative in
        let scale = 2 ^ (format_of S.Flagged).scale in
        IfSome result (IsNumberAnswer (constants_of S.Flagged) (IsRounded
        (format_of S.Flagged) round (zero_sum_sign round sign z.negative)
        (signed sign (quanta_of x * quanta_of y) +ℤ signed z.negative (quanta_of z * scale))
        scale)) }
{
    let digits = 2 * precision_of::<S>();
    let total = add_u128_terms(digits, product_term::<S>(x, y), addend_term::<S>(z));
    if total.significand == 0 {
        None
    } else {
        encode_total::<S>(total, round)
    }
}

/// The product of two values plus a third in a format that fits in a word, if these and the sum are normal numbers.
#[inline(always)]
fn multiply_add_words<S: Flagged>(x: u128, y: u128, z: u128, round: Round) -> Option<Encoded>
    requires bits { S.PRECISION < S.BITS }
    requires word { FitsWord (constants_of S.Flagged) }
    ensures { let c = constants_of S.Flagged in
        IfSome result (IsNumberAnswer c
        (IsFusedSum (format_of S.Flagged) round (value_in c x) (value_in c y) (value_in c z))) }
{
    if let Some(operands) = normal_operands::<S>(x, y) {
        if let Some(addend) = normal_number::<S>(z) {
            let Operands { left, right } = operands;
            return multiply_add_numbers::<S>(left, right, addend, round);
        }
    }
    None
}

/// The product of two values plus a third as `wide_mul_add_r` of them, if these and the sum are normal numbers of a
/// format that fits in a word.
#[inline(always)]
pub fn multiply_add_normal<S: Flagged>(x: u128, y: u128, z: u128, round: Round) -> Option<Encoded>
    requires { S.PRECISION < S.BITS }
    ensures { let c = constants_of S.Flagged in
        IfSome result (IsNumberAnswer c
        (IsFusedSum (format_of S.Flagged) round (value_in c x) (value_in c y) (value_in c z))) }
{
    if fits_word::<S>() {
        multiply_add_words::<S>(x, y, z, round)
    } else {
        None
    }
}
