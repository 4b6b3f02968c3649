//! Quotients.

ghost use Rattle.std.specs.Prelude.{◌≡◌, ◌+◌, ◌-◌, ◌*◌, ◌^◌, ◌<◌, ◌≤◌, ◌⊎◌, pos, ◌+ℤ◌, true, false, IfSome};
ghost use Rattle.apfloat_model.specs.arithmetic.{Exact.product_sign, Quotients.IsQuotient};
ghost use Rattle.apfloat_model.specs.rounding.RoundingToOdd.{odd_quotient};
ghost use Rattle.apfloat_ieee.specs.FlaggedTypes.{constants_of, format_of};
ghost use Rattle.fast_bits.specs.Encoded.{IsEncodedNumber, IsNumberAnswer, value_in};
ghost use Rattle.fast_bits.specs.Numbers.{FitsWord, IsFullNumber, quanta_of};

use crate::encoded::Encoded;
use crate::numbers::{Number, Operands, fits_word, normal_operands, precision_of};
use crate::products::sign_of_product;
use crate::sums::odd_if;
use crate::totals::encode_counted;
use apfloat_base::{ExpInt, Round};
use apfloat_ieee::Flagged;
use apfloat_words::{divide_word, guess_quotient};

/// 1 if the first number is less than the second, otherwise 0.
#[inline(always)]
fn one_if_less(left: u64, right: u64) -> u32
    ensures less { left < right → result ≡ 1 }
    ensures close { right ≤ left → result ≡ 0 }
    ensures bound { result ≤ 1 }
{
    u32::from(left < right)
}

/// Whether what is left of a dividend, less than twice the divisor, is not a multiple of it.
#[inline(always)]
fn leaves_rest(left: u64, divisor: u64) -> bool
    ensures some { result ≡ true → (left ≡ 0 → ⊥) × (left ≡ divisor → ⊥) }
    ensures none { result ≡ false → (left ≡ 0) ⊎ (left ≡ divisor) }
{
    (left != 0) & (left != divisor)
}

/// The quotient of two significands with so many places, rounded to odd, if the guess is right or one less.
#[inline(always)]
fn quotient_if_right(guess: u64, dividend: u64, divisor: u64, places: u32) -> Option<u64>
    requires narrow { divisor < 2 ^ 59 }
    requires close { dividend < 2 * divisor }
    requires short { places ≤ 60 }
    ensures { IfSome result (λ q. q ≡ odd_quotient (dividend * 2 ^ places) divisor) }
{
    let taken = u128::from(guess) * u128::from(divisor);
    let left = (u128::from(dividend) << places).wrapping_sub(taken);
    if left < u128::from(2 * divisor) {
        let rest = left as u64;
        let quotient = guess + 1 - u64::from(one_if_less(rest, divisor));
        Some(odd_if(quotient, leaves_rest(rest, divisor)))
    } else {
        None
    }
}

/// The quotient of two significands, with one place more than the precision, rounded to odd: by a machine division of
/// 32 digits if they suffice, and otherwise by a guess, which is seldom wrong.
#[inline(always)]
fn quotient_to_odd(precision: u32, dividend: u64, divisor: u64) -> Option<u64>
    requires some { 0 < precision }
    requires short { precision ≤ 59 }
    requires close { dividend < 2 * divisor }
    requires divisor_fits { divisor < 2 ^ precision }
    requires divisor_full { 2 ^ (precision - 1) ≤ divisor }
    ensures { IfSome result (λ q. q ≡ odd_quotient (dividend * 2 ^ (precision + 1)) divisor) }
{
    let places = precision + 1;
    if precision <= 15 {
        Some(divide_word(dividend, divisor, places))
    } else {
        let guess = guess_quotient(precision, dividend, divisor);
        quotient_if_right(guess, dividend, divisor, places)
    }
}

/// The place of the lowest digit of a quotient of numbers at these places, whose dividend was moved up to give one
/// digit more than the precision below the point.
#[inline(always)]
fn quotient_place<S: Flagged>(left: u32, right: u32, up: u32) -> ExpInt
    requires left { left < 2 ^ 22 }
    requires right { right < 2 ^ 22 }
    requires up { up ≤ 1 }
    ensures { (result +ℤ pos (right + (S.PRECISION + 1 + up)))
        ≡ pos (left + (format_of S.Flagged).scale) }
{
    left as ExpInt - right as ExpInt - 2 - S::MIN_EXP - up as ExpInt
}

/// The quotient of two normal numbers, if it is one.
#[inline(always)]
fn divide_numbers<S: Flagged>(x: Number, y: Number, round: Round) -> Option<Encoded>
    requires bits { S.PRECISION < S.BITS }
    requires word { FitsWord (constants_of S.Flagged) }
    requires x { IsFullNumber (constants_of S.Flagged) x }
    requires y { IsFullNumber (constants_of S.Flagged) y }
    ensures { IfSome result (IsEncodedNumber (constants_of S.Flagged) round
        (product_sign x.negative y.negative) (quanta_of x * 2 ^ (format_of S.Flagged).scale)
        (quanta_of y)) }
{
    let precision = precision_of::<S>();
    let up = one_if_less(x.significand, y.significand);
    let place = quotient_place::<S>(x.place, y.place, up);
    let negative = sign_of_product(x.negative, y.negative);
    if let Some(quotient) = quotient_to_odd(precision, x.significand << up, y.significand) {
        encode_counted::<S>(quotient, precision + 2, place, negative, round)
    } else {
        None
    }
}

/// The quotient of two values in a format that fits in a word, if they and their quotient are normal numbers.
#[inline(always)]
fn divide_words<S: Flagged>(x: u128, y: u128, round: Round) -> Option<Encoded>
    requires bits { S.PRECISION < S.BITS }
    requires word { FitsWord (constants_of S.Flagged) }
    ensures { let c = constants_of S.Flagged in
        IfSome result (IsNumberAnswer c
        (IsQuotient (format_of S.Flagged) round (value_in c x) (value_in c y))) }
{
    if let Some(operands) = normal_operands::<S>(x, y) {
        let Operands { left, right } = operands;
        divide_numbers::<S>(left, right, round)
    } else {
        None
    }
}

/// The quotient of two values as `div_r` of them (IEEE 754-2019 5.4.1), if they and it are normal numbers of a format
/// that fits in a word. The few for which a guess fails are left to that, too.
#[inline(always)]
pub fn divide_normal<S: Flagged>(x: u128, y: u128, round: Round) -> Option<Encoded>
    requires { S.PRECISION < S.BITS }
    ensures { let c = constants_of S.Flagged in
        IfSome result (IsNumberAnswer c
        (IsQuotient (format_of S.Flagged) round (value_in c x) (value_in c y))) }
{
    if fits_word::<S>() {
        divide_words::<S>(x, y, round)
    } else {
        None
    }
}
