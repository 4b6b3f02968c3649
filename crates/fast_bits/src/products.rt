//! Products.

ghost use Rattle.std.specs.Prelude.{◌≡◌, ◌+◌, ◌-◌, ◌*◌, ◌/◌, ◌%◌, ◌^◌, ◌<◌, ◌≤◌, pos, ◌+ℤ◌, IfSome};
ghost use Rattle.apfloat_model.specs.arithmetic.{Exact.product_sign, Products.IsProduct};
ghost use Rattle.apfloat_ieee.specs.FlaggedTypes.{constants_of, format_of};
ghost use Rattle.fast_bits.specs.Encoded.{IsEncodedAnswer, IsEncodedNumber, IsNumberAnswer, value_in};
ghost use Rattle.fast_bits.specs.Numbers.{FitsWord, IsFullNumber, quanta_of};

use crate::cuts::{encode_cut, inner_place, power_of};
use crate::encoded::Encoded;
use crate::numbers::{Number, Operands, fits_word, normal_operands, precision_of, word_of};
use apfloat_base::{ExpInt, Float, Round};
use apfloat_ieee::{Flagged, IeeeFloat};
use apfloat_words::{full_product, power_of_two};

/// The product of two significands, and how many places it was moved up.
#[derive(Clone, Copy)]
pub(crate) struct Raised {
    pub significand: u128,
    pub moved: u32,
}

/// The product of two significands, moved up to twice their number of digits.
#[inline(always)]
pub(crate) fn raised_product(precision: u32, left: u64, right: u64) -> Raised
    requires some { 0 < precision }
    requires short { precision ≤ 59 }
    requires left_fits { left < 2 ^ precision }
    requires right_fits { right < 2 ^ precision }
    requires left_full { 2 ^ (precision - 1) ≤ left }
    requires right_full { 2 ^ (precision - 1) ≤ right }
    ensures value { result.significand ≡ left * right * 2 ^ result.moved }
    ensures moved { result.moved ≤ 1 }
    ensures fits { result.significand < 2 ^ (2 * precision) }
    ensures full { 2 ^ (2 * precision - 1) ≤ result.significand }
{
    let significand = full_product(left as u128, right as u128);
    if significand < power_of_two(2 * precision - 1) {
        Raised {
            significand: 2 * significand,
            moved: 1,
        }
    } else {
        Raised {
            significand,
            moved: 0,
        }
    }
}

/// The sign of a product or a quotient (IEEE 754-2019 6.3).
#[inline(always)]
pub(crate) fn sign_of_product(left: bool, right: bool) -> bool
    ensures { result ≡ product_sign left right }
{
    left != right
}

/// The highest digits of a product with `2 * precision` digits: as many as the format has.
#[inline(always)]
fn upper_digits(product: u128, precision: u32) -> u64
    requires some { 0 < precision }
    requires short { precision ≤ 59 }
    requires fits { product < 2 ^ (2 * precision) }
    requires full { 2 ^ (2 * precision - 1) ≤ product }
    ensures value { result ≡ product / 2 ^ precision }
    ensures fits { result < 2 ^ precision }
    ensures full { 2 ^ (precision - 1) ≤ result }
{
    (product / power_of_two(precision)) as u64
}

/// The lowest digits of a product.
#[inline(always)]
fn lower_digits(product: u128, precision: u32) -> u64
    requires { precision ≤ 59 }
    ensures { result ≡ product % 2 ^ precision }
{
    (product % power_of_two(precision)) as u64
}

/// The place of the lowest kept digit of a product of numbers at these places.
#[inline(always)]
fn product_place<S: Flagged>(left: u32, right: u32, moved: u32) -> ExpInt
    requires left { left < 2 ^ 22 }
    requires right { right < 2 ^ 22 }
    requires moved { moved ≤ 1 }
    ensures { (result +ℤ pos ((format_of S.Flagged).scale + moved))
        ≡ pos (left + right + S.PRECISION) }
{
    left as ExpInt + right as ExpInt + 1 + S::MIN_EXP - moved as ExpInt
}

/// The product of two normal numbers, if it is one.
#[inline(always)]
fn multiply_numbers<S: Flagged>(x: Number, y: Number, round: Round) -> Option<Encoded>
    requires bits { S.PRECISION < S.BITS }
    requires word { FitsWord (constants_of S.Flagged) }
    requires x { IsFullNumber (constants_of S.Flagged) x }
    requires y { IsFullNumber (constants_of S.Flagged) y }
    ensures { IfSome result (IsEncodedNumber (constants_of S.Flagged) round
        (product_sign x.negative y.negative) (quanta_of x * quanta_of y)
        (2 ^ (format_of S.Flagged).scale)) }
{
    let precision = precision_of::<S>();
    let product = raised_product(precision, x.significand, y.significand);
    let kept = upper_digits(product.significand, precision);
    let rest = lower_digits(product.significand, precision);
    let half = power_of(precision - 1);
    let from = product_place::<S>(x.place, y.place, product.moved);
    let negative = sign_of_product(x.negative, y.negative);
    if let Some(place) = inner_place::<S>(from) {
        Some(encode_cut::<S>(negative, kept, rest, half, place, round))
    } else {
        None
    }
}

/// The product of two values in a format that fits in a word, if they and their product are normal numbers.
#[inline(always)]
fn multiply_words<S: Flagged>(x: u128, y: u128, round: Round) -> Option<Encoded>
    requires bits { S.PRECISION < S.BITS }
    requires word { FitsWord (constants_of S.Flagged) }
    ensures { let c = constants_of S.Flagged in
        IfSome result (IsNumberAnswer c
        (IsProduct (format_of S.Flagged) round (value_in c x) (value_in c y))) }
{
    if let Some(operands) = normal_operands::<S>(x, y) {
        let Operands { left, right } = operands;
        multiply_numbers::<S>(left, right, round)
    } else {
        None
    }
}

/// The product of two values as `multiply_bits`, if they and their product are normal numbers of a format that fits in
/// a word.
#[inline(always)]
pub fn multiply_normal<S: Flagged>(x: u128, y: u128, round: Round) -> Option<Encoded>
    requires { S.PRECISION < S.BITS }
    ensures { let c = constants_of S.Flagged in
        IfSome result (IsNumberAnswer c
        (IsProduct (format_of S.Flagged) round (value_in c x) (value_in c y))) }
{
    if fits_word::<S>() {
        multiply_words::<S>(x, y, round)
    } else {
        None
    }
}

/// The product of two values by `wide_mul_r`: what `multiply_normal` leaves.
#[inline(never)]
fn multiply_values<S: Flagged>(x: u128, y: u128, round: Round) -> Encoded
    requires { S.PRECISION < S.BITS }
    ensures { let c = constants_of S.Flagged in
        IsEncodedAnswer c (IsProduct (format_of S.Flagged) round (value_in c x) (value_in c y))
        result }
{
    let product = IeeeFloat::<S>::from_bits(x).wide_mul_r(IeeeFloat::<S>::from_bits(y), round);
    Encoded {
        bits: product.value.to_bits(),
        status: product.status,
    }
}

/// The product of the values that `x` and `y` encode, rounded once, as `wide_mul_r` of them (IEEE 754-2019 5.4.1). Bits
/// at and above the width of the format are ignored.
#[inline(always)]
pub fn multiply_bits<S: Flagged>(x: u128, y: u128, round: Round) -> Encoded
    requires { S.PRECISION < S.BITS }
    ensures { let c = constants_of S.Flagged in
        IsEncodedAnswer c (IsProduct (format_of S.Flagged) round (value_in c x) (value_in c y))
        result }
{
    let left = word_of::<S>(x);
    let right = word_of::<S>(y);
    if let Some(product) = multiply_normal::<S>(left, right, round) {
        product
    } else {
        multiply_values::<S>(left, right, round)
    }
}
