//! Quotients.

ghost use Rattle.std.specs.Prelude.{◌≡◌, ◌+◌, ◌-◌, ◌*◌, ◌^◌, ◌<◌, ◌≤◌};
ghost use Rattle.apfloat_model.specs.{rounding.RoundingToOdd.odd_quotient, arithmetic.Quotients.IsQuotient};
ghost use Rattle.apfloat_rounding.specs.{Shapes.format_at, Stored.IsStored, Stored.datum_at, Stored.GivesAt};
ghost use Rattle.apfloat_arithmetic.specs.NumberResults.{AreNormal, IsNumberQuotient};

use crate::classes::are_normal;
use crate::products::product_sign;
use crate::specials::{Operation, special};
use apfloat_model::{Round, StatusAnd};
use apfloat_rounding::exponents::quotient_exponent;
use apfloat_rounding::rounding::deliver;
use apfloat_rounding::rounding::from_word::deliver_counted_word;
use apfloat_rounding::shape::Shape;
use apfloat_rounding::unpacked::Unpacked;
use apfloat_words::{WORD_LIMIT, divide_by_guess, divide_u128, divide_word, guess_quotient};

/// The number of places by which a dividend is moved up to be at least the divisor.
#[inline(always)]
fn places_up(dividend: u64, divisor: u64) -> u32
    ensures less { dividend < divisor → result ≡ 1 }
    ensures close { divisor ≤ dividend → result ≡ 0 }
    ensures bound { result ≤ 1 }
{
    u32::from(dividend < divisor)
}

/// The quotient of two significands that each fit in a word, with one place more than the precision, rounded to odd: by
/// a machine division of 32 digits if they suffice, and by a guess otherwise.
#[inline(always)]
fn word_quotient_of(precision: u32, dividend: u64, divisor: u64) -> u64
    requires some { 0 < precision }
    requires short { precision ≤ 59 }
    requires close { dividend < 2 * divisor }
    requires divisor_fits { divisor < 2 ^ precision }
    requires divisor_full { 2 ^ (precision - 1) ≤ divisor }
    ensures { result ≡ odd_quotient (dividend * 2 ^ (precision + 1)) divisor }
{
    let places = precision + 1;
    if precision <= 15 {
        return divide_word(dividend, divisor, places);
    }
    let guess = guess_quotient(precision, dividend, divisor);
    divide_by_guess(guess, dividend, divisor, places)
}

/// The quotient of two nonzero numbers whose significands fit in a word, rounded once. If a dividend that is less than
/// the divisor is moved up by one place, one place more than the precision always gives two more digits than the format
/// has.
#[inline(always)]
fn divide_word_numbers(shape: Shape, x: Unpacked, y: Unpacked, round: Round) -> StatusAnd<Unpacked>
    requires short { shape.precision ≤ 59 }
    requires normal { AreNormal shape x y }
    ensures stored { IsStored shape result.value }
    ensures delivered { GivesAt shape (IsNumberQuotient shape round x y) result }
{
    let dividend = x.significand as u64;
    let divisor = y.significand as u64;
    let up = places_up(dividend, divisor);
    let places = shape.precision + 1 + up;
    deliver_counted_word(
        shape,
        word_quotient_of(shape.precision, dividend << up, divisor),
        quotient_exponent(x.exponent, y.exponent, places),
        round,
        product_sign(x.negative, y.negative),
    )
}

/// The quotient of two nonzero numbers, rounded once. One place more than the precision always gives all digits of the
/// format.
#[inline(always)]
fn divide_numbers(shape: Shape, x: Unpacked, y: Unpacked, round: Round) -> StatusAnd<Unpacked>
    requires { AreNormal shape x y }
    ensures stored { IsStored shape result.value }
    ensures delivered { GivesAt shape (IsNumberQuotient shape round x y) result }
{
    if shape.precision <= WORD_LIMIT {
        return divide_word_numbers(shape, x, y, round);
    }
    let places = shape.precision + 1;
    let quotient = divide_u128(x.significand, y.significand, places);
    deliver(
        shape,
        quotient.whole,
        quotient_exponent(x.exponent, y.exponent, places),
        quotient.loss,
        round,
        product_sign(x.negative, y.negative),
    )
}

/// The quotient of two values, rounded once (IEEE 754-2019 5.4.1, division).
#[inline(always)]
pub fn divide(shape: Shape, x: Unpacked, y: Unpacked, round: Round) -> StatusAnd<Unpacked>
    requires left { IsStored shape x }
    requires right { IsStored shape y }
    ensures stored { IsStored shape result.value }
    ensures delivered { GivesAt shape
        (IsQuotient (format_at shape) round (datum_at shape x) (datum_at shape y)) result }
{
    if are_normal(x, y) {
        divide_numbers(shape, x, y, round)
    } else {
        special(shape, Operation::Quotient(x.remade(), y.remade()))
    }
}
