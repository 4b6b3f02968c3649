//! A value rounded to a number of digits, written into a buffer.

ghost use Rattle.std.specs.Prelude.{◌≡◌, ℕ, ◌+◌, ◌*◌, ◌^◌, ◌<◌, ◌≤◌, Bool, true, List};
ghost use Rattle.apfloat_model.specs.{declared.kinds.Round.Round, formats.Datum.Datum, formats.Format.Format};
ghost use Rattle.apfloat_model.specs.{order.Classes.quanta_of, order.Positive.IsPositive, rounding.Bounds.IsWithin};
ghost use Rattle.apfloat_ieee.specs.Types.{format_of};
ghost use Rattle.apfloat_digits.specs.hexadecimal.RoundedTexts.{IsHexCarried, IsRoundedHexText, IsRoundedText};
ghost use Rattle.apfloat_digits.specs.hexadecimal.WrittenTexts.{IsWrittenRounded};

use crate::hexadecimal::significands::{PLACES, digits_of};
use crate::hexadecimal::texts::{Number, infinity_line, nan_line, number_line};
use crate::hexadecimal::written::{HexError, put, zero};
use apfloat_base::{Category, ExpInt, Float, Round, StatusAnd};
use apfloat_conversions::integers::status_of;
use apfloat_decimals::formatting::Line;
use apfloat_ieee::{IeeeFloat, Semantics};
use apfloat_model::Loss;
use apfloat_rounding::rounding::moves_up;
use apfloat_words::{is_exact, power_of_two, shift_right};

/// How many digits after the dot may be asked for: no value has more.
pub const MOST_DIGITS: u32 = PLACES;

/// A number of `units` of its last digit, of which `places` follow the dot. If its first digit is 2, it is written with
/// a 1 and the next exponent.
fn carried(places: u32, units: u128, exponent: ExpInt) -> Number
    requires few { places ≤ 31 }
    requires least { 16 ^ places ≤ units }
    requires most { units ≤ 2 * 16 ^ places }
    requires within { IsWithin (2 ^ 22) exponent }
    ensures first { result.first ≡ 1 }
    ensures places { result.places ≡ places }
    ensures within { IsWithin (2 ^ 23) result.exponent }
    ensures carried { IsHexCarried places units exponent result.fraction result.exponent }
{
    let one = power_of_two(4 * places);
    if units < 2 * one {
        Number {
            first: 1,
            places,
            fraction: units - one,
            exponent,
        }
    } else {
        Number {
            first: 1,
            places,
            fraction: 0,
            exponent: exponent + 1,
        }
    }
}

/// The text of a value, and whether it is the value itself.
#[derive(Drop)]
struct Rounded {
    line: Line,
    exact: bool,
}

/// The text of a positive value rounded as a value with that sign.
fn rounded_line<S: Semantics>(negative: bool, x: IeeeFloat<S>, places: u32, round: Round) -> Rounded
    requires positive { IsPositive (format_of S.Semantics) x }
    requires few { places ≤ 31 }
    ensures { IsRoundedText (format_of S.Semantics) round negative (quanta_of x) places result.line
        result.exact }
{
    let number = digits_of(x);
    let cut = shift_right(number.digits, 4 * (PLACES - places), Loss::ExactlyZero);
    let moves = moves_up(round, negative, cut.loss, cut.significand % 2 == 1);
    let units = if moves {
        cut.significand + 1
    } else {
        cut.significand
    };
    Rounded {
        line: number_line(negative, carried(places, units, number.exponent)),
        exact: is_exact(cut.loss),
    }
}

/// The text of a value that is written as it is.
fn exactly(line: Line) -> Rounded
    ensures line { result.line ≡ line }
    ensures exact { result.exact ≡ true }
{
    Rounded { line, exact: true }
}

/// The text of a value rounded to that many digits after the dot.
fn line_of<S: Semantics>(x: IeeeFloat<S>, places: u32, round: Round) -> Rounded
    requires { places ≤ 31 }
    ensures { IsRoundedHexText (format_of S.Semantics) round places x result.line result.exact }
{
    match x.category() {
        Category::Infinity => exactly(infinity_line(x.is_negative())),
        Category::NaN => exactly(nan_line(x.is_negative(), x.is_signaling())),
        Category::Zero => exactly(number_line(x.is_negative(), zero(places))),
        Category::Normal => rounded_line(x.is_negative(), x.abs(), places, round),
    }
}

/// Writes the hexadecimal text of a value, rounded once to `places` digits after the dot, to the start of a buffer
/// (IEEE 754-2019 5.12.3), and returns its length with the status of the rounding; the rest of the buffer stays as it
/// is.
///
/// The text is that of `write_hex`, except that it has exactly that many digits after the dot, a zero too, and no dot
/// if there are none. The first digit of a nonzero number is 1: a value that is rounded up to 2 gets the next exponent.
/// The status is `INEXACT` if the number is not the value, otherwise `OK`. Infinities and NaNs are written as by
/// `write_hex`.
///
/// # Errors
///
/// `TooManyDigits` if `places` is above `MOST_DIGITS`; `NoRoom` if the text is longer than the buffer. In both cases
/// the buffer is unchanged.
pub fn write_hex_rounded<S: Semantics>(
    x: IeeeFloat<S>,
    places: u32,
    round: Round,
    buffer: &mut [u8],
) -> Result<StatusAnd<usize>, HexError>
    ensures { IsWrittenRounded (format_of S.Semantics) round places x buffer.old buffer.new result }
{
    if places > MOST_DIGITS {
        return Err(HexError::TooManyDigits);
    }
    let rounded = line_of(x, places, round);
    match put(&rounded.line, buffer) {
        Ok(length) => Ok(status_of(rounded.exact).and(length)),
        Err(error) => Err(error),
    }
}

/// The text of a rounded value is the only one, and so is whether it is exact.
pub fn rounded_hex_once()
    ensures { (f : Format) (mode : Round) (places : ℕ) (x : Datum) (text other : List ℕ)
        (exact same : Bool) → IsRoundedHexText f mode places x text exact
        → IsRoundedHexText f mode places x other same → (text ≡ other) × (exact ≡ same) }
{}
