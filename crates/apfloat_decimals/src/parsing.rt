//! A decimal from its text, with all its digits.

ghost use Rattle.std.specs.Prelude.{◌≡◌, ℕ, ℤ, pos, ◌-ℤ◌, ◌≤◌, ◌^◌, ◌++◌, List, Bool};
ghost use Rattle.std.specs.Prelude.{IsTrue, MatchOption, Result, Ok, IsOkAnd};
ghost use Rattle.apfloat_model.specs.declared.{kinds.Round.Round, parse_error.ParseError.ParseError};
ghost use Rattle.apfloat_model.specs.{declared.status.StatusAnd.StatusAnd, formats.Datum.Datum, formats.Format.Format};
ghost use Rattle.apfloat_model.specs.rounding.{Bounds.IsWithin, Flags.Gives};
ghost use Rattle.apfloat_model.specs.texts.Digits.{every, is_decimal, number};
ghost use Rattle.apfloat_conversions.specs.hex_texts.Saturation.{IsNear, count_bound, far_bound};
ghost use Rattle.apfloat_decimals.specs.{declared.decimal.Decimal.Decimal, Decimals.IsDecimalDelivery};
ghost use Rattle.apfloat_decimals.specs.DecimalTexts.{IsDecimalText, IsDecimalRead, body_fault};
ghost use Rattle.apfloat_decimals.specs.{LeadingDigits.number_from, OneReading.IsReadOnce, OneReading.IsParsedOnce};
ghost use Rattle.apfloat_decimals.specs.Parsing.{Spells, IsParsed, IsParsedBody, IsPast32Bits};
ghost use Rattle.apfloat_decimals.specs.ReadBack.{IsStoredDecimal, written};
ghost use Rattle.apfloat_decimals.specs.{Shortest.IsSameNumber, Texts.decimal_text};

use crate::decimal::Decimal;
use crate::texts::parts::{has_some, split_digits, split_fraction};
use apfloat_base::{ExpInt, ParseError};
use apfloat_conversions::decimal_texts::exponent_in;
use apfloat_conversions::hex_texts::split_mark;
use apfloat_model::parse_error::Fault;
use std::str::FromStr;

/// Why a text gives no `Decimal`.
#[derive(Clone, Copy, PartialEq, Eq, Debug)]
pub enum DecimalError {
    /// The text is not a decimal; with the message of its first fault from the left.
    NoDecimal(ParseError),
    /// The digits on both sides of the dot, as one integer, are 2^128 or more.
    TooManyDigits,
    /// The exponent of the last digit is below -2^31 or at least 2^31.
    ExponentOutOfRange,
}

/// The integer with the digits of `number` followed by these, if it fits.
fn followed_by(number: u128, digits: &[u8]) -> Option<u128>
    requires { IsTrue (every is_decimal digits.now) }
    ensures { MatchOption result (2 ^ 128 ≤ number_from number digits.now)
        (λ n. n ≡ number_from number digits.now) }
{
    let mut all = number;
    for i in 0..digits.len() {
        let digit = u128::from(digits[i] - b'0');
        let Some(tenfold) = all.checked_mul(10) else {
            return None;
        };
        let Some(next) = tenfold.checked_add(digit) else {
            return None;
        };
        all = next;
    }
    Some(all)
}

/// The integer that two texts of digits spell, the first before the second, if it fits.
fn digits_of(whole: &[u8], fraction: &[u8]) -> Option<u128>
    requires whole { IsTrue (every is_decimal whole.now) }
    requires fraction { IsTrue (every is_decimal fraction.now) }
    ensures { MatchOption result (2 ^ 128 ≤ number 10 (whole.now ++ fraction.now))
        (λ n. n ≡ number 10 (whole.now ++ fraction.now)) }
{
    match followed_by(0, whole) {
        Some(first) => followed_by(first, fraction),
        None => None,
    }
}

/// The exponent of the last digit of a number with `places` digits after its dot, if it fits.
fn fitting_unit(exponent: i128, places: usize) -> Option<ExpInt>
    requires { IsWithin count_bound exponent }
    ensures { (exact : ℤ) → IsNear far_bound exact exponent → MatchOption result
        (IsPast32Bits (exact -ℤ pos places)) (λ unit. unit ≡ exact -ℤ pos places) }
{
    let unit = exponent - places as i128;
    if unit < -0x8000_0000 || unit > 0x7fff_ffff {
        None
    } else {
        Some(unit as ExpInt)
    }
}

/// The decimal that a text without a sign spells.
fn read_body(negative: bool, body: &[u8]) -> Result<Decimal, DecimalError>
    ensures { IsParsedBody negative body.now result }
{
    let (whole, rest) = split_digits(body);
    let (fraction, tail) = split_fraction(rest);
    let exponent = match exponent_in(tail, has_some(whole, fraction)) {
        Ok(exponent) => exponent,
        Err(fault) => return Err(DecimalError::NoDecimal(fault.refusal())),
    };
    let Some(digits) = digits_of(whole, fraction) else {
        return Err(DecimalError::TooManyDigits);
    };
    let Some(unit) = fitting_unit(exponent, fraction.len()) else {
        return Err(DecimalError::ExponentOutOfRange);
    };
    Ok(Decimal {
        negative,
        digits,
        exponent: unit,
    })
}

impl FromStr for Decimal {
    type Err = DecimalError;

    ghost from_str_gives = { IsParsed };

    /// The decimal that a text spells, with the text's digits and exponent: `12.30` has the digits 1230 and the
    /// exponent -2.
    ///
    /// A decimal text is an optional sign, decimal digits with at most one dot, and optionally `e` or `E` and an
    /// exponent with an optional sign. Infinities, NaNs and hexadecimal numbers are refused. So is a number if its
    /// digits, as an integer, are 2^128 or more (zeros at the start do not count, those at the end do), or if the
    /// exponent of its last digit does not fit in 32 bits, even if the number is zero.
    fn from_str(s: &str) -> Result<Self, DecimalError> {
        let (mark, body) = split_mark(s.as_bytes());
        if s.is_empty() {
            Err(DecimalError::NoDecimal(Fault::EmptyText.refusal()))
        } else if body.is_empty() {
            Err(DecimalError::NoDecimal(Fault::LoneMark.refusal()))
        } else {
            read_body(mark.is_minus(), body)
        }
    }
}

/// A decimal text spells one number and has no fault, and `read_decimal` and `FromStr` read it as that number.
pub fn decimal_text_once()
    ensures once { (body : List ℕ) (digits other : ℕ) (exponent place : ℤ)
        → IsDecimalText body digits exponent → IsDecimalText body other place
        → (digits ≡ other) × (exponent ≡ place) }
    ensures faultless { (body : List ℕ) (digits : ℕ) (exponent : ℤ)
        → IsDecimalText body digits exponent → body_fault body ≡ None }
    ensures read { (format : Format) (mode : Round) (text : List ℕ)
        (answer : Result (StatusAnd Datum) ParseError) (negative : Bool) (digits : ℕ)
        (exponent : ℤ) → Spells text negative digits exponent
        → IsDecimalRead format mode text answer
        → IsOkAnd answer (Gives (IsDecimalDelivery format mode negative digits exponent)) }
    ensures parsed { (text : List ℕ) (x : Decimal) (answer : Result Decimal DecimalError)
        → IsStoredDecimal x → Spells text x.negative x.digits x.exponent → IsParsed text answer
        → answer ≡ Ok x }
{}

/// A text is read in one way: `read_decimal` and `FromStr` may return one value or decimal of it, or refuse it for one
/// reason, with the same message.
pub fn one_reading()
    ensures read { IsReadOnce }
    ensures parsed { IsParsedOnce }
{}

/// The text that `Display` writes of a decimal is a decimal text with its sign and of the same number.
///
/// It spells the same digits and exponent, unless the decimal is a zero or written as an integer without an
/// exponent: those get a zero after their dot, so their exponent is -1.
pub fn written_text()
    ensures spells { (x : Decimal) → IsStoredDecimal x
        → Spells (decimal_text x) x.negative (written x).digits (written x).exponent }
    ensures number { (x : Decimal)
        → IsSameNumber (written x).digits (written x).exponent x.digits x.exponent }
    ensures fits { (x : Decimal) → IsStoredDecimal x → IsStoredDecimal (written x) }
{}
