//! Decimal texts, read into encodings.

ghost use Rattle.std.specs.Prelude.{◌≡◌, ◌*◌, ◌^◌, ◌<◌, pos, ◌+ℤ◌, IfSome, MatchResult};
ghost use Rattle.apfloat_model.specs.rounding.{Bounds.IsWithin, Bounds.unit_bound, Standing.up, Standing.down};
ghost use Rattle.rustc_apfloat.specs.FlaggedTypes.{constants_of, format_of};
ghost use Rattle.apfloat_decimals.specs.Decimals.{HasQuadExponents};
ghost use Rattle.apfloat_decimals.specs.DecimalTexts.{IsDecimalReading, IsDecimalRefusal};
ghost use Rattle.fast_bits.specs.{Encoded.IsEncodedAnswer, Encoded.IsEncodedNumber, Numbers.FitsWord};

use apfloat_decimals::{ShortNumeral, read_decimal_ascii, rounded_to_odd, short_numeral};
use fast_bits::{Encoded, encode_odd, fits_word};
use rustc_apfloat::ieee::Flagged;
use rustc_apfloat::{ExpInt, Float, ParseError, Round};

/// The exponent of two of a digit, counted from that of the quantum.
#[inline(always)]
fn unit_of<S: Flagged>(exponent: ExpInt) -> ExpInt
    requires { IsWithin (2 ^ 17) exponent }
    ensures value { result ≡ exponent +ℤ pos (format_of S.Flagged).scale }
    ensures within { IsWithin unit_bound result }
{
    exponent + (S::PRECISION as ExpInt - 1) - S::MIN_EXP
}

/// The encoding of a decimal, rounded once, if a product of words settles it and the result is a normal number.
#[inline(always)]
fn encode_decimal<S: Flagged>(number: ShortNumeral, round: Round) -> Option<Encoded>
    requires bits { S.PRECISION < S.BITS }
    requires word { FitsWord (constants_of S.Flagged) }
    requires within { IsWithin 5020 number.exponent }
    ensures { IfSome result (IsEncodedNumber (constants_of S.Flagged) round number.negative
        (number.digits * 10 ^ up number.exponent * 2 ^ (format_of S.Flagged).scale)
        (10 ^ down number.exponent)) }
{
    if let Some(odd) = rounded_to_odd(number.digits, number.exponent) {
        let unit = unit_of::<S>(odd.exponent);
        encode_odd::<S>(odd.significand, unit, number.negative, round)
    } else {
        None
    }
}

/// The value of a decimal text, if it is short, and its number is so rounded.
#[inline(always)]
fn read_short<S: Flagged>(text: &[u8], round: Round) -> Option<Encoded>
    requires bits { S.PRECISION < S.BITS }
    requires word { FitsWord (constants_of S.Flagged) }
    ensures { IfSome result (IsEncodedAnswer (constants_of S.Flagged)
        (IsDecimalReading (format_of S.Flagged) round text.now)) }
{
    if let Some(number) = short_numeral(text) {
        encode_decimal::<S>(number, round)
    } else {
        None
    }
}

/// The value of any text. Not inlined, since texts are mostly short.
#[inline(never)]
fn read_any<S: Flagged>(text: &[u8], round: Round) -> Result<Encoded, ParseError>
    requires bits { S.PRECISION < S.BITS }
    requires quad { HasQuadExponents (format_of S.Flagged) }
    ensures { MatchResult result (IsEncodedAnswer (constants_of S.Flagged)
        (IsDecimalReading (format_of S.Flagged) round text.now))
        (λ error. IsDecimalRefusal text.now error.0.now) }
{
    match read_decimal_ascii::<S>(text, round) {
        Ok(read) => Ok(Encoded {
            bits: read.value.to_bits(),
            status: read.status,
        }),
        Err(error) => Err(error),
    }
}

/// The value of a text of ASCII characters, as `read_decimal_ascii` reads it: the number that a decimal text spells,
/// rounded once, or what `from_ascii_r` reads (IEEE 754-2019 5.12.2).
#[inline(always)]
pub fn read_decimal_bits<S: Flagged>(text: &[u8], round: Round) -> Result<Encoded, ParseError>
    requires bits { S.PRECISION < S.BITS }
    requires quad { HasQuadExponents (format_of S.Flagged) }
    ensures { MatchResult result (IsEncodedAnswer (constants_of S.Flagged)
        (IsDecimalReading (format_of S.Flagged) round text.now))
        (λ error. IsDecimalRefusal text.now error.0.now) }
{
    if fits_word::<S>() {
        if let Some(answer) = read_short::<S>(text, round) {
            return Ok(answer);
        }
    }
    read_any::<S>(text, round)
}
