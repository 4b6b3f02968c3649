//! Decimal digits of any count and hexadecimal texts of values, written into the caller's buffer.

ghost use Rattle.rustc_apfloat.specs.Lawful.{format_with};
ghost use Rattle.apfloat_decimals.specs.Decimals.{HasQuadExponents};
ghost use Rattle.formats_at_run_time.specs.{FlaggedKinds.flagged_kind_coded, FormatKinds.IfFormat, Modes.mode_coded};
ghost use Rattle.coded_calls.specs.{Answers.whole, KnownCalls.text_format};
ghost use Rattle.apfloat_c.specs.Digits.{AreDigitsWritten, GivesKindCount, IsCountGiven, IsHexPut, IsKindHex};
ghost use Rattle.apfloat_c.specs.Digits.{IsKindRoundedHex, IsKindWritten, IsRoundedHexPut, known_writing};

use apfloat_digits::decimal::{Written, digit_count, write_digits};
use apfloat_digits::hexadecimal::{HexError, write_hex_rounded, write_hex_with_payload};
use coded_calls::codes::{ANSWERED, NO_SUCH_OPERATION, UNKNOWN_FORMAT, UNKNOWN_MODE, WRONG_LENGTH};
use coded_calls::data::{Answer, Halves};
use formats_at_run_time::{BuiltInFormat, FlaggedKind, InFormat, ReadsInFormat, mode_coded};
use rustc_apfloat::ieee::{IeeeFloat, Semantics};
use rustc_apfloat::{Float, Round, Status, StatusAnd};

/// Writes the digits of a value, rounded once to as many as the buffer has room for.
#[unsafe(no_mangle)]
pub extern "C" fn apfloat_write_digits(
    format: u32,
    mode: u32,
    x: Halves,
    digits: &mut [u8],
    answer: &mut Answer,
) -> u32
    ensures { AreDigitsWritten (known_writing (flagged_kind_coded format) (mode_coded mode))
        (whole x) digits.old digits.new answer.old answer.new result }
{
    let Some(kind) = FlaggedKind::coded(format) else {
        return UNKNOWN_FORMAT;
    };
    let Some(round) = mode_coded(mode) else {
        return UNKNOWN_MODE;
    };
    let FlaggedKind::OfFormat(format) = kind else {
        return NO_SUCH_OPERATION;
    };
    let bits = x.number();
    match format.built_in().read(DigitsCall { round, bits }, digits) {
        Written::Digits(first) => {
            *answer = Answer::of(digits.len() as u128, first.status, first.value);
            ANSWERED
        }
        Written::WithoutDigits(_) => {
            *answer = Answer::number(0);
            ANSWERED
        }
        Written::NoRoom => WRONG_LENGTH,
    }
}

/// The call that writes the digits of a value.
#[derive(Clone, Copy)]
struct DigitsCall {
    round: Round,
    bits: u128,
}

impl ReadsInFormat for DigitsCall {
    type Output = Written;

    ghost can = { λ _ kind _. IfFormat kind (λ c. HasQuadExponents (format_with c)) };

    ghost gives = { λ it kind before after written.
        IsKindWritten kind it.round it.bits before after written };

    fn read_in_format<S: Semantics>(self, digits: &mut [u8]) -> Written {
        write_digits(IeeeFloat::<S>::from_bits(self.bits), self.round, digits)
    }
}

/// How many decimal digits a value has: `apfloat_write_digits` writes that many without rounding.
#[unsafe(no_mangle)]
pub extern "C" fn apfloat_digit_count(format: u32, x: Halves, answer: &mut Answer) -> u32
    ensures { IsCountGiven (text_format (flagged_kind_coded format)) (whole x) answer.old answer.new
        result }
{
    match FlaggedKind::coded(format) {
        None => UNKNOWN_FORMAT,
        Some(FlaggedKind::Pairs) => NO_SUCH_OPERATION,
        Some(FlaggedKind::OfFormat(format)) => {
            let count = format.built_in().run(CountCall { bits: x.number() });
            *answer = Answer::of(u128::from(count.unwrap_or(0)), Status::OK, 0);
            ANSWERED
        }
    }
}

/// The call that counts the digits of a value.
#[derive(Clone, Copy)]
struct CountCall {
    bits: u128,
}

impl InFormat for CountCall {
    type Output = Option<u32>;

    ghost can = { λ _ kind. IfFormat kind (λ c. HasQuadExponents (format_with c)) };

    ghost gives = { λ it kind count. GivesKindCount kind it.bits count };

    fn in_format<S: Semantics>(self) -> Option<u32> {
        digit_count(IeeeFloat::<S>::from_bits(self.bits))
    }
}

/// Writes the hexadecimal text of a value, with the payload of a NaN.
#[unsafe(no_mangle)]
pub extern "C" fn apfloat_write_hex(
    format: u32,
    x: Halves,
    text: &mut [u8],
    answer: &mut Answer,
) -> u32
    ensures { IsHexPut (text_format (flagged_kind_coded format)) (whole x) text.old text.new
        answer.old answer.new result }
{
    let Some(kind) = FlaggedKind::coded(format) else {
        return UNKNOWN_FORMAT;
    };
    let FlaggedKind::OfFormat(format) = kind else {
        return NO_SUCH_OPERATION;
    };
    match format.built_in().read(HexCall { bits: x.number() }, text) {
        Ok(length) => {
            *answer = Answer::of(length as u128, Status::OK, 0);
            ANSWERED
        }
        Err(_) => WRONG_LENGTH,
    }
}

/// The call that writes the hexadecimal text of a value.
#[derive(Clone, Copy)]
struct HexCall {
    bits: u128,
}

impl ReadsInFormat for HexCall {
    type Output = Result<usize, HexError>;

    ghost gives = { λ it kind before after answer. IsKindHex kind it.bits before after answer };

    fn read_in_format<S: Semantics>(self, text: &mut [u8]) -> Result<usize, HexError> {
        write_hex_with_payload(IeeeFloat::<S>::from_bits(self.bits), text)
    }
}

/// Writes the hexadecimal text of a value, rounded once to that many digits after the dot.
#[unsafe(no_mangle)]
pub extern "C" fn apfloat_write_hex_rounded(
    format: u32,
    mode: u32,
    places: u32,
    x: Halves,
    text: &mut [u8],
    answer: &mut Answer,
) -> u32
    ensures { IsRoundedHexPut (known_writing (flagged_kind_coded format) (mode_coded mode)) places
        (whole x) text.old text.new answer.old answer.new result }
{
    let Some(kind) = FlaggedKind::coded(format) else {
        return UNKNOWN_FORMAT;
    };
    let Some(round) = mode_coded(mode) else {
        return UNKNOWN_MODE;
    };
    let FlaggedKind::OfFormat(format) = kind else {
        return NO_SUCH_OPERATION;
    };
    let call = RoundedHexCall {
        round,
        places,
        bits: x.number(),
    };
    match format.built_in().read(call, text) {
        Ok(length) => {
            *answer = Answer::of(length.value as u128, length.status, 0);
            ANSWERED
        }
        Err(_) => WRONG_LENGTH,
    }
}

/// The call that writes the rounded hexadecimal text of a value.
#[derive(Clone, Copy)]
struct RoundedHexCall {
    round: Round,
    places: u32,
    bits: u128,
}

impl ReadsInFormat for RoundedHexCall {
    type Output = Result<StatusAnd<usize>, HexError>;

    ghost gives = { λ it kind before after answer.
        IsKindRoundedHex kind it.round it.places it.bits before after answer };

    fn read_in_format<S: Semantics>(self, text: &mut [u8]) -> Result<StatusAnd<usize>, HexError> {
        write_hex_rounded(
            IeeeFloat::<S>::from_bits(self.bits),
            self.places,
            self.round,
            text,
        )
    }
}
