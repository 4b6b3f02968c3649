//! Decimal texts as values, with the flags of any code of a format.

ghost use Rattle.std.specs.Prelude.{◌≡◌};
ghost use Rattle.std.specs.Str.{str_eq_ignore_ascii_case};
ghost use Rattle.formats_at_run_time.specs.{FlaggedKinds.flagged_kind_coded, Modes.mode_coded};
ghost use Rattle.apfloat_c.specs.Readings.{IsDecimalRead, known_spelling, known_text};

use crate::decimals::{DecimalReading, read_pair};
use apfloat_conversions::hex_texts::split_mark;
use coded_calls::codes::{UNKNOWN_FORMAT, UNKNOWN_MODE};
use coded_calls::data::Answer;
use formats_at_run_time::{FlaggedKind, mode_coded};

/// The value of a text as `apfloat_parse_decimal` reads it, also in a format with the flags of IEEE 754-2019, which
/// that call refuses, and of inf, infinity, nan and snan in any case and with any sign (IEEE 754-2019 5.12.1).
#[unsafe(no_mangle)]
pub extern "C" fn apfloat_read_decimal(
    format: u32,
    mode: u32,
    text: &[u8],
    answer: &mut Answer,
) -> u32
    ensures { IsDecimalRead (known_text (flagged_kind_coded format) (mode_coded mode))
        (known_spelling text.now) answer.old answer.new result }
{
    let Some(kind) = FlaggedKind::coded(format) else {
        return UNKNOWN_FORMAT;
    };
    let Some(round) = mode_coded(mode) else {
        return UNKNOWN_MODE;
    };
    let text = known_spelling(text);
    match kind {
        FlaggedKind::OfFormat(format) => format.fill(DecimalReading { round, text }, answer),
        FlaggedKind::Pairs => read_pair(answer, round, text),
    }
}

/// The text, but of a word in any case and with any sign the spelling that `apfloat_parse` knows.
fn known_spelling(text: &[u8]) -> &[u8]
    ensures { result.now ≡ known_spelling text.now }
{
    let (mark, body) = split_mark(text);
    let negative = mark.is_minus();
    if is_word(body, b"inf") || is_word(body, b"infinity") {
        if negative { b"-inf" } else { b"inf" }
    } else if is_word(body, b"nan") {
        if negative { b"-nan" } else { b"nan" }
    } else if is_word(body, b"snan") {
        if negative { b"-snan" } else { b"snan" }
    } else {
        text
    }
}

/// Whether a text is this word, in any case.
fn is_word(text: &[u8], word: &[u8]) -> bool
    ensures { result ≡ str_eq_ignore_ascii_case text.now word.now }
{
    text.eq_ignore_ascii_case(word)
}
