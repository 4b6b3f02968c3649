//! The exports that round into storage formats to odd and with random digits that the caller lends, declared for C
//! programs in `include/apfloat.h`.

ghost use Rattle.std.specs.Prelude.{◌≡◌, IfOk, length};
ghost use Rattle.formats_at_run_time.specs.FlaggedKinds.{flagged_kind_coded};
ghost use Rattle.apfloat_arrays.specs.stored.{ByMode.HasDigits, Formats.stored_format_coded};
ghost use Rattle.coded_calls.specs.Answers.{whole};
ghost use Rattle.arrays_for_c.specs.StorageModes.{IsModeArray, IsModeReply, arrays_fit, each_round_coded};
ghost use Rattle.arrays_for_c.specs.StorageModes.{known_by_mode, known_mode_array, randoms_fit};

use crate::array_calls::lengths_fit;
use crate::array_data::{ArrayAnswer, ElementCounts};
use apfloat_arrays::stored::{EachRound, ModeConversion, StoredFormat};
use coded_calls::codes::{
    ANSWERED, NO_SUCH_OPERATION, UNKNOWN_FORMAT, UNKNOWN_MODE, WRONG_LENGTH, WRONG_WIDTH, one_if,
};
use coded_calls::data::{Answer, Halves};
use formats_at_run_time::{FlaggedKind, mode_coded};

/// How values are rounded, by the code of a mode and a number of random digits.
fn each_round_coded(mode: u32, digits: u32) -> Result<EachRound, u32>
    ensures is { result ≡ each_round_coded mode digits }
    ensures digits { IfOk result (λ round. HasDigits round) }
{
    match mode {
        5 => Ok(EachRound::ToOdd),
        6 => {
            if 1 <= digits && digits <= 32 {
                Ok(EachRound::Stochastic(digits))
            } else {
                Err(WRONG_WIDTH)
            }
        }
        _ => match mode_coded(mode) {
            Some(round) => Ok(EachRound::Ieee(round)),
            None => Err(UNKNOWN_MODE),
        },
    }
}

/// The conversion that these codes ask for, or the code of the first error.
fn known_by_mode(format: u32, mode: u32, to: u32, digits: u32) -> Result<ModeConversion, u32>
    ensures is { result ≡ known_by_mode (flagged_kind_coded format) (each_round_coded mode digits)
        (stored_format_coded to) }
    ensures digits { IfOk result (λ it. HasDigits it.round) }
{
    let Some(source) = FlaggedKind::coded(format) else {
        return Err(UNKNOWN_FORMAT);
    };
    let round = match each_round_coded(mode, digits) {
        Ok(round) => round,
        Err(error) => return Err(error),
    };
    let Some(target) = StoredFormat::coded(to) else {
        return Err(UNKNOWN_FORMAT);
    };
    match source {
        FlaggedKind::OfFormat(format) => Ok(ModeConversion {
            source: format.built_in(),
            target,
            round,
        }),
        FlaggedKind::Pairs => Err(NO_SUCH_OPERATION),
    }
}

/// Whether there is a random number of four bytes for each value, or none where none is used.
fn randoms_fit(round: EachRound, count: usize, length: usize) -> bool
    ensures { result ≡ randoms_fit round count length }
{
    match round {
        EachRound::Ieee(_) => length == 0,
        EachRound::ToOdd => length == 0,
        EachRound::Stochastic(_) => length % 4 == 0 && length / 4 == count,
    }
}

/// Whether the arrays have these lengths.
fn arrays_fit(conversion: ModeConversion, randoms: usize, given: usize, room: usize) -> bool
    ensures { result ≡ arrays_fit conversion randoms given room }
{
    let width = conversion.width();
    lengths_fit(width, 1, given, room) && randoms_fit(conversion.round, given / width, randoms)
}

/// The conversion of an array, with arrays of these lengths.
fn known_mode_array(
    known: Result<ModeConversion, u32>,
    randoms: usize,
    given: usize,
    room: usize,
) -> Result<ModeConversion, u32>
    ensures { result ≡ known_mode_array known randoms given room }
{
    match known {
        Err(error) => Err(error),
        Ok(conversion) => {
            if arrays_fit(conversion, randoms, given, room) {
                Ok(conversion)
            } else {
                Err(WRONG_LENGTH)
            }
        }
    }
}

/// Converts the value of these bits, unless the call is refused.
fn convert(known: Result<ModeConversion, u32>, random: u32, bits: u128, answer: &mut Answer) -> u32
    requires { IfOk known (λ it. HasDigits it.round) }
    ensures { IsModeReply known random bits answer.old answer.new result }
{
    match known {
        Err(error) => error,
        Ok(conversion) => {
            let made = conversion.convert_bits(random, bits);
            *answer = Answer::of(made.bits, made.outcome.status, one_if(made.outcome.is_nan));
            ANSWERED
        }
    }
}

/// A value as a code of a storage format, rounded once in a mode of conversions.
#[unsafe(no_mangle)]
pub extern "C" fn apfloat_to_storage_by(
    format: u32,
    mode: u32,
    to: u32,
    digits: u32,
    random: u32,
    x: Halves,
    answer: &mut Answer,
) -> u32
    ensures { let known = known_by_mode (flagged_kind_coded format) (each_round_coded mode digits)
        (stored_format_coded to) in
        IsModeReply known random (whole x) answer.old answer.new result }
{
    let known = known_by_mode(format, mode, to, digits);
    convert(known, random, x.number(), answer)
}

/// Converts each value of an array to a storage format, in a mode of conversions.
#[unsafe(no_mangle)]
pub extern "C" fn apfloat_convert_array_by(
    format: u32,
    mode: u32,
    to: u32,
    digits: u32,
    randoms: &[u8],
    values: &[u8],
    results: &mut [u8],
    answer: &mut ArrayAnswer,
) -> u32
    ensures { let asked = known_by_mode (flagged_kind_coded format) (each_round_coded mode digits)
        (stored_format_coded to) in
        let known = known_mode_array asked (length randoms.now) (length values.now)
        (length results.old) in
        IsModeArray known randoms.now values.now results.old results.new answer.old answer.new
        result }
{
    let asked = known_by_mode(format, mode, to, digits);
    convert_array(asked, randoms, values, results, answer)
}

/// Converts each value of an array, unless the call is refused.
fn convert_array(
    asked: Result<ModeConversion, u32>,
    randoms: &[u8],
    values: &[u8],
    results: &mut [u8],
    answer: &mut ArrayAnswer,
) -> u32
    requires { IfOk asked (λ it. HasDigits it.round) }
    ensures { let known = known_mode_array asked (length randoms.now) (length values.now)
        (length results.old) in
        IsModeArray known randoms.now values.now results.old results.new answer.old answer.new
        result }
{
    let known = known_mode_array(asked, randoms.len(), values.len(), results.len());
    match known {
        Err(error) => error,
        Ok(conversion) => {
            let width = conversion.width();
            let count = values.len() / width;
            let front = &mut results[..count];
            let counts = conversion.convert(count, randoms, values, front);
            *answer = ArrayAnswer::of(ElementCounts {
                counts,
                div_by_zero: 0,
            });
            ANSWERED
        }
    }
}
