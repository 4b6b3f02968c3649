//! The exports that convert one value into a storage format or out of it, declared for C programs in
//! `include/apfloat.h`.

ghost use Rattle.std.specs.Prelude.{◌≡◌};
ghost use Rattle.formats_at_run_time.specs.FlaggedKinds.{flagged_kind_coded};
ghost use Rattle.apfloat_arrays.specs.stored.Formats.{stored_format_coded};
ghost use Rattle.coded_calls.specs.Answers.{whole};
ghost use Rattle.arrays_for_c.specs.ArrayCalls.{conversion_mode_coded};
ghost use Rattle.arrays_for_c.specs.StorageValues.{IsStorageReply, between, known_loading, known_storing};

use crate::array_calls::{ConversionMode, conversion_mode_coded};
use apfloat_arrays::Extended;
use apfloat_arrays::stored::{Ends, StorageArray, StoredFormat};
use coded_calls::codes::{ANSWERED, NO_SUCH_OPERATION, UNKNOWN_FORMAT, UNKNOWN_MODE, one_if};
use coded_calls::data::{Answer, Halves};
use formats_at_run_time::FlaggedKind;

/// The conversion between these formats.
fn between(ends: Ends, mode: ConversionMode) -> StorageArray
    ensures { result ≡ between ends mode }
{
    StorageArray {
        ends,
        extended: Extended::Packed,
        round: mode.round,
        overflow: mode.overflow,
    }
}

/// The conversion into a storage format that these codes ask for, or the code of the first error.
fn known_storing(format: u32, mode: u32, to: u32) -> Result<StorageArray, u32>
    ensures { result ≡ known_storing (flagged_kind_coded format) (conversion_mode_coded mode)
        (stored_format_coded to) }
{
    let Some(source) = FlaggedKind::coded(format) else {
        return Err(UNKNOWN_FORMAT);
    };
    let Some(mode) = conversion_mode_coded(mode) else {
        return Err(UNKNOWN_MODE);
    };
    let Some(target) = StoredFormat::coded(to) else {
        return Err(UNKNOWN_FORMAT);
    };
    match source {
        FlaggedKind::OfFormat(format) => Ok(between(Ends::Into(format.built_in(), target), mode)),
        FlaggedKind::Pairs => Err(NO_SUCH_OPERATION),
    }
}

/// The conversion from a storage format that these codes ask for, or the code of the first error.
fn known_loading(format: u32, mode: u32, to: u32) -> Result<StorageArray, u32>
    ensures { result ≡ known_loading (stored_format_coded format) (conversion_mode_coded mode)
        (flagged_kind_coded to) }
{
    let Some(source) = StoredFormat::coded(format) else {
        return Err(UNKNOWN_FORMAT);
    };
    let Some(mode) = conversion_mode_coded(mode) else {
        return Err(UNKNOWN_MODE);
    };
    let Some(target) = FlaggedKind::coded(to) else {
        return Err(UNKNOWN_FORMAT);
    };
    match target {
        FlaggedKind::OfFormat(format) => Ok(between(Ends::OutOf(source, format), mode)),
        FlaggedKind::Pairs => Err(NO_SUCH_OPERATION),
    }
}

/// Converts the value of these bits, unless the call is refused.
fn convert(known: Result<StorageArray, u32>, bits: u128, answer: &mut Answer) -> u32
    ensures { IsStorageReply known bits answer.old answer.new result }
{
    match known {
        Err(error) => error,
        Ok(array) => {
            let made = array.convert_bits(bits);
            *answer = Answer::of(made.bits, made.outcome.status, one_if(made.outcome.is_nan));
            ANSWERED
        }
    }
}

/// A value as a code of a storage format, rounded once.
#[unsafe(no_mangle)]
pub extern "C" fn apfloat_to_storage(
    format: u32,
    mode: u32,
    to: u32,
    x: Halves,
    answer: &mut Answer,
) -> u32
    ensures { let known = known_storing (flagged_kind_coded format) (conversion_mode_coded mode)
        (stored_format_coded to) in
        IsStorageReply known (whole x) answer.old answer.new result }
{
    convert(known_storing(format, mode, to), x.number(), answer)
}

/// The value of a code of a storage format in another format, rounded once.
#[unsafe(no_mangle)]
pub extern "C" fn apfloat_from_storage(
    format: u32,
    mode: u32,
    to: u32,
    code: u32,
    answer: &mut Answer,
) -> u32
    ensures { let known = known_loading (stored_format_coded format) (conversion_mode_coded mode)
        (flagged_kind_coded to) in
        IsStorageReply known code answer.old answer.new result }
{
    convert(known_loading(format, mode, to), u128::from(code), answer)
}
