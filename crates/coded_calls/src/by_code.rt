//! Makes a call in the kind of values that a code names.

ghost use Rattle.formats_at_run_time.specs.{FlaggedKinds.flagged_kind_coded, Modes.mode_coded};
ghost use Rattle.coded_calls.specs.declared.exported_call.ExportedCall.TheVariants.{Conversion};
ghost use Rattle.coded_calls.specs.{KnownCalls.known_call, Answers.IsReturned};

use crate::codes::UNKNOWN_FORMAT;
use crate::data::Answer;
use crate::operations::{ConversionCall, InMode, InType, KindOperation, Operation};
use formats_at_run_time::{FillsInKind, FlaggedKind};

/// Computes a call in the values of a code, and returns 0 or the code of the first error; on an error the result is
/// left unchanged.
#[inline(always)]
pub fn reply<O: Operation>(format: u32, mode: u32, operation: O, answer: &mut Answer) -> u32
    ensures { IsReturned (known_call (flagged_kind_coded format) (mode_coded mode)
        (O.call operation)) answer.old answer.new result }
{
    reply_in_kind(format, mode, InType { operation }, answer)
}

/// Computes a call that formats and pairs of doubles have separately, as `reply` does those that every type has.
#[inline(always)]
pub fn reply_in_kind<O: KindOperation>(
    format: u32,
    mode: u32,
    operation: O,
    answer: &mut Answer,
) -> u32
    ensures { IsReturned (known_call (flagged_kind_coded format) (mode_coded mode)
        (O.call operation)) answer.old answer.new result }
{
    let Some(kind) = FlaggedKind::coded(format) else {
        return UNKNOWN_FORMAT;
    };
    kind.fill(InMode { mode, operation }, answer)
}

/// Computes a conversion, as `reply_in_kind` would: values have the same bits under each rule of flags.
#[inline(always)]
pub fn reply_converted(
    format: u32,
    mode: u32,
    operation: ConversionCall,
    answer: &mut Answer,
) -> u32
    ensures { IsReturned (known_call (flagged_kind_coded format) (mode_coded mode)
        (Conversion operation.x (flagged_kind_coded operation.to))) answer.old answer.new result }
{
    let operation = InMode { mode, operation };
    match FlaggedKind::coded(format) {
        None => UNKNOWN_FORMAT,
        Some(FlaggedKind::Pairs) => operation.fill_in_pairs(answer),
        Some(FlaggedKind::OfFormat(format)) => format.built_in().fill(operation, answer),
    }
}
