//! The exports of the operations of IEEE 754-2019 that `Float` lacks.

ghost use Rattle.std.specs.Prelude.{Some};
ghost use Rattle.rustc_apfloat.specs.declared.Round.TheVariants.{NearestTiesToEven};
ghost use Rattle.formats_at_run_time.specs.{FlaggedKinds.flagged_kind_coded, Modes.mode_coded};
ghost use Rattle.coded_calls.specs.declared.ieee_call.IeeeCall.TheVariants.{TotalOrder, LogB, ScaleB, Integral};
ghost use Rattle.coded_calls.specs.{Answers.whole, FlaglessCalls.is_set};
ghost use Rattle.coded_calls.specs.IeeeCalls.{IsIeeeReply, IsInAnotherReply, comparison_call, extremum_call};
ghost use Rattle.coded_calls.specs.IeeeCalls.{extremum_coded, on_nan_coded, operation_coded, predicate_coded};

use coded_calls::codes::NEAREST_EVEN;
use coded_calls::data::{Answer, Halves};
use coded_calls::flagless::is_set;
use coded_calls::ieee_call::{
    IeeeCall, comparison_call, extremum_call, extremum_coded, on_nan_coded, operation_coded,
    predicate_coded,
};
use coded_calls::standard_operations::{reply, reply_in_another};
use formats_at_run_time::{FlaggedKind, mode_coded};

/// Whether a predicate holds of two values, in `number`; the only flag is that of an invalid operation (IEEE 754-2019
/// 5.6.1, 5.11). A predicate of an unknown code is an operation that no format has.
#[unsafe(no_mangle)]
pub extern "C" fn apfloat_compare_predicate(
    format: u32,
    predicate: u32,
    on_nan: u32,
    x: Halves,
    y: Halves,
    answer: &mut Answer,
) -> u32
    ensures { let call = comparison_call (predicate_coded predicate) (on_nan_coded on_nan)
        (whole x) (whole y) in
        IsIeeeReply (flagged_kind_coded format) (Some NearestTiesToEven) call
        answer.old answer.new result }
{
    let (predicate, on_nan) = (predicate_coded(predicate), on_nan_coded(on_nan));
    let call = comparison_call(predicate, on_nan, x.number(), y.number());
    reply(format, NEAREST_EVEN, call, answer)
}

/// The order of two values in the total order, in `number`: -1, 0 or 1 (IEEE 754-2019 5.10).
#[unsafe(no_mangle)]
pub extern "C" fn apfloat_total_order(format: u32, x: Halves, y: Halves, answer: &mut Answer) -> u32
    ensures { IsIeeeReply (flagged_kind_coded format) (Some NearestTiesToEven)
        (Some (TotalOrder (whole x) (whole y))) answer.old answer.new result }
{
    let call = IeeeCall::TotalOrder(x.number(), y.number());
    reply(format, NEAREST_EVEN, Some(call), answer)
}

/// A minimum or a maximum of two values, with its flags (IEEE 754-2019 9.6). If `prefers_number` is not 0, that of a
/// NaN and a number is the number.
#[unsafe(no_mangle)]
pub extern "C" fn apfloat_extremum(
    format: u32,
    which: u32,
    prefers_number: u32,
    x: Halves,
    y: Halves,
    answer: &mut Answer,
) -> u32
    ensures { let call = extremum_call (extremum_coded which) (is_set prefers_number)
        (whole x) (whole y) in
        IsIeeeReply (flagged_kind_coded format) (Some NearestTiesToEven) call
        answer.old answer.new result }
{
    let which = extremum_coded(which);
    let call = extremum_call(which, is_set(prefers_number), x.number(), y.number());
    reply(format, NEAREST_EVEN, call, answer)
}

/// The exponent of a value as a value, with its flags (IEEE 754-2019 5.3.3, logB).
#[unsafe(no_mangle)]
pub extern "C" fn apfloat_log_b(format: u32, mode: u32, x: Halves, answer: &mut Answer) -> u32
    ensures { IsIeeeReply (flagged_kind_coded format) (mode_coded mode) (Some (LogB (whole x)))
        answer.old answer.new result }
{
    reply(format, mode, Some(IeeeCall::LogB(x.number())), answer)
}

/// A value times 2 to the power of `power`, rounded once, with its flags (IEEE 754-2019 5.3.3, scaleB).
#[unsafe(no_mangle)]
pub extern "C" fn apfloat_scale_b(
    format: u32,
    mode: u32,
    x: Halves,
    power: i32,
    answer: &mut Answer,
) -> u32
    ensures { IsIeeeReply (flagged_kind_coded format) (mode_coded mode)
        (Some (ScaleB (whole x) power)) answer.old answer.new result }
{
    let call = IeeeCall::ScaleB(x.number(), power);
    reply(format, mode, Some(call), answer)
}

/// A value rounded to an integral value, without INEXACT (IEEE 754-2019 5.9).
#[unsafe(no_mangle)]
pub extern "C" fn apfloat_integral(format: u32, mode: u32, x: Halves, answer: &mut Answer) -> u32
    ensures { IsIeeeReply (flagged_kind_coded format) (mode_coded mode) (Some (Integral (whole x)))
        answer.old answer.new result }
{
    reply(format, mode, Some(IeeeCall::Integral(x.number())), answer)
}

/// The result of an operation on values of one format, in another, rounded once (IEEE 754-2019 5.4.1, formatOf). Sums,
/// differences, products and quotients ignore the third value, and square roots the second one too.
#[unsafe(no_mangle)]
pub extern "C" fn apfloat_to_format(
    operation: u32,
    format: u32,
    mode: u32,
    target: u32,
    x: Halves,
    y: Halves,
    z: Halves,
    answer: &mut Answer,
) -> u32
    ensures { let call = operation_coded operation (whole x) (whole y) (whole z) in
        IsInAnotherReply (flagged_kind_coded format) (flagged_kind_coded target)
        (mode_coded mode) call answer.old answer.new result }
{
    let call = operation_coded(operation, x.number(), y.number(), z.number());
    let (source, target) = (FlaggedKind::coded(format), FlaggedKind::coded(target));
    reply_in_another(source, target, mode_coded(mode), call, answer)
}
