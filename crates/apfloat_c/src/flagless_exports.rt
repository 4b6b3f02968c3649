//! The exports of calls that raise no flag.

ghost use Rattle.formats_at_run_time.specs.FlaggedKinds.{flagged_kind_coded};
ghost use Rattle.coded_calls.specs.declared.flagless_call.FlaglessCall.TheVariants.{Negation, AbsoluteValue, SignCopy};
ghost use Rattle.coded_calls.specs.declared.flagless_call.FlaglessCall.TheVariants.{LesserNumber, GreaterNumber};
ghost use Rattle.coded_calls.specs.declared.flagless_call.FlaglessCall.TheVariants.{Minimum, Maximum, QuietNan};
ghost use Rattle.coded_calls.specs.declared.flagless_call.FlaglessCall.TheVariants.{SignalingNan, SignTest};
ghost use Rattle.coded_calls.specs.{Answers.whole, FlaglessCalls.IsFlaglessReply, FlaglessCalls.is_set};

use coded_calls::data::{Answer, Halves};
use coded_calls::flagless::{is_set, reply};
use coded_calls::flagless_call::FlaglessCall;

/// The value with the opposite sign (IEEE 754-2019 5.5.1, negate).
#[unsafe(no_mangle)]
pub extern "C" fn apfloat_neg(format: u32, x: Halves, answer: &mut Answer) -> u32
    ensures { IsFlaglessReply (flagged_kind_coded format) (Negation (whole x))
        answer.old answer.new result }
{
    reply(format, FlaglessCall::Negation(x.number()), answer)
}

/// The value without its sign (IEEE 754-2019 5.5.1, abs).
#[unsafe(no_mangle)]
pub extern "C" fn apfloat_abs(format: u32, x: Halves, answer: &mut Answer) -> u32
    ensures { IsFlaglessReply (flagged_kind_coded format) (AbsoluteValue (whole x))
        answer.old answer.new result }
{
    reply(format, FlaglessCall::AbsoluteValue(x.number()), answer)
}

/// The first value with the sign of the second (IEEE 754-2019 5.5.1, copySign).
#[unsafe(no_mangle)]
pub extern "C" fn apfloat_copy_sign(format: u32, x: Halves, y: Halves, answer: &mut Answer) -> u32
    ensures { IsFlaglessReply (flagged_kind_coded format) (SignCopy (whole x) (whole y))
        answer.old answer.new result }
{
    let call = FlaglessCall::SignCopy(x.number(), y.number());
    reply(format, call, answer)
}

/// The lesser value, or the number beside a NaN (minNum of IEEE 754-2008 5.3.1, but a signaling NaN counts as a quiet
/// one).
#[unsafe(no_mangle)]
pub extern "C" fn apfloat_min(format: u32, x: Halves, y: Halves, answer: &mut Answer) -> u32
    ensures { IsFlaglessReply (flagged_kind_coded format) (LesserNumber (whole x) (whole y))
        answer.old answer.new result }
{
    let call = FlaglessCall::LesserNumber(x.number(), y.number());
    reply(format, call, answer)
}

/// The greater value, or the number beside a NaN (maxNum of IEEE 754-2008 5.3.1, but a signaling NaN counts as a quiet
/// one).
#[unsafe(no_mangle)]
pub extern "C" fn apfloat_max(format: u32, x: Halves, y: Halves, answer: &mut Answer) -> u32
    ensures { IsFlaglessReply (flagged_kind_coded format) (GreaterNumber (whole x) (whole y))
        answer.old answer.new result }
{
    let call = FlaglessCall::GreaterNumber(x.number(), y.number());
    reply(format, call, answer)
}

/// The lesser value, or the first NaN unchanged; -0 is below +0 (otherwise minimum of IEEE 754-2019 9.6).
#[unsafe(no_mangle)]
pub extern "C" fn apfloat_minimum(format: u32, x: Halves, y: Halves, answer: &mut Answer) -> u32
    ensures { IsFlaglessReply (flagged_kind_coded format) (Minimum (whole x) (whole y))
        answer.old answer.new result }
{
    let call = FlaglessCall::Minimum(x.number(), y.number());
    reply(format, call, answer)
}

/// The greater value, or the first NaN unchanged; -0 is below +0 (otherwise maximum of IEEE 754-2019 9.6).
#[unsafe(no_mangle)]
pub extern "C" fn apfloat_maximum(format: u32, x: Halves, y: Halves, answer: &mut Answer) -> u32
    ensures { IsFlaglessReply (flagged_kind_coded format) (Maximum (whole x) (whole y))
        answer.old answer.new result }
{
    let call = FlaglessCall::Maximum(x.number(), y.number());
    reply(format, call, answer)
}

/// The quiet NaN with this payload, truncated to the bits that the format has room for (IEEE 754-2019 6.2.1); it is
/// negative if `negative` is not 0.
#[unsafe(no_mangle)]
pub extern "C" fn apfloat_qnan(
    format: u32,
    negative: u32,
    payload: Halves,
    answer: &mut Answer,
) -> u32
    ensures { let call = QuietNan (is_set negative) (whole payload) in
        IsFlaglessReply (flagged_kind_coded format) call answer.old answer.new result }
{
    let call = FlaglessCall::QuietNan(is_set(negative), payload.number());
    reply(format, call, answer)
}

/// The signaling NaN with this payload, truncated to the bits that the format has room for; if none of them is set, the
/// highest one is (IEEE 754-2019 6.2.1). It is negative if `negative` is not 0. In a format with a single NaN, the
/// result is that NaN.
#[unsafe(no_mangle)]
pub extern "C" fn apfloat_snan(
    format: u32,
    negative: u32,
    payload: Halves,
    answer: &mut Answer,
) -> u32
    ensures { let call = SignalingNan (is_set negative) (whole payload) in
        IsFlaglessReply (flagged_kind_coded format) call answer.old answer.new result }
{
    let call = FlaglessCall::SignalingNan(is_set(negative), payload.number());
    reply(format, call, answer)
}

/// Whether the value has a minus sign, in `number` (IEEE 754-2019 5.7.2, isSignMinus).
#[unsafe(no_mangle)]
pub extern "C" fn apfloat_is_negative(format: u32, x: Halves, answer: &mut Answer) -> u32
    ensures { IsFlaglessReply (flagged_kind_coded format) (SignTest (whole x))
        answer.old answer.new result }
{
    reply(format, FlaglessCall::SignTest(x.number()), answer)
}
