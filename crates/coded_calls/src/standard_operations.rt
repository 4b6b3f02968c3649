//! The operations of IEEE 754-2019 that `Float` lacks, by codes.

ghost use Rattle.std.specs.Prelude.{◌<◌};
ghost use Rattle.rustc_apfloat.specs.FlaggedTypes.{constants_of};
ghost use Rattle.formats_at_run_time.specs.{FlaggedKinds.flagged_kind_coded, Modes.mode_coded};
ghost use Rattle.coded_calls.specs.IeeeCalls.{IsIeeeAnswer, IsIeeeReply, IsIeeeReplyIn, IsInAnother, IsInAnotherKind};
ghost use Rattle.coded_calls.specs.IeeeCalls.{IsInAnotherReply, IsInAnotherFormat};

use crate::codes::{ANSWERED, NO_SUCH_OPERATION, UNKNOWN_FORMAT, UNKNOWN_MODE};
use crate::data::Answer;
use crate::ieee_answers::{
    difference_to, extreme, fused_sum_to, in_total_order, integral, logarithm, predicated,
    product_to, quotient_to, root_to, scaled_by, sum_to,
};
use crate::ieee_call::{IeeeCall, InAnotherCall};
use formats_at_run_time::{FillsInFormat, FillsInKind, FlaggedFormat, FlaggedKind, mode_coded};
use rustc_apfloat::Round;
use rustc_apfloat::ieee::Flagged;
use std::marker::PhantomData;

/// A call, if its code is known, with the code of its rounding mode.
#[derive(Clone, Copy)]
struct IeeeReply {
    mode: u32,
    call: Option<IeeeCall>,
}

impl FillsInFormat for IeeeReply {
    type Place = Answer;

    type Output = u32;

    ghost gives = { λ it kind old new code.
        IsIeeeReplyIn kind (mode_coded it.mode) it.call old new code };

    fn fill_in_format<S: Flagged>(self, answer: &mut Answer) -> u32 {
        match mode_coded(self.mode) {
            None => UNKNOWN_MODE,
            Some(round) => match self.call {
                None => NO_SUCH_OPERATION,
                Some(call) => {
                    *answer = ieee_answer::<S>(round, call);
                    ANSWERED
                }
            },
        }
    }
}

impl FillsInKind for IeeeReply {
    fn fill_in_pairs(self, answer: &mut Answer) -> u32 {
        match mode_coded(self.mode) {
            None => UNKNOWN_MODE,
            Some(_) => NO_SUCH_OPERATION,
        }
    }
}

/// Makes a call in the values of a code, and returns 0 or the code of the first error; on an error the result is left
/// unchanged.
pub fn reply(format: u32, mode: u32, call: Option<IeeeCall>, answer: &mut Answer) -> u32
    ensures { IsIeeeReply (flagged_kind_coded format) (mode_coded mode) call
        answer.old answer.new result }
{
    match FlaggedKind::coded(format) {
        None => UNKNOWN_FORMAT,
        Some(kind) => kind.fill(IeeeReply { mode, call }, answer),
    }
}

/// The result of a call in the format `S`.
fn ieee_answer<S: Flagged>(round: Round, call: IeeeCall) -> Answer
    requires { S.PRECISION < S.BITS }
    ensures { IsIeeeAnswer (constants_of S.Flagged) round call result }
{
    match call {
        IeeeCall::Predicated(predicate, on_nan, x, y) => {
            predicated::<S>(round, predicate, on_nan, x, y)
        }
        IeeeCall::TotalOrder(x, y) => in_total_order::<S>(round, x, y),
        IeeeCall::ExtremumOf(which, prefers_number, x, y) => {
            extreme::<S>(round, which, prefers_number, x, y)
        }
        IeeeCall::LogB(x) => logarithm::<S>(round, x),
        IeeeCall::ScaleB(x, power) => scaled_by::<S>(round, x, power),
        IeeeCall::Integral(x) => integral::<S>(round, x),
    }
}

/// A call whose result is of another format, which may be any.
#[derive(Clone, Copy)]
struct InAnother {
    target: FlaggedFormat,
    round: Round,
    call: InAnotherCall,
}

impl FillsInFormat for InAnother {
    type Place = Answer;

    type Output = ();

    ghost gives = { λ it kind old new _. IsInAnotherKind kind it.target it.round it.call new };

    fn fill_in_format<S: Flagged>(self, answer: &mut Answer) {
        let call = OnFormat::<S> {
            source: PhantomData,
            round: self.round,
            call: &self.call,
        };
        self.target.fill(call, answer);
    }
}

/// A call on values of the format `S`, whose result is of another.
#[derive(Drop)]
struct OnFormat<'a, S: Flagged> {
    source: PhantomData<S>,
    round: Round,
    call: &'a InAnotherCall,
    ghost has_bits: { S.PRECISION < S.BITS },
}

impl<S: Flagged> FillsInFormat for OnFormat<'_, S> {
    type Place = Answer;

    type Output = ();

    ghost gives = { λ it kind old new _.
        IsInAnother (constants_of S.Flagged) kind it.round it.call.now new };

    // As parts of one function for all formats, these would take a compiler minutes.
    #[inline(never)]
    fn fill_in_format<T: Flagged>(self, answer: &mut Answer) {
        *answer = in_another::<S, T>(self.round, *self.call);
    }
}

/// The result in the format `T` of a call on values of the format `S`.
fn in_another<S: Flagged, T: Flagged>(round: Round, call: InAnotherCall) -> Answer
    requires source { S.PRECISION < S.BITS }
    requires target { T.PRECISION < T.BITS }
    ensures { IsInAnotherFormat (constants_of S.Flagged) (constants_of T.Flagged) round call
        result }
{
    match call {
        InAnotherCall::SumTo(x, y) => sum_to::<S, T>(round, x, y),
        InAnotherCall::DifferenceTo(x, y) => difference_to::<S, T>(round, x, y),
        InAnotherCall::ProductTo(x, y) => product_to::<S, T>(round, x, y),
        InAnotherCall::QuotientTo(x, y) => quotient_to::<S, T>(round, x, y),
        InAnotherCall::FusedSumTo(x, y, z) => fused_sum_to::<S, T>(round, x, y, z),
        InAnotherCall::RootTo(x) => root_to::<S, T>(round, x),
    }
}

/// Makes a call on values of one code, whose result is of the format of another, and returns 0 or the code of the first
/// error; on an error the result is left unchanged. The rule of flags of the operands' code makes no difference.
pub fn reply_in_another(
    format: Option<FlaggedKind>,
    target: Option<FlaggedKind>,
    mode: Option<Round>,
    call: Option<InAnotherCall>,
    answer: &mut Answer,
) -> u32
    ensures { IsInAnotherReply format target mode call answer.old answer.new result }
{
    let Some(format) = format else {
        return UNKNOWN_FORMAT;
    };
    let Some(target) = target else {
        return UNKNOWN_FORMAT;
    };
    let Some(round) = mode else {
        return UNKNOWN_MODE;
    };
    let Some(call) = call else {
        return NO_SUCH_OPERATION;
    };
    match format {
        FlaggedKind::Pairs => NO_SUCH_OPERATION,
        FlaggedKind::OfFormat(format) => match target {
            FlaggedKind::Pairs => NO_SUCH_OPERATION,
            FlaggedKind::OfFormat(target) => {
                format.built_in().fill(
                    InAnother {
                        target,
                        round,
                        call,
                    },
                    answer,
                );
                ANSWERED
            }
        },
    }
}
