//! The results of calls that raise no flag.

ghost use Rattle.std.specs.Prelude.{◌≡◌, ◌<◌, if◌then◌else◌};
ghost use Rattle.formats_at_run_time.specs.FlaggedKinds.{flagged_kind_coded};
ghost use Rattle.coded_calls.specs.FlaglessCalls.{IsFlagless, IsFlaglessAnswer, IsFlaglessKindAnswer, IsFlaglessReply};
ghost use Rattle.coded_calls.specs.FlaglessCalls.{is_set, signed};

use crate::codes::{ANSWERED, UNKNOWN_FORMAT, one_if};
use crate::data::Answer;
use crate::flagless_call::FlaglessCall;
use formats_at_run_time::{FillsInFormat, FlaggedKind};
use rustc_apfloat::ieee::{Flagged, IeeeFloat};
use rustc_apfloat::ppc::DoubleDouble;
use rustc_apfloat::{Float, Status};

impl FillsInFormat for FlaglessCall {
    type Place = Answer;

    type Output = ();

    ghost gives = { λ it kind old new _. IsFlaglessKindAnswer kind it new };

    #[inline(always)]
    fn fill_in_format<S: Flagged>(self, answer: &mut Answer) {
        *answer = flagless_answer::<IeeeFloat<S>>(self);
    }
}

/// Makes a call in the values of a code, and returns 0, or the error for an unknown format. The rule of flags, which
/// the code names too, makes no difference.
#[inline(always)]
pub fn reply(format: u32, call: FlaglessCall, answer: &mut Answer) -> u32
    ensures { IsFlaglessReply (flagged_kind_coded format) call answer.old answer.new result }
{
    match FlaggedKind::coded(format) {
        None => UNKNOWN_FORMAT,
        Some(FlaggedKind::Pairs) => {
            *answer = flagless_answer::<DoubleDouble>(call);
            ANSWERED
        }
        Some(FlaggedKind::OfFormat(format)) => {
            format.built_in().fill(call, answer);
            ANSWERED
        }
    }
}

/// The result of a call in the values of a type.
#[inline(always)]
fn flagless_answer<F: Float>(call: FlaglessCall) -> Answer
    requires { F.PRECISION < F.BITS }
    ensures { IsFlaglessAnswer F.meaning F.partial_cmp call result }
{
    match call {
        FlaglessCall::Negation(x) => in_bits(opposite(F::from_bits(x))),
        FlaglessCall::AbsoluteValue(x) => in_bits(F::from_bits(x).abs()),
        FlaglessCall::SignCopy(x, y) => in_bits(F::from_bits(x).copy_sign(F::from_bits(y))),
        FlaglessCall::LesserNumber(x, y) => in_bits(F::from_bits(x).min(F::from_bits(y))),
        FlaglessCall::GreaterNumber(x, y) => in_bits(F::from_bits(x).max(F::from_bits(y))),
        FlaglessCall::Minimum(x, y) => in_bits(F::from_bits(x).minimum(F::from_bits(y))),
        FlaglessCall::Maximum(x, y) => in_bits(F::from_bits(x).maximum(F::from_bits(y))),
        FlaglessCall::QuietNan(negative, payload) => {
            in_bits(signed(negative, F::qnan(Some(payload))))
        }
        FlaglessCall::SignalingNan(negative, payload) => {
            in_bits(signed(negative, F::snan(Some(payload))))
        }
        FlaglessCall::SignTest(x) => Answer::number(one_if(F::from_bits(x).is_negative())),
    }
}

/// The value with the opposite sign.
#[inline(always)]
fn opposite<F: Float>(x: F) -> F
    ensures { result ≡ F.meaning.negated x }
{
    -x
}

/// A value, with the opposite sign if it is to be negative.
#[inline(always)]
fn signed<F: Float>(negative: bool, x: F) -> F
    ensures { result ≡ signed F.meaning.negated negative x }
{
    if negative { opposite(x) } else { x }
}

/// The bits of a value, without flags.
#[inline(always)]
fn in_bits<F: Float>(x: F) -> Answer
    requires { F.PRECISION < F.BITS }
    ensures { IsFlagless F.meaning x result }
{
    Answer::of(x.to_bits(), Status::OK, 0)
}

/// Whether a word of C is true.
#[inline(always)]
pub fn is_set(word: u32) -> bool
    ensures { result ≡ is_set word }
{
    word != 0
}
