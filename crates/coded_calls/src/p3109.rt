//! Conversions of one value into a format of IEEE P3109 and out of it, by the constants of the format.

ghost use Rattle.std.specs.Prelude.{◌≡◌, IfOk, IfSome};
ghost use Rattle.rustc_apfloat.specs.Lawful.{format_with};
ghost use Rattle.formats_at_run_time.specs.{FlaggedKinds.flagged_kind_coded, FormatKinds.IfFormat, Modes.mode_coded};
ghost use Rattle.formats_at_run_time.specs.ValueKinds.{value_of};
ghost use Rattle.p3109_formats.specs.Projections.{IsProjection};
ghost use Rattle.coded_calls.specs.P3109.{IsDecodedAnswer, IsLawful, IsP3109Answer, IsP3109Reply, IsProjectedAnswer};
ghost use Rattle.coded_calls.specs.P3109.{descriptor_coded, digits_fit, flag_coded, known_into, known_out_of};
ghost use Rattle.coded_calls.specs.P3109.{lowest_digits, round_coded, round_with_digits, rule_coded, rule_with};
ghost use Rattle.coded_calls.specs.P3109.{rule_with_digits, saturation_coded};

use crate::codes::{
    ANSWERED, NO_SUCH_OPERATION, UNKNOWN_FORMAT, UNKNOWN_MODE, WRONG_WIDTH, one_if,
};
use crate::data::Answer;
use formats_at_run_time::{
    BuiltInFormat, FlaggedFormat, FlaggedKind, InFormat, WritesInFormat, mode_coded,
};
use p3109_formats::{Descriptor, ProjectionRound, ProjectionRule, Saturation};
use rustc_apfloat::ieee::{Flagged, IeeeFloat, Semantics};
use rustc_apfloat::{Float, Round};
use small_formats::{ConversionRound, RandomDigits};

/// The constants of a format of P3109.
#[repr(C)]
#[derive(Clone, Copy)]
pub struct P3109Format {
    /// The width of a code in bits, 3 to 15.
    pub bits: u32,
    /// The number of binary digits in a significand, at least 1. At least one bit is left for the exponent.
    pub precision: u32,
    /// 1 if there is a sign, otherwise 0.
    pub is_signed: u32,
    /// 1 if there are infinities, otherwise 0.
    pub is_extended: u32,
}

// C programs take these sizes from the header.
const _: () = prove!(size_of::<P3109Format>() == 16);

const _: () = prove!(align_of::<P3109Format>() == 4);

/// A conversion into a format of P3109 or out of it, by which contracts name these calls.
#[derive(Clone, Copy)]
pub enum P3109Call {
    /// Of a value, given by its bits, into a format of P3109.
    Into(BuiltInFormat, ProjectionRule, Descriptor, u128),
    /// Of a code out of a format of P3109. The rule of flags is that of the other format.
    OutOf(Descriptor, Round, FlaggedFormat, u32),
}

/// What a field that is 0 or 1 says.
fn flag_coded(code: u32) -> Option<bool>
    ensures { result ≡ flag_coded code }
{
    match code {
        0 => Some(false),
        1 => Some(true),
        _ => None,
    }
}

/// The format with these constants.
fn descriptor_coded(format: P3109Format) -> Option<Descriptor>
    ensures is { result ≡ descriptor_coded format }
    ensures lawful { IfSome result (λ it. IsProjection it) }
{
    let signed = flag_coded(format.is_signed)?;
    let extended = flag_coded(format.is_extended)?;
    Descriptor::new(format.bits, format.precision, signed, extended)
}

/// How a value is rounded, by the code of a mode of IEEE 754 or that of rounding to odd.
fn round_coded(mode: u32) -> Result<ProjectionRound, u32>
    ensures { result ≡ round_coded mode }
{
    match mode {
        5 => Ok(ProjectionRound::By(ConversionRound::ToOdd)),
        _ => match mode_coded(mode) {
            Some(round) => Ok(ProjectionRound::By(ConversionRound::Ieee(round))),
            None => Err(UNKNOWN_MODE),
        },
    }
}

/// Whether random numbers have so many digits.
fn digits_fit(digits: u32) -> bool
    ensures { result ≡ digits_fit digits }
{
    1 <= digits && digits <= 32
}

/// The lowest digits of a random number, if there are 1 to 32 of them.
fn lowest_digits(digits: u32, random: u32) -> Result<RandomDigits, u32>
    ensures { result ≡ lowest_digits digits random }
{
    if !digits_fit(digits) {
        return Err(WRONG_WIDTH);
    }
    let lowest = u64::from(random) % (1 << digits);
    match RandomDigits::new(digits, lowest as u32) {
        Ok(bits) => Ok(bits),
        // So many digits fit.
        Err(_) => Err(WRONG_WIDTH),
    }
}

/// The same as `round_coded`, or one of the three ways with random digits.
fn round_with_digits(mode: u32, digits: u32, random: u32) -> Result<ProjectionRound, u32>
    ensures { result ≡ round_with_digits mode (lowest_digits digits random) }
{
    if mode < 6 || mode > 8 {
        return round_coded(mode);
    }
    match lowest_digits(digits, random) {
        Err(error) => Err(error),
        Ok(bits) => Ok(match mode {
            6 => ProjectionRound::By(ConversionRound::Stochastic(bits)),
            7 => ProjectionRound::StochasticB(bits),
            _ => ProjectionRound::StochasticC(bits),
        }),
    }
}

/// What becomes of what is past the largest number, by the code that is joined to that of a mode.
fn saturation_coded(code: u32) -> Option<Saturation>
    ensures { result ≡ saturation_coded code }
{
    match code {
        0 => Some(Saturation::Overflow),
        1 => Some(Saturation::Propagate),
        3 => Some(Saturation::Finite),
        _ => None,
    }
}

/// How a value is rounded and saturated.
fn rule_with(
    saturation: Option<Saturation>,
    round: Result<ProjectionRound, u32>,
) -> Result<ProjectionRule, u32>
    ensures { result ≡ rule_with saturation round }
{
    let Some(saturation) = saturation else {
        return Err(UNKNOWN_MODE);
    };
    match round {
        Err(error) => Err(error),
        Ok(round) => Ok(ProjectionRule { round, saturation }),
    }
}

/// How a value is rounded and saturated, by the code of a mode, to which that of a saturation may be joined.
pub fn rule_coded(mode: u32) -> Result<ProjectionRule, u32>
    ensures { result ≡ rule_coded mode }
{
    rule_with(saturation_coded(mode / 256), round_coded(mode % 256))
}

/// The same, or with the lowest digits of a random number.
pub fn rule_with_digits(mode: u32, digits: u32, random: u32) -> Result<ProjectionRule, u32>
    ensures { result ≡ rule_with_digits mode digits random }
{
    rule_with(
        saturation_coded(mode / 256),
        round_with_digits(mode % 256, digits, random),
    )
}

/// The conversion into a format of P3109 that is asked for, or the code of the first error.
fn known_into(
    source: Option<FlaggedKind>,
    rule: Result<ProjectionRule, u32>,
    target: Option<Descriptor>,
    bits: u128,
) -> Result<P3109Call, u32>
    requires { IfSome target (λ it. IsProjection it) }
    ensures is { result ≡ known_into source rule target bits }
    ensures lawful { IfOk result IsLawful }
{
    let Some(source) = source else {
        return Err(UNKNOWN_FORMAT);
    };
    let rule = match rule {
        Ok(rule) => rule,
        Err(error) => return Err(error),
    };
    let Some(target) = target else {
        return Err(UNKNOWN_FORMAT);
    };
    match source {
        FlaggedKind::OfFormat(format) => {
            Ok(P3109Call::Into(format.built_in(), rule, target, bits))
        }
        FlaggedKind::Pairs => Err(NO_SUCH_OPERATION),
    }
}

/// The conversion out of a format of P3109 that is asked for, or the code of the first error.
fn known_out_of(
    source: Option<Descriptor>,
    mode: Option<Round>,
    target: Option<FlaggedKind>,
    code: u32,
) -> Result<P3109Call, u32>
    requires { IfSome source (λ it. IsProjection it) }
    ensures is { result ≡ known_out_of source mode target code }
    ensures lawful { IfOk result IsLawful }
{
    let Some(source) = source else {
        return Err(UNKNOWN_FORMAT);
    };
    let Some(mode) = mode else {
        return Err(UNKNOWN_MODE);
    };
    let Some(target) = target else {
        return Err(UNKNOWN_FORMAT);
    };
    match target {
        FlaggedKind::OfFormat(target) => Ok(P3109Call::OutOf(source, mode, target, code)),
        FlaggedKind::Pairs => Err(NO_SUCH_OPERATION),
    }
}

/// Makes the code in a format of P3109 of a value, rounded once by a rule, and returns 0, or the code of the first
/// error. The bits above those of the value's format are ignored.
pub fn reply_into(
    format: u32,
    rule: Result<ProjectionRule, u32>,
    to: P3109Format,
    bits: u128,
    answer: &mut Answer,
) -> u32
    ensures { let known = known_into (flagged_kind_coded format) rule (descriptor_coded to) bits in
        IsP3109Reply known answer.old answer.new result }
{
    let known = known_into(FlaggedKind::coded(format), rule, descriptor_coded(to), bits);
    convert(known, answer)
}

/// Makes the value in another format of a code of a format of P3109, rounded once, and returns 0, or the code of the
/// first error. The bits above those of the code are ignored.
pub fn reply_out_of(format: P3109Format, mode: u32, to: u32, code: u32, answer: &mut Answer) -> u32
    ensures { let known = known_out_of (descriptor_coded format) (mode_coded mode)
        (flagged_kind_coded to) code in
        IsP3109Reply known answer.old answer.new result }
{
    let known = known_out_of(
        descriptor_coded(format),
        mode_coded(mode),
        FlaggedKind::coded(to),
        code,
    );
    convert(known, answer)
}

/// Makes the conversion, unless the call is refused.
fn convert(known: Result<P3109Call, u32>, answer: &mut Answer) -> u32
    requires { IfOk known IsLawful }
    ensures { IsP3109Reply known answer.old answer.new result }
{
    match known {
        Err(error) => error,
        Ok(call) => {
            *answer = converted(call);
            ANSWERED
        }
    }
}

/// What a conversion gives.
fn converted(call: P3109Call) -> Answer
    requires { IsLawful call }
    ensures { IsP3109Answer call result }
{
    match call {
        P3109Call::Into(source, rule, target, bits) => source.run(Projecting {
            rule,
            target,
            bits,
        }),
        P3109Call::OutOf(source, round, target, code) => {
            let call = Decoding {
                source,
                round,
                code,
            };
            target.write(call, &mut [])
        }
    }
}

/// The call that converts a value into a format of P3109, made at the type of its format.
#[derive(Clone, Copy)]
struct Projecting {
    rule: ProjectionRule,
    target: Descriptor,
    bits: u128,
}

/// The call that converts a code, made at the type of the format of its value.
#[derive(Clone, Copy)]
struct Decoding {
    source: Descriptor,
    round: Round,
    code: u32,
}

impl InFormat for Projecting {
    type Output = Answer;

    ghost can = { λ it kind. IsProjection it.target };

    ghost gives = { λ it kind answer. IfFormat kind
        (λ c. IsProjectedAnswer it.target (format_with c) it.rule (value_of c it.bits) answer) };

    fn in_format<S: Semantics>(self) -> Answer {
        let mut loses_info = false;
        let x = IeeeFloat::<S>::from_bits(self.bits);
        let made = self.target.project(x, self.rule, &mut loses_info);
        Answer::of(u128::from(made.value), made.status, one_if(loses_info))
    }
}

impl WritesInFormat for Decoding {
    type Output = Answer;

    ghost can = { λ it kind old. IsProjection it.source };

    ghost gives = { λ it kind old new answer. IfFormat kind
        (λ c. IsDecodedAnswer it.source c it.round it.code answer) };

    fn write_in_format<S: Flagged>(self, bytes: &mut [u8]) -> Answer {
        let mut loses_info = false;
        let code = self.source.low_bits(self.code);
        let made = self
            .source
            .convert_r::<S>(code, self.round, &mut loses_info);
        Answer::of(made.value.to_bits(), made.status, one_if(loses_info))
    }
}
