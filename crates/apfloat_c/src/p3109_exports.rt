//! The exports that convert one value into a format of IEEE P3109 or out of it.

ghost use Rattle.formats_at_run_time.specs.{FlaggedKinds.flagged_kind_coded, Modes.mode_coded};
ghost use Rattle.coded_calls.specs.{Answers.whole, P3109.IsP3109Reply};
ghost use Rattle.coded_calls.specs.P3109.{descriptor_coded, known_into, known_out_of, rule_coded, rule_with_digits};

use coded_calls::data::{Answer, Halves};
use coded_calls::p3109::{P3109Format, reply_into, reply_out_of, rule_coded, rule_with_digits};

/// A value as a code of a format of P3109, rounded once.
#[unsafe(no_mangle)]
pub extern "C" fn apfloat_to_p3109(
    format: u32,
    mode: u32,
    to: P3109Format,
    x: Halves,
    answer: &mut Answer,
) -> u32
    ensures { let known = known_into (flagged_kind_coded format) (rule_coded mode)
        (descriptor_coded to) (whole x) in
        IsP3109Reply known answer.old answer.new result }
{
    reply_into(format, rule_coded(mode), to, x.number(), answer)
}

/// A value as a code of a format of P3109, rounded once, also to odd or with the lowest digits of a random number.
#[unsafe(no_mangle)]
pub extern "C" fn apfloat_to_p3109_by(
    format: u32,
    mode: u32,
    to: P3109Format,
    digits: u32,
    random: u32,
    x: Halves,
    answer: &mut Answer,
) -> u32
    ensures { let known = known_into (flagged_kind_coded format)
        (rule_with_digits mode digits random) (descriptor_coded to) (whole x) in
        IsP3109Reply known answer.old answer.new result }
{
    let rule = rule_with_digits(mode, digits, random);
    reply_into(format, rule, to, x.number(), answer)
}

/// The value of a code of a format of P3109 in another format, rounded once.
#[unsafe(no_mangle)]
pub extern "C" fn apfloat_from_p3109(
    format: P3109Format,
    mode: u32,
    to: u32,
    code: u32,
    answer: &mut Answer,
) -> u32
    ensures { let known = known_out_of (descriptor_coded format) (mode_coded mode)
        (flagged_kind_coded to) code in
        IsP3109Reply known answer.old answer.new result }
{
    reply_out_of(format, mode, to, code, answer)
}
