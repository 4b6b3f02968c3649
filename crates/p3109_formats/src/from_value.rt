//! Conversions of the values of a format into a format of IEEE P3109.

ghost use Rattle.std.specs.Prelude.{◌≡◌, ℕ, ◌*◌, ◌^◌, ◌<◌, ◌≤◌, Bool, ◌&&◌, eqb, false, if◌then◌else◌, not, true};
ghost use Rattle.apfloat_model.specs.{formats.Datum.finite, order.Classes.quanta_of, order.Positive.IsPositive};
ghost use Rattle.apfloat_model.specs.{rounding.Flags.Gives, rounding.Flags.bits_of, declared.kinds.Round.Round};
ghost use Rattle.apfloat_ieee.specs.Types.{format_of};
ghost use Rattle.small_formats.specs.Codes.{point};
ghost use Rattle.p3109_formats.specs.{Picks.IsProjectedAt, ModeConversions.IsIntoProjectionBy};
ghost use Rattle.p3109_formats.specs.{ModeConversions.IsProjectedBy, Rules.IsInfinityBy, Rules.plain_rule};
ghost use Rattle.p3109_formats.specs.{Types.projection_of, Projections.IsInfinityOf};
ghost use Rattle.p3109_formats.specs.Projections.{IsIntoProjection, IsProjection, IsWithoutCode, exponent_bits};
ghost use Rattle.p3109_formats.specs.Projections.{largest_index, past_value, projected_datum, projected_format};

use crate::descriptor::Descriptor;
use crate::projected::Projected;
use crate::projection::Projection;
use crate::random::pick_by_rule;
use crate::rules::{ProjectionRule, Saturation, passes, plain_rule, round_of};
use apfloat_base::{Category, Flags, Float, Round, Status, StatusAnd};
use apfloat_ieee::{IeeeFloat, Semantics};
use apfloat_rounding::rounding::leads_past;
use apfloat_words::power_of_two;
use small_formats::ConversionRound;
use small_formats::picks::Picked;
use small_formats::statuses::{status_of_nan, status_past, status_within};

/// The bits of the exponent.
fn exponent_bits(format: Descriptor) -> u32
    requires { IsProjection format }
    ensures value { result ≡ exponent_bits format }
    ensures some { 1 ≤ result }
    ensures few { result ≤ 15 }
{
    if format.signed {
        format.bits - format.precision
    } else {
        format.bits + 1 - format.precision
    }
}

/// The negated exponent of the quantum.
pub(crate) fn scale(format: Descriptor) -> u32
    requires { IsProjection format }
    ensures value { result ≡ (projected_format format).scale }
    ensures within { result ≤ 2 ^ 15 }
{
    format.precision + power_of_two(exponent_bits(format) - 1) as u32 - 2
}

/// The code that takes the place of a pick past the largest number.
fn past_value(format: Descriptor, leads: bool, negative: bool) -> u16
    requires lawful { IsProjection format }
    requires sign { negative ≡ true → format.signed ≡ true }
    ensures datum { projected_datum format result
        ≡ (if leads then past_value format negative
        else finite negative (point format.precision (largest_index format))) }
    ensures below { result < 2 ^ format.bits }
{
    if leads {
        return format.past(negative);
    }
    format.number(negative, format.largest_index())
}

/// What is delivered past the largest number.
fn past(format: Descriptor, mode: Round, leads: bool, negative: bool) -> StatusAnd<u16>
    requires lawful { IsProjection format }
    requires sign { negative ≡ true → format.signed ≡ true }
    ensures delivered { (amount parts index : ℕ) → largest_index format < index
        → Gives (IsProjectedAt format mode leads negative amount parts index) result }
    ensures below { result.value < 2 ^ format.bits }
{
    status_past(mode, negative).and(past_value(format, leads, negative))
}

/// The code that is delivered for a pick, in a format that has the sign.
fn deliver_signed(
    format: Descriptor,
    picked: Picked,
    mode: Round,
    leads: bool,
    negative: bool,
) -> StatusAnd<u16>
    requires lawful { IsProjection format }
    requires sign { negative ≡ true → format.signed ≡ true }
    ensures delivered { (amount parts : ℕ)
        → picked.exact ≡ eqb (point format.precision picked.index * parts) amount
        → Gives (IsProjectedAt format mode leads negative amount parts picked.index) result }
    ensures below { result.value < 2 ^ format.bits }
{
    if picked.index > u128::from(format.largest_index()) {
        return past(format, mode, leads, negative);
    }
    let status = status_within(format.precision, picked);
    status.and(format.number(negative, picked.index as u16))
}

/// Whether a format lacks that sign.
fn lacks_sign(format: Descriptor, negative: bool) -> bool
    ensures { result ≡ (negative && not format.signed) }
{
    negative && !format.signed
}

/// The code that is delivered for a pick. Without a sign, only what is rounded to zero has one below zero.
fn deliver_pick(
    format: Descriptor,
    picked: Picked,
    mode: Round,
    leads: bool,
    negative: bool,
) -> StatusAnd<u16>
    requires { IsProjection format }
    ensures delivered { (amount parts : ℕ)
        → picked.exact ≡ eqb (point format.precision picked.index * parts) amount
        → Gives (IsProjectedAt format mode leads negative amount parts picked.index) result }
    ensures below { result.value < 2 ^ format.bits }
{
    if lacks_sign(format, negative) {
        if picked.index != 0 {
            return Status::INVALID_OP.and(format.nan());
        }
        return deliver_signed(format, picked, mode, leads, false);
    }
    deliver_signed(format, picked, mode, leads, negative)
}

/// A positive value, rounded once as a value with that sign.
fn round_positive<S: Semantics>(
    format: Descriptor,
    x: IeeeFloat<S>,
    rule: ProjectionRule,
    negative: bool,
) -> StatusAnd<u16>
    requires lawful { IsProjection format }
    requires positive { IsPositive (format_of S.Semantics) x }
    ensures rounded { Gives (IsProjectedBy format rule negative
        (quanta_of x * 2 ^ (projected_format format).scale) (2 ^ (format_of S.Semantics).scale)) result }
    ensures below { result.value < 2 ^ format.bits }
{
    let picked = pick_by_rule(x, format.precision, scale(format), rule.round, negative);
    let mode = round_of(rule.round);
    let leads = passes(rule.saturation, leads_past(mode, negative));
    deliver_pick(format, picked, mode, leads, negative)
}

/// The infinity of that sign, or the NaN in its place.
fn infinity(format: Descriptor, negative: bool, loses_info: &mut bool) -> StatusAnd<u16>
    requires lawful { IsProjection format }
    requires sign { negative ≡ true → format.signed ≡ true }
    ensures is { IsInfinityOf format negative result.value (bits_of result.status) loses_info.new }
    ensures below { result.value < 2 ^ format.bits }
{
    *loses_info = !format.extended;
    let status = if format.extended {
        Status::OK
    } else {
        Status::INEXACT
    };
    status.and(format.past(negative))
}

/// What an infinity of that sign becomes.
fn infinity_by(
    format: Descriptor,
    saturation: Saturation,
    negative: bool,
    loses_info: &mut bool,
) -> StatusAnd<u16>
    requires lawful { IsProjection format }
    requires sign { negative ≡ true → format.signed ≡ true }
    ensures is { IsInfinityBy saturation format negative result.value (bits_of result.status)
        loses_info.new }
    ensures below { result.value < 2 ^ format.bits }
{
    match saturation {
        Saturation::Overflow => infinity(format, negative, loses_info),
        Saturation::Finite => {
            *loses_info = true;
            Status::INEXACT.and(past_value(format, false, negative))
        }
        Saturation::Propagate => infinity(format, negative, loses_info),
    }
}

/// What the infinity below zero becomes, in a format without a sign.
fn without_code(format: Descriptor, loses_info: &mut bool) -> StatusAnd<u16>
    requires { IsProjection format }
    ensures is { IsWithoutCode format result.value (bits_of result.status) loses_info.new }
    ensures below { result.value < 2 ^ format.bits }
{
    *loses_info = true;
    Status::INVALID_OP.and(format.nan())
}

impl Descriptor {
    /// `Projected::project`, as a code of the format.
    pub fn project<S: Semantics>(
        self,
        x: IeeeFloat<S>,
        rule: ProjectionRule,
        loses_info: &mut bool,
    ) -> StatusAnd<u16>
        requires { IsProjection self }
        ensures into { IsIntoProjectionBy self (format_of S.Semantics) rule x result.value
            (bits_of result.status) loses_info.new }
        ensures below { result.value < 2 ^ self.bits }
    {
        let negative = x.is_negative();
        match x.category() {
            Category::NaN => {
                *loses_info = S::NAN_PAYLOAD_MASK != 0;
                status_of_nan(x).and(self.nan())
            }
            Category::Infinity => {
                if lacks_sign(self, negative) {
                    return without_code(self, loses_info);
                }
                infinity_by(self, rule.saturation, negative, loses_info)
            }
            Category::Zero => {
                *loses_info = negative;
                let status = if negative {
                    Status::INEXACT
                } else {
                    Status::OK
                };
                status.and(self.number(false, 0))
            }
            Category::Normal => {
                let answer = round_positive(self, x.abs(), rule, negative);
                *loses_info = answer.status != Status::OK;
                answer
            }
        }
    }
}

impl<F: Projection> Projected<F> {
    /// A value of any format, rounded once (IEEE 754-2019 5.4.2), with the flags of that rounding.
    ///
    /// Past the largest number the result is the infinity, or the NaN in its place, with OVERFLOW and INEXACT, where
    /// the mode leads past it; otherwise the largest number, with INEXACT. In a format without infinities, an infinity
    /// is the NaN, with INEXACT. In a format without a sign, what is below zero once it is rounded is the NaN, with
    /// INVALID_OP. -0 becomes the only zero, with INEXACT. A NaN is the NaN, with INVALID_OP if it is signaling;
    /// information is lost if its format has payloads.
    pub fn from_value<S: Semantics>(
        x: IeeeFloat<S>,
        round: Round,
        loses_info: &mut bool,
    ) -> StatusAnd<Self>
        ensures { IsIntoProjection (projection_of F.Projection) (format_of S.Semantics) round x
            result.value (bits_of result.status) loses_info.new }
    {
        Self::from_value_by(x, ConversionRound::Ieee(round), loses_info)
    }

    /// A value of any format, rounded once in a mode of conversions, with the flags of that rounding. In a mode of IEEE
    /// 754 it is the conversion of `from_value`.
    ///
    /// To odd the result is the neighbour whose code is odd, and the largest number, with INEXACT, past it. With random
    /// digits it is the infinity there, or the NaN in its place, with OVERFLOW and INEXACT, as to nearest. A value that
    /// the format has is unchanged in each mode, with each random number; all else is as in `from_value`.
    pub fn from_value_by<S: Semantics>(
        x: IeeeFloat<S>,
        mode: ConversionRound,
        loses_info: &mut bool,
    ) -> StatusAnd<Self>
        ensures { IsIntoProjectionBy (projection_of F.Projection) (format_of S.Semantics)
            (plain_rule mode) x result.value (bits_of result.status) loses_info.new }
    {
        Self::project(x, plain_rule(mode), loses_info)
    }

    /// A value of any format, rounded once and saturated by a rule, with the flags of that rounding. Saturation gives
    /// numbers the flags that they have without it.
    pub fn project<S: Semantics>(
        x: IeeeFloat<S>,
        rule: ProjectionRule,
        loses_info: &mut bool,
    ) -> StatusAnd<Self>
        ensures { IsIntoProjectionBy (projection_of F.Projection) (format_of S.Semantics) rule x
            result.value (bits_of result.status) loses_info.new }
    {
        let answer = Descriptor::of::<F>().project(x, rule, loses_info);
        answer.status.and(Self::of_code(answer.value))
    }
}
