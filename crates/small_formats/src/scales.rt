//! Scales of blocks (OCP Microscaling Formats 1.0, 5.4): powers of two in 8 bits.

ghost use Rattle.std.specs.Prelude.{◌≡◌, ℕ, ◌+◌, ◌*◌, ◌^◌, ◌<◌, ◌≤◌, pos, neg_ℤ, ◌+ℤ◌, ◌≤ℤ◌, eqb, false, if◌then◌else◌};
ghost use Rattle.apfloat_model.specs.arithmetic.Conversions.{IsConversion, IsExactlyConverted};
ghost use Rattle.apfloat_model.specs.order.{Classes.quanta_of, Positive.IsPositive};
ghost use Rattle.apfloat_model.specs.rounding.{Bounds.IsWithin, Flags.Gives, Flags.bits_of};
ghost use Rattle.apfloat_model.specs.rounding.Rounding.{leads_out, ok_bits, overflow_bit, underflow_bit, inexact_bit};
ghost use Rattle.apfloat_model.specs.rounding.Standing.{up, down};
ghost use Rattle.apfloat_ieee.specs.FlaggedTypes.{format_of as flagged_format_of};
ghost use Rattle.apfloat_ieee.specs.Types.{format_of};
ghost use Rattle.small_formats.specs.ScaleModes.{IsDeliveredScaleBy, IsScaleBy};
ghost use Rattle.small_formats.specs.Scales.{IsScale, largest_code, nan_code, scale_format, scale_of};

use crate::cuts::DIGITS;
use crate::grid_points::{Point, convert_point};
use crate::modes::ConversionRound;
use crate::picks::{ieee_mode, takes_next};
use crate::quanta::in_quanta;
use crate::statuses::{status_of_nan, status_past};
use apfloat_base::{Category, ExpInt, Flags, Float, Round, Status, StatusAnd};
use apfloat_ieee::{Flagged, IeeeFloat, Semantics};
use apfloat_model::Loss;
use apfloat_rounding::rounding::leads_past;
use apfloat_words::{is_exact, shift_right};
use std::marker::Model;

const NAN: u8 = 255;

const LARGEST: u8 = 254;

/// The negated exponent of the least scale.
const BIAS: u32 = 127;

/// How far the first of 125 digits is above the last one.
const FIRST: ExpInt = 124;

/// A scale: 2^(code - 127), or the NaN with the code 255. There is no sign, no zero and no infinity.
#[derive(Clone, Copy)]
pub struct E8M0FNU {
    code: u8,
}

impl Model for E8M0FNU {
    ghost use Rattle.std.specs.Prelude.{ℕ};

    ghost Value = { ℕ };

    ghost view = { λ x. x.code };

    ghost inverse = { λ code. record { code = code } };
}

/// The least scale for what is below it.
fn least() -> StatusAnd<E8M0FNU>
    ensures value { result.value ≡ 0 }
    ensures status { bits_of result.status ≡ underflow_bit + inexact_bit }
{
    Status::UNDERFLOW
        .union(Status::INEXACT)
        .and(E8M0FNU { code: 0 })
}

/// What is delivered past the largest scale.
fn past(mode: Round) -> StatusAnd<E8M0FNU>
    ensures value { result.value ≡ (if leads_out mode false then nan_code else largest_code) }
    ensures status { bits_of result.status
        ≡ (if leads_out mode false then overflow_bit + inexact_bit else inexact_bit) }
{
    let code = if leads_past(mode, false) {
        NAN
    } else {
        LARGEST
    };
    status_past(mode, false).and(E8M0FNU { code })
}

/// The picked scale.
fn within(picked: u32, exact: bool) -> StatusAnd<E8M0FNU>
    requires { picked ≤ largest_code }
    ensures value { result.value ≡ picked }
    ensures status { bits_of result.status ≡ (if exact then ok_bits else inexact_bit) }
{
    let status = if exact { Status::OK } else { Status::INEXACT };
    status.and(E8M0FNU { code: picked as u8 })
}

/// The code, or the next one if the mode moves past it.
fn moved_code(code: u32, moves: bool) -> u32
    requires { code < 2 ^ 24 }
    ensures { result ≡ (if moves then code + 1 else code) }
{
    if moves { code + 1 } else { code }
}

/// The code of the first of 125 digits, of which the last one is at `unit`, if it is not below the least scale.
fn code_at(unit: ExpInt) -> u32
    requires least { neg_ℤ (pos 124) ≤ℤ unit }
    requires most { unit ≤ℤ pos (2 ^ 23) }
    ensures value { pos result ≡ unit +ℤ pos 124 }
    ensures near { result < 2 ^ 24 }
{
    (unit + FIRST) as u32
}

/// A positive number with 125 digits, the last of which is at `unit`, rounded once.
fn round_digits(digits: u128, unit: ExpInt, mode: ConversionRound) -> StatusAnd<E8M0FNU>
    requires low { 2 ^ 124 ≤ digits }
    requires high { digits < 2 ^ 125 }
    requires within { IsWithin (2 ^ 23) unit }
    ensures { (amount parts : ℕ) → 0 < parts
        → amount * 2 ^ down unit ≡ digits * (parts * 2 ^ up unit)
        → Gives (IsDeliveredScaleBy mode amount parts) result }
{
    if unit < -FIRST {
        return least();
    }
    let low = code_at(unit);
    let first = shift_right(digits, DIGITS - 1, Loss::ExactlyZero);
    let odd = low % 2 == 1;
    let moves = takes_next(mode, false, digits, DIGITS - 1, first.loss, odd);
    let picked = moved_code(low, moves);
    if picked > u32::from(LARGEST) {
        past(ieee_mode(mode))
    } else {
        within(picked, is_exact(first.loss))
    }
}

/// A positive value, rounded once.
fn round_positive<S: Semantics>(x: IeeeFloat<S>, mode: ConversionRound) -> StatusAnd<E8M0FNU>
    requires { IsPositive (format_of S.Semantics) x }
    ensures { Gives (IsDeliveredScaleBy mode (quanta_of x * 2 ^ 127)
        (2 ^ (format_of S.Semantics).scale)) result }
{
    let number = in_quanta(x, BIAS);
    round_digits(number.digits, number.unit, mode)
}

impl E8M0FNU {
    /// The scale with that code.
    pub fn from_bits(bits: u8) -> Self
        ensures { result ≡ bits }
    {
        E8M0FNU { code: bits }
    }

    /// The code.
    pub fn to_bits(self) -> u8
        ensures { result ≡ self }
    {
        self.code
    }

    /// Whether the scale is the NaN.
    pub fn is_nan(self) -> bool
        ensures { result ≡ eqb self nan_code }
    {
        self.code == NAN
    }

    /// A value of any format, rounded once, with the flags of that rounding. Ties to even go to the even code.
    ///
    /// Past the largest scale the result is the NaN, with OVERFLOW and INEXACT, where the mode leads past it, and
    /// otherwise the largest scale, with INEXACT. What is below the least scale becomes that scale, and so does a zero,
    /// with UNDERFLOW and INEXACT. +infinity becomes the NaN, with INEXACT, and what is below zero becomes the NaN,
    /// with INVALID_OP. A NaN becomes the NaN, with INVALID_OP if it is signaling; information is lost if the format
    /// has payloads.
    pub fn from_value<S: Semantics>(
        x: IeeeFloat<S>,
        round: Round,
        loses_info: &mut bool,
    ) -> StatusAnd<Self>
        ensures { IsScale (format_of S.Semantics) round x result.value (bits_of result.status)
            loses_info.new }
    {
        E8M0FNU::from_value_by(x, ConversionRound::Ieee(round), loses_info)
    }

    /// A value of any format, rounded once in a mode of conversions, with the flags of that rounding. In a mode of IEEE
    /// 754 it is the conversion of `from_value`.
    ///
    /// A number between two scales becomes the one with the odd code, or the one that random digits choose. Past the
    /// largest scale the result is the NaN for random digits, as to nearest, and that scale to odd, though its code is
    /// even. What is below the least scale becomes that scale in each mode, and so do NaNs, infinities, zeros and what
    /// is below zero what `from_value` makes of them.
    pub fn from_value_by<S: Semantics>(
        x: IeeeFloat<S>,
        mode: ConversionRound,
        loses_info: &mut bool,
    ) -> StatusAnd<Self>
        ensures { IsScaleBy (format_of S.Semantics) mode x result.value (bits_of result.status)
            loses_info.new }
    {
        match x.category() {
            Category::NaN => {
                *loses_info = S::NAN_PAYLOAD_MASK != 0;
                status_of_nan(x).and(E8M0FNU { code: NAN })
            }
            Category::Infinity => {
                *loses_info = true;
                let status = if x.is_negative() {
                    Status::INVALID_OP
                } else {
                    Status::INEXACT
                };
                status.and(E8M0FNU { code: NAN })
            }
            Category::Zero => {
                *loses_info = true;
                least()
            }
            Category::Normal => {
                if x.is_negative() {
                    *loses_info = true;
                    return Status::INVALID_OP.and(E8M0FNU { code: NAN });
                }
                let answer = round_positive(x, mode);
                *loses_info = answer.status != Status::OK;
                answer
            }
        }
    }

    /// The scale in another format, rounded once, as the value of any format is converted. A number that the format has
    /// is unchanged, with status OK; the NaN becomes a quiet NaN without a payload.
    pub fn convert_r<T: Flagged>(
        self,
        round: Round,
        loses_info: &mut bool,
    ) -> StatusAnd<IeeeFloat<T>>
        ensures converted { IsConversion scale_format (flagged_format_of T.Flagged) round
            (scale_of self) result.value (bits_of result.status) loses_info.new }
        ensures exact { IsExactlyConverted scale_format (flagged_format_of T.Flagged)
            (scale_of self) result.value (bits_of result.status) loses_info.new }
    {
        if self.code == NAN {
            *loses_info = false;
            return Status::OK.and(IeeeFloat::qnan(None));
        }
        let point = Point {
            significand: 1,
            place: u16::from(self.code),
        };
        convert_point(point, BIAS, round, false, loses_info)
    }
}
