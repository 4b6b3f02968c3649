//! Conversions by the modes of conversions into the storage formats whose numbers are those of a format of the model.

ghost use Rattle.std.specs.Prelude.{◌≡◌};
ghost use Rattle.apfloat_model.specs.rounding.Flags.{bits_of};
ghost use Rattle.apfloat_ieee.specs.Types.{format_of};
ghost use Rattle.small_formats.specs.Float8E3M4.{e3m4_datum, e3m4_format};
ghost use Rattle.small_formats.specs.stochastic.{ElementConversions.IsUnsignedBy, ModeConversions.IsConversionBy};

use crate::float8_e3m4::{WideE3M4S, narrowed, past};
use crate::picks::ieee_mode;
use crate::stochastic::by_mode::convert_by;
use crate::unsigned::code_of;
use crate::{ConversionRound, Float8E3M4, UE4M3};
use apfloat_base::{Float, StatusAnd};
use apfloat_ieee::built_in_formats::Float8E4M3FN;
use apfloat_ieee::{IeeeFloat, Semantics};

// The code of 15.5 without a sign.
const LARGEST: u16 = 111;

/// A value as one of `Float8E3M4`, rounded once in a mode of conversions, with the flags of that rounding. In a mode of
/// IEEE 754 it is the conversion of `from_value`.
///
/// Past 15.5 random digits lead to infinity, as the modes to nearest do; to odd the result is 15.5.
pub fn e3m4_by<S: Semantics>(
    x: IeeeFloat<S>,
    mode: ConversionRound,
    loses_info: &mut bool,
) -> StatusAnd<Float8E3M4>
    ensures { IsConversionBy (format_of S.Semantics) e3m4_format mode x (e3m4_datum result.value)
        (bits_of result.status) loses_info.new }
{
    if !x.is_finite() {
        return Float8E3M4::from_value(x, ieee_mode(mode), loses_info);
    }
    let answer: StatusAnd<IeeeFloat<WideE3M4S>> = convert_by(x, mode, loses_info);
    let code = answer.value.to_bits() as u16;
    if code % 256 > LARGEST {
        *loses_info = true;
        return past(ieee_mode(mode), x.is_negative());
    }
    answer.status.and(Float8E3M4::from_bits(narrowed(code)))
}

/// A value as one of `UE4M3`, rounded once in a mode of conversions, with the flags of that rounding, as into
/// `Float8E4M3FN`. In a mode of IEEE 754 it is the conversion of `UE4M3::from_value`, which all modes leave to say what
/// becomes of NaNs, infinities and what is below zero, and of -0.
pub fn unsigned_by<S: Semantics>(
    x: IeeeFloat<S>,
    mode: ConversionRound,
    loses_info: &mut bool,
) -> StatusAnd<UE4M3>
    ensures { IsUnsignedBy (format_of S.Semantics) mode x result.value (bits_of result.status)
        loses_info.new }
{
    if !x.is_finite() {
        return UE4M3::from_value(x, ieee_mode(mode), loses_info);
    }
    if x.is_negative() {
        return UE4M3::from_value(x, ieee_mode(mode), loses_info);
    }
    let answer: StatusAnd<Float8E4M3FN> = convert_by(x, mode, loses_info);
    answer.status.and(code_of(answer.value))
}
