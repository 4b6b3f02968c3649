//! Conversions by the modes of conversions.

ghost use Rattle.std.specs.Prelude.{◌≡◌};
ghost use Rattle.apfloat_model.specs.{declared.kinds.Category.TheVariants.Normal, order.Classes.category_of};
ghost use Rattle.apfloat_model.specs.rounding.Flags.{bits_of};
ghost use Rattle.apfloat_ieee.specs.Types.{format_of};
ghost use Rattle.small_formats.specs.declared.modes.ConversionRound.TheVariants.{ToOdd, Stochastic};
ghost use Rattle.small_formats.specs.stochastic.{Directions.direction, ModeConversions.IsConversionBy};

use crate::picks::ieee_mode;
use crate::stochastic::directions::rounds_away;
use crate::{ConversionRound, RandomDigits};
use apfloat_base::{Category, Float, FloatConvert, Round, StatusAnd};
use apfloat_ieee::{IeeeFloat, Semantics};
use round_to_odd::to_odd;

/// The mode that rounds away from zero, or toward it.
fn direction(away: bool, negative: bool) -> Round
    ensures { result ≡ direction away negative }
{
    if away {
        if negative {
            Round::TowardNegative
        } else {
            Round::TowardPositive
        }
    } else {
        Round::TowardZero
    }
}

/// A nonzero number, rounded to odd.
fn convert_to_odd<S: Semantics, T: Semantics>(
    x: IeeeFloat<S>,
    loses_info: &mut bool,
) -> StatusAnd<IeeeFloat<T>>
    requires { category_of x ≡ Normal }
    ensures { IsConversionBy (format_of S.Semantics) (format_of T.Semantics) ToOdd x result.value
        (bits_of result.status) loses_info.new }
{
    let truncated: StatusAnd<IeeeFloat<T>> = x.convert_r(Round::TowardZero, loses_info);
    to_odd(truncated, x.is_negative())
}

/// A nonzero number, rounded as random digits choose.
fn convert_randomly<S: Semantics, T: Semantics>(
    x: IeeeFloat<S>,
    bits: RandomDigits,
    loses_info: &mut bool,
) -> StatusAnd<IeeeFloat<T>>
    requires { category_of x ≡ Normal }
    ensures { IsConversionBy (format_of S.Semantics) (format_of T.Semantics) (Stochastic bits) x
        result.value (bits_of result.status) loses_info.new }
{
    let away = rounds_away::<S, T>(x, bits);
    x.convert_r(direction(away, x.is_negative()), loses_info)
}

/// A nonzero number, rounded in a mode of conversions.
fn convert_number<S: Semantics, T: Semantics>(
    x: IeeeFloat<S>,
    mode: ConversionRound,
    loses_info: &mut bool,
) -> StatusAnd<IeeeFloat<T>>
    requires { category_of x ≡ Normal }
    ensures { IsConversionBy (format_of S.Semantics) (format_of T.Semantics) mode x result.value
        (bits_of result.status) loses_info.new }
{
    match mode {
        ConversionRound::Ieee(round) => x.convert_r(round, loses_info),
        ConversionRound::ToOdd => convert_to_odd(x, loses_info),
        ConversionRound::Stochastic(bits) => convert_randomly(x, bits, loses_info),
    }
}

/// A value in another format, rounded once in a mode of conversions, with the flags of that rounding. In a mode of IEEE
/// 754 it is `convert_r`.
///
/// Random digits take a number to the neighbour above it, in magnitude, or to the one below it, as
/// `ConversionRound::Stochastic` says. Past the largest value the result is what it is to nearest. A number that the
/// format has is unchanged in each mode, with each random number.
///
/// A NaN, an infinity and a zero are converted as by `convert_r`, which treats them alike in each mode.
pub fn convert_by<S: Semantics, T: Semantics>(
    x: IeeeFloat<S>,
    mode: ConversionRound,
    loses_info: &mut bool,
) -> StatusAnd<IeeeFloat<T>>
    ensures { IsConversionBy (format_of S.Semantics) (format_of T.Semantics) mode x result.value
        (bits_of result.status) loses_info.new }
{
    match x.category() {
        Category::NaN => x.convert_r(ieee_mode(mode), loses_info),
        Category::Infinity => x.convert_r(ieee_mode(mode), loses_info),
        Category::Zero => x.convert_r(ieee_mode(mode), loses_info),
        Category::Normal => convert_number(x, mode, loses_info),
    }
}
