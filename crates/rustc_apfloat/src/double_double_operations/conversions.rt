//! Pairs of doubles to and from the other formats.

ghost use Rattle.std.specs.Prelude.{◌≡◌};
ghost use Rattle.apfloat_model.specs.rounding.Flags.{Gives};
ghost use Rattle.apfloat_ieee.specs.FlaggedTypes.{format_of};
ghost use Rattle.rustc_apfloat.specs.double_double_operations.PairConversions.{IsExactPairFrom, IsPairFrom, IsPairTo};

use crate::double_double_operations::wide::split_answer;
use crate::double_doubles::DoubleDouble;
use apfloat_base::{Float, FloatConvert, Round, StatusAnd};
use apfloat_ieee::built_in_formats::Double;
use apfloat_ieee::{Flagged, IeeeFloat};

/// The parts of a pair, the high one first.
fn parts_of(x: DoubleDouble) -> (Double, Double)
    ensures high { result.0 ≡ x.high }
    ensures low { result.1 ≡ x.low }
{
    let bits = x.to_bits();
    (Double::from_bits(bits), Double::from_bits(bits >> 64))
}

/// A pair in the format `T`: the exact sum of the parts, rounded once (IEEE 754-2019 5.4.2, convertFormat), with
/// exactly the flags of that rounding. Parts that cancel give the zero of `add_r`.
///
/// If the high part is zero, infinite or a NaN, it is converted alone, as `convert_r` does, and the low part is
/// ignored. With another high part, a low part that is infinite or a NaN is the sum.
pub fn pair_to_format<T: Flagged>(x: DoubleDouble, round: Round) -> StatusAnd<IeeeFloat<T>>
    ensures { Gives (IsPairTo (format_of T.Flagged) round x) result }
{
    let (high, low) = parts_of(x);
    if high.is_finite_non_zero() {
        high.add_to::<T>(low, round)
    } else {
        let mut loses_info = false;
        high.convert_r(round, &mut loses_info)
    }
}

/// A value of the format `S` as a pair: rounded once to the 106 digits of the wide format, and split into the nearest
/// double and the rest, with the flags of that rounding. This is how integers and texts become pairs.
///
/// A number of at most 106 digits, none of them below 2^-1074, that is within the largest double is exact, as is every
/// `Half`, `Single` and `Double`. A number that is past the largest double by half its last digit or more is an
/// infinity, with the status of the wide format, which has numbers up to 2^1024. A signaling NaN is quieted, with
/// `INVALID_OP`.
pub fn pair_from_format<S: Flagged>(x: IeeeFloat<S>, round: Round) -> StatusAnd<DoubleDouble>
    ensures pair { Gives (IsPairFrom (format_of S.Flagged) round x) result }
    ensures exact { Gives (IsExactPairFrom (format_of S.Flagged) x) result }
{
    let mut loses_info = false;
    split_answer(x.convert_r(round, &mut loses_info))
}
