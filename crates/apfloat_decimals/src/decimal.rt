//! Decimals as values of a format.

ghost use Rattle.apfloat_model.specs.formats.Formats.{half_constants, single_constants, double_constants};
ghost use Rattle.apfloat_model.specs.formats.Formats.{quad_constants, bfloat_constants, e5m2_constants};
ghost use Rattle.apfloat_model.specs.formats.Formats.{e4m3fn_constants, e4m3fnuz_constants, x87_constants};
ghost use Rattle.apfloat_model.specs.formats.Formats.{e4m3_constants, e5m2fnuz_constants, e4m3b11fnuz_constants};
ghost use Rattle.apfloat_model.specs.{formats.Formats.tf32_constants, formats.Lawful.format_with, rounding.Flags.Gives};
ghost use Rattle.apfloat_ieee.specs.FlaggedTypes.{format_of};
ghost use Rattle.apfloat_decimals.specs.Decimals.{IsDecimalDelivery, HasQuadExponents};

use crate::scaling::{nearest, scaled};
use apfloat_base::{ExpInt, Round, StatusAnd};
use apfloat_ieee::{Flagged, IeeeFloat, deliver};
use apfloat_model::Loss;

/// The number `digits * 10^exponent`, with a sign.
#[derive(Clone, Copy, PartialEq, Eq, Debug)]
pub struct Decimal {
    /// Whether the number is below zero, or a zero with a negative sign.
    pub negative: bool,
    /// Its digits, as an integer.
    pub digits: u128,
    /// The exponent of ten of the last digit.
    pub exponent: ExpInt,
}

/// The value of a decimal, rounded once to the format (IEEE 754-2019 5.12.2), with exactly the flags of that rounding.
///
/// The exponents of the format are within those of `Quad`, as in each built-in format; the decimal may have any
/// exponent. A zero keeps its sign if the format has signed zeros.
pub fn from_decimal<S: Flagged>(decimal: Decimal, round: Round) -> StatusAnd<IeeeFloat<S>>
    requires { HasQuadExponents (format_of S.Flagged) }
    ensures { Gives (IsDecimalDelivery (format_of S.Flagged) round decimal.negative
        decimal.digits decimal.exponent) result }
{
    if decimal.digits == 0 {
        return deliver::<S>(0, 0, Loss::ExactlyZero, round, decimal.negative);
    }
    let ratio = scaled(
        decimal.digits,
        nearest(decimal.exponent),
        S::PRECISION as u32,
    );
    deliver::<S>(
        ratio.significand,
        ratio.exponent,
        ratio.loss,
        round,
        decimal.negative,
    )
}

/// Each built-in format has the exponents that `from_decimal` requires.
pub fn built_in_formats()
    ensures half { HasQuadExponents (format_with half_constants) }
    ensures single { HasQuadExponents (format_with single_constants) }
    ensures double { HasQuadExponents (format_with double_constants) }
    ensures quad { HasQuadExponents (format_with quad_constants) }
    ensures bfloat { HasQuadExponents (format_with bfloat_constants) }
    ensures e5m2 { HasQuadExponents (format_with e5m2_constants) }
    ensures e4m3fn { HasQuadExponents (format_with e4m3fn_constants) }
    ensures e4m3fnuz { HasQuadExponents (format_with e4m3fnuz_constants) }
    ensures x87 { HasQuadExponents (format_with x87_constants) }
    ensures e4m3 { HasQuadExponents (format_with e4m3_constants) }
    ensures e5m2fnuz { HasQuadExponents (format_with e5m2fnuz_constants) }
    ensures e4m3b11fnuz { HasQuadExponents (format_with e4m3b11fnuz_constants) }
    ensures tf32 { HasQuadExponents (format_with tf32_constants) }
{}
