//! Minima and maxima whose sign is chosen, as VRANGEPS of x86 and its forms give them.

ghost use Rattle.std.specs.Prelude.{◌≡◌};
ghost use Rattle.apfloat_model.specs.rounding.Flags.{Gives};
ghost use Rattle.apfloat_ieee.specs.FlaggedTypes.{format_of};
ghost use Rattle.apfloat_machines.specs.Ranges.{IsRange, in_range, with_sign_of};

use crate::nans::quieted;
use apfloat_base::{Float, Status, StatusAnd};
use apfloat_ieee::{Flagged, IeeeFloat};
use ieee_operations::{Extremum, extremum_number_of};

/// The sign of the result of `range`.
#[derive(Clone, Copy, PartialEq, Eq, Debug)]
pub enum RangeSign {
    /// That of the first operand.
    OfFirst,
    /// That of the operand that is chosen.
    OfChosen,
    /// Plus.
    Positive,
    /// Minus.
    Negative,
}

/// What VRANGEPS, VRANGEPD, VRANGESS and VRANGESD of AVX-512DQ compute.
#[derive(Clone, Copy, PartialEq, Eq, Debug)]
pub struct RangeRule {
    /// Which of two numbers is chosen: the values 0 to 3 of bits 1:0 of imm8, in the order of the enum.
    pub extremum: Extremum,
    /// The sign of the result: bits 3:2, in the order of the enum.
    pub sign: RangeSign,
}

/// The first signaling operand quieted, with INVALID_OP. Without one, the operand that the rule chooses, with the sign
/// that it asks for, and no flag: of a quiet NaN and a number the number, of two quiet NaNs the first.
pub fn range<S: Flagged>(
    rule: RangeRule,
    x: IeeeFloat<S>,
    y: IeeeFloat<S>,
) -> StatusAnd<IeeeFloat<S>>
    ensures { Gives (IsRange rule (format_of S.Flagged) x y) result }
{
    if x.is_signaling() || y.is_signaling() {
        Status::INVALID_OP.and(in_range(rule, x, y))
    } else {
        Status::OK.and(in_range(rule, x, y))
    }
}

/// The value of `range`.
fn in_range<S: Flagged>(rule: RangeRule, x: IeeeFloat<S>, y: IeeeFloat<S>) -> IeeeFloat<S>
    ensures { result ≡ in_range rule (format_of S.Flagged) x y }
{
    if x.is_signaling() {
        quieted(x)
    } else if y.is_signaling() {
        quieted(y)
    } else {
        with_sign_of(rule.sign, x, extremum_number_of(rule.extremum, x, y).value)
    }
}

/// The chosen operand with the sign that a rule asks for.
fn with_sign_of<S: Flagged>(
    sign: RangeSign,
    first: IeeeFloat<S>,
    chosen: IeeeFloat<S>,
) -> IeeeFloat<S>
    ensures { result ≡ with_sign_of sign (format_of S.Flagged) first chosen }
{
    match sign {
        RangeSign::OfFirst => chosen.copy_sign(first),
        RangeSign::OfChosen => chosen,
        RangeSign::Positive => chosen.abs(),
        RangeSign::Negative => -chosen.abs(),
    }
}
