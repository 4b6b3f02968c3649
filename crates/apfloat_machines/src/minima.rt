//! Minima and maxima of machines, by six rules.

ghost use Rattle.std.specs.Prelude.{◌≡◌, ◌<◌, if◌then◌else◌};
ghost use Rattle.apfloat_model.specs.{order.Classes.is_nan, rounding.Flags.Gives, rounding.Flags.bits_of};
ghost use Rattle.apfloat_model.specs.formats.Nan.{invalid_if};
ghost use Rattle.apfloat_ieee.specs.FlaggedTypes.{format_of};
ghost use Rattle.apfloat_machines.specs.Minima.{IsLeast, IsGreatest, extreme, is_invalid_extreme};

use crate::machine::Machine;
use crate::nans::{default_nan, machine_nan};
use apfloat_base::{Float, Status, StatusAnd};
use apfloat_ieee::{Flagged, IeeeFloat};
use ieee_operations::{maximum_of, minimum_of};

/// What the minimum or the maximum of two operands is if one is a NaN, or both are zeros. By the rules without another
/// remark, -0 is below +0, and INVALID_OP is raised exactly if an operand is a signaling NaN.
#[derive(Clone, Copy, PartialEq, Eq, Debug)]
pub enum MinimumRule {
    /// `x < y ? x : y`: of equal values, and with a NaN, the second operand as it is. Any NaN raises INVALID_OP.
    Second,
    /// The same, except that only a signaling NaN raises INVALID_OP.
    SecondQuietly,
    /// The first operand that is a NaN, as it is.
    FirstNan,
    /// minNum and maxNum (IEEE 754-2008 5.3.1): of a quiet NaN and a number, the number; with a signaling NaN, or of
    /// two NaNs, the machine's NaN.
    Number2008,
    /// minimumNumber and maximumNumber (IEEE 754-2019 9.6): of any NaN and a number, the number; of two NaNs, the
    /// machine's default NaN.
    Number2019,
    /// minimum and maximum (IEEE 754-2019 9.6): with a NaN, the machine's NaN.
    Propagated,
}

/// The lesser of two operands by a rule, with its flags. Only for a format with bits.
pub fn least<S: Flagged>(
    rule: MinimumRule,
    machine: Machine,
    x: IeeeFloat<S>,
    y: IeeeFloat<S>,
) -> StatusAnd<IeeeFloat<S>>
    requires { S.PRECISION < S.BITS }
    ensures { Gives (IsLeast rule (format_of S.Flagged) machine x y) result }
{
    status_of(rule, x, y).and(extreme(rule, machine, x < y, minimum_of(x, y).value, x, y))
}

/// The greater of two operands by a rule, with its flags. Only for a format with bits.
pub fn greatest<S: Flagged>(
    rule: MinimumRule,
    machine: Machine,
    x: IeeeFloat<S>,
    y: IeeeFloat<S>,
) -> StatusAnd<IeeeFloat<S>>
    requires { S.PRECISION < S.BITS }
    ensures { Gives (IsGreatest rule (format_of S.Flagged) machine x y) result }
{
    status_of(rule, x, y).and(extreme(rule, machine, y < x, maximum_of(x, y).value, x, y))
}

/// The extremum by a rule, given whether the first operand is strictly better, and the better one of two numbers.
fn extreme<S: Flagged>(
    rule: MinimumRule,
    machine: Machine,
    strictly: bool,
    best: IeeeFloat<S>,
    x: IeeeFloat<S>,
    y: IeeeFloat<S>,
) -> IeeeFloat<S>
    requires { S.PRECISION < S.BITS }
    ensures { result ≡ extreme rule (format_of S.Flagged) machine strictly best x y }
{
    match rule {
        MinimumRule::Second => if strictly { x } else { y },
        MinimumRule::SecondQuietly => if strictly { x } else { y },
        MinimumRule::FirstNan => {
            if x.is_nan() {
                x
            } else if y.is_nan() {
                y
            } else {
                best
            }
        }
        MinimumRule::Number2008 => {
            if (x.is_signaling() || y.is_signaling()) || (x.is_nan() && y.is_nan()) {
                machine_nan(machine, x, y)
            } else {
                number_or(best, x, y)
            }
        }
        MinimumRule::Number2019 => {
            if x.is_nan() && y.is_nan() {
                default_nan(machine)
            } else {
                number_or(best, x, y)
            }
        }
        MinimumRule::Propagated => {
            if x.is_nan() || y.is_nan() {
                machine_nan(machine, x, y)
            } else {
                best
            }
        }
    }
}

/// The operand beside a NaN, or the better one.
fn number_or<S: Flagged>(best: IeeeFloat<S>, x: IeeeFloat<S>, y: IeeeFloat<S>) -> IeeeFloat<S>
    ensures { result ≡ (if is_nan x then y else (if is_nan y then x else best)) }
{
    if x.is_nan() {
        y
    } else if y.is_nan() {
        x
    } else {
        best
    }
}

/// The flags of an extremum.
fn status_of<S: Flagged>(rule: MinimumRule, x: IeeeFloat<S>, y: IeeeFloat<S>) -> Status
    ensures { bits_of result ≡ invalid_if (is_invalid_extreme rule (format_of S.Flagged) x y) }
{
    let invalid = match rule {
        MinimumRule::Second => x.is_nan() || y.is_nan(),
        _ => x.is_signaling() || y.is_signaling(),
    };
    if invalid {
        Status::INVALID_OP
    } else {
        Status::OK
    }
}
