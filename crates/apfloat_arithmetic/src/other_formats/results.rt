//! Results in the format of the target.

ghost use Rattle.std.specs.Prelude.{ℕ, ℤ};
ghost use Rattle.apfloat_model.specs.rounding.{Bounds.IsWithin, Bounds.exponent_bound, Outcome.Yields};
ghost use Rattle.apfloat_rounding.specs.{Shapes.format_at, Stored.IsStored, Stored.datum_at, Stored.GivesAt};
ghost use Rattle.apfloat_arithmetic.specs.other_formats.Operands.{IsTotalOf};
ghost use Rattle.apfloat_arithmetic.specs.other_formats.FormatOf.{IsNan, IsInfinity, total_to};

use crate::sums;
use apfloat_model::{NonfiniteBehavior, Round, Status, StatusAnd};
use apfloat_rounding::nans::status_of;
use apfloat_rounding::shape::Shape;
use apfloat_rounding::unpacked::{Unpacked, infinity_of};
use apfloat_words::U128Total;

/// Delivers a total of two numbers with these signs, rounded once. An exact zero has the sign that the mode gives it
/// (IEEE 754-2019 6.3).
#[inline(always)]
pub(crate) fn deliver_total_in(
    into: Shape,
    total: U128Total,
    left: bool,
    right: bool,
    round: Round,
) -> StatusAnd<Unpacked>
    requires { IsWithin exponent_bound total.exponent }
    ensures stored { IsStored into result.value }
    ensures delivered { (exact : ℤ) (places : ℕ) → IsTotalOf exact places total
        → GivesAt into (Yields (format_at into) round
        (total_to (format_at into) left right exact places)) result }
{
    sums::deliver_total(into, total, left, right, round)
}

/// An infinity, as conversion delivers it: exact, or the NaN in its place with INEXACT.
#[inline(always)]
pub(crate) fn infinity_in(into: Shape, negative: bool) -> StatusAnd<Unpacked>
    ensures stored { IsStored into result.value }
    ensures is { GivesAt into (IsInfinity (format_at into) negative) result }
{
    let status = match into.nonfinite {
        NonfiniteBehavior::IEEE754 => Status::OK,
        NonfiniteBehavior::NanOnly => Status::INEXACT,
        NonfiniteBehavior::NanNegativeZero => Status::INEXACT,
    };
    status.and(infinity_of(into, negative))
}

/// A NaN of the target, with INVALID_OP if an operand is signaling.
#[inline(always)]
pub(crate) fn nan_in(into: Shape, value: Unpacked, signaling: bool) -> StatusAnd<Unpacked>
    requires { IsStored into value }
    ensures stored { IsStored into result.value }
    ensures is { GivesAt into (IsNan signaling (datum_at into value)) result }
{
    status_of(signaling).and(value)
}
