//! The comparisons of two values of one format (IEEE 754-2019 5.6.1, 5.11).

ghost use Rattle.std.specs.Prelude.{◌≡◌, IsTrue};
ghost use Rattle.apfloat_model.specs.{rounding.Flags.Gives, rounding.Flags.bits_of, formats.Nan.invalid_if};
ghost use Rattle.apfloat_ieee.specs.FlaggedTypes.{format_of};
ghost use Rattle.ieee_operations.specs.declared.predicates.OnNan.TheVariants.{Quiet, Signaling};
ghost use Rattle.ieee_operations.specs.declared.predicates.Predicate.TheVariants.{Equal, NotEqual, Unordered, Ordered};
ghost use Rattle.ieee_operations.specs.declared.predicates.Predicate.TheVariants.{Greater, GreaterEqual, NotGreater};
ghost use Rattle.ieee_operations.specs.declared.predicates.Predicate.TheVariants.{Less, LessEqual, NotLess};
ghost use Rattle.ieee_operations.specs.declared.predicates.Predicate.TheVariants.{LessUnordered, GreaterUnordered};
ghost use Rattle.ieee_operations.specs.Comparisons.{IsComparison, is_invalid};

use crate::predicates::{OnNan, Predicate};
use apfloat_base::{Float, Status, StatusAnd};
use apfloat_ieee::{Flagged, IeeeFloat};

/// Whether a predicate holds of two values. The only flag is INVALID_OP, raised as `on_nan` says.
#[inline]
pub fn compare<S: Flagged>(
    predicate: Predicate,
    on_nan: OnNan,
    x: IeeeFloat<S>,
    y: IeeeFloat<S>,
) -> StatusAnd<bool>
    ensures { Gives (IsComparison (format_of S.Flagged) predicate on_nan x y) result }
{
    status_if(is_invalid(on_nan, x, y)).and(predicate.relations().has(x.partial_cmp(&y)))
}

/// Whether the comparison of two values is an invalid operation (7.2).
#[inline]
pub(crate) fn is_invalid<S: Flagged>(on_nan: OnNan, x: IeeeFloat<S>, y: IeeeFloat<S>) -> bool
    ensures { result ≡ is_invalid (format_of S.Flagged) on_nan x y }
{
    match on_nan {
        OnNan::Quiet => x.is_signaling() || y.is_signaling(),
        OnNan::Signaling => x.is_nan() || y.is_nan(),
    }
}

/// The status of a comparison.
#[inline]
pub(crate) fn status_if(invalid: bool) -> Status
    ensures { bits_of result ≡ invalid_if invalid }
{
    if invalid {
        Status::INVALID_OP
    } else {
        Status::OK
    }
}

/// compareQuietEqual (5.6.1): whether the values are equal.
/// INVALID_OP is raised exactly if either is a signaling NaN.
#[inline]
pub fn compare_quiet_equal<S: Flagged>(x: IeeeFloat<S>, y: IeeeFloat<S>) -> StatusAnd<bool>
    ensures { Gives (IsComparison (format_of S.Flagged) Equal Quiet x y) result }
{
    compare(Predicate::Equal, OnNan::Quiet, x, y)
}

/// compareQuietNotEqual (5.6.1): whether the values are not equal; a NaN equals nothing.
/// INVALID_OP is raised exactly if either is a signaling NaN.
#[inline]
pub fn compare_quiet_not_equal<S: Flagged>(x: IeeeFloat<S>, y: IeeeFloat<S>) -> StatusAnd<bool>
    ensures { Gives (IsComparison (format_of S.Flagged) NotEqual Quiet x y) result }
{
    compare(Predicate::NotEqual, OnNan::Quiet, x, y)
}

/// compareSignalingEqual (5.6.1): whether the values are equal.
/// INVALID_OP is raised exactly if either is a NaN.
#[inline]
pub fn compare_signaling_equal<S: Flagged>(x: IeeeFloat<S>, y: IeeeFloat<S>) -> StatusAnd<bool>
    ensures { Gives (IsComparison (format_of S.Flagged) Equal Signaling x y) result }
{
    compare(Predicate::Equal, OnNan::Signaling, x, y)
}

/// compareSignalingGreater (5.6.1): whether the left value is greater.
/// INVALID_OP is raised exactly if either is a NaN.
#[inline]
pub fn compare_signaling_greater<S: Flagged>(x: IeeeFloat<S>, y: IeeeFloat<S>) -> StatusAnd<bool>
    ensures { Gives (IsComparison (format_of S.Flagged) Greater Signaling x y) result }
{
    compare(Predicate::Greater, OnNan::Signaling, x, y)
}

/// compareSignalingGreaterEqual (5.6.1): whether the left value is greater, or the values are equal.
/// INVALID_OP is raised exactly if either is a NaN.
#[inline]
pub fn compare_signaling_greater_equal<S: Flagged>(
    x: IeeeFloat<S>,
    y: IeeeFloat<S>,
) -> StatusAnd<bool>
    ensures { Gives (IsComparison (format_of S.Flagged) GreaterEqual Signaling x y) result }
{
    compare(Predicate::GreaterEqual, OnNan::Signaling, x, y)
}

/// compareSignalingLess (5.6.1): whether the left value is less.
/// INVALID_OP is raised exactly if either is a NaN.
#[inline]
pub fn compare_signaling_less<S: Flagged>(x: IeeeFloat<S>, y: IeeeFloat<S>) -> StatusAnd<bool>
    ensures { Gives (IsComparison (format_of S.Flagged) Less Signaling x y) result }
{
    compare(Predicate::Less, OnNan::Signaling, x, y)
}

/// compareSignalingLessEqual (5.6.1): whether the left value is less, or the values are equal.
/// INVALID_OP is raised exactly if either is a NaN.
#[inline]
pub fn compare_signaling_less_equal<S: Flagged>(x: IeeeFloat<S>, y: IeeeFloat<S>) -> StatusAnd<bool>
    ensures { Gives (IsComparison (format_of S.Flagged) LessEqual Signaling x y) result }
{
    compare(Predicate::LessEqual, OnNan::Signaling, x, y)
}

/// compareSignalingNotEqual (5.6.1): whether the values are not equal; a NaN equals nothing.
/// INVALID_OP is raised exactly if either is a NaN.
#[inline]
pub fn compare_signaling_not_equal<S: Flagged>(x: IeeeFloat<S>, y: IeeeFloat<S>) -> StatusAnd<bool>
    ensures { Gives (IsComparison (format_of S.Flagged) NotEqual Signaling x y) result }
{
    compare(Predicate::NotEqual, OnNan::Signaling, x, y)
}

/// compareSignalingNotGreater (5.6.1): whether the left value is not greater.
/// INVALID_OP is raised exactly if either is a NaN.
#[inline]
pub fn compare_signaling_not_greater<S: Flagged>(
    x: IeeeFloat<S>,
    y: IeeeFloat<S>,
) -> StatusAnd<bool>
    ensures { Gives (IsComparison (format_of S.Flagged) NotGreater Signaling x y) result }
{
    compare(Predicate::NotGreater, OnNan::Signaling, x, y)
}

/// compareSignalingLessUnordered (5.6.1): whether the left value is less, or a value is a NaN.
/// INVALID_OP is raised exactly if either is a NaN.
#[inline]
pub fn compare_signaling_less_unordered<S: Flagged>(
    x: IeeeFloat<S>,
    y: IeeeFloat<S>,
) -> StatusAnd<bool>
    ensures { Gives (IsComparison (format_of S.Flagged) LessUnordered Signaling x y) result }
{
    compare(Predicate::LessUnordered, OnNan::Signaling, x, y)
}

/// compareSignalingNotLess (5.6.1): whether the left value is not less.
/// INVALID_OP is raised exactly if either is a NaN.
#[inline]
pub fn compare_signaling_not_less<S: Flagged>(x: IeeeFloat<S>, y: IeeeFloat<S>) -> StatusAnd<bool>
    ensures { Gives (IsComparison (format_of S.Flagged) NotLess Signaling x y) result }
{
    compare(Predicate::NotLess, OnNan::Signaling, x, y)
}

/// compareSignalingGreaterUnordered (5.6.1): whether the left value is greater, or a value is a NaN.
/// INVALID_OP is raised exactly if either is a NaN.
#[inline]
pub fn compare_signaling_greater_unordered<S: Flagged>(
    x: IeeeFloat<S>,
    y: IeeeFloat<S>,
) -> StatusAnd<bool>
    ensures { Gives (IsComparison (format_of S.Flagged) GreaterUnordered Signaling x y) result }
{
    compare(Predicate::GreaterUnordered, OnNan::Signaling, x, y)
}

/// compareQuietGreater (5.6.1): whether the left value is greater.
/// INVALID_OP is raised exactly if either is a signaling NaN.
#[inline]
pub fn compare_quiet_greater<S: Flagged>(x: IeeeFloat<S>, y: IeeeFloat<S>) -> StatusAnd<bool>
    ensures { Gives (IsComparison (format_of S.Flagged) Greater Quiet x y) result }
{
    compare(Predicate::Greater, OnNan::Quiet, x, y)
}

/// compareQuietGreaterEqual (5.6.1): whether the left value is greater, or the values are equal.
/// INVALID_OP is raised exactly if either is a signaling NaN.
#[inline]
pub fn compare_quiet_greater_equal<S: Flagged>(x: IeeeFloat<S>, y: IeeeFloat<S>) -> StatusAnd<bool>
    ensures { Gives (IsComparison (format_of S.Flagged) GreaterEqual Quiet x y) result }
{
    compare(Predicate::GreaterEqual, OnNan::Quiet, x, y)
}

/// compareQuietLess (5.6.1): whether the left value is less.
/// INVALID_OP is raised exactly if either is a signaling NaN.
#[inline]
pub fn compare_quiet_less<S: Flagged>(x: IeeeFloat<S>, y: IeeeFloat<S>) -> StatusAnd<bool>
    ensures { Gives (IsComparison (format_of S.Flagged) Less Quiet x y) result }
{
    compare(Predicate::Less, OnNan::Quiet, x, y)
}

/// compareQuietLessEqual (5.6.1): whether the left value is less, or the values are equal.
/// INVALID_OP is raised exactly if either is a signaling NaN.
#[inline]
pub fn compare_quiet_less_equal<S: Flagged>(x: IeeeFloat<S>, y: IeeeFloat<S>) -> StatusAnd<bool>
    ensures { Gives (IsComparison (format_of S.Flagged) LessEqual Quiet x y) result }
{
    compare(Predicate::LessEqual, OnNan::Quiet, x, y)
}

/// compareQuietUnordered (5.6.1): whether a value is a NaN.
/// INVALID_OP is raised exactly if either is a signaling NaN.
#[inline]
pub fn compare_quiet_unordered<S: Flagged>(x: IeeeFloat<S>, y: IeeeFloat<S>) -> StatusAnd<bool>
    ensures { Gives (IsComparison (format_of S.Flagged) Unordered Quiet x y) result }
{
    compare(Predicate::Unordered, OnNan::Quiet, x, y)
}

/// compareQuietNotGreater (5.6.1): whether the left value is not greater.
/// INVALID_OP is raised exactly if either is a signaling NaN.
#[inline]
pub fn compare_quiet_not_greater<S: Flagged>(x: IeeeFloat<S>, y: IeeeFloat<S>) -> StatusAnd<bool>
    ensures { Gives (IsComparison (format_of S.Flagged) NotGreater Quiet x y) result }
{
    compare(Predicate::NotGreater, OnNan::Quiet, x, y)
}

/// compareQuietLessUnordered (5.6.1): whether the left value is less, or a value is a NaN.
/// INVALID_OP is raised exactly if either is a signaling NaN.
#[inline]
pub fn compare_quiet_less_unordered<S: Flagged>(x: IeeeFloat<S>, y: IeeeFloat<S>) -> StatusAnd<bool>
    ensures { Gives (IsComparison (format_of S.Flagged) LessUnordered Quiet x y) result }
{
    compare(Predicate::LessUnordered, OnNan::Quiet, x, y)
}

/// compareQuietNotLess (5.6.1): whether the left value is not less.
/// INVALID_OP is raised exactly if either is a signaling NaN.
#[inline]
pub fn compare_quiet_not_less<S: Flagged>(x: IeeeFloat<S>, y: IeeeFloat<S>) -> StatusAnd<bool>
    ensures { Gives (IsComparison (format_of S.Flagged) NotLess Quiet x y) result }
{
    compare(Predicate::NotLess, OnNan::Quiet, x, y)
}

/// compareQuietGreaterUnordered (5.6.1): whether the left value is greater, or a value is a NaN.
/// INVALID_OP is raised exactly if either is a signaling NaN.
#[inline]
pub fn compare_quiet_greater_unordered<S: Flagged>(
    x: IeeeFloat<S>,
    y: IeeeFloat<S>,
) -> StatusAnd<bool>
    ensures { Gives (IsComparison (format_of S.Flagged) GreaterUnordered Quiet x y) result }
{
    compare(Predicate::GreaterUnordered, OnNan::Quiet, x, y)
}

/// compareQuietOrdered (5.6.1): whether neither value is a NaN.
/// INVALID_OP is raised exactly if either is a signaling NaN.
#[inline]
pub fn compare_quiet_ordered<S: Flagged>(x: IeeeFloat<S>, y: IeeeFloat<S>) -> StatusAnd<bool>
    ensures { Gives (IsComparison (format_of S.Flagged) Ordered Quiet x y) result }
{
    compare(Predicate::Ordered, OnNan::Quiet, x, y)
}
