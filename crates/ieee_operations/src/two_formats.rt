//! Comparisons of values of two formats (IEEE 754-2019 5.6.1, 5.11).

ghost use Rattle.std.specs.Prelude.{◌≡◌, if◌then◌else◌};
ghost use Rattle.std.specs.declared.cmp.Ordering.TheVariants.{Less, Greater};
ghost use Rattle.std.specs.Ordering.{ordering_then};
ghost use Rattle.apfloat_model.specs.{declared.kinds.Category.TheVariants.Normal, rounding.Flags.Gives};
ghost use Rattle.apfloat_model.specs.{formats.Datum.infinite, order.Classes.category_of, order.Order.compared};
ghost use Rattle.apfloat_ieee.specs.FlaggedTypes.{format_of};
ghost use Rattle.ieee_operations.specs.TwoFormats.{IsComparisonBetween, compared_between, is_invalid_between};

use crate::comparisons::status_if;
use crate::predicates::{OnNan, Predicate};
use apfloat_base::{Category, Float, FloatConvert, Round, StatusAnd};
use apfloat_ieee::{Flagged, IeeeFloat};
use std::cmp::Ordering;

/// Whether a predicate holds of the exact values of two operands, which may have different formats. The only flag is
/// INVALID_OP, raised as `on_nan` says.
pub fn compare_between<S: Flagged, T: Flagged>(
    predicate: Predicate,
    on_nan: OnNan,
    x: IeeeFloat<S>,
    y: IeeeFloat<T>,
) -> StatusAnd<bool>
    ensures { Gives (IsComparisonBetween (format_of S.Flagged) (format_of T.Flagged) predicate
        on_nan x y) result }
{
    status_if(is_invalid_between(on_nan, x, y)).and(
        predicate.relations().has(relation_between(x, y)),
    )
}

/// The relation between the exact values of two operands, which may have different formats, as `partial_cmp` returns it
/// for one format.
pub fn relation_between<S: Flagged, T: Flagged>(
    x: IeeeFloat<S>,
    y: IeeeFloat<T>,
) -> Option<Ordering>
    ensures { result ≡ compared_between (format_of S.Flagged) (format_of T.Flagged) x y }
{
    match x.category() {
        Category::NaN => None,
        Category::Infinity => infinity_against(x.is_negative(), y),
        Category::Zero => IeeeFloat::<T>::zero().partial_cmp(&y),
        Category::Normal => number_against(x, y),
    }
}

/// Whether the comparison of two values is an invalid operation (7.2).
fn is_invalid_between<S: Flagged, T: Flagged>(
    on_nan: OnNan,
    x: IeeeFloat<S>,
    y: IeeeFloat<T>,
) -> bool
    ensures { result
        ≡ is_invalid_between (format_of S.Flagged) (format_of T.Flagged) on_nan x y }
{
    match on_nan {
        OnNan::Quiet => x.is_signaling() || y.is_signaling(),
        OnNan::Signaling => x.is_nan() || y.is_nan(),
    }
}

/// The relation between an infinity of that sign, in any format, and a value.
fn infinity_against<T: Flagged>(negative: bool, y: IeeeFloat<T>) -> Option<Ordering>
    ensures { result ≡ compared (infinite negative) y }
{
    match y.category() {
        Category::NaN => None,
        Category::Infinity => Some((!negative).cmp(&!y.is_negative())),
        Category::Zero => Some(away_from_zero(negative)),
        Category::Normal => Some(away_from_zero(negative)),
    }
}

/// The order of a value further from zero than another, on the side of that sign.
fn away_from_zero(negative: bool) -> Ordering
    ensures { result ≡ (if negative then Less else Greater) }
{
    if negative {
        Ordering::Less
    } else {
        Ordering::Greater
    }
}

/// The relation between a nonzero number and a value: that of the number truncated to the format of the value, unless
/// this equals the value and digits were cut off.
fn number_against<S: Flagged, T: Flagged>(x: IeeeFloat<S>, y: IeeeFloat<T>) -> Option<Ordering>
    requires { category_of x ≡ Normal }
    ensures { result ≡ compared_between (format_of S.Flagged) (format_of T.Flagged) x y }
{
    if y.category() == Category::NaN {
        return None;
    }
    let mut is_cut = false;
    let truncated: StatusAnd<IeeeFloat<T>> = x.convert_r(Round::TowardZero, &mut is_cut);
    match truncated.value.partial_cmp(&y) {
        Some(order) => Some(unless_cut(order, is_cut, x.is_negative())),
        None => None,
    }
}

/// The order of a number, from that of the truncated number.
fn unless_cut(order: Ordering, is_cut: bool, negative: bool) -> Ordering
    ensures { result
        ≡ (if is_cut then ordering_then order (if negative then Less else Greater) else order) }
{
    if is_cut {
        order.then(away_from_zero(negative))
    } else {
        order
    }
}
