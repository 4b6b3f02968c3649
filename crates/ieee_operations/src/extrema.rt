//! Minima and maxima of two values, with their flags (IEEE 754-2019 9.6).
//!
//! `minimum` and `maximum` of `Float` return no status, and a NaN unchanged.

ghost use Rattle.std.specs.Prelude.{◌≡◌, true};
ghost use Rattle.apfloat_model.specs.{rounding.Flags.Gives, order.Classes.is_nan};
ghost use Rattle.apfloat_ieee.specs.FlaggedTypes.{format_of};
ghost use Rattle.ieee_operations.specs.declared.extrema.Extremum.TheVariants.{Minimum, Maximum, MinimumMagnitude};
ghost use Rattle.ieee_operations.specs.declared.extrema.Extremum.TheVariants.{MaximumMagnitude};
ghost use Rattle.ieee_operations.specs.Extrema.{IsExtremum, IsExtremumNumber, lesser, greater, chosen, propagated};
ghost use Rattle.ieee_operations.specs.Extrema.{preferred, quieted_datum};

use crate::comparisons::{is_invalid, status_if};
use crate::predicates::OnNan;
use crate::total_orders::numbers_in_order;
use apfloat_base::{Float, StatusAnd};
use apfloat_ieee::{Flagged, IeeeFloat};

/// Which of two numbers is returned. -0 is below +0.
#[derive(Clone, Copy, PartialEq, Eq, Debug)]
pub enum Extremum {
    /// The lesser one.
    Minimum,
    /// The greater one.
    Maximum,
    /// The one of lesser magnitude, and of equal magnitudes the lesser one.
    MinimumMagnitude,
    /// The one of greater magnitude, and of equal magnitudes the greater one.
    MaximumMagnitude,
}

/// The extremum of two values, or a quiet NaN if an operand is a NaN (9.6): the left one quieted if both are.
/// INVALID_OP is raised exactly if an operand is a signaling NaN; no other flag is.
pub fn extremum_of<S: Flagged>(
    which: Extremum,
    x: IeeeFloat<S>,
    y: IeeeFloat<S>,
) -> StatusAnd<IeeeFloat<S>>
    ensures { Gives (IsExtremum (format_of S.Flagged) which x y) result }
{
    status_if(is_invalid(OnNan::Quiet, x, y)).and(propagated(which, x, y))
}

/// The extremum of two values, or the number if the other operand is a NaN, even a signaling one (9.6). Of two NaNs,
/// the left one quieted. INVALID_OP is raised exactly if an operand is a signaling NaN; no other flag is.
pub fn extremum_number_of<S: Flagged>(
    which: Extremum,
    x: IeeeFloat<S>,
    y: IeeeFloat<S>,
) -> StatusAnd<IeeeFloat<S>>
    ensures { Gives (IsExtremumNumber (format_of S.Flagged) which x y) result }
{
    status_if(is_invalid(OnNan::Quiet, x, y)).and(preferred(which, x, y))
}

/// minimum (9.6): the lesser value, or a quiet NaN, as `extremum_of`.
pub fn minimum_of<S: Flagged>(x: IeeeFloat<S>, y: IeeeFloat<S>) -> StatusAnd<IeeeFloat<S>>
    ensures { Gives (IsExtremum (format_of S.Flagged) Minimum x y) result }
{
    extremum_of(Extremum::Minimum, x, y)
}

/// maximum (9.6): the greater value, or a quiet NaN, as `extremum_of`.
pub fn maximum_of<S: Flagged>(x: IeeeFloat<S>, y: IeeeFloat<S>) -> StatusAnd<IeeeFloat<S>>
    ensures { Gives (IsExtremum (format_of S.Flagged) Maximum x y) result }
{
    extremum_of(Extremum::Maximum, x, y)
}

/// minimumMagnitude (9.6): the value of lesser magnitude, or a quiet NaN, as `extremum_of`.
pub fn minimum_magnitude_of<S: Flagged>(x: IeeeFloat<S>, y: IeeeFloat<S>) -> StatusAnd<IeeeFloat<S>>
    ensures { Gives (IsExtremum (format_of S.Flagged) MinimumMagnitude x y) result }
{
    extremum_of(Extremum::MinimumMagnitude, x, y)
}

/// maximumMagnitude (9.6): the value of greater magnitude, or a quiet NaN, as `extremum_of`.
pub fn maximum_magnitude_of<S: Flagged>(x: IeeeFloat<S>, y: IeeeFloat<S>) -> StatusAnd<IeeeFloat<S>>
    ensures { Gives (IsExtremum (format_of S.Flagged) MaximumMagnitude x y) result }
{
    extremum_of(Extremum::MaximumMagnitude, x, y)
}

/// minimumNumber (9.6): the lesser value, or the only number, as `extremum_number_of`.
pub fn minimum_number_of<S: Flagged>(x: IeeeFloat<S>, y: IeeeFloat<S>) -> StatusAnd<IeeeFloat<S>>
    ensures { Gives (IsExtremumNumber (format_of S.Flagged) Minimum x y) result }
{
    extremum_number_of(Extremum::Minimum, x, y)
}

/// maximumNumber (9.6): the greater value, or the only number, as `extremum_number_of`.
pub fn maximum_number_of<S: Flagged>(x: IeeeFloat<S>, y: IeeeFloat<S>) -> StatusAnd<IeeeFloat<S>>
    ensures { Gives (IsExtremumNumber (format_of S.Flagged) Maximum x y) result }
{
    extremum_number_of(Extremum::Maximum, x, y)
}

/// minimumMagnitudeNumber (9.6): the value of lesser magnitude, or the only number, as `extremum_number_of`.
pub fn minimum_magnitude_number_of<S: Flagged>(
    x: IeeeFloat<S>,
    y: IeeeFloat<S>,
) -> StatusAnd<IeeeFloat<S>>
    ensures { Gives (IsExtremumNumber (format_of S.Flagged) MinimumMagnitude x y) result }
{
    extremum_number_of(Extremum::MinimumMagnitude, x, y)
}

/// maximumMagnitudeNumber (9.6): the value of greater magnitude, or the only number, as `extremum_number_of`.
pub fn maximum_magnitude_number_of<S: Flagged>(
    x: IeeeFloat<S>,
    y: IeeeFloat<S>,
) -> StatusAnd<IeeeFloat<S>>
    ensures { Gives (IsExtremumNumber (format_of S.Flagged) MaximumMagnitude x y) result }
{
    extremum_number_of(Extremum::MaximumMagnitude, x, y)
}

/// The extremum, or a NaN.
fn propagated<S: Flagged>(which: Extremum, x: IeeeFloat<S>, y: IeeeFloat<S>) -> IeeeFloat<S>
    ensures { result ≡ propagated (format_of S.Flagged) which x y }
{
    if x.is_nan() {
        quieted(x)
    } else if y.is_nan() {
        quieted(y)
    } else {
        chosen(which, x, y)
    }
}

/// The extremum, or the only number.
fn preferred<S: Flagged>(which: Extremum, x: IeeeFloat<S>, y: IeeeFloat<S>) -> IeeeFloat<S>
    ensures { result ≡ preferred (format_of S.Flagged) which x y }
{
    if x.is_nan() {
        if y.is_nan() { quieted(x) } else { y }
    } else if y.is_nan() {
        x
    } else {
        chosen(which, x, y)
    }
}

/// A NaN as a quiet one (6.2.3).
pub(crate) fn quieted<S: Flagged>(x: IeeeFloat<S>) -> IeeeFloat<S>
    requires { is_nan x ≡ true }
    ensures { result ≡ quieted_datum (format_of S.Flagged) x }
{
    x.scalbn(0)
}

/// The extremum of two values that are not NaNs.
fn chosen<S: Flagged>(which: Extremum, x: IeeeFloat<S>, y: IeeeFloat<S>) -> IeeeFloat<S>
    ensures { result ≡ chosen (format_of S.Flagged) which x y }
{
    match which {
        Extremum::Minimum => lesser(x, y),
        Extremum::Maximum => greater(x, y),
        Extremum::MinimumMagnitude => {
            if x.abs() < y.abs() {
                x
            } else if y.abs() < x.abs() {
                y
            } else {
                lesser(x, y)
            }
        }
        Extremum::MaximumMagnitude => {
            if y.abs() < x.abs() {
                x
            } else if x.abs() < y.abs() {
                y
            } else {
                greater(x, y)
            }
        }
    }
}

/// The lesser of two values that are not NaNs.
fn lesser<S: Flagged>(x: IeeeFloat<S>, y: IeeeFloat<S>) -> IeeeFloat<S>
    ensures { result ≡ lesser x y }
{
    if numbers_in_order(x, y) { x } else { y }
}

/// The greater of two values that are not NaNs.
fn greater<S: Flagged>(x: IeeeFloat<S>, y: IeeeFloat<S>) -> IeeeFloat<S>
    ensures { result ≡ greater x y }
{
    if numbers_in_order(y, x) { x } else { y }
}
