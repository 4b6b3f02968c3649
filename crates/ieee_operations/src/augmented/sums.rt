//! Augmented sums and differences (IEEE 754-2019 9.5).
//!
//! Two modes say which neighbours the exact sum has. Of two values of which the second is not the greater in magnitude,
//! what a nearest sum leaves is computed exactly by two subtractions (Dekker), so a tie shows: the sum toward zero
//! leaves the opposite of what the sum to nearest leaves, or, past the largest value, half a unit in its last place.

ghost use Rattle.std.specs.Prelude.{◌≡◌, ◌^◌, ◌-◌, ◌≤◌, ◌+ℤ◌, ◌-ℤ◌, true, false};
ghost use Rattle.apfloat_model.specs.rounding.{Flags.bits_of, Rounding.ok_bits, Negation.negated};
ghost use Rattle.apfloat_model.specs.{arithmetic.Exact.magnitude, arithmetic.Signs.abs, formats.Datum.finite};
ghost use Rattle.apfloat_model.specs.order.{Classes.is_finite, Order.number, Order.is_equal};
ghost use Rattle.apfloat_ieee.specs.FlaggedTypes.{format_of};
ghost use Rattle.ieee_operations.specs.augmented.Augmented.{IsAugmentedSum, IsAugmentedDifference};
ghost use Rattle.ieee_operations.specs.augmented.Numbers.{HasNumber, IsAugmentedNumber, IsNearestTo};

use crate::augmented::augmented::{Augmented, both, past_largest, with_tail};
use apfloat_base::{Category, ExpInt, Float, Round, Status, StatusAnd};
use apfloat_ieee::{Flagged, IeeeFloat};

/// augmentedAddition (9.5): the sum, rounded to nearest with ties toward zero, and what that leaves of the exact sum,
/// which is always a value of the format.
///
/// If the head is past the largest value, both results are the infinity of its sign, or the NaN in its place, with
/// `OVERFLOW` and `INEXACT`; a magnitude exactly halfway past the largest value is not. Otherwise no flag is raised. An
/// exact zero has the sign that the sum to nearest has (6.3), and a tail of zero that of the head. If an operand is an
/// infinity or a NaN, both results are that of `add_r`, with its flags.
pub fn augmented_add<S: Flagged>(x: IeeeFloat<S>, y: IeeeFloat<S>) -> StatusAnd<Augmented<S>>
    ensures { IsAugmentedSum (format_of S.Flagged) x y result.value.head result.value.tail
        (bits_of result.status) }
{
    if is_number(x) && is_number(y) {
        finite_sum(x, y)
    } else {
        both(x.add_r(y, Round::NearestTiesToEven))
    }
}

/// augmentedSubtraction (9.5): `augmented_add` of `x` and `-y`, except that a NaN is not negated.
pub fn augmented_subtract<S: Flagged>(x: IeeeFloat<S>, y: IeeeFloat<S>) -> StatusAnd<Augmented<S>>
    ensures { IsAugmentedDifference (format_of S.Flagged) x y result.value.head
        result.value.tail (bits_of result.status) }
{
    if is_number(x) && is_number(y) {
        finite_sum(x, -y)
    } else {
        both(x.sub_r(y, Round::NearestTiesToEven))
    }
}

/// The augmented sum of two finite values.
fn finite_sum<S: Flagged>(x: IeeeFloat<S>, y: IeeeFloat<S>) -> StatusAnd<Augmented<S>>
    requires left { IsAugmentedNumber (format_of S.Flagged) x }
    requires right { IsAugmentedNumber (format_of S.Flagged) y }
    ensures { IsAugmentedSum (format_of S.Flagged) x y result.value.head result.value.tail
        (bits_of result.status) }
{
    if x.abs() < y.abs() {
        ordered_sum(y, x)
    } else {
        ordered_sum(x, y)
    }
}

/// The augmented sum of two finite values, the second of which is not the greater in magnitude.
fn ordered_sum<S: Flagged>(x: IeeeFloat<S>, y: IeeeFloat<S>) -> StatusAnd<Augmented<S>>
    requires left { IsAugmentedNumber (format_of S.Flagged) x }
    requires right { IsAugmentedNumber (format_of S.Flagged) y }
    requires order { magnitude (number y) ≤ magnitude (number x) }
    ensures { IsAugmentedSum (format_of S.Flagged) x y result.value.head result.value.tail
        (bits_of result.status) }
{
    let near = x.add_r(y, Round::NearestTiesToEven).value;
    let short = x.add_r(y, Round::TowardZero).value;
    let left = rest_of(x, y, short);
    if is_number(near) {
        let rest = rest_of(x, y, near).value;
        if is_exactly(left.status, left.value, -rest) {
            with_tail(short, left.value)
        } else {
            with_tail(near, rest)
        }
    } else if is_exactly(left.status, left.value.abs(), half_unit()) {
        with_tail(short, left.value)
    } else {
        past_largest(near)
    }
}

/// What `head` leaves of `x + y`; if the status is OK, that is exact, and it is if no value is nearer to the sum than
/// `head`.
fn rest_of<S: Flagged>(
    x: IeeeFloat<S>,
    y: IeeeFloat<S>,
    head: IeeeFloat<S>,
) -> StatusAnd<IeeeFloat<S>>
    requires left { IsAugmentedNumber (format_of S.Flagged) x }
    requires right { IsAugmentedNumber (format_of S.Flagged) y }
    requires head { IsAugmentedNumber (format_of S.Flagged) head }
    requires order { magnitude (number y) ≤ magnitude (number x) }
    ensures exact { bits_of result.status ≡ ok_bits
        → HasNumber ((number x +ℤ number y) -ℤ number head) result.value }
    ensures nearest { IsNearestTo (format_of S.Flagged).precision (number x +ℤ number y)
        (number head) → bits_of result.status ≡ ok_bits }
{
    let first = head.sub_r(x, Round::NearestTiesToEven);
    if is_ok(first.status) {
        y.sub_r(first.value, Round::NearestTiesToEven)
    } else {
        first
    }
}

/// Whether a result with that status is exact and equal to another value.
pub(crate) fn is_exactly<S: Flagged>(
    status: Status,
    value: IeeeFloat<S>,
    other: IeeeFloat<S>,
) -> bool
    ensures ok { result ≡ true → bits_of status ≡ ok_bits }
    ensures equal { result ≡ true → is_equal value other ≡ true }
    ensures no { result ≡ false → bits_of status ≡ ok_bits → is_equal value other ≡ false }
{
    is_ok(status) && value == other
}

/// Whether the value is finite.
pub(crate) fn is_number<S: Flagged>(x: IeeeFloat<S>) -> bool
    ensures yes { result ≡ true → IsAugmentedNumber (format_of S.Flagged) x }
    ensures no { result ≡ false → is_finite x ≡ false }
{
    match x.category() {
        Category::Normal => true,
        Category::Zero => true,
        Category::Infinity => false,
        Category::NaN => false,
    }
}

/// Whether no flag was raised.
pub(crate) fn is_ok(status: Status) -> bool
    ensures yes { result ≡ true → bits_of status ≡ ok_bits }
    ensures no { bits_of status ≡ ok_bits → result ≡ true }
{
    status == Status::OK
}

/// Half a unit in the last place of the largest value.
fn half_unit<S: Flagged>() -> IeeeFloat<S>
    ensures { result ≡ finite false (2 ^ ((format_of S.Flagged).span - 1)) }
{
    let places: ExpInt = S::MAX_EXP - S::MIN_EXP - 1;
    IeeeFloat::<S>::smallest().scalbn(places)
}
