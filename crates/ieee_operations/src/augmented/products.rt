//! Augmented products (IEEE 754-2019 9.5).
//!
//! A fused sum takes the rounded product from the exact one. If what is left is exact, the product is the exact sum of
//! two values, and the augmented sum of these is the answer. It is not exact in two cases: far past the largest value,
//! and where the product has digits below the quantum. Such a product is so small that it can be doubled, and of twice
//! the product no digit is below the quantum exactly if the product is halfway between two quanta.

ghost use Rattle.std.specs.Prelude.{◌≡◌, true, false};
ghost use Rattle.apfloat_model.specs.rounding.Flags.{bits_of};
ghost use Rattle.apfloat_model.specs.order.Classes.{is_finite, is_finite_non_zero};
ghost use Rattle.apfloat_ieee.specs.FlaggedTypes.{format_of};
ghost use Rattle.ieee_operations.specs.augmented.{Augmented.IsAugmentedProduct, Numbers.IsAugmentedNumber};
ghost use Rattle.ieee_operations.specs.augmented.Numbers.{IsNonzeroIn, IsNearProduct, LeavesDigits, IsTwiceLeft};

use crate::augmented::augmented::{Augmented, both, past_largest, with_rounded_tail};
use crate::augmented::sums::{augmented_add, is_exactly, is_number, is_ok};
use apfloat_base::{Category, Float, Round, StatusAnd};
use apfloat_ieee::{Flagged, IeeeFloat};

/// augmentedMultiplication (9.5): the product, rounded to nearest with ties toward zero, and what that leaves of the
/// exact product.
///
/// If the head is past the largest value, both results are the infinity of its sign, or the NaN in its place, with
/// `OVERFLOW` and `INEXACT`; a magnitude exactly halfway past the largest value is not. If the exact product has digits
/// below the smallest denormal value, the tail is what the head leaves, rounded in the same way, with `UNDERFLOW` and
/// `INEXACT`; a zero that this rounding makes keeps the sign of what was rounded. Otherwise the tail is exact, no flag
/// is raised, and a tail of zero has the sign of the head. If an operand is zero, an infinity or a NaN, both results
/// are that of `wide_mul_r`, with its flags.
pub fn augmented_multiply<S: Flagged>(x: IeeeFloat<S>, y: IeeeFloat<S>) -> StatusAnd<Augmented<S>>
    ensures { IsAugmentedProduct (format_of S.Flagged) x y result.value.head result.value.tail
        (bits_of result.status) }
{
    if is_nonzero(x) && is_nonzero(y) {
        nonzero_product(x, y)
    } else {
        both(x.wide_mul_r(y, Round::NearestTiesToEven))
    }
}

/// The augmented product of two nonzero numbers.
fn nonzero_product<S: Flagged>(x: IeeeFloat<S>, y: IeeeFloat<S>) -> StatusAnd<Augmented<S>>
    requires left { IsNonzeroIn (format_of S.Flagged) x }
    requires right { IsNonzeroIn (format_of S.Flagged) y }
    ensures { IsAugmentedProduct (format_of S.Flagged) x y result.value.head result.value.tail
        (bits_of result.status) }
{
    let near = x.wide_mul_r(y, Round::NearestTiesToEven).value;
    if is_number(near) {
        within_product(x, y, near)
    } else {
        past_product(x, y, near)
    }
}

/// The augmented product of two nonzero numbers whose product to nearest is finite.
fn within_product<S: Flagged>(
    x: IeeeFloat<S>,
    y: IeeeFloat<S>,
    near: IeeeFloat<S>,
) -> StatusAnd<Augmented<S>>
    requires product { IsNearProduct (format_of S.Flagged) x y near }
    requires near { IsAugmentedNumber (format_of S.Flagged) near }
    ensures { IsAugmentedProduct (format_of S.Flagged) x y result.value.head result.value.tail
        (bits_of result.status) }
{
    let rest = x.wide_mul_add_r(y, -near, Round::NearestTiesToEven);
    if is_ok(rest.status) {
        augmented_add(near, rest.value)
    } else {
        tiny_product(x, y, near)
    }
}

/// The augmented product of two nonzero numbers whose product to nearest is past the largest value: if the product is
/// halfway past that value, half a unit is left exactly.
fn past_product<S: Flagged>(
    x: IeeeFloat<S>,
    y: IeeeFloat<S>,
    near: IeeeFloat<S>,
) -> StatusAnd<Augmented<S>>
    requires product { IsNearProduct (format_of S.Flagged) x y near }
    requires past { is_finite near ≡ false }
    ensures { IsAugmentedProduct (format_of S.Flagged) x y result.value.head result.value.tail
        (bits_of result.status) }
{
    let largest = x.wide_mul_r(y, Round::TowardZero).value;
    let rest = x.wide_mul_add_r(y, -largest, Round::NearestTiesToEven);
    if is_ok(rest.status) {
        augmented_add(largest, rest.value)
    } else {
        past_largest(near)
    }
}

/// The augmented product of two nonzero numbers that has digits below the quantum, so that what its rounding to nearest
/// leaves is not exact.
///
/// Only halfway between two quanta is twice the rest exact: there the tail is a tie. The head is one only if the
/// product toward zero leaves half a quantum, because neighbours that are more than one quantum apart are an even
/// number of quanta apart.
fn tiny_product<S: Flagged>(
    x: IeeeFloat<S>,
    y: IeeeFloat<S>,
    near: IeeeFloat<S>,
) -> StatusAnd<Augmented<S>>
    requires product { IsNearProduct (format_of S.Flagged) x y near }
    requires near { IsAugmentedNumber (format_of S.Flagged) near }
    requires lost { LeavesDigits (format_of S.Flagged) x y near }
    ensures { IsAugmentedProduct (format_of S.Flagged) x y result.value.head result.value.tail
        (bits_of result.status) }
{
    let short = x.wide_mul_r(y, Round::TowardZero).value;
    let left = twice_left(x, y, short);
    if is_exactly(left.status, left.value.abs(), IeeeFloat::<S>::smallest()) {
        with_rounded_tail(x, y, short, Round::TowardZero)
    } else if is_ok(left.status) {
        with_rounded_tail(x, y, near, Round::TowardZero)
    } else {
        with_rounded_tail(x, y, near, Round::NearestTiesToEven)
    }
}

/// Twice what `head` leaves of `x * y`.
fn twice_left<S: Flagged>(
    x: IeeeFloat<S>,
    y: IeeeFloat<S>,
    head: IeeeFloat<S>,
) -> StatusAnd<IeeeFloat<S>>
    ensures { IsTwiceLeft (format_of S.Flagged) x y head result.value (bits_of result.status) }
{
    let double = x.scalbn(1);
    let double_head = head.scalbn(1);
    double.wide_mul_add_r(y, -double_head, Round::NearestTiesToEven)
}

/// Whether the value is a number other than zero.
fn is_nonzero<S: Flagged>(x: IeeeFloat<S>) -> bool
    ensures yes { result ≡ true → IsNonzeroIn (format_of S.Flagged) x }
    ensures no { result ≡ false → is_finite_non_zero x ≡ false }
{
    match x.category() {
        Category::Normal => true,
        Category::Zero => false,
        Category::Infinity => false,
        Category::NaN => false,
    }
}
