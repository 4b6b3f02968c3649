//! The order of values, and when two values are the same.

ghost use Rattle.std.specs.Prelude.{◌≡◌};
ghost use Rattle.std.specs.{Bool.Decides, Ordering.nat_cmp, Ordering.int_cmp};
ghost use Rattle.apfloat_model.specs.order.{Classes.is_nan, Classes.same_datum, Order.number, Order.compared};
ghost use Rattle.apfloat_rounding.specs.declared.shape.Shape.{Shape};
ghost use Rattle.apfloat_rounding.specs.Stored.{IsNormal, IsStored, datum_at, quanta_of};
ghost use Rattle.apfloat_arithmetic.specs.Sides.{side};

use apfloat_model::Category;
use apfloat_rounding::unpacked::Unpacked;
use std::cmp::Ordering;

/// The order of the magnitudes of two nonzero numbers: their significands have all digits, so the exponents are
/// compared first.
#[inline(always)]
pub fn compare_magnitudes(x: Unpacked, y: Unpacked) -> Ordering
    ensures { (shape : Shape) → IsNormal shape x → IsNormal shape y
        → result ≡ nat_cmp (quanta_of shape x) (quanta_of shape y) }
{
    x.exponent
        .cmp(&y.exponent)
        .then(x.significand.cmp(&y.significand))
}

/// Whether a value is a NaN.
#[inline(always)]
fn is_nan(x: Unpacked) -> bool
    ensures { (shape : Shape) → result ≡ is_nan (datum_at shape x) }
{
    match x.category {
        Category::NaN => true,
        Category::Infinity => false,
        Category::Normal => false,
        Category::Zero => false,
    }
}

/// The position of a value: below the numbers, among the negative ones, at zero, among the positive ones, above them.
#[inline(always)]
fn side(x: Unpacked) -> u8
    ensures { (shape : Shape) → IsStored shape x → result ≡ side (datum_at shape x) }
{
    match x.category {
        Category::Infinity => if x.negative { 0 } else { 4 },
        Category::Normal => if x.negative { 1 } else { 3 },
        Category::Zero => 2,
        Category::NaN => 2,
    }
}

/// The order of two values at the same position.
#[inline(always)]
fn compare_on_one_side(x: Unpacked, y: Unpacked) -> Ordering
    ensures { (shape : Shape) → IsStored shape x → IsStored shape y
        → side (datum_at shape x) ≡ side (datum_at shape y)
        → result ≡ int_cmp (number (datum_at shape x)) (number (datum_at shape y)) }
{
    match x.category {
        Category::Normal => {
            if x.negative {
                compare_magnitudes(y, x)
            } else {
                compare_magnitudes(x, y)
            }
        }
        Category::Infinity => Ordering::Equal,
        Category::Zero => Ordering::Equal,
        Category::NaN => Ordering::Equal,
    }
}

/// The numeric order of two values: both zeros are equal, the infinities are at the ends, and a NaN is unordered (IEEE
/// 754-2019 5.11).
#[inline(always)]
pub fn compare(x: Unpacked, y: Unpacked) -> Option<Ordering>
    ensures { (shape : Shape) → IsStored shape x → IsStored shape y
        → result ≡ compared (datum_at shape x) (datum_at shape y) }
{
    if is_nan(x) || is_nan(y) {
        return None;
    }
    Some(side(x).cmp(&side(y)).then(compare_on_one_side(x, y)))
}

/// Whether two values have the same class and the same sign.
#[inline(always)]
fn same_class(x: Unpacked, y: Unpacked) -> bool
    ensures { Decides result ((x.category ≡ y.category) × (x.negative ≡ y.negative)) }
{
    x.category == y.category && x.negative == y.negative
}

/// Whether two values have the same significand and the same exponent.
#[inline(always)]
fn same_number(x: Unpacked, y: Unpacked) -> bool
    ensures { Decides result ((x.significand ≡ y.significand) × (x.exponent ≡ y.exponent)) }
{
    x.significand == y.significand && x.exponent == y.exponent
}

/// Whether two values are the same: of the same class and sign, and with the same number or, for NaNs, the same
/// significand.
#[inline(always)]
pub fn is_same(x: Unpacked, y: Unpacked) -> bool
    ensures { (shape : Shape) → IsStored shape x → IsStored shape y
        → result ≡ same_datum (datum_at shape x) (datum_at shape y) }
{
    same_class(x, y) && same_number(x, y)
}
