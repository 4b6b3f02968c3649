//! Terms of sums, in the order of their exponents.

ghost use Rattle.std.specs.Prelude.{◌≡◌, ◌⊎◌, ◌≤ℤ◌, if◌then◌else◌};

use crate::wide::Wide;
use apfloat_model::ExpInt;

/// `significand * 2^exponent` with a sign.
#[derive(Clone, Copy)]
pub struct Term {
    /// Whether the sign is minus.
    pub negative: bool,
    /// The exponent of the last digit.
    pub exponent: ExpInt,
    /// The digits, as an integer.
    pub significand: u128,
}

/// `significand * 2^exponent` with a sign, and a significand of two words.
#[derive(Clone, Copy)]
pub struct WideTerm {
    /// Whether the sign is minus.
    pub negative: bool,
    /// The exponent of the last digit.
    pub exponent: ExpInt,
    /// The digits, as an integer.
    pub significand: Wide,
}

/// Two terms, the first of which does not have the lower exponent.
#[derive(Clone, Copy)]
pub(crate) struct Ordered {
    pub high: Term,
    pub low: Term,
}

/// Two terms of two words, the first of which does not have the lower exponent.
#[derive(Clone, Copy)]
pub(crate) struct WideOrdered {
    pub high: WideTerm,
    pub low: WideTerm,
}

/// The terms, ordered by their exponents: field by field, so that a processor selects them without a branch.
#[inline(always)]
pub(crate) fn in_order_of_exponents(x: Term, y: Term) -> Ordered
    ensures order { result.low.exponent ≤ℤ result.high.exponent }
    ensures same { ((result.high ≡ x) × (result.low ≡ y)) ⊎ ((result.high ≡ y) × (result.low ≡ x)) }
{
    let is_ordered = x.exponent >= y.exponent;
    Ordered {
        high: Term {
            negative: either(is_ordered, x.negative, y.negative),
            exponent: either(is_ordered, x.exponent, y.exponent),
            significand: either(is_ordered, x.significand, y.significand),
        },
        low: Term {
            negative: either(is_ordered, y.negative, x.negative),
            exponent: either(is_ordered, y.exponent, x.exponent),
            significand: either(is_ordered, y.significand, x.significand),
        },
    }
}

/// The terms of two words, ordered by their exponents.
#[inline(always)]
pub(crate) fn wide_in_order_of_exponents(x: WideTerm, y: WideTerm) -> WideOrdered
    ensures order { result.low.exponent ≤ℤ result.high.exponent }
    ensures same { ((result.high ≡ x) × (result.low ≡ y)) ⊎ ((result.high ≡ y) × (result.low ≡ x)) }
{
    let is_ordered = x.exponent >= y.exponent;
    WideOrdered {
        high: WideTerm {
            negative: either(is_ordered, x.negative, y.negative),
            exponent: either(is_ordered, x.exponent, y.exponent),
            significand: either(is_ordered, x.significand, y.significand),
        },
        low: WideTerm {
            negative: either(is_ordered, y.negative, x.negative),
            exponent: either(is_ordered, y.exponent, x.exponent),
            significand: either(is_ordered, y.significand, x.significand),
        },
    }
}

/// The first if `is_first`, otherwise the second.
#[inline(always)]
pub(crate) fn either<T: Copy>(is_first: bool, first: T, second: T) -> T
    ensures { result ≡ (if is_first then first else second) }
{
    if is_first { first } else { second }
}
