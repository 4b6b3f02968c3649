//! The text of a value for debugging: `(CATEGORY | SIGNIFICAND * 2^EXPONENT)`.
//!
//! The significand is decimal, directly preceded by the sign. For a nonzero number, it is an integer below
//! `2^PRECISION`, and the exponent is counted from the integer bit and at least `MIN_EXP`.

ghost use Rattle.apfloat_rounding.specs.Stored.{IsStored, IsNormal};

use crate::flagged::Flagged;
use crate::ieee_float::{IeeeFloat, shape_of};
use apfloat_base::{Category, ExpInt, NonfiniteBehavior};
use apfloat_rounding::shape::Shape;
use apfloat_rounding::unpacked::Unpacked;
use apfloat_words::steps_between;
use std::fmt;

/// The significand and the exponent of the integer bit that are shown for a value.
struct Text {
    significand: u128,
    exponent: ExpInt,
}

/// What is shown for a nonzero number; for a denormal one, the significand without the zeros after its last digit.
fn number_text(shape: Shape, x: Unpacked) -> Text
    requires { IsNormal shape x }
{
    if x.exponent < shape.min_exp {
        Text {
            significand: x.significand >> steps_between(shape.min_exp, x.exponent),
            exponent: shape.min_exp,
        }
    } else {
        Text {
            significand: x.significand,
            exponent: x.exponent,
        }
    }
}

/// The exponent shown for NaNs, counted from the integer bit.
fn nan_exponent(shape: Shape) -> ExpInt {
    match shape.nonfinite {
        NonfiniteBehavior::IEEE754 => shape.max_exp + 1,
        NonfiniteBehavior::NanOnly => shape.max_exp,
        NonfiniteBehavior::NanNegativeZero => shape.min_exp - 1,
    }
}

/// What is shown for a value.
fn text_of(shape: Shape, x: Unpacked) -> Text
    requires { IsStored shape x }
{
    match x.category {
        Category::Normal => number_text(shape, x),
        Category::Zero => Text {
            significand: 0,
            exponent: shape.min_exp - 1,
        },
        Category::Infinity => Text {
            significand: 0,
            exponent: shape.max_exp + 1,
        },
        Category::NaN => Text {
            significand: x.significand,
            exponent: nan_exponent(shape),
        },
    }
}

impl<S: Flagged> fmt::Debug for IeeeFloat<S> {
    fn fmt<W: fmt::Write>(&self, f: &mut fmt::Formatter<W>) -> fmt::Result {
        let x = self.unpacked();
        let Text {
            significand,
            exponent,
        } = text_of(shape_of::<S>(), x);
        let category = x.category;
        let sign = if x.negative { '-' } else { '+' };
        write!(f, "({category:?} | {sign}{significand} * 2^{exponent})")
    }
}
