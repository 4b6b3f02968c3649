//! Negation (IEEE 754-2019 5.5.1).

ghost use Rattle.std.specs.Prelude.{◌≡◌, not};
ghost use Rattle.apfloat_model.specs.rounding.Negation.{negated};
ghost use Rattle.apfloat_rounding.specs.Stored.{IsStored, datum_at};

use apfloat_model::Category;
use apfloat_rounding::shape::Shape;
use apfloat_rounding::unpacked::{Unpacked, nan_of, zero_of};

/// The negated value; a zero or a NaN is unchanged if the format has no signs for it.
#[inline(always)]
pub fn negated(shape: Shape, x: Unpacked) -> Unpacked
    requires { IsStored shape x }
    ensures stored { IsStored shape result }
    ensures datum { datum_at shape result ≡ negated shape.nonfinite (datum_at shape x) }
{
    match x.category {
        Category::Zero => zero_of(shape, !x.negative),
        Category::NaN => nan_of(shape, !x.negative, x.significand),
        _ => turned(x),
    }
}

/// The stored form of the negated value.
#[inline(always)]
fn turned(x: Unpacked) -> Unpacked
    ensures { result ≡ record x { negative = not x.negative } }
{
    Unpacked {
        significand: x.significand,
        exponent: x.exponent,
        category: x.category,
        negative: !x.negative,
    }
}
