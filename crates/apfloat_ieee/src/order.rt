//! The order of the values of one format, `==` and `<`, and when two values are identical.

ghost use Rattle.std.specs.Prelude.{◌≡◌};
ghost use Rattle.apfloat_model.specs.order.Order.{compared};

use crate::flagged::Flagged;
use crate::ieee_float::IeeeFloat;
use apfloat_arithmetic::order;
use std::cmp::Ordering;

/// The numeric order of two values: both zeros are equal, the infinities are at the ends, and a NaN is unordered.
#[inline]
fn compare<S: Flagged>(x: IeeeFloat<S>, y: IeeeFloat<S>) -> Option<Ordering>
    ensures { result ≡ compared x y }
{
    order::compare(x.unpacked(), y.unpacked())
}

impl<S: Flagged> PartialEq for IeeeFloat<S> {
    ghost use Rattle.apfloat_model.specs.order.Order.{is_equal};
    ghost use Rattle.apfloat_model.proofs.order.OrderLaws.{equal_laws};

    ghost eq = { is_equal };

    ghost laws = { equal_laws };

    /// Whether both are the same number (IEEE 754-2019 5.11): both zeros are equal, and a NaN equals nothing.
    #[inline]
    fn eq(&self, other: &Self) -> bool {
        match compare(*self, *other) {
            Some(order) => order.is_eq(),
            None => false,
        }
    }
}

impl<S: Flagged> PartialOrd for IeeeFloat<S> {
    ghost use Rattle.apfloat_model.specs.order.Order.{compared};
    ghost use Rattle.apfloat_model.proofs.order.OrderLaws.{compared_laws};

    ghost partial_cmp = { compared };

    ghost laws = { compared_laws };

    /// The numeric order (IEEE 754-2019 5.11): both zeros are equal, the infinities are at the ends, and a NaN is
    /// unordered.
    #[inline]
    fn partial_cmp(&self, other: &Self) -> Option<Ordering> {
        compare(*self, *other)
    }
}
