//! The operations on two values.

ghost use Rattle.std.specs.Prelude.{◌≡◌};
ghost use Rattle.formats_at_run_time.specs.{OfTwo.IsOfTwo, OfTwo.has_operation, Relations.relations_of};

use crate::value_type::ValueType;
use rustc_apfloat::{Float, Round, StatusAnd};

/// An operation on two values.
#[derive(Clone, Copy)]
pub enum Arithmetic {
    /// The first plus the second.
    Sum,
    /// The first minus the second.
    Difference,
    /// The first times the second.
    Product,
    /// The first divided by the second.
    Quotient,
    /// The remainder by the integer nearest to the quotient, ties to even.
    NearestRemainder,
    /// The remainder by the quotient truncated toward zero.
    TruncatedRemainder,
}

impl Arithmetic {
    /// Whether a type has the operation among the calls of `Float`.
    pub fn is_supported<F: Float>(self) -> bool
        ensures { result ≡ has_operation F.MULTIPLIES self }
    {
        match self {
            Arithmetic::Product => F::MULTIPLIES,
            _ => true,
        }
    }

    /// The result for two values. Remainders do not depend on the mode.
    pub fn answer<F: ValueType>(self, x: F, y: F, round: Round) -> StatusAnd<F>
        ensures { let of_type = relations_of F.Float.own F.partial_cmp F.takes_root in
            IsOfTwo of_type self round x y result }
    {
        match self {
            Arithmetic::Sum => x.add_r(y, round),
            Arithmetic::Difference => x.sub_r(y, round),
            Arithmetic::Product => x.wide_mul_r(y, round),
            Arithmetic::Quotient => x.div_r(y, round),
            Arithmetic::NearestRemainder => x.ieee_rem(y),
            Arithmetic::TruncatedRemainder => x.c_fmod(y),
        }
    }
}
