//! Calls whose body is in the trait `Float`, each in one place: such a call takes seconds to prove, in each function
//! that makes it.

ghost use Rattle.std.specs.Prelude.{◌≤◌};

use rustc_apfloat::ieee::{IeeeFloat, Semantics};
use rustc_apfloat::{Category, ExpInt, Float, StatusAnd};

/// Whether a value is a number.
pub fn is_number<S: Semantics>(x: IeeeFloat<S>) -> bool {
    matches!(x.category(), Category::Zero | Category::Normal)
}

/// Whether a value is a nonzero number.
pub fn is_nonzero_number<S: Semantics>(x: IeeeFloat<S>) -> bool {
    matches!(x.category(), Category::Normal)
}

/// The value of an integer.
pub fn of_integer<S: Semantics>(integer: u128) -> StatusAnd<IeeeFloat<S>> {
    IeeeFloat::from_u128(integer)
}

/// The value as an integer of `width` bits.
pub fn to_integer<S: Semantics>(x: IeeeFloat<S>, width: usize) -> StatusAnd<u128>
    requires low { 1 ≤ width }
    requires high { width ≤ 128 }
{
    x.to_u128(width)
}

/// The next value down.
pub fn next_down<S: Semantics>(x: IeeeFloat<S>) -> StatusAnd<IeeeFloat<S>> {
    x.next_down()
}

/// The value times a power of two.
pub fn scaled<S: Semantics>(x: IeeeFloat<S>, exponent: ExpInt) -> IeeeFloat<S> {
    x.scalbn(exponent)
}

/// The positive quiet NaN without a payload.
pub fn quiet_nan<S: Semantics>() -> IeeeFloat<S> {
    IeeeFloat::nan()
}
