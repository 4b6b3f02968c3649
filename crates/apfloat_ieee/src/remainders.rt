//! Remainders of values of one format, and the operators `%` and `%=`.

ghost use Rattle.std.specs.Prelude.{◌≡◌, ℤ, ◌<◌, pos, ◌+ℤ◌, ◌-ℤ◌, ◌≤ℤ◌};
ghost use Rattle.apfloat_model.specs.{declared.status.StatusAnd.StatusAnd, rounding.Flags.Gives};
ghost use Rattle.apfloat_model.specs.arithmetic.Exponents.{IsIlogb};
ghost use Rattle.apfloat_model.specs.arithmetic.Remainders.{IsTruncatedRemainder, ones_of_quotient};
ghost use Rattle.apfloat_ieee.specs.FlaggedTypes.{format_of};

use crate::flagged::Flagged;
use crate::ieee_float::{IeeeFloat, shape_of};
use apfloat_arithmetic::remainders::{counted_remainder, truncated_remainder};
use apfloat_base::StatusAnd;
use std::ops::{Rem, RemAssign};

/// The remainder by the quotient truncated toward zero, which is exact.
#[inline]
pub(crate) fn truncated<S: Flagged>(x: IeeeFloat<S>, y: IeeeFloat<S>) -> StatusAnd<IeeeFloat<S>>
    ensures { Gives (IsTruncatedRemainder (format_of S.Flagged) x y) result }
{
    IeeeFloat::answered(truncated_remainder(shape_of::<S>(), x.unpacked(), y.unpacked()))
}

impl<S: Flagged> IeeeFloat<S> {
    /// The remainder that `%` returns, and the number of subtractions that it takes to find it.
    ///
    /// Each step subtracts the greatest multiple of the divisor by a power of two (1 or more) that is not above the
    /// rest. So the number of steps is the number of ones among the binary digits of the quotient truncated toward
    /// zero, and, unless it is 0, at most `ilogb(self) - ilogb(rhs) + 1`. If an operand is zero, infinite or a NaN, it
    /// is 0.
    #[inline]
    pub fn c_fmod_steps(self, rhs: Self) -> (StatusAnd<Self>, u32)
        ensures answer { Gives (IsTruncatedRemainder (format_of S.Flagged) self rhs) result.0 }
        ensures steps { result.1 ≡ ones_of_quotient self rhs }
        ensures few { (a b : ℤ) → IsIlogb (format_of S.Flagged) self a
            → IsIlogb (format_of S.Flagged) rhs b → 0 < result.1
            → pos result.1 ≤ℤ ((a -ℤ b) +ℤ pos 1) }
    {
        let remainder = counted_remainder(shape_of::<S>(), self.unpacked(), rhs.unpacked());
        (IeeeFloat::answered(remainder.answer), remainder.steps)
    }
}

impl<S: Flagged> Rem for IeeeFloat<S> {
    type Output = StatusAnd<IeeeFloat<S>>;

    ghost rem_gives = { λ x y r. Gives (IsTruncatedRemainder (format_of S.Flagged) x y) r };

    /// The remainder by the quotient truncated toward zero, which is exact.
    #[inline]
    fn rem(self, rhs: IeeeFloat<S>) -> StatusAnd<IeeeFloat<S>> {
        truncated(self, rhs)
    }
}

impl<S: Flagged> RemAssign for IeeeFloat<S> {
    ghost rem_assign_gives = { λ x y z. (r : StatusAnd Self) ×
        Gives (IsTruncatedRemainder (format_of S.Flagged) x y) r × (z ≡ r.value) };

    /// Assigns the remainder that `%` returns; the status is discarded.
    #[inline]
    fn rem_assign(&mut self, rhs: IeeeFloat<S>) {
        *self = truncated(*self, rhs).value;
    }
}
