//! Fused sums of values of one format.

ghost use Rattle.std.specs.Prelude.{◌≤◌};
ghost use Rattle.apfloat_model.specs.{declared.kinds.Round.TheVariants.NearestTiesToEven, rounding.Flags.Gives};
ghost use Rattle.apfloat_model.specs.arithmetic.FusedSums.{IsFusedSum, fused_limit};
ghost use Rattle.apfloat_ieee.specs.FlaggedTypes.{format_of};

use crate::flagged::Flagged;
use crate::ieee_float::{IeeeFloat, shape_of};
use apfloat_arithmetic::fused::multiply_add;
use apfloat_base::{Round, StatusAnd};

impl<S: Flagged> IeeeFloat<S> {
    /// `self * multiplicand + addend`, rounded once (IEEE 754-2019 5.4.1, fusedMultiplyAdd), in a format of at most
    /// `FUSED_LIMIT` digits.
    ///
    /// The product itself is never rounded, even if it is below the smallest denormal value or cancels the addend. An
    /// exact zero has the sign that the sum of the product and the addend has (6.3). An infinity times a zero is
    /// invalid (7.2): the result is the quiet NaN without a payload, with `INVALID_OP`, whatever the addend is. So is
    /// the sum of an infinite product and the opposite infinity. The first operand that is a NaN is returned quieted
    /// (6.2.3).
    #[inline(always)]
    pub fn mul_add_r(self, multiplicand: Self, addend: Self, round: Round) -> StatusAnd<Self>
        requires { S.PRECISION ≤ fused_limit }
        ensures { Gives (IsFusedSum (format_of S.Flagged) round self multiplicand addend) result }
    {
        IeeeFloat::answered(multiply_add(
            shape_of::<S>(),
            self.unpacked(),
            multiplicand.unpacked(),
            addend.unpacked(),
            round,
        ))
    }

    /// `self * multiplicand + addend`, rounded once to the nearest value, ties to even.
    #[inline]
    pub fn mul_add(self, multiplicand: Self, addend: Self) -> StatusAnd<Self>
        requires { S.PRECISION ≤ fused_limit }
        ensures { Gives (IsFusedSum (format_of S.Flagged) NearestTiesToEven self multiplicand
            addend) result }
    {
        self.mul_add_r(multiplicand, addend, Round::NearestTiesToEven)
    }
}
