//! Products and fused sums in every format, however many digits it has.

ghost use Rattle.apfloat_model.specs.{declared.kinds.Round.TheVariants.NearestTiesToEven, rounding.Flags.Gives};
ghost use Rattle.apfloat_model.specs.arithmetic.{Products.IsProduct, FusedSums.IsFusedSum};
ghost use Rattle.apfloat_ieee.specs.FlaggedTypes.{format_of};

use crate::flagged::Flagged;
use crate::ieee_float::{IeeeFloat, shape_of};
use crate::products::product;
use apfloat_arithmetic::wide_fused::multiply_add_at_every_precision;
use apfloat_arithmetic::wide_products::multiply_at_every_precision;
use apfloat_base::{FUSED_LIMIT, PRODUCT_LIMIT, Round, StatusAnd};

impl<S: Flagged> IeeeFloat<S> {
    /// `self * rhs`, rounded once (IEEE 754-2019 5.4.1, multiplication), in a format of any precision.
    ///
    /// The result is that of `mul_r`, which only formats of at most `PRODUCT_LIMIT` digits have.
    #[inline(always)]
    pub fn wide_mul_r(self, rhs: Self, round: Round) -> StatusAnd<Self>
        ensures { Gives (IsProduct (format_of S.Flagged) round self rhs) result }
    {
        if S::PRECISION <= PRODUCT_LIMIT {
            return product(self, rhs, round);
        }
        IeeeFloat::answered(multiply_at_every_precision(
            shape_of::<S>(),
            self.unpacked(),
            rhs.unpacked(),
            round,
        ))
    }

    /// `self * rhs`, rounded once to the nearest value, ties to even, in a format of any precision.
    #[inline]
    pub fn wide_mul(self, rhs: Self) -> StatusAnd<Self>
        ensures { Gives (IsProduct (format_of S.Flagged) NearestTiesToEven self rhs) result }
    {
        self.wide_mul_r(rhs, Round::NearestTiesToEven)
    }

    /// `self * multiplicand + addend`, rounded once (IEEE 754-2019 5.4.1, fusedMultiplyAdd), in a format of any
    /// precision.
    ///
    /// The result is that of `mul_add_r`, which only formats of at most `FUSED_LIMIT` digits have.
    #[inline(always)]
    pub fn wide_mul_add_r(self, multiplicand: Self, addend: Self, round: Round) -> StatusAnd<Self>
        ensures { Gives (IsFusedSum (format_of S.Flagged) round self multiplicand addend) result }
    {
        if S::PRECISION <= FUSED_LIMIT {
            return self.mul_add_r(multiplicand, addend, round);
        }
        IeeeFloat::answered(multiply_add_at_every_precision(
            shape_of::<S>(),
            self.unpacked(),
            multiplicand.unpacked(),
            addend.unpacked(),
            round,
        ))
    }

    /// `self * multiplicand + addend`, rounded once to the nearest value, ties to even, in a format of any precision.
    #[inline]
    pub fn wide_mul_add(self, multiplicand: Self, addend: Self) -> StatusAnd<Self>
        ensures { Gives (IsFusedSum (format_of S.Flagged) NearestTiesToEven self multiplicand
            addend) result }
    {
        self.wide_mul_add_r(multiplicand, addend, Round::NearestTiesToEven)
    }
}
