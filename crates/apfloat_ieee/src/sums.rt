//! Sums and differences of values of one format, negation, and the operators `-`, `+`, `+=` and `-=`.

ghost use Rattle.std.specs.Prelude.{◌≡◌};
ghost use Rattle.apfloat_model.specs.declared.{kinds.Round.TheVariants.NearestTiesToEven, status.StatusAnd.StatusAnd};
ghost use Rattle.apfloat_model.specs.rounding.{Flags.Gives, Negation.negated};
ghost use Rattle.apfloat_model.specs.arithmetic.Sums.{IsSum, IsDifference, IsMonotone, IsNearby};
ghost use Rattle.apfloat_ieee.specs.FlaggedTypes.{format_of};

use crate::flagged::Flagged;
use crate::ieee_float::{IeeeFloat, shape_of};
use apfloat_arithmetic::signs::negated;
use apfloat_arithmetic::sums::{add, subtract};
use apfloat_base::{Round, StatusAnd};
use std::ops::{Add, AddAssign, Neg, Sub, SubAssign};

/// The sum of two values, rounded once. In a format with infinities it does not decrease as a finite `x` increases.
#[inline(always)]
pub(crate) fn sum<S: Flagged>(
    x: IeeeFloat<S>,
    y: IeeeFloat<S>,
    round: Round,
) -> StatusAnd<IeeeFloat<S>>
    ensures sum { Gives (IsSum (format_of S.Flagged) round x y) result }
    ensures monotone { IsMonotone (format_of S.Flagged) round x y result.value }
{
    IeeeFloat::answered(add(shape_of::<S>(), x.unpacked(), y.unpacked(), round))
}

/// The difference of two values, rounded once. It is exact for positive numbers of which neither is more than twice the
/// other.
#[inline(always)]
pub(crate) fn difference<S: Flagged>(
    x: IeeeFloat<S>,
    y: IeeeFloat<S>,
    round: Round,
) -> StatusAnd<IeeeFloat<S>>
    ensures difference { Gives (IsDifference (format_of S.Flagged) round x y) result }
    ensures nearby { Gives (IsNearby x y) result }
{
    IeeeFloat::answered(subtract(shape_of::<S>(), x.unpacked(), y.unpacked(), round))
}

impl<S: Flagged> Neg for IeeeFloat<S> {
    type Output = IeeeFloat<S>;

    ghost neg_gives = { λ x r. r ≡ negated (format_of S.Flagged).nonfinite x };

    /// The negated value (IEEE 754-2019 5.5.1, negate). A NaN is negated too; no flag is raised.
    #[inline]
    fn neg(self) -> IeeeFloat<S> {
        IeeeFloat::packed(negated(shape_of::<S>(), self.unpacked()))
    }
}

impl<S: Flagged> Add for IeeeFloat<S> {
    type Output = StatusAnd<IeeeFloat<S>>;

    ghost add_gives = { λ x y r. Gives (IsSum (format_of S.Flagged) NearestTiesToEven x y) r };

    /// The sum, rounded once to the nearest value, ties to even.
    #[inline]
    fn add(self, rhs: IeeeFloat<S>) -> StatusAnd<IeeeFloat<S>> {
        sum(self, rhs, Round::NearestTiesToEven)
    }
}

impl<S: Flagged> Sub for IeeeFloat<S> {
    type Output = StatusAnd<IeeeFloat<S>>;

    ghost sub_gives = { λ x y r. Gives
        (IsDifference (format_of S.Flagged) NearestTiesToEven x y) r };

    /// The difference, rounded once to the nearest value, ties to even.
    #[inline]
    fn sub(self, rhs: IeeeFloat<S>) -> StatusAnd<IeeeFloat<S>> {
        difference(self, rhs, Round::NearestTiesToEven)
    }
}

impl<S: Flagged> AddAssign for IeeeFloat<S> {
    ghost add_assign_gives = { λ x y z. (r : StatusAnd Self)
        × Gives (IsSum (format_of S.Flagged) NearestTiesToEven x y) r × (z ≡ r.value) };

    /// Assigns the sum that `+` returns; the status is discarded.
    #[inline]
    fn add_assign(&mut self, rhs: IeeeFloat<S>) {
        *self = sum(*self, rhs, Round::NearestTiesToEven).value;
    }
}

impl<S: Flagged> SubAssign for IeeeFloat<S> {
    ghost sub_assign_gives = { λ x y z. (r : StatusAnd Self)
        × Gives (IsDifference (format_of S.Flagged) NearestTiesToEven x y) r × (z ≡ r.value) };

    /// Assigns the difference that `-` returns; the status is discarded.
    #[inline]
    fn sub_assign(&mut self, rhs: IeeeFloat<S>) {
        *self = difference(*self, rhs, Round::NearestTiesToEven).value;
    }
}
