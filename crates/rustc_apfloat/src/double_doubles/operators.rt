//! The operators on pairs: each is a call, rounded to nearest, ties to even. Assigning operators discard the status.

ghost use Rattle.std.specs.Prelude.{◌≡◌};
ghost use Rattle.apfloat_model.specs.declared.{kinds.Round.TheVariants.NearestTiesToEven, status.StatusAnd.StatusAnd};
ghost use Rattle.apfloat_model.specs.rounding.Flags.{Gives, bits_of};
ghost use Rattle.apfloat_pair_theory.specs.{Pairs.negated_pair, PairSums.IsPairSum, PairSums.IsPairDifference};
ghost use Rattle.apfloat_pair_theory.specs.PairProducts.{IsPairProduct};
ghost use Rattle.apfloat_pair_theory.specs.PairAccuracy.{HasPlainStatus, IsAccurateDifference, IsAccurateProduct};
ghost use Rattle.apfloat_pair_theory.specs.PairAccuracy.{IsAccurateSum, IsErrorFreeDifference, IsErrorFreeProduct};
ghost use Rattle.apfloat_pair_theory.specs.PairAccuracy.{IsErrorFreeSum, IsExactQuotient, IsExactTruncatedRemainder};
ghost use Rattle.apfloat_pair_theory.specs.PairCalls.{IsPairQuotient, IsPairTruncatedRemainder};

use crate::double_doubles::DoubleFloat;
use crate::double_doubles::parts::negation;
use crate::double_doubles::products::product;
use crate::double_doubles::sums::{difference, sum};
use crate::double_doubles::wide::{quotient, truncated};
use apfloat_base::{Round, StatusAnd};
use std::ops::{
    Add, AddAssign, Div, DivAssign, Mul, MulAssign, Neg, Rem, RemAssign, Sub, SubAssign,
};

impl Neg for DoubleFloat {
    type Output = DoubleFloat;

    ghost neg_gives = { λ x r. r ≡ negated_pair x };

    /// The negation of both parts (IEEE 754-2019 5.5.1, negate); a low part that is zero, infinite or a NaN is
    /// unchanged.
    #[inline]
    fn neg(self) -> DoubleFloat {
        negation(self)
    }
}

impl Add for DoubleFloat {
    type Output = StatusAnd<DoubleFloat>;

    ghost add_gives = { λ x y r. Gives (IsPairSum NearestTiesToEven x y) r };

    /// The sum, each step rounded to the nearest value, ties to even.
    #[inline]
    fn add(self, rhs: DoubleFloat) -> StatusAnd<DoubleFloat>
        ensures sum { Gives (IsPairSum NearestTiesToEven self rhs) result }
        ensures error_free { IsErrorFreeSum self rhs result.value }
        ensures accurate { IsAccurateSum self rhs result.value }
        ensures plain { HasPlainStatus self rhs (bits_of result.status) }
    {
        sum(self, rhs, Round::NearestTiesToEven)
    }
}

impl Sub for DoubleFloat {
    type Output = StatusAnd<DoubleFloat>;

    ghost sub_gives = { λ x y r. Gives (IsPairDifference NearestTiesToEven x y) r };

    /// The difference, each step rounded to the nearest value, ties to even.
    #[inline]
    fn sub(self, rhs: DoubleFloat) -> StatusAnd<DoubleFloat>
        ensures difference { Gives (IsPairDifference NearestTiesToEven self rhs) result }
        ensures error_free { IsErrorFreeDifference self rhs result.value }
        ensures accurate { IsAccurateDifference self rhs result.value }
        ensures plain { HasPlainStatus self rhs (bits_of result.status) }
    {
        difference(self, rhs, Round::NearestTiesToEven)
    }
}

impl Mul for DoubleFloat {
    type Output = StatusAnd<DoubleFloat>;

    ghost mul_gives = { λ x y r. Gives (IsPairProduct NearestTiesToEven x y) r };

    /// The product, each step rounded to the nearest value, ties to even.
    #[inline]
    fn mul(self, rhs: DoubleFloat) -> StatusAnd<DoubleFloat>
        ensures product { Gives (IsPairProduct NearestTiesToEven self rhs) result }
        ensures error_free { IsErrorFreeProduct self rhs result.value }
        ensures accurate { IsAccurateProduct self rhs result.value }
    {
        product(self, rhs, Round::NearestTiesToEven)
    }
}

impl Div for DoubleFloat {
    type Output = StatusAnd<DoubleFloat>;

    ghost div_gives = { λ x y r. Gives (IsPairQuotient NearestTiesToEven x y) r };

    /// The quotient of the joined pairs, rounded once to 106 digits, to nearest, ties to even.
    #[inline]
    fn div(self, rhs: DoubleFloat) -> StatusAnd<DoubleFloat>
        ensures quotient { Gives (IsPairQuotient NearestTiesToEven self rhs) result }
        ensures exact { Gives (IsExactQuotient NearestTiesToEven self rhs) result }
    {
        quotient(self, rhs, Round::NearestTiesToEven)
    }
}

impl Rem for DoubleFloat {
    type Output = StatusAnd<DoubleFloat>;

    ghost rem_gives = { λ x y r. Gives (IsPairTruncatedRemainder x y) r };

    /// The remainder by the quotient truncated toward zero, which is exact for the joined pairs.
    #[inline]
    fn rem(self, rhs: DoubleFloat) -> StatusAnd<DoubleFloat>
        ensures remainder { Gives (IsPairTruncatedRemainder self rhs) result }
        ensures exact { Gives (IsExactTruncatedRemainder self rhs) result }
    {
        truncated(self, rhs)
    }
}

impl AddAssign for DoubleFloat {
    ghost add_assign_gives = { λ x y z. (r : StatusAnd Self)
        × Gives (IsPairSum NearestTiesToEven x y) r × (z ≡ r.value) };

    /// Assigns the sum that `+` returns; the status is discarded.
    #[inline]
    fn add_assign(&mut self, rhs: DoubleFloat) {
        *self = sum(*self, rhs, Round::NearestTiesToEven).value;
    }
}

impl SubAssign for DoubleFloat {
    ghost sub_assign_gives = { λ x y z. (r : StatusAnd Self)
        × Gives (IsPairDifference NearestTiesToEven x y) r × (z ≡ r.value) };

    /// Assigns the difference that `-` returns; the status is discarded.
    #[inline]
    fn sub_assign(&mut self, rhs: DoubleFloat) {
        *self = difference(*self, rhs, Round::NearestTiesToEven).value;
    }
}

impl MulAssign for DoubleFloat {
    ghost mul_assign_gives = { λ x y z. (r : StatusAnd Self)
        × Gives (IsPairProduct NearestTiesToEven x y) r × (z ≡ r.value) };

    /// Assigns the product that `*` returns; the status is discarded.
    #[inline]
    fn mul_assign(&mut self, rhs: DoubleFloat) {
        *self = product(*self, rhs, Round::NearestTiesToEven).value;
    }
}

impl DivAssign for DoubleFloat {
    ghost div_assign_gives = { λ x y z. (r : StatusAnd Self)
        × Gives (IsPairQuotient NearestTiesToEven x y) r × (z ≡ r.value) };

    /// Assigns the quotient that `/` returns; the status is discarded.
    #[inline]
    fn div_assign(&mut self, rhs: DoubleFloat) {
        *self = quotient(*self, rhs, Round::NearestTiesToEven).value;
    }
}

impl RemAssign for DoubleFloat {
    ghost rem_assign_gives = { λ x y z. (r : StatusAnd Self)
        × Gives (IsPairTruncatedRemainder x y) r × (z ≡ r.value) };

    /// Assigns the remainder that `%` returns; the status is discarded.
    #[inline]
    fn rem_assign(&mut self, rhs: DoubleFloat) {
        *self = truncated(*self, rhs).value;
    }
}
