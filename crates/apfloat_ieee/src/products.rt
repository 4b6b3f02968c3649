//! Products and quotients of values of one format, and the operators `*`, `/`, `*=` and `/=`.

ghost use Rattle.std.specs.Prelude.{◌≡◌, ◌≤◌};
ghost use Rattle.apfloat_model.specs.declared.{kinds.Round.TheVariants.NearestTiesToEven, status.StatusAnd.StatusAnd};
ghost use Rattle.apfloat_model.specs.{rounding.Flags.Gives, arithmetic.Exponents.IsExactInverse};
ghost use Rattle.apfloat_model.specs.arithmetic.Products.{IsProduct, IsOpposite, product_limit};
ghost use Rattle.apfloat_model.specs.arithmetic.Quotients.{IsQuotient};
ghost use Rattle.apfloat_ieee.specs.FlaggedTypes.{format_of};

use crate::flagged::Flagged;
use crate::ieee_float::{IeeeFloat, shape_of};
use apfloat_arithmetic::products::multiply;
use apfloat_arithmetic::quotients::divide;
use apfloat_base::{Round, StatusAnd};
use std::ops::{Div, DivAssign, Mul, MulAssign};

/// The product of two values, rounded once, in a format of at most `PRODUCT_LIMIT` digits.
#[inline(always)]
pub(crate) fn product<S: Flagged>(
    x: IeeeFloat<S>,
    y: IeeeFloat<S>,
    round: Round,
) -> StatusAnd<IeeeFloat<S>>
    requires { S.PRECISION ≤ product_limit }
    ensures product { Gives (IsProduct (format_of S.Flagged) round x y) result }
    ensures opposite { Gives (IsOpposite (format_of S.Flagged) round x y) result }
{
    IeeeFloat::answered(multiply(shape_of::<S>(), x.unpacked(), y.unpacked(), round))
}

/// The quotient of two values, rounded once.
#[inline(always)]
pub(crate) fn quotient<S: Flagged>(
    x: IeeeFloat<S>,
    y: IeeeFloat<S>,
    round: Round,
) -> StatusAnd<IeeeFloat<S>>
    ensures { Gives (IsQuotient (format_of S.Flagged) round x y) result }
{
    IeeeFloat::answered(divide(shape_of::<S>(), x.unpacked(), y.unpacked(), round))
}

impl<S: Flagged> Mul for IeeeFloat<S> {
    type Output = StatusAnd<IeeeFloat<S>>;

    ghost can_mul = { λ _ _. S.PRECISION ≤ product_limit };

    ghost mul_gives = { λ x y r. Gives (IsProduct (format_of S.Flagged) NearestTiesToEven x y)
        r };

    /// The product, rounded once to the nearest value, ties to even.
    #[inline]
    fn mul(self, rhs: IeeeFloat<S>) -> StatusAnd<IeeeFloat<S>> {
        product(self, rhs, Round::NearestTiesToEven)
    }
}

impl<S: Flagged> Div for IeeeFloat<S> {
    type Output = StatusAnd<IeeeFloat<S>>;

    ghost div_gives = { λ x y r. Gives (IsQuotient (format_of S.Flagged) NearestTiesToEven x y)
        r };

    /// The quotient, rounded once to the nearest value, ties to even.
    #[inline]
    fn div(self, rhs: IeeeFloat<S>) -> StatusAnd<IeeeFloat<S>> {
        quotient(self, rhs, Round::NearestTiesToEven)
    }
}

impl<S: Flagged> MulAssign for IeeeFloat<S> {
    ghost can_mul_assign = { λ _ _. S.PRECISION ≤ product_limit };

    ghost mul_assign_gives = { λ x y z. (r : StatusAnd Self) ×
        Gives (IsProduct (format_of S.Flagged) NearestTiesToEven x y) r × (z ≡ r.value) };

    /// Assigns the product that `*` returns; the status is discarded.
    #[inline]
    fn mul_assign(&mut self, rhs: IeeeFloat<S>) {
        *self = product(*self, rhs, Round::NearestTiesToEven).value;
    }
}

impl<S: Flagged> DivAssign for IeeeFloat<S> {
    ghost div_assign_gives = { λ x y z. (r : StatusAnd Self) ×
        Gives (IsQuotient (format_of S.Flagged) NearestTiesToEven x y) r × (z ≡ r.value) };

    /// Assigns the quotient that `/` returns; the status is discarded.
    #[inline]
    fn div_assign(&mut self, rhs: IeeeFloat<S>) {
        *self = quotient(*self, rhs, Round::NearestTiesToEven).value;
    }
}
