//! Products of pairs: each step is an operation on doubles in the mode, and the flags of all steps are joined.

ghost use Rattle.std.specs.Prelude.{◌≡◌};
ghost use Rattle.apfloat_model.specs.declared.kinds.Round.TheVariants.{NearestTiesToEven};
ghost use Rattle.apfloat_model.specs.rounding.{Flags.Gives, Flags.bits_of, Steps.Leads};
ghost use Rattle.apfloat_pair_theory.specs.{PairFormats.double, PairProducts.lost_of_product};
ghost use Rattle.apfloat_pair_theory.specs.PairProducts.{product_of_categories, product_of_numbers, IsPairProduct};
ghost use Rattle.apfloat_pair_theory.specs.PairAccuracy.{IsAccurateProduct, IsErrorFreeProduct};

use crate::double_doubles::DoubleFloat;
use crate::double_doubles::parts::category;
use crate::double_doubles::sums::closed;
use apfloat_base::{Category, Float, Round, Status, StatusAnd};
use apfloat_ieee::built_in_formats::Double;
use apfloat_model::unpack;

/// The error of the product `t` of the high parts, plus the products of a high part and a low part.
#[inline]
fn lost(x: DoubleFloat, y: DoubleFloat, t: Double, round: Round) -> StatusAnd<Double>
    ensures { Gives (Leads double round (lost_of_product x.high x.low y.high y.low t)) result }
{
    let DoubleFloat(a, b) = x;
    let DoubleFloat(c, d) = y;
    let mut status;
    let lost = unpack!(status =, a.mul_add_r(c, -t, round));
    let v = unpack!(status |=, a.mul_r(d, round));
    let w = unpack!(status |=, b.mul_r(c, round));
    let cross = unpack!(status |=, v.add_r(w, round));
    let tau = unpack!(status |=, lost.add_r(cross, round));
    status.and(tau)
}

/// The product of two pairs whose high parts are finite and nonzero.
#[inline]
fn product_of_numbers(x: DoubleFloat, y: DoubleFloat, round: Round) -> StatusAnd<DoubleFloat>
    ensures { Gives (Leads double round (product_of_numbers x y)) result }
{
    let mut status;
    let t = unpack!(status =, x.0.mul_r(y.0, round));
    if !t.is_finite_non_zero() {
        return status.and(DoubleFloat::alone(t));
    }
    let tau = unpack!(status |=, lost(x, y, t, round));
    closed(t, tau, status, round)
}

/// The product of two pairs of these categories.
#[inline]
fn product_of_categories(
    first: Category,
    second: Category,
    x: DoubleFloat,
    y: DoubleFloat,
    round: Round,
) -> StatusAnd<DoubleFloat>
    ensures { Gives (Leads double round (product_of_categories first second x y)) result }
{
    match (first, second) {
        (Category::NaN, _) => Status::OK.and(x),
        (_, Category::NaN) => Status::OK.and(y),
        (Category::Zero, Category::Infinity) | (Category::Infinity, Category::Zero) => {
            Status::OK.and(DoubleFloat::alone(Double::nan()))
        }
        (Category::Zero, _) | (Category::Infinity, _) => Status::OK.and(x),
        (_, Category::Zero) | (_, Category::Infinity) => Status::OK.and(y),
        (Category::Normal, Category::Normal) => product_of_numbers(x, y, round),
    }
}

/// The product of two pairs. Rounded to nearest, it is exact for doubles and accurate for normalized pairs.
#[inline]
pub(crate) fn product(x: DoubleFloat, y: DoubleFloat, round: Round) -> StatusAnd<DoubleFloat>
    ensures product { Gives (IsPairProduct round x y) result }
    ensures error_free { round ≡ NearestTiesToEven → IsErrorFreeProduct x y result.value }
    ensures accurate { round ≡ NearestTiesToEven → IsAccurateProduct x y result.value }
{
    product_of_categories(category(x), category(y), x, y, round)
}
