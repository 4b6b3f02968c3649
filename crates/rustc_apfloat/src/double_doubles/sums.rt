//! Sums of pairs: each step is a sum or a difference of doubles in the mode, and the flags of all steps are joined.

ghost use Rattle.std.specs.Prelude.{◌≡◌, ℕ};
ghost use Rattle.apfloat_model.specs.declared.kinds.Category.TheVariants.{Infinity, Normal};
ghost use Rattle.apfloat_model.specs.declared.kinds.Round.{Round, TheVariants.NearestTiesToEven};
ghost use Rattle.apfloat_model.specs.order.Classes.{category_of};
ghost use Rattle.apfloat_model.specs.rounding.{Flags.Gives, Flags.bits_of, Steps.Leads};
ghost use Rattle.apfloat_pair_theory.specs.{PairFormats.double, Pairs.pair_category, PairSums.closing};
ghost use Rattle.apfloat_pair_theory.specs.PairSums.{finite_sum, greater, lesser, lost, sum_anew, sum_of_categories};
ghost use Rattle.apfloat_pair_theory.specs.PairSums.{sum_of_infinities, sum_of_numbers, IsPairSum, IsPairDifference};
ghost use Rattle.apfloat_pair_theory.specs.PairAccuracy.{HasPlainStatus, IsAccurateDifference, IsAccurateSum};
ghost use Rattle.apfloat_pair_theory.specs.PairAccuracy.{IsErrorFreeDifference, IsErrorFreeSum};

use crate::double_doubles::DoubleFloat;
use crate::double_doubles::parts::{category, negation};
use apfloat_base::{Category, Float, Round, Status, StatusAnd};
use apfloat_ieee::built_in_formats::Double;
use apfloat_model::unpack;
use std::cmp::Ordering;

/// The closing sum of a sum or a product: `z + zz`, with the error of that sum as the low part. `status` has the flags
/// of the steps so far.
#[inline]
pub(crate) fn closed(z: Double, zz: Double, status: Status, round: Round) -> StatusAnd<DoubleFloat>
    ensures { Gives (Leads double round (closing z zz (bits_of status))) result }
{
    let mut flags = status;
    let high = unpack!(flags |=, z.add_r(zz, round));
    if !high.is_finite() {
        return flags.and(DoubleFloat::alone(high));
    }
    let left = unpack!(flags |=, z.sub_r(high, round));
    let low = unpack!(flags |=, left.add_r(zz, round));
    flags.and(DoubleFloat(high, low))
}

/// The error of the sum `z` of the high parts, plus the low parts.
#[inline]
fn lost(x: DoubleFloat, y: DoubleFloat, z: Double, round: Round) -> StatusAnd<Double>
    ensures { Gives (Leads double round (lost x.high x.low y.high y.low z)) result }
{
    let DoubleFloat(a, aa) = x;
    let DoubleFloat(c, cc) = y;
    let mut status;
    let q = unpack!(status =, a.sub_r(z, round));
    let lost_of_c = unpack!(status |=, q.add_r(c, round));
    let z_again = unpack!(status |=, q.add_r(z, round));
    let gained = unpack!(status |=, z_again.sub_r(a, round));
    let lost = unpack!(status |=, lost_of_c.add_r(-gained, round));
    let with_aa = unpack!(status |=, lost.add_r(aa, round));
    let zz = unpack!(status |=, with_aa.add_r(cc, round));
    status.and(zz)
}

/// The sum of two pairs, if the sum of their high parts, `z`, is not infinite.
#[inline]
fn finite_sum(
    x: DoubleFloat,
    y: DoubleFloat,
    z: StatusAnd<Double>,
    round: Round,
) -> StatusAnd<DoubleFloat>
    ensures { Gives (Leads double round (finite_sum x y z.value (bits_of z.status))) result }
{
    let mut status = z.status;
    let zz = unpack!(status |=, lost(x, y, z.value, round));
    if zz.is_pos_zero() {
        Status::OK.and(DoubleFloat::alone(z.value))
    } else {
        closed(z.value, zz, status, round)
    }
}

/// The two high parts, the greater magnitude first; on a tie, the second part first.
#[inline]
fn by_magnitude(a: Double, c: Double) -> (Double, Double)
    requires first { category_of a ≡ Normal }
    requires second { category_of c ≡ Normal }
    ensures greater { result.0 ≡ greater a c }
    ensures lesser { result.1 ≡ lesser a c }
{
    if a.cmp_abs_normal(c) == Ordering::Greater {
        (a, c)
    } else {
        (c, a)
    }
}

/// The sum of two pairs, starting with the smallest part, if the sum of their high parts is infinite.
fn sum_anew(x: DoubleFloat, y: DoubleFloat, round: Round) -> StatusAnd<DoubleFloat>
    requires first { category_of x.high ≡ Normal }
    requires second { category_of y.high ≡ Normal }
    ensures { Gives (Leads double round (sum_anew x y)) result }
{
    let (greater, lesser) = by_magnitude(x.0, y.0);
    let mut status;
    let lows = unpack!(status =, y.1.add_r(x.1, round));
    let with_lesser = unpack!(status |=, lows.add_r(lesser, round));
    let z = unpack!(status |=, with_lesser.add_r(greater, round));
    if !z.is_finite() {
        return status.and(DoubleFloat::alone(z));
    }
    let zz = unpack!(status |=, x.1.add_r(y.1, round));
    let left = unpack!(status |=, greater.sub_r(z, round));
    let with_lesser = unpack!(status |=, left.add_r(lesser, round));
    let low = unpack!(status |=, with_lesser.add_r(zz, round));
    status.and(DoubleFloat(z, low))
}

/// The sum of two pairs whose high parts are finite and nonzero.
#[inline]
fn sum_of_numbers(x: DoubleFloat, y: DoubleFloat, round: Round) -> StatusAnd<DoubleFloat>
    requires first { category_of x.high ≡ Normal }
    requires second { category_of y.high ≡ Normal }
    ensures { Gives (Leads double round (sum_of_numbers x y)) result }
{
    let z = x.0.add_r(y.0, round);
    if z.value.is_infinite() {
        sum_anew(x, y, round)
    } else {
        finite_sum(x, y, z, round)
    }
}

/// The sum of two pairs whose high parts are infinite.
#[inline]
fn sum_of_infinities(x: DoubleFloat, y: DoubleFloat) -> StatusAnd<DoubleFloat>
    ensures { (mode : Round) → Gives (Leads double mode (sum_of_infinities x y)) result }
{
    if x.0.is_negative() == y.0.is_negative() {
        Status::OK.and(x)
    } else {
        Status::INVALID_OP.and(DoubleFloat::alone(Double::nan().copy_sign(x.0)))
    }
}

/// The sum of two pairs of these categories.
#[inline]
fn sum_of_categories(
    first: Category,
    second: Category,
    x: DoubleFloat,
    y: DoubleFloat,
    round: Round,
) -> StatusAnd<DoubleFloat>
    requires first { first ≡ pair_category x }
    requires second { second ≡ pair_category y }
    ensures { Gives (Leads double round (sum_of_categories first second x y)) result }
{
    match (first, second) {
        (Category::Infinity, Category::Infinity) => sum_of_infinities(x, y),
        (_, Category::Zero) | (Category::NaN, _) | (Category::Infinity, Category::Normal) => {
            Status::OK.and(x)
        }
        (Category::Zero, _) | (_, Category::NaN) | (_, Category::Infinity) => Status::OK.and(y),
        (Category::Normal, Category::Normal) => sum_of_numbers(x, y, round),
    }
}

/// The sum of two pairs. Rounded to nearest, it is exact for doubles and accurate for normalized pairs.
#[inline]
pub(crate) fn sum(x: DoubleFloat, y: DoubleFloat, round: Round) -> StatusAnd<DoubleFloat>
    ensures sum { Gives (IsPairSum round x y) result }
    ensures error_free { round ≡ NearestTiesToEven → IsErrorFreeSum x y result.value }
    ensures accurate { round ≡ NearestTiesToEven → IsAccurateSum x y result.value }
    ensures plain { round ≡ NearestTiesToEven → HasPlainStatus x y (bits_of result.status) }
{
    sum_of_categories(category(x), category(y), x, y, round)
}

/// The difference of two pairs: the sum with the negation of the second, with the accuracy of that sum.
#[inline]
pub(crate) fn difference(x: DoubleFloat, y: DoubleFloat, round: Round) -> StatusAnd<DoubleFloat>
    ensures difference { Gives (IsPairDifference round x y) result }
    ensures error_free { round ≡ NearestTiesToEven → IsErrorFreeDifference x y result.value }
    ensures accurate { round ≡ NearestTiesToEven → IsAccurateDifference x y result.value }
    ensures plain { round ≡ NearestTiesToEven → HasPlainStatus x y (bits_of result.status) }
{
    // The parts are doubles, as `category` ensures; this makes the difference exact.
    let _ = (category(x), category(y));
    sum(x, negation(y), round)
}
