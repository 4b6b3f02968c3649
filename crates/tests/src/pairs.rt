//! Sums of doubles as pairs, with error bounds that follow from the clauses of `+` alone.

ghost use Rattle.std.specs.Prelude.{◌≡◌, ◌+◌, ◌+ℤ◌};
ghost use Rattle.rustc_apfloat.specs.{Exact.magnitude, Members.IsMember, Order.number, PairFormats.double, Pairs.alone};
ghost use Rattle.rustc_apfloat.specs.PairAccuracy.{sum_reach, IsClosePair, IsExactPair};
ghost use Rattle.tests.specs.Summands.{reach_of_three, IsPlainSummand};

use rustc_apfloat::Float;
use rustc_apfloat::ieee::Double;
use rustc_apfloat::ppc::DoubleDouble;

/// A double as a pair, with low part +0.
fn alone(x: Double) -> DoubleDouble
    ensures pair { result ≡ alone x }
    ensures member { IsMember double x }
{
    // `category` ensures that a double belongs to its format.
    let _ = x.category();
    DoubleDouble::from_bits(x.to_bits())
}

/// The exact sum of two doubles of magnitude at most 2^1022.
pub fn exact_sum(x: Double, y: Double) -> DoubleDouble
    requires first { IsPlainSummand sum_reach x }
    requires second { IsPlainSummand sum_reach y }
    ensures { IsExactPair (number x +ℤ number y) 1 result }
{
    (alone(x) + alone(y)).value
}

/// The sum of three doubles of magnitude at most 2^1020. The error is at most 2^-103 times the sum of the magnitudes of
/// `x + y` and `z`.
pub fn sum_of_three(x: Double, y: Double, z: Double) -> DoubleDouble
    requires first { IsPlainSummand reach_of_three x }
    requires second { IsPlainSummand reach_of_three y }
    requires third { IsPlainSummand reach_of_three z }
    ensures { IsClosePair ((number x +ℤ number y) +ℤ number z) 1 103
        (magnitude (number x +ℤ number y) + magnitude (number z)) result }
{
    (exact_sum(x, y) + alone(z)).value
}
