//! Fused sums of pairs of doubles.

ghost use Rattle.apfloat_model.specs.{declared.kinds.Round.TheVariants.NearestTiesToEven, rounding.Flags.Gives};
ghost use Rattle.rustc_apfloat.specs.double_double_operations.PairFusedSums.{IsPairFusedSum};

use crate::double_double_operations::wide::{joined, split_answer};
use crate::double_doubles::DoubleDouble;
use apfloat_base::{Round, StatusAnd};

/// `x * multiplicand + addend` (IEEE 754-2019 5.4.1, fusedMultiplyAdd): the pairs are joined, the exact result is
/// rounded once to the 106 digits of the wide format, and it is split. The status is that of the rounding.
///
/// A pair whose parts are more than 106 digits apart is rounded when it is joined, as for a quotient. Zeros, infinities
/// and NaNs are treated as by `IeeeFloat::mul_add_r`.
pub fn pair_mul_add_r(
    x: DoubleDouble,
    multiplicand: DoubleDouble,
    addend: DoubleDouble,
    round: Round,
) -> StatusAnd<DoubleDouble>
    ensures { Gives (IsPairFusedSum round x multiplicand addend) result }
{
    split_answer(joined(x).wide_mul_add_r(joined(multiplicand), joined(addend), round))
}

/// `pair_mul_add_r`, rounded to the nearest value, ties to even.
pub fn pair_mul_add(
    x: DoubleDouble,
    multiplicand: DoubleDouble,
    addend: DoubleDouble,
) -> StatusAnd<DoubleDouble>
    ensures { Gives (IsPairFusedSum NearestTiesToEven x multiplicand addend) result }
{
    pair_mul_add_r(x, multiplicand, addend, Round::NearestTiesToEven)
}
