//! Square roots of pairs.

ghost use Rattle.apfloat_model.specs.{declared.kinds.Round.TheVariants.NearestTiesToEven, rounding.Flags.Gives};
ghost use Rattle.apfloat_pair_theory.specs.PairRoots.{IsPairRoot};

use crate::double_doubles::DoubleFloat;
use crate::double_doubles::join::joined;
use crate::double_doubles::wide::split_answer;
use apfloat_base::{Round, StatusAnd};

impl DoubleFloat {
    /// The square root (IEEE 754-2019 5.4.1, squareRoot): that of the exact sum of the parts, rounded once to 106
    /// binary digits, and split.
    #[inline]
    pub fn sqrt_r(self, round: Round) -> StatusAnd<DoubleFloat>
        ensures { Gives (IsPairRoot round self) result }
    {
        split_answer(joined(self).sqrt_r(round))
    }

    /// The square root, rounded to the nearest value, ties to even.
    #[inline]
    pub fn sqrt(self) -> StatusAnd<DoubleFloat>
        ensures { Gives (IsPairRoot NearestTiesToEven self) result }
    {
        self.sqrt_r(Round::NearestTiesToEven)
    }
}
