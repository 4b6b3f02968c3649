//! Values of the wide format, into which pairs are joined, and of which results are split.

ghost use Rattle.std.specs.Prelude.{◌≡◌};
ghost use Rattle.apfloat_pair_theory.specs.Pairs.{IsJoined, IsSplit};

use crate::double_doubles::{DoubleDouble, FallbackS};
use apfloat_base::StatusAnd;
use apfloat_ieee::IeeeFloat;

/// A value of the wide format.
pub(crate) type Wide = IeeeFloat<FallbackS>;

/// The exact sum of the parts of a pair, rounded once to the wide format.
#[inline]
pub(crate) fn joined(x: DoubleDouble) -> Wide
    ensures { IsJoined x result }
{
    Wide::from(x)
}

/// A value of the wide format as a pair.
#[inline]
fn split(x: Wide) -> DoubleDouble
    ensures { IsSplit x result }
{
    DoubleDouble::from(x)
}

/// A result of the wide format as a pair, with its status.
#[inline]
pub(crate) fn split_answer(answer: StatusAnd<Wide>) -> StatusAnd<DoubleDouble>
    ensures status { result.status ≡ answer.status }
    ensures value { IsSplit answer.value result.value }
{
    answer.status.and(split(answer.value))
}
