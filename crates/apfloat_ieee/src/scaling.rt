//! Scaling by powers of two, with its status.

ghost use Rattle.apfloat_model.specs.rounding.Flags.{Gives};
ghost use Rattle.apfloat_conversions.specs.Scalings.{IsScaled};
ghost use Rattle.apfloat_ieee.specs.FlaggedTypes.{format_of};

use crate::flagged::Flagged;
use crate::ieee_float::{IeeeFloat, shape_of};
use apfloat_base::{ExpInt, Round, StatusAnd};
use apfloat_conversions::scaling::scaled_with_status;

impl<S: Flagged> IeeeFloat<S> {
    /// The value times 2 to the power of `places`, rounded once (IEEE 754-2019 5.3.3, scaleB), with exactly the flags
    /// of that rounding: the value of `scalbn_r`, which returns no status.
    ///
    /// Infinities and zeros are unchanged. A NaN is quieted, with `INVALID_OP` if it was signaling.
    #[inline]
    pub fn scale_b(self, places: ExpInt, round: Round) -> StatusAnd<Self>
        ensures { Gives (IsScaled (format_of S.Flagged) round self places) result }
    {
        IeeeFloat::answered(scaled_with_status(shape_of::<S>(), self.unpacked(), places, round))
    }
}
