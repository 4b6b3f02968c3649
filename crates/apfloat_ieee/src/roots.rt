//! Square roots of values of one format.

ghost use Rattle.apfloat_model.specs.declared.kinds.Round.TheVariants.{NearestTiesToEven, NearestTiesToAway};
ghost use Rattle.apfloat_model.specs.{rounding.Flags.Gives, formats.Members.IsMember, arithmetic.Roots.IsRoot};
ghost use Rattle.apfloat_ieee.specs.FlaggedTypes.{format_of};

use crate::flagged::Flagged;
use crate::ieee_float::{IeeeFloat, shape_of};
use apfloat_arithmetic::roots::square_root;
use apfloat_base::{Round, StatusAnd};

impl<S: Flagged> IeeeFloat<S> {
    /// The square root, rounded once (IEEE 754-2019 5.4.1, squareRoot).
    ///
    /// The root of a zero is that zero, with its sign, and the root of positive infinity is positive infinity. The root
    /// of a negative number or of negative infinity is invalid (7.2): the result is the quiet NaN without a payload,
    /// with `INVALID_OP`. A NaN is returned quieted (6.2.3). The only other flags are `INEXACT`, and with it
    /// `UNDERFLOW`, which a format raises here only if its least exponent is near zero.
    #[inline(always)]
    pub fn sqrt_r(self, round: Round) -> StatusAnd<Self>
        ensures root { Gives (IsRoot (format_of S.Flagged) round self) result }
        ensures member { IsMember (format_of S.Flagged) self }
    {
        IeeeFloat::answered(square_root(shape_of::<S>(), self.unpacked(), round))
    }

    /// The square root, rounded once to the nearest value. No root of a value is halfway between two neighbours, so
    /// both modes to nearest have this result.
    #[inline]
    pub fn sqrt(self) -> StatusAnd<Self>
        ensures even { Gives (IsRoot (format_of S.Flagged) NearestTiesToEven self) result }
        ensures away { Gives (IsRoot (format_of S.Flagged) NearestTiesToAway self) result }
    {
        self.sqrt_r(Round::NearestTiesToEven)
    }
}
