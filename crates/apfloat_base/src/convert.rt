//! The trait of conversions between two floating-point types.

ghost use Rattle.std.specs.Prelude.{Bool};
ghost use Rattle.apfloat_model.specs.declared.kinds.Round.{Round, TheVariants.NearestTiesToEven};
ghost use Rattle.apfloat_model.specs.declared.status.StatusAnd.{StatusAnd};

use crate::float::Float;
use apfloat_model::{Round, StatusAnd};

/// A type whose values convert to `T`.
///
/// Its ghost member says what the conversion returns, and whether information was lost.
pub trait FloatConvert<T: Float>: Float {
    ghost converts: { Self → Round → StatusAnd T → Bool → Type 0 };

    /// The value in `T`, rounded once (IEEE 754-2019 5.4.2, convertFormat); `loses_info` says whether information was
    /// lost.
    ///
    /// A number loses information exactly if the status is not OK: if it is rounded, or is a zero whose sign `T` does
    /// not have. An infinity loses information if `T` has none, with `INEXACT`. A NaN is quieted, with `INVALID_OP` if
    /// it was signaling; it loses information if a set bit of its payload, the whole payload, or the integer bit of a
    /// signaling NaN is not carried over.
    fn convert_r(self, round: Round, loses_info: &mut bool) -> StatusAnd<T>
        ensures { converts self round result loses_info.new };

    /// The value in `T`, rounded once to the nearest value, ties to even; `loses_info` says whether information was
    /// lost.
    final fn convert(self, loses_info: &mut bool) -> StatusAnd<T>
        ensures { converts self NearestTiesToEven result loses_info.new }
    {
        self.convert_r(Round::NearestTiesToEven, loses_info)
    }
}
