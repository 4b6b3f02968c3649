//! Conversions of the values of a storage format to any format.

ghost use Rattle.apfloat_model.specs.arithmetic.Conversions.{IsConversion, IsExactlyConverted, IsKept, loses_zero_sign};
ghost use Rattle.apfloat_model.specs.{formats.Datum.finite, rounding.Flags.bits_of, rounding.Rounding.zero_sign};
ghost use Rattle.apfloat_ieee.specs.FlaggedTypes.{format_of};
ghost use Rattle.small_formats.specs.{Codes.datum_of, Storage.format_with, Types.constants_of};

use crate::format::StorageFormat;
use crate::from_value::scale;
use crate::grid_points::{convert_point, point_at};
use crate::stored::StoredFloat;
use apfloat_base::{Float, FloatConvert, Round, StatusAnd};
use apfloat_ieee::built_in_formats::Half;
use apfloat_ieee::{Flagged, IeeeFloat};

/// The zero with that sign, or the format's only zero.
fn zero<T: Flagged>(negative: bool, loses_info: &mut bool) -> StatusAnd<IeeeFloat<T>>
    ensures { IsKept (finite (zero_sign (format_of T.Flagged).nonfinite negative) 0)
        (loses_zero_sign (format_of T.Flagged) negative) result.value (bits_of result.status)
        loses_info.new }
{
    let zero = Half::zero();
    let signed = if negative { -zero } else { zero };
    signed.convert_r(Round::NearestTiesToEven, loses_info)
}

impl<F: StorageFormat> StoredFloat<F> {
    /// The value in another format, rounded once (IEEE 754-2019 5.4.2), with the flags of that rounding, as a value of
    /// any format is converted. A number that the format has is unchanged, with status OK.
    pub fn convert_r<T: Flagged>(
        self,
        round: Round,
        loses_info: &mut bool,
    ) -> StatusAnd<IeeeFloat<T>>
        ensures converted { let c = constants_of F.StorageFormat in IsConversion (format_with c)
            (format_of T.Flagged) round (datum_of c self) result.value (bits_of result.status)
            loses_info.new }
        ensures exact { let c = constants_of F.StorageFormat in IsExactlyConverted (format_with c)
            (format_of T.Flagged) (datum_of c self) result.value (bits_of result.status)
            loses_info.new }
    {
        let negative = self.is_negative();
        let magnitude = self.magnitude();
        if magnitude == 0 {
            return zero(negative, loses_info);
        }
        let point = point_at(F::PRECISION as u32, u16::from(magnitude));
        convert_point(point, scale::<F>(), round, negative, loses_info)
    }
}
