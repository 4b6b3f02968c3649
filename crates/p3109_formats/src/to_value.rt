//! Conversions of the values of a format of IEEE P3109 to any format.

ghost use Rattle.std.specs.Prelude.{◌≡◌, ◌^◌, ◌<◌};
ghost use Rattle.apfloat_model.specs.{arithmetic.Conversions.IsConversion, formats.Datum.infinite};
ghost use Rattle.apfloat_model.specs.rounding.Flags.{bits_of};
ghost use Rattle.apfloat_ieee.specs.FlaggedTypes.{format_of};
ghost use Rattle.p3109_formats.specs.Types.{projection_of};
ghost use Rattle.p3109_formats.specs.Projections.{IsProjection, projected_datum, projected_format};

use crate::descriptor::Descriptor;
use crate::from_value::scale;
use crate::projected::Projected;
use crate::projection::Projection;
use apfloat_base::{Float, FloatConvert, Round, StatusAnd};
use apfloat_ieee::built_in_formats::{Float8E4M3FNUZ, Half};
use apfloat_ieee::{Flagged, IeeeFloat};
use small_formats::grid_points::{convert_point, point_at};

/// The infinity of that sign, in a format that has it.
fn half_infinity(negative: bool) -> Half
    ensures { result ≡ infinite negative }
{
    if negative {
        -Half::infinity()
    } else {
        Half::infinity()
    }
}

impl Descriptor {
    /// `Projected::convert_r` of the value with that code.
    pub fn convert_r<T: Flagged>(
        self,
        code: u16,
        round: Round,
        loses_info: &mut bool,
    ) -> StatusAnd<IeeeFloat<T>>
        requires lawful { IsProjection self }
        requires code { code < 2 ^ self.bits }
        ensures { IsConversion (projected_format self) (format_of T.Flagged) round
            (projected_datum self code) result.value (bits_of result.status) loses_info.new }
    {
        if self.is_nan(code) {
            return Float8E4M3FNUZ::nan().convert_r(round, loses_info);
        }
        let negative = self.is_negative(code);
        let magnitude = self.magnitude(code);
        if magnitude > self.largest_index() {
            return half_infinity(negative).convert_r(round, loses_info);
        }
        if magnitude == 0 {
            return Half::zero().convert_r(round, loses_info);
        }
        let point = point_at(self.precision, magnitude);
        convert_point(point, scale(self), round, negative, loses_info)
    }
}

impl<F: Projection> Projected<F> {
    /// The value in another format, rounded once (IEEE 754-2019 5.4.2), with the flags of that rounding, as a value of
    /// any format is converted; the NaN as that of `Float8E4M3FNUZ`, and an infinity as that of any format.
    pub fn convert_r<T: Flagged>(
        self,
        round: Round,
        loses_info: &mut bool,
    ) -> StatusAnd<IeeeFloat<T>>
        ensures { let c = projection_of F.Projection in IsConversion (projected_format c)
            (format_of T.Flagged) round (projected_datum c self) result.value
            (bits_of result.status) loses_info.new }
    {
        Descriptor::of::<F>().convert_r(self.to_bits(), round, loses_info)
    }
}
