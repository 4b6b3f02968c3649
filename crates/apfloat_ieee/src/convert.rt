//! Conversions between any two formats.

ghost use Rattle.apfloat_model.specs.rounding.Flags.{bits_of};
ghost use Rattle.apfloat_model.specs.arithmetic.Conversions.{IsConversion, IsExactlyConverted};
ghost use Rattle.apfloat_ieee.specs.FlaggedTypes.{format_of};

use crate::flagged::Flagged;
use crate::ieee_float::{IeeeFloat, shape_of};
use apfloat_base::{FloatConvert, Round, StatusAnd};
use apfloat_conversions::between_formats::convert;

impl<S: Flagged, T: Flagged> FloatConvert<IeeeFloat<T>> for IeeeFloat<S> {
    ghost converts = { λ x mode answer loses_info. IsConversion (format_of S.Flagged)
        (format_of T.Flagged) mode x answer.value (bits_of answer.status) loses_info };

    /// A finite value that the format `T` has too, with its sign, is converted unchanged, with status OK and no loss.
    #[inline(always)]
    fn convert_r(self, round: Round, loses_info: &mut bool) -> StatusAnd<IeeeFloat<T>>
        ensures converted { IsConversion (format_of S.Flagged) (format_of T.Flagged) round
            self result.value (bits_of result.status) loses_info.new }
        ensures exact { IsExactlyConverted (format_of S.Flagged) (format_of T.Flagged) self
            result.value (bits_of result.status) loses_info.new }
    {
        let converted = convert(shape_of::<S>(), shape_of::<T>(), self.unpacked(), round);
        *loses_info = converted.loses_info;
        IeeeFloat::answered(converted.answer)
    }
}
