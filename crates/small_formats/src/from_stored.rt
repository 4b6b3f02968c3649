//! Conversions of the numbers of one storage format into another.

ghost use Rattle.apfloat_model.specs.rounding.Flags.{bits_of};
ghost use Rattle.small_formats.specs.{Codes.datum_of, Conversions.IsInto, Storage.format_with, Types.constants_of};

use crate::arithmetic::widened;
use crate::format::StorageFormat;
use crate::stored::StoredFloat;
use apfloat_base::{Round, StatusAnd};

impl<F: StorageFormat> StoredFloat<F> {
    /// A number of another storage format, rounded once (IEEE 754-2019 5.4.2), with the flags of that rounding. Past
    /// the largest number the result is that number, as in `from_value`, and `loses_info` is set as there.
    pub fn from_stored<G: StorageFormat>(
        x: StoredFloat<G>,
        round: Round,
        loses_info: &mut bool,
    ) -> StatusAnd<Self>
        ensures { let d = constants_of G.StorageFormat in
            IsInto (constants_of F.StorageFormat) (format_with d) round (datum_of d x)
            result.value (bits_of result.status) loses_info.new }
    {
        Self::from_value(widened(x), round, loses_info)
    }
}
