//! Codes of a storage format as values.

ghost use Rattle.std.specs.Prelude.{◌≡◌, ◌%◌, ◌^◌};
ghost use Rattle.rustc_apfloat.specs.{Classes.is_nan, FlaggedTypes.format_of, Flags.bits_of};
ghost use Rattle.small_formats.specs.{Codes.datum_of, Float8E3M4.e3m4_datum, Float8E3M4.e3m4_format};
ghost use Rattle.small_formats.specs.Scales.{scale_format, scale_of};
ghost use Rattle.small_formats.specs.{Storage.format_with, Types.constants_of, Unsigned.unsigned_datum};
ghost use Rattle.small_formats.specs.saturation.Saturation.{IsConversionBy, class_of};
ghost use Rattle.apfloat_arrays.specs.stored.Formats.{datum_in, format_in};

use crate::stored::formats::StoredFormat;
use rustc_apfloat::ieee::{Flagged, Float8E4M3FN, IeeeFloat};
use rustc_apfloat::{Category, Float, Round, StatusAnd};
use small_formats::saturation::{Overflow, ValueClass, convert_by, treat};
use small_formats::{E2M1FN, E2M3FN, E3M2FN, E8M0FNU, Float8E3M4, StorageFormat, StoredFloat};

/// The number of a code of the format `F` in another format, rounded once.
fn load_element<F: StorageFormat, T: Flagged>(
    byte: u8,
    overflow: Overflow,
    round: Round,
    loses_info: &mut bool,
) -> StatusAnd<IeeeFloat<T>>
    ensures { let c = constants_of F.StorageFormat in IsConversionBy overflow (format_with c)
        (format_of T.Flagged) round (datum_of c (byte % 2 ^ F.BITS)) result.value
        (bits_of result.status) loses_info.new }
{
    let x = StoredFloat::<F>::from_bits(byte);
    let answer = x.convert_r(round, loses_info);
    treat(
        overflow,
        ValueClass::Number,
        x.is_negative(),
        answer,
        loses_info,
    )
}

/// A value of `Float8E3M4` in another format, rounded once.
fn load_e3m4<T: Flagged>(
    byte: u8,
    overflow: Overflow,
    round: Round,
    loses_info: &mut bool,
) -> StatusAnd<IeeeFloat<T>>
    ensures { IsConversionBy overflow e3m4_format (format_of T.Flagged) round (e3m4_datum byte)
        result.value (bits_of result.status) loses_info.new }
{
    let x = Float8E3M4::from_bits(byte);
    let answer = x.convert_r(round, loses_info);
    treat(
        overflow,
        ValueClass::of(x.category()),
        x.is_negative(),
        answer,
        loses_info,
    )
}

/// Whether a value of `Float8E3M4` is a NaN.
fn is_nan_in_e3m4(x: Float8E3M4) -> bool
    ensures { result ≡ is_nan (e3m4_datum x) }
{
    match x.category() {
        Category::NaN => true,
        Category::Infinity => false,
        Category::Zero => false,
        Category::Normal => false,
    }
}

/// The class of a scale.
fn class_of_scale(x: E8M0FNU) -> ValueClass
    ensures { result ≡ class_of (scale_of x) }
{
    if x.is_nan() {
        ValueClass::NotANumber
    } else {
        ValueClass::Number
    }
}

/// A scale in another format, rounded once.
fn load_scale<T: Flagged>(
    byte: u8,
    overflow: Overflow,
    round: Round,
    loses_info: &mut bool,
) -> StatusAnd<IeeeFloat<T>>
    ensures { IsConversionBy overflow scale_format (format_of T.Flagged) round (scale_of byte)
        result.value (bits_of result.status) loses_info.new }
{
    let x = E8M0FNU::from_bits(byte);
    let answer = x.convert_r(round, loses_info);
    treat(overflow, class_of_scale(x), false, answer, loses_info)
}

/// The value of `e4m3fn` with a code of `UE4M3`.
fn signed_value(byte: u8) -> Float8E4M3FN
    ensures { result ≡ unsigned_datum (byte % 128) }
{
    Float8E4M3FN::from_bits(u128::from(byte % 128))
}

impl StoredFormat {
    /// The value of a code in another format, rounded once, with this treatment of overflow.
    pub(crate) fn load<T: Flagged>(
        self,
        byte: u8,
        overflow: Overflow,
        round: Round,
        loses_info: &mut bool,
    ) -> StatusAnd<IeeeFloat<T>>
        ensures { IsConversionBy overflow (format_in self) (format_of T.Flagged) round
            (datum_in self byte) result.value (bits_of result.status) loses_info.new }
    {
        match self {
            StoredFormat::E2M1FN => load_element::<E2M1FN, T>(byte, overflow, round, loses_info),
            StoredFormat::E2M3FN => load_element::<E2M3FN, T>(byte, overflow, round, loses_info),
            StoredFormat::E3M2FN => load_element::<E3M2FN, T>(byte, overflow, round, loses_info),
            StoredFormat::E3M4 => load_e3m4(byte, overflow, round, loses_info),
            StoredFormat::E8M0FNU => load_scale(byte, overflow, round, loses_info),
            StoredFormat::UE4M3 => convert_by(overflow, round, signed_value(byte), loses_info),
        }
    }

    /// Whether a code is that of a NaN.
    pub fn is_nan(self, byte: u8) -> bool
        ensures { result ≡ is_nan (datum_in self byte) }
    {
        match self {
            StoredFormat::E2M1FN | StoredFormat::E2M3FN | StoredFormat::E3M2FN => false,
            StoredFormat::E3M4 => is_nan_in_e3m4(Float8E3M4::from_bits(byte)),
            StoredFormat::E8M0FNU => E8M0FNU::from_bits(byte).is_nan(),
            StoredFormat::UE4M3 => signed_value(byte).is_nan(),
        }
    }
}
