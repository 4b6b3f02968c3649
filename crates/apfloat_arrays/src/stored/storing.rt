//! Values as codes of a storage format.

ghost use Rattle.std.specs.Prelude.{◌≡◌, ◌<◌, ◌^◌};
ghost use Rattle.rustc_apfloat.specs.{declared.Round.Round, Classes.is_negative, Datum.Datum, Flags.bits_of};
ghost use Rattle.rustc_apfloat.specs.{Format.Format, Types.format_of};
ghost use Rattle.small_formats.specs.{Conversions.IsInto, Types.constants_of, saturation.Saturation.class_of};
ghost use Rattle.apfloat_arrays.specs.stored.Formats.{bits_in};
ghost use Rattle.apfloat_arrays.specs.stored.Stored.{IsOwn, IsStored, IsStoredBy, saturated_code};

use crate::stored::formats::StoredFormat;
use rustc_apfloat::ieee::{IeeeFloat, Semantics};
use rustc_apfloat::{Flags, Float, Round, Status, StatusAnd};
use small_formats::saturation::{FiniteNan, Overflow, ValueClass};
use small_formats::{
    E2M1FN, E2M3FN, E3M2FN, E8M0FNU, Float8E3M4, StorageFormat, StoredFloat, UE4M3,
};

/// A value as a code of the format `F`, rounded once.
fn element<S: Semantics, F: StorageFormat>(
    x: IeeeFloat<S>,
    round: Round,
    loses_info: &mut bool,
) -> StatusAnd<u8>
    ensures stored { IsInto (constants_of F.StorageFormat) (format_of S.Semantics) round x
        result.value (bits_of result.status) loses_info.new }
    ensures below { result.value < 2 ^ F.BITS }
{
    let answer = StoredFloat::<F>::from_value(x, round, loses_info);
    answer.status.and(answer.value.to_bits())
}

impl StoredFormat {
    /// A value of any format as a code, rounded once, by the `from_value` of the format's type.
    fn from_value<S: Semantics>(
        self,
        x: IeeeFloat<S>,
        round: Round,
        loses_info: &mut bool,
    ) -> StatusAnd<u8>
        ensures stored { IsStored self (format_of S.Semantics) round x result.value
            (bits_of result.status) loses_info.new }
        ensures below { result.value < 2 ^ bits_in self }
    {
        match self {
            StoredFormat::E2M1FN => element::<S, E2M1FN>(x, round, loses_info),
            StoredFormat::E2M3FN => element::<S, E2M3FN>(x, round, loses_info),
            StoredFormat::E3M2FN => element::<S, E3M2FN>(x, round, loses_info),
            StoredFormat::E3M4 => {
                let answer = Float8E3M4::from_value(x, round, loses_info);
                answer.status.and(answer.value.to_bits())
            }
            StoredFormat::E8M0FNU => {
                let answer = E8M0FNU::from_value(x, round, loses_info);
                answer.status.and(answer.value.to_bits())
            }
            StoredFormat::UE4M3 => {
                let answer = UE4M3::from_value(x, round, loses_info);
                answer.status.and(answer.value.to_bits())
            }
        }
    }

    /// The largest number with this sign, if the conversion overflowed.
    fn saturated(self, negative: bool, own: StatusAnd<u8>) -> StatusAnd<u8>
        requires { own.value < 2 ^ bits_in self }
        ensures value { result.value
            ≡ saturated_code self negative own.value (bits_of own.status) }
        ensures status { result.status ≡ own.status }
        ensures below { result.value < 2 ^ bits_in self }
    {
        if own.status.bits() & 0x04 != 0 {
            own.status.and(self.largest_code(negative))
        } else {
            own
        }
    }

    /// What a conversion of a value of this class and sign gives, if `own` is its conversion without saturation.
    pub fn treated(
        self,
        overflow: Overflow,
        class: ValueClass,
        negative: bool,
        own: StatusAnd<u8>,
    ) -> StatusAnd<u8>
        requires { own.value < 2 ^ bits_in self }
        ensures stored { (f : Format) (mode : Round) (x : Datum)
            → class_of x ≡ class → is_negative x ≡ negative
            → IsOwn self f mode x own.value (bits_of own.status)
            → IsStoredBy overflow self f mode x result.value (bits_of result.status) }
        ensures below { result.value < 2 ^ bits_in self }
    {
        match overflow {
            Overflow::Rounded => own,
            Overflow::Saturated => self.saturated(negative, own),
            // Infinities and, if `nans` says so, NaNs become the largest number too.
            Overflow::Finite(nans) => match class {
                ValueClass::Number => self.saturated(negative, own),
                ValueClass::Infinity => {
                    if self.keeps_infinity(negative) {
                        own
                    } else {
                        Status::INEXACT.and(self.largest_code(negative))
                    }
                }
                ValueClass::NotANumber => match nans {
                    FiniteNan::Kept => own,
                    FiniteNan::Largest => Status::INVALID_OP.and(self.largest_code(false)),
                },
            },
        }
    }

    /// A value of any format as a code, rounded once, with this treatment of overflow.
    pub(crate) fn store<S: Semantics>(
        self,
        overflow: Overflow,
        round: Round,
        x: IeeeFloat<S>,
    ) -> StatusAnd<u8>
        ensures stored { IsStoredBy overflow self (format_of S.Semantics) round x result.value
            (bits_of result.status) }
        ensures below { result.value < 2 ^ bits_in self }
    {
        let mut loses_info = false;
        let own = self.from_value(x, round, &mut loses_info);
        self.treated(overflow, ValueClass::of(x.category()), x.is_negative(), own)
    }
}
