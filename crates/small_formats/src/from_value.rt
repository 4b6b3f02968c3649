//! Conversions of the values of a format into a storage format.

ghost use Rattle.std.specs.Prelude.{◌≡◌, ℕ, ◌+◌, ◌-◌, ◌*◌, ◌^◌, ◌<◌, ◌≤◌, eqb, ltb, if◌then◌else◌};
ghost use Rattle.apfloat_model.specs.formats.{Datum.finite, Format.largest};
ghost use Rattle.apfloat_model.specs.rounding.Flags.{Gives, bits_of};
ghost use Rattle.apfloat_model.specs.rounding.Rounding.{leads_out, ok_bits, overflow_bit, underflow_bit, inexact_bit};
ghost use Rattle.apfloat_ieee.specs.Types.{format_of};
ghost use Rattle.small_formats.specs.{Codes.datum_of, Codes.largest_index, Codes.point, Conversions.IsInto};
ghost use Rattle.small_formats.specs.{Picks.IsPointDelivered, Storage.format_with, Types.constants_of};

use crate::format::StorageFormat;
use crate::modes::{ConversionRound, NanResult};
use crate::picks::Picked;
use crate::statuses::{status_past, status_within};
use crate::stored::StoredFloat;
use apfloat_base::{ExpInt, Round, StatusAnd};
use apfloat_ieee::{IeeeFloat, Semantics};

/// The largest number with that sign.
pub(crate) fn largest_of_sign<F: StorageFormat>(negative: bool) -> StoredFloat<F>
    ensures { let c = constants_of F.StorageFormat in
        datum_of c result ≡ finite negative (largest (format_with c)) }
{
    StoredFloat::with_sign(negative, StoredFloat::<F>::largest_index())
}

/// What is delivered past the largest number.
pub(crate) fn past<F: StorageFormat>(mode: Round, negative: bool) -> StatusAnd<StoredFloat<F>>
    ensures value { let c = constants_of F.StorageFormat in
        datum_of c result.value ≡ finite negative (largest (format_with c)) }
    ensures status { bits_of result.status
        ≡ (if leads_out mode negative then overflow_bit + inexact_bit else inexact_bit) }
{
    status_past(mode, negative).and(largest_of_sign(negative))
}

/// What is delivered for a pick within the format.
pub(crate) fn within<F: StorageFormat>(picked: Picked, negative: bool) -> StatusAnd<StoredFloat<F>>
    requires { picked.index ≤ largest_index (constants_of F.StorageFormat) }
    ensures value { datum_of (constants_of F.StorageFormat) result.value
        ≡ finite negative (point F.PRECISION picked.index) }
    ensures status { bits_of result.status ≡ (if picked.exact then ok_bits
        else (if ltb picked.index (2 ^ (F.PRECISION - 1)) then underflow_bit + inexact_bit
        else inexact_bit)) }
{
    let status = status_within(F::PRECISION as u32, picked);
    status.and(StoredFloat::with_sign(negative, picked.index as u8))
}

/// What is delivered for a pick.
pub(crate) fn deliver_pick<F: StorageFormat>(
    picked: Picked,
    mode: Round,
    negative: bool,
) -> StatusAnd<StoredFloat<F>>
    ensures { (amount parts : ℕ)
        → picked.exact ≡ eqb (point F.PRECISION picked.index * parts) amount
        → Gives (IsPointDelivered (constants_of F.StorageFormat) mode negative amount parts
        picked.index) result }
{
    if picked.index > u128::from(StoredFloat::<F>::largest_index()) {
        past(mode, negative)
    } else {
        within(picked, negative)
    }
}

/// The negated exponent of the quantum.
pub(crate) fn scale<F: StorageFormat>() -> u32
    ensures value { result ≡ (format_with (constants_of F.StorageFormat)).scale }
    ensures within { result ≤ 2 ^ 21 }
{
    (F::PRECISION as ExpInt - 1 - F::MIN_EXP) as u32
}

impl<F: StorageFormat> StoredFloat<F> {
    /// A value of any format, rounded once (IEEE 754-2019 5.4.2), with the flags of that rounding.
    ///
    /// Past the largest number the result is that number, in each mode: with OVERFLOW and INEXACT where the mode leads
    /// past it, and with INEXACT alone where it does not. An inexact result below the least number with all digits has
    /// UNDERFLOW and INEXACT. An infinity becomes the largest number of its sign, and a NaN +0, both with INVALID_OP.
    /// `loses_info` is set to whether the result differs from `x`.
    pub fn from_value<S: Semantics>(
        x: IeeeFloat<S>,
        round: Round,
        loses_info: &mut bool,
    ) -> StatusAnd<Self>
        ensures { IsInto (constants_of F.StorageFormat) (format_of S.Semantics) round x
            result.value (bits_of result.status) loses_info.new }
    {
        Self::from_value_by(x, ConversionRound::Ieee(round), NanResult::Zero, loses_info)
    }
}
