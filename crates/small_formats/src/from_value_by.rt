//! Conversions into a storage format by the modes of conversions.

ghost use Rattle.std.specs.Prelude.{◌≡◌, ℕ, ◌+◌, ◌-◌, ◌*◌, ◌^◌, ◌<◌, ◌≤◌};
ghost use Rattle.apfloat_model.specs.order.{Classes.quanta_of, Positive.IsPositive};
ghost use Rattle.apfloat_model.specs.rounding.Flags.{Gives, bits_of};
ghost use Rattle.apfloat_ieee.specs.Types.{format_of};
ghost use Rattle.small_formats.specs.{Codes.datum_of, ModeConversions.IsIntoBy, ModeConversions.IsSaturatedBy};
ghost use Rattle.small_formats.specs.{ModeConversions.nan_result, Storage.format_with, Types.constants_of};

use crate::format::StorageFormat;
use crate::from_value::{deliver_pick, largest_of_sign, scale};
use crate::modes::{ConversionRound, NanResult};
use crate::picks::{ieee_mode, pick_value};
use crate::stored::StoredFloat;
use apfloat_base::{Category, Float, Round, Status, StatusAnd};
use apfloat_ieee::{IeeeFloat, Semantics};

/// What a NaN becomes.
fn of_nan<F: StorageFormat>(nans: NanResult) -> StoredFloat<F>
    ensures { let c = constants_of F.StorageFormat in
        datum_of c result ≡ nan_result nans (format_with c) }
{
    match nans {
        NanResult::Zero => StoredFloat::with_sign(false, 0),
        NanResult::Largest => largest_of_sign(false),
    }
}

/// A positive value, rounded once as a value with that sign.
fn round_positive<S: Semantics, F: StorageFormat>(
    x: IeeeFloat<S>,
    mode: ConversionRound,
    negative: bool,
) -> StatusAnd<StoredFloat<F>>
    requires { IsPositive (format_of S.Semantics) x }
    ensures { let c = constants_of F.StorageFormat in Gives (IsSaturatedBy c mode negative
        (quanta_of x * 2 ^ (format_with c).scale) (2 ^ (format_of S.Semantics).scale)) result }
{
    let picked = pick_value(x, F::PRECISION as u32, scale::<F>(), mode, negative);
    deliver_pick(picked, ieee_mode(mode), negative)
}

impl<F: StorageFormat> StoredFloat<F> {
    /// A value of any format, rounded once in a mode of conversions, with the flags of that rounding; `nans` says what
    /// a NaN becomes. In a mode of IEEE 754, and with `NanResult::Zero`, it is the conversion of `from_value`.
    ///
    /// Past the largest number the result is that number, in each mode: with OVERFLOW and INEXACT for random digits,
    /// and with INEXACT alone to odd. A value that the format has is unchanged in each mode, with each random number.
    pub fn from_value_by<S: Semantics>(
        x: IeeeFloat<S>,
        mode: ConversionRound,
        nans: NanResult,
        loses_info: &mut bool,
    ) -> StatusAnd<Self>
        ensures { IsIntoBy (constants_of F.StorageFormat) (format_of S.Semantics) mode nans x
            result.value (bits_of result.status) loses_info.new }
    {
        let negative = x.is_negative();
        match x.category() {
            Category::NaN => {
                *loses_info = true;
                Status::INVALID_OP.and(of_nan(nans))
            }
            Category::Infinity => {
                *loses_info = true;
                Status::INVALID_OP.and(largest_of_sign(negative))
            }
            Category::Zero => {
                *loses_info = false;
                Status::OK.and(Self::with_sign(negative, 0))
            }
            Category::Normal => {
                let answer = round_positive(x.abs(), mode, negative);
                *loses_info = answer.status != Status::OK;
                answer
            }
        }
    }
}
