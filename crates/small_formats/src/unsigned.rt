//! Scales of NVFP4: the numbers of `Float8E4M3FN` without a sign, in 7 bits.

ghost use Rattle.std.specs.Prelude.{◌≡◌, ◌%◌, ◌<◌, eqb, true, false};
ghost use Rattle.apfloat_model.specs.arithmetic.Conversions.{IsConversion, IsExactlyConverted};
ghost use Rattle.apfloat_model.specs.{order.Classes.is_finite, order.Classes.is_negative, rounding.Flags.bits_of};
ghost use Rattle.apfloat_ieee.specs.FlaggedTypes.{format_of as flagged_format_of};
ghost use Rattle.apfloat_ieee.specs.Types.{format_of};
ghost use Rattle.small_formats.specs.Unsigned.{IsUnsigned, signed_format, unsigned_datum, unsigned_nan_code};

use crate::statuses::status_of_nan;
use apfloat_base::{Category, Float, FloatConvert, Round, Status, StatusAnd};
use apfloat_ieee::built_in_formats::Float8E4M3FN;
use apfloat_ieee::{Flagged, IeeeFloat, Semantics};
use std::marker::Model;

const NAN: u8 = 127;

/// A number of `Float8E4M3FN` that is not below zero, or the NaN with the code 127. Codes have 7 bits.
#[derive(Clone, Copy)]
pub struct UE4M3 {
    code: u8,
}

impl Model for UE4M3 {
    ghost use Rattle.std.specs.Prelude.{ℕ, ◌<◌, refl};

    ghost Value = { ℕ };

    ghost view = { λ x. x.code };

    ghost invariant = { λ x. x.code < 128 };

    ghost inverse = { λ code. record { code = code } };

    ghost inverse_ok = { λ x h. refl };
}

/// The code of a value that is not below zero.
pub fn code_of(x: Float8E4M3FN) -> UE4M3
    requires { is_negative x ≡ false }
    ensures { unsigned_datum result ≡ x }
{
    UE4M3 {
        code: (x.to_bits() % 128) as u8,
    }
}

/// A finite value that is not below zero, as a value of `Float8E4M3FN` without its sign.
fn convert_positive<S: Semantics>(
    x: IeeeFloat<S>,
    round: Round,
    loses_info: &mut bool,
) -> StatusAnd<UE4M3>
    requires finite { is_finite x ≡ true }
    requires positive { is_negative x ≡ false }
    ensures { IsConversion (format_of S.Semantics) signed_format round x
        (unsigned_datum result.value) (bits_of result.status) loses_info.new }
{
    let answer: StatusAnd<Float8E4M3FN> = x.convert_r(round, loses_info);
    answer.status.and(code_of(answer.value))
}

impl UE4M3 {
    /// The value with the code that the lowest 7 bits are.
    pub fn from_bits(bits: u8) -> Self
        ensures { result ≡ bits % 128 }
    {
        UE4M3 { code: bits % 128 }
    }

    /// The code.
    pub fn to_bits(self) -> u8
        ensures code { result ≡ self }
        ensures below { result < 128 }
    {
        self.code
    }

    /// Whether it is the NaN.
    pub fn is_nan(self) -> bool
        ensures { result ≡ eqb self unsigned_nan_code }
    {
        self.code == NAN
    }

    /// A value of any format, rounded once, with the flags of that rounding, as into `Float8E4M3FN`.
    ///
    /// What is below zero becomes the NaN, with INVALID_OP, and -0 becomes 0, with INEXACT. A NaN is the NaN, and has
    /// INVALID_OP if it is signaling; information is lost if the format has payloads.
    pub fn from_value<S: Semantics>(
        x: IeeeFloat<S>,
        round: Round,
        loses_info: &mut bool,
    ) -> StatusAnd<Self>
        ensures { IsUnsigned (format_of S.Semantics) round x result.value (bits_of result.status)
            loses_info.new }
    {
        match x.category() {
            Category::NaN => {
                *loses_info = S::NAN_PAYLOAD_MASK != 0;
                status_of_nan(x).and(UE4M3 { code: NAN })
            }
            Category::Infinity => {
                *loses_info = true;
                let status = if x.is_negative() {
                    Status::INVALID_OP
                } else {
                    Status::INEXACT
                };
                status.and(UE4M3 { code: NAN })
            }
            Category::Zero => {
                if x.is_negative() {
                    *loses_info = true;
                    return Status::INEXACT.and(UE4M3 { code: 0 });
                }
                convert_positive(x, round, loses_info)
            }
            Category::Normal => {
                if x.is_negative() {
                    *loses_info = true;
                    return Status::INVALID_OP.and(UE4M3 { code: NAN });
                }
                convert_positive(x, round, loses_info)
            }
        }
    }

    /// The value in another format, rounded once, as that of `Float8E4M3FN` is converted; so is the NaN.
    pub fn convert_r<T: Flagged>(
        self,
        round: Round,
        loses_info: &mut bool,
    ) -> StatusAnd<IeeeFloat<T>>
        ensures converted { IsConversion signed_format (flagged_format_of T.Flagged) round
            (unsigned_datum self) result.value (bits_of result.status) loses_info.new }
        ensures exact { IsExactlyConverted signed_format (flagged_format_of T.Flagged)
            (unsigned_datum self) result.value (bits_of result.status) loses_info.new }
    {
        Float8E4M3FN::from_bits(u128::from(self.code)).convert_r(round, loses_info)
    }
}
