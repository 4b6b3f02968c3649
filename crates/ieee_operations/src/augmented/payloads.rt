//! Payloads of NaNs as values (IEEE 754-2019 9.7). No flag is raised.
//!
//! The payload is the part of a NaN's significand below the bits that say whether it is quiet: the quiet bit, and in a
//! format that writes the integer bit, as x87, that one too (6.2.1). It has two digits fewer than the precision. In a
//! format with a single significand for NaNs each payload is 0, and no NaN is signaling.

ghost use Rattle.std.specs.Prelude.{◌≡◌, ◌<◌, ◌≤◌, ◌^◌, true};
ghost use Rattle.apfloat_model.specs.{order.Classes.is_nan, formats.Nan.nan_significand};
ghost use Rattle.apfloat_ieee.specs.FlaggedTypes.{format_of};
ghost use Rattle.ieee_operations.specs.augmented.Payloads.{get_payload, set_payload, set_payload_signaling};
ghost use Rattle.ieee_operations.specs.augmented.Payloads.{payload_from, payload_of, payload_bits};

use apfloat_base::{Float, NonfiniteBehavior, Round};
use apfloat_ieee::{Flagged, IeeeFloat};
use apfloat_words::power_of_two;

/// getPayload (9.7): the payload of a NaN as an integer, and -1 for any other value. Only for a format with bits, as
/// `to_bits`.
pub fn get_payload<S: Flagged>(x: IeeeFloat<S>) -> IeeeFloat<S>
    requires { S.PRECISION < S.BITS }
    ensures { result ≡ get_payload (format_of S.Flagged) x }
{
    if x.is_nan() {
        IeeeFloat::from_u128_r(payload_of_nan(x), Round::NearestTiesToEven).value
    } else {
        IeeeFloat::from_i128(-1).value
    }
}

/// setPayload (9.7): the positive quiet NaN with the payload `x`. If `x` is not an integer that a payload of the format
/// can be, the result is +0; -0 is not one.
pub fn set_payload<S: Flagged>(x: IeeeFloat<S>) -> IeeeFloat<S>
    ensures { result ≡ set_payload (format_of S.Flagged) x }
{
    match payload_from(x, 0) {
        Some(payload) => IeeeFloat::qnan(Some(payload)),
        None => IeeeFloat::zero(),
    }
}

/// setPayloadSignaling (9.7): the positive signaling NaN with the payload `x`, as `set_payload`. The
/// payload of a signaling NaN is not 0.
pub fn set_payload_signaling<S: Flagged>(x: IeeeFloat<S>) -> IeeeFloat<S>
    ensures { result ≡ set_payload_signaling (format_of S.Flagged) x }
{
    match payload_from(x, 1) {
        Some(payload) => IeeeFloat::snan(Some(payload)),
        None => IeeeFloat::zero(),
    }
}

/// The integer that the value is, if a payload can be that integer and it is at least `least`.
fn payload_from<S: Flagged>(x: IeeeFloat<S>, least: u128) -> Option<u128>
    ensures { result ≡ payload_from (format_of S.Flagged) least x }
{
    if x.is_negative() || !x.is_integer() {
        return None;
    }
    let payload = x.to_u128(128).value;
    if least <= payload && payload < power_of_two(payload_bits::<S>()) {
        Some(payload)
    } else {
        None
    }
}

/// The payload of a NaN: the last digits of its encoding.
fn payload_of_nan<S: Flagged>(x: IeeeFloat<S>) -> u128
    requires nan { is_nan x ≡ true }
    requires bits { S.PRECISION < S.BITS }
    ensures { result ≡ payload_of (format_of S.Flagged) (nan_significand x) }
{
    x.to_bits() % power_of_two(payload_bits::<S>())
}

/// How many bits a payload has.
fn payload_bits<S: Flagged>() -> u32
    ensures few { result < 124 }
    ensures value { result ≡ payload_bits (format_of S.Flagged) }
{
    match S::NONFINITE_BEHAVIOR {
        NonfiniteBehavior::IEEE754 => S::PRECISION as u32 - 2,
        NonfiniteBehavior::NanOnly | NonfiniteBehavior::NanNegativeZero => 0,
    }
}
