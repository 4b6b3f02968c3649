//! The flags of conversions into formats whose overflows and NaNs are their own.

ghost use Rattle.std.specs.Prelude.{◌≡◌, ◌+◌, ◌-◌, ◌^◌, ◌<◌, ◌≤◌, ltb, if◌then◌else◌};
ghost use Rattle.apfloat_model.specs.{formats.Nan.invalid_if, formats.Nan.is_signaling_nan, rounding.Flags.bits_of};
ghost use Rattle.apfloat_model.specs.rounding.Rounding.{leads_out, ok_bits, overflow_bit, underflow_bit, inexact_bit};
ghost use Rattle.apfloat_ieee.specs.Types.{format_of};

use crate::picks::Picked;
use apfloat_base::{Flags, Float, Round, Status};
use apfloat_ieee::{IeeeFloat, Semantics};
use apfloat_rounding::rounding::leads_past;
use apfloat_words::power_of_two;

/// The status of a pick past the largest number.
pub fn status_past(mode: Round, negative: bool) -> Status
    ensures { bits_of result
        ≡ (if leads_out mode negative then overflow_bit + inexact_bit else inexact_bit) }
{
    if leads_past(mode, negative) {
        Status::OVERFLOW.union(Status::INEXACT)
    } else {
        Status::INEXACT
    }
}

/// The status of a pick within the format.
pub fn status_within(precision: u32, picked: Picked) -> Status
    requires some { 0 < precision }
    requires precise { precision ≤ 15 }
    ensures { bits_of result ≡ (if picked.exact then ok_bits
        else (if ltb picked.index (2 ^ (precision - 1)) then underflow_bit + inexact_bit
        else inexact_bit)) }
{
    if picked.exact {
        return Status::OK;
    }
    if picked.index < power_of_two(precision - 1) {
        Status::UNDERFLOW.union(Status::INEXACT)
    } else {
        Status::INEXACT
    }
}

/// The flags of a NaN that becomes a value without its payload: INVALID_OP if it is signaling, otherwise none.
pub fn status_of_nan<S: Semantics>(x: IeeeFloat<S>) -> Status
    ensures { bits_of result ≡ invalid_if (is_signaling_nan (format_of S.Semantics) x) }
{
    if x.is_signaling() {
        Status::INVALID_OP
    } else {
        Status::OK
    }
}
