//! Conversion of NaNs from one format to another: quieted, and with the leading bits of the payload that the other
//! format has room for (IEEE 754-2019 6.2.3).

ghost use Rattle.std.specs.Prelude.{◌≡◌, ◌-◌, ◌*◌, ◌/◌, ◌^◌, ◌<◌};
ghost use Rattle.apfloat_model.specs.arithmetic.Conversions.{places_out, nan_loses, converted_nan};
ghost use Rattle.apfloat_model.specs.{formats.Nan.invalid_if, formats.Nan.is_signaling, rounding.Answer.IsAnswer};
ghost use Rattle.apfloat_rounding.specs.Shapes.{format_at};
ghost use Rattle.apfloat_rounding.specs.Stored.{IsNan, IsNanSignificandAt, IsStored, GivesAt};

use crate::nans::{payload_mask, quiet_significand, quieted_significand, signals, status_of};
use crate::shape::Shape;
use crate::unpacked::{Unpacked, nan_of};
use apfloat_model::StatusAnd;
use apfloat_words::low_digits;

/// How many low bits the significand of a NaN loses: the leading bit of a payload stays the leading bit.
#[inline(always)]
fn places_out(from: Shape, into: Shape) -> u32
    ensures value { result ≡ places_out (format_at from) (format_at into) }
    ensures short { result < 128 }
{
    if payload_mask(from) == 0 {
        0
    } else {
        from.precision.saturating_sub(into.precision)
    }
}

/// The payload, in the other format, of a NaN with this significand.
#[inline(always)]
fn carried_payload(from: Shape, into: Shape, significand: u128) -> u128
    requires { significand < 2 ^ from.precision }
    ensures { result ≡ significand * 2 ^ (into.precision - from.precision) / 2 ^ places_out
        (format_at from) (format_at into) }
{
    let places_in = into.precision.saturating_sub(from.precision);
    (significand << places_in) >> places_out(from, into)
}

/// Whether a NaN loses information: a set bit of its payload, the integer bit of a signaling NaN, or the whole payload.
#[inline(always)]
pub fn nan_loses(from: Shape, into: Shape, significand: u128) -> bool
    requires { IsNanSignificandAt from significand }
    ensures { result ≡ nan_loses (format_at from) (format_at into) significand }
{
    let cut = low_digits(
        quieted_significand(from, significand),
        places_out(from, into),
    );
    let hides_integer_bit = from.explicit_integer_bit && !into.explicit_integer_bit;
    let drops_payload = payload_mask(from) != 0 && payload_mask(into) == 0;
    cut != 0 || ((hides_integer_bit && signals(from, significand)) || drops_payload)
}

/// A NaN, quieted, with the leading bits of its payload that the other format has room for (IEEE 754-2019 6.2.3).
#[inline(always)]
pub fn converted_nan(from: Shape, into: Shape, x: Unpacked) -> StatusAnd<Unpacked>
    requires { IsNan from x }
    ensures stored { IsStored into result.value }
    ensures converted { GivesAt into (IsAnswer
        (converted_nan (format_at from) (format_at into) x.negative x.significand)
        (invalid_if (is_signaling (format_at from) x.significand))) result }
{
    let quieted = quieted_significand(from, x.significand);
    let payload = carried_payload(from, into, quieted);
    let value = nan_of(into, x.negative, quiet_significand(into, payload));
    status_of(signals(from, x.significand)).and(value)
}
