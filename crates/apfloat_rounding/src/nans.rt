//! NaNs: which of them are signaling, and the results that are NaNs (IEEE 754-2019 6.2).

ghost use Rattle.std.specs.Prelude.{◌≡◌};
ghost use Rattle.apfloat_model.specs.{declared.kinds.Category.TheVariants.NaN, rounding.Flags.bits_of};
ghost use Rattle.apfloat_model.specs.formats.Format.{nan_base, payload_mask, quiet_bits};
ghost use Rattle.apfloat_model.specs.formats.{Datum.nan, Nan.quiet_bit, Nan.is_signaling};
ghost use Rattle.apfloat_model.specs.formats.Nan.{is_signaling_nan, quieted, quiet_significand, signaling_significand};
ghost use Rattle.apfloat_model.specs.formats.Nan.{with_payload, qnan, snan, invalid_if, IsOfNan, IsOfNans, IsInvalid};
ghost use Rattle.apfloat_rounding.specs.Shapes.{format_at};
ghost use Rattle.apfloat_rounding.specs.Stored.{IsNanSignificandAt, IsStored, datum_at, GivesAt};

use crate::shape::Shape;
use crate::unpacked::{Unpacked, nan_of};
use apfloat_model::{Category, NonfiniteBehavior, Status, StatusAnd};
use apfloat_words::power_of_two;

/// The bits that every NaN's significand has.
#[inline(always)]
fn nan_base(shape: Shape) -> u128
    ensures { result ≡ nan_base (format_at shape) }
{
    match shape.nonfinite {
        NonfiniteBehavior::IEEE754 => 0,
        NonfiniteBehavior::NanOnly => power_of_two(shape.precision - 1) - 1,
        NonfiniteBehavior::NanNegativeZero => 0,
    }
}

/// The bits that a payload may set.
#[inline(always)]
pub fn payload_mask(shape: Shape) -> u128
    ensures { result ≡ payload_mask (format_at shape) }
{
    match shape.nonfinite {
        NonfiniteBehavior::IEEE754 => power_of_two(shape.precision - 1) - 1,
        NonfiniteBehavior::NanOnly => 0,
        NonfiniteBehavior::NanNegativeZero => 0,
    }
}

/// Of the bits that make a NaN quiet, the one that an operation sets.
#[inline(always)]
fn quiet_bit(shape: Shape) -> u128
    ensures { result ≡ quiet_bit (format_at shape) }
{
    match shape.nonfinite {
        NonfiniteBehavior::IEEE754 => power_of_two(shape.precision - 2),
        NonfiniteBehavior::NanOnly => 0,
        NonfiniteBehavior::NanNegativeZero => 0,
    }
}

/// The bits that make a NaN quiet; an explicit integer bit is one of them.
#[inline(always)]
fn quiet_bits(shape: Shape) -> u128
    ensures { result ≡ quiet_bits (format_at shape) }
{
    match shape.nonfinite {
        NonfiniteBehavior::IEEE754 => {
            if shape.explicit_integer_bit {
                3 * power_of_two(shape.precision - 2)
            } else {
                power_of_two(shape.precision - 2)
            }
        }
        NonfiniteBehavior::NanOnly => 0,
        NonfiniteBehavior::NanNegativeZero => 0,
    }
}

/// Whether a NaN with that significand is signaling.
#[inline(always)]
pub fn signals(shape: Shape, significand: u128) -> bool
    ensures { result ≡ is_signaling (format_at shape) significand }
{
    let bits = quiet_bits(shape);
    significand & bits != bits
}

/// Whether a value is a signaling NaN.
#[inline(always)]
pub fn is_signaling(shape: Shape, x: Unpacked) -> bool
    requires { IsStored shape x }
    ensures { result ≡ is_signaling_nan (format_at shape) (datum_at shape x) }
{
    match x.category {
        Category::NaN => signals(shape, x.significand),
        Category::Infinity => false,
        Category::Normal => false,
        Category::Zero => false,
    }
}

/// The significand of a NaN, quieted, with its payload.
#[inline(always)]
pub fn quieted_significand(shape: Shape, significand: u128) -> u128
    requires { IsNanSignificandAt shape significand }
    ensures value { result ≡ quieted (format_at shape) significand }
    ensures nan { IsNanSignificandAt shape result }
{
    if signals(shape, significand) {
        significand | quiet_bit(shape)
    } else {
        significand
    }
}

/// The significand of the quiet NaN with that payload.
#[inline(always)]
pub fn quiet_significand(shape: Shape, payload: u128) -> u128
    ensures value { result ≡ quiet_significand (format_at shape) payload }
    ensures nan { IsNanSignificandAt shape result }
{
    (nan_base(shape) | quiet_bits(shape)) | (payload & payload_mask(shape))
}

/// The significand, given a payload if it had none: without one, the encoding would be that of an infinity.
#[inline(always)]
fn with_payload(shape: Shape, significand: u128) -> u128
    ensures { result ≡ with_payload (format_at shape) significand }
{
    if significand & payload_mask(shape) == 0 {
        significand | (quiet_bit(shape) / 2)
    } else {
        significand
    }
}

/// The significand of the signaling NaN with that payload.
#[inline(always)]
pub fn signaling_significand(shape: Shape, payload: u128) -> u128
    ensures value { result ≡ signaling_significand (format_at shape) payload }
    ensures nan { IsNanSignificandAt shape result }
{
    let quiet = quiet_significand(shape, payload);
    with_payload(shape, quiet - (quiet & quiet_bit(shape)))
}

/// The positive quiet NaN with the bits of that payload that fit in the format (6.2.1).
#[inline(always)]
pub fn quiet_nan(shape: Shape, payload: u128) -> Unpacked
    ensures stored { IsStored shape result }
    ensures datum { datum_at shape result ≡ qnan (format_at shape) payload }
{
    nan_of(shape, false, quiet_significand(shape, payload))
}

/// The positive signaling NaN with the bits of that payload that fit in the format, but never without a payload
/// (6.2.1). In a format with only one NaN, it is that one.
#[inline(always)]
pub fn signaling_nan(shape: Shape, payload: u128) -> Unpacked
    ensures stored { IsStored shape result }
    ensures datum { datum_at shape result ≡ snan (format_at shape) payload }
{
    nan_of(shape, false, signaling_significand(shape, payload))
}

/// The NaN, quieted.
#[inline(always)]
fn quieted(shape: Shape, x: Unpacked) -> Unpacked
    requires stored { IsStored shape x }
    requires nan { x.category ≡ NaN }
    ensures stored { IsStored shape result }
    ensures datum { datum_at shape result
        ≡ nan x.negative (quieted (format_at shape) x.significand) }
{
    nan_of(shape, x.negative, quieted_significand(shape, x.significand))
}

/// The status of an operation on NaNs, where `signaling` says whether one of them is signaling (7.2).
#[inline(always)]
pub fn status_of(signaling: bool) -> Status
    ensures { bits_of result ≡ invalid_if signaling }
{
    if signaling {
        Status::INVALID_OP
    } else {
        Status::OK
    }
}

/// The result of an operation with one NaN operand, `x` (6.2.3).
#[inline(always)]
pub fn propagated(shape: Shape, x: Unpacked) -> StatusAnd<Unpacked>
    requires stored { IsStored shape x }
    requires nan { x.category ≡ NaN }
    ensures stored { IsStored shape result.value }
    ensures delivered { GivesAt shape (IsOfNan (format_at shape) x.negative x.significand) result }
{
    status_of(signals(shape, x.significand)).and(quieted(shape, x))
}

/// The result of an operation whose left operand `x` is a NaN: that NaN, with a flag if either operand is signaling
/// (6.2.3).
#[inline(always)]
pub fn propagated_left(shape: Shape, x: Unpacked, y: Unpacked) -> StatusAnd<Unpacked>
    requires x_stored { IsStored shape x }
    requires y_stored { IsStored shape y }
    requires nan { x.category ≡ NaN }
    ensures stored { IsStored shape result.value }
    ensures delivered { GivesAt shape
        (IsOfNans (format_at shape) x.negative x.significand (datum_at shape y)) result }
{
    let signaling = signals(shape, x.significand) || is_signaling(shape, y);
    status_of(signaling).and(quieted(shape, x))
}

/// The result of an invalid operation (7.2): the quiet NaN without a payload.
#[inline(always)]
pub fn invalid(shape: Shape) -> StatusAnd<Unpacked>
    ensures stored { IsStored shape result.value }
    ensures delivered { GivesAt shape (IsInvalid (format_at shape)) result }
{
    Status::INVALID_OP.and(quiet_nan(shape, 0))
}
