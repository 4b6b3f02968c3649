//! One number, from bits to bits.

ghost use Rattle.std.specs.Prelude.{◌≡◌, ◌⊎◌, ℕ, ◌+◌, ◌-◌, ◌*◌, ◌/◌, ◌%◌, ◌^◌, ◌<◌, ◌≤◌, min, Bool, false, not, ◌&&◌};
ghost use Rattle.std.specs.Prelude.{eqb, ltb, leb, if◌then◌else◌, IsTrue};
ghost use Rattle.std.specs.Int.RustNames.{bit_and};
ghost use Rattle.apfloat_model.specs.declared.kinds.Round.{Round as Mode};
ghost use Rattle.apfloat_model.specs.{bits.Layout.Layout, formats.Format.Format};
ghost use Rattle.fast_bits.specs.lanes.At.{format_at, layout_at};
ghost use Rattle.fast_bits.specs.lanes.Lanes.{IsConvertedLane, IsDeliveredLane, IsLane, IsPastLane, IsRounded};
ghost use Rattle.fast_bits.specs.lanes.{Scaled.IsReachedLane, Sides.IsSideOf, Sides.LeadsPast};
ghost use Rattle.fast_bits.specs.lanes.Targets.{IsSingleFormat, has_one_zero, is_ieee, largest_code, signed_code};

use crate::lanes::constants::{Addend, Side, Target};
use crate::lanes::few_counts::one_if;
use crate::lanes::plans::Plan;
use crate::lanes::scaled::{Scaled, scaled_to};
use crate::lanes::special_lanes::with_special;
use crate::lanes::targets::largest_code;
use apfloat_model::NonfiniteBehavior;

/// A converted value.
#[derive(Clone, Copy)]
pub struct Lane {
    /// The bits of its encoding.
    pub bits: u32,
    /// Whether it raised `INEXACT`.
    pub inexact: bool,
    /// Whether it raised `UNDERFLOW`.
    pub underflow: bool,
    /// Whether it raised `OVERFLOW`.
    pub overflow: bool,
    /// Whether it raised `INVALID_OP`.
    pub invalid: bool,
    /// Whether it became a NaN.
    pub is_nan: bool,
}

/// Whether the bits of a single encode a number.
#[inline(always)]
pub fn is_finite(bits: u32) -> bool
    ensures { result ≡ ltb (bits % 2 ^ 31) (255 * 2 ^ 23) }
{
    bits % 0x8000_0000 < 0x7f80_0000
}

/// What is kept, moved up where the mode rounds up: the encoding that a number is rounded to, as if exponents went on
/// past the greatest one.
#[inline(always)]
fn carried(addend: Addend, scaled: Scaled) -> u16
    requires { scaled.kept + 2 < 2 ^ 16 }
    ensures { result ≡ (scaled.kept * 2 ^ 16 + scaled.rest
        + (addend.always + bit_and scaled.kept addend.if_odd)) / 2 ^ 16 }
{
    let added = addend.always as u16 + (scaled.kept & addend.if_odd as u16);
    scaled.kept + one_if(scaled.rest > 0xffff - added)
}

/// Whether an encoding without its sign is past that of the largest value.
#[inline(always)]
fn is_past(target: Target, code: u32) -> bool
    ensures { result ≡ ltb (largest_code (format_at target)) code }
{
    code > largest_code(target)
}

/// Whether a result is not tiny: by the digits that are kept, or by its encoding.
#[inline(always)]
fn is_normal(target: Target, kept: u32, rounded: u32) -> bool
    ensures { result ≡ (if target.tiny_before_rounding then leb (2 ^ (target.precision - 1)) kept
        else leb (2 ^ (target.precision - 1)) rounded) }
{
    let normal = 1 << (target.precision - 1);
    if target.tiny_before_rounding {
        kept >= normal
    } else {
        rounded >= normal
    }
}

/// Whether an encoding without its sign is that of a NaN.
#[inline(always)]
fn is_nan_code(target: Target, code: u32) -> bool
    ensures { result ≡ (not (is_ieee target.nonfinite)
        && ltb (largest_code (format_at target)) code) }
{
    (target.nonfinite != NonfiniteBehavior::IEEE754) & is_past(target, code)
}

/// An encoding with its sign. Without negative zeros, the sign bit alone is the NaN, and a zero has no sign.
#[inline(always)]
fn with_sign(target: Target, negative: bool, code: u32) -> u32
    requires small { code < 2 ^ 17 }
    ensures { result ≡ signed_code target.nonfinite target.bits negative code }
{
    let sign = 1 << (target.bits - 1);
    let is_bare = (target.nonfinite == NonfiniteBehavior::NanNegativeZero) & (code % sign == 0);
    code + (u32::from(negative & !is_bare) << (target.bits - 1))
}

/// A rounded number, encoded and with its flags. `code` is what is delivered for it, and `some` says whether digits
/// were lost.
#[inline(always)]
pub(crate) fn delivered(
    target: Target,
    raises: bool,
    negative: bool,
    kept: u32,
    rounded: u32,
    code: u32,
    some: bool,
) -> Lane
    requires small { code < 2 ^ 17 }
    ensures { IsDeliveredLane (format_at target) target.bits raises negative kept rounded code some
        result }
{
    let past = is_past(target, rounded);
    let inexact = some | past;
    let normal = is_normal(target, kept, rounded);
    Lane {
        bits: with_sign(target, negative, code),
        inexact,
        underflow: inexact & !normal,
        overflow: past & raises,
        invalid: false,
        is_nan: is_nan_code(target, code),
    }
}

/// A scaled number, rounded and encoded.
#[inline(always)]
fn finish(target: Target, side: Side, negative: bool, scaled: Scaled) -> Lane
    requires scaled { scaled.kept + 2 < 2 ^ 16 }
    ensures { (saturates : Bool) (mode : Mode) (amount parts : ℕ) → 0 < parts
        → IsSideOf 16 saturates (format_at target) mode negative side
        → IsReachedLane (format_at target) (scaled.kept * 2 ^ 16 + scaled.rest) amount parts
        → IsRounded saturates (format_at target) (layout_at target) mode negative amount parts
        result }
{
    let rounded = carried(side.addend, scaled);
    let code = rounded.min(side.greatest as u16);
    delivered(
        target,
        side.raises,
        negative,
        u32::from(scaled.kept),
        u32::from(rounded),
        u32::from(code),
        scaled.rest != 0,
    )
}

/// Whether a zero of this sign loses it.
#[inline(always)]
pub(crate) fn loses_sign(target: Target, negative: bool, zero: bool) -> bool
    ensures { result ≡ (has_one_zero target.nonfinite && negative && zero) }
{
    (target.nonfinite == NonfiniteBehavior::NanNegativeZero) & negative & zero
}

/// Converts a finite single, given the upper and the lower half of its bits. An infinity or a NaN is taken for a number
/// past the largest value.
#[inline(always)]
fn convert_number(plan: Plan, upper: u16, lower: u16) -> Lane
    ensures below { result.bits < 2 ^ plan.target.bits }
    ensures converted { (single : Format) (layout : Layout) → upper % 2 ^ 15 < 255 * 2 ^ 7
        → IsSingleFormat single layout
        → IsConvertedLane plan.saturates single layout (format_at plan.target)
        (layout_at plan.target) plan.round (upper * 2 ^ 16 + lower) result }
    ensures past { 255 * 2 ^ 7 ≤ upper % 2 ^ 15 → LeadsPast plan.saturates plan.round
        → IsPastLane (format_at plan.target) (layout_at plan.target) (eqb (upper / 2 ^ 15) 1)
        result }
{
    let negative = upper / 0x8000 == 1;
    let magnitude = upper % 0x8000;
    let side = if negative {
        plan.negative
    } else {
        plan.positive
    };
    let scaled = scaled_to(plan.target, magnitude, lower);
    let lane = finish(plan.target, side, negative, scaled);
    let zero = (magnitude == 0) & (lower == 0);
    Lane {
        inexact: lane.inexact | loses_sign(plan.target, negative, zero),
        ..lane
    }
}

/// Converts a single, given the upper and the lower half of its bits. With `specials` it may be an infinity or a NaN.
#[inline(always)]
pub fn convert_single(plan: Plan, specials: bool, upper: u16, lower: u16) -> Lane
    requires number { specials ≡ false → upper % 2 ^ 15 < 255 * 2 ^ 7 }
    requires leads { IsTrue specials → LeadsPast plan.saturates plan.round }
    ensures below { result.bits < 2 ^ plan.target.bits }
    ensures converted { (single : Format) (layout : Layout) → IsSingleFormat single layout
        → IsLane plan.saturates single layout (format_at plan.target) (layout_at plan.target)
        plan.round (upper * 2 ^ 16 + lower) result }
{
    let magnitude = upper % 0x8000;
    let special = specials & (magnitude >= 0x7f80);
    let nan = specials & ((magnitude >= 0x7f80) & ((magnitude != 0x7f80) | (lower != 0)));
    with_special(
        plan.target,
        convert_number(plan, upper, lower),
        special,
        nan,
        upper % 0x80 * 0x200 + lower / 0x80,
    )
}
