//! Infinities and NaNs, by the steps that are the same for each number.

ghost use Rattle.std.specs.Prelude.{◌≡◌, ℕ, ◌*◌, ◌-◌, ◌/◌, ◌%◌, ◌^◌, ◌<◌, ◌≤◌, false, not, eqb, IsTrue};
ghost use Rattle.apfloat_model.specs.bits.Layout.{Layout};
ghost use Rattle.apfloat_model.specs.declared.kinds.Round.{Round as Mode};
ghost use Rattle.apfloat_model.specs.formats.{Format.Format, Nan.quieted};
ghost use Rattle.fast_bits.specs.lanes.{Lanes.IsPastLane, Lanes.IsPayload, Lanes.IsSpecialLane, Targets.IsSingleFormat};
ghost use Rattle.fast_bits.specs.lanes.At.{format_at, layout_at};

use crate::lanes::constants::Target;
use crate::lanes::lanes::Lane;
use apfloat_model::NonfiniteBehavior;

/// The first digits of a NaN's significand, made quiet, given sixteen of them.
#[inline(always)]
fn quiet_digits(target: Target, payload: u16) -> u16
    ensures is { (single : Format) (layout : Layout) (trailing : ℕ) → IsSingleFormat single layout
        → trailing < 2 ^ 23 → IsPayload target.precision trailing payload
        → result ≡ quieted single trailing / 2 ^ (24 - target.precision) }
    ensures below { result < 2 ^ 15 }
{
    (payload % 0x8000 + 0x8000) >> (17 - target.precision)
}

/// The lane of an infinity or a NaN, by that of a number past the largest value, which it is computed as. Any other
/// lane stays.
#[inline(always)]
pub(crate) fn with_special(
    target: Target,
    lane: Lane,
    special: bool,
    nan: bool,
    payload: u16,
) -> Lane
    requires { lane.bits < 2 ^ 16 }
    ensures number { special ≡ false → nan ≡ false → result ≡ lane }
    ensures special { (single : Format) (read : Layout) (mode : Mode) (bits : ℕ)
        → IsSingleFormat single read → bits < 2 ^ 32 → 255 * 2 ^ 23 ≤ bits % 2 ^ 31
        → IsPastLane (format_at target) (layout_at target) (eqb (bits / 2 ^ 31) 1) lane
        → IsTrue special → nan ≡ not (eqb (bits % 2 ^ 23) 0)
        → IsPayload target.precision (bits % 2 ^ 23) payload
        → IsSpecialLane single read (format_at target) (layout_at target) mode bits result }
{
    let ieee = target.nonfinite == NonfiniteBehavior::IEEE754;
    Lane {
        bits: if nan & ieee {
            lane.bits + u32::from(quiet_digits(target, payload))
        } else {
            lane.bits
        },
        inexact: !(special & (nan | ieee)) & lane.inexact,
        underflow: lane.underflow,
        overflow: !special & lane.overflow,
        invalid: (nan & (payload < 0x8000)) | lane.invalid,
        is_nan: (nan & ieee) | lane.is_nan,
    }
}
