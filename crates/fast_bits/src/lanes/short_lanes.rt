//! One number from its upper sixteen bits, to a format of at most eight.

ghost use Rattle.std.specs.Prelude.{◌≡◌, ℕ, ◌+◌, ◌-◌, ◌*◌, ◌/◌, ◌%◌, ◌^◌, ◌<◌, ◌≤◌, Bool, false, not, eqb, nat_eq};
ghost use Rattle.std.specs.{Prelude.IsTrue, Int.RustNames.bit_and};
ghost use Rattle.apfloat_model.specs.{bits.Layout.Layout, formats.Format.Format, rounding.RoundingToOdd.odd_quotient};
ghost use Rattle.apfloat_model.specs.declared.kinds.Round.{Round as Mode};
ghost use Rattle.fast_bits.specs.lanes.{Scaled.IsScaled, Sides.IsSideOf, Sides.LeadsPast, Targets.IsSingleFormat};
ghost use Rattle.fast_bits.specs.lanes.At.{format_at, layout_at};
ghost use Rattle.fast_bits.specs.lanes.Lanes.{IsConvertedLane, IsLane, IsPastLane, IsRounded};

use crate::lanes::constants::{Addend, Side, Target};
use crate::lanes::halves::{digits_of, first_exponent, place_of};
use crate::lanes::lanes::{Lane, delivered, loses_sign};
use crate::lanes::plans::ShortPlan;
use crate::lanes::special_lanes::with_special;

/// Digits without those below the last kept one.
#[inline(always)]
fn kept(target: Target, digits: u16) -> u16
    requires { target.precision ≤ 6 }
    ensures is { result ≡ digits / 2 ^ (15 - target.precision) }
    ensures below { result < 2 ^ 7 }
{
    digits >> (15 - target.precision)
}

/// Whether there are digits below the last kept one.
#[inline(always)]
fn has_rest(target: Target, digits: u16) -> bool
    requires { target.precision ≤ 6 }
    ensures { result ≡ not (nat_eq (digits % 2 ^ (15 - target.precision)) 0) }
{
    digits % (1 << (15 - target.precision)) != 0
}

/// What is kept, moved up where the mode rounds up.
#[inline(always)]
fn carried(target: Target, addend: Addend, digits: u16) -> u16
    requires precision { target.precision ≤ 6 }
    requires digits { digits < 2 ^ 15 }
    requires addend { addend.always < 2 ^ 15 }
    ensures is { result ≡ (digits + (addend.always
        + bit_and (digits / 2 ^ (15 - target.precision)) addend.if_odd))
        / 2 ^ (15 - target.precision) }
    ensures below { result < 2 ^ 7 }
{
    let one = kept(target, digits) & addend.if_odd as u16;
    kept(target, digits + (addend.always as u16 + one))
}

/// What a place adds to an encoding.
#[inline(always)]
fn placed(target: Target, place: u16) -> u16
    requires precision { target.precision ≤ 6 }
    requires place { place < 2 ^ 8 }
    ensures is { result ≡ place * 2 ^ (target.precision - 1) }
    ensures below { result < 2 ^ 13 }
{
    place << (target.precision - 1)
}

/// A number, rounded and encoded.
#[inline(always)]
fn finish(target: Target, side: Side, negative: bool, digits: u16, place: u16) -> Lane
    requires precision { target.precision ≤ 6 }
    requires digits { digits < 2 ^ 15 }
    requires place { place < 2 ^ 8 }
    requires addend { side.addend.always < 2 ^ 15 }
    ensures { (saturates : Bool) (mode : Mode) (amount parts : ℕ) → 0 < parts
        → IsSideOf (15 - target.precision) saturates (format_at target) mode negative side
        → IsScaled target.precision (15 - target.precision) (digits + place * 2 ^ 14) amount parts
        → IsRounded saturates (format_at target) (layout_at target) mode negative amount parts
        result }
{
    let places = placed(target, place);
    let rounded = carried(target, side.addend, digits) + places;
    let code = rounded.min(side.greatest as u16);
    delivered(
        target,
        side.raises,
        negative,
        u32::from(kept(target, digits) + places),
        u32::from(rounded),
        u32::from(code),
        has_rest(target, digits),
    )
}

/// Converts a finite single, given its upper sixteen bits, rounded to odd. An infinity or a NaN is taken for a number
/// past the largest value.
#[inline(always)]
fn convert_number(plan: ShortPlan, half: u16) -> Lane
    ensures below { result.bits < 2 ^ plan.target.bits }
    ensures converted { (bits : ℕ) (single : Format) (layout : Layout)
        → half % 2 ^ 15 < 255 * 2 ^ 7 → half ≡ odd_quotient bits (2 ^ 16)
        → IsSingleFormat single layout
        → IsConvertedLane plan.saturates single layout (format_at plan.target)
        (layout_at plan.target) plan.round bits result }
    ensures past { 255 * 2 ^ 7 ≤ half % 2 ^ 15 → LeadsPast plan.saturates plan.round
        → IsPastLane (format_at plan.target) (layout_at plan.target) (eqb (half / 2 ^ 15) 1) result }
{
    let negative = half / 0x8000 == 1;
    let magnitude = half % 0x8000;
    let first = first_exponent(plan.target);
    let side = if negative {
        plan.negative
    } else {
        plan.positive
    };
    let lane = finish(
        plan.target,
        side,
        negative,
        digits_of(magnitude, first),
        place_of(magnitude, first),
    );
    Lane {
        inexact: lane.inexact | loses_sign(plan.target, negative, magnitude == 0),
        ..lane
    }
}

/// Converts a single, given its upper sixteen bits, rounded to odd. With `specials` it may be an infinity or a NaN.
#[inline(always)]
pub fn convert_half(plan: ShortPlan, specials: bool, half: u16) -> Lane
    requires number { specials ≡ false → half % 2 ^ 15 < 255 * 2 ^ 7 }
    requires leads { IsTrue specials → LeadsPast plan.saturates plan.round }
    ensures below { result.bits < 2 ^ plan.target.bits }
    ensures converted { (bits : ℕ) (single : Format) (layout : Layout)
        → half ≡ odd_quotient bits (2 ^ 16) → IsSingleFormat single layout
        → IsLane plan.saturates single layout (format_at plan.target) (layout_at plan.target)
        plan.round bits result }
{
    let magnitude = half % 0x8000;
    let special = specials & (magnitude >= 0x7f80);
    let nan = specials & (magnitude > 0x7f80);
    with_special(
        plan.target,
        convert_number(plan, half),
        special,
        nan,
        half % 0x80 * 0x200,
    )
}
