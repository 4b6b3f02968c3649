//! The number that a significand and an exponent spell.

ghost use Rattle.std.specs.Prelude.{ℕ, ◌*◌, ◌^◌, ℤ, pos, ◌-ℤ◌, ◌+ℤ◌};
ghost use Rattle.apfloat_model.specs.{rounding.Bounds.IsWithin, texts.Readings.IsScaledDelivery};
ghost use Rattle.apfloat_rounding.specs.{Shapes.format_at, Stored.IsStored, Stored.GivesAt};
ghost use Rattle.apfloat_conversions.specs.hex_texts.Scans.{IsKept};
ghost use Rattle.apfloat_conversions.specs.hex_texts.Saturation.{IsNear, count_bound, far_bound};

use crate::hex_texts::exponent::unit_exponent;
use crate::hex_texts::significand::Digits;
use apfloat_model::{Round, Status, StatusAnd};
use apfloat_rounding::rounding::deliver;
use apfloat_rounding::shape::Shape;
use apfloat_rounding::unpacked::{Unpacked, zero_of};

/// The number with these digits, of which `places` follow the dot, times 2 to the power of `exponent`, rounded once. A
/// saturated exponent gives the same result as the exact one.
#[inline(always)]
pub fn delivered(
    shape: Shape,
    negative: bool,
    digits: Digits,
    places: usize,
    exponent: i128,
    round: Round,
) -> StatusAnd<Unpacked>
    requires kept { (number : ℕ) × IsKept number digits }
    requires within { IsWithin count_bound exponent }
    ensures stored { IsStored shape result.value }
    ensures delivered { (number : ℕ) (exact : ℤ)
        → IsKept number digits → IsNear far_bound exact exponent
        → GivesAt shape (IsScaledDelivery (format_at shape) round negative number
        ((exact -ℤ pos (4 * places)) +ℤ pos (format_at shape).scale)) result }
{
    if digits.significand == 0 {
        return Status::OK.and(zero_of(shape, negative));
    }
    let unit = unit_exponent(exponent, digits.cut, places);
    deliver(
        shape,
        digits.significand,
        unit,
        digits.loss,
        round,
        negative,
    )
}
