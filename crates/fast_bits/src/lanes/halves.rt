//! Singles by their upper sixteen bits, which have more digits than formats of eight bits need.

ghost use Rattle.std.specs.Prelude.{◌≡◌, ◌+◌, ◌-◌, ◌*◌, ◌/◌, ◌%◌, ◌^◌, ◌<◌, ◌≤◌, min, pos, negsuc, ◌+ℤ◌, ◌≤ℤ◌, ltb};
ghost use Rattle.apfloat_model.specs.rounding.RoundingToOdd.{odd_quotient};

use crate::lanes::constants::Target;

/// The upper sixteen bits of a single, rounded to odd.
#[inline(always)]
pub fn upper_half(bits: u32) -> u16
    ensures { result ≡ odd_quotient bits (2 ^ 16) }
{
    (bits / 0x1_0000 | (bits % 0x1_0000 + 0xffff) / 0x1_0000) as u16
}

/// Whether they are those of a number.
#[inline(always)]
pub fn is_finite_half(half: u16) -> bool
    ensures { result ≡ ltb (half % 2 ^ 15) (255 * 2 ^ 7) }
{
    half % 0x8000 < 0x7f80
}

/// The significand of a number, as far as it is in its upper half, with its integer bit, which denormal numbers lack.
#[inline(always)]
pub(crate) fn significand_of(magnitude: u16) -> u16
    ensures is { result ≡ magnitude % 2 ^ 7 + min (magnitude / 2 ^ 7) 1 * 2 ^ 7 }
    ensures below { result < 2 ^ 8 }
{
    magnitude - (magnitude / 0x80).saturating_sub(1) * 0x80
}

/// The biased exponent of numbers whose digits are all below half of the target's quantum; seven more is that of its
/// least normal number.
#[inline(always)]
pub(crate) fn first_exponent(target: Target) -> u16
    requires { negsuc 118 ≤ℤ target.min_exp }
    ensures is { pos result ≡ (target.min_exp +ℤ pos 120) }
    ensures below { result < 2 ^ 7 }
{
    (target.min_exp + 120) as u16
}

/// A power of two, as a product of one for each binary digit of its exponent: vectors have no shift by places that
/// differ, and compilers make a longer way of it.
#[inline(always)]
pub(crate) fn power_of_two(exponent: u16) -> u16
    requires { exponent < 2 ^ 4 }
    ensures is { result ≡ 2 ^ exponent }
{
    let low = (exponent % 2 + 1) * (exponent / 2 % 2 * 4).max(1);
    let high = (exponent / 4 % 2 * 16).max(1) * (exponent / 8 % 2 * 256).max(1);
    low * high
}

/// A significand, moved up: by fewer places for each that the number is below the least normal one.
#[inline(always)]
fn moved(significand: u16, exponent: u16, first: u16) -> u16
    requires { significand < 2 ^ 8 }
    ensures is { result ≡ significand * 2 ^ min (exponent - first) 7 }
    ensures below { result < 2 ^ 15 }
{
    significand * power_of_two((exponent.max(first) - first).min(7))
}

/// The digits of a number, the target's last one at a place of its own.
#[inline(always)]
pub(crate) fn digits_of(magnitude: u16, first: u16) -> u16
    ensures is { result ≡ (magnitude % 2 ^ 7 + min (magnitude / 2 ^ 7) 1 * 2 ^ 7)
        * 2 ^ min (magnitude / 2 ^ 7 - first) 7 }
    ensures below { result < 2 ^ 15 }
{
    moved(significand_of(magnitude), magnitude / 0x80, first)
}

/// The place of a number among the target's, from that of its least normal one on.
#[inline(always)]
pub(crate) fn place_of(magnitude: u16, first: u16) -> u16
    requires magnitude { magnitude < 2 ^ 15 }
    requires first { first < 2 ^ 7 }
    ensures is { result ≡ magnitude / 2 ^ 7 - (first + 7) }
    ensures below { result < 2 ^ 8 }
{
    (magnitude / 0x80).max(first + 7) - (first + 7)
}
