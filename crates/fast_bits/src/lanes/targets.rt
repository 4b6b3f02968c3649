//! The formats that singles are converted to.

ghost use Rattle.std.specs.Prelude.{◌≡◌, ◌+◌, ◌^◌, ◌≤◌};
ghost use Rattle.fast_bits.specs.lanes.{At.format_at, Targets.largest_code};

use crate::lanes::constants::Target;
use apfloat_model::NonfiniteBehavior;

/// How many places numbers within the range of the target have, and one more.
#[inline(always)]
pub(crate) fn places(target: Target) -> u32
    ensures is { result ≡ (format_at target).span + 1 }
    ensures below { result ≤ 254 }
{
    (target.max_exp - target.min_exp + 1) as u32
}

/// The encoding of the largest value, without its sign.
#[inline(always)]
pub(crate) fn largest_code(target: Target) -> u32
    ensures is { result ≡ largest_code (format_at target) }
    ensures below { result + 2 ≤ 2 ^ 16 }
{
    let next = (places(target) + 1) << (target.precision - 1);
    match target.nonfinite {
        NonfiniteBehavior::IEEE754 | NonfiniteBehavior::NanNegativeZero => next - 1,
        NonfiniteBehavior::NanOnly => next - 2,
    }
}
