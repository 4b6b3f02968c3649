//! Counts of few numbers.

ghost use Rattle.std.specs.Prelude.{◌≡◌, ℕ, ◌+◌, ◌≤◌};
ghost use Rattle.fast_bits.specs.lanes.FewCounts.{FewAreAtMost, one_if, with_lane};

use crate::lanes::lanes::Lane;

/// The counts of a block of few values, in words as short as those that numbers are converted in, so that a compiler
/// can count several at once.
#[derive(Clone, Copy)]
pub struct FewCounts {
    /// Those that raised `INEXACT`.
    pub inexact: u16,
    /// Those that raised `UNDERFLOW`.
    pub underflow: u16,
    /// Those that raised `OVERFLOW`.
    pub overflow: u16,
    /// Those that raised `INVALID_OP`.
    pub invalid: u16,
    /// Those whose converted value is a NaN.
    pub nans: u16,
}

/// 1 if something holds, and 0 otherwise.
#[inline(always)]
pub(crate) fn one_if(holds: bool) -> u16
    ensures { result ≡ one_if holds }
{
    u16::from(holds)
}

/// The counts after one more value.
#[inline(always)]
pub fn with_lane(few: FewCounts, lane: Lane) -> FewCounts
    requires { FewAreAtMost 65534 few }
    ensures counts { result ≡ with_lane few lane }
    ensures most { (most : ℕ) → FewAreAtMost most few → FewAreAtMost (most + 1) result }
{
    FewCounts {
        inexact: few.inexact + one_if(lane.inexact),
        underflow: few.underflow + one_if(lane.underflow),
        overflow: few.overflow + one_if(lane.overflow),
        invalid: few.invalid + one_if(lane.invalid),
        nans: few.nans + one_if(lane.is_nan),
    }
}
