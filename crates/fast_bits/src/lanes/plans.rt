//! What is done with each number.

ghost use Rattle.std.specs.Prelude.{true, false, ◌-◌, ◌^◌, ◌<◌};
ghost use Rattle.fast_bits.specs.lanes.{At.format_at, At.layout_at, Sides.IsSideOf, Targets.IsShortFormat};

use crate::lanes::constants::{Side, Target};
use apfloat_model::Round;

/// A conversion of singles: to this format, in this mode, with the constants that follow from them.
#[derive(Clone, Copy)]
pub struct Plan {
    /// The format.
    pub target: Target,
    /// Whether the largest value stands for what is past it.
    pub saturates: bool,
    /// The rounding mode.
    pub round: Round,
    /// What the mode does with positive numbers.
    pub positive: Side,
    /// What it does with negative numbers.
    pub negative: Side,
    ghost positive_is: { IsSideOf 16 saturates (format_at target) round false positive },
    ghost negative_is: { IsSideOf 16 saturates (format_at target) round true negative },
}

/// A conversion of the upper sixteen bits of singles: to a short format, for which these are enough.
#[derive(Clone, Copy)]
pub struct ShortPlan {
    /// The format.
    pub target: Target,
    /// Whether the largest value stands for what is past it.
    pub saturates: bool,
    /// The rounding mode.
    pub round: Round,
    /// What the mode does with positive numbers.
    pub positive: Side,
    /// What it does with negative numbers.
    pub negative: Side,
    ghost short: { IsShortFormat (layout_at target) target.precision target.min_exp },
    ghost positive_is: { IsSideOf (15 - target.precision) saturates (format_at target) round false
        positive },
    ghost negative_is: { IsSideOf (15 - target.precision) saturates (format_at target) round true
        negative },
    ghost positive_below: { positive.addend.always < 2 ^ 15 },
    ghost negative_below: { negative.addend.always < 2 ^ 15 },
}
