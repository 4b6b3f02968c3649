//! The constants of a target, and of a mode.

ghost use Rattle.std.specs.Prelude.{◌+◌, ◌^◌, ◌<◌, ◌≤◌};
ghost use Rattle.fast_bits.specs.lanes.Targets.{IsTarget, format_with, layout_with};

use apfloat_model::{ExpInt, NonfiniteBehavior};

/// The constants of a format with an implied integer bit.
#[derive(Clone, Copy)]
pub struct Target {
    /// How many bits an encoding has.
    pub bits: u32,
    /// How many of them are the exponent's.
    pub exp_bits: u32,
    /// How many binary digits a significand has.
    pub precision: u32,
    /// The least exponent of a normal number.
    pub min_exp: ExpInt,
    /// The greatest exponent.
    pub max_exp: ExpInt,
    /// What stands for infinities and NaNs.
    pub nonfinite: NonfiniteBehavior,
    /// Whether tininess is detected before rounding.
    pub tiny_before_rounding: bool,
    /// Whether flags are raised as IEEE 754-2019 asks.
    pub ieee_flags: bool,
    ghost lawful: { IsTarget
        (format_with precision min_exp max_exp nonfinite tiny_before_rounding ieee_flags)
        (layout_with bits exp_bits) min_exp max_exp },
}

/// What is added to the sixteen digits below the last kept one, so that it carries where the mode rounds up.
#[derive(Clone, Copy)]
pub struct Addend {
    /// In each case.
    pub always: u32,
    /// More where the last kept digit is odd.
    pub if_odd: u32,
    ghost small: { always + if_odd < 2 ^ 16 },
    ghost one: { if_odd ≤ 1 },
}

/// What a mode does with numbers of one sign.
#[derive(Clone, Copy)]
pub struct Side {
    /// What is added to round them.
    pub addend: Addend,
    /// The greatest encoding that is delivered, without its sign.
    pub greatest: u32,
    /// Whether a number past the largest value raises OVERFLOW.
    pub raises: bool,
    ghost short: { greatest < 2 ^ 16 },
}
