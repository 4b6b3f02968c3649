//! Which conversions of singles need no general way for numbers.

ghost use Rattle.std.specs.Prelude.{◌≡◌, ◌<◌, ◌≤◌, pos, negsuc, ◌≤ℤ◌, false, IsTrue};
ghost use Rattle.fast_bits.specs.lanes.At.{format_at, layout_at};
ghost use Rattle.fast_bits.specs.lanes.Targets.{IsShortFormat, IsSingleFormat, IsTarget};
ghost use Rattle.rustc_apfloat.specs.{FlaggedTypes.format_of, FlaggedTypes.layout_of, Standing.reads_halves};
ghost use Rattle.apfloat_arrays.specs.Singles.{saturates};

use fast_bits::lanes::Target;
use rustc_apfloat::ieee::{Flagged, NonfiniteBehavior};
use small_formats::saturation::Overflow;

/// Whether the largest value stands for what is past it.
#[inline(always)]
pub fn saturates(overflow: Overflow) -> bool
    ensures { result ≡ saturates overflow }
{
    match overflow {
        Overflow::Rounded => false,
        Overflow::Saturated | Overflow::Finite(_) => true,
    }
}

/// Whether `S` is the format of singles.
#[inline(always)]
pub fn is_single<S: Flagged>() -> bool
    ensures { IsTrue result → IsSingleFormat (format_of S.Flagged) (layout_of S.Flagged) }
{
    (S::BITS == 32)
        & (S::EXP_BITS == 8)
        & (S::PRECISION == 24)
        & (S::MIN_EXP == -126)
        & (S::NONFINITE_BEHAVIOR == NonfiniteBehavior::IEEE754)
        & !S::EXPLICIT_INTEGER_BIT
}

/// Whether UNDERFLOW does not depend on half quanta.
#[inline(always)]
fn has_plain_rule<T: Flagged>() -> bool
    ensures { IsTrue result → reads_halves (format_of T.Flagged) ≡ false }
{
    !T::IEEE_FLAGS | T::TINY_BEFORE_ROUNDING
}

/// Whether the exponents of `T` are among those of singles.
#[inline(always)]
fn has_exponents<T: Flagged>() -> bool
    ensures { IsTrue result → (negsuc 125 ≤ℤ T.MIN_EXP) × (T.MAX_EXP ≤ℤ pos 127) }
{
    (T::MIN_EXP >= -126) & (T::MAX_EXP <= 127)
}

/// Whether `T` has at most 16 bits and 11 digits, with an implied integer bit.
#[inline(always)]
fn is_short<T: Flagged>() -> bool
    ensures { IsTrue result
        → (T.BITS ≤ 16) × (T.PRECISION ≤ 11) × (T.EXPLICIT_INTEGER_BIT ≡ false) }
{
    (T::BITS <= 16) & (T::PRECISION <= 11) & !T::EXPLICIT_INTEGER_BIT
}

/// Whether finite singles are converted to `T` in blocks.
#[inline(always)]
pub fn is_target<T: Flagged>() -> bool
    requires { T.PRECISION < T.BITS }
    ensures { IsTrue result
        → IsTarget (format_of T.Flagged) (layout_of T.Flagged) T.MIN_EXP T.MAX_EXP }
{
    is_short::<T>() & has_exponents::<T>() & has_plain_rule::<T>()
}

/// Whether the upper sixteen bits of a single are enough for `T`.
#[inline(always)]
pub fn is_short_target<T: Flagged>() -> bool
    ensures { IsTrue result → IsShortFormat (layout_of T.Flagged) T.PRECISION T.MIN_EXP }
{
    (T::BITS <= 8) & (T::PRECISION <= 6) & (T::MIN_EXP >= -119)
}

/// The constants of `T`.
#[inline(always)]
pub fn target_of<T: Flagged>() -> Target
    requires { IsTarget (format_of T.Flagged) (layout_of T.Flagged) T.MIN_EXP T.MAX_EXP }
    ensures format { format_at result ≡ format_of T.Flagged }
    ensures layout { layout_at result ≡ layout_of T.Flagged }
{
    Target {
        bits: T::BITS as u32,
        exp_bits: T::EXP_BITS as u32,
        precision: T::PRECISION as u32,
        min_exp: T::MIN_EXP,
        max_exp: T::MAX_EXP,
        nonfinite: T::NONFINITE_BEHAVIOR,
        tiny_before_rounding: T::TINY_BEFORE_ROUNDING,
        ieee_flags: T::IEEE_FLAGS,
    }
}
