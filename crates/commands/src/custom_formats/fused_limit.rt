//! The most digits for which `mul_add_r` exists.

ghost use Rattle.std.specs.Prelude.{◌-◌, ◌^◌, pos, negsuc, true, false, refl};
ghost use Rattle.apfloat_model.specs.declared.kinds.NonfiniteBehavior.TheVariants.{IEEE754};
ghost use Rattle.rustc_apfloat.proofs.LawTest.{lawful_from_test};

use rustc_apfloat::ExpInt;
use rustc_apfloat::ieee::{IeeeFloat, NonfiniteBehavior, Semantics};

/// 63 digits in 72 bits: with one digit more there is no `mul_add_r`.
#[derive(Clone, Copy)]
pub struct FusedLimitS;

impl Semantics for FusedLimitS {
    const BITS: usize = 72;

    const EXP_BITS: usize = 9;

    const PRECISION: usize = 63;

    const NONFINITE_BEHAVIOR: NonfiniteBehavior = NonfiniteBehavior::IEEE754;

    const MAX_EXP: ExpInt = 255;

    const IEEE_MAX_EXP: ExpInt = 255;

    const MIN_EXP: ExpInt = -254;

    const IEEE_MIN_EXP: ExpInt = -254;

    const NAN_SIGNIFICAND_BASE: u128 = 0;

    const NAN_PAYLOAD_MASK: u128 = (1 << 62) - 1;

    const QNAN_SIGNIFICAND: u128 = 1 << 61;

    const EXPLICIT_INTEGER_BIT: bool = false;

    const TINY_BEFORE_ROUNDING: bool = false;

    ghost BITS = { 72 };

    ghost EXP_BITS = { 9 };

    ghost PRECISION = { 63 };

    ghost NONFINITE_BEHAVIOR = { IEEE754 };

    ghost MAX_EXP = { pos 255 };

    ghost IEEE_MAX_EXP = { pos 255 };

    ghost MIN_EXP = { negsuc 253 };

    ghost IEEE_MIN_EXP = { negsuc 253 };

    ghost NAN_SIGNIFICAND_BASE = { 0 };

    ghost NAN_PAYLOAD_MASK = { 2 ^ 62 - 1 };

    ghost QNAN_SIGNIFICAND = { 2 ^ 61 };

    ghost EXPLICIT_INTEGER_BIT = { false };

    ghost TINY_BEFORE_ROUNDING = { false };

    ghost lawful = { lawful_from_test _ refl };
}

/// A value of 63 digits.
pub type FusedLimit = IeeeFloat<FusedLimitS>;
