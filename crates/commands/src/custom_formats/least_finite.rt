//! The fewest digits with the narrowest exponents, without infinities.

ghost use Rattle.std.specs.Prelude.{◌-◌, ◌*◌, ◌^◌, pos, negsuc, true, false, refl};
ghost use Rattle.apfloat_model.specs.declared.kinds.NonfiniteBehavior.TheVariants.{NanOnly};
ghost use Rattle.rustc_apfloat.proofs.LawTest.{lawful_from_test};

use rustc_apfloat::ExpInt;
use rustc_apfloat::ieee::{IeeeFloat, NonfiniteBehavior, Semantics};

/// Three digits, and exponents from -1 to 3; without infinities and without bits.
#[derive(Clone, Copy)]
pub struct LeastFiniteS;

impl Semantics for LeastFiniteS {
    const BITS: usize = 0;

    const EXP_BITS: usize = 0;

    const PRECISION: usize = 3;

    const NONFINITE_BEHAVIOR: NonfiniteBehavior = NonfiniteBehavior::NanOnly;

    const MAX_EXP: ExpInt = 3;

    const IEEE_MAX_EXP: ExpInt = 0;

    const MIN_EXP: ExpInt = -1;

    const IEEE_MIN_EXP: ExpInt = 0;

    const NAN_SIGNIFICAND_BASE: u128 = (1 << 2) - 1;

    const NAN_PAYLOAD_MASK: u128 = 0;

    const QNAN_SIGNIFICAND: u128 = 0;

    const EXPLICIT_INTEGER_BIT: bool = false;

    const TINY_BEFORE_ROUNDING: bool = false;

    ghost BITS = { 0 };

    ghost EXP_BITS = { 0 };

    ghost PRECISION = { 3 };

    ghost NONFINITE_BEHAVIOR = { NanOnly };

    ghost MAX_EXP = { pos 3 };

    ghost IEEE_MAX_EXP = { pos 0 };

    ghost MIN_EXP = { negsuc 0 };

    ghost IEEE_MIN_EXP = { pos 0 };

    ghost NAN_SIGNIFICAND_BASE = { 2 ^ 2 - 1 };

    ghost NAN_PAYLOAD_MASK = { 0 };

    ghost QNAN_SIGNIFICAND = { 0 };

    ghost EXPLICIT_INTEGER_BIT = { false };

    ghost TINY_BEFORE_ROUNDING = { false };

    ghost lawful = { lawful_from_test _ refl };
}

/// A value of three digits, without infinities.
pub type LeastFinite = IeeeFloat<LeastFiniteS>;
