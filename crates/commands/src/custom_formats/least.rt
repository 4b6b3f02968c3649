//! The fewest digits.

ghost use Rattle.std.specs.Prelude.{◌-◌, ◌^◌, pos, negsuc, true, false, refl};
ghost use Rattle.apfloat_model.specs.declared.kinds.NonfiniteBehavior.TheVariants.{IEEE754};
ghost use Rattle.rustc_apfloat.proofs.LawTest.{lawful_from_test};

use rustc_apfloat::ExpInt;
use rustc_apfloat::ieee::{IeeeFloat, NonfiniteBehavior, Semantics};

/// Three digits, the fewest that a format may have, with the narrowest range of exponents; without bits.
#[derive(Clone, Copy)]
pub struct LeastS;

impl Semantics for LeastS {
    const BITS: usize = 0;

    const EXP_BITS: usize = 0;

    const PRECISION: usize = 3;

    const NONFINITE_BEHAVIOR: NonfiniteBehavior = NonfiniteBehavior::IEEE754;

    const MAX_EXP: ExpInt = 3;

    const IEEE_MAX_EXP: ExpInt = 0;

    const MIN_EXP: ExpInt = -1;

    const IEEE_MIN_EXP: ExpInt = 0;

    const NAN_SIGNIFICAND_BASE: u128 = 0;

    const NAN_PAYLOAD_MASK: u128 = (1 << 2) - 1;

    const QNAN_SIGNIFICAND: u128 = 1 << 1;

    const EXPLICIT_INTEGER_BIT: bool = false;

    const TINY_BEFORE_ROUNDING: bool = false;

    ghost BITS = { 0 };

    ghost EXP_BITS = { 0 };

    ghost PRECISION = { 3 };

    ghost NONFINITE_BEHAVIOR = { IEEE754 };

    ghost MAX_EXP = { pos 3 };

    ghost IEEE_MAX_EXP = { pos 0 };

    ghost MIN_EXP = { negsuc 0 };

    ghost IEEE_MIN_EXP = { pos 0 };

    ghost NAN_SIGNIFICAND_BASE = { 0 };

    ghost NAN_PAYLOAD_MASK = { 2 ^ 2 - 1 };

    ghost QNAN_SIGNIFICAND = { 2 ^ 1 };

    ghost EXPLICIT_INTEGER_BIT = { false };

    ghost TINY_BEFORE_ROUNDING = { false };

    ghost lawful = { lawful_from_test _ refl };
}

/// A value of three digits.
pub type Least = IeeeFloat<LeastS>;
