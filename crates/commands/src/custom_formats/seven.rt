//! Seven bits, with an unusual bias.

ghost use Rattle.std.specs.Prelude.{◌-◌, ◌^◌, pos, negsuc, true, false, refl};
ghost use Rattle.apfloat_model.specs.declared.kinds.NonfiniteBehavior.TheVariants.{IEEE754};
ghost use Rattle.rustc_apfloat.proofs.LawTest.{lawful_from_test};

use rustc_apfloat::ExpInt;
use rustc_apfloat::ieee::{IeeeFloat, NonfiniteBehavior, Semantics};

/// Seven bits, with all exponents one greater than in IEEE 754.
#[derive(Clone, Copy)]
pub struct SevenS;

impl Semantics for SevenS {
    const BITS: usize = 7;

    const EXP_BITS: usize = 3;

    const PRECISION: usize = 4;

    const NONFINITE_BEHAVIOR: NonfiniteBehavior = NonfiniteBehavior::IEEE754;

    const MAX_EXP: ExpInt = 4;

    const IEEE_MAX_EXP: ExpInt = 3;

    const MIN_EXP: ExpInt = -1;

    const IEEE_MIN_EXP: ExpInt = -2;

    const NAN_SIGNIFICAND_BASE: u128 = 0;

    const NAN_PAYLOAD_MASK: u128 = (1 << 3) - 1;

    const QNAN_SIGNIFICAND: u128 = 1 << 2;

    const EXPLICIT_INTEGER_BIT: bool = false;

    const TINY_BEFORE_ROUNDING: bool = false;

    ghost BITS = { 7 };

    ghost EXP_BITS = { 3 };

    ghost PRECISION = { 4 };

    ghost NONFINITE_BEHAVIOR = { IEEE754 };

    ghost MAX_EXP = { pos 4 };

    ghost IEEE_MAX_EXP = { pos 3 };

    ghost MIN_EXP = { negsuc 0 };

    ghost IEEE_MIN_EXP = { negsuc 1 };

    ghost NAN_SIGNIFICAND_BASE = { 0 };

    ghost NAN_PAYLOAD_MASK = { 2 ^ 3 - 1 };

    ghost QNAN_SIGNIFICAND = { 2 ^ 2 };

    ghost EXPLICIT_INTEGER_BIT = { false };

    ghost TINY_BEFORE_ROUNDING = { false };

    ghost lawful = { lawful_from_test _ refl };
}

/// A value in seven bits.
pub type Seven = IeeeFloat<SevenS>;
