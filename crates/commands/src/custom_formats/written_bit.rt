//! An explicit integer bit in few bits.

ghost use Rattle.std.specs.Prelude.{◌-◌, ◌*◌, ◌^◌, pos, negsuc, true, false, refl};
ghost use Rattle.apfloat_model.specs.declared.kinds.NonfiniteBehavior.TheVariants.{IEEE754};
ghost use Rattle.rustc_apfloat.proofs.LawTest.{lawful_from_test};

use rustc_apfloat::ExpInt;
use rustc_apfloat::ieee::{IeeeFloat, NonfiniteBehavior, Semantics};

/// 14 bits, including the integer bit.
#[derive(Clone, Copy)]
pub struct WrittenBitS;

impl Semantics for WrittenBitS {
    const BITS: usize = 14;

    const EXP_BITS: usize = 5;

    const PRECISION: usize = 8;

    const NONFINITE_BEHAVIOR: NonfiniteBehavior = NonfiniteBehavior::IEEE754;

    const MAX_EXP: ExpInt = 15;

    const IEEE_MAX_EXP: ExpInt = 15;

    const MIN_EXP: ExpInt = -14;

    const IEEE_MIN_EXP: ExpInt = -14;

    const NAN_SIGNIFICAND_BASE: u128 = 0;

    const NAN_PAYLOAD_MASK: u128 = (1 << 7) - 1;

    const QNAN_SIGNIFICAND: u128 = 3 << 6;

    const EXPLICIT_INTEGER_BIT: bool = true;

    const TINY_BEFORE_ROUNDING: bool = false;

    ghost BITS = { 14 };

    ghost EXP_BITS = { 5 };

    ghost PRECISION = { 8 };

    ghost NONFINITE_BEHAVIOR = { IEEE754 };

    ghost MAX_EXP = { pos 15 };

    ghost IEEE_MAX_EXP = { pos 15 };

    ghost MIN_EXP = { negsuc 13 };

    ghost IEEE_MIN_EXP = { negsuc 13 };

    ghost NAN_SIGNIFICAND_BASE = { 0 };

    ghost NAN_PAYLOAD_MASK = { 2 ^ 7 - 1 };

    ghost QNAN_SIGNIFICAND = { 3 * 2 ^ 6 };

    ghost EXPLICIT_INTEGER_BIT = { true };

    ghost TINY_BEFORE_ROUNDING = { false };

    ghost lawful = { lawful_from_test _ refl };
}

/// A value in 14 bits, including the integer bit.
pub type WrittenBit = IeeeFloat<WrittenBitS>;
