//! The widest exponents that fit in 128 bits.

ghost use Rattle.std.specs.Prelude.{◌-◌, ◌*◌, ◌^◌, pos, negsuc, true, false, refl};
ghost use Rattle.apfloat_model.specs.declared.kinds.NonfiniteBehavior.TheVariants.{IEEE754};
ghost use Rattle.rustc_apfloat.proofs.LawTest.{lawful_from_test};

use rustc_apfloat::ExpInt;
use rustc_apfloat::ieee::{IeeeFloat, NonfiniteBehavior, Semantics};

/// 128 bits, 21 of them for the exponent.
#[derive(Clone, Copy)]
pub struct BroadS;

impl Semantics for BroadS {
    const BITS: usize = 128;

    const EXP_BITS: usize = 21;

    const PRECISION: usize = 107;

    const NONFINITE_BEHAVIOR: NonfiniteBehavior = NonfiniteBehavior::IEEE754;

    const MAX_EXP: ExpInt = 1048575;

    const IEEE_MAX_EXP: ExpInt = 1048575;

    const MIN_EXP: ExpInt = -1048574;

    const IEEE_MIN_EXP: ExpInt = -1048574;

    const NAN_SIGNIFICAND_BASE: u128 = 0;

    const NAN_PAYLOAD_MASK: u128 = (1 << 106) - 1;

    const QNAN_SIGNIFICAND: u128 = 1 << 105;

    const EXPLICIT_INTEGER_BIT: bool = false;

    const TINY_BEFORE_ROUNDING: bool = false;

    ghost BITS = { 128 };

    ghost EXP_BITS = { 21 };

    ghost PRECISION = { 107 };

    ghost NONFINITE_BEHAVIOR = { IEEE754 };

    ghost MAX_EXP = { pos 1048575 };

    ghost IEEE_MAX_EXP = { pos 1048575 };

    ghost MIN_EXP = { negsuc 1048573 };

    ghost IEEE_MIN_EXP = { negsuc 1048573 };

    ghost NAN_SIGNIFICAND_BASE = { 0 };

    ghost NAN_PAYLOAD_MASK = { 2 ^ 106 - 1 };

    ghost QNAN_SIGNIFICAND = { 2 ^ 105 };

    ghost EXPLICIT_INTEGER_BIT = { false };

    ghost TINY_BEFORE_ROUNDING = { false };

    ghost lawful = { lawful_from_test _ refl };
}

/// A value in 128 bits, 21 of them for the exponent.
pub type Broad = IeeeFloat<BroadS>;
