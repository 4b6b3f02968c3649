//! The most digits with the widest exponents.

ghost use Rattle.std.specs.Prelude.{◌-◌, ◌*◌, ◌^◌, pos, negsuc, true, false, refl};
ghost use Rattle.apfloat_model.specs.declared.kinds.NonfiniteBehavior.TheVariants.{IEEE754};
ghost use Rattle.rustc_apfloat.proofs.LawTest.{lawful_from_test};

use rustc_apfloat::ExpInt;
use rustc_apfloat::ieee::{IeeeFloat, NonfiniteBehavior, Semantics};

/// 125 digits, and exponents from -2^20 to 2^20; without bits.
#[derive(Clone, Copy)]
pub struct VastS;

impl Semantics for VastS {
    const BITS: usize = 0;

    const EXP_BITS: usize = 0;

    const PRECISION: usize = 125;

    const NONFINITE_BEHAVIOR: NonfiniteBehavior = NonfiniteBehavior::IEEE754;

    const MAX_EXP: ExpInt = 1048576;

    const IEEE_MAX_EXP: ExpInt = 0;

    const MIN_EXP: ExpInt = -1048576;

    const IEEE_MIN_EXP: ExpInt = 0;

    const NAN_SIGNIFICAND_BASE: u128 = 0;

    const NAN_PAYLOAD_MASK: u128 = (1 << 124) - 1;

    const QNAN_SIGNIFICAND: u128 = 1 << 123;

    const EXPLICIT_INTEGER_BIT: bool = false;

    const TINY_BEFORE_ROUNDING: bool = false;

    ghost BITS = { 0 };

    ghost EXP_BITS = { 0 };

    ghost PRECISION = { 125 };

    ghost NONFINITE_BEHAVIOR = { IEEE754 };

    ghost MAX_EXP = { pos 1048576 };

    ghost IEEE_MAX_EXP = { pos 0 };

    ghost MIN_EXP = { negsuc 1048575 };

    ghost IEEE_MIN_EXP = { pos 0 };

    ghost NAN_SIGNIFICAND_BASE = { 0 };

    ghost NAN_PAYLOAD_MASK = { 2 ^ 124 - 1 };

    ghost QNAN_SIGNIFICAND = { 2 ^ 123 };

    ghost EXPLICIT_INTEGER_BIT = { false };

    ghost TINY_BEFORE_ROUNDING = { false };

    ghost lawful = { lawful_from_test _ refl };
}

/// A value of 125 digits, with exponents from -2^20 to 2^20.
pub type Vast = IeeeFloat<VastS>;
