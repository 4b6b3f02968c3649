//! The extended format of the x87 with as many digits as binary32 has.

ghost use Rattle.std.specs.Prelude.{◌-◌, ◌*◌, ◌^◌, pos, negsuc, true, false, refl};
ghost use Rattle.apfloat_model.specs.declared.kinds.NonfiniteBehavior.TheVariants.{IEEE754};
ghost use Rattle.rustc_apfloat.proofs.LawTest.{lawful_from_test};

use rustc_apfloat::ExpInt;
use rustc_apfloat::ieee::{NonfiniteBehavior, Semantics};

/// The exponents of the x87, and 24 digits: what its precision control for single precision rounds to.
#[derive(Clone, Copy)]
pub struct X87SingleS;

impl Semantics for X87SingleS {
    const BITS: usize = 40;

    const EXP_BITS: usize = 15;

    const PRECISION: usize = 24;

    const NONFINITE_BEHAVIOR: NonfiniteBehavior = NonfiniteBehavior::IEEE754;

    const MAX_EXP: ExpInt = 16383;

    const IEEE_MAX_EXP: ExpInt = 16383;

    const MIN_EXP: ExpInt = -16382;

    const IEEE_MIN_EXP: ExpInt = -16382;

    const NAN_SIGNIFICAND_BASE: u128 = 0;

    const NAN_PAYLOAD_MASK: u128 = (1 << 23) - 1;

    const QNAN_SIGNIFICAND: u128 = 3 << 22;

    const EXPLICIT_INTEGER_BIT: bool = true;

    const TINY_BEFORE_ROUNDING: bool = false;

    ghost BITS = { 40 };

    ghost EXP_BITS = { 15 };

    ghost PRECISION = { 24 };

    ghost NONFINITE_BEHAVIOR = { IEEE754 };

    ghost MAX_EXP = { pos 16383 };

    ghost IEEE_MAX_EXP = { pos 16383 };

    ghost MIN_EXP = { negsuc 16381 };

    ghost IEEE_MIN_EXP = { negsuc 16381 };

    ghost NAN_SIGNIFICAND_BASE = { 0 };

    ghost NAN_PAYLOAD_MASK = { 2 ^ 23 - 1 };

    ghost QNAN_SIGNIFICAND = { 3 * 2 ^ 22 };

    ghost EXPLICIT_INTEGER_BIT = { true };

    ghost TINY_BEFORE_ROUNDING = { false };

    ghost lawful = { lawful_from_test _ refl };
}
