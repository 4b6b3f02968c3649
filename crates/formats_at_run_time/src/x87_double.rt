//! The extended format of the x87 with as many digits as binary64 has.

ghost use Rattle.std.specs.Prelude.{◌-◌, ◌*◌, ◌^◌, pos, negsuc, true, false, refl};
ghost use Rattle.apfloat_model.specs.declared.kinds.NonfiniteBehavior.TheVariants.{IEEE754};
ghost use Rattle.rustc_apfloat.proofs.LawTest.{lawful_from_test};

use rustc_apfloat::ExpInt;
use rustc_apfloat::ieee::{NonfiniteBehavior, Semantics};

/// The exponents of the x87, and 53 digits: what its precision control for double precision rounds to.
#[derive(Clone, Copy)]
pub struct X87DoubleS;

impl Semantics for X87DoubleS {
    const BITS: usize = 69;

    const EXP_BITS: usize = 15;

    const PRECISION: usize = 53;

    const NONFINITE_BEHAVIOR: NonfiniteBehavior = NonfiniteBehavior::IEEE754;

    const MAX_EXP: ExpInt = 16383;

    const IEEE_MAX_EXP: ExpInt = 16383;

    const MIN_EXP: ExpInt = -16382;

    const IEEE_MIN_EXP: ExpInt = -16382;

    const NAN_SIGNIFICAND_BASE: u128 = 0;

    const NAN_PAYLOAD_MASK: u128 = (1 << 52) - 1;

    const QNAN_SIGNIFICAND: u128 = 3 << 51;

    const EXPLICIT_INTEGER_BIT: bool = true;

    const TINY_BEFORE_ROUNDING: bool = false;

    ghost BITS = { 69 };

    ghost EXP_BITS = { 15 };

    ghost PRECISION = { 53 };

    ghost NONFINITE_BEHAVIOR = { IEEE754 };

    ghost MAX_EXP = { pos 16383 };

    ghost IEEE_MAX_EXP = { pos 16383 };

    ghost MIN_EXP = { negsuc 16381 };

    ghost IEEE_MIN_EXP = { negsuc 16381 };

    ghost NAN_SIGNIFICAND_BASE = { 0 };

    ghost NAN_PAYLOAD_MASK = { 2 ^ 52 - 1 };

    ghost QNAN_SIGNIFICAND = { 3 * 2 ^ 51 };

    ghost EXPLICIT_INTEGER_BIT = { true };

    ghost TINY_BEFORE_ROUNDING = { false };

    ghost lawful = { lawful_from_test _ refl };
}
