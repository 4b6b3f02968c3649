//! The extended format of the x87 (IEEE 754-2019 3.7).

ghost use Rattle.std.specs.Prelude.{◌-◌, ◌*◌, ◌^◌, pos, negsuc, true, false, refl};
ghost use Rattle.apfloat_model.specs.declared.kinds.NonfiniteBehavior.TheVariants.{IEEE754};
ghost use Rattle.apfloat_model.proofs.formats.LawTest.{lawful_from_test};

use crate::Semantics;
use apfloat_base::{ExpInt, NonfiniteBehavior};

/// The 80-bit format of the x87, with an explicit integer bit.
///
/// Encodings whose integer bit does not match their biased exponent can be read: a 1 with exponent 0 is a digit of a
/// number (a pseudo-denormal), and a 0 with a greater exponent makes a NaN. Values are written with the matching bit.
#[derive(Clone, Copy)]
pub struct X87DoubleExtendedS;

impl Semantics for X87DoubleExtendedS {
    const BITS: usize = 80;

    const EXP_BITS: usize = 15;

    const PRECISION: usize = 64;

    const NONFINITE_BEHAVIOR: NonfiniteBehavior = NonfiniteBehavior::IEEE754;

    const MAX_EXP: ExpInt = 16383;

    const IEEE_MAX_EXP: ExpInt = 16383;

    const MIN_EXP: ExpInt = -16382;

    const IEEE_MIN_EXP: ExpInt = -16382;

    const NAN_SIGNIFICAND_BASE: u128 = 0;

    const NAN_PAYLOAD_MASK: u128 = (1 << 63) - 1;

    const QNAN_SIGNIFICAND: u128 = 3 << 62;

    const EXPLICIT_INTEGER_BIT: bool = true;

    const TINY_BEFORE_ROUNDING: bool = false;

    ghost BITS = { 80 };

    ghost EXP_BITS = { 15 };

    ghost PRECISION = { 64 };

    ghost NONFINITE_BEHAVIOR = { IEEE754 };

    ghost MAX_EXP = { pos 16383 };

    ghost IEEE_MAX_EXP = { pos 16383 };

    ghost MIN_EXP = { negsuc 16381 };

    ghost IEEE_MIN_EXP = { negsuc 16381 };

    ghost NAN_SIGNIFICAND_BASE = { 0 };

    ghost NAN_PAYLOAD_MASK = { 2 ^ 63 - 1 };

    ghost QNAN_SIGNIFICAND = { 3 * 2 ^ 62 };

    ghost EXPLICIT_INTEGER_BIT = { true };

    ghost TINY_BEFORE_ROUNDING = { false };

    ghost lawful = { lawful_from_test _ refl };
}
