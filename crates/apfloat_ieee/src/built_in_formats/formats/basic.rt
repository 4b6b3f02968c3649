//! The binary interchange formats of IEEE 754-2019 3.6.

ghost use Rattle.std.specs.Prelude.{◌-◌, ◌*◌, ◌^◌, pos, negsuc, true, false, refl};
ghost use Rattle.apfloat_model.specs.declared.kinds.NonfiniteBehavior.TheVariants.{IEEE754};
ghost use Rattle.apfloat_model.proofs.formats.LawTest.{lawful_from_test};

use crate::Semantics;
use apfloat_base::{ExpInt, NonfiniteBehavior};

/// Binary16 (IEEE 754-2019 3.6).
#[derive(Clone, Copy)]
pub struct HalfS;

impl Semantics for HalfS {
    const BITS: usize = 16;

    const EXP_BITS: usize = 5;

    const PRECISION: usize = 11;

    const NONFINITE_BEHAVIOR: NonfiniteBehavior = NonfiniteBehavior::IEEE754;

    const MAX_EXP: ExpInt = 15;

    const IEEE_MAX_EXP: ExpInt = 15;

    const MIN_EXP: ExpInt = -14;

    const IEEE_MIN_EXP: ExpInt = -14;

    const NAN_SIGNIFICAND_BASE: u128 = 0;

    const NAN_PAYLOAD_MASK: u128 = (1 << 10) - 1;

    const QNAN_SIGNIFICAND: u128 = 1 << 9;

    const EXPLICIT_INTEGER_BIT: bool = false;

    const TINY_BEFORE_ROUNDING: bool = false;

    ghost BITS = { 16 };

    ghost EXP_BITS = { 5 };

    ghost PRECISION = { 11 };

    ghost NONFINITE_BEHAVIOR = { IEEE754 };

    ghost MAX_EXP = { pos 15 };

    ghost IEEE_MAX_EXP = { pos 15 };

    ghost MIN_EXP = { negsuc 13 };

    ghost IEEE_MIN_EXP = { negsuc 13 };

    ghost NAN_SIGNIFICAND_BASE = { 0 };

    ghost NAN_PAYLOAD_MASK = { 2 ^ 10 - 1 };

    ghost QNAN_SIGNIFICAND = { 2 ^ 9 };

    ghost EXPLICIT_INTEGER_BIT = { false };

    ghost TINY_BEFORE_ROUNDING = { false };

    ghost lawful = { lawful_from_test _ refl };
}

/// Binary32 (IEEE 754-2019 3.6).
#[derive(Clone, Copy)]
pub struct SingleS;

impl Semantics for SingleS {
    const BITS: usize = 32;

    const EXP_BITS: usize = 8;

    const PRECISION: usize = 24;

    const NONFINITE_BEHAVIOR: NonfiniteBehavior = NonfiniteBehavior::IEEE754;

    const MAX_EXP: ExpInt = 127;

    const IEEE_MAX_EXP: ExpInt = 127;

    const MIN_EXP: ExpInt = -126;

    const IEEE_MIN_EXP: ExpInt = -126;

    const NAN_SIGNIFICAND_BASE: u128 = 0;

    const NAN_PAYLOAD_MASK: u128 = (1 << 23) - 1;

    const QNAN_SIGNIFICAND: u128 = 1 << 22;

    const EXPLICIT_INTEGER_BIT: bool = false;

    const TINY_BEFORE_ROUNDING: bool = false;

    ghost BITS = { 32 };

    ghost EXP_BITS = { 8 };

    ghost PRECISION = { 24 };

    ghost NONFINITE_BEHAVIOR = { IEEE754 };

    ghost MAX_EXP = { pos 127 };

    ghost IEEE_MAX_EXP = { pos 127 };

    ghost MIN_EXP = { negsuc 125 };

    ghost IEEE_MIN_EXP = { negsuc 125 };

    ghost NAN_SIGNIFICAND_BASE = { 0 };

    ghost NAN_PAYLOAD_MASK = { 2 ^ 23 - 1 };

    ghost QNAN_SIGNIFICAND = { 2 ^ 22 };

    ghost EXPLICIT_INTEGER_BIT = { false };

    ghost TINY_BEFORE_ROUNDING = { false };

    ghost lawful = { lawful_from_test _ refl };
}

/// Binary64 (IEEE 754-2019 3.6).
#[derive(Clone, Copy)]
pub struct DoubleS;

impl Semantics for DoubleS {
    const BITS: usize = 64;

    const EXP_BITS: usize = 11;

    const PRECISION: usize = 53;

    const NONFINITE_BEHAVIOR: NonfiniteBehavior = NonfiniteBehavior::IEEE754;

    const MAX_EXP: ExpInt = 1023;

    const IEEE_MAX_EXP: ExpInt = 1023;

    const MIN_EXP: ExpInt = -1022;

    const IEEE_MIN_EXP: ExpInt = -1022;

    const NAN_SIGNIFICAND_BASE: u128 = 0;

    const NAN_PAYLOAD_MASK: u128 = (1 << 52) - 1;

    const QNAN_SIGNIFICAND: u128 = 1 << 51;

    const EXPLICIT_INTEGER_BIT: bool = false;

    const TINY_BEFORE_ROUNDING: bool = false;

    ghost BITS = { 64 };

    ghost EXP_BITS = { 11 };

    ghost PRECISION = { 53 };

    ghost NONFINITE_BEHAVIOR = { IEEE754 };

    ghost MAX_EXP = { pos 1023 };

    ghost IEEE_MAX_EXP = { pos 1023 };

    ghost MIN_EXP = { negsuc 1021 };

    ghost IEEE_MIN_EXP = { negsuc 1021 };

    ghost NAN_SIGNIFICAND_BASE = { 0 };

    ghost NAN_PAYLOAD_MASK = { 2 ^ 52 - 1 };

    ghost QNAN_SIGNIFICAND = { 2 ^ 51 };

    ghost EXPLICIT_INTEGER_BIT = { false };

    ghost TINY_BEFORE_ROUNDING = { false };

    ghost lawful = { lawful_from_test _ refl };
}

/// Binary128 (IEEE 754-2019 3.6).
#[derive(Clone, Copy)]
pub struct QuadS;

impl Semantics for QuadS {
    const BITS: usize = 128;

    const EXP_BITS: usize = 15;

    const PRECISION: usize = 113;

    const NONFINITE_BEHAVIOR: NonfiniteBehavior = NonfiniteBehavior::IEEE754;

    const MAX_EXP: ExpInt = 16383;

    const IEEE_MAX_EXP: ExpInt = 16383;

    const MIN_EXP: ExpInt = -16382;

    const IEEE_MIN_EXP: ExpInt = -16382;

    const NAN_SIGNIFICAND_BASE: u128 = 0;

    const NAN_PAYLOAD_MASK: u128 = (1 << 112) - 1;

    const QNAN_SIGNIFICAND: u128 = 1 << 111;

    const EXPLICIT_INTEGER_BIT: bool = false;

    const TINY_BEFORE_ROUNDING: bool = false;

    ghost BITS = { 128 };

    ghost EXP_BITS = { 15 };

    ghost PRECISION = { 113 };

    ghost NONFINITE_BEHAVIOR = { IEEE754 };

    ghost MAX_EXP = { pos 16383 };

    ghost IEEE_MAX_EXP = { pos 16383 };

    ghost MIN_EXP = { negsuc 16381 };

    ghost IEEE_MIN_EXP = { negsuc 16381 };

    ghost NAN_SIGNIFICAND_BASE = { 0 };

    ghost NAN_PAYLOAD_MASK = { 2 ^ 112 - 1 };

    ghost QNAN_SIGNIFICAND = { 2 ^ 111 };

    ghost EXPLICIT_INTEGER_BIT = { false };

    ghost TINY_BEFORE_ROUNDING = { false };

    ghost lawful = { lawful_from_test _ refl };
}
