//! Formats of 16 and 8 bits that are not in IEEE 754.

ghost use Rattle.std.specs.Prelude.{◌-◌, ◌*◌, ◌^◌, pos, negsuc, true, false, refl};
ghost use Rattle.apfloat_model.specs.declared.kinds.NonfiniteBehavior.TheVariants.{IEEE754, NanOnly, NanNegativeZero};
ghost use Rattle.apfloat_model.proofs.formats.LawTest.{lawful_from_test};

use crate::Semantics;
use apfloat_base::{ExpInt, NonfiniteBehavior};

/// The upper 16 bits of a binary32, with its exponents.
#[derive(Clone, Copy)]
pub struct BFloatS;

impl Semantics for BFloatS {
    const BITS: usize = 16;

    const EXP_BITS: usize = 8;

    const PRECISION: usize = 8;

    const NONFINITE_BEHAVIOR: NonfiniteBehavior = NonfiniteBehavior::IEEE754;

    const MAX_EXP: ExpInt = 127;

    const IEEE_MAX_EXP: ExpInt = 127;

    const MIN_EXP: ExpInt = -126;

    const IEEE_MIN_EXP: ExpInt = -126;

    const NAN_SIGNIFICAND_BASE: u128 = 0;

    const NAN_PAYLOAD_MASK: u128 = (1 << 7) - 1;

    const QNAN_SIGNIFICAND: u128 = 1 << 6;

    const EXPLICIT_INTEGER_BIT: bool = false;

    const TINY_BEFORE_ROUNDING: bool = false;

    ghost BITS = { 16 };

    ghost EXP_BITS = { 8 };

    ghost PRECISION = { 8 };

    ghost NONFINITE_BEHAVIOR = { IEEE754 };

    ghost MAX_EXP = { pos 127 };

    ghost IEEE_MAX_EXP = { pos 127 };

    ghost MIN_EXP = { negsuc 125 };

    ghost IEEE_MIN_EXP = { negsuc 125 };

    ghost NAN_SIGNIFICAND_BASE = { 0 };

    ghost NAN_PAYLOAD_MASK = { 2 ^ 7 - 1 };

    ghost QNAN_SIGNIFICAND = { 2 ^ 6 };

    ghost EXPLICIT_INTEGER_BIT = { false };

    ghost TINY_BEFORE_ROUNDING = { false };

    ghost lawful = { lawful_from_test _ refl };
}

/// Eight bits, five of them the exponent, with the exponents of binary16.
#[derive(Clone, Copy)]
pub struct Float8E5M2S;

impl Semantics for Float8E5M2S {
    const BITS: usize = 8;

    const EXP_BITS: usize = 5;

    const PRECISION: usize = 3;

    const NONFINITE_BEHAVIOR: NonfiniteBehavior = NonfiniteBehavior::IEEE754;

    const MAX_EXP: ExpInt = 15;

    const IEEE_MAX_EXP: ExpInt = 15;

    const MIN_EXP: ExpInt = -14;

    const IEEE_MIN_EXP: ExpInt = -14;

    const NAN_SIGNIFICAND_BASE: u128 = 0;

    const NAN_PAYLOAD_MASK: u128 = (1 << 2) - 1;

    const QNAN_SIGNIFICAND: u128 = 1 << 1;

    const EXPLICIT_INTEGER_BIT: bool = false;

    const TINY_BEFORE_ROUNDING: bool = false;

    ghost BITS = { 8 };

    ghost EXP_BITS = { 5 };

    ghost PRECISION = { 3 };

    ghost NONFINITE_BEHAVIOR = { IEEE754 };

    ghost MAX_EXP = { pos 15 };

    ghost IEEE_MAX_EXP = { pos 15 };

    ghost MIN_EXP = { negsuc 13 };

    ghost IEEE_MIN_EXP = { negsuc 13 };

    ghost NAN_SIGNIFICAND_BASE = { 0 };

    ghost NAN_PAYLOAD_MASK = { 2 ^ 2 - 1 };

    ghost QNAN_SIGNIFICAND = { 2 ^ 1 };

    ghost EXPLICIT_INTEGER_BIT = { false };

    ghost TINY_BEFORE_ROUNDING = { false };

    ghost lawful = { lawful_from_test _ refl };
}

/// Eight bits without infinities: the only NaN of each sign has all ones below the sign, and the largest value is 448.
#[derive(Clone, Copy)]
pub struct Float8E4M3FNS;

impl Semantics for Float8E4M3FNS {
    const BITS: usize = 8;

    const EXP_BITS: usize = 4;

    const PRECISION: usize = 4;

    const NONFINITE_BEHAVIOR: NonfiniteBehavior = NonfiniteBehavior::NanOnly;

    const MAX_EXP: ExpInt = 8;

    const IEEE_MAX_EXP: ExpInt = 7;

    const MIN_EXP: ExpInt = -6;

    const IEEE_MIN_EXP: ExpInt = -6;

    const NAN_SIGNIFICAND_BASE: u128 = (1 << 3) - 1;

    const NAN_PAYLOAD_MASK: u128 = 0;

    const QNAN_SIGNIFICAND: u128 = 0;

    const EXPLICIT_INTEGER_BIT: bool = false;

    const TINY_BEFORE_ROUNDING: bool = false;

    ghost BITS = { 8 };

    ghost EXP_BITS = { 4 };

    ghost PRECISION = { 4 };

    ghost NONFINITE_BEHAVIOR = { NanOnly };

    ghost MAX_EXP = { pos 8 };

    ghost IEEE_MAX_EXP = { pos 7 };

    ghost MIN_EXP = { negsuc 5 };

    ghost IEEE_MIN_EXP = { negsuc 5 };

    ghost NAN_SIGNIFICAND_BASE = { 2 ^ 3 - 1 };

    ghost NAN_PAYLOAD_MASK = { 0 };

    ghost QNAN_SIGNIFICAND = { 0 };

    ghost EXPLICIT_INTEGER_BIT = { false };

    ghost TINY_BEFORE_ROUNDING = { false };

    ghost lawful = { lawful_from_test _ refl };
}

/// Eight bits without infinities and a negative zero; the encoding of -0 is the only NaN. The largest value is 240.
#[derive(Clone, Copy)]
pub struct Float8E4M3FNUZS;

impl Semantics for Float8E4M3FNUZS {
    const BITS: usize = 8;

    const EXP_BITS: usize = 4;

    const PRECISION: usize = 4;

    const NONFINITE_BEHAVIOR: NonfiniteBehavior = NonfiniteBehavior::NanNegativeZero;

    const MAX_EXP: ExpInt = 7;

    const IEEE_MAX_EXP: ExpInt = 7;

    const MIN_EXP: ExpInt = -7;

    const IEEE_MIN_EXP: ExpInt = -6;

    const NAN_SIGNIFICAND_BASE: u128 = 0;

    const NAN_PAYLOAD_MASK: u128 = 0;

    const QNAN_SIGNIFICAND: u128 = 0;

    const EXPLICIT_INTEGER_BIT: bool = false;

    const TINY_BEFORE_ROUNDING: bool = false;

    ghost BITS = { 8 };

    ghost EXP_BITS = { 4 };

    ghost PRECISION = { 4 };

    ghost NONFINITE_BEHAVIOR = { NanNegativeZero };

    ghost MAX_EXP = { pos 7 };

    ghost IEEE_MAX_EXP = { pos 7 };

    ghost MIN_EXP = { negsuc 6 };

    ghost IEEE_MIN_EXP = { negsuc 5 };

    ghost NAN_SIGNIFICAND_BASE = { 0 };

    ghost NAN_PAYLOAD_MASK = { 0 };

    ghost QNAN_SIGNIFICAND = { 0 };

    ghost EXPLICIT_INTEGER_BIT = { false };

    ghost TINY_BEFORE_ROUNDING = { false };

    ghost lawful = { lawful_from_test _ refl };
}
