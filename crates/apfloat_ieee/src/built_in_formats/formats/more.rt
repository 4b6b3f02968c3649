//! Formats of 8 and 19 bits that are not in IEEE 754, and that commands do not have.

ghost use Rattle.std.specs.Prelude.{◌-◌, ◌*◌, ◌^◌, pos, negsuc, true, false, refl};
ghost use Rattle.apfloat_model.specs.declared.kinds.NonfiniteBehavior.TheVariants.{IEEE754, NanNegativeZero};
ghost use Rattle.apfloat_model.proofs.formats.LawTest.{lawful_from_test};

use crate::Semantics;
use apfloat_base::{ExpInt, NonfiniteBehavior};

/// Eight bits, four of them the exponent, with infinities and NaNs as in IEEE 754. The largest value is 240.
#[derive(Clone, Copy)]
pub struct Float8E4M3S;

impl Semantics for Float8E4M3S {
    const BITS: usize = 8;

    const EXP_BITS: usize = 4;

    const PRECISION: usize = 4;

    const NONFINITE_BEHAVIOR: NonfiniteBehavior = NonfiniteBehavior::IEEE754;

    const MAX_EXP: ExpInt = 7;

    const IEEE_MAX_EXP: ExpInt = 7;

    const MIN_EXP: ExpInt = -6;

    const IEEE_MIN_EXP: ExpInt = -6;

    const NAN_SIGNIFICAND_BASE: u128 = 0;

    const NAN_PAYLOAD_MASK: u128 = (1 << 3) - 1;

    const QNAN_SIGNIFICAND: u128 = 1 << 2;

    const EXPLICIT_INTEGER_BIT: bool = false;

    const TINY_BEFORE_ROUNDING: bool = false;

    ghost BITS = { 8 };

    ghost EXP_BITS = { 4 };

    ghost PRECISION = { 4 };

    ghost NONFINITE_BEHAVIOR = { IEEE754 };

    ghost MAX_EXP = { pos 7 };

    ghost IEEE_MAX_EXP = { pos 7 };

    ghost MIN_EXP = { negsuc 5 };

    ghost IEEE_MIN_EXP = { negsuc 5 };

    ghost NAN_SIGNIFICAND_BASE = { 0 };

    ghost NAN_PAYLOAD_MASK = { 2 ^ 3 - 1 };

    ghost QNAN_SIGNIFICAND = { 2 ^ 2 };

    ghost EXPLICIT_INTEGER_BIT = { false };

    ghost TINY_BEFORE_ROUNDING = { false };

    ghost lawful = { lawful_from_test _ refl };
}

/// Eight bits, five of them the exponent, without infinities and without a negative zero: the encoding of -0 is the
/// only NaN. The largest value is 57344.
#[derive(Clone, Copy)]
pub struct Float8E5M2FNUZS;

impl Semantics for Float8E5M2FNUZS {
    const BITS: usize = 8;

    const EXP_BITS: usize = 5;

    const PRECISION: usize = 3;

    const NONFINITE_BEHAVIOR: NonfiniteBehavior = NonfiniteBehavior::NanNegativeZero;

    const MAX_EXP: ExpInt = 15;

    const IEEE_MAX_EXP: ExpInt = 15;

    const MIN_EXP: ExpInt = -15;

    const IEEE_MIN_EXP: ExpInt = -14;

    const NAN_SIGNIFICAND_BASE: u128 = 0;

    const NAN_PAYLOAD_MASK: u128 = 0;

    const QNAN_SIGNIFICAND: u128 = 0;

    const EXPLICIT_INTEGER_BIT: bool = false;

    const TINY_BEFORE_ROUNDING: bool = false;

    ghost BITS = { 8 };

    ghost EXP_BITS = { 5 };

    ghost PRECISION = { 3 };

    ghost NONFINITE_BEHAVIOR = { NanNegativeZero };

    ghost MAX_EXP = { pos 15 };

    ghost IEEE_MAX_EXP = { pos 15 };

    ghost MIN_EXP = { negsuc 14 };

    ghost IEEE_MIN_EXP = { negsuc 13 };

    ghost NAN_SIGNIFICAND_BASE = { 0 };

    ghost NAN_PAYLOAD_MASK = { 0 };

    ghost QNAN_SIGNIFICAND = { 0 };

    ghost EXPLICIT_INTEGER_BIT = { false };

    ghost TINY_BEFORE_ROUNDING = { false };

    ghost lawful = { lawful_from_test _ refl };
}

/// Eight bits, four of them the exponent, of bias 11, without infinities and without a negative zero: the encoding of
/// -0 is the only NaN. The largest value is 30.
#[derive(Clone, Copy)]
pub struct Float8E4M3B11FNUZS;

impl Semantics for Float8E4M3B11FNUZS {
    const BITS: usize = 8;

    const EXP_BITS: usize = 4;

    const PRECISION: usize = 4;

    const NONFINITE_BEHAVIOR: NonfiniteBehavior = NonfiniteBehavior::NanNegativeZero;

    const MAX_EXP: ExpInt = 4;

    const IEEE_MAX_EXP: ExpInt = 7;

    const MIN_EXP: ExpInt = -10;

    const IEEE_MIN_EXP: ExpInt = -6;

    const NAN_SIGNIFICAND_BASE: u128 = 0;

    const NAN_PAYLOAD_MASK: u128 = 0;

    const QNAN_SIGNIFICAND: u128 = 0;

    const EXPLICIT_INTEGER_BIT: bool = false;

    const TINY_BEFORE_ROUNDING: bool = false;

    ghost BITS = { 8 };

    ghost EXP_BITS = { 4 };

    ghost PRECISION = { 4 };

    ghost NONFINITE_BEHAVIOR = { NanNegativeZero };

    ghost MAX_EXP = { pos 4 };

    ghost IEEE_MAX_EXP = { pos 7 };

    ghost MIN_EXP = { negsuc 9 };

    ghost IEEE_MIN_EXP = { negsuc 5 };

    ghost NAN_SIGNIFICAND_BASE = { 0 };

    ghost NAN_PAYLOAD_MASK = { 0 };

    ghost QNAN_SIGNIFICAND = { 0 };

    ghost EXPLICIT_INTEGER_BIT = { false };

    ghost TINY_BEFORE_ROUNDING = { false };

    ghost lawful = { lawful_from_test _ refl };
}

/// Nineteen bits, eight of them the exponent: the exponents of binary32 and the digits of binary16.
#[derive(Clone, Copy)]
pub struct FloatTF32S;

impl Semantics for FloatTF32S {
    const BITS: usize = 19;

    const EXP_BITS: usize = 8;

    const PRECISION: usize = 11;

    const NONFINITE_BEHAVIOR: NonfiniteBehavior = NonfiniteBehavior::IEEE754;

    const MAX_EXP: ExpInt = 127;

    const IEEE_MAX_EXP: ExpInt = 127;

    const MIN_EXP: ExpInt = -126;

    const IEEE_MIN_EXP: ExpInt = -126;

    const NAN_SIGNIFICAND_BASE: u128 = 0;

    const NAN_PAYLOAD_MASK: u128 = (1 << 10) - 1;

    const QNAN_SIGNIFICAND: u128 = 1 << 9;

    const EXPLICIT_INTEGER_BIT: bool = false;

    const TINY_BEFORE_ROUNDING: bool = false;

    ghost BITS = { 19 };

    ghost EXP_BITS = { 8 };

    ghost PRECISION = { 11 };

    ghost NONFINITE_BEHAVIOR = { IEEE754 };

    ghost MAX_EXP = { pos 127 };

    ghost IEEE_MAX_EXP = { pos 127 };

    ghost MIN_EXP = { negsuc 125 };

    ghost IEEE_MIN_EXP = { negsuc 125 };

    ghost NAN_SIGNIFICAND_BASE = { 0 };

    ghost NAN_PAYLOAD_MASK = { 2 ^ 10 - 1 };

    ghost QNAN_SIGNIFICAND = { 2 ^ 9 };

    ghost EXPLICIT_INTEGER_BIT = { false };

    ghost TINY_BEFORE_ROUNDING = { false };

    ghost lawful = { lawful_from_test _ refl };
}
