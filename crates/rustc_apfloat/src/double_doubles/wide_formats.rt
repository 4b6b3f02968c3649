//! Formats for computing only, without bits, in which pairs of doubles are computed.

ghost use Rattle.std.specs.Prelude.{◌-◌, ◌*◌, ◌^◌, pos, negsuc, true, false, refl};
ghost use Rattle.apfloat_model.specs.declared.kinds.NonfiniteBehavior.TheVariants.{IEEE754};
ghost use Rattle.apfloat_model.proofs.formats.LawTest.{lawful_from_test};

use apfloat_base::{ExpInt, NonfiniteBehavior};
use apfloat_ieee::Semantics;

/// 106 digits with the exponents of pairs: from its smallest normalized value up, a low part has all its digits.
#[derive(Clone, Copy)]
pub struct FallbackS(());

impl Semantics for FallbackS {
    const BITS: usize = 0;

    const EXP_BITS: usize = 0;

    const PRECISION: usize = 106;

    const NONFINITE_BEHAVIOR: NonfiniteBehavior = NonfiniteBehavior::IEEE754;

    const MAX_EXP: ExpInt = 1023;

    const IEEE_MAX_EXP: ExpInt = 0;

    const MIN_EXP: ExpInt = -969;

    const IEEE_MIN_EXP: ExpInt = 0;

    const NAN_SIGNIFICAND_BASE: u128 = 0;

    const NAN_PAYLOAD_MASK: u128 = (1 << 105) - 1;

    const QNAN_SIGNIFICAND: u128 = 1 << 104;

    const EXPLICIT_INTEGER_BIT: bool = false;

    const TINY_BEFORE_ROUNDING: bool = false;

    ghost BITS = { 0 };

    ghost EXP_BITS = { 0 };

    ghost PRECISION = { 106 };

    ghost NONFINITE_BEHAVIOR = { IEEE754 };

    ghost MAX_EXP = { pos 1023 };

    ghost IEEE_MAX_EXP = { pos 0 };

    ghost MIN_EXP = { negsuc 968 };

    ghost IEEE_MIN_EXP = { pos 0 };

    ghost NAN_SIGNIFICAND_BASE = { 0 };

    ghost NAN_PAYLOAD_MASK = { 2 ^ 105 - 1 };

    ghost QNAN_SIGNIFICAND = { 2 ^ 104 };

    ghost EXPLICIT_INTEGER_BIT = { false };

    ghost TINY_BEFORE_ROUNDING = { false };

    ghost lawful = { lawful_from_test _ refl };
}

/// 106 digits with the exponents of binary64.
#[derive(Clone, Copy)]
pub struct FallbackExtendedS(());

impl Semantics for FallbackExtendedS {
    const BITS: usize = 0;

    const EXP_BITS: usize = 0;

    const PRECISION: usize = 106;

    const NONFINITE_BEHAVIOR: NonfiniteBehavior = NonfiniteBehavior::IEEE754;

    const MAX_EXP: ExpInt = 1023;

    const IEEE_MAX_EXP: ExpInt = 0;

    const MIN_EXP: ExpInt = -1022;

    const IEEE_MIN_EXP: ExpInt = 0;

    const NAN_SIGNIFICAND_BASE: u128 = 0;

    const NAN_PAYLOAD_MASK: u128 = (1 << 105) - 1;

    const QNAN_SIGNIFICAND: u128 = 1 << 104;

    const EXPLICIT_INTEGER_BIT: bool = false;

    const TINY_BEFORE_ROUNDING: bool = false;

    ghost BITS = { 0 };

    ghost EXP_BITS = { 0 };

    ghost PRECISION = { 106 };

    ghost NONFINITE_BEHAVIOR = { IEEE754 };

    ghost MAX_EXP = { pos 1023 };

    ghost IEEE_MAX_EXP = { pos 0 };

    ghost MIN_EXP = { negsuc 1021 };

    ghost IEEE_MIN_EXP = { pos 0 };

    ghost NAN_SIGNIFICAND_BASE = { 0 };

    ghost NAN_PAYLOAD_MASK = { 2 ^ 105 - 1 };

    ghost QNAN_SIGNIFICAND = { 2 ^ 104 };

    ghost EXPLICIT_INTEGER_BIT = { false };

    ghost TINY_BEFORE_ROUNDING = { false };

    ghost lawful = { lawful_from_test _ refl };
}
