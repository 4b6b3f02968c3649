//! Ten bits without infinities.

ghost use Rattle.std.specs.Prelude.{◌-◌, ◌*◌, ◌^◌, pos, negsuc, true, false, refl};
ghost use Rattle.apfloat_model.specs.declared.kinds.NonfiniteBehavior.TheVariants.{NanOnly};
ghost use Rattle.rustc_apfloat.proofs.LawTest.{lawful_from_test};

use rustc_apfloat::ExpInt;
use rustc_apfloat::ieee::{IeeeFloat, NonfiniteBehavior, Semantics};

/// Ten bits without infinities, with one NaN of each sign.
#[derive(Clone, Copy)]
pub struct TenS;

impl Semantics for TenS {
    const BITS: usize = 10;

    const EXP_BITS: usize = 5;

    const PRECISION: usize = 5;

    const NONFINITE_BEHAVIOR: NonfiniteBehavior = NonfiniteBehavior::NanOnly;

    const MAX_EXP: ExpInt = 16;

    const IEEE_MAX_EXP: ExpInt = 15;

    const MIN_EXP: ExpInt = -14;

    const IEEE_MIN_EXP: ExpInt = -14;

    const NAN_SIGNIFICAND_BASE: u128 = (1 << 4) - 1;

    const NAN_PAYLOAD_MASK: u128 = 0;

    const QNAN_SIGNIFICAND: u128 = 0;

    const EXPLICIT_INTEGER_BIT: bool = false;

    const TINY_BEFORE_ROUNDING: bool = false;

    ghost BITS = { 10 };

    ghost EXP_BITS = { 5 };

    ghost PRECISION = { 5 };

    ghost NONFINITE_BEHAVIOR = { NanOnly };

    ghost MAX_EXP = { pos 16 };

    ghost IEEE_MAX_EXP = { pos 15 };

    ghost MIN_EXP = { negsuc 13 };

    ghost IEEE_MIN_EXP = { negsuc 13 };

    ghost NAN_SIGNIFICAND_BASE = { 2 ^ 4 - 1 };

    ghost NAN_PAYLOAD_MASK = { 0 };

    ghost QNAN_SIGNIFICAND = { 0 };

    ghost EXPLICIT_INTEGER_BIT = { false };

    ghost TINY_BEFORE_ROUNDING = { false };

    ghost lawful = { lawful_from_test _ refl };
}

/// A value in ten bits, without infinities.
pub type Ten = IeeeFloat<TenS>;
