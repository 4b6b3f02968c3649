//! The most digits for which there are products (`mul_r`).

ghost use Rattle.std.specs.Prelude.{pos, negsuc, false, refl};
ghost use Rattle.apfloat_model.specs.declared.kinds.NonfiniteBehavior.TheVariants.{NanNegativeZero};
ghost use Rattle.rustc_apfloat.proofs.LawTest.{lawful_from_test};

use rustc_apfloat::ieee::{IeeeFloat, NonfiniteBehavior, Semantics};
use rustc_apfloat::{ExpInt, Float, Round, StatusAnd};

/// 64 digits: with one digit more there is no `mul_r`.
#[derive(Clone, Copy)]
pub struct ProductLimitS;

impl Semantics for ProductLimitS {
    const BITS: usize = 0;

    const EXP_BITS: usize = 0;

    const PRECISION: usize = 64;

    const NONFINITE_BEHAVIOR: NonfiniteBehavior = NonfiniteBehavior::NanNegativeZero;

    const MAX_EXP: ExpInt = 100;

    const IEEE_MAX_EXP: ExpInt = 0;

    const MIN_EXP: ExpInt = -99;

    const IEEE_MIN_EXP: ExpInt = 0;

    const NAN_SIGNIFICAND_BASE: u128 = 0;

    const NAN_PAYLOAD_MASK: u128 = 0;

    const QNAN_SIGNIFICAND: u128 = 0;

    const EXPLICIT_INTEGER_BIT: bool = false;

    const TINY_BEFORE_ROUNDING: bool = false;

    ghost BITS = { 0 };

    ghost EXP_BITS = { 0 };

    ghost PRECISION = { 64 };

    ghost NONFINITE_BEHAVIOR = { NanNegativeZero };

    ghost MAX_EXP = { pos 100 };

    ghost IEEE_MAX_EXP = { pos 0 };

    ghost MIN_EXP = { negsuc 98 };

    ghost IEEE_MIN_EXP = { pos 0 };

    ghost NAN_SIGNIFICAND_BASE = { 0 };

    ghost NAN_PAYLOAD_MASK = { 0 };

    ghost QNAN_SIGNIFICAND = { 0 };

    ghost EXPLICIT_INTEGER_BIT = { false };

    ghost TINY_BEFORE_ROUNDING = { false };

    ghost lawful = { lawful_from_test _ refl };
}

/// A value of 64 digits.
pub type ProductLimit = IeeeFloat<ProductLimitS>;

/// The square of a value.
pub fn square(x: ProductLimit, round: Round) -> StatusAnd<ProductLimit> {
    x.mul_r(x, round)
}
