//! The digits and exponents of elements that are formats of their own, beside their infinities and NaNs.

ghost use Rattle.std.specs.Prelude.{pos, negsuc, refl};
ghost use Rattle.small_formats.specs.LawTest.{lawful_from_test};

use rustc_apfloat::ExpInt;
use small_formats::StorageFormat;

/// Those of `Float8E5M2`.
#[derive(Clone, Copy)]
pub(crate) struct E5M2Digits;

impl StorageFormat for E5M2Digits {
    const BITS: usize = 8;

    const PRECISION: usize = 3;

    const MIN_EXP: ExpInt = -14;

    ghost BITS = { 8 };

    ghost PRECISION = { 3 };

    ghost MIN_EXP = { negsuc 13 };

    ghost lawful = { lawful_from_test _ refl };
}

/// Those of `Float8E4M3FN`.
#[derive(Clone, Copy)]
pub(crate) struct E4M3Digits;

impl StorageFormat for E4M3Digits {
    const BITS: usize = 8;

    const PRECISION: usize = 4;

    const MIN_EXP: ExpInt = -6;

    ghost BITS = { 8 };

    ghost PRECISION = { 4 };

    ghost MIN_EXP = { negsuc 5 };

    ghost lawful = { lawful_from_test _ refl };
}
