//! Elements of the microscaling formats (OCP Microscaling Formats 1.0, 5.3).

ghost use Rattle.std.specs.Prelude.{pos, negsuc, refl};
ghost use Rattle.small_formats.specs.LawTest.{lawful_from_test};

use crate::format::StorageFormat;
use apfloat_base::ExpInt;

/// Four bits, the elements of MXFP4 and NVFP4: 0, 0.5, 1, 1.5, 2, 3, 4, 6 and their negatives.
#[derive(Clone, Copy)]
pub struct E2M1FN;

impl StorageFormat for E2M1FN {
    const BITS: usize = 4;

    const PRECISION: usize = 2;

    const MIN_EXP: ExpInt = 0;

    ghost BITS = { 4 };

    ghost PRECISION = { 2 };

    ghost MIN_EXP = { pos 0 };

    ghost lawful = { lawful_from_test _ refl };
}

/// Six bits with three of the significand: up to 7.5, in steps of at least 0.125.
#[derive(Clone, Copy)]
pub struct E2M3FN;

impl StorageFormat for E2M3FN {
    const BITS: usize = 6;

    const PRECISION: usize = 4;

    const MIN_EXP: ExpInt = 0;

    ghost BITS = { 6 };

    ghost PRECISION = { 4 };

    ghost MIN_EXP = { pos 0 };

    ghost lawful = { lawful_from_test _ refl };
}

/// Six bits with two of the significand: up to 28, in steps of at least 0.0625.
#[derive(Clone, Copy)]
pub struct E3M2FN;

impl StorageFormat for E3M2FN {
    const BITS: usize = 6;

    const PRECISION: usize = 3;

    const MIN_EXP: ExpInt = -2;

    ghost BITS = { 6 };

    ghost PRECISION = { 3 };

    ghost MIN_EXP = { negsuc 1 };

    ghost lawful = { lawful_from_test _ refl };
}
