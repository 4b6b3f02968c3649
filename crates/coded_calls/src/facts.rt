//! What a format is.

ghost use Rattle.std.specs.Prelude.{◌≡◌, ◌<◌, ◌≤◌};
ghost use Rattle.rustc_apfloat.specs.Types.{constants_of};
ghost use Rattle.formats_at_run_time.specs.FormatKinds.{IfFormat};
ghost use Rattle.coded_calls.specs.Facts.{AreFacts, IsDigitCountToReadBack, has_infinities_code, nonfinite_code};

use crate::data::Halves;
use formats_at_run_time::InFormat;
use rustc_apfloat::Float;
use rustc_apfloat::ieee::{IeeeFloat, NonfiniteBehavior, Semantics};

/// What a format is. The numbers are those of its values without a sign.
#[repr(C)]
#[derive(Clone, Copy)]
pub struct Facts {
    /// The bits of the largest number.
    pub largest: Halves,
    /// The bits of the smallest normal number.
    pub smallest_normal: Halves,
    /// The bits of the smallest number above zero.
    pub smallest: Halves,
    /// How many bits a value has.
    pub bits: u32,
    /// How many bytes a value takes in an array.
    pub bytes: u32,
    /// How many binary digits a normal number has, with the first one.
    pub precision: u32,
    /// The exponent of the smallest normal number.
    pub least_exponent: i32,
    /// The exponent of the largest number.
    pub greatest_exponent: i32,
    /// So many decimal digits of each number are read back as it (IEEE 754-2019 5.12.2).
    pub decimal_digits: u32,
    /// 1 if the format has infinities, otherwise 0.
    pub has_infinities: u32,
    /// Which NaNs it has: 0 if quiet and signaling ones with payloads, 1 if one of each sign, 2 if one alone, in place
    /// of -0.
    pub nans: u32,
}

const _: () = prove!(size_of::<Facts>() == 80);

const _: () = prove!(align_of::<Facts>() == 8);

/// The call that says what its format is.
#[derive(Clone, Copy)]
pub struct FactsCall {
    /// How many bytes a value takes in an array.
    pub bytes: u32,
}

impl InFormat for FactsCall {
    type Output = Facts;

    ghost gives = { λ it kind facts. IfFormat kind (λ c. AreFacts c it.bytes facts) };

    fn in_format<S: Semantics>(self) -> Facts {
        facts_of::<S>(self.bytes)
    }
}

/// What a format is.
fn facts_of<S: Semantics>(bytes: u32) -> Facts
    requires { S.PRECISION < S.BITS }
    ensures { AreFacts (constants_of S.Semantics) bytes result }
{
    Facts {
        largest: Halves::of(IeeeFloat::<S>::largest().to_bits()),
        smallest_normal: Halves::of(IeeeFloat::<S>::smallest_normalized().to_bits()),
        smallest: Halves::of(IeeeFloat::<S>::smallest().to_bits()),
        bits: S::BITS as u32,
        bytes,
        precision: S::PRECISION as u32,
        least_exponent: S::MIN_EXP,
        greatest_exponent: S::MAX_EXP,
        decimal_digits: digits_to_read_back(S::PRECISION as u32),
        has_infinities: has_infinities(S::NONFINITE_BEHAVIOR),
        nans: nonfinite_code(S::NONFINITE_BEHAVIOR),
    }
}

/// The code of what a format has besides numbers.
fn nonfinite_code(of: NonfiniteBehavior) -> u32
    ensures { result ≡ nonfinite_code of }
{
    match of {
        NonfiniteBehavior::IEEE754 => 0,
        NonfiniteBehavior::NanOnly => 1,
        NonfiniteBehavior::NanNegativeZero => 2,
    }
}

/// 1 if there are infinities, otherwise 0.
fn has_infinities(of: NonfiniteBehavior) -> u32
    ensures { result ≡ has_infinities_code of }
{
    match of {
        NonfiniteBehavior::IEEE754 => 1,
        NonfiniteBehavior::NanOnly => 0,
        NonfiniteBehavior::NanNegativeZero => 0,
    }
}

/// How many decimal digits tell numbers of so many binary ones apart: one more than the power of two has.
fn digits_to_read_back(precision: u32) -> u32
    requires { precision ≤ 125 }
    ensures { IsDigitCountToReadBack precision result }
{
    (1_u128 << precision).ilog10() + 2
}
