//! The constants of a type and its named values.

ghost use Rattle.std.specs.Prelude.{◌<◌};

use crate::asserts::same;
use commands::custom_formats::{Least, LeastS, SevenS};
use rustc_apfloat::ieee::{
    BFloat, Double, DoubleS, Float8E4M3FNS, Float8E4M3FNUZS, Float8E5M2, HalfS, IeeeFloat,
    NonfiniteBehavior, Quad, Semantics, SingleS,
};
use rustc_apfloat::ppc::{FallbackExtendedS, FallbackS};
use rustc_apfloat::{Category, ExpInt, Float};
use std::process::Abort;

/// Asserts the bits of zero, and of a format's smallest, smallest normalized and largest value and the one past it.
fn check<S: Semantics>(rt: &impl Abort, format: &str, named: [u128; 4])
    requires { S.PRECISION < S.BITS }
{
    let zeros = [
        IeeeFloat::<S>::zero().to_bits(),
        IeeeFloat::<S>::default().to_bits(),
    ];
    let got = [
        IeeeFloat::<S>::smallest().to_bits(),
        IeeeFloat::<S>::smallest_normalized().to_bits(),
        IeeeFloat::<S>::largest().to_bits(),
        IeeeFloat::<S>::infinity().to_bits(),
    ];
    same(rt, (zeros, got), ([0, 0], named), format);
}

#[test]
fn named_values(rt: HostRuntime) {
    check::<HalfS>(&rt, "half", [1, 0x0400, 0x7bff, 0x7c00]);
    check::<SingleS>(&rt, "single", [1, 0x00800000, 0x7f7fffff, 0x7f800000]);
    let double = [
        1,
        0x0010000000000000,
        0x7fefffffffffffff,
        0x7ff0000000000000,
    ];
    check::<DoubleS>(&rt, "double", double);
    check::<SevenS>(&rt, "seven", [1, 0x08, 0x37, 0x38]);
    check::<Float8E4M3FNS>(&rt, "e4m3fn", [1, 0x08, 0x7e, 0x7f]);
    check::<Float8E4M3FNUZS>(&rt, "e4m3fnuz", [1, 0x08, 0x7f, 0x80]);
}

/// For a type without bits, only the categories are checked.
#[test]
fn named_values_without_bits(rt: HostRuntime) {
    let default = Least::default();
    let got = [
        Least::zero().category(),
        default.category(),
        Least::smallest().category(),
        Least::smallest_normalized().category(),
        Least::largest().category(),
        Least::infinity().category(),
    ];
    let expected = [
        Category::Zero,
        Category::Zero,
        Category::Normal,
        Category::Normal,
        Category::Normal,
        Category::Infinity,
    ];
    let got = (got, default.is_negative());
    same(&rt, got, (expected, false), "categories, sign");
}

/// The constants of a format as the trait `Float` gives them.
fn constants<S: Semantics>() -> (usize, usize, ExpInt, ExpInt) {
    (
        IeeeFloat::<S>::BITS,
        IeeeFloat::<S>::PRECISION,
        IeeeFloat::<S>::MIN_EXP,
        IeeeFloat::<S>::MAX_EXP,
    )
}

#[test]
fn constants_of_types(rt: HostRuntime) {
    let got = [
        constants::<HalfS>(),
        constants::<SingleS>(),
        constants::<DoubleS>(),
        constants::<SevenS>(),
        constants::<LeastS>(),
    ];
    let expected = [
        (16, 11, -14, 15),
        (32, 24, -126, 127),
        (64, 53, -1022, 1023),
        (7, 4, -1, 4),
        (0, 3, -1, 3),
    ];
    same(&rt, got, expected, "half, single, double, seven, least");
}

/// The constants of a format that `Float` does not have: the bits of the exponent, the greatest and the least exponent
/// of IEEE 754, the kind of non-finite behaviour, the significands of NaNs (the common bits, the payload mask and the
/// quiet bits), whether the integer bit is written, and whether tininess is detected before rounding.
type Rules = (usize, [ExpInt; 2], NonfiniteBehavior, [u128; 3], [bool; 2]);

fn rules_of<S: Semantics>() -> Rules {
    (
        S::EXP_BITS,
        [S::IEEE_MAX_EXP, S::IEEE_MIN_EXP],
        S::NONFINITE_BEHAVIOR,
        [
            S::NAN_SIGNIFICAND_BASE,
            S::NAN_PAYLOAD_MASK,
            S::QNAN_SIGNIFICAND,
        ],
        [S::EXPLICIT_INTEGER_BIT, S::TINY_BEFORE_ROUNDING],
    )
}

/// The wide formats of pairs differ only in the least exponent.
#[test]
fn constants_of_wide_formats(rt: HostRuntime) {
    let got = [constants::<FallbackS>(), constants::<FallbackExtendedS>()];
    let expected = [(0, 106, -969, 1023), (0, 106, -1022, 1023)];
    same(&rt, got, expected, "fallback, extended fallback");
    let nans = [
        0,
        0x1ffffffffffffffffffffffffff,
        0x100000000000000000000000000,
    ];
    let wide = (0, [0, 0], NonfiniteBehavior::IEEE754, nans, [false, false]);
    let got = [rules_of::<FallbackS>(), rules_of::<FallbackExtendedS>()];
    same(&rt, got, [wide, wide], "fallback, extended fallback");
}

#[test]
fn constants_of_aliases(rt: HostRuntime) {
    let got = [
        (Double::BITS, Double::PRECISION),
        (Quad::BITS, Quad::PRECISION),
        (BFloat::BITS, BFloat::PRECISION),
        (Float8E5M2::BITS, Float8E5M2::PRECISION),
    ];
    let expected = [(64, 53), (128, 113), (16, 8), (8, 3)];
    same(&rt, got, expected, "double, quad, bfloat, e5m2");
}

/// The largest value of each format.
#[test]
fn largest_of_aliases(rt: HostRuntime) {
    let got = [
        Double::largest().to_bits(),
        Quad::largest().to_bits(),
        BFloat::largest().to_bits(),
        Float8E5M2::largest().to_bits(),
    ];
    let expected = [
        0x7fefffffffffffff,
        0x7ffeffffffffffffffffffffffffffff,
        0x7f7f,
        0x7b,
    ];
    same(&rt, got, expected, "double, quad, bfloat, e5m2");
}
