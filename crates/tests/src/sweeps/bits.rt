//! From bits to values and back.

ghost use Rattle.std.specs.Prelude.{◌<◌};

use crate::asserts::{Bits, same};
use commands::custom_formats::SevenS;
use rustc_apfloat::ieee::{DoubleS, HalfS, IeeeFloat, Semantics, SingleS, X87DoubleExtendedS};
use rustc_apfloat::{Category, Float};
use std::process::Abort;

/// The widths of the biased exponent and the fraction of an interchange format.
#[derive(Clone, Copy)]
struct Fields {
    exponent_bits: u32,
    fraction_bits: u32,
}

const HALF: Fields = Fields {
    exponent_bits: 5,
    fraction_bits: 10,
};

const SINGLE: Fields = Fields {
    exponent_bits: 8,
    fraction_bits: 23,
};

const DOUBLE: Fields = Fields {
    exponent_bits: 11,
    fraction_bits: 52,
};

const SEVEN: Fields = Fields {
    exponent_bits: 3,
    fraction_bits: 3,
};

/// The category of a bit pattern in a format with infinities.
fn category_of(fields: Fields, bits: u128) -> Category
    requires exponent { fields.exponent_bits < 32 }
    requires fraction { fields.fraction_bits < 64 }
{
    let fractions = 2u128.pow(fields.fraction_bits);
    let exponents = 2u128.pow(fields.exponent_bits);
    let exponent = bits / fractions % exponents;
    match (exponent, bits % fractions) {
        (0, 0) => Category::Zero,
        (_, fraction) if exponent < exponents - 1 => Category::Normal,
        (_, 0) => Category::Infinity,
        (_, _) => Category::NaN,
    }
}

/// A bit pattern is read as a value of the category and the sign that its fields say, and written back unchanged. Bits
/// above it are ignored.
fn check<S: Semantics>(rt: &impl Abort, fields: Fields, bits: u128)
    requires written { S.PRECISION < S.BITS }
    requires exponent { fields.exponent_bits < 32 }
    requires fraction { fields.fraction_bits < 64 }
{
    let x = S::from_bits(bits);
    let unsigned = fields.exponent_bits + fields.fraction_bits;
    let got = (S::to_bits(x), x.category(), x.is_negative());
    let expected = (bits, category_of(fields, bits), bits >= 1 << unsigned);
    same(rt, got, expected, Bits(bits));
    for above in [0, 1 << (unsigned + 1), u128::MAX << (unsigned + 1)] {
        let value: IeeeFloat<S> = Float::from_bits(bits | above);
        same(rt, value.to_bits(), bits, (Bits(bits), Bits(above)));
    }
}

/// Every bit pattern of a small format.
fn check_all<S: Semantics>(rt: &impl Abort, fields: Fields, patterns: u64)
    requires written { S.PRECISION < S.BITS }
    requires exponent { fields.exponent_bits < 32 }
    requires fraction { fields.fraction_bits < 64 }
{
    for bits in 0..patterns {
        check::<S>(rt, fields, u128::from(bits));
    }
}

/// Fractions with one bit set, with all bits below it set, and with all bits from it up set, with these biased
/// exponents.
fn check_edges<S: Semantics>(rt: &impl Abort, fields: Fields, exponents: &[u128])
    requires written { S.PRECISION < S.BITS }
    requires exponent { fields.exponent_bits < 32 }
    requires fraction { fields.fraction_bits < 64 }
{
    let sign = 1 << (fields.exponent_bits + fields.fraction_bits);
    let all = 2u128.pow(fields.fraction_bits) - 1;
    for exponent in exponents {
        let positive = *exponent << fields.fraction_bits;
        for place in 0..fields.fraction_bits {
            let bit = 2u128.pow(place);
            for fraction in [bit, bit - 1, all ^ (bit - 1)] {
                check::<S>(rt, fields, positive | fraction);
                check::<S>(rt, fields, sign | positive | fraction);
            }
        }
    }
}

#[test]
fn all_of_half(rt: HostRuntime) {
    check_all::<HalfS>(&rt, HALF, 1 << 16);
}

#[test]
fn all_of_seven(rt: HostRuntime) {
    check_all::<SevenS>(&rt, SEVEN, 1 << 7);
}

#[test]
fn edges_of_single(rt: HostRuntime) {
    check_edges::<SingleS>(&rt, SINGLE, &[0, 1, 2, 126, 127, 128, 253, 254, 255]);
}

#[test]
fn edges_of_double(rt: HostRuntime) {
    check_edges::<DoubleS>(&rt, DOUBLE, &[0, 1, 2, 1022, 1023, 1024, 2045, 2046, 2047]);
}

/// An unnormal (a number without its integer bit) is read as a NaN, and written with an exponent of all ones.
#[test]
fn number_without_its_integer_bit(rt: HostRuntime) {
    let x = X87DoubleExtendedS::from_bits(0x3fff4000000000000000);
    same(
        &rt,
        X87DoubleExtendedS::to_bits(x),
        0x7fff4000000000000000,
        "3fff4000000000000000",
    );
}
