//! Every bit pattern of a small format converted to a wider one and back.

ghost use Rattle.std.specs.Prelude.{◌<◌, ◌≤◌};

use crate::asserts::{Bits, same};
use crate::sweeps::small::{
    Class, Expected, Operand, Small, answered, decoded, exactly, is_nan, kept, layout_of,
    patterns_of, quieted,
};
use crate::sweeps::tables::{EVEN, INVALID_OP, MODES, OK};
use rustc_apfloat::ieee::{
    BFloatS, DoubleS, Float8E4M3FNS, Float8E4M3FNUZS, Float8E5M2S, HalfS, IeeeFloat,
    NonfiniteBehavior, Semantics, SingleS,
};
use rustc_apfloat::{Flags, Float, FloatConvert, Round, StatusAnd};
use std::process::Abort;

/// A value converted to another format and back, and whether each conversion lost information.
fn there_and_back<S: Semantics, W: Semantics>(
    x: IeeeFloat<S>,
    mode: Round,
) -> (StatusAnd<IeeeFloat<W>>, StatusAnd<IeeeFloat<S>>, [bool; 2]) {
    let mut there_loses = true;
    let there: StatusAnd<IeeeFloat<W>> = x.convert_r(mode, &mut there_loses);
    let wide = there.value;
    let mut back_loses = true;
    let back: StatusAnd<IeeeFloat<S>> = wide.convert_r(mode, &mut back_loses);
    (there, back, [there_loses, back_loses])
}

/// A value is unchanged by both conversions, without loss; a signaling NaN is quieted, and the first conversion raises
/// INVALID_OP.
fn check<S: Semantics, W: Semantics>(rt: &impl Abort, patterns: u64, quiet: u128)
    requires { S.PRECISION < S.BITS }
{
    for pattern in 0..patterns {
        let bits = u128::from(pattern);
        let x = S::from_bits(bits);
        let (back, flags) = if x.is_signaling() {
            (bits | quiet, INVALID_OP)
        } else {
            (bits, OK)
        };
        let (wide, narrow, losses) = there_and_back::<S, W>(x, EVEN);
        let got = (wide.status.bits(), answered(narrow), losses);
        same(rt, got, (flags, exactly(back), [false; 2]), Bits(bits));
    }
}

/// A format with infinities, by its bits.
#[derive(Clone, Copy)]
struct Wide {
    /// The number of digits below the integer bit.
    fraction_digits: u32,
    /// The exponent of 1 in quanta: 1 is 2^scale quanta.
    scale: u32,
    minus: u128,
    infinity: u128,
    quiet: u128,
}

const HALF: Wide = Wide {
    fraction_digits: 10,
    scale: 24,
    minus: 1 << 15,
    infinity: 0x1f << 10,
    quiet: 1 << 9,
};

const SINGLE: Wide = Wide {
    fraction_digits: 23,
    scale: 149,
    minus: 1 << 31,
    infinity: 0xff << 23,
    quiet: 1 << 22,
};

/// The exponent of 1 in quanta: 1 is 2^scale quanta.
fn scale_of(format: Small) -> u32
    ensures { result ≤ 24 }
{
    match format {
        Small::Half | Small::HalfIeee | Small::HalfIeeeTinyBefore => 24,
        Small::Float8E5M2 => 16,
        Small::Float8E4M3FN => 9,
        Small::Float8E4M3FNUZ => 10,
    }
}

/// The bits of a count of quanta of 2^-`scale`: its highest digit becomes the integer bit, or a lower bit for a
/// denormal number.
fn number_bits(wide: Wide, scale: u32, quanta: u128) -> u128
    requires some { 0 < quanta }
    requires finer { scale ≤ wide.scale }
    requires few_places { wide.scale ≤ 149 }
    requires few_digits { wide.fraction_digits ≤ 23 }
{
    let places = wide.scale - scale;
    let place = quanta.ilog2();
    let highest = place + places;
    if highest < wide.fraction_digits {
        return quanta << places;
    }
    let exponent = u128::from(highest - wide.fraction_digits + 1);
    let fraction = (quanta << wide.fraction_digits >> place) ^ (1 << wide.fraction_digits);
    exponent << wide.fraction_digits | fraction
}

/// The bits of a NaN, whose payload stays in the highest digits of its significand.
fn nan_bits(format: Small, wide: Wide, bits: u128) -> u128
    requires some_digits { 10 ≤ wide.fraction_digits }
    requires few_digits { wide.fraction_digits ≤ 23 }
{
    let bounds = layout_of(format).bounds;
    let significand = quieted(format, bits) % bounds.smallest_normalized;
    let more_digits = wide.fraction_digits + 1 - bounds.precision;
    wide.infinity | wide.quiet | significand << more_digits
}

/// The bits of a sign; in some formats the NaN has none.
fn wide_sign(format: Small, wide: Wide, x: Operand) -> u128 {
    match (x.class, layout_of(format).bounds.nonfinite) {
        (Class::NotANumber, NonfiniteBehavior::NanNegativeZero) => 0,
        (_, _) if x.negative => wide.minus,
        (_, _) => 0,
    }
}

/// The expected conversion of a bit pattern to the wide format.
fn widened(format: Small, wide: Wide, bits: u128) -> Expected
    requires finer { 24 ≤ wide.scale }
    requires few_places { wide.scale ≤ 149 }
    requires some_digits { 10 ≤ wide.fraction_digits }
    requires few_digits { wide.fraction_digits ≤ 23 }
{
    let x = decoded(format, bits);
    let magnitude = match x.class {
        Class::Number if x.quanta > 0 => number_bits(wide, scale_of(format), x.quanta),
        Class::Number => 0,
        Class::Infinity => wide.infinity,
        Class::NotANumber => nan_bits(format, wide, bits),
    };
    Expected {
        bits: wide_sign(format, wide, x) | magnitude,
        status: kept(format, bits).status,
    }
}

/// Whether the conversion back loses the whole payload of a NaN.
fn loses_payload(format: Small, bits: u128) -> bool {
    let has_payloads = layout_of(format).bounds.nonfinite == NonfiniteBehavior::IEEE754;
    is_nan(format, bits) && !has_payloads
}

/// Every bit pattern of a small format converted to a wider one, by its digits, and back.
fn check_small<S: Semantics, W: Semantics>(rt: &impl Abort, format: Small, wide: Wide)
    requires narrow_written { S.PRECISION < S.BITS }
    requires wide_written { W.PRECISION < W.BITS }
    requires finer { 24 ≤ wide.scale }
    requires few_places { wide.scale ≤ 149 }
    requires some_digits { 10 ≤ wide.fraction_digits }
    requires few_digits { wide.fraction_digits ≤ 23 }
{
    for pattern in 0..patterns_of(format) {
        let bits = u128::from(pattern);
        for mode in MODES {
            let (there, back, losses) = there_and_back::<S, W>(S::from_bits(bits), mode);
            let got = ([answered(there), answered(back)], losses);
            let there = widened(format, wide, bits);
            let back = exactly(quieted(format, bits));
            let expected = ([there, back], [false, loses_payload(format, bits)]);
            same(rt, got, expected, (Bits(bits), mode));
        }
    }
}

#[test]
fn wider_and_back(rt: HostRuntime) {
    check::<BFloatS, SingleS>(&rt, 1 << 16, 1 << 6);
    check::<HalfS, DoubleS>(&rt, 1 << 16, 1 << 9);
}

#[test]
fn half_to_single(rt: HostRuntime) {
    check_small::<HalfS, SingleS>(&rt, Small::Half, SINGLE);
}

#[test]
fn eight_bits_to_half(rt: HostRuntime) {
    check_small::<Float8E5M2S, HalfS>(&rt, Small::Float8E5M2, HALF);
    check_small::<Float8E4M3FNS, HalfS>(&rt, Small::Float8E4M3FN, HALF);
    check_small::<Float8E4M3FNUZS, HalfS>(&rt, Small::Float8E4M3FNUZ, HALF);
}

#[test]
fn eight_bits_to_single(rt: HostRuntime) {
    check_small::<Float8E5M2S, SingleS>(&rt, Small::Float8E5M2, SINGLE);
    check_small::<Float8E4M3FNS, SingleS>(&rt, Small::Float8E4M3FN, SINGLE);
    check_small::<Float8E4M3FNUZS, SingleS>(&rt, Small::Float8E4M3FNUZ, SINGLE);
}
