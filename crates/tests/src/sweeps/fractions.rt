//! The fraction and the exponent of every bit pattern of the small formats, compared with the digits of its quanta, and
//! recombined.

ghost use Rattle.std.specs.Prelude.{◌^◌, ◌<◌};

use crate::asserts::{Bits, same};
use crate::sweeps::small::{
    Class, Small, decoded, layout_of, magnitude_bits, patterns_of, quieted, sign_bit,
};
use crate::sweeps::tables::MODES;
use rustc_apfloat::ieee::{IeeeFloat, Semantics};
use rustc_apfloat::{ExpInt, Float, IEK_INF, IEK_NAN, IEK_ZERO, Round};
use std::process::Abort;

/// The bits of a fraction, and its exponent.
#[derive(Clone, Copy)]
struct Fraction {
    bits: u128,
    exponent: ExpInt,
}

/// A count of quanta as a fraction from one half to below 1: its highest digit becomes the digit of one half.
fn fraction_of(format: Small, negative: bool, quanta: u128) -> Fraction
    requires some { 0 < quanta }
    requires few { quanta < 2 ^ 40 }
{
    let layout = layout_of(format);
    let place = quanta.ilog2();
    let fraction = quanta * (layout.one / 2) / 2u128.pow(place);
    Fraction {
        bits: sign_bit(layout, negative)
            | magnitude_bits(layout.bounds.smallest_normalized, fraction),
        exponent: place as ExpInt - layout.one.ilog2() as ExpInt + 1,
    }
}

/// The expected fraction of a bit pattern.
fn expected(format: Small, bits: u128) -> Fraction {
    let x = decoded(format, bits);
    match x.class {
        Class::Number if x.quanta > 0 => fraction_of(format, x.negative, x.quanta),
        Class::Number => Fraction { bits, exponent: 0 },
        Class::Infinity => Fraction {
            bits,
            exponent: IEK_INF,
        },
        Class::NotANumber => Fraction {
            bits: quieted(format, bits),
            exponent: IEK_NAN,
        },
    }
}

/// The exponent of the value as a power of two times a factor from 1 to below 2.
fn logarithm(format: Small, bits: u128, exponent: ExpInt) -> ExpInt {
    let x = decoded(format, bits);
    match x.class {
        Class::Number if x.quanta > 0 => exponent.saturating_sub(1),
        Class::Number => IEK_ZERO,
        Class::Infinity | Class::NotANumber => exponent,
    }
}

/// The bits of the fraction of a value and of the fraction scaled by the exponent, and the exponent and the logarithm.
fn taken_apart<S: Semantics>(x: IeeeFloat<S>, mode: Round) -> ([u128; 2], [ExpInt; 2])
    requires { S.PRECISION < S.BITS }
{
    let mut exponent = 0;
    let fraction = x.frexp_r(&mut exponent, mode);
    let whole = fraction.scalbn_r(exponent, mode);
    ([fraction.to_bits(), whole.to_bits()], [exponent, x.ilogb()])
}

/// The fraction of a value, scaled by its exponent, is the value again, except for a signaling NaN.
fn check<S: Semantics>(rt: &impl Abort, format: Small, mode: Round, bits: u128)
    requires { S.PRECISION < S.BITS }
{
    let (values, exponents) = taken_apart::<S>(S::from_bits(bits), mode);
    let fraction = expected(format, bits);
    let logarithm = logarithm(format, bits, exponents[0]);
    let expected = (
        [fraction.bits, quieted(format, bits)],
        [fraction.exponent, logarithm],
    );
    same(rt, (values, exponents), expected, (Bits(bits), mode));
}

/// Every bit pattern of a format, in each mode.
pub fn check_all<S: Semantics>(rt: &impl Abort, format: Small)
    requires { S.PRECISION < S.BITS }
{
    for pattern in 0..patterns_of(format) {
        for mode in MODES {
            check::<S>(rt, format, mode, u128::from(pattern));
        }
    }
}
