//! The next value up and down from every bit pattern of the small formats, value and status, by the order of the
//! patterns: the patterns of positive values increase with the values, from zero to the value past the largest.

ghost use Rattle.std.specs.Prelude.{◌<◌};

use crate::asserts::{Bits, same};
use crate::laws::up_and_down;
use crate::sweeps::calls::{is_nonzero_number, next_down};
use crate::sweeps::small::{
    Class, Expected, Layout, Small, answered, decoded, exactly, is_nan, layout_of, past_bits,
    patterns_of, signals,
};
use crate::sweeps::tables::INVALID_OP;
use rustc_apfloat::Float;
use rustc_apfloat::ieee::{Float8E5M2S, HalfS, NonfiniteBehavior, Semantics};
use std::process::Abort;

/// The bits of a sign and a magnitude; in some formats a zero has no sign.
fn signed(layout: Layout, negative: bool, magnitude: u128) -> u128 {
    let unsigned_zero = magnitude == 0
        && layout.bounds.nonfinite == NonfiniteBehavior::NanNegativeZero;
    if negative && !unsigned_zero {
        layout.minus | magnitude
    } else {
        magnitude
    }
}

/// The result of a step from a NaN; a signaling NaN keeps only its sign.
fn step_from_nan(format: Small, bits: u128, negative: bool) -> Expected {
    if signals(format, bits) {
        let layout = layout_of(format);
        Expected {
            bits: past_bits(layout, negative) | layout.quiet,
            status: INVALID_OP,
        }
    } else {
        exactly(bits)
    }
}

/// The result of a step up or down: from a zero to the least value in that direction, toward zero to the previous
/// pattern, and away from zero to the next pattern, but from an infinity no further.
fn step(format: Small, bits: u128, upward: bool) -> Expected {
    let layout = layout_of(format);
    let x = decoded(format, bits);
    let magnitude = bits % layout.minus;
    match x.class {
        Class::NotANumber => step_from_nan(format, bits, x.negative),
        _ if magnitude == 0 => exactly(signed(layout, !upward, 1)),
        _ if x.negative == upward => exactly(signed(layout, x.negative, magnitude - 1)),
        Class::Infinity => exactly(bits),
        Class::Number => exactly(signed(layout, x.negative, magnitude + 1)),
    }
}

/// Every bit pattern of a format, in both directions.
pub fn check_all<S: Semantics>(rt: &impl Abort, format: Small)
    requires { S.PRECISION < S.BITS }
{
    for pattern in 0..patterns_of(format) {
        let bits = u128::from(pattern);
        let x = S::from_bits(bits);
        same(
            rt,
            (answered(x.next_up()), answered(next_down(x))),
            (step(format, bits, true), step(format, bits, false)),
            Bits(bits),
        );
    }
}

/// A step up and a step down lead back to a nonzero number, except that a step past the largest value can be undone
/// only from an infinity.
fn check_back<S: Semantics>(rt: &impl Abort, format: Small)
    requires { S.PRECISION < S.BITS }
{
    for pattern in 0..patterns_of(format) {
        let bits = u128::from(pattern);
        let x = S::from_bits(bits);
        if is_nonzero_number(x) {
            same(rt, up_and_down(x).to_bits(), bits, Bits(bits));
        }
    }
}

#[test]
fn up_and_back(rt: HostRuntime) {
    check_back::<HalfS>(&rt, Small::Half);
    check_back::<Float8E5M2S>(&rt, Small::Float8E5M2);
}
