//! Unpacked values: their significands, and the rounding.

ghost use Rattle.std.specs.Prelude.{◌^◌, ◌≤◌};

use crate::asserts::same;
use apfloat_model::{Loss, NonfiniteBehavior, Round};
use apfloat_rounding::bits::{Widths, decode};
use apfloat_rounding::rounding::deliver;
use apfloat_rounding::shape::Shape;

/// The shape of binary16.
pub const HALF: Shape = Shape {
    precision: 11,
    min_exp: -14,
    max_exp: 15,
    nonfinite: NonfiniteBehavior::IEEE754,
    explicit_integer_bit: false,
    tiny_before_rounding: false,
    ieee_flags: false,
};

const HALF_WIDTHS: Widths = Widths {
    bits: 16,
    exponent_bits: 5,
};

#[test]
fn holds_denormals_normalized(rt: HostRuntime) {
    let rows = [
        (0x0001, 0x400, -24),
        (0x03ff, 0x7fe, -15),
        (0x0400, 0x400, -14),
    ];
    for (bits, significand, exponent) in rows {
        let x = decode(HALF, HALF_WIDTHS, bits);
        same(
            &rt,
            (x.significand, x.exponent),
            (significand, exponent),
            bits,
        );
    }
}

/// The significand of 13 digits after rounding to the 11 of binary16, to nearest, ties to even.
fn rounded(significand: u128, loss: Loss) -> u128
    requires { 2 ^ 12 ≤ significand }
{
    deliver(
        HALF,
        significand,
        -12,
        loss,
        Round::NearestTiesToEven,
        false,
    )
    .value
    .significand
}

#[test]
fn cuts_once(rt: HostRuntime) {
    // A tie to even below, above a tie, and a tie to even above.
    let got = [
        rounded(0x1002, Loss::ExactlyZero),
        rounded(0x1002, Loss::LessThanHalf),
        rounded(0x1006, Loss::ExactlyZero),
    ];
    same(&rt, got, [0x400, 0x401, 0x402], "rounded");
}
