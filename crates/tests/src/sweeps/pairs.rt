//! Sums of doubles as pairs.

use crate::asserts::same;
use crate::pairs::{exact_sum, sum_of_three};
use rustc_apfloat::Float;
use rustc_apfloat::ieee::Double;

#[test]
fn exact_sums(rt: HostRuntime) {
    let third = exact_sum(
        Double::from_bits(0x3fb9_9999_9999_999a),
        Double::from_bits(0x3fc9_9999_9999_999a),
    );
    let farthest = exact_sum(
        Double::from_bits(0x3ff0_0000_0000_0000),
        Double::from_bits(0x0000_0000_0000_0001),
    );
    let expected = [
        0xbc80_0000_0000_0000_3fd3_3333_3333_3334,
        0x0000_0000_0000_0001_3ff0_0000_0000_0000,
    ];
    let got = [third.to_bits(), farthest.to_bits()];
    same(&rt, got, expected, "third, farthest");
}

#[test]
fn sums_of_three(rt: HostRuntime) {
    let exact = sum_of_three(
        Double::from_bits(0x3ff0_0000_0000_0000),
        Double::from_bits(0x3c30_0000_0000_0000),
        Double::from_bits(0x3910_0000_0000_0000),
    );
    let rounded = sum_of_three(
        Double::from_bits(0x3fd5_5555_5555_5555),
        Double::from_bits(0x3c85_5555_5555_5555),
        Double::from_bits(0x3b75_5555_5555_5555),
    );
    let expected = [
        0x3c30_0000_0000_0004_3ff0_0000_0000_0000,
        0xbc75_5540_0000_0001_3fd5_5555_5555_5556,
    ];
    let got = [exact.to_bits(), rounded.to_bits()];
    same(&rt, got, expected, "exact, rounded");
}
