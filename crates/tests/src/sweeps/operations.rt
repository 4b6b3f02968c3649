//! Sums, differences, products and quotients of bit patterns: value and status compared with the plain program for one
//! rounding.

ghost use Rattle.std.specs.Prelude.{◌<◌, ◌≤◌};
ghost use Rattle.rustc_apfloat.specs.Products.{product_limit};

use crate::asserts::{Bits, same};
use crate::sweeps::small::{Operation, Small, answered, result_of};
use crate::sweeps::tables::{DOWN, EVEN, MODES};
use rustc_apfloat::ieee::{Flagged, Float8E4M3FNS, Float8E4M3FNUZS, Float8E5M2S, HalfS, IeeeFloat};
use rustc_apfloat::{Float, Round, StatusAnd};
use std::process::Abort;

/// An operation of the library.
fn answer<S: Flagged>(
    operation: Operation,
    mode: Round,
    x: IeeeFloat<S>,
    y: IeeeFloat<S>,
) -> StatusAnd<IeeeFloat<S>>
    requires { S.PRECISION ≤ product_limit }
{
    match operation {
        Operation::Sum => x.add_r(y, mode),
        Operation::Difference => x.sub_r(y, mode),
        Operation::Product => x.mul_r(y, mode),
        Operation::Quotient => x.div_r(y, mode),
    }
}

/// Operations on two bit patterns: value and status are the expected ones.
pub fn check_pair<S: Flagged>(
    rt: &impl Abort,
    format: Small,
    operations: &[Operation],
    mode: Round,
    pair: (u128, u128),
)
    requires written { S.PRECISION < S.BITS }
    requires multiplied { S.PRECISION ≤ product_limit }
{
    let (x, y) = pair;
    for operation in operations {
        let left = IeeeFloat::<S>::from_bits(x);
        let right = IeeeFloat::<S>::from_bits(y);
        let got = answered(answer(*operation, mode, left, right));
        let expected = result_of(format, *operation, mode, x, y);
        same(rt, got, expected, (*operation, Bits(x), mode, Bits(y)));
    }
}

static OPERATIONS: [Operation; 4] = [
    Operation::Sum,
    Operation::Difference,
    Operation::Product,
    Operation::Quotient,
];

/// All pairs of 8-bit patterns.
fn check_all<S: Flagged>(rt: &impl Abort, format: Small, mode: Round)
    requires written { S.PRECISION < S.BITS }
    requires multiplied { S.PRECISION ≤ product_limit }
{
    for x in 0..256u64 {
        for y in 0..256u64 {
            let pair = (u128::from(x), u128::from(y));
            check_pair::<S>(rt, format, &OPERATIONS, mode, pair);
        }
    }
}

/// +0, the greatest negative number, the greatest denormal, the number below 1, 3, the lowest number, the infinity, and
/// a signaling NaN.
static PARTNERS: [u128; 8] = [
    0x0000, 0x8001, 0x03ff, 0x3bff, 0x4200, 0xfbff, 0x7c00, 0x7d00,
];

/// All bit patterns of binary16 with each of the partners, on either side.
fn check_half(rt: &impl Abort, mode: Round) {
    for pattern in 0..1u64 << 16 {
        let bits = u128::from(pattern);
        for partner in PARTNERS {
            check_pair::<HalfS>(rt, Small::Half, &OPERATIONS, mode, (bits, partner));
            check_pair::<HalfS>(rt, Small::Half, &OPERATIONS, mode, (partner, bits));
        }
    }
}

#[test]
fn half(rt: HostRuntime) {
    check_half(&rt, EVEN);
    check_half(&rt, DOWN);
}

#[test]
fn eight_bits(rt: HostRuntime) {
    for mode in MODES {
        check_all::<Float8E5M2S>(&rt, Small::Float8E5M2, mode);
        check_all::<Float8E4M3FNS>(&rt, Small::Float8E4M3FN, mode);
        check_all::<Float8E4M3FNUZS>(&rt, Small::Float8E4M3FNUZ, mode);
    }
}
