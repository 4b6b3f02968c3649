//! The flags of IEEE 754-2019 at both ends of the range: every bit pattern of binary16 with numbers around the smallest
//! normalized one and the largest one, by both rules of tininess. Value and status are compared with the plain program
//! for one rounding.

ghost use Rattle.std.specs.Prelude.{◌^◌, ◌<◌, ◌≤◌};
ghost use Rattle.rustc_apfloat.specs.Products.{product_limit};

use crate::sweeps::operations::check_pair;
use crate::sweeps::small::{Operation, Small};
use crate::sweeps::tables::MODES;
use rustc_apfloat::ieee::{Flagged, HalfS, IeeeFlags, TinyBefore};
use std::process::Abort;

static OPERATIONS: [Operation; 3] = [Operation::Sum, Operation::Product, Operation::Quotient];

/// Each bit pattern with each of 32 consecutive patterns. The modes take turns.
fn check_all<S: Flagged>(rt: &impl Abort, format: Small, neighbours: u64)
    requires written { S.PRECISION < S.BITS }
    requires multiplied { S.PRECISION ≤ product_limit }
    requires neighbours { neighbours < 2 ^ 16 }
{
    for pattern in 0..1u64 << 16 {
        for place in 0..32u64 {
            let mode = MODES[((pattern + place) % 5) as usize];
            let pair = (u128::from(pattern), u128::from(neighbours + place));
            check_pair::<S>(rt, format, &OPERATIONS, mode, pair);
        }
    }
}

/// The first of 32 numbers around the smallest normalized one.
const AROUND_NORMALIZED: u64 = 0x03f0;

/// The first of the 32 greatest numbers.
const GREATEST: u64 = 0x7be0;

#[test]
fn smallest_normalized_after_rounding(rt: HostRuntime) {
    check_all::<IeeeFlags<HalfS>>(&rt, Small::HalfIeee, AROUND_NORMALIZED);
}

#[test]
fn largest_after_rounding(rt: HostRuntime) {
    check_all::<IeeeFlags<HalfS>>(&rt, Small::HalfIeee, GREATEST);
}

#[test]
fn smallest_normalized_before_rounding(rt: HostRuntime) {
    check_all::<IeeeFlags<TinyBefore<HalfS>>>(&rt, Small::HalfIeeeTinyBefore, AROUND_NORMALIZED);
}

#[test]
fn largest_before_rounding(rt: HostRuntime) {
    check_all::<IeeeFlags<TinyBefore<HalfS>>>(&rt, Small::HalfIeeeTinyBefore, GREATEST);
}
