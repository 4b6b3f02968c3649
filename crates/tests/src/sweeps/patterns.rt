//! Every bit pattern of the small formats: read and written, with its sign changed, and its fraction, its integral
//! values and its neighbours.

ghost use Rattle.std.specs.Prelude.{◌<◌};

use crate::asserts::{Bits, same};
use crate::sweeps::small::Small;
use crate::sweeps::{fractions, integral, neighbours};
use rustc_apfloat::Float;
use rustc_apfloat::ieee::{BFloatS, Float8E4M3FNS, Float8E4M3FNUZS, Float8E5M2S, HalfS, Semantics};
use std::process::Abort;

/// A bit pattern read as a value and written back is unchanged, and so is a value written as bits and read back.
fn check_bits<S: Semantics>(rt: &impl Abort, patterns: u64)
    requires { S.PRECISION < S.BITS }
{
    for pattern in 0..patterns {
        let bits = u128::from(pattern);
        let x = S::from_bits(bits);
        let written = S::to_bits(x);
        let is_read_back = S::from_bits(written).bitwise_eq(x);
        same(rt, (written, is_read_back), (bits, true), Bits(bits));
    }
}

/// A negated value has the bits `turned`; negated twice, it has its original bits.
fn check_sign<S: Semantics>(rt: &impl Abort, bits: u128, turned: u128)
    requires { S.PRECISION < S.BITS }
{
    let negated = -S::from_bits(bits);
    let got = (S::to_bits(negated), S::to_bits(-negated));
    same(rt, got, (turned, bits), Bits(bits));
}

/// Every bit pattern of a format, with its sign changed.
fn check_signs<S: Semantics>(rt: &impl Abort, patterns: u64)
    requires { S.PRECISION < S.BITS }
{
    let minus = u128::from(patterns / 2);
    for pattern in 0..patterns {
        let bits = u128::from(pattern);
        check_sign::<S>(rt, bits, bits ^ minus);
    }
}

#[test]
fn bits_come_back(rt: HostRuntime) {
    check_bits::<HalfS>(&rt, 1 << 16);
    check_bits::<BFloatS>(&rt, 1 << 16);
    check_bits::<Float8E5M2S>(&rt, 1 << 8);
    check_bits::<Float8E4M3FNS>(&rt, 1 << 8);
    check_bits::<Float8E4M3FNUZS>(&rt, 1 << 8);
}

#[test]
fn signs_turn(rt: HostRuntime) {
    check_signs::<HalfS>(&rt, 1 << 16);
    check_signs::<BFloatS>(&rt, 1 << 16);
    check_signs::<Float8E5M2S>(&rt, 1 << 8);
    check_signs::<Float8E4M3FNS>(&rt, 1 << 8);
}

/// The zero and the NaN have only one sign.
#[test]
fn signs_turn_where_zero_has_none(rt: HostRuntime) {
    for pattern in 0..256u64 {
        let bits = u128::from(pattern);
        let turned = if bits % 0x80 == 0 { bits } else { bits ^ 0x80 };
        check_sign::<Float8E4M3FNUZS>(&rt, bits, turned);
    }
}

/// Every bit pattern of a format: its fraction, its integral values and its neighbours.
fn check_values<S: Semantics>(rt: &impl Abort, format: Small)
    requires { S.PRECISION < S.BITS }
{
    fractions::check_all::<S>(rt, format);
    integral::check_all::<S>(rt, format);
    neighbours::check_all::<S>(rt, format);
}

#[test]
fn values_of_half(rt: HostRuntime) {
    check_values::<HalfS>(&rt, Small::Half);
}

#[test]
fn values_of_eight_bits(rt: HostRuntime) {
    check_values::<Float8E5M2S>(&rt, Small::Float8E5M2);
    check_values::<Float8E4M3FNS>(&rt, Small::Float8E4M3FN);
    check_values::<Float8E4M3FNUZS>(&rt, Small::Float8E4M3FNUZ);
}
