//! User-defined formats at the limits of the law: the calls require nothing of a format but its law.

ghost use Rattle.std.specs.Prelude.{◌<◌};

use crate::asserts::same;
use crate::sweeps::calls::of_integer;
use crate::sweeps::tables::{EVEN, INEXACT, OK, OVERFLOW_INEXACT, ZERO};
use commands::custom_formats::{
    BroadS, DeepS, LeastFinite, LeastFiniteS, LeastS, PreciseS, Ten, TenS, VastS, WrittenBitS,
};
use rustc_apfloat::ieee::{IeeeFloat, Semantics};
use rustc_apfloat::{Category, Flags, Float, Round};
use std::cmp::Ordering;
use std::process::Abort;

/// The value that an integer is converted to: an integer, or the value past the largest one.
#[derive(Clone, Copy)]
enum Landed {
    Number(u128),
    Past,
}

/// An integer, a mode, the result and the bits of its status.
type Row = (u128, Round, Landed, u8);

/// The largest value is 14.
static FEW_DIGITS: [Row; 4] = [
    (14, EVEN, Landed::Number(14), OK),
    (15, EVEN, Landed::Past, OVERFLOW_INEXACT),
    (15, ZERO, Landed::Number(14), INEXACT),
    (9, EVEN, Landed::Number(8), INEXACT),
];

/// The largest value is 12.
static LEAST_FINITE: [Row; 4] = [
    (12, EVEN, Landed::Number(12), OK),
    (13, EVEN, Landed::Number(12), INEXACT),
    (14, EVEN, Landed::Past, OVERFLOW_INEXACT),
    (14, ZERO, Landed::Number(12), INEXACT),
];

/// The largest value is 2^126 - 2.
static PRECISE: [Row; 4] = [
    ((1 << 125) + 1, EVEN, Landed::Number(1 << 125), INEXACT),
    ((1 << 126) - 2, EVEN, Landed::Number((1 << 126) - 2), OK),
    ((1 << 126) - 1, EVEN, Landed::Past, OVERFLOW_INEXACT),
    (
        (1 << 126) - 1,
        ZERO,
        Landed::Number((1 << 126) - 2),
        INEXACT,
    ),
];

static VAST: [Row; 3] = [
    ((1 << 125) + 1, EVEN, Landed::Number(1 << 125), INEXACT),
    ((1 << 125) - 1, EVEN, Landed::Number((1 << 125) - 1), OK),
    (u128::MAX, ZERO, Landed::Number(u128::MAX - 7), INEXACT),
];

static BROAD: [Row; 2] = [
    ((1 << 107) + 1, EVEN, Landed::Number(1 << 107), INEXACT),
    ((1 << 107) - 1, EVEN, Landed::Number((1 << 107) - 1), OK),
];

static WRITTEN_BIT: [Row; 3] = [
    (257, EVEN, Landed::Number(256), INEXACT),
    (65280, EVEN, Landed::Number(65280), OK),
    (65408, EVEN, Landed::Past, OVERFLOW_INEXACT),
];

/// The largest value is 30 * 2^12.
static TEN: [Row; 4] = [
    (122880, EVEN, Landed::Number(122880), OK),
    (124928, EVEN, Landed::Number(122880), INEXACT),
    (126976, EVEN, Landed::Past, OVERFLOW_INEXACT),
    (126976, ZERO, Landed::Number(122880), INEXACT),
];

/// The value that a row says.
fn value_of<S: Semantics>(answer: Landed) -> IeeeFloat<S> {
    match answer {
        Landed::Number(value) => of_integer(value).value,
        Landed::Past => IeeeFloat::infinity(),
    }
}

fn check_rows<S: Semantics>(rt: &impl Abort, rows: &[Row]) {
    for (number, mode, answer, status) in rows {
        let got = IeeeFloat::<S>::from_u128_r(*number, *mode);
        let value = value_of(*answer);
        let got = (got.value.bitwise_eq(value), got.status.bits());
        same(rt, got, (true, *status), (*number, *mode));
    }
}

/// Whether the ends of a type are in order, from zero up.
fn are_in_order<F: Float>(smallest: F, normalized: F, largest: F) -> [bool; 3] {
    [
        F::zero() < smallest,
        smallest < normalized,
        normalized < largest,
    ]
}

/// Whether the minimum and the maximum of two values, the first of which is less, are these values.
fn are_extrema<F: Float>(less: F, greater: F) -> [bool; 2] {
    [
        less.min(greater).bitwise_eq(less),
        less.maximum(greater).bitwise_eq(greater),
    ]
}

/// The order of the ends of a type, its minima and maxima, and the classes of its least values.
fn ends<F: Float>() -> ([bool; 3], [bool; 2], [bool; 2]) {
    let (smallest, normalized, largest) = (F::smallest(), F::smallest_normalized(), F::largest());
    let ordered = are_in_order(smallest, normalized, largest);
    let classes = [smallest.is_denormal(), normalized.is_normal()];
    (ordered, are_extrema(smallest, largest), classes)
}

/// The order of the ends of a format, and its minima and maxima. That `IeeeFloat` is a `Float` is proved here alone.
fn check_ends<S: Semantics>(rt: &impl Abort) {
    let got = ends::<IeeeFloat<S>>();
    same(rt, got, ([true; 3], [true; 2], [true; 2]), "ends");
}

/// The bits of 1, of the largest value and of the value past it.
fn check_bits<S: Semantics>(rt: &impl Abort, one: u128, largest: u128, past: u128)
    requires { S.PRECISION < S.BITS }
{
    let greatest = IeeeFloat::<S>::largest();
    let bits = [
        of_integer::<S>(1).value.to_bits(),
        greatest.to_bits(),
        IeeeFloat::<S>::infinity().to_bits(),
    ];
    let is_read_back = IeeeFloat::<S>::from_bits(largest).bitwise_eq(greatest);
    let got = (bits, is_read_back);
    same(rt, got, ([one, largest, past], true), "1, largest, past");
}

#[test]
fn limits_without_bits(rt: HostRuntime) {
    check_rows::<LeastS>(&rt, &FEW_DIGITS);
    check_rows::<DeepS>(&rt, &FEW_DIGITS);
    check_rows::<LeastFiniteS>(&rt, &LEAST_FINITE);
    check_rows::<PreciseS>(&rt, &PRECISE);
    check_rows::<VastS>(&rt, &VAST);
    check_ends::<DeepS>(&rt);
    check_ends::<PreciseS>(&rt);
    check_ends::<VastS>(&rt);
    same(
        &rt,
        LeastFinite::infinity().category(),
        Category::NaN,
        "infinity",
    );
}

#[test]
fn limits_with_bits(rt: HostRuntime) {
    check_rows::<BroadS>(&rt, &BROAD);
    check_rows::<WrittenBitS>(&rt, &WRITTEN_BIT);
    check_rows::<TenS>(&rt, &TEN);
    check_ends::<BroadS>(&rt);
    check_ends::<WrittenBitS>(&rt);
    check_ends::<TenS>(&rt);
    let order = Ten::smallest().cmp_abs_normal(Ten::smallest_normalized());
    same(&rt, order, Ordering::Less, "cmp_abs_normal");
    check_bits::<BroadS>(&rt, 0xfffff << 106, (0x1fffff << 106) - 1, 0x1fffff << 106);
    check_bits::<WrittenBitS>(&rt, 0x0f80, 0x1eff, 0x1f80);
    check_bits::<TenS>(&rt, 0x0f0, 0x1fe, 0x1ff);
}
