//! Operators, and the calls that round to nearest, ties to even.

ghost use Rattle.std.specs.Prelude.{◌<◌, ◌≤◌};
ghost use Rattle.rustc_apfloat.specs.FusedSums.{fused_limit};

use crate::asserts::{Bits, same};
use crate::sweeps::calls::{quiet_nan, scaled, to_integer};
use crate::sweeps::tables::{
    DIV_BY_ZERO, INEXACT, INVALID_OP, OK, OVERFLOW_INEXACT, UNDERFLOW_INEXACT,
};
use rustc_apfloat::ieee::{
    DoubleS, Float8E4M3FNS, Float8E4M3FNUZS, Half, HalfS, IeeeFloat, Semantics, SingleS,
    X87DoubleExtendedS,
};
use rustc_apfloat::{ExpInt, Flags, Float, FloatConvert, Status, StatusAnd, unpack};
use std::process::Abort;

#[derive(Clone, Copy, Debug)]
enum Operator {
    Plus,
    Minus,
    Times,
    Over,
    Modulo,
}

/// An operator, the bits of two operands, the bits of the result and the bits of its status.
type Row = (Operator, u128, u128, u128, u8);

static HALF: [Row; 11] = [
    (Operator::Plus, 0x7bff, 0x4c00, 0x7c00, OVERFLOW_INEXACT),
    (Operator::Plus, 0x7d00, 0x3c00, 0x7f00, INVALID_OP),
    (Operator::Minus, 0x3c00, 0x0001, 0x3c00, INEXACT),
    (Operator::Minus, 0x0001, 0x0400, 0x83ff, OK),
    (Operator::Times, 0x0001, 0x3800, 0x0000, UNDERFLOW_INEXACT),
    (Operator::Times, 0x7c00, 0x0000, 0x7e00, INVALID_OP),
    (Operator::Over, 0x3c00, 0x4200, 0x3555, INEXACT),
    (Operator::Over, 0x3c00, 0x8000, 0xfc00, DIV_BY_ZERO),
    (Operator::Over, 0x7bff, 0x0001, 0x7c00, OVERFLOW_INEXACT),
    (Operator::Modulo, 0xc400, 0x4000, 0x8000, OK),
    (Operator::Modulo, 0x7bff, 0x0001, 0x0000, OK),
];

fn answer_of(operator: Operator, x: Half, y: Half) -> StatusAnd<Half> {
    match operator {
        Operator::Plus => x + y,
        Operator::Minus => x - y,
        Operator::Times => x * y,
        Operator::Over => x / y,
        Operator::Modulo => x % y,
    }
}

/// The value that the assigning operator stores.
fn assigned(operator: Operator, x: Half, y: Half) -> Half {
    let mut value = x;
    match operator {
        Operator::Plus => value += y,
        Operator::Minus => value -= y,
        Operator::Times => value *= y,
        Operator::Over => value /= y,
        Operator::Modulo => value %= y,
    }
    value
}

#[test]
fn operators(rt: HostRuntime) {
    for (operator, left, right, value, flags) in &HALF {
        let x = HalfS::from_bits(*left);
        let y = HalfS::from_bits(*right);
        let answer = answer_of(*operator, x, y);
        let changed = assigned(*operator, x, y);
        same(
            &rt,
            (
                answer.value.to_bits(),
                answer.status.bits(),
                changed.to_bits(),
            ),
            (*value, *flags, *value),
            (*operator, Bits(*left), Bits(*right)),
        );
    }
}

/// The bits of two factors and an addend, the bits of the result and the bits of its status.
type Fused = (u128, u128, u128, u128, u8);

static SINGLE_FUSED: [Fused; 2] = [
    (0x000080aa, 0xaaff0000, 0xff9e007f, 0xffde007f, INVALID_OP),
    (0x6e000000, 0xdf008000, 0x7f800000, 0x7f800000, OK),
];

static DOUBLE_FUSED: [Fused; 2] = [
    (
        0x0540400001000513,
        0xffd8000000000000,
        0xfff0001000000000,
        0xfff8001000000000,
        INVALID_OP,
    ),
    (
        0xff0000fff05f0001,
        0xff0000fff0800000,
        0xfff0000000000000,
        0xfff0000000000000,
        OK,
    ),
];

static HALF_FUSED: [Fused; 3] = [
    (0x7c00, 0x0000, 0x7e01, 0x7e00, INVALID_OP),
    (0x0d89, 0x09c8, 0x8001, 0x0000, UNDERFLOW_INEXACT),
    (0x3c01, 0x3c01, 0xbc02, 0x0010, OK),
];

fn check_fused<S: Semantics>(rt: &impl Abort, rows: &[Fused])
    requires written { S.PRECISION < S.BITS }
    requires short { S.PRECISION ≤ fused_limit }
{
    for (x, y, z, value, flags) in rows {
        let answer = S::from_bits(*x).mul_add(S::from_bits(*y), S::from_bits(*z));
        let got = (answer.value.to_bits(), answer.status.bits());
        same(rt, got, (*value, *flags), (Bits(*x), Bits(*y), Bits(*z)));
    }
}

#[test]
fn fused_sums(rt: HostRuntime) {
    check_fused::<SingleS>(&rt, &SINGLE_FUSED);
    check_fused::<DoubleS>(&rt, &DOUBLE_FUSED);
    check_fused::<HalfS>(&rt, &HALF_FUSED);
}

/// The bits in the other format, the bits of the status, and whether information is lost.
fn converted<S: Semantics, T: Semantics>(bits: u128) -> (u128, u8, bool)
    requires source { S.PRECISION < S.BITS }
    requires target { T.PRECISION < T.BITS }
{
    let mut loses_info = false;
    let answer: StatusAnd<IeeeFloat<T>> = S::from_bits(bits).convert(&mut loses_info);
    (answer.value.to_bits(), answer.status.bits(), loses_info)
}

#[test]
fn conversions(rt: HostRuntime) {
    let got = [
        converted::<SingleS, HalfS>(0x7fa00000),
        converted::<SingleS, Float8E4M3FNS>(0x7f800000),
        converted::<Float8E4M3FNS, HalfS>(0x7f),
        converted::<X87DoubleExtendedS, DoubleS>(0x7fffa000000000000000),
    ];
    let expected = [
        (0x7f00, INVALID_OP, false),
        (0x7f, INEXACT, true),
        (0x7f80, OK, false),
        (0x7ffc000000000000, INVALID_OP, true),
    ];
    same(&rt, got, expected, "conversions");
}

#[test]
fn powers_of_two(rt: HostRuntime) {
    let least = HalfS::from_bits(0x0001);
    let mut exponent = 0;
    let got = [
        scaled(least, ExpInt::MAX).to_bits(),
        scaled(HalfS::from_bits(0x0003), -1).to_bits(),
        least.frexp(&mut exponent).to_bits(),
    ];
    same(
        &rt,
        (got, exponent),
        ([0x7c00, 0x0002, 0x3800], -23),
        "powers",
    );
}

#[test]
fn whole_numbers_out(rt: HostRuntime) {
    let largest = to_integer(SingleS::from_bits(0x7f7fffff), 128);
    let two = to_integer(SingleS::from_bits(0x40000000), 1);
    same(
        &rt,
        [
            (largest.value, largest.status.bits()),
            (two.value, two.status.bits()),
        ],
        [
            (340282346638528859811704183484516925440, OK),
            (1, INVALID_OP),
        ],
        "the largest and 2",
    );
}

#[test]
fn quiet_nans(rt: HostRuntime) {
    let got = [
        HalfS::to_bits(quiet_nan()),
        SingleS::to_bits(quiet_nan()),
        Float8E4M3FNS::to_bits(quiet_nan()),
        Float8E4M3FNUZS::to_bits(quiet_nan()),
        X87DoubleExtendedS::to_bits(quiet_nan()),
    ];
    let expected = [0x7e00, 0x7fc00000, 0x7f, 0x80, 0x7fffc000000000000000];
    same(&rt, got, expected, "NaNs");
}

/// The bits of the value of a text, or the message of the refusal.
fn parsed<S: Semantics>(text: &str) -> Result<u128, &'static str>
    requires { S.PRECISION < S.BITS }
{
    match text.parse::<IeeeFloat<S>>() {
        Ok(value) => Ok(value.to_bits()),
        Err(error) => Err(error.0),
    }
}

#[test]
fn parsed_texts(rt: HostRuntime) {
    let got = [
        parsed::<HalfS>("0x1.8p-1"),
        parsed::<HalfS>("0x1.ffep+15"),
        parsed::<SingleS>("nan(0x2a)"),
        parsed::<HalfS>("0x1"),
        parsed::<SingleS>(""),
    ];
    let expected = [
        Ok(0x3a00),
        Ok(0x7c00),
        Ok(0x7fc0002a),
        Err("Hex strings require an exponent"),
        Err("Invalid string length"),
    ];
    same(&rt, got, expected, "texts");
}

/// Two statuses without a common flag are joined, and then an empty one.
#[test]
fn joins_statuses(rt: HostRuntime) {
    let mut status;
    let first: u8 = unpack!(status =, Status::INVALID_OP.union(Status::UNDERFLOW).and(1));
    let of_first = status.bits();
    let second: u8 = unpack!(status |=, Status::OVERFLOW.union(Status::INEXACT).and(2));
    let of_two = status.bits();
    let third: u8 = unpack!(status |=, Status::OK.and(3));
    let of_three = status.bits();
    let fourth: u8 = unpack!(status =, Status::DIV_BY_ZERO.and(4));
    let of_fourth = status.bits();
    let statuses = [of_first, of_two, of_three, of_fourth];
    let got = (statuses, [first, second, third, fourth]);
    let expected = ([0x09, 0x1d, 0x1d, 0x02], [1, 2, 3, 4]);
    same(&rt, got, expected, "statuses, values");
}
