//! Small formats in integer arithmetic: reading and writing their bits, and the expected result of each operation on
//! two bit patterns, by the rules for zeros, infinities and NaNs and by the plain program for one rounding.

ghost use Rattle.std.specs.Prelude.{◌≡◌, ◌*◌, ◌^◌, ◌<◌, ◌≤◌};

use crate::plain::{Bounds, RoundedValue, deliver, whole};
use crate::sweeps::tables::{DIV_BY_ZERO, INEXACT, INVALID_OP, OK};
use rustc_apfloat::ieee::{Flagged, IeeeFloat, NonfiniteBehavior};
use rustc_apfloat::{Flags, Float, Round, StatusAnd};

/// The small formats that tests sweep.
#[derive(Clone, Copy)]
pub enum Small {
    Half,
    /// With the flags of IEEE 754-2019 (7.4, 7.5).
    HalfIeee,
    /// With these flags, and tininess detected before rounding.
    HalfIeeeTinyBefore,
    Float8E5M2,
    Float8E4M3FN,
    Float8E4M3FNUZ,
}

/// The layout of a format's bits. The patterns of positive numbers increase with the numbers, from zero to the largest.
#[derive(Clone, Copy)]
pub struct Layout {
    pub bounds: Bounds,
    /// 1, in quanta.
    pub one: u128,
    /// The bits of a minus sign.
    pub minus: u128,
    /// The bits of the infinity, or of the NaN in a format that has none.
    pub past: u128,
    /// The bit that makes a NaN quiet, or 0 if no NaN is signaling.
    pub quiet: u128,
}

/// Binary16: the largest value is 65504, and a quantum is 2^-24.
pub const HALF_BOUNDS: Bounds = Bounds {
    precision: 11,
    largest: 65504 << 24,
    smallest_normalized: 1 << 10,
    tiny_before_rounding: false,
    ieee_flags: false,
    nonfinite: NonfiniteBehavior::IEEE754,
};

pub const HALF: Layout = Layout {
    bounds: HALF_BOUNDS,
    one: 1 << 24,
    minus: 0x8000,
    past: 0x7c00,
    quiet: 0x0200,
};

/// The layout of a format, with the flags of the built-in formats.
pub fn layout_of(format: Small) -> Layout
    ensures some_digits { 3 ≤ result.bounds.precision }
    ensures few_digits { result.bounds.precision ≤ 11 }
    ensures some_normalized { 0 < result.bounds.smallest_normalized }
    ensures few_normalized { result.bounds.smallest_normalized < 2 ^ 60 }
    ensures largest { result.bounds.largest < 2 ^ 40 }
    ensures some_one { 0 < result.one }
    ensures few_one { result.one < 2 ^ 25 }
    ensures some_minus { 0 < result.minus }
    ensures few_exponents { result.minus ≤ 32 * result.bounds.smallest_normalized }
{
    match format {
        Small::Half | Small::HalfIeee | Small::HalfIeeeTinyBefore => HALF,
        Small::Float8E5M2 => Layout {
            bounds: Bounds {
                precision: 3,
                largest: 57344 << 16,
                smallest_normalized: 1 << 2,
                tiny_before_rounding: false,
                ieee_flags: false,
                nonfinite: NonfiniteBehavior::IEEE754,
            },
            one: 1 << 16,
            minus: 0x80,
            past: 0x7c,
            quiet: 0x02,
        },
        Small::Float8E4M3FN => Layout {
            bounds: Bounds {
                precision: 4,
                largest: 448 << 9,
                smallest_normalized: 1 << 3,
                tiny_before_rounding: false,
                ieee_flags: false,
                nonfinite: NonfiniteBehavior::NanOnly,
            },
            one: 1 << 9,
            minus: 0x80,
            past: 0x7f,
            quiet: 0,
        },
        Small::Float8E4M3FNUZ => Layout {
            bounds: Bounds {
                precision: 4,
                largest: 240 << 10,
                smallest_normalized: 1 << 3,
                tiny_before_rounding: false,
                ieee_flags: false,
                nonfinite: NonfiniteBehavior::NanNegativeZero,
            },
            one: 1 << 10,
            minus: 0x80,
            past: 0x80,
            quiet: 0,
        },
    }
}

/// How many bit patterns a format has.
pub fn patterns_of(format: Small) -> u64 {
    match format {
        Small::Half | Small::HalfIeee | Small::HalfIeeeTinyBefore => 1 << 16,
        Small::Float8E5M2 | Small::Float8E4M3FN | Small::Float8E4M3FNUZ => 1 << 8,
    }
}

/// The class of a value.
#[derive(Clone, Copy)]
pub enum Class {
    Number,
    Infinity,
    NotANumber,
}

/// What a bit pattern means; `quanta` is 0 unless it is a number.
#[derive(Clone, Copy)]
pub struct Operand {
    pub class: Class,
    pub negative: bool,
    pub quanta: u128,
}

/// The quanta that the pattern without its sign encodes, as if all patterns were numbers.
fn quanta_of(integer_bit: u128, magnitude: u128) -> u128
    requires some { 0 < integer_bit }
    requires few_exponents { magnitude < 32 * integer_bit }
{
    let exponent = magnitude / integer_bit;
    let fraction = magnitude % integer_bit;
    if exponent == 0 {
        fraction
    } else {
        (integer_bit | fraction) << (exponent - 1)
    }
}

/// What a bit pattern means.
pub fn decoded(format: Small, bits: u128) -> Operand
    ensures { result.quanta < 2 ^ 40 }
{
    let layout = layout_of(format);
    let negative = bits / layout.minus % 2 == 1;
    let magnitude = bits % layout.minus;
    let quanta = quanta_of(layout.bounds.smallest_normalized, magnitude);
    if bits == layout.past || quanta > layout.bounds.largest {
        let class = match layout.bounds.nonfinite {
            NonfiniteBehavior::IEEE754 if magnitude == layout.past => Class::Infinity,
            _ => Class::NotANumber,
        };
        return Operand {
            class,
            negative,
            quanta: 0,
        };
    }
    Operand {
        class: Class::Number,
        negative,
        quanta,
    }
}

/// The bits of a count of quanta: it is halved until the integer bit is its highest digit, and each halving adds one to
/// the exponent field, which begins at the integer bit.
pub fn magnitude_bits(integer_bit: u128, quanta: u128) -> u128
    requires { 0 < integer_bit }
{
    let mut significand = quanta;
    let mut exponent = 0;
    while significand / 2 >= integer_bit {
        significand /= 2;
        exponent += integer_bit;
    }
    exponent + significand
}

/// The bits of a sign; in some formats a zero and a NaN have none.
pub fn sign_bit(layout: Layout, negative: bool) -> u128 {
    if negative { layout.minus } else { 0 }
}

/// The bits of the value past the largest one.
pub fn past_bits(layout: Layout, negative: bool) -> u128 {
    sign_bit(layout, negative) | layout.past
}

/// The bits of a result of the plain program.
pub fn bits_of(layout: Layout, answer: RoundedValue) -> u128
    requires { 0 < layout.bounds.smallest_normalized }
{
    match answer {
        RoundedValue::Finite { negative, quanta } => {
            sign_bit(layout, negative) | magnitude_bits(layout.bounds.smallest_normalized, quanta)
        }
        RoundedValue::Infinite { negative } => past_bits(layout, negative),
        RoundedValue::NotANumber { negative } => past_bits(layout, negative),
    }
}

/// The bits and the status that are expected of an operation.
#[derive(Clone, Copy, Debug, PartialEq, Eq)]
pub struct Expected {
    pub bits: u128,
    pub status: u8,
}

/// The bits and the status of a result of the library.
pub fn answered<S: Flagged>(answer: StatusAnd<IeeeFloat<S>>) -> Expected
    requires { S.PRECISION < S.BITS }
{
    Expected {
        bits: answer.value.to_bits(),
        status: answer.status.bits(),
    }
}

/// These bits, with no flag.
pub fn exactly(bits: u128) -> Expected {
    Expected { bits, status: OK }
}

/// The result of an invalid operation on operands that are not NaNs: the positive quiet NaN without a payload.
fn invalid(layout: Layout) -> Expected {
    Expected {
        bits: layout.past | layout.quiet,
        status: INVALID_OP,
    }
}

/// The magnitude `amount / parts`, in quanta, rounded once.
fn rounded(format: Small, mode: Round, negative: bool, amount: u128, parts: u128) -> Expected
    requires amount { amount < 2 ^ 126 }
    requires some_parts { 0 < parts }
    requires few_parts { parts < 2 ^ 64 }
{
    let layout = layout_of(format);
    let bounds = Bounds {
        tiny_before_rounding: matches!(format, Small::HalfIeeeTinyBefore),
        ieee_flags: matches!(format, Small::HalfIeee | Small::HalfIeeeTinyBefore),
        ..layout.bounds
    };
    let answer = deliver(bounds, mode, negative, amount, parts);
    Expected {
        bits: bits_of(layout, answer.value),
        status: answer.status.bits(),
    }
}

/// Whether the bit pattern encodes a NaN.
pub fn is_nan(format: Small, bits: u128) -> bool {
    match decoded(format, bits).class {
        Class::NotANumber => true,
        Class::Number => false,
        Class::Infinity => false,
    }
}

/// Whether the bit pattern encodes a signaling NaN.
pub fn signals(format: Small, bits: u128) -> bool {
    is_nan(format, bits) && bits | layout_of(format).quiet != bits
}

/// The bits after an operation that keeps the value: a NaN is quieted.
pub fn quieted(format: Small, bits: u128) -> u128 {
    if is_nan(format, bits) {
        bits | layout_of(format).quiet
    } else {
        bits
    }
}

/// The result of an operation that keeps the value.
pub fn kept(format: Small, bits: u128) -> Expected {
    Expected {
        bits: quieted(format, bits),
        status: if signals(format, bits) {
            INVALID_OP
        } else {
            OK
        },
    }
}

/// The result of an operation on bit patterns of which at least one encodes a NaN: the first NaN, quieted.
fn of_nans(format: Small, x: u128, y: u128) -> Expected {
    let nan = if is_nan(format, x) { x } else { y };
    Expected {
        bits: nan | layout_of(format).quiet,
        status: if signals(format, x) || signals(format, y) {
            INVALID_OP
        } else {
            OK
        },
    }
}

/// The exact sum of two counts of quanta, rounded once. An exact zero of opposite signs is negative only when rounding
/// downward.
fn rounded_sum(format: Small, mode: Round, x: Operand, y: Operand) -> Expected
    requires left { x.quanta < 2 ^ 40 }
    requires right { y.quanta < 2 ^ 40 }
{
    if x.negative == y.negative {
        return rounded(format, mode, x.negative, x.quanta + y.quanta, 1);
    }
    if x.quanta > y.quanta {
        return rounded(format, mode, x.negative, x.quanta - y.quanta, 1);
    }
    if x.quanta < y.quanta {
        return rounded(format, mode, y.negative, y.quanta - x.quanta, 1);
    }
    rounded(format, mode, mode == Round::TowardNegative, 0, 1)
}

/// An operation on two values.
#[derive(Clone, Copy, Debug)]
pub enum Operation {
    Sum,
    Difference,
    Product,
    Quotient,
}

/// The expected result of an operation on two bit patterns.
pub fn result_of(format: Small, operation: Operation, mode: Round, x: u128, y: u128) -> Expected {
    if is_nan(format, x) || is_nan(format, y) {
        return of_nans(format, x, y);
    }
    let left = decoded(format, x);
    let right = decoded(format, y);
    match operation {
        Operation::Sum => sum(format, mode, left, right),
        Operation::Difference => sum(format, mode, left, turned(right)),
        Operation::Product => product(format, mode, left, right),
        Operation::Quotient => quotient(format, mode, left, right),
    }
}

/// The operand with its sign changed.
fn turned(x: Operand) -> Operand
    ensures { result.quanta ≡ x.quanta }
{
    Operand {
        negative: !x.negative,
        ..x
    }
}

/// The sum of numbers and infinities.
fn sum(format: Small, mode: Round, x: Operand, y: Operand) -> Expected
    requires left { x.quanta < 2 ^ 40 }
    requires right { y.quanta < 2 ^ 40 }
{
    let layout = layout_of(format);
    match (x.class, y.class) {
        (Class::Number, Class::Number) => rounded_sum(format, mode, x, y),
        (Class::Number, _) => exactly(past_bits(layout, y.negative)),
        (_, Class::Number) => exactly(past_bits(layout, x.negative)),
        (_, _) if x.negative == y.negative => exactly(past_bits(layout, x.negative)),
        (_, _) => invalid(layout),
    }
}

/// The product of numbers and infinities.
fn product(format: Small, mode: Round, x: Operand, y: Operand) -> Expected
    requires left { x.quanta < 2 ^ 40 }
    requires right { y.quanta < 2 ^ 40 }
{
    let layout = layout_of(format);
    let negative = x.negative != y.negative;
    match (x.class, y.class) {
        (Class::Number, Class::Number) => {
            rounded(format, mode, negative, x.quanta * y.quanta, layout.one)
        }
        (Class::Number, _) if x.quanta == 0 => invalid(layout),
        (_, Class::Number) if y.quanta == 0 => invalid(layout),
        (_, _) => exactly(past_bits(layout, negative)),
    }
}

/// The quotient of numbers and infinities.
fn quotient(format: Small, mode: Round, x: Operand, y: Operand) -> Expected
    requires left { x.quanta < 2 ^ 40 }
    requires right { y.quanta < 2 ^ 40 }
{
    let layout = layout_of(format);
    let negative = x.negative != y.negative;
    match (x.class, y.class) {
        (Class::Number, Class::Number) => {
            quotient_of_numbers(format, mode, negative, x.quanta, y.quanta)
        }
        (Class::Number, _) => exactly(sign_bit(layout, negative)),
        (_, Class::Number) => exactly(past_bits(layout, negative)),
        (_, _) => invalid(layout),
    }
}

fn quotient_of_numbers(format: Small, mode: Round, negative: bool, x: u128, y: u128) -> Expected
    requires left { x < 2 ^ 40 }
    requires right { y < 2 ^ 40 }
{
    let layout = layout_of(format);
    match (x, y) {
        (0, 0) => invalid(layout),
        (_, 0) => Expected {
            bits: past_bits(layout, negative),
            status: DIV_BY_ZERO,
        },
        (_, _) => rounded(format, mode, negative, x * layout.one, y),
    }
}

/// The expected result of rounding the bit pattern to an integral value.
pub fn integral(format: Small, mode: Round, bits: u128) -> Expected {
    let layout = layout_of(format);
    let x = decoded(format, bits);
    match x.class {
        Class::NotANumber => of_nans(format, bits, bits),
        Class::Infinity => exactly(bits),
        Class::Number => {
            let quanta = whole(mode, x.negative, x.quanta, layout.one) * layout.one;
            let status = if quanta == x.quanta { OK } else { INEXACT };
            Expected {
                bits: rounded(format, mode, x.negative, quanta, 1).bits,
                status,
            }
        }
    }
}
