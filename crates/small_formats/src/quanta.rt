//! Numbers in quanta.

ghost use Rattle.std.specs.Prelude.{◌≡◌, ◌+◌, ◌-◌, ◌*◌, ◌^◌, ◌<◌, ◌≤◌, pos, ◌+ℤ◌, ◌-ℤ◌};
ghost use Rattle.apfloat_model.specs.declared.kinds.Category.TheVariants.{Normal};
ghost use Rattle.apfloat_model.specs.order.Classes.{category_of, quanta_of};
ghost use Rattle.apfloat_model.specs.rounding.{Bounds.IsWithin, Standing.up, Standing.down};
ghost use Rattle.apfloat_ieee.specs.Types.{format_of};

use apfloat_base::ExpInt;
use apfloat_ieee::{IeeeFloat, Semantics};

/// How many digits a number gets here.
const DIGITS: u32 = 125;

/// A number without its sign: 125 binary digits, and the exponent of the last one.
#[derive(Clone, Copy)]
pub(crate) struct Magnitude {
    pub digits: u128,
    pub exponent: ExpInt,
}

/// A number without its sign: 125 binary digits, and the unit of the last one, counted from a quantum.
#[derive(Clone, Copy)]
pub struct InQuanta {
    /// The digits, 2^124 at least.
    pub digits: u128,
    /// The exponent of the last one.
    pub unit: ExpInt,
}

/// A significand with all digits of the precision, with `DIGITS` digits.
fn lengthened(precision: u32, significand: u128) -> u128
    requires some { 0 < precision }
    requires precise { precision ≤ 125 }
    requires fits { significand < 2 ^ precision }
    requires full { 2 ^ (precision - 1) ≤ significand }
    ensures value { result ≡ significand * 2 ^ (125 - precision) }
    ensures low { 2 ^ 124 ≤ result }
    ensures high { result < 2 ^ 125 }
{
    significand << (DIGITS - precision)
}

/// The exponent of the last of `DIGITS` digits, from that of the last one of the precision.
fn last_exponent(precision: u32, exponent: ExpInt) -> ExpInt
    requires precise { precision ≤ 125 }
    requires within { IsWithin (2 ^ 22) exponent }
    ensures value { result ≡ exponent -ℤ pos (125 - precision) }
    ensures within { IsWithin (2 ^ 22 + 2 ^ 7) result }
{
    exponent - (DIGITS - precision) as ExpInt
}

/// The magnitude of a number.
pub(crate) fn magnitude_of<S: Semantics>(x: IeeeFloat<S>) -> Magnitude
    requires { category_of x ≡ Normal }
    ensures low { 2 ^ 124 ≤ result.digits }
    ensures high { result.digits < 2 ^ 125 }
    ensures within { IsWithin (2 ^ 22 + 2 ^ 7) result.exponent }
    ensures number { let unit = result.exponent +ℤ pos (format_of S.Semantics).scale in
        quanta_of x * 2 ^ down unit ≡ result.digits * 2 ^ up unit }
{
    let precision = S::PRECISION as u32;
    let number = x.number();
    Magnitude {
        digits: lengthened(precision, number.significand),
        exponent: last_exponent(precision, number.exponent),
    }
}

/// The unit of a digit, counted from the quantum, from its exponent.
fn unit_of(exponent: ExpInt, scale: u32) -> ExpInt
    requires exponent { IsWithin (2 ^ 22 + 2 ^ 7) exponent }
    requires scale { scale ≤ 2 ^ 21 }
    ensures value { result ≡ exponent +ℤ pos scale }
    ensures within { IsWithin (2 ^ 23) result }
{
    exponent + scale as ExpInt
}

/// The magnitude of a number in quanta of `2^-scale`.
pub fn in_quanta<S: Semantics>(x: IeeeFloat<S>, scale: u32) -> InQuanta
    requires number { category_of x ≡ Normal }
    requires scale { scale ≤ 2 ^ 21 }
    ensures low { 2 ^ 124 ≤ result.digits }
    ensures high { result.digits < 2 ^ 125 }
    ensures within { IsWithin (2 ^ 23) result.unit }
    ensures number { quanta_of x * 2 ^ scale * 2 ^ down result.unit
        ≡ result.digits * (2 ^ (format_of S.Semantics).scale * 2 ^ up result.unit) }
{
    let number = magnitude_of(x);
    InQuanta {
        digits: number.digits,
        unit: unit_of(number.exponent, scale),
    }
}
