//! Quotients.

ghost use Rattle.std.specs.Prelude.{ℕ, ◌<◌, ◌+◌, ◌*◌, ◌^◌};
ghost use Rattle.apfloat_model.specs.{arithmetic.Exact.product_sign, rounding.Rounding.IsDelivered};
ghost use Rattle.apfloat_rounding.specs.{Shapes.format_at, Stored.IsStored, Stored.GivesAt};
ghost use Rattle.apfloat_arithmetic.specs.other_formats.Extended.{Extended, number};
ghost use Rattle.apfloat_arithmetic.specs.other_formats.Operands.{IsOperand, IsTerm, IsAmount, StandsFor};
ghost use Rattle.apfloat_arithmetic.specs.other_formats.FormatOf.{IsQuotientOf};

use crate::exact::{divided_by_zero, exact_zero};
use crate::other_formats::operands::{Operand, signals};
use crate::other_formats::results::{infinity_in, nan_in};
use crate::products::product_sign;
use apfloat_model::{Round, StatusAnd};
use apfloat_rounding::exponents::far_lowered;
use apfloat_rounding::nans::invalid;
use apfloat_rounding::rounding::deliver;
use apfloat_rounding::shape::Shape;
use apfloat_rounding::unpacked::Unpacked;
use apfloat_words::{Term, divide_u128};

/// How many more digits of a quotient of two significands of 125 digits are computed: it then has 126 or 127.
const PLACES: u32 = 126;

/// The quotient of two nonzero numbers.
#[inline(always)]
fn divide_nonzero(into: Shape, x: Term, y: Term, round: Round) -> StatusAnd<Unpacked>
    requires x { IsTerm x }
    requires y { IsTerm y }
    requires x_some { 0 < x.significand }
    requires y_some { 0 < y.significand }
    ensures stored { IsStored into result.value }
    ensures quotient { (m s n t : ℕ) → IsAmount m s x → IsAmount n t y
        → GivesAt into (IsDelivered (format_at into) round (product_sign x.negative y.negative)
        (m * 2 ^ (t + (format_at into).scale)) (n * 2 ^ s)) result }
{
    let quotient = divide_u128(x.significand, y.significand, PLACES);
    deliver(
        into,
        quotient.whole,
        far_lowered(x.exponent - y.exponent, PLACES),
        quotient.loss,
        round,
        product_sign(x.negative, y.negative),
    )
}

/// The quotient of two numbers.
#[inline(always)]
fn divide_numbers(into: Shape, x: Term, y: Term, round: Round) -> StatusAnd<Unpacked>
    requires x { IsTerm x }
    requires y { IsTerm y }
    ensures stored { IsStored into result.value }
    ensures quotient { (m s n t : ℕ) → IsAmount m s x → IsAmount n t y
        → GivesAt into (IsQuotientOf (format_at into) round (number x.negative m s)
        (number y.negative n t)) result }
{
    let negative = product_sign(x.negative, y.negative);
    if y.significand == 0 {
        if x.significand == 0 {
            return invalid(into);
        }
        return divided_by_zero(into, negative);
    }
    if x.significand == 0 {
        return exact_zero(into, negative);
    }
    divide_nonzero(into, x, y, round)
}

/// The quotient of two operands, rounded once.
pub fn divide(into: Shape, x: Operand, y: Operand, round: Round) -> StatusAnd<Unpacked>
    requires x { IsOperand into x }
    requires y { IsOperand into y }
    ensures stored { IsStored into result.value }
    ensures quotient { (left right : Extended) → StandsFor into left x → StandsFor into right y
        → GivesAt into (IsQuotientOf (format_at into) round left right) result }
{
    match x {
        Operand::Number(left) => match y {
            Operand::Number(right) => divide_numbers(into, left, right, round),
            Operand::Infinity(negative) => {
                exact_zero(into, product_sign(left.negative, negative))
            }
            Operand::Nan(nan) => nan_in(into, nan.value, nan.signaling),
        },
        Operand::Infinity(negative) => match y {
            Operand::Number(right) => infinity_in(into, product_sign(negative, right.negative)),
            Operand::Infinity(_) => invalid(into),
            Operand::Nan(nan) => nan_in(into, nan.value, nan.signaling),
        },
        Operand::Nan(nan) => nan_in(into, nan.value, nan.signaling || signals(into, y)),
    }
}
