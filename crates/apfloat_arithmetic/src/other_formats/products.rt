//! Products.

ghost use Rattle.std.specs.Prelude.{ℕ};
ghost use Rattle.apfloat_model.specs.{declared.kinds.Round.Round, rounding.Outcome.Yields};
ghost use Rattle.apfloat_rounding.specs.{Shapes.format_at, Stored.IsStored, Stored.GivesAt};
ghost use Rattle.apfloat_arithmetic.specs.other_formats.Extended.{Extended, number};
ghost use Rattle.apfloat_arithmetic.specs.other_formats.Operands.{IsOperand, IsTerm, IsAmount, StandsFor};
ghost use Rattle.apfloat_arithmetic.specs.other_formats.FormatOf.{IsProductOf, number_by_infinity};

use crate::other_formats::operands::{Operand, signals};
use crate::other_formats::results::{deliver_total_in, infinity_in, nan_in};
use crate::other_formats::totals::product_of;
use crate::products::product_sign;
use apfloat_model::{Round, StatusAnd};
use apfloat_rounding::nans::invalid;
use apfloat_rounding::shape::Shape;
use apfloat_rounding::unpacked::Unpacked;
use apfloat_words::Term;

/// The product of two numbers.
#[inline(always)]
fn multiply_numbers(into: Shape, x: Term, y: Term, round: Round) -> StatusAnd<Unpacked>
    requires x { IsTerm x }
    requires y { IsTerm y }
    ensures stored { IsStored into result.value }
    ensures product { (m s n t : ℕ) → IsAmount m s x → IsAmount n t y
        → GivesAt into (IsProductOf (format_at into) round (number x.negative m s)
        (number y.negative n t)) result }
{
    let total = product_of(x, y);
    deliver_total_in(into, total, total.negative, total.negative, round)
}

/// The product, with that sign, of a number and an infinity: invalid if the number is zero.
#[inline(always)]
fn multiply_by_infinity(into: Shape, x: Term, negative: bool) -> StatusAnd<Unpacked>
    ensures stored { IsStored into result.value }
    ensures product { (mode : Round) (m s : ℕ) → IsAmount m s x
        → GivesAt into (Yields (format_at into) mode
        (number_by_infinity (format_at into) negative m)) result }
{
    if x.significand == 0 {
        invalid(into)
    } else {
        infinity_in(into, negative)
    }
}

/// The product of two operands, rounded once.
pub fn multiply(into: Shape, x: Operand, y: Operand, round: Round) -> StatusAnd<Unpacked>
    requires x { IsOperand into x }
    requires y { IsOperand into y }
    ensures stored { IsStored into result.value }
    ensures product { (left right : Extended) → StandsFor into left x → StandsFor into right y
        → GivesAt into (IsProductOf (format_at into) round left right) result }
{
    match x {
        Operand::Number(left) => match y {
            Operand::Number(right) => multiply_numbers(into, left, right, round),
            Operand::Infinity(negative) => multiply_by_infinity(
                into,
                left,
                product_sign(left.negative, negative),
            ),
            Operand::Nan(nan) => nan_in(into, nan.value, nan.signaling),
        },
        Operand::Infinity(negative) => match y {
            Operand::Number(right) => multiply_by_infinity(
                into,
                right,
                product_sign(negative, right.negative),
            ),
            Operand::Infinity(other) => infinity_in(into, product_sign(negative, other)),
            Operand::Nan(nan) => nan_in(into, nan.value, nan.signaling),
        },
        Operand::Nan(nan) => nan_in(into, nan.value, nan.signaling || signals(into, y)),
    }
}
