//! Fused sums: the product of two operands plus a third, rounded once.

ghost use Rattle.std.specs.Prelude.{ℕ};
ghost use Rattle.apfloat_model.specs.{declared.kinds.Round.Round, rounding.Outcome.Yields};
ghost use Rattle.apfloat_rounding.specs.{Shapes.format_at, Stored.IsStored, Stored.GivesAt};
ghost use Rattle.apfloat_arithmetic.specs.other_formats.Extended.{Extended, number};
ghost use Rattle.apfloat_arithmetic.specs.other_formats.Operands.{IsOperand, IsTerm, IsAmount, StandsFor};
ghost use Rattle.apfloat_arithmetic.specs.other_formats.FormatOf.{IsFusedSumOf, sum_with_infinity};

use crate::other_formats::operands::{Operand, signals};
use crate::other_formats::results::{deliver_total_in, infinity_in, nan_in};
use crate::other_formats::sums::add_to_infinity;
use crate::other_formats::totals::fused_sum_of;
use crate::products::product_sign;
use apfloat_model::{Round, StatusAnd};
use apfloat_rounding::nans::invalid;
use apfloat_rounding::shape::Shape;
use apfloat_rounding::unpacked::Unpacked;
use apfloat_words::Term;

/// The product of two numbers plus an operand.
#[inline(always)]
fn multiply_add_numbers(
    into: Shape,
    x: Term,
    y: Term,
    z: Operand,
    round: Round,
) -> StatusAnd<Unpacked>
    requires x { IsTerm x }
    requires y { IsTerm y }
    requires z { IsOperand into z }
    ensures stored { IsStored into result.value }
    ensures sum { (l s m t : ℕ) (addend : Extended) → IsAmount l s x → IsAmount m t y
        → StandsFor into addend z
        → GivesAt into (IsFusedSumOf (format_at into) round (number x.negative l s)
        (number y.negative m t) addend) result }
{
    match z {
        Operand::Number(addend) => deliver_total_in(
            into,
            fused_sum_of(x, y, addend),
            product_sign(x.negative, y.negative),
            addend.negative,
            round,
        ),
        Operand::Infinity(negative) => infinity_in(into, negative),
        Operand::Nan(nan) => nan_in(into, nan.value, nan.signaling),
    }
}

/// The product, with that sign, of a number and an infinity, plus an operand.
#[inline(always)]
fn multiply_add_infinity(into: Shape, x: Term, negative: bool, z: Operand) -> StatusAnd<Unpacked>
    requires { IsOperand into z }
    ensures stored { IsStored into result.value }
    ensures sum { (m s : ℕ) (mode : Round) (addend : Extended) → IsAmount m s x
        → StandsFor into addend z
        → GivesAt into (Yields (format_at into) mode
        (sum_with_infinity (format_at into) negative m addend)) result }
{
    if x.significand == 0 {
        invalid(into)
    } else {
        add_to_infinity(into, negative, z)
    }
}

/// The product of two operands plus a third, rounded once.
pub fn multiply_add(
    into: Shape,
    x: Operand,
    y: Operand,
    z: Operand,
    round: Round,
) -> StatusAnd<Unpacked>
    requires x { IsOperand into x }
    requires y { IsOperand into y }
    requires z { IsOperand into z }
    ensures stored { IsStored into result.value }
    ensures sum { (left right addend : Extended) → StandsFor into left x → StandsFor into right y
        → StandsFor into addend z
        → GivesAt into (IsFusedSumOf (format_at into) round left right addend) result }
{
    match x {
        Operand::Number(left) => match y {
            Operand::Number(right) => multiply_add_numbers(into, left, right, z, round),
            Operand::Infinity(negative) => multiply_add_infinity(
                into,
                left,
                product_sign(left.negative, negative),
                z,
            ),
            Operand::Nan(nan) => nan_in(into, nan.value, nan.signaling || signals(into, z)),
        },
        Operand::Infinity(negative) => match y {
            Operand::Number(right) => multiply_add_infinity(
                into,
                right,
                product_sign(negative, right.negative),
                z,
            ),
            Operand::Infinity(other) => { add_to_infinity(into, product_sign(negative, other), z) }
            Operand::Nan(nan) => nan_in(into, nan.value, nan.signaling || signals(into, z)),
        },
        Operand::Nan(nan) => {
            let signaling = (nan.signaling || signals(into, y)) || signals(into, z);
            nan_in(into, nan.value, signaling)
        }
    }
}
