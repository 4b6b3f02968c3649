//! Sums and differences.

ghost use Rattle.std.specs.Prelude.{ℕ};
ghost use Rattle.apfloat_rounding.specs.{Shapes.format_at, Stored.IsStored, Stored.GivesAt};
ghost use Rattle.apfloat_arithmetic.specs.other_formats.Extended.{Extended, number, infinity, opposite};
ghost use Rattle.apfloat_arithmetic.specs.other_formats.Operands.{IsOperand, IsTerm, IsAmount, StandsFor};
ghost use Rattle.apfloat_arithmetic.specs.other_formats.FormatOf.{IsSumOf};

use crate::other_formats::operands::{Operand, negated, signals};
use crate::other_formats::results::{deliver_total_in, infinity_in, nan_in};
use crate::other_formats::totals::sum_of;
use apfloat_model::{Round, StatusAnd};
use apfloat_rounding::nans::invalid;
use apfloat_rounding::shape::Shape;
use apfloat_rounding::unpacked::Unpacked;
use apfloat_words::Term;

/// The sum of a number and an operand.
#[inline(always)]
fn add_to_number(into: Shape, x: Term, y: Operand, round: Round) -> StatusAnd<Unpacked>
    requires x { IsTerm x }
    requires y { IsOperand into y }
    ensures stored { IsStored into result.value }
    ensures sum { (m s : ℕ) (right : Extended) → IsAmount m s x → StandsFor into right y
        → GivesAt into (IsSumOf (format_at into) round (number x.negative m s) right) result }
{
    match y {
        Operand::Number(other) => {
            deliver_total_in(into, sum_of(x, other), x.negative, other.negative, round)
        }
        Operand::Infinity(negative) => infinity_in(into, negative),
        Operand::Nan(nan) => nan_in(into, nan.value, nan.signaling),
    }
}

/// The sum of an infinity and an operand.
#[inline(always)]
pub(crate) fn add_to_infinity(into: Shape, negative: bool, y: Operand) -> StatusAnd<Unpacked>
    requires { IsOperand into y }
    ensures stored { IsStored into result.value }
    ensures sum { (mode : Round) (right : Extended) → StandsFor into right y
        → GivesAt into (IsSumOf (format_at into) mode (infinity negative) right) result }
{
    match y {
        Operand::Number(_) => infinity_in(into, negative),
        Operand::Infinity(other) => {
            if negative == other {
                infinity_in(into, negative)
            } else {
                invalid(into)
            }
        }
        Operand::Nan(nan) => nan_in(into, nan.value, nan.signaling),
    }
}

/// The sum of two operands, rounded once.
pub fn add(into: Shape, x: Operand, y: Operand, round: Round) -> StatusAnd<Unpacked>
    requires x { IsOperand into x }
    requires y { IsOperand into y }
    ensures stored { IsStored into result.value }
    ensures sum { (left right : Extended) → StandsFor into left x → StandsFor into right y
        → GivesAt into (IsSumOf (format_at into) round left right) result }
{
    match x {
        Operand::Number(term) => add_to_number(into, term, y, round),
        Operand::Infinity(negative) => add_to_infinity(into, negative, y),
        Operand::Nan(nan) => nan_in(into, nan.value, nan.signaling || signals(into, y)),
    }
}

/// The difference of two operands, rounded once.
pub fn subtract(into: Shape, x: Operand, y: Operand, round: Round) -> StatusAnd<Unpacked>
    requires x { IsOperand into x }
    requires y { IsOperand into y }
    ensures stored { IsStored into result.value }
    ensures difference { (left right : Extended) → StandsFor into left x → StandsFor into right y
        → GivesAt into (IsSumOf (format_at into) round left (opposite right)) result }
{
    add(into, x, negated(into, y), round)
}
