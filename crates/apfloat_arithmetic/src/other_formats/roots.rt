//! Square roots.

ghost use Rattle.std.specs.Prelude.{ℕ, ◌<◌, ◌*◌, ◌^◌};
ghost use Rattle.apfloat_model.specs.rounding.DeliveredRoots.{IsDeliveredRoot};
ghost use Rattle.apfloat_rounding.specs.{Shapes.format_at, Stored.IsStored, Stored.GivesAt};
ghost use Rattle.apfloat_arithmetic.specs.other_formats.Extended.{Extended, number};
ghost use Rattle.apfloat_arithmetic.specs.other_formats.Operands.{IsOperand, IsTerm, IsAmount, StandsFor};
ghost use Rattle.apfloat_arithmetic.specs.other_formats.RootsOf.{IsRootOf};

use crate::exact::exact_zero;
use crate::other_formats::operands::{DIGITS, Operand};
use crate::other_formats::results::{infinity_in, nan_in};
use crate::roots::halves_of;
use apfloat_model::{Round, StatusAnd};
use apfloat_rounding::exponents::lowered;
use apfloat_rounding::nans::invalid;
use apfloat_rounding::rounding::deliver;
use apfloat_rounding::shape::Shape;
use apfloat_rounding::unpacked::Unpacked;
use apfloat_words::{Term, root_of};

/// The root of a nonzero number without its sign. Its significand is followed by as many zeros as an integral root of
/// 125 digits and an even exponent require.
#[inline(always)]
fn root_of_nonzero(into: Shape, x: Term, round: Round) -> StatusAnd<Unpacked>
    requires term { IsTerm x }
    requires some { 0 < x.significand }
    ensures stored { IsStored into result.value }
    ensures root { (m s : ℕ) → IsAmount m s x
        → GivesAt into (IsDeliveredRoot (format_at into) round
        (m * 2 ^ s * (2 ^ (format_at into).scale * 2 ^ (format_at into).scale)) (2 ^ s)) result }
{
    let exponent = halves_of(x.exponent);
    let root = root_of(DIGITS, x.significand, DIGITS - 1 + exponent.odd);
    let last = lowered(exponent.half, (DIGITS - 1) / 2);
    deliver(into, root.whole, last, root.loss, round, false)
}

/// The root of a number. That of a zero is the zero, with its sign, and that of any other negative number is invalid
/// (IEEE 754-2019 6.3, 7.2).
#[inline(always)]
fn root_of_number(into: Shape, x: Term, round: Round) -> StatusAnd<Unpacked>
    requires { IsTerm x }
    ensures stored { IsStored into result.value }
    ensures root { (m s : ℕ) → IsAmount m s x
        → GivesAt into (IsRootOf (format_at into) round (number x.negative m s)) result }
{
    if x.significand == 0 {
        return exact_zero(into, x.negative);
    }
    if x.negative {
        return invalid(into);
    }
    root_of_nonzero(into, x, round)
}

/// The square root of an operand, rounded once.
pub fn square_root(into: Shape, x: Operand, round: Round) -> StatusAnd<Unpacked>
    requires { IsOperand into x }
    ensures stored { IsStored into result.value }
    ensures root { (exact : Extended) → StandsFor into exact x
        → GivesAt into (IsRootOf (format_at into) round exact) result }
{
    match x {
        Operand::Number(term) => root_of_number(into, term, round),
        Operand::Infinity(negative) => {
            if negative {
                invalid(into)
            } else {
                infinity_in(into, false)
            }
        }
        Operand::Nan(nan) => nan_in(into, nan.value, nan.signaling),
    }
}
