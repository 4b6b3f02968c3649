//! Operands, taken out of their formats.

ghost use Rattle.std.specs.Prelude.{◌≡◌, ℕ, ◌-◌, ◌*◌, ◌^◌, ◌<◌, ◌≤◌};
ghost use Rattle.apfloat_rounding.specs.Shapes.{format_at};
ghost use Rattle.apfloat_rounding.specs.Stored.{IsNormal, IsStored, datum_at, quanta_of};
ghost use Rattle.apfloat_arithmetic.specs.other_formats.Extended.{Extended, seen, signals, opposite};
ghost use Rattle.apfloat_arithmetic.specs.other_formats.Operands.{IsOperand, IsTerm, IsTermOf, StandsFor};

use apfloat_model::Category;
use apfloat_rounding::exponents::lowered;
use apfloat_rounding::nans::is_signaling;
use apfloat_rounding::payloads::converted_nan;
use apfloat_rounding::shape::Shape;
use apfloat_rounding::unpacked::{Unpacked, term_of};
use apfloat_words::Term;

/// The greatest number of digits that a format may have.
pub(crate) const DIGITS: u32 = 125;

/// A NaN, as the operation sees it.
#[derive(Clone, Copy)]
pub struct NanOperand {
    /// The NaN of the target that it becomes.
    pub value: Unpacked,
    /// Whether it is signaling in its own format.
    pub signaling: bool,
}

/// An operand without its format.
#[derive(Clone, Copy)]
pub enum Operand {
    /// A number, with 125 digits unless it is zero.
    Number(Term),
    /// An infinity with that sign.
    Infinity(bool),
    /// A NaN.
    Nan(NanOperand),
}

/// A significand of that precision, moved up to 125 digits.
#[inline(always)]
fn full_significand(precision: u32, significand: u128) -> u128
    requires some { 0 < precision }
    requires short { precision ≤ 125 }
    requires fits { significand < 2 ^ precision }
    requires full { 2 ^ (precision - 1) ≤ significand }
    ensures value { result ≡ significand * 2 ^ (125 - precision) }
    ensures fits { result < 2 ^ 125 }
    ensures full { 2 ^ 124 ≤ result }
{
    significand << (DIGITS - precision)
}

/// A nonzero number with 125 digits.
#[inline(always)]
fn number_term(from: Shape, x: Unpacked) -> Term
    requires { IsNormal from x }
    ensures term { IsTerm result }
    ensures is { IsTermOf x.negative (quanta_of from x) (format_at from).scale result }
{
    let term = term_of(from, x);
    Term {
        negative: term.negative,
        exponent: lowered(term.exponent, DIGITS - from.precision),
        significand: full_significand(from.precision, term.significand),
    }
}

/// A zero with that sign.
#[inline(always)]
fn zero_term(negative: bool) -> Term
    ensures term { IsTerm result }
    ensures is { (places : ℕ) → IsTermOf negative 0 places result }
{
    Term {
        negative,
        exponent: 0,
        significand: 0,
    }
}

/// A NaN of a format, as an operation that delivers in another sees it.
fn nan_operand(from: Shape, into: Shape, x: Unpacked) -> NanOperand
    requires stored { IsStored from x }
    requires nan { x.category ≡ Category.NaN }
    ensures stored { IsStored into result.value }
    ensures is { StandsFor into (seen (format_at from) (format_at into) (datum_at from x))
        (Operand.Nan result) }
{
    NanOperand {
        value: converted_nan(from, into, x).value,
        signaling: is_signaling(from, x),
    }
}

/// A value of one format, as an operation that delivers in another sees it.
#[inline(always)]
pub fn operand_of(from: Shape, into: Shape, x: Unpacked) -> Operand
    requires { IsStored from x }
    ensures operand { IsOperand into result }
    ensures is { StandsFor into (seen (format_at from) (format_at into) (datum_at from x)) result }
{
    match x.category {
        Category::Normal => Operand::Number(number_term(from, x)),
        Category::Zero => Operand::Number(zero_term(x.negative)),
        Category::Infinity => Operand::Infinity(x.negative),
        Category::NaN => Operand::Nan(nan_operand(from, into, x)),
    }
}

/// Whether an operand is a signaling NaN.
#[inline(always)]
pub(crate) fn signals(into: Shape, x: Operand) -> bool
    ensures { (exact : Extended) → StandsFor into exact x → result ≡ signals exact }
{
    match x {
        Operand::Number(_) => false,
        Operand::Infinity(_) => false,
        Operand::Nan(nan) => nan.signaling,
    }
}

/// The operand that is added when this one is subtracted: a NaN is not negated.
#[inline(always)]
pub fn negated(into: Shape, x: Operand) -> Operand
    requires { IsOperand into x }
    ensures operand { IsOperand into result }
    ensures is { (exact : Extended) → StandsFor into exact x → StandsFor into (opposite exact) result }
{
    match x {
        Operand::Number(term) => Operand::Number(Term {
            negative: !term.negative,
            exponent: term.exponent,
            significand: term.significand,
        }),
        Operand::Infinity(negative) => Operand::Infinity(!negative),
        Operand::Nan(nan) => Operand::Nan(nan),
    }
}
