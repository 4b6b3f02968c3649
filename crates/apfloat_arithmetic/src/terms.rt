//! Numbers as terms.

ghost use Rattle.std.specs.Prelude.{◌≡◌, ◌-◌, ◌^◌, ◌<◌, ◌≤◌, pos, ◌+ℤ◌};
ghost use Rattle.apfloat_model.specs.rounding.Bounds.{IsWithin, number_bound};
ghost use Rattle.apfloat_words.specs.Wides.{whole};
ghost use Rattle.apfloat_rounding.specs.Stored.{IsNormal};

use apfloat_rounding::shape::Shape;
use apfloat_rounding::unpacked::{Unpacked, term_of};
use apfloat_words::{Term, Wide, WideTerm};

/// A nonzero number as a term, whose significand has all digits of the format.
#[inline(always)]
pub(crate) fn full_term(shape: Shape, x: Unpacked) -> Term
    requires { IsNormal shape x }
    ensures fits { result.significand < 2 ^ shape.precision }
    ensures full { 2 ^ (shape.precision - 1) ≤ result.significand }
    ensures within { IsWithin number_bound result.exponent }
    ensures exponent { (result.exponent +ℤ pos shape.precision) ≡ (x.exponent +ℤ pos 1) }
    ensures significand { result.significand ≡ x.significand }
    ensures negative { result.negative ≡ x.negative }
{
    term_of(shape, x)
}

/// A term in two words.
#[inline(always)]
pub(crate) fn widened_term(term: Term) -> WideTerm
    ensures negative { result.negative ≡ term.negative }
    ensures exponent { result.exponent ≡ term.exponent }
    ensures significand { whole result.significand ≡ term.significand }
{
    WideTerm {
        negative: term.negative,
        exponent: term.exponent,
        significand: Wide {
            high: 0,
            low: term.significand,
        },
    }
}
