//! An answer toward zero as the answer rounded to odd.

ghost use Rattle.std.specs.Prelude.{◌≡◌, ◌+◌, ◌<◌, ◌||◌, ℕ, eqb};
ghost use Rattle.apfloat_model.specs.declared.kinds.{Category.TheVariants.Normal, Round.TheVariants.TowardZero};
ghost use Rattle.apfloat_model.specs.formats.{Format.largest, Members.IsMember};
ghost use Rattle.apfloat_model.specs.order.{Classes.category_of, Classes.quanta_of, Positive.IsPositive};
ghost use Rattle.apfloat_model.specs.rounding.{Flags.Gives, Grid.IsAbove, Rounding.IsDelivered};
ghost use Rattle.apfloat_ieee.specs.FlaggedTypes.{format_of};
ghost use Rattle.round_to_odd.specs.Odd.{IsToOdd, IsMadeOdd, IsAnswerMadeOdd, is_odd_below};

use crate::numbers::{is_odd, with_sign};
use apfloat_base::{Category, Flags, Float, Status, StatusAnd};
use apfloat_ieee::{Flagged, IeeeFloat};

/// The answer rounded to odd, of the answer of a call with `Round::TowardZero`: the same if it is exact, otherwise the
/// one of the two neighbours of the exact result whose last digit is odd.
///
/// `negative` is the sign of the exact result, which a zero loses in a format without -0. The flags are those of the
/// answer. A neighbour past the largest value gives the largest value, as toward zero; so an inexact result is even
/// only where the last digit of the largest value is, as in `Float8E4M3FN`, whose next encoding is the NaN.
///
/// An infinity or a NaN is unchanged, and so is any answer without INEXACT. The clause `odd` is about exact results
/// that are fractions, which roots need not be; `rounding_roots_again_is_rounding_once` is about roots.
pub fn to_odd<S: Flagged>(
    answer: StatusAnd<IeeeFloat<S>>,
    negative: bool,
) -> StatusAnd<IeeeFloat<S>>
    ensures made { IsAnswerMadeOdd (format_of S.Flagged) negative answer result }
    ensures odd { (amount parts : ℕ) → 0 < parts
        → Gives (IsDelivered (format_of S.Flagged) TowardZero negative amount parts) answer
        → Gives (IsToOdd (format_of S.Flagged) negative amount parts) result }
{
    if answer.status.intersects(Status::INEXACT) {
        answer.status.and(made_odd(answer.value, negative))
    } else {
        answer
    }
}

/// The value, if its last digit is odd or it is the largest; otherwise the next one away from zero, with that sign.
fn made_odd<S: Flagged>(x: IeeeFloat<S>, negative: bool) -> IeeeFloat<S>
    ensures { IsMadeOdd (format_of S.Flagged) negative x result }
{
    match x.category() {
        Category::NaN => x,
        Category::Infinity => x,
        Category::Zero => with_sign(IeeeFloat::smallest(), negative),
        Category::Normal => made_odd_number(x, negative),
    }
}

/// The same for a nonzero number.
fn made_odd_number<S: Flagged>(x: IeeeFloat<S>, negative: bool) -> IeeeFloat<S>
    requires number { category_of x ≡ Normal }
    requires member { IsMember (format_of S.Flagged) x }
    ensures { IsMadeOdd (format_of S.Flagged) negative x result }
{
    let magnitude = x.abs();
    if stays(magnitude) {
        x
    } else {
        with_sign(magnitude.next_up().value, negative)
    }
}

/// Whether a positive value is not moved: if its last digit is odd, or it is the largest value.
fn stays<S: Flagged>(x: IeeeFloat<S>) -> bool
    requires { IsPositive (format_of S.Flagged) x }
    ensures { let f = format_of S.Flagged in (above : ℕ)
        → IsAbove f.precision above (quanta_of x + 1) 1
        → result ≡ (is_odd_below (quanta_of x) above || eqb (quanta_of x) (largest f)) }
{
    is_odd(x) || x.is_largest()
}
