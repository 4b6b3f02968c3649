//! Sums and differences, rounded once (IEEE 754-2019 5.4.1, 6.1, 6.3).

ghost use Rattle.std.specs.Prelude.{◌≡◌, ℕ, ◌+◌, ◌*◌, ◌^◌, ◌<◌, ◌≤◌, pos, ◌+ℤ◌};
ghost use Rattle.apfloat_model.specs.arithmetic.Exact.{signed, IsRounded};
ghost use Rattle.apfloat_model.specs.arithmetic.Sums.{zero_sum_sign, IsSum, IsDifference};
ghost use Rattle.apfloat_model.specs.rounding.{Bounds.IsWithin, Bounds.exponent_bound, RoundingToOdd.IsRoundedToOdd};
ghost use Rattle.apfloat_model.specs.rounding.Standing.{up, down};
ghost use Rattle.apfloat_arithmetic.specs.{Subtrahends.added, NumberResults.AreNormal, NumberResults.IsNumberSum};
ghost use Rattle.apfloat_rounding.specs.{Shapes.format_at, Stored.IsStored, Stored.datum_at, Stored.GivesAt};

use crate::classes::are_normal;
use crate::signs::negated;
use crate::specials::{Operation, special};
use crate::terms::{full_term, widened_term};
use apfloat_model::{Category, Round, StatusAnd};
use apfloat_rounding::rounding::from_u128::deliver_u128;
use apfloat_rounding::rounding::from_word::deliver_word;
use apfloat_rounding::shape::Shape;
use apfloat_rounding::unpacked::{Unpacked, remade};
use apfloat_words::{
    U128_LIMIT, U128Total, WORD_LIMIT, add_u128_terms, add_wide_terms, add_word_terms,
};

/// The sign of an exact zero as the sum of numbers with these signs (IEEE 754-2019 6.3).
#[inline(always)]
pub fn sign_of_zero(round: Round, left: bool, right: bool) -> bool
    ensures { result ≡ zero_sum_sign round left right }
{
    if left == right {
        return left;
    }
    match round {
        Round::NearestTiesToEven => false,
        Round::TowardPositive => false,
        Round::TowardNegative => true,
        Round::TowardZero => false,
        Round::NearestTiesToAway => false,
    }
}

/// The sign of a total that was rounded to odd; `of_zero` if it is zero, in which case it is exact.
#[inline(always)]
pub fn sign_of_odd_total(significand: u128, negative: bool, of_zero: bool) -> bool
    ensures zero { significand ≡ 0 → result ≡ of_zero }
    ensures other { (significand ≡ 0 → ⊥) → result ≡ negative }
{
    if significand == 0 { of_zero } else { negative }
}

/// Delivers the total of two numbers with these signs, which was rounded to odd, rounded once. An exact zero has the
/// sign that the mode gives it (IEEE 754-2019 6.3).
#[inline(always)]
pub fn deliver_total(
    shape: Shape,
    total: U128Total,
    left: bool,
    right: bool,
    round: Round,
) -> StatusAnd<Unpacked>
    requires { IsWithin exponent_bound total.exponent }
    ensures stored { IsStored shape result.value }
    ensures delivered { let unit = total.exponent +ℤ pos (format_at shape).scale in (amount parts : ℕ)
        → 0 < parts
        → IsRoundedToOdd (2 ^ (shape.precision + 1)) total.significand (amount * 2 ^ down unit)
        (parts * 2 ^ up unit)
        → GivesAt shape (IsRounded (format_at shape) round (zero_sum_sign round left right)
        (signed total.negative amount) parts) result }
{
    let of_zero = sign_of_zero(round, left, right);
    let negative = sign_of_odd_total(total.significand, total.negative, of_zero);
    deliver_u128(shape, total.significand, total.exponent, round, negative)
}

/// The sum of two nonzero numbers with at most 59 digits, in one word.
#[inline(always)]
fn add_word_numbers(shape: Shape, x: Unpacked, y: Unpacked, round: Round) -> StatusAnd<Unpacked>
    requires short { shape.precision ≤ 59 }
    requires normal { AreNormal shape x y }
    ensures stored { IsStored shape result.value }
    ensures delivered { GivesAt shape (IsNumberSum shape round x y) result }
{
    let total = add_word_terms(shape.precision, full_term(shape, x), full_term(shape, y));
    let of_zero = sign_of_zero(round, x.negative, y.negative);
    let negative = sign_of_odd_total(u128::from(total.significand), total.negative, of_zero);
    deliver_word(shape, total.significand, total.exponent, round, negative)
}

/// The sum of two nonzero numbers with at most 124 digits, in one `u128`.
#[inline(always)]
fn add_u128_numbers(shape: Shape, x: Unpacked, y: Unpacked, round: Round) -> StatusAnd<Unpacked>
    requires short { shape.precision ≤ 124 }
    requires normal { AreNormal shape x y }
    ensures stored { IsStored shape result.value }
    ensures delivered { GivesAt shape (IsNumberSum shape round x y) result }
{
    let total = add_u128_terms(shape.precision, full_term(shape, x), full_term(shape, y));
    deliver_total(shape, total, x.negative, y.negative, round)
}

/// The sum of two nonzero numbers with 125 digits, in two words. Kept out of line, since such formats are rare.
#[cold]
#[inline(never)]
fn add_wide_numbers(shape: Shape, x: Unpacked, y: Unpacked, round: Round) -> StatusAnd<Unpacked>
    requires long { 124 < shape.precision }
    requires normal { AreNormal shape x y }
    ensures stored { IsStored shape result.value }
    ensures delivered { GivesAt shape (IsNumberSum shape round x y) result }
{
    let total = add_wide_terms(
        shape.precision,
        widened_term(full_term(shape, x)),
        widened_term(full_term(shape, y)),
    );
    deliver_total(shape, total, x.negative, y.negative, round)
}

/// The sum of two nonzero numbers.
#[inline(always)]
fn add_numbers(shape: Shape, x: Unpacked, y: Unpacked, round: Round) -> StatusAnd<Unpacked>
    requires { AreNormal shape x y }
    ensures stored { IsStored shape result.value }
    ensures delivered { GivesAt shape (IsNumberSum shape round x y) result }
{
    if shape.precision <= WORD_LIMIT {
        return add_word_numbers(shape, x, y, round);
    }
    if shape.precision <= U128_LIMIT {
        return add_u128_numbers(shape, x, y, round);
    }
    remade(add_wide_numbers(shape.remade(), x.remade(), y.remade(), round))
}

/// `x + y`, rounded once (IEEE 754-2019 5.4.1).
#[inline(always)]
pub fn add(shape: Shape, x: Unpacked, y: Unpacked, round: Round) -> StatusAnd<Unpacked>
    requires x_stored { IsStored shape x }
    requires y_stored { IsStored shape y }
    ensures stored { IsStored shape result.value }
    ensures delivered { GivesAt shape
        (IsSum (format_at shape) round (datum_at shape x) (datum_at shape y)) result }
{
    if are_normal(x, y) {
        add_numbers(shape, x, y, round)
    } else {
        special(shape, Operation::Sum(x.remade(), y.remade(), round))
    }
}

/// The term that is added when a value is subtracted: a NaN is not negated.
#[inline(always)]
fn added(shape: Shape, y: Unpacked) -> Unpacked
    requires { IsStored shape y }
    ensures stored { IsStored shape result }
    ensures datum { datum_at shape result ≡ added shape.nonfinite (datum_at shape y) }
{
    match y.category {
        Category::NaN => y,
        _ => negated(shape, y),
    }
}

/// `x - y`, rounded once (IEEE 754-2019 5.4.1).
#[inline(always)]
pub fn subtract(shape: Shape, x: Unpacked, y: Unpacked, round: Round) -> StatusAnd<Unpacked>
    requires x_stored { IsStored shape x }
    requires y_stored { IsStored shape y }
    ensures stored { IsStored shape result.value }
    ensures delivered { GivesAt shape
        (IsDifference (format_at shape) round (datum_at shape x) (datum_at shape y)) result }
{
    add(shape, x, added(shape, y), round)
}
