//! How many digits a value has.

ghost use Rattle.std.specs.Prelude.{◌≡◌, ℕ, Bool, true, ◌+◌, ◌^◌, ◌≤◌, ℤ, Option};
ghost use Rattle.apfloat_model.specs.{declared.kinds.Round.Round, formats.Datum.Datum, formats.Format.Format};
ghost use Rattle.apfloat_model.specs.order.{Classes.quanta_of, Positive.IsPositive};
ghost use Rattle.apfloat_model.specs.rounding.{Bounds.IsWithin, Standing.up, Standing.down};
ghost use Rattle.apfloat_ieee.specs.Types.{format_of};
ghost use Rattle.apfloat_decimals.specs.{Decimals.HasQuadExponents, RoundedDecimals.IsRoundedNumber};
ghost use Rattle.apfloat_digits.specs.decimal.DigitCounts.{GivesDigitCount, IsDigitCount};

use apfloat_base::{Category, ExpInt, Float};
use apfloat_decimals::{first_place, last_place};
use apfloat_ieee::{IeeeFloat, Semantics};

/// How many digits there are from one place to another.
fn count_between(first: ExpInt, last: ExpInt) -> u32
    requires first { IsWithin (2 ^ 24) first }
    requires last { IsWithin (2 ^ 24) last }
    requires order { up last + down first ≤ up first + down last }
    ensures { result + up last + down first ≡ 1 + up first + down last }
{
    (first - last + 1) as u32
}

/// How many digits a positive value has.
fn count_of<S: Semantics>(x: IeeeFloat<S>) -> u32
    requires exponents { HasQuadExponents (format_of S.Semantics) }
    requires positive { IsPositive (format_of S.Semantics) x }
    ensures { IsDigitCount (format_of S.Semantics) (quanta_of x) result }
{
    let number = x.number();
    let place = last_place(number.significand, number.exponent);
    count_between(first_place(x), place)
}

/// How many decimal digits a value has, from its first one to its last one that is not 0: `write_digits` writes that
/// many without rounding. It is at most 767 for `Double` and 11,563 for `Quad`.
///
/// The exponents of the format are within those of `Quad`, as in each built-in format. Zeros, infinities and NaNs have
/// no digits.
pub fn digit_count<S: Semantics>(x: IeeeFloat<S>) -> Option<u32>
    requires exponents { HasQuadExponents (format_of S.Semantics) }
    ensures { GivesDigitCount (format_of S.Semantics) x result }
{
    match x.category() {
        Category::Infinity | Category::NaN | Category::Zero => None,
        Category::Normal => Some(count_of(x.abs())),
    }
}

/// As many digits as a value has are the value itself, in each mode.
pub fn exact_at_count()
    ensures { (f : Format) (mode : Round) (negative : Bool) (quanta count digits : ℕ) (exponent : ℤ)
        (exact : Bool) → IsDigitCount f quanta count
        → IsRoundedNumber f mode negative quanta count digits exponent exact → exact ≡ true }
{}

/// A value has one number of digits.
pub fn digit_count_once()
    ensures { (f : Format) (x : Datum) (answer other : Option ℕ) → GivesDigitCount f x answer
        → GivesDigitCount f x other → answer ≡ other }
{}
