//! Decimal texts as pairs of doubles, and pairs as their shortest decimals.
//!
//! A separate crate, so that the decimals do not depend on pairs, nor the pairs on decimals.

ghost use Rattle.std.specs.Prelude.{◌≡◌, true, ℕ, ℤ, List, Option, Some, IsSome, Result, IsOkAnd};
ghost use Rattle.apfloat_model.specs.{Determined.Determines, declared.parse_error.ParseError.ParseError};
ghost use Rattle.apfloat_model.specs.declared.{status.StatusAnd.StatusAnd, kinds.Round.Round};
ghost use Rattle.apfloat_model.specs.{declared.kinds.Round.TheVariants.NearestTiesToEven, order.Classes.is_finite};
ghost use Rattle.apfloat_pair_theory.specs.Pairs.{IsJoined, IsSplit, Pair};
ghost use Rattle.apfloat_decimals.specs.{declared.decimal.Decimal.Decimal, Parsing.Spells, ReadBack.IsStoredDecimal};
ghost use Rattle.apfloat_decimals.specs.{Shortest.IsSameNumber, Texts.decimal_text};
ghost use Rattle.apfloat_digits.specs.of_double_doubles.OneReading.{IsPairReadOnce};
ghost use Rattle.apfloat_digits.specs.of_double_doubles.PairReadings.{IsPairDecimalRead, IsPairDecimalReading};
ghost use Rattle.apfloat_digits.specs.of_double_doubles.PairShortest.{GivesPairShortest};

use apfloat_base::{Float, ParseError, Round, StatusAnd};
use apfloat_decimals::{Decimal, read_decimal_ascii, shortest};
use apfloat_ieee::IeeeFloat;
use rustc_apfloat::double_doubles::{DoubleDouble, FallbackS};

/// A value of the wide format.
type Wide = IeeeFloat<FallbackS>;

/// The pair of a text: the value that `apfloat_decimals::read_decimal` reads in the wide format of 106 binary digits,
/// rounded once and split into the nearest double and the rest, with the flags of that reading; or its error.
///
/// The pair need not be the one nearest to the number: its parts can be more than 53 digits apart, as in
/// `1 + 2^-1000`, which no value of the wide format is.
pub fn read_decimal_pair(text: &str, round: Round) -> Result<StatusAnd<DoubleDouble>, ParseError>
    ensures { IsPairDecimalRead round text.now result }
{
    read_decimal_pair_ascii(text.as_bytes(), round)
}

/// Reads a text of ASCII characters like `read_decimal_pair`. Other bytes are refused, since no text with them has a
/// value.
pub fn read_decimal_pair_ascii(
    text: &[u8],
    round: Round,
) -> Result<StatusAnd<DoubleDouble>, ParseError>
    ensures { IsPairDecimalRead round text.now result }
{
    match read_decimal_ascii::<FallbackS>(text, round) {
        Ok(answer) => Ok(answer.status.and(pair_of_joined(answer.value))),
        Err(error) => Err(error),
    }
}

/// A text is read as one pair, or refused with the same message.
pub fn one_pair_reading()
    ensures { IsPairReadOnce }
{}

/// The shortest decimal that `read_decimal_pair` reads as the pair, to nearest, ties to even: the one with the fewest
/// digits, of those the nearest to the exact sum of the parts, and of two equally near ones the even one.
///
/// None for an infinity, for a NaN, and for a pair that no decimal is read as: one that is not the split of a wide
/// value, as `1 + 2^-200`, whose parts are too far apart, or one that is not normalized. A zero has the digits 0, the
/// exponent 0 and its sign.
pub fn shortest_of_pair(x: DoubleDouble) -> Option<Decimal>
    ensures { GivesPairShortest x result }
{
    let joined = joined_of_pair(x);
    if pair_of_joined(joined).bitwise_eq(x) {
        shortest(joined)
    } else {
        None
    }
}

/// At most one decimal is the shortest of a pair, and the pair is read back from each text of its number and sign,
/// among them the one that `Display` writes.
pub fn pair_shortest_reads_back()
    ensures once { (x : Pair) → Determines (GivesPairShortest x) }
    ensures text { (x : Pair) (decimal : Decimal) (text : List ℕ) (digits : ℕ) (exponent : ℤ)
        (answer : Result (StatusAnd Pair) ParseError) → GivesPairShortest x (Some decimal)
        → Spells text decimal.negative digits exponent
        → IsSameNumber digits exponent decimal.digits decimal.exponent
        → IsPairDecimalRead NearestTiesToEven text answer → IsOkAnd answer (λ a. a.value ≡ x) }
    ensures written { (x : Pair) (decimal : Decimal) (answer : Result (StatusAnd Pair) ParseError)
        → IsStoredDecimal decimal → GivesPairShortest x (Some decimal)
        → IsPairDecimalRead NearestTiesToEven (decimal_text decimal) answer
        → IsOkAnd answer (λ a. a.value ≡ x) }
{}

/// A pair that a text is read as, in any mode, has a shortest decimal, if its high part is finite; so
/// `shortest_of_pair` returns none for a pair with a finite high part only if no text is read as it.
pub fn read_pairs_have_a_decimal()
    ensures { (mode : Round) (text : List ℕ) (x : Pair) (status : ℕ) (answer : Option Decimal)
        → IsPairDecimalReading mode text x status → is_finite x.high ≡ true
        → GivesPairShortest x answer → IsSome answer }
{}

/// A value of the wide format as a pair.
fn pair_of_joined(x: Wide) -> DoubleDouble
    ensures { IsSplit x result }
{
    DoubleDouble::from(x)
}

/// The exact sum of the parts of a pair, rounded once to the wide format.
fn joined_of_pair(x: DoubleDouble) -> Wide
    ensures { IsJoined x result }
{
    Wide::from(x)
}
