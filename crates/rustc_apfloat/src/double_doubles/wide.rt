//! Operations on pairs in the wide format: the pairs are joined, the operation is performed there, and its result is
//! split. The status is that of the wide operation.

ghost use Rattle.std.specs.Prelude.{◌≡◌, ◌≤◌, ◌<◌, ◌^◌, Result};
ghost use Rattle.apfloat_model.specs.rounding.Flags.{Gives, bits_of};
ghost use Rattle.apfloat_pair_theory.specs.{Pairs.IsSplit, PairAccuracy.IsExactNearestRemainder};
ghost use Rattle.apfloat_pair_theory.specs.PairAccuracy.{IsExactQuotient, IsExactTruncatedRemainder};
ghost use Rattle.apfloat_pair_theory.specs.PairCalls.{IsPairQuotient, IsPairTruncatedRemainder, IsPairNearestRemainder};
ghost use Rattle.apfloat_pair_theory.specs.PairCalls.{IsPairRoundToIntegral, IsPairNextUp, IsPairExactInverse};
ghost use Rattle.apfloat_pair_theory.specs.PairCalls.{IsPairFromUnsigned, IsPairToUnsigned, IsPairRead};

use crate::double_doubles::join::{joined, split};
use crate::double_doubles::{DoubleFloat, Fallback};
use apfloat_base::{Float, ParseError, Round, StatusAnd};

/// A result of the wide format as a pair, with its status.
#[inline]
pub(crate) fn split_answer(answer: StatusAnd<Fallback>) -> StatusAnd<DoubleFloat>
    ensures status { result.status ≡ answer.status }
    ensures value { IsSplit answer.value result.value }
{
    answer.status.and(split(answer.value))
}

/// The quotient of two pairs.
#[inline]
pub(crate) fn quotient(x: DoubleFloat, y: DoubleFloat, round: Round) -> StatusAnd<DoubleFloat>
    ensures quotient { Gives (IsPairQuotient round x y) result }
    ensures exact { Gives (IsExactQuotient round x y) result }
{
    split_answer(joined(x).div_r(joined(y), round))
}

/// The remainder by the quotient truncated toward zero.
#[inline]
pub(crate) fn truncated(x: DoubleFloat, y: DoubleFloat) -> StatusAnd<DoubleFloat>
    ensures remainder { Gives (IsPairTruncatedRemainder x y) result }
    ensures exact { Gives (IsExactTruncatedRemainder x y) result }
{
    split_answer(joined(x).c_fmod(joined(y)))
}

/// The remainder by the integer nearest to the quotient.
#[inline]
pub(crate) fn nearest(x: DoubleFloat, y: DoubleFloat) -> StatusAnd<DoubleFloat>
    ensures remainder { Gives (IsPairNearestRemainder x y) result }
    ensures exact { Gives (IsExactNearestRemainder x y) result }
{
    split_answer(joined(x).ieee_rem(joined(y)))
}

/// A pair rounded by the mode to an integer.
#[inline]
pub(crate) fn round_to_integral(x: DoubleFloat, round: Round) -> StatusAnd<DoubleFloat>
    ensures { Gives (IsPairRoundToIntegral round x) result }
{
    split_answer(joined(x).round_to_integral(round))
}

/// The next value up in the wide format, split.
#[inline]
pub(crate) fn next_up(x: DoubleFloat) -> StatusAnd<DoubleFloat>
    ensures { Gives (IsPairNextUp x) result }
{
    split_answer(joined(x).next_up())
}

/// The exact inverse of a pair, if the wide format has it.
#[inline]
pub(crate) fn exact_inverse(x: DoubleFloat) -> Option<DoubleFloat>
    ensures { IsPairExactInverse x result }
{
    match joined(x).get_exact_inverse() {
        Some(inverse) => Some(split(inverse)),
        None => None,
    }
}

/// An integer as a pair.
#[inline]
pub(crate) fn from_unsigned(number: u128, round: Round) -> StatusAnd<DoubleFloat>
    ensures { Gives (IsPairFromUnsigned round number) result }
{
    split_answer(Fallback::from_u128_r(number, round))
}

/// A pair as an integer of `width` binary digits.
#[inline]
pub(crate) fn to_unsigned(
    x: DoubleFloat,
    width: usize,
    round: Round,
    is_exact: &mut bool,
) -> StatusAnd<u128>
    requires low { 1 ≤ width }
    requires high { width ≤ 128 }
    ensures answer { Gives
        (λ number status. IsPairToUnsigned round width x number status is_exact.new)
        result }
    ensures fits { result.value < 2 ^ width }
{
    let whole = joined(x).to_u128_r(width, round, is_exact);
    // Rebuilt from its fields: a struct that is passed on as a whole is copied together with its padding.
    whole.status.and(whole.value)
}

/// The pair that a text spells, or its refusal.
#[inline]
pub(crate) fn read(text: &str, round: Round) -> Result<StatusAnd<DoubleFloat>, ParseError>
    ensures { IsPairRead round text.now result }
{
    match Fallback::from_str_r(text, round) {
        Ok(answer) => Ok(split_answer(answer)),
        Err(error) => Err(error),
    }
}
