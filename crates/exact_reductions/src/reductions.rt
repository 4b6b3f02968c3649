//! Reductions of slices (IEEE 754-2019 9.4): the exact result, rounded once.

ghost use Rattle.std.specs.Prelude.{◌≡◌, length, IsOk, IfOk, IsTrue, ◌↔◌};
ghost use Rattle.apfloat_model.specs.rounding.Flags.{Gives};
ghost use Rattle.apfloat_ieee.specs.FlaggedTypes.{format_of};
ghost use Rattle.exact_reductions.specs.Reductions.{IsReducible, IsSummable};
ghost use Rattle.exact_reductions.specs.Reductions.{IsSumOf, IsSumOfMagnitudes, IsSumOfSquares, IsDot};

use crate::exact_sum::ExactSum;
use apfloat_base::{Round, StatusAnd};
use apfloat_ieee::{Flagged, IeeeFloat};

/// How many words take every sum in a built-in format of at most 64 bits.
pub const NARROW_WORDS: usize = 67;

/// How many words take every sum in any built-in format.
pub const WIDE_WORDS: usize = 1029;

/// The slices of a dot product have different lengths.
#[derive(Clone, Copy, PartialEq, Eq, Debug)]
pub struct LengthsDiffer;

/// Whether so many words take every sum in the format: 2^64 products.
#[inline(always)]
pub fn are_enough<S: Flagged>(words: usize) -> bool
    ensures { IsTrue result ↔ IsSummable words (format_of S.Flagged) }
{
    let span = (S::MAX_EXP - S::MIN_EXP) as usize;
    let digits = 64 * ((S::PRECISION + 63) / 64) + span;
    words < 65536 && 2 * digits + 64 <= 64 * words
}

/// The sum of the values (9.4, sum). Without values it is +0.
pub fn sum_r<S: Flagged>(x: &[IeeeFloat<S>], round: Round) -> StatusAnd<IeeeFloat<S>>
    requires { IsReducible (format_of S.Flagged) }
    ensures { Gives (IsSumOf (format_of S.Flagged) round x.now) result }
{
    if are_enough::<S>(NARROW_WORDS) {
        sum_in::<S, NARROW_WORDS>(x, round)
    } else {
        sum_in::<S, WIDE_WORDS>(x, round)
    }
}

/// The same in so many words.
fn sum_in<S: Flagged, const WORDS: usize>(
    x: &[IeeeFloat<S>],
    round: Round,
) -> StatusAnd<IeeeFloat<S>>
    requires { IsSummable WORDS (format_of S.Flagged) }
    ensures { Gives (IsSumOf (format_of S.Flagged) round x.now) result }
{
    let mut sum = ExactSum::<S, WORDS>::new();
    sum.add_values(x);
    sum.rounded(round)
}

/// The sum of the magnitudes of the values (9.4, sumAbs).
pub fn sum_abs_r<S: Flagged>(x: &[IeeeFloat<S>], round: Round) -> StatusAnd<IeeeFloat<S>>
    requires { IsReducible (format_of S.Flagged) }
    ensures { Gives (IsSumOfMagnitudes (format_of S.Flagged) round x.now) result }
{
    if are_enough::<S>(NARROW_WORDS) {
        sum_abs_in::<S, NARROW_WORDS>(x, round)
    } else {
        sum_abs_in::<S, WIDE_WORDS>(x, round)
    }
}

/// The same in so many words.
fn sum_abs_in<S: Flagged, const WORDS: usize>(
    x: &[IeeeFloat<S>],
    round: Round,
) -> StatusAnd<IeeeFloat<S>>
    requires { IsSummable WORDS (format_of S.Flagged) }
    ensures { Gives (IsSumOfMagnitudes (format_of S.Flagged) round x.now) result }
{
    let mut sum = ExactSum::<S, WORDS>::new();
    sum.add_magnitudes(x);
    sum.rounded(round)
}

/// The sum of the squares of the values (9.4, sumSquare).
pub fn sum_square_r<S: Flagged>(x: &[IeeeFloat<S>], round: Round) -> StatusAnd<IeeeFloat<S>>
    requires { IsReducible (format_of S.Flagged) }
    ensures { Gives (IsSumOfSquares (format_of S.Flagged) round x.now) result }
{
    if are_enough::<S>(NARROW_WORDS) {
        dot_in::<S, NARROW_WORDS>(x, x, round)
    } else {
        dot_in::<S, WIDE_WORDS>(x, x, round)
    }
}

/// The dot product of two slices of one length (9.4, dot): the sum of the products of the values at the same places.
pub fn dot_r<S: Flagged>(
    x: &[IeeeFloat<S>],
    y: &[IeeeFloat<S>],
    round: Round,
) -> Result<StatusAnd<IeeeFloat<S>>, LengthsDiffer>
    requires { IsReducible (format_of S.Flagged) }
    ensures dot { IfOk result (λ answer. Gives
        (IsDot (format_of S.Flagged) round x.now y.now) answer) }
    ensures lengths { IsOk result ↔ length y.now ≡ length x.now }
{
    if x.len() != y.len() {
        return Err(LengthsDiffer);
    }
    if are_enough::<S>(NARROW_WORDS) {
        Ok(dot_in::<S, NARROW_WORDS>(x, y, round))
    } else {
        Ok(dot_in::<S, WIDE_WORDS>(x, y, round))
    }
}

/// The same in so many words.
fn dot_in<S: Flagged, const WORDS: usize>(
    x: &[IeeeFloat<S>],
    y: &[IeeeFloat<S>],
    round: Round,
) -> StatusAnd<IeeeFloat<S>>
    requires format { IsSummable WORDS (format_of S.Flagged) }
    requires lengths { length y.now ≡ length x.now }
    ensures { Gives (IsDot (format_of S.Flagged) round x.now y.now) result }
{
    let mut sum = ExactSum::<S, WORDS>::new();
    sum.add_products(x, y);
    sum.rounded(round)
}
