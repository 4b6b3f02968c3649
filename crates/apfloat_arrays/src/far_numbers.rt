//! Numbers so far out of the range of a format that only the side and the sign matter: those past all its values, and
//! those below half of its smallest positive value. All numbers on one side with the same sign have the same result.

ghost use Rattle.std.specs.Prelude.{◌≡◌, ℕ, ◌+◌, ◌-◌, ◌^◌, ◌<◌, false, pos, neg_ℤ, ◌+ℤ◌, ◌-ℤ◌, ◌≤ℤ◌, IsTrue, IfSome};
ghost use Rattle.std.specs.Prelude.{MatchBool};
ghost use Rattle.rustc_apfloat.specs.{Bounds.IsWithin, Bounds.exponent_bound, Datum.finite, FlaggedTypes.constants_of};
ghost use Rattle.rustc_apfloat.specs.{FlaggedTypes.format_of, FlaggedTypes.layout_of, Layout.fields_of};
ghost use Rattle.apfloat_arrays.specs.FarNumbers.{AreFarAnswers, IsAnswerTo, IsFar, IsFarPlace, far_place};
ghost use Rattle.apfloat_arrays.specs.FarNumbers.{with_overflow};
ghost use Rattle.small_formats.specs.saturation.Saturation.{saturated};

use crate::converted::Converted;
use crate::counts::Outcome;
use fast_bits::{biased_exponent, is_minus};
use rustc_apfloat::ieee::{Flagged, IeeeFloat, Loss, deliver};
use rustc_apfloat::{ExpInt, Float, Round, StatusAnd};
use small_formats::saturation::{Overflow, largest_of_sign};

/// The results for numbers below half of the smallest positive value, then for numbers past all values; each first for
/// positive numbers, then for negative ones.
pub type FarAnswers = [Converted; 4];

/// For fewer values than this, the results are not computed first, since that takes as long as some twenty conversions.
const LEAST_COUNT: usize = 256;

/// The results for the conversion of `count` values, unless there are too few values, or few of them can be far out of
/// range.
#[inline(always)]
pub fn far_answers_for<S: Flagged, T: Flagged>(
    overflow: Overflow,
    round: Round,
    count: usize,
) -> Option<FarAnswers>
    requires { T.PRECISION < T.BITS }
    ensures { IfSome result (AreFarAnswers overflow (constants_of T.Flagged) round) }
{
    if S::EXPLICIT_INTEGER_BIT || S::MAX_EXP <= T::MAX_EXP || count < LEAST_COUNT {
        None
    } else {
        Some(far_answers::<T>(overflow, round))
    }
}

/// The four results.
fn far_answers<T: Flagged>(overflow: Overflow, round: Round) -> FarAnswers
    requires { T.PRECISION < T.BITS }
    ensures { AreFarAnswers overflow (constants_of T.Flagged) round result }
{
    [
        far_answer::<T>(overflow, round, false, false),
        far_answer::<T>(overflow, round, false, true),
        far_answer::<T>(overflow, round, true, false),
        far_answer::<T>(overflow, round, true, true),
    ]
}

/// The result for all numbers on this side with this sign.
#[inline(never)]
fn far_answer<T: Flagged>(overflow: Overflow, round: Round, past: bool, negative: bool) -> Converted
    requires { T.PRECISION < T.BITS }
    ensures { (amount parts : ℕ) → IsFar past (format_of T.Flagged) amount parts
        → IsAnswerTo overflow (constants_of T.Flagged) round negative amount parts result }
{
    let exponent = far_exponent::<T>(past);
    let delivered = deliver::<T>(1, exponent, Loss::ExactlyZero, round, negative);
    let value = with_overflow(overflow, negative, delivered.value);
    Converted {
        bits: value.to_bits(),
        outcome: Outcome {
            status: delivered.status,
            is_nan: value.is_nan(),
        },
    }
}

/// A rounded number, or the largest value of its sign in place of what is not finite.
fn finite_or_largest<T: Flagged>(negative: bool, rounded: IeeeFloat<T>) -> IeeeFloat<T>
    ensures { result ≡ saturated (format_of T.Flagged) (finite negative 0) rounded }
{
    if rounded.is_finite() {
        rounded
    } else {
        largest_of_sign(negative)
    }
}

/// What a rounded number becomes.
fn with_overflow<T: Flagged>(
    overflow: Overflow,
    negative: bool,
    rounded: IeeeFloat<T>,
) -> IeeeFloat<T>
    ensures { result ≡ with_overflow overflow (format_of T.Flagged) negative rounded }
{
    match overflow {
        Overflow::Rounded => rounded,
        Overflow::Saturated => finite_or_largest(negative, rounded),
        Overflow::Finite(_) => finite_or_largest(negative, rounded),
    }
}

/// The exponent of a power of two on this side.
fn far_exponent<T: Flagged>(past: bool) -> ExpInt
    ensures within { IsWithin exponent_bound result }
    ensures unit { let g = format_of T.Flagged in
        MatchBool past ((result +ℤ pos g.scale) ≡ pos (g.precision + g.span))
        ((result +ℤ pos g.scale) ≡ neg_ℤ (pos 2)) }
{
    if past {
        T::MAX_EXP + 1
    } else {
        T::MIN_EXP - T::PRECISION as ExpInt - 1
    }
}

/// The index of the result for the number that these bits encode, if it is far out of range.
#[inline(always)]
pub fn far_place<S: Flagged, T: Flagged>(bits: u128) -> Option<usize>
    requires { S.PRECISION < S.BITS }
    ensures within { IfSome result (λ place. place < 4) }
    ensures place { IfSome result
        (IsFarPlace (constants_of S.Flagged) (constants_of T.Flagged) bits) }
{
    if S::EXPLICIT_INTEGER_BIT {
        return None;
    }
    let biased = biased_exponent::<S>(bits);
    let negative = is_minus::<S>(bits);
    let past = is_past::<S, T>(biased);
    let far = past | is_little::<S, T>(biased);
    if far & is_of_number::<S>(biased) {
        Some(place_of(past, negative))
    } else {
        None
    }
}

/// The index of the result for the numbers on this side with this sign.
#[inline(always)]
fn place_of(past: bool, negative: bool) -> usize
    ensures place { result ≡ far_place past negative }
    ensures within { result < 4 }
{
    2 * usize::from(past) + usize::from(negative)
}

/// Whether this is neither the biased exponent of zeros and denormal numbers nor the greatest one.
#[inline(always)]
fn is_of_number<S: Flagged>(biased: u32) -> bool
    requires bits { S.PRECISION < S.BITS }
    requires bound { biased < 2 ^ 22 }
    ensures { IsTrue result → (0 < biased) × (biased + 1 < 2 ^ S.EXP_BITS) }
{
    (biased != 0) & (biased + 1 < 1 << S::EXP_BITS)
}

/// Whether numbers with this biased exponent are past all values of `T`.
#[inline(always)]
fn is_past<S: Flagged, T: Flagged>(biased: u32) -> bool
    requires { biased < 2 ^ 22 }
    ensures { IsTrue result → (T.MAX_EXP +ℤ pos 2) ≤ℤ (S.MIN_EXP +ℤ pos biased) }
{
    S::MIN_EXP + biased as ExpInt >= T::MAX_EXP + 2
}

/// Whether numbers with this biased exponent are below half of the smallest positive value of `T`.
#[inline(always)]
fn is_little<S: Flagged, T: Flagged>(biased: u32) -> bool
    requires { biased < 2 ^ 22 }
    ensures { IsTrue result
        → (S.MIN_EXP +ℤ pos biased) ≤ℤ (T.MIN_EXP -ℤ pos T.PRECISION) }
{
    S::MIN_EXP + biased as ExpInt <= T::MIN_EXP - T::PRECISION as ExpInt
}
