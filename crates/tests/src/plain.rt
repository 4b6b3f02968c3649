//! One rounding by a plain, slow program, which the rounding of the library is compared with.
//!
//! It uses integers only: a spacing is doubled until the magnitude is less than 2^precision spacings, the two
//! neighbours are multiples of that spacing, and their distances are compared. Its contract is the definition of one
//! rounding.

ghost use Rattle.std.specs.Prelude.{◌≡◌, ◌+◌, ◌*◌, ◌/◌, ◌^◌, ◌<◌, ◌≤◌, ℕ, if◌then◌else◌};
ghost use Rattle.rustc_apfloat.specs.{Flags.bits_of, Format.Format, Format.nan_base_of, Grid.IsBelow, Grid.IsAbove};
ghost use Rattle.rustc_apfloat.specs.Rounding.{takes_above, IsPick, IsDelivered, leads_out, past_largest};
ghost use Rattle.rustc_apfloat.specs.Rounding.{signed_quanta, rounds_below_normal, ok_bits, underflow_bit, inexact_bit};
ghost use Rattle.rustc_apfloat.specs.WholeNumbers.{whole_pick};
ghost use Rattle.tests.specs.Plain.{IsSmall, IsSpacing, HasBounds, tiny_of, datum_of};

use rustc_apfloat::ieee::NonfiniteBehavior;
use rustc_apfloat::{Flags, Round, Status, StatusAnd};

/// The distance between neighbouring grid points around the magnitude `amount / parts`.
fn spacing_at(precision: u32, amount: u128, parts: u128) -> u128
    requires { IsSmall precision amount parts }
    ensures { IsSpacing precision amount parts result }
{
    let count = 2u128.pow(precision);
    let mut spacing = 1;
    while count * (parts * spacing) <= amount {
        spacing *= 2;
    }
    spacing
}

/// The greatest point of the grid that is not above `amount / parts`.
pub fn below(precision: u32, amount: u128, parts: u128) -> u128
    requires { IsSmall precision amount parts }
    ensures { IsBelow precision result amount parts }
{
    let spacing = spacing_at(precision, amount, parts);
    amount / (parts * spacing) * spacing
}

/// The least point of the grid that is not below `amount / parts`.
pub fn above(precision: u32, amount: u128, parts: u128) -> u128
    requires { IsSmall precision amount parts }
    ensures { IsAbove precision result amount parts }
{
    let spacing = spacing_at(precision, amount, parts);
    amount.div_ceil(parts * spacing) * spacing
}

/// Whether the mode takes the upper neighbour of a magnitude. The magnitude is `below_by` above the lower neighbour and
/// `above_by` below the upper one; `odd` says that the lower one is an odd multiple of their distance.
fn takes_above(mode: Round, negative: bool, below_by: u128, above_by: u128, odd: bool) -> bool
    ensures { result ≡ takes_above mode negative below_by above_by odd }
{
    match mode {
        Round::TowardZero => false,
        Round::TowardPositive => !negative,
        Round::TowardNegative => negative,
        Round::NearestTiesToEven => above_by < below_by || above_by == below_by && odd,
        Round::NearestTiesToAway => above_by <= below_by,
    }
}

/// The neighbour of `amount / parts` that the mode picks.
pub fn pick(precision: u32, mode: Round, negative: bool, amount: u128, parts: u128) -> u128
    requires { IsSmall precision amount parts }
    ensures { IsPick precision mode negative amount parts result }
{
    let below = below(precision, amount, parts);
    let above = above(precision, amount, parts);
    if below == above {
        return below;
    }
    let below_by = amount - below * parts;
    let above_by = above * parts - amount;
    let odd = below / (above - below) % 2 == 1;
    if takes_above(mode, negative, below_by, above_by, odd) {
        above
    } else {
        below
    }
}

/// `amount / parts`, rounded by the mode to an integer.
pub fn whole(mode: Round, negative: bool, amount: u128, parts: u128) -> u128
    requires { 0 < parts }
    ensures picked { result ≡ whole_pick mode negative amount parts }
    ensures near { result ≤ amount / parts + 1 }
{
    let below = amount / parts;
    let below_by = amount % parts;
    if below_by == 0 {
        return below;
    }
    if takes_above(mode, negative, below_by, parts - below_by, below % 2 == 1) {
        below + 1
    } else {
        below
    }
}

/// The parameters of a format that rounding needs; magnitudes are in quanta.
#[derive(Clone, Copy, Debug)]
pub struct Bounds {
    /// The number of binary digits in a significand.
    pub precision: u32,
    /// The greatest finite magnitude.
    pub largest: u128,
    /// The smallest normal magnitude.
    pub smallest_normalized: u128,
    /// Whether tininess is detected before rounding.
    pub tiny_before_rounding: bool,
    /// Whether OVERFLOW and UNDERFLOW are raised as IEEE 754-2019 7.4 and 7.5 ask.
    pub ieee_flags: bool,
    /// Which non-finite values the format has.
    pub nonfinite: NonfiniteBehavior,
}

/// The value that a rounding returns.
#[derive(Clone, Copy, Debug)]
pub enum RoundedValue {
    /// A number of this sign, in quanta.
    Finite { negative: bool, quanta: u128 },
    /// The infinity of this sign.
    Infinite { negative: bool },
    /// The NaN of this sign, in a format that has no infinity.
    NotANumber { negative: bool },
}

/// The value past the largest one.
fn past_largest(nonfinite: NonfiniteBehavior, negative: bool) -> RoundedValue
    ensures { (precision : ℕ) → datum_of nonfinite precision result
        ≡ past_largest nonfinite (nan_base_of nonfinite precision) negative }
{
    match nonfinite {
        NonfiniteBehavior::IEEE754 => RoundedValue::Infinite { negative },
        NonfiniteBehavior::NanOnly => RoundedValue::NotANumber { negative },
        NonfiniteBehavior::NanNegativeZero => RoundedValue::NotANumber { negative: false },
    }
}

/// The number with this sign and magnitude in quanta; a zero is negative only if the format has a negative zero.
fn number_of(nonfinite: NonfiniteBehavior, negative: bool, quanta: u128) -> RoundedValue
    ensures { (precision : ℕ)
        → datum_of nonfinite precision result ≡ signed_quanta nonfinite negative quanta }
{
    let unsigned_zero = quanta == 0 && nonfinite == NonfiniteBehavior::NanNegativeZero;
    RoundedValue::Finite {
        negative: negative && !unsigned_zero,
        quanta,
    }
}

/// Whether the mode delivers the value past the largest one on overflow.
fn leads_out(mode: Round, negative: bool) -> bool
    ensures { result ≡ leads_out mode negative }
{
    match mode {
        Round::TowardZero => false,
        Round::TowardPositive => !negative,
        Round::TowardNegative => negative,
        Round::NearestTiesToEven => true,
        Round::NearestTiesToAway => true,
    }
}

/// Whether the magnitude, rounded with an unbounded exponent, is below the smallest normalized value: it is if the pick
/// of twice the magnitude is below twice that value.
fn rounds_below_normal(
    precision: u32,
    mode: Round,
    negative: bool,
    amount: u128,
    parts: u128,
) -> bool
    requires { IsSmall precision amount parts }
    ensures { result ≡ rounds_below_normal precision mode negative amount parts }
{
    let least = 2u128.pow(precision);
    if 2 * amount >= least * parts {
        return false;
    }
    pick(precision, mode, negative, 2 * amount, parts) < least
}

/// Whether an inexact result is tiny, by the exact magnitude or by the rounded one, as the format says.
fn is_tiny(
    bounds: Bounds,
    mode: Round,
    negative: bool,
    amount: u128,
    parts: u128,
    picked: u128,
) -> bool
    requires small { IsSmall bounds.precision amount parts }
    requires normalized { bounds.smallest_normalized < 2 ^ 60 }
    ensures { result ≡ tiny_of bounds mode negative amount parts picked }
{
    if bounds.tiny_before_rounding {
        return amount < bounds.smallest_normalized * parts;
    }
    if bounds.ieee_flags {
        return rounds_below_normal(bounds.precision, mode, negative, amount, parts);
    }
    picked < bounds.smallest_normalized
}

/// The status of a rounding that stays within the format.
fn status_within(
    bounds: Bounds,
    mode: Round,
    negative: bool,
    amount: u128,
    parts: u128,
    picked: u128,
) -> Status
    requires small { IsSmall bounds.precision amount parts }
    requires normalized { bounds.smallest_normalized < 2 ^ 60 }
    requires picked { picked * parts < 2 ^ 128 }
    ensures exact { picked * parts ≡ amount → bits_of result ≡ ok_bits }
    ensures inexact { (picked * parts ≡ amount → ⊥)
        → bits_of result ≡ (if tiny_of bounds mode negative amount parts picked
        then underflow_bit + inexact_bit else inexact_bit) }
{
    if picked * parts == amount {
        Status::OK
    } else if is_tiny(bounds, mode, negative, amount, parts, picked) {
        Status::UNDERFLOW.union(Status::INEXACT)
    } else {
        Status::INEXACT
    }
}

/// The magnitude `amount / parts` with this sign, rounded once.
pub fn deliver(
    bounds: Bounds,
    mode: Round,
    negative: bool,
    amount: u128,
    parts: u128,
) -> StatusAnd<RoundedValue>
    requires small { IsSmall bounds.precision amount parts }
    requires normalized { bounds.smallest_normalized < 2 ^ 60 }
    ensures { (f : Format) → HasBounds f bounds
        → IsDelivered f mode negative amount parts
        (datum_of bounds.nonfinite bounds.precision result.value) (bits_of result.status) }
{
    let quanta = pick(bounds.precision, mode, negative, amount, parts);
    if quanta <= bounds.largest {
        let status = status_within(bounds, mode, negative, amount, parts, quanta);
        return status.and(number_of(bounds.nonfinite, negative, quanta));
    }
    if leads_out(mode, negative) {
        return Status::OVERFLOW
            .union(Status::INEXACT)
            .and(past_largest(bounds.nonfinite, negative));
    }
    let status = if bounds.ieee_flags {
        Status::OVERFLOW.union(Status::INEXACT)
    } else {
        Status::INEXACT
    };
    let quanta = bounds.largest;
    status.and(RoundedValue::Finite { negative, quanta })
}
