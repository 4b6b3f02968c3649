//! The second rounding of a result that was rounded to odd.

ghost use Rattle.std.specs.Prelude.{◌≡◌, ◌*◌, ◌^◌, ◌<◌, ℕ, Bool};
ghost use Rattle.apfloat_model.specs.rounding.{Flags.Gives, Flags.bits_of, Rounding.IsDelivered};
ghost use Rattle.apfloat_ieee.specs.FlaggedTypes.{format_of};
ghost use Rattle.round_to_odd.specs.{Odd.IsToOdd, Again.IsRoundedAgain, Again.HasRoomFor, Again.joined};

use apfloat_base::{Flags, FloatConvert, Round, Status, StatusAnd};
use apfloat_ieee::{Flagged, IeeeFloat};

/// A result that was rounded to odd (`to_odd`) in the format `S`, rounded to the format `T`: what one rounding of the
/// nonzero exact result to `T` gives, in value and flags, if `S` has room for it.
///
/// `S` has room if it has infinities as in IEEE 754, two digits more than `T`, a quantum of at most a quarter of that
/// of `T` (an eighth, where `T` raises UNDERFLOW as IEEE 754 asks and detects tininess after rounding), a greatest
/// exponent not below that of `T`, and the same rule of flags. Otherwise it can be wrong, as from `Half` to `BFloat`.
///
/// The flags are those of this rounding together with those of the first one, except for UNDERFLOW: the first result
/// is tiny in another format.
///
/// The clause `once` is about exact results that are fractions. It is the same with square roots
/// (`rounding_roots_again_is_rounding_once`).
///
/// A NaN, an infinity and a zero are converted as by `convert_r`: a NaN is quieted, and the infinity or the sign of the
/// zero is kept if `T` has it, and otherwise lost with INEXACT. Where an exact sum of opposite numbers takes its sign
/// from the mode (IEEE 754-2019 6.3), that is up to the caller.
pub fn round_odd_to<S: Flagged, T: Flagged>(
    first: StatusAnd<IeeeFloat<S>>,
    round: Round,
) -> StatusAnd<IeeeFloat<T>>
    ensures again { Gives (IsRoundedAgain (format_of S.Flagged) (format_of T.Flagged) round first)
        result }
    ensures once { let f = format_of S.Flagged in let g = format_of T.Flagged in
        HasRoomFor g f → (negative : Bool) (amount parts : ℕ) → 0 < amount → 0 < parts
        → Gives (IsToOdd f negative amount parts) first
        → Gives (IsDelivered g round negative (amount * 2 ^ g.scale) (parts * 2 ^ f.scale)) result }
{
    let mut loses_info = false;
    let again: StatusAnd<IeeeFloat<T>> = first.value.convert_r(round, &mut loses_info);
    joined(again.status, first.status).and(again.value)
}

/// The flags of a second rounding, and those of the first but UNDERFLOW.
fn joined(again: Status, first: Status) -> Status
    ensures { bits_of result ≡ joined (bits_of again) (bits_of first) }
{
    again.union(first.difference(Status::UNDERFLOW))
}
