//! Significands cut to the digits of a format, rounded and encoded, where the result is a normal number.

ghost use Rattle.std.specs.Prelude.{◌≡◌, ℕ, ◌+◌, ◌-◌, ◌*◌, ◌%◌, ◌^◌, ◌<◌, ◌≤◌, pos, if◌then◌else◌, IfSome};
ghost use Rattle.apfloat_model.specs.{bits.Layout.IsEncodedBy, formats.Datum.finite};
ghost use Rattle.apfloat_model.specs.rounding.{Enclosure.IsEnclosed, Flags.bits_of, Standing.StandsFor};
ghost use Rattle.apfloat_ieee.specs.FlaggedTypes.{constants_of, format_of, layout_of};
ghost use Rattle.apfloat_rounding.specs.Cuts.{loss_at};
ghost use Rattle.fast_bits.specs.{Encoded.IsEncodedNumber, Numbers.FitsWord};

use crate::encoded::Encoded;
use crate::numbers::exponents;
use apfloat_base::{ExpInt, Round, Status};
use apfloat_ieee::Flagged;
use apfloat_rounding::rounding::{moves_past, next_word_if};

/// The place, if a significand with all its digits there is a normal number, and the next one too, whatever it is.
#[inline(always)]
pub(crate) fn inner_place<S: Flagged>(place: ExpInt) -> Option<u32>
    requires { S.PRECISION < S.BITS }
    ensures { IfSome result (λ n. (pos n ≡ place) × (n + 5 ≤ 2 ^ S.EXP_BITS)) }
{
    if place < 0 {
        return None;
    }
    let inner = place as u32;
    if inner + 5 <= exponents::<S>() {
        Some(inner)
    } else {
        None
    }
}

/// The status of a rounding that cuts off a rest.
#[inline(always)]
pub(crate) fn status_of(rest: u64) -> Status
    ensures exact { rest ≡ 0 → bits_of result ≡ 0 }
    ensures inexact { (rest ≡ 0 → ⊥) → bits_of result ≡ 16 }
{
    if rest == 0 {
        Status::OK
    } else {
        Status::INEXACT
    }
}

/// 2 to the power of `exponent`, in a word.
#[inline(always)]
pub(crate) fn power_of(exponent: u32) -> u64
    requires { exponent < 64 }
    ensures value { result ≡ 2 ^ exponent }
    ensures some { 0 < result }
{
    1 << exponent
}

/// The sign bit of an encoding.
#[inline(always)]
pub(crate) fn sign_bit<S: Flagged>(negative: bool) -> u64
    requires some { 0 < S.BITS }
    requires word { S.BITS ≤ 64 }
    ensures { result ≡ (if negative then 2 ^ (S.BITS - 1) else 0) }
{
    if negative { 1 << (S::BITS - 1) } else { 0 }
}

/// The integer bit of a significand, which is also the unit of the biased exponent.
#[inline(always)]
pub(crate) fn integer_bit<S: Flagged>() -> u64
    requires some { 0 < S.PRECISION }
    requires short { S.PRECISION ≤ 59 }
    ensures { result ≡ 2 ^ (S.PRECISION - 1) }
{
    1 << (S::PRECISION - 1)
}

/// The encoding of `significand * 2^place` quanta. The integer bit, added to the place, gives the biased exponent, and
/// so does a carry to the next power of two.
#[inline(always)]
pub(crate) fn bits_at<S: Flagged>(negative: bool, significand: u64, place: u32) -> u64
    requires bits { S.PRECISION < S.BITS }
    requires word { FitsWord (constants_of S.Flagged) }
    requires full { 2 ^ (S.PRECISION - 1) ≤ significand }
    requires fits { significand ≤ 2 ^ S.PRECISION }
    requires inner { place + 5 ≤ 2 ^ S.EXP_BITS }
    ensures { IsEncodedBy (format_of S.Flagged) (layout_of S.Flagged) result
        (finite negative (significand * 2 ^ place)) }
{
    let sign = sign_bit::<S>(negative);
    let unit = integer_bit::<S>();
    sign + place as u64 * unit + significand
}

/// The encoding of `kept * 2^place` quanta and a rest below them, rounded. The lowest kept digit is `2 * half` units of
/// the rest.
#[inline(always)]
pub(crate) fn encode_cut<S: Flagged>(
    negative: bool,
    kept: u64,
    rest: u64,
    half: u64,
    place: u32,
    round: Round,
) -> Encoded
    requires bits { S.PRECISION < S.BITS }
    requires word { FitsWord (constants_of S.Flagged) }
    requires full { 2 ^ (S.PRECISION - 1) ≤ kept }
    requires fits { kept < 2 ^ S.PRECISION }
    requires half { 0 < half }
    requires inner { place + 5 ≤ 2 ^ S.EXP_BITS }
    ensures { (amount parts : ℕ) → 0 < parts
        → IsEnclosed S.PRECISION (2 ^ (S.PRECISION - 1)) kept place amount parts
        → StandsFor kept (loss_at rest half) amount (2 ^ place * parts)
        → IsEncodedNumber (constants_of S.Flagged) round negative amount parts result }
{
    let moved = moves_past(round, negative, rest, half, kept % 2 == 1);
    let picked = next_word_if(kept, moved);
    let bits = bits_at::<S>(negative, picked, place);
    Encoded {
        bits: bits as u128,
        status: status_of(rest),
    }
}
