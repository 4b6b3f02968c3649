//! Numbers of at most 24 digits as codes of a storage format without infinities and NaNs, from bits to bits: with the
//! place of the number added, what is kept of its significand (`fast_bits::words`) is the code without its sign.

ghost use Rattle.std.specs.Prelude.{◌≡◌, ◌⊎◌, ◌+◌, ◌-◌, ◌*◌, ◌/◌, ◌%◌, ◌^◌, ◌<◌, ◌≤◌, min, pos, negsuc, ◌-ℤ◌, ◌≤ℤ◌};
ghost use Rattle.std.specs.Prelude.{false, not, eqb, ltb, if◌then◌else◌, IsTrue};
ghost use Rattle.std.specs.Int.RustNames.{bit_and};
ghost use Rattle.apfloat_model.specs.declared.kinds.NonfiniteBehavior.TheVariants.{IEEE754};
ghost use Rattle.rustc_apfloat.specs.FlaggedTypes.{constants_of as flagged_constants_of};
ghost use Rattle.rustc_apfloat.specs.{Flags.bits_of, Layout.datum_of};
ghost use Rattle.rustc_apfloat.specs.Types.{constants_of, format_of, layout_of};
ghost use Rattle.small_formats.specs.Conversions.{IsInto};
ghost use Rattle.small_formats.specs.Types.{constants_of as storage_constants_of};
ghost use Rattle.apfloat_arrays.specs.stored.NumberCodes.{IsCodedNumber, IsWordSource, biased_of, is_minus};
ghost use Rattle.apfloat_arrays.specs.stored.NumberCodes.{significand_of};

use fast_bits::words::{WordPlan, round_word};
use rustc_apfloat::ieee::{Flagged, NonfiniteBehavior, Semantics};
use rustc_apfloat::{Flags, Status, StatusAnd};
use small_formats::StorageFormat;

/// Whether the numbers of `S` have at most 24 digits and an implied integer bit.
#[inline(always)]
pub(crate) fn has_words<S: Flagged>() -> bool
    ensures { IsTrue result → (S.NONFINITE_BEHAVIOR ≡ IEEE754) × (S.EXPLICIT_INTEGER_BIT ≡ false)
        × (S.BITS ≤ 32) × (S.EXP_BITS ≤ 8) × (S.PRECISION ≤ 24) }
{
    (S::NONFINITE_BEHAVIOR == NonfiniteBehavior::IEEE754)
        & !S::EXPLICIT_INTEGER_BIT
        & (S::BITS <= 32)
        & (S::EXP_BITS <= 8)
        & (S::PRECISION <= 24)
}

/// Whether they have the digits of those of `F`.
#[inline(always)]
fn has_digits<S: Flagged, F: StorageFormat>() -> bool
    ensures { IsTrue result → F.PRECISION ≤ S.PRECISION }
{
    F::PRECISION <= S::PRECISION
}

/// Whether the least exponent of `S` is at least that of singles.
#[inline(always)]
fn has_exponents<S: Flagged>() -> bool
    ensures { IsTrue result → negsuc 125 ≤ℤ S.MIN_EXP }
{
    S::MIN_EXP >= -126
}

/// Whether it is at most that of `F`.
#[inline(always)]
fn is_finer<S: Flagged, F: StorageFormat>() -> bool
    ensures { IsTrue result → S.MIN_EXP ≤ℤ F.MIN_EXP }
{
    S::MIN_EXP <= F::MIN_EXP
}

/// Whether the numbers of `S` become codes of `F` here.
#[inline(always)]
pub(crate) fn is_word_source<S: Flagged, F: StorageFormat>() -> bool
    ensures { IsTrue result
        → IsWordSource (flagged_constants_of S.Flagged) (storage_constants_of F.StorageFormat) }
{
    has_words::<S>() & has_digits::<S, F>() & has_exponents::<S>() & is_finer::<S, F>()
}

/// How many digits are below the last kept one.
#[inline(always)]
pub(crate) fn digits_below<S: Semantics, F: StorageFormat>() -> u32
    requires { IsWordSource (constants_of S.Semantics) (storage_constants_of F.StorageFormat) }
    ensures is { result ≡ S.PRECISION - F.PRECISION + 32 }
    ensures some { 32 ≤ result }
    ensures most { result ≤ 56 }
{
    (S::PRECISION - F::PRECISION) as u32 + 32
}

/// The biased exponent.
#[inline(always)]
fn biased_in<S: Semantics>(bits: u32) -> u32
    requires digits { S.PRECISION ≤ 24 }
    requires exp_bits { S.EXP_BITS ≤ 8 }
    ensures is { result ≡ biased_of (constants_of S.Semantics) bits }
    ensures below { result < 256 }
{
    let unit = 1_u32 << (S::PRECISION - 1);
    let exponents = 1_u32 << S::EXP_BITS;
    bits / unit % exponents
}

/// Whether the bits are those of a number.
#[inline(always)]
pub(crate) fn is_number<S: Semantics>(bits: u32) -> bool
    requires digits { S.PRECISION ≤ 24 }
    requires exp_bits { S.EXP_BITS ≤ 8 }
    ensures { result ≡ not (eqb (biased_of (constants_of S.Semantics) bits) (2 ^ S.EXP_BITS - 1)) }
{
    biased_in::<S>(bits) != (1_u32 << S::EXP_BITS) - 1
}

/// The significand with its integer bit, which denormal numbers lack.
#[inline(always)]
fn significand_in<S: Semantics>(bits: u32, biased: u32) -> u32
    requires digits { S.PRECISION ≤ 24 }
    requires biased { biased ≡ biased_of (constants_of S.Semantics) bits }
    ensures is { result ≡ significand_of (constants_of S.Semantics) bits }
    ensures below { result < 2 ^ S.PRECISION }
{
    let unit = 1_u32 << (S::PRECISION - 1);
    bits % unit + biased.min(1) * unit
}

/// Whether the sign is minus.
#[inline(always)]
fn is_minus_in<S: Semantics>(bits: u32) -> bool
    requires some { 1 ≤ S.BITS }
    requires word { S.BITS ≤ 32 }
    ensures { result ≡ is_minus (constants_of S.Semantics) bits }
{
    bits / (1_u32 << (S::BITS - 1)) % 2 == 1
}

/// The place of the numbers of `S` from which on a code has all its digits.
#[inline(always)]
pub(crate) fn first_place<S: Flagged, F: StorageFormat>() -> u32
    requires { IsWordSource (flagged_constants_of S.Flagged) (storage_constants_of F.StorageFormat) }
    ensures is { pos result ≡ F.MIN_EXP -ℤ S.MIN_EXP }
    ensures below { result ≤ 126 }
{
    (F::MIN_EXP - S::MIN_EXP) as u32
}

/// What a place adds to a code.
#[inline(always)]
fn placed<F: StorageFormat>(place: u32) -> u32
    requires { place < 256 }
    ensures is { result ≡ place * 2 ^ (F.PRECISION - 1) }
    ensures below { result < 2 ^ 15 }
{
    place << (F::PRECISION - 1)
}

/// How many codes have no sign.
#[inline(always)]
pub(crate) fn unsigned_codes<F: StorageFormat>() -> u32
    ensures is { result ≡ 2 ^ (F.BITS - 1) }
    ensures most { result ≤ 128 }
{
    1_u32 << (F::BITS - 1)
}

/// How many of them have not all digits.
#[inline(always)]
pub(crate) fn denormal_codes<F: StorageFormat>() -> u32
    ensures { result ≡ 2 ^ (F.PRECISION - 1) }
{
    1_u32 << (F::PRECISION - 1)
}

/// The code of a magnitude's number, or of the largest one for what is past it, with the sign.
#[inline(always)]
fn code_of<F: StorageFormat>(negative: bool, index: u32, most: u32) -> u8
    requires { most < 2 ^ (F.BITS - 1) }
    ensures { result ≡ (if negative then 2 ^ (F.BITS - 1) else 0) + min index most }
{
    let sign = if negative { unsigned_codes::<F>() } else { 0 };
    (sign + index.min(most)) as u8
}

/// The flags of a number past the largest one.
#[inline(always)]
fn status_past(leads_out: bool) -> Status
    ensures { bits_of result ≡ (if leads_out then 20 else 16) }
{
    if leads_out {
        Status::OVERFLOW.union(Status::INEXACT)
    } else {
        Status::INEXACT
    }
}

/// The flags of a number that is not.
#[inline(always)]
fn status_within(exact: bool, tiny: bool) -> Status
    ensures { bits_of result ≡ (if exact then 0 else (if tiny then 24 else 16)) }
{
    if exact {
        return Status::OK;
    }
    if tiny {
        Status::UNDERFLOW.union(Status::INEXACT)
    } else {
        Status::INEXACT
    }
}

/// The flags of a number that is rounded to the one with that number, if the largest one has the number `most`.
#[inline(always)]
fn status_of<F: StorageFormat>(leads_out: bool, index: u32, exact: bool, most: u32) -> Status
    ensures { bits_of result ≡ (if ltb most index then (if leads_out then 20 else 16)
        else (if exact then 0 else (if ltb index (2 ^ (F.PRECISION - 1)) then 24 else 16))) }
{
    if index > most {
        return status_past(leads_out);
    }
    status_within(exact, index < denormal_codes::<F>())
}

/// The code of a number, rounded once, if a code has all its digits from the place `first` of the numbers of `S` on and
/// the largest one has the number `most`.
#[inline(always)]
pub(crate) fn code_number<S: Semantics, F: StorageFormat>(
    plan: WordPlan,
    first: u32,
    most: u32,
    bits: u32,
) -> StatusAnd<u8>
    requires read { S.PRECISION < S.BITS }
    requires source { IsWordSource (constants_of S.Semantics)
        (storage_constants_of F.StorageFormat) }
    requires low { plan.low ≡ S.PRECISION - F.PRECISION + 32 }
    requires most { most < 2 ^ (F.BITS - 1) }
    ensures { IsCodedNumber (constants_of S.Semantics) (storage_constants_of F.StorageFormat)
        plan.round first most bits result.value (bits_of result.status) }
{
    let biased = biased_in::<S>(bits);
    let significand = significand_in::<S>(bits, biased);
    let place = biased.saturating_sub(1);
    let negative = is_minus_in::<S>(bits);
    let low = digits_below::<S, F>();
    let rounded = round_word(plan, low, negative, significand, place, first);
    let index = rounded.kept + placed::<F>(place.saturating_sub(first));
    let status = status_of::<F>(rounded.leads_out, index, rounded.exact, most);
    status.and(code_of::<F>(negative, index, most))
}

/// The code of a number, rounded once.
#[inline(always)]
pub(crate) fn store_number<S: Semantics, F: StorageFormat>(
    plan: WordPlan,
    bits: u32,
) -> StatusAnd<u8>
    requires read { S.PRECISION < S.BITS }
    requires source { IsWordSource (constants_of S.Semantics)
        (storage_constants_of F.StorageFormat) }
    requires low { plan.low ≡ S.PRECISION - F.PRECISION + 32 }
    requires number { (biased_of (constants_of S.Semantics) bits ≡ 2 ^ S.EXP_BITS - 1) → ⊥ }
    ensures stored { IsInto (storage_constants_of F.StorageFormat) (format_of S.Semantics) plan.round
        (datum_of (format_of S.Semantics) (layout_of S.Semantics) bits) result.value
        (bits_of result.status) (not (eqb (bits_of result.status) 0)) }
    ensures below { result.value < 2 ^ F.BITS }
    ensures past { (bit_and (bits_of result.status) 4 ≡ 0)
        ⊎ (result.value ≡ (if is_minus (constants_of S.Semantics) bits then 2 ^ (F.BITS - 1) else 0)
        + (2 ^ (F.BITS - 1) - 1)) }
{
    let most = unsigned_codes::<F>() - 1;
    code_number::<S, F>(plan, first_place::<S, F>(), most, bits)
}
