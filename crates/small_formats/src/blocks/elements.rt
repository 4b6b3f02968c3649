//! Elements: the formats that a block may have, quotients as elements, and products with a scale.

ghost use Rattle.std.specs.Prelude.{◌≡◌, ◌≢◌, ℕ, ◌+◌, ◌*◌, ◌^◌, ◌<◌, ◌≤◌, eqb, true, false, pos, Bool};
ghost use Rattle.apfloat_model.specs.{arithmetic.Exact.product_sign, formats.Datum.Datum, formats.Datum.finite};
ghost use Rattle.apfloat_model.specs.{formats.Format.largest, order.Classes.is_finite};
ghost use Rattle.apfloat_model.specs.order.{Classes.is_negative, Classes.quanta_of, Positive.IsPositive};
ghost use Rattle.apfloat_model.specs.rounding.{Flags.Gives, Flags.bits_of, Rounding.IsDelivered, Rounding.zero_sign};
ghost use Rattle.apfloat_model.specs.bits.Layout.{datum_of as bits_datum};
ghost use Rattle.apfloat_arithmetic.specs.other_formats.{Extended.seen, Extended.number, FormatOf.IsProductOf};
ghost use Rattle.apfloat_ieee.specs.FlaggedTypes.{format_of as flagged_format_of};
ghost use Rattle.apfloat_ieee.specs.Types.{format_of, layout_of};
ghost use Rattle.small_formats.specs.{Codes.datum_of, Quotients.IsRatioOf};
ghost use Rattle.small_formats.specs.Storage.{format_with as stored_format};
ghost use Rattle.small_formats.specs.Types.{constants_of as stored_constants};
ghost use Rattle.small_formats.specs.blocks.Elements.{IsElement, IsElementIn, IsSaturatedIn, element_datum};
ghost use Rattle.small_formats.specs.blocks.Elements.{format_of_element, max_exp, power_code, width};

use crate::{E2M1FN, E2M3FN, E3M2FN, StorageFormat, StoredFloat};
use apfloat_base::{ExpInt, Float, FloatConvert, Round, StatusAnd};
use apfloat_ieee::built_in_formats::{Float8E4M3FNS, Float8E5M2S, HalfS};
use apfloat_ieee::format_of::{divide, multiply};
use apfloat_ieee::{Flagged, IeeeFloat, Semantics};

/// The format of the elements of a block (OCP Microscaling Formats 1.0, 5.3).
#[derive(Clone, Copy, PartialEq, Eq, Debug)]
pub enum ElementFormat {
    /// MXFP8, and `Float8E5M2`.
    E5M2,
    /// MXFP8, and `Float8E4M3FN`.
    E4M3FN,
    /// MXFP6.
    E3M2FN,
    /// MXFP6.
    E2M3FN,
    /// MXFP4.
    E2M1FN,
}

impl ElementFormat {
    /// How many bits a code has.
    pub fn bits(self) -> u32
        ensures value { result ≡ width self }
        ensures few { result ≤ 8 }
    {
        match self {
            ElementFormat::E5M2 => 8,
            ElementFormat::E4M3FN => 8,
            ElementFormat::E3M2FN => 6,
            ElementFormat::E2M3FN => 6,
            ElementFormat::E2M1FN => 4,
        }
    }

    /// The exponent of the largest number, from its integer bit.
    pub fn max_exp(self) -> ExpInt
        ensures value { result ≡ pos (max_exp self) }
        ensures few { max_exp self ≤ 15 }
    {
        match self {
            ElementFormat::E5M2 => 15,
            ElementFormat::E4M3FN => 8,
            ElementFormat::E3M2FN => 4,
            ElementFormat::E2M3FN => 2,
            ElementFormat::E2M1FN => 2,
        }
    }

    /// The code of 2 to the power of `max_exp`.
    pub(crate) fn power_code(self) -> u8
        ensures { result ≡ power_code self }
    {
        match self {
            ElementFormat::E5M2 => 0x78,
            ElementFormat::E4M3FN => 0x78,
            ElementFormat::E3M2FN => 0x1c,
            ElementFormat::E2M3FN => 0x18,
            ElementFormat::E2M1FN => 0x6,
        }
    }
}

// ---- quotients

/// A finite value, or the largest one of that sign in place of what is past it.
fn saturated<T: Semantics>(value: IeeeFloat<T>, negative: bool) -> IeeeFloat<T>
    ensures finite { is_finite value ≡ true → result ≡ value }
    ensures past { is_finite value ≡ false
        → result ≡ finite negative (largest (format_of T.Semantics)) }
{
    if value.is_finite() {
        return value;
    }
    let largest = IeeeFloat::<T>::largest();
    if negative { -largest } else { largest }
}

/// The quotient of a finite value and a positive one, rounded once, and the largest number in place of what is past it.
pub(crate) fn saturated_quotient<T: Semantics, S: Semantics, R: Semantics>(
    x: IeeeFloat<S>,
    y: IeeeFloat<R>,
    round: Round,
) -> StatusAnd<IeeeFloat<T>>
    requires signed { (negative : Bool)
        → zero_sign (format_of T.Semantics).nonfinite negative ≡ negative }
    requires finite { is_finite x ≡ true }
    requires positive { IsPositive (format_of R.Semantics) y }
    ensures { let g = format_of T.Semantics in (amount parts : ℕ) → 0 < parts
        → IsRatioOf (format_of S.Semantics) (format_of R.Semantics) g x y amount parts
        → Gives (IsSaturatedIn g round (is_negative x) amount parts) result }
{
    let answer = divide::<T, S, R>(x, y, round);
    answer.status.and(saturated(answer.value, x.is_negative()))
}

/// `saturated_quotient` as a code of a format of 8 bits.
fn ieee_quotient<T: Semantics, S: Semantics, R: Semantics>(
    x: IeeeFloat<S>,
    y: IeeeFloat<R>,
    round: Round,
) -> StatusAnd<u8>
    requires bits { T.BITS ≤ 8 }
    requires read { T.PRECISION < T.BITS }
    requires signed { (negative : Bool)
        → zero_sign (format_of T.Semantics).nonfinite negative ≡ negative }
    requires finite { is_finite x ≡ true }
    requires positive { IsPositive (format_of R.Semantics) y }
    ensures code { let g = format_of T.Semantics in (amount parts : ℕ) → 0 < parts
        → IsRatioOf (format_of S.Semantics) (format_of R.Semantics) g x y amount parts
        → Gives (IsElementIn g (bits_datum g (layout_of T.Semantics)) round (is_negative x) amount
        parts) result }
    ensures below { result.value < 2 ^ T.BITS }
{
    let answer = saturated_quotient::<T, S, R>(x, y, round);
    answer.status.and(answer.value.to_bits() as u8)
}

/// The quotient of a finite value and a positive one, saturated, as a code of a storage format.
fn stored_quotient<F: StorageFormat, S: Semantics, R: Semantics>(
    x: IeeeFloat<S>,
    y: IeeeFloat<R>,
    round: Round,
) -> StatusAnd<u8>
    requires finite { is_finite x ≡ true }
    requires positive { IsPositive (format_of R.Semantics) y }
    ensures code { let c = stored_constants F.StorageFormat in (amount parts : ℕ) → 0 < parts
        → IsRatioOf (format_of S.Semantics) (format_of R.Semantics) (stored_format c) x y amount
        parts
        → Gives (IsElementIn (stored_format c) (datum_of c) round (is_negative x) amount parts)
        result }
    ensures below { result.value < 2 ^ F.BITS }
{
    let answer = StoredFloat::<F>::from_quotient(x, y, round);
    answer.status.and(answer.value.to_bits())
}

/// The quotient of a finite value and a positive one as an element, rounded once and saturating.
#[inline(always)]
pub fn quotient_code<S: Semantics, R: Semantics>(
    element: ElementFormat,
    x: IeeeFloat<S>,
    y: IeeeFloat<R>,
    round: Round,
) -> StatusAnd<u8>
    requires finite { is_finite x ≡ true }
    requires positive { IsPositive (format_of R.Semantics) y }
    ensures code { let g = format_of_element element in (amount parts : ℕ) → 0 < parts
        → IsRatioOf (format_of S.Semantics) (format_of R.Semantics) g x y amount parts
        → Gives (IsElement element round (is_negative x) amount parts) result }
    ensures below { result.value < 2 ^ width element }
{
    match element {
        ElementFormat::E5M2 => ieee_quotient::<Float8E5M2S, S, R>(x, y, round),
        ElementFormat::E4M3FN => ieee_quotient::<Float8E4M3FNS, S, R>(x, y, round),
        ElementFormat::E3M2FN => stored_quotient::<E3M2FN, S, R>(x, y, round),
        ElementFormat::E2M3FN => stored_quotient::<E2M3FN, S, R>(x, y, round),
        ElementFormat::E2M1FN => stored_quotient::<E2M1FN, S, R>(x, y, round),
    }
}

// ---- products

/// An element of a storage format as a half, which has each of its numbers.
fn half_of<F: StorageFormat>(code: u8) -> IeeeFloat<HalfS>
    requires bits { code < 2 ^ F.BITS }
    requires precise { F.PRECISION ≤ 11 }
    requires quantum { (stored_format (stored_constants F.StorageFormat)).scale ≤ 24 }
    requires room { let f = stored_format (stored_constants F.StorageFormat) in
        f.span + f.precision + 24 ≤ f.scale + 40 }
    ensures { let c = stored_constants F.StorageFormat in
        (result ≡ finite (is_negative (datum_of c code)) (quanta_of result))
        × (quanta_of result * 2 ^ (stored_format c).scale ≡ quanta_of (datum_of c code) * 2 ^ 24) }
{
    let mut loses_info = false;
    StoredFloat::<F>::from_bits(code)
        .convert_r::<HalfS>(Round::NearestTiesToEven, &mut loses_info)
        .value
}

/// An element times a positive value, rounded once (IEEE 754-2019 5.4.1, formatOf-multiplication).
pub(crate) fn product_of<G: Flagged, R: Semantics>(
    element: ElementFormat,
    code: u8,
    y: IeeeFloat<R>,
    round: Round,
) -> StatusAnd<IeeeFloat<G>>
    requires code { code < 2 ^ width element }
    requires positive { IsPositive (format_of R.Semantics) y }
    ensures { let g = flagged_format_of G.Flagged in (amount places : ℕ)
        → amount * 2 ^ (format_of R.Semantics).scale ≡ quanta_of y * 2 ^ places
        → Gives (IsProductOf g round (seen (format_of_element element) g
        (element_datum element code)) (number false amount places)) result }
{
    match element {
        ElementFormat::E5M2 => {
            let x = IeeeFloat::<Float8E5M2S>::from_bits(u128::from(code));
            multiply::<G, Float8E5M2S, R>(x, y, round)
        }
        ElementFormat::E4M3FN => {
            let x = IeeeFloat::<Float8E4M3FNS>::from_bits(u128::from(code));
            multiply::<G, Float8E4M3FNS, R>(x, y, round)
        }
        ElementFormat::E3M2FN => multiply::<G, HalfS, R>(half_of::<E3M2FN>(code), y, round),
        ElementFormat::E2M3FN => multiply::<G, HalfS, R>(half_of::<E2M3FN>(code), y, round),
        ElementFormat::E2M1FN => multiply::<G, HalfS, R>(half_of::<E2M1FN>(code), y, round),
    }
}
