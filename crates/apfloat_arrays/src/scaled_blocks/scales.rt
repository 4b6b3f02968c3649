//! The greatest magnitude of a block, and its elements by a scale.

ghost use Rattle.std.specs.Prelude.{◌≡◌, ℕ, ◌+◌, ◌*◌, ◌/◌, ◌%◌, ◌^◌, ◌<◌, ◌≤◌, true, length};
ghost use Rattle.rustc_apfloat.specs.{Flags.bits_of, Types.constants_of, Types.format_of};
ghost use Rattle.apfloat_model.specs.order.{Classes.is_finite, Classes.quanta_of, Positive.IsPositive};
ghost use Rattle.formats_at_run_time.specs.ValueKinds.{value_of};
ghost use Rattle.small_formats.specs.blocks.Elements.{IsQuotientBy};
ghost use Rattle.apfloat_arrays.specs.{scaled_blocks.Values.values_in, stored.NumberCodes.IsWordFormat};
ghost use Rattle.apfloat_arrays.specs.scaled_blocks.Greatest.{AreAtMost, IsGreatest, special_bits};

use crate::bytes::{bits_in, has_width, value_at};
use crate::scaled_blocks::values::bits_at;
use crate::stored::number_codes::has_words;
use rustc_apfloat::ieee::{IeeeFloat, Semantics};
use rustc_apfloat::{Float, Round, StatusAnd};
use small_formats::blocks::{ElementFormat, greater, quotient_code};

/// A power of two.
#[inline(always)]
pub(crate) fn power_of_two(places: usize) -> u32
    requires { places < 32 }
    ensures { result ≡ 2 ^ places }
{
    1_u32 << places
}

/// The bits of +infinity.
#[inline(always)]
fn special_bits<S: Semantics>() -> u32
    requires read { S.PRECISION < S.BITS }
    requires word { IsWordFormat (constants_of S.Semantics) }
    ensures { result ≡ special_bits (constants_of S.Semantics) }
{
    power_of_two(S::BITS - 1) - power_of_two(S::PRECISION - 1)
}

/// The greatest bits of values without their signs.
#[inline(never)]
fn greatest_bits<S: Semantics>(first: usize, count: usize, bytes: &[u8]) -> u32
    requires read { S.PRECISION < S.BITS }
    requires word { IsWordFormat (constants_of S.Semantics) }
    requires within { (first + count) * (S.BITS / 8) ≤ length bytes.now }
    requires whole { S.BITS % 8 ≡ 0 }
    ensures { AreAtMost (constants_of S.Semantics)
        (values_in (constants_of S.Semantics) (S.BITS / 8) bytes.now first count) result }
{
    let width = S::BITS / 8;
    let half = power_of_two(S::BITS - 1);
    let mut greatest = 0_u32;
    for index in 0..count {
        let bits = bits_in::<S>(value_at(bytes, first + index, width));
        greatest = greatest.max(bits % half);
    }
    greatest
}

/// The greatest magnitude of values by their bits, if all of them are finite.
fn greatest_number<S: Semantics>(first: usize, count: usize, bytes: &[u8]) -> Option<IeeeFloat<S>>
    requires read { S.PRECISION < S.BITS }
    requires word { IsWordFormat (constants_of S.Semantics) }
    requires within { (first + count) * (S.BITS / 8) ≤ length bytes.now }
    requires whole { S.BITS % 8 ≡ 0 }
    ensures { let xs = values_in (constants_of S.Semantics) (S.BITS / 8) bytes.now first count in
        IsGreatest (format_of S.Semantics) xs result }
{
    let greatest = greatest_bits::<S>(first, count, bytes);
    if greatest < special_bits::<S>() {
        Some(IeeeFloat::<S>::from_bits(u128::from(greatest)))
    } else {
        None
    }
}

/// The greatest magnitude of values, if all of them are finite.
pub(crate) fn greatest_of<S: Semantics>(
    width: usize,
    first: usize,
    count: usize,
    bytes: &[u8],
) -> Option<IeeeFloat<S>>
    requires read { S.PRECISION < S.BITS }
    requires least { 1 ≤ width }
    requires few { width ≤ 16 }
    requires within { (first + count) * width ≤ length bytes.now }
    ensures { let xs = values_in (constants_of S.Semantics) width bytes.now first count in
        IsGreatest (format_of S.Semantics) xs result }
{
    if has_words::<S>() && has_width::<S>(width) {
        return greatest_number::<S>(first, count, bytes);
    }
    let mut greatest = IeeeFloat::<S>::zero();
    for index in 0..count {
        let x = IeeeFloat::<S>::from_bits(bits_at(width, first + index, bytes));
        if !x.is_finite() {
            return None;
        }
        greatest = greater(greatest, x);
    }
    Some(greatest)
}

/// The quotient of a value, given by its bits, and a scale.
pub(crate) fn quotient_of<S: Semantics, R: Semantics>(
    element: ElementFormat,
    round: Round,
    scale: IeeeFloat<R>,
    bits: u128,
) -> StatusAnd<u8>
    requires read { S.PRECISION < S.BITS }
    requires finite { is_finite (value_of (constants_of S.Semantics) bits) ≡ true }
    requires positive { IsPositive (format_of R.Semantics) scale }
    ensures { (divisor unit : ℕ) → 0 < divisor
        → divisor * 2 ^ (format_of R.Semantics).scale ≡ quanta_of scale * unit
        → IsQuotientBy element (format_of S.Semantics) round divisor unit
        (value_of (constants_of S.Semantics) bits) result.value (bits_of result.status) }
{
    let x = IeeeFloat::<S>::from_bits(bits);
    quotient_code(element, x, scale, round)
}
