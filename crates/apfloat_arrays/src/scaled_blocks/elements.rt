//! The elements of a block with a scale that is a power of two. Numbers of at most 24 digits become codes from bits to
//! bits: their quotients have the same digits.

ghost use Rattle.std.specs.Prelude.{◌≡◌, ◌+◌, ◌-◌, ◌*◌, ◌<◌, length, pos, ◌+ℤ◌, ◌-ℤ◌};
ghost use Rattle.rustc_apfloat.specs.Types.{constants_of};
ghost use Rattle.small_formats.specs.Types.{constants_of as storage_constants_of};
ghost use Rattle.apfloat_arrays.specs.scaled_blocks.Elements.{AreElements, AreQuotable, IsCodedIn};
ghost use Rattle.apfloat_arrays.specs.stored.NumberCodes.{IsWordSource};

use crate::bytes::{bits_in, has_width, value_at};
use crate::scaled_blocks::digits::{E4M3Digits, E5M2Digits};
use crate::scaled_blocks::quantizing::write_codes;
use crate::stored::number_codes::{code_number, digits_below, first_place, is_word_source};
use fast_bits::words::word_plan;
use rustc_apfloat::Round;
use rustc_apfloat::ieee::{BFloatS, Semantics};
use small_formats::blocks::{Counts, ElementFormat, power_of};
use small_formats::{E2M1FN, E2M3FN, E3M2FN, StorageFormat};

/// The values of a block, their scale, and what they become.
#[derive(Clone, Copy)]
pub(crate) struct Quotients<'a> {
    /// The format of the elements.
    pub element: ElementFormat,
    /// The rounding mode.
    pub round: Round,
    /// The code of the scale.
    pub scale: u8,
    /// How many bytes a value takes.
    pub width: usize,
    /// The index of the first value.
    pub first: usize,
    /// The bytes of all values.
    pub values: &'a [u8],
}

/// Writes the quotients of values by the scale as elements.
pub(crate) fn write_elements<S: Semantics>(call: Quotients, codes: &mut [u8]) -> Counts
    requires { AreQuotable (constants_of S.Semantics) call (length codes.old) }
    ensures { AreElements (constants_of S.Semantics) call.entry (length codes.old) codes.new
        result }
{
    match call.element {
        ElementFormat::E5M2 => write_in::<S, E5M2Digits>(call, 0x7b, codes),
        ElementFormat::E4M3FN => write_in::<S, E4M3Digits>(call, 0x7e, codes),
        ElementFormat::E3M2FN => write_in::<S, E3M2FN>(call, 0x1f, codes),
        ElementFormat::E2M3FN => write_in::<S, E2M3FN>(call, 0x1f, codes),
        ElementFormat::E2M1FN => write_in::<S, E2M1FN>(call, 0x7, codes),
    }
}

/// `write_elements` with the digits of `F`, if the code of the largest element is `most`.
fn write_in<S: Semantics, F: StorageFormat>(call: Quotients, most: u32, codes: &mut [u8]) -> Counts
    requires coded { IsCodedIn call.element (storage_constants_of F.StorageFormat) most }
    requires given { AreQuotable (constants_of S.Semantics) call (length codes.old) }
    ensures { AreElements (constants_of S.Semantics) call.entry (length codes.old) codes.new
        result }
{
    if is_word_source::<S, F>() && has_width::<S>(call.width) {
        let place = first_place::<S, F>() + u32::from(call.scale);
        // Below that, a denormal value can have a quotient with all digits.
        if place >= 127 {
            return write_numbers::<S, F>(call, place - 127, most, codes);
        }
    }
    write_codes::<S, BFloatS>(
        call.element,
        call.round,
        call.width,
        call.first,
        power_of(call.scale),
        call.values,
        codes,
    )
}

/// The same from bits to bits, if quotients have all digits of a code from the place `first` of the values on.
#[inline(never)]
fn write_numbers<S: Semantics, F: StorageFormat>(
    call: Quotients,
    first: u32,
    most: u32,
    codes: &mut [u8],
) -> Counts
    requires source { IsWordSource (constants_of S.Semantics)
        (storage_constants_of F.StorageFormat) }
    requires coded { IsCodedIn call.element (storage_constants_of F.StorageFormat) most }
    requires given { AreQuotable (constants_of S.Semantics) call (length codes.old) }
    requires width { 8 * call.width ≡ S.BITS }
    requires first { pos (first + 127) ≡ (F.MIN_EXP -ℤ S.MIN_EXP) +ℤ pos call.scale }
    ensures { AreElements (constants_of S.Semantics) call.entry (length codes.old) codes.new
        result }
{
    let plan = word_plan(digits_below::<S, F>(), call.round);
    let width = S::BITS / 8;
    let mut counts = Counts::NONE;
    for index in 0..codes.len() {
        let bits = bits_in::<S>(value_at(call.values, call.first + index, width));
        let answer = code_number::<S, F>(plan, first, most, bits);
        codes[index] = answer.value;
        counts = counts.with(answer.status);
    }
    counts
}
