//! Dequantizing: arrays of values from the scales and element codes of blocks.

ghost use Rattle.std.specs.Prelude.{◌≡◌, ◌*◌, ◌<◌, ◌≤◌, IfSome, Ok, length};
ghost use Rattle.rustc_apfloat.specs.FlaggedTypes.{constants_of};
ghost use Rattle.small_formats.specs.Types.{constants_of as storage_constants_of};
ghost use Rattle.apfloat_arrays.specs.{Calls.at_format, scaled_blocks.Dequantized.AreDequantized};
ghost use Rattle.apfloat_arrays.specs.scaled_blocks.Dequantized.{IsDequantizedArray, IsScaledCode, width_out};
ghost use Rattle.apfloat_arrays.specs.scaled_blocks.Formats.{AreNarrow, HasScale, IsNarrow};
ghost use Rattle.apfloat_arrays.specs.scaled_blocks.{Lengths.blocks_in, Products.IsCodedAs};

use crate::bytes::has_width;
use crate::scaled_blocks::digits::{E4M3Digits, E5M2Digits};
use crate::scaled_blocks::errors::ArrayError;
use crate::scaled_blocks::formats::BlockFormat;
use crate::scaled_blocks::lengths::blocks_in;
use crate::scaled_blocks::products::product_bits;
use crate::stored::number_codes::has_words;
use crate::{Counts, Extended, Outcome, width, write_number};
use formats_at_run_time::{FlaggedFormat, WritesInFormat};
use rustc_apfloat::ieee::Flagged;
use rustc_apfloat::{Float, Round};
use small_formats::blocks::ElementFormat;
use small_formats::{E2M1FN, E2M3FN, E3M2FN, StorageFormat};

/// How blocks become values.
#[derive(Clone, Copy)]
pub struct Dequantization {
    /// The format of the blocks.
    pub format: BlockFormat,
    /// How many elements a block has.
    pub length: usize,
    /// The format of the values, with its rule of flags.
    pub target: FlaggedFormat,
    /// The rounding mode.
    pub round: Round,
}

impl Dequantization {
    /// Writes the product of each element and the scale of its block, and in NVFP4 of the tensor, rounded once, each in
    /// the bytes of its bits, lowest first. A block is what `dequantize_block` or `dequantize_nvfp4_block` makes of it.
    ///
    /// Returns the number of values, of those whose rounding raised each flag, and of the NaNs.
    ///
    /// # Errors
    ///
    /// `EmptyBlock` if blocks have no elements, `Uneven` if their length does not divide the number of values,
    /// `Lengths` if the values end inside one, or there are not as many codes as values and scales as blocks,
    /// `TensorScale` if that scale is not a positive number, `CodeTooWide` if a code has more bits than the element
    /// format, or a scale of NVFP4 has a sign. Nothing is written then.
    pub fn dequantize(
        self,
        scales: &[u8],
        codes: &[u8],
        values: &mut [u8],
    ) -> Result<Counts, ArrayError>
        ensures { let blocks = blocks_in self.format self.length (width_out self)
            (length values.old) (length scales.now) (length codes.now) in
            IsDequantizedArray self blocks scales.now codes.now values.old values.new result }
    {
        let width = width(self.target.built_in(), Extended::Packed);
        let (count, many) = (values.len(), codes.len());
        match blocks_in(self.format, self.length, width, count, scales.len(), many) {
            Err(error) => Err(error),
            Ok(_) => self.dequantize_each(width, scales, codes, values),
        }
    }

    /// `dequantize` of arrays whose lengths fit together.
    fn dequantize_each(
        self,
        width: usize,
        scales: &[u8],
        codes: &[u8],
        values: &mut [u8],
    ) -> Result<Counts, ArrayError>
        requires format { HasScale self.format }
        requires width { width ≡ width_out self }
        requires codes { length codes.now ≡ length scales.now * self.length }
        requires values { length values.old ≡ length codes.now * width }
        ensures { IsDequantizedArray self (Ok (length scales.now)) scales.now codes.now values.old
            values.new result }
    {
        if !self.format.are_narrow(scales, codes) {
            return Err(ArrayError::CodeTooWide);
        }
        let call = ScaledCall {
            dequantization: self,
            width,
            scales,
            codes,
        };
        Ok(self.target.write(call, values))
    }
}

/// The call that multiplies elements by their scales, made at the type of the products.
#[derive(Clone, Copy)]
struct ScaledCall<'a> {
    dequantization: Dequantization,
    width: usize,
    scales: &'a [u8],
    codes: &'a [u8],
}

impl WritesInFormat for ScaledCall<'_> {
    type Output = Counts;

    ghost can = { λ it kind old.
        (length it.codes.now ≡ length it.scales.now * it.dequantization.length)
        × HasScale it.dequantization.format
        × AreNarrow it.dequantization.format it.scales.now it.codes.now
        × (length old ≡ length it.codes.now * it.width)
        × at_format kind (λ d. d.bits ≤ 8 * it.width) };

    ghost gives = { λ it kind old new counts.
        at_format kind (λ d. AreDequantized it.dequantization d it.width it.scales.now it.codes.now new
        counts) };

    fn write_in_format<T: Flagged>(self, bytes: &mut [u8]) -> Counts {
        if has_words::<T>() {
            if let BlockFormat::Mx(element) = self.dequantization.format {
                return match element {
                    ElementFormat::E5M2 => write_each::<T, E5M2Digits>(self, Some(0x7b), bytes),
                    ElementFormat::E4M3FN => write_each::<T, E4M3Digits>(self, Some(0x7e), bytes),
                    ElementFormat::E3M2FN => write_each::<T, E3M2FN>(self, Some(0x1f), bytes),
                    ElementFormat::E2M3FN => write_each::<T, E2M3FN>(self, Some(0x1f), bytes),
                    ElementFormat::E2M1FN => write_each::<T, E2M1FN>(self, Some(0x7), bytes),
                };
            }
        }
        write_each::<T, E2M1FN>(self, None, bytes)
    }
}

/// Writes the products of elements and scales, from code to bits if the digits of elements are those of `F` and the
/// largest one has the code `most`.
#[inline(never)]
fn write_each<T: Flagged, F: StorageFormat>(
    call: ScaledCall,
    most: Option<u32>,
    bytes: &mut [u8],
) -> Counts
    requires written { T.PRECISION < T.BITS }
    requires coded { IfSome most
        (IsCodedAs call.dequantization.format (storage_constants_of F.StorageFormat)) }
    requires can { (length call.codes.now ≡ length call.scales.now * call.dequantization.length)
        × HasScale call.dequantization.format
        × AreNarrow call.dequantization.format call.scales.now call.codes.now
        × (length bytes.old ≡ length call.codes.now * call.width)
        × (T.BITS ≤ 8 * call.width) }
    ensures { AreDequantized call.entry.dequantization (constants_of T.Flagged) call.entry.width
        call.entry.scales.now call.entry.codes.now bytes.new result }
{
    let Dequantization {
        format,
        length,
        round,
        ..
    } = call.dequantization;
    let mut counts = Counts::NONE;
    for index in 0..call.codes.len() {
        let from = index * call.width;
        let place = &mut bytes[from..from + call.width];
        let (scale, code) = (call.scales[index / length], call.codes[index]);
        counts.count(write_one::<T, F>(format, most, scale, code, round, place));
    }
    counts
}

/// Writes the product of an element and a scale, from code to bits if it is a number of `T`.
#[inline(always)]
fn write_one<T: Flagged, F: StorageFormat>(
    format: BlockFormat,
    most: Option<u32>,
    scale: u8,
    code: u8,
    round: Round,
    bytes: &mut [u8],
) -> Outcome
    requires coded { IfSome most (IsCodedAs format (storage_constants_of F.StorageFormat)) }
    requires format { HasScale format }
    requires code { IsNarrow format scale code }
    requires written { T.PRECISION < T.BITS }
    requires bytes { T.BITS ≤ 8 * length bytes.old }
    ensures { IsScaledCode format (constants_of T.Flagged) round scale code bytes.new result }
{
    if has_width::<T>(bytes.len()) {
        if let Some(most) = most {
            if let Some(bits) = product_bits::<T, F>(scale, code, most) {
                write_number(u128::from(bits), bytes);
                return Outcome::EXACT;
            }
        }
    }
    write_scaled::<T>(format, scale, code, round, bytes)
}

/// The same for any product.
#[inline(never)]
fn write_scaled<T: Flagged>(
    format: BlockFormat,
    scale: u8,
    code: u8,
    round: Round,
    bytes: &mut [u8],
) -> Outcome
    requires format { HasScale format }
    requires code { IsNarrow format scale code }
    requires written { T.PRECISION < T.BITS }
    requires bytes { T.BITS ≤ 8 * length bytes.old }
    ensures { IsScaledCode format (constants_of T.Flagged) round scale code bytes.new result }
{
    let answer = format.scaled::<T>(scale, code, round);
    write_number(answer.value.to_bits(), bytes);
    Outcome {
        status: answer.status,
        is_nan: answer.value.is_nan(),
    }
}
