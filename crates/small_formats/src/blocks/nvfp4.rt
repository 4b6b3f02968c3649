//! Blocks of NVFP4: elements `E2M1FN`, a scale `Float8E4M3FN` for each block, and a single for the whole tensor.

ghost use Rattle.std.specs.Prelude.{◌≡◌, ◌<◌, ◌≤◌, length};
ghost use Rattle.apfloat_model.specs.formats.{Formats.single_constants, Lawful.format_with};
ghost use Rattle.apfloat_model.specs.{order.Classes.quanta_of, order.Positive.IsPositive, rounding.Flags.bits_of};
ghost use Rattle.apfloat_ieee.specs.FlaggedTypes.{format_of as flagged_format_of};
ghost use Rattle.apfloat_ieee.specs.Types.{format_of};
ghost use Rattle.small_formats.specs.blocks.Nvfp4.{IsNvBlock, IsNvDequantized, IsNvQuantized, IsNvScaled};

use crate::blocks::counts::Counts;
use crate::blocks::elements::{ElementFormat, product_of};
use crate::blocks::magnitudes::{are_finite, greatest_of};
use crate::blocks::mx::{Block, write_quotients, write_zeros};
use crate::blocks::nvfp4_errors::Nvfp4Error;
use crate::blocks::nvfp4_scales::{is_positive, nvfp4_scale};
use crate::packing::are_narrow;
use apfloat_base::{Float, Round, Status, StatusAnd};
use apfloat_ieee::built_in_formats::{DoubleS, Float8E4M3FN, Float8E4M3FNS, Single, SingleS};
use apfloat_ieee::format_of::multiply;
use apfloat_ieee::{Flagged, IeeeFloat, Semantics};

/// How many elements a block has in NVFP4; the calls here take any number.
pub const NVFP4_BLOCK: usize = 16;

/// The code of the NaN.
const NAN_SCALE: u8 = 127;

/// A block with as many codes as values.
fn quantize_some<S: Semantics>(
    values: &[IeeeFloat<S>],
    tensor: Single,
    round: Round,
    codes: &mut [u8],
) -> Block
    requires lengths { length codes.old ≡ length values.now }
    requires tensor { IsPositive (format_with single_constants) tensor }
    ensures { IsNvBlock (format_of S.Semantics) round (quanta_of tensor) values.now codes.new
        result }
{
    if !are_finite(values) {
        write_zeros(codes);
        return Block {
            scale: NAN_SCALE,
            counts: Counts::NONE,
            is_finite: false,
        };
    }
    let (scale, divisor) = nvfp4_scale(greatest_of(values), tensor, round);
    let counts = write_quotients(ElementFormat::E2M1FN, values, divisor, round, codes);
    Block {
        scale,
        counts,
        is_finite: true,
    }
}

/// Quantizes a block of NVFP4: chooses its scale, and writes the code of each value, in the lowest bits of a byte.
///
/// The scale is the greatest magnitude of the block divided by 6 and by the scale of the tensor, rounded once in the
/// mode, and at most the largest number of `Float8E4M3FN`; where it would be 0 it is the least positive number, and 0
/// only for a block of zeros. An element is the exact quotient by the product of both scales, rounded once, and the
/// largest number in place of what is past it, in each mode; a zero keeps its sign. If a value is an infinity or a NaN,
/// the scale is the NaN, and each code is 0.
///
/// # Errors
///
/// `Empty` if there are no values, `Lengths` if there are not as many codes as values, `TensorScale` if that scale is
/// not a positive number. Nothing is written then.
pub fn quantize_nvfp4_block<S: Semantics>(
    values: &[IeeeFloat<S>],
    tensor: Single,
    round: Round,
    codes: &mut [u8],
) -> Result<Block, Nvfp4Error>
    ensures { IsNvQuantized (format_of S.Semantics) round tensor values.now codes.old codes.new
        result }
{
    if values.is_empty() {
        return Err(Nvfp4Error::Empty);
    }
    if codes.len() != values.len() {
        return Err(Nvfp4Error::Lengths);
    }
    if !is_positive(tensor) {
        return Err(Nvfp4Error::TensorScale);
    }
    Ok(quantize_some(values, tensor, round, codes))
}

/// An element times both scales, rounded once.
pub fn nvfp4_scaled<G: Flagged>(
    scale: u8,
    tensor: Single,
    code: u8,
    round: Round,
) -> StatusAnd<IeeeFloat<G>>
    requires code { code < 16 }
    requires scale { scale ≤ 127 }
    requires tensor { IsPositive (format_with single_constants) tensor }
    ensures { IsNvScaled (flagged_format_of G.Flagged) round (quanta_of tensor) scale code
        result.value (bits_of result.status) }
{
    if scale == NAN_SCALE {
        return Status::OK.and(IeeeFloat::qnan(None));
    }
    // `Double` has this product.
    let element = product_of::<DoubleS, SingleS>(
        ElementFormat::E2M1FN,
        code,
        tensor,
        Round::NearestTiesToEven,
    );
    let scale = Float8E4M3FN::from_bits(u128::from(scale));
    multiply::<G, DoubleS, Float8E4M3FNS>(element.value, scale, round)
}

/// Dequantizes a block of NVFP4: writes the exact product of each element and both scales, rounded once, with the flags
/// of that rounding. If the scale is the NaN, each value is the quiet NaN without a payload.
///
/// # Errors
///
/// `Empty` if there are no codes, `Lengths` if there are not as many values as codes, `TensorScale` if that scale is
/// not a positive number, `BlockScale` if the scale of the block has a sign, `CodeTooWide` if a code has more than 4
/// bits. Nothing is written then.
pub fn dequantize_nvfp4_block<G: Flagged>(
    scale: u8,
    codes: &[u8],
    tensor: Single,
    round: Round,
    values: &mut [IeeeFloat<G>],
) -> Result<Counts, Nvfp4Error>
    ensures { IsNvDequantized (flagged_format_of G.Flagged) round tensor scale codes.now values.old
        values.new result }
{
    if codes.is_empty() {
        return Err(Nvfp4Error::Empty);
    }
    if values.len() != codes.len() {
        return Err(Nvfp4Error::Lengths);
    }
    if !is_positive(tensor) {
        return Err(Nvfp4Error::TensorScale);
    }
    if scale > NAN_SCALE {
        return Err(Nvfp4Error::BlockScale);
    }
    if !are_narrow(4, codes) {
        return Err(Nvfp4Error::CodeTooWide);
    }
    let mut counts = Counts::NONE;
    for index in 0..codes.len() {
        let answer = nvfp4_scaled::<G>(scale, tensor, codes[index], round);
        values[index] = answer.value;
        counts = counts.with(answer.status);
    }
    Ok(counts)
}
