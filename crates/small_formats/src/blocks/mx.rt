//! Blocks of the microscaling formats (OCP Microscaling Formats 1.0): elements, and one scale that is a power of two.

ghost use Rattle.std.specs.Prelude.{◌≡◌, ℕ, ◌+◌, ◌*◌, ◌^◌, ◌<◌, ◌≤◌, true, false, length, replicate};
ghost use Rattle.apfloat_model.specs.{rounding.Flags.bits_of, order.Positive.IsPositive, order.Classes.quanta_of};
ghost use Rattle.apfloat_ieee.specs.FlaggedTypes.{format_of as flagged_format_of};
ghost use Rattle.apfloat_ieee.specs.Types.{format_of};
ghost use Rattle.small_formats.specs.Scales.{largest_code, scale_format};
ghost use Rattle.small_formats.specs.blocks.{Elements.IsQuotientBy, Elements.width, Magnitudes.are_finite};
ghost use Rattle.small_formats.specs.blocks.MxBlocks.{IsBlockBy, IsDequantized, IsQuantized, IsQuantizedBy, IsScaled};
ghost use Rattle.small_formats.specs.blocks.Places.{AreCounted};

use crate::blocks::counts::Counts;
use crate::blocks::elements::{ElementFormat, product_of, quotient_code};
use crate::blocks::errors::BlockError;
use crate::blocks::magnitudes::{are_finite, greatest_of};
use crate::blocks::mx_scales::{ScaleRule, power_of, scale_by};
use crate::packing::are_narrow;
use apfloat_base::{Float, Round, Status, StatusAnd};
use apfloat_ieee::{Flagged, IeeeFloat, Semantics};

/// How many elements a block has in each format of that specification; the calls here take any number.
pub const BLOCK: usize = 32;

/// The code of the NaN.
const NAN_SCALE: u8 = 255;

/// A block beside its elements.
#[derive(Clone, Copy, PartialEq, Eq, Debug)]
pub struct Block {
    /// The code of the scale: of `E8M0FNU`, or of `Float8E4M3FN` in NVFP4.
    pub scale: u8,
    /// How many elements raised each flag.
    pub counts: Counts,
    /// Whether no value was an infinity or a NaN.
    pub is_finite: bool,
}

/// Writes the quotients by a positive value as elements.
pub(crate) fn write_quotients<S: Semantics, R: Semantics>(
    element: ElementFormat,
    values: &[IeeeFloat<S>],
    y: IeeeFloat<R>,
    round: Round,
    codes: &mut [u8],
) -> Counts
    requires lengths { length codes.old ≡ length values.now }
    requires finite { are_finite values.now ≡ true }
    requires positive { IsPositive (format_of R.Semantics) y }
    ensures { (divisor unit : ℕ) → 0 < divisor
        → divisor * 2 ^ (format_of R.Semantics).scale ≡ quanta_of y * unit
        → AreCounted (IsQuotientBy element (format_of S.Semantics) round divisor unit) values.now
        codes.new result }
{
    let mut counts = Counts::NONE;
    for index in 0..values.len() {
        let answer = quotient_code(element, values[index], y, round);
        codes[index] = answer.value;
        counts = counts.with(answer.status);
    }
    counts
}

/// Writes zeros.
pub(crate) fn write_zeros(codes: &mut [u8])
    ensures { codes.new ≡ replicate (length codes.old) 0 }
{
    codes.fill(0);
}

/// A block with as many codes as values.
pub(crate) fn quantize_some<S: Semantics>(
    rule: ScaleRule,
    element: ElementFormat,
    values: &[IeeeFloat<S>],
    round: Round,
    codes: &mut [u8],
) -> Block
    requires { length codes.old ≡ length values.now }
    ensures { IsBlockBy rule element (format_of S.Semantics) round values.now codes.new result }
{
    if !are_finite(values) {
        write_zeros(codes);
        return Block {
            scale: NAN_SCALE,
            counts: Counts::NONE,
            is_finite: false,
        };
    }
    let scale = scale_by(rule, element, greatest_of(values));
    let counts = write_quotients(element, values, power_of(scale), round, codes);
    Block {
        scale,
        counts,
        is_finite: true,
    }
}

/// Quantizes a block: chooses its scale, and writes the code of each value, in the lowest bits of a byte.
///
/// The scale is 2 to the power of the greatest exponent of the values less that of the largest number of the element
/// format, clamped to the scales that there are (6.3); that of zeros is the least one. An element is the exact quotient
/// by the scale, rounded once, and the largest number in place of what is past it, in each mode; a zero keeps its sign.
/// If a value is an infinity or a NaN, the scale is the NaN, and each code is 0.
///
/// # Errors
///
/// `Empty` if there are no values, `Lengths` if there are not as many codes as values. Nothing is written then.
pub fn quantize_block<S: Semantics>(
    element: ElementFormat,
    values: &[IeeeFloat<S>],
    round: Round,
    codes: &mut [u8],
) -> Result<Block, BlockError>
    ensures { IsQuantized element (format_of S.Semantics) round values.now codes.old codes.new
        result }
{
    quantize_block_by(ScaleRule::Floor, element, values, round, codes)
}

/// `quantize_block` with a scale by that rule.
///
/// # Errors
///
/// Those of `quantize_block`.
pub fn quantize_block_by<S: Semantics>(
    rule: ScaleRule,
    element: ElementFormat,
    values: &[IeeeFloat<S>],
    round: Round,
    codes: &mut [u8],
) -> Result<Block, BlockError>
    ensures { IsQuantizedBy rule element (format_of S.Semantics) round values.now codes.old
        codes.new result }
{
    if values.is_empty() {
        return Err(BlockError::Empty);
    }
    if codes.len() != values.len() {
        return Err(BlockError::Lengths);
    }
    Ok(quantize_some(rule, element, values, round, codes))
}

/// An element times the scale with that code, rounded once.
pub fn scaled<G: Flagged>(
    element: ElementFormat,
    scale: u8,
    code: u8,
    round: Round,
) -> StatusAnd<IeeeFloat<G>>
    requires { code < 2 ^ width element }
    ensures { IsScaled element (flagged_format_of G.Flagged) round scale code result.value
        (bits_of result.status) }
{
    if scale == NAN_SCALE {
        return Status::OK.and(IeeeFloat::qnan(None));
    }
    product_of(element, code, power_of(scale), round)
}

/// Dequantizes a block: writes the product of each element and the scale, rounded once, with the flags of that
/// rounding.
///
/// Infinities and NaNs of the formats of 8 bits are multiplied as by any positive number. If the scale is the NaN, each
/// value is the quiet NaN without a payload.
///
/// # Errors
///
/// `Empty` if there are no codes, `Lengths` if there are not as many values as codes, `CodeTooWide` if a code has more
/// bits than the element format. Nothing is written then.
pub fn dequantize_block<G: Flagged>(
    element: ElementFormat,
    scale: u8,
    codes: &[u8],
    round: Round,
    values: &mut [IeeeFloat<G>],
) -> Result<Counts, BlockError>
    ensures { IsDequantized element (flagged_format_of G.Flagged) round scale codes.now values.old
        values.new result }
{
    if codes.is_empty() {
        return Err(BlockError::Empty);
    }
    if values.len() != codes.len() {
        return Err(BlockError::Lengths);
    }
    if !are_narrow(element.bits(), codes) {
        return Err(BlockError::CodeTooWide);
    }
    let mut counts = Counts::NONE;
    for index in 0..codes.len() {
        let answer = scaled::<G>(element, scale, codes[index], round);
        values[index] = answer.value;
        counts = counts.with(answer.status);
    }
    Ok(counts)
}
