//! The exports that quantize arrays to blocks with a common scale, dequantize them, and pack their codes, declared for
//! C programs in `include/apfloat.h`.

ghost use Rattle.std.specs.Prelude.{◌≡◌, Some};
ghost use Rattle.formats_at_run_time.specs.{FlaggedKinds.flagged_kind_coded, Modes.mode_coded};
ghost use Rattle.arrays_for_c.specs.Blocks.{IsDequantizedCall, IsPackedCall, IsQuantizedCall, IsUnpackedCall};
ghost use Rattle.arrays_for_c.specs.Blocks.{array_error};
ghost use Rattle.arrays_for_c.specs.Blocks.{element_coded, known_dequantization, known_quantization, mx_coded};
ghost use Rattle.arrays_for_c.specs.Blocks.{nvfp4_coded, packing_error, rule_coded, with_rule};
ghost use Rattle.small_formats.specs.declared.blocks.ScaleRule.TheVariants.{Floor};

use crate::array_data::{ArrayAnswer, ElementCounts};
use apfloat_arrays::scaled_blocks::{ArrayError, BlockFormat, Dequantization, Quantization};
use coded_calls::codes::{
    ANSWERED, NO_SUCH_OPERATION, UNKNOWN_FORMAT, UNKNOWN_MODE, WIDE_OPERAND, WRONG_LENGTH,
};
use formats_at_run_time::{FlaggedKind, mode_coded};
use rustc_apfloat::Round;
use small_formats::blocks::{ElementFormat, ScaleRule};
use small_formats::packing::{PackingError, pack_fours, pack_sixes, unpack_fours, unpack_sixes};

/// What is joined to the code of a mode for the rule `Ceil` of scales.
const CEIL: u32 = 0x1000;

/// The same for `Even`.
const EVEN: u32 = 0x2000;

/// The element format with this code.
pub(crate) fn element_coded(code: u32) -> Option<ElementFormat>
    ensures { result ≡ element_coded code }
{
    match code {
        6 => Some(ElementFormat::E5M2),
        7 => Some(ElementFormat::E4M3FN),
        32 => Some(ElementFormat::E2M1FN),
        33 => Some(ElementFormat::E2M3FN),
        34 => Some(ElementFormat::E3M2FN),
        _ => None,
    }
}

/// The microscaling format whose elements have this code.
fn mx_coded(code: u32) -> Option<BlockFormat>
    ensures { result ≡ mx_coded code }
{
    match element_coded(code) {
        None => None,
        Some(element) => Some(BlockFormat::Mx(element)),
    }
}

/// NVFP4 with the scale of a tensor, the bits of a single.
fn nvfp4_coded(tensor: u32) -> Option<BlockFormat>
    ensures { result ≡ nvfp4_coded tensor }
{
    Some(BlockFormat::Nvfp4(tensor))
}

/// A mode of quantizing with a rule of scales.
fn with_rule(rule: ScaleRule, mode: Option<Round>) -> Option<(ScaleRule, Round)>
    ensures { result ≡ with_rule rule mode }
{
    match mode {
        None => None,
        Some(round) => Some((rule, round)),
    }
}

/// The rule of scales and the mode that are joined in this code.
fn rule_coded(code: u32) -> Option<(ScaleRule, Round)>
    ensures { result ≡ rule_coded code }
{
    if code < CEIL {
        with_rule(ScaleRule::Floor, mode_coded(code))
    } else if code < EVEN {
        with_rule(ScaleRule::Ceil, mode_coded(code - CEIL))
    } else {
        with_rule(ScaleRule::Even, mode_coded(code - EVEN))
    }
}

/// The code of an error of an array.
fn array_error(error: ArrayError) -> u32
    ensures { result ≡ array_error error }
{
    match error {
        ArrayError::EmptyBlock | ArrayError::Uneven | ArrayError::Lengths => WRONG_LENGTH,
        ArrayError::TensorScale => NO_SUCH_OPERATION,
        ArrayError::CodeTooWide => WIDE_OPERAND,
    }
}

/// The code of an error of packing.
fn packing_error(error: PackingError) -> u32
    ensures { result ≡ packing_error error }
{
    match error {
        PackingError::Uneven | PackingError::Lengths => WRONG_LENGTH,
        PackingError::CodeTooWide => WIDE_OPERAND,
    }
}

/// The quantization that these codes ask for, or the code of the first error.
fn known_quantization(
    format: u32,
    mode: Option<(ScaleRule, Round)>,
    blocks: Option<BlockFormat>,
    length: usize,
) -> Result<Quantization, u32>
    ensures { result ≡ known_quantization (flagged_kind_coded format) mode blocks length }
{
    let Some(kind) = FlaggedKind::coded(format) else {
        return Err(UNKNOWN_FORMAT);
    };
    let Some(blocks) = blocks else {
        return Err(UNKNOWN_FORMAT);
    };
    let Some((rule, round)) = mode else {
        return Err(UNKNOWN_MODE);
    };
    match kind {
        FlaggedKind::OfFormat(format) => Ok(Quantization {
            source: format.built_in(),
            format: blocks,
            rule,
            length,
            round,
        }),
        FlaggedKind::Pairs => Err(NO_SUCH_OPERATION),
    }
}

/// The dequantization that these codes ask for, or the code of the first error.
fn known_dequantization(
    blocks: Option<BlockFormat>,
    mode: u32,
    to: u32,
    length: usize,
) -> Result<Dequantization, u32>
    ensures { result ≡ known_dequantization blocks (mode_coded mode) (flagged_kind_coded to) length }
{
    let Some(blocks) = blocks else {
        return Err(UNKNOWN_FORMAT);
    };
    let Some(kind) = FlaggedKind::coded(to) else {
        return Err(UNKNOWN_FORMAT);
    };
    let Some(round) = mode_coded(mode) else {
        return Err(UNKNOWN_MODE);
    };
    match kind {
        FlaggedKind::OfFormat(target) => Ok(Dequantization {
            format: blocks,
            length,
            target,
            round,
        }),
        FlaggedKind::Pairs => Err(NO_SUCH_OPERATION),
    }
}

/// Quantizes an array, as the decoded arguments ask.
fn quantize(
    known: Result<Quantization, u32>,
    values: &[u8],
    scales: &mut [u8],
    codes: &mut [u8],
    answer: &mut ArrayAnswer,
) -> u32
    ensures { IsQuantizedCall known values.now scales.old scales.new codes.old codes.new answer.old
        answer.new result }
{
    match known {
        Err(error) => error,
        Ok(quantization) => match quantization.quantize(values, scales, codes) {
            Err(error) => array_error(error),
            Ok(counts) => {
                *answer = ArrayAnswer::of(ElementCounts {
                    counts,
                    div_by_zero: 0,
                });
                ANSWERED
            }
        },
    }
}

/// Dequantizes an array, as the decoded arguments ask.
fn dequantize(
    known: Result<Dequantization, u32>,
    scales: &[u8],
    codes: &[u8],
    results: &mut [u8],
    answer: &mut ArrayAnswer,
) -> u32
    ensures { IsDequantizedCall known scales.now codes.now results.old results.new answer.old
        answer.new result }
{
    match known {
        Err(error) => error,
        Ok(dequantization) => match dequantization.dequantize(scales, codes, results) {
            Err(error) => array_error(error),
            Ok(counts) => {
                *answer = ArrayAnswer::of(ElementCounts {
                    counts,
                    div_by_zero: 0,
                });
                ANSWERED
            }
        },
    }
}

/// Quantizes an array to blocks.
#[unsafe(no_mangle)]
pub extern "C" fn apfloat_quantize_blocks(
    format: u32,
    mode: u32,
    element: u32,
    length: usize,
    values: &[u8],
    scales: &mut [u8],
    codes: &mut [u8],
    answer: &mut ArrayAnswer,
) -> u32
    ensures { let known = known_quantization (flagged_kind_coded format) (rule_coded mode)
        (mx_coded element) length in
        IsQuantizedCall known values.now scales.old scales.new codes.old codes.new answer.old
        answer.new result }
{
    let known = known_quantization(format, rule_coded(mode), mx_coded(element), length);
    quantize(known, values, scales, codes, answer)
}

/// Quantizes an array to blocks of NVFP4.
#[unsafe(no_mangle)]
pub extern "C" fn apfloat_quantize_nvfp4(
    format: u32,
    mode: u32,
    tensor: u32,
    length: usize,
    values: &[u8],
    scales: &mut [u8],
    codes: &mut [u8],
    answer: &mut ArrayAnswer,
) -> u32
    ensures { let known = known_quantization (flagged_kind_coded format)
        (with_rule Floor (mode_coded mode)) (nvfp4_coded tensor) length in
        IsQuantizedCall known values.now scales.old scales.new codes.old codes.new answer.old
        answer.new result }
{
    let round = with_rule(ScaleRule::Floor, mode_coded(mode));
    let known = known_quantization(format, round, nvfp4_coded(tensor), length);
    quantize(known, values, scales, codes, answer)
}

/// Dequantizes: writes the product of each element and the scale of its block in the format `to`, rounded once. A block
/// has `length` elements.
#[unsafe(no_mangle)]
pub extern "C" fn apfloat_dequantize_blocks(
    element: u32,
    mode: u32,
    to: u32,
    length: usize,
    scales: &[u8],
    codes: &[u8],
    results: &mut [u8],
    answer: &mut ArrayAnswer,
) -> u32
    ensures { let known = known_dequantization (mx_coded element) (mode_coded mode)
        (flagged_kind_coded to) length in
        IsDequantizedCall known scales.now codes.now results.old results.new answer.old answer.new
        result }
{
    let known = known_dequantization(mx_coded(element), mode, to, length);
    dequantize(known, scales, codes, results, answer)
}

/// Dequantizes blocks of NVFP4: writes the product of each element and both scales, rounded once.
#[unsafe(no_mangle)]
pub extern "C" fn apfloat_dequantize_nvfp4(
    tensor: u32,
    mode: u32,
    to: u32,
    length: usize,
    scales: &[u8],
    codes: &[u8],
    results: &mut [u8],
    answer: &mut ArrayAnswer,
) -> u32
    ensures { let known = known_dequantization (nvfp4_coded tensor) (mode_coded mode)
        (flagged_kind_coded to) length in
        IsDequantizedCall known scales.now codes.now results.old results.new answer.old answer.new
        result }
{
    let known = known_dequantization(nvfp4_coded(tensor), mode, to, length);
    dequantize(known, scales, codes, results, answer)
}

/// Packs codes into bytes.
#[unsafe(no_mangle)]
pub extern "C" fn apfloat_pack_codes(element: u32, codes: &[u8], bytes: &mut [u8]) -> u32
    ensures { IsPackedCall (element_coded element) codes.now bytes.old bytes.new result }
{
    let packed = match element_coded(element) {
        None => return UNKNOWN_FORMAT,
        Some(ElementFormat::E5M2 | ElementFormat::E4M3FN) => return NO_SUCH_OPERATION,
        Some(ElementFormat::E3M2FN | ElementFormat::E2M3FN) => pack_sixes(codes, bytes),
        Some(ElementFormat::E2M1FN) => pack_fours(codes, bytes),
    };
    match packed {
        Err(error) => packing_error(error),
        Ok(()) => ANSWERED,
    }
}

/// Unpacks codes of 4 or 6 bits from bytes.
#[unsafe(no_mangle)]
pub extern "C" fn apfloat_unpack_codes(element: u32, bytes: &[u8], codes: &mut [u8]) -> u32
    ensures { IsUnpackedCall (element_coded element) bytes.now codes.old codes.new result }
{
    let unpacked = match element_coded(element) {
        None => return UNKNOWN_FORMAT,
        Some(ElementFormat::E5M2 | ElementFormat::E4M3FN) => return NO_SUCH_OPERATION,
        Some(ElementFormat::E3M2FN | ElementFormat::E2M3FN) => unpack_sixes(bytes, codes),
        Some(ElementFormat::E2M1FN) => unpack_fours(bytes, codes),
    };
    match unpacked {
        Err(error) => packing_error(error),
        Ok(()) => ANSWERED,
    }
}
