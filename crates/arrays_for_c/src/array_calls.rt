//! The meaning of the codes and lengths that calls on arrays receive, or their first error.

ghost use Rattle.std.specs.Prelude.{◌≡◌, ◌*◌, ◌≤◌, length};
ghost use Rattle.formats_at_run_time.specs.{FlaggedKinds.flagged_kind_coded, Modes.mode_coded};
ghost use Rattle.apfloat_arrays.specs.{Blocks.IsBlock, stored.Arrays.IsConverted, stored.Arrays.widths_of};
ghost use Rattle.arrays_for_c.specs.ArrayCalls.{array_format_coded, bytes_in, conversion_between};
ghost use Rattle.arrays_for_c.specs.ArrayCalls.{conversion_mode_coded};
ghost use Rattle.arrays_for_c.specs.ArrayCalls.{conversion_widths, has_element_operation, known_array_conversion};
ghost use Rattle.arrays_for_c.specs.ArrayCalls.{known_map, lengths_fit, operands_fit, operands_of, operation_coded};
ghost use Rattle.arrays_for_c.specs.Arrays.{IsValueConverted};

use apfloat_arrays::stored::{Ends, StorageArray, StoredFormat};
use apfloat_arrays::{ArrayConversion, Counts, Extended, Widths, width};
use coded_calls::codes::{NO_SUCH_OPERATION, UNKNOWN_FORMAT, UNKNOWN_MODE, WRONG_LENGTH};
use formats_at_run_time::{Arithmetic, FlaggedFormat, FlaggedKind, mode_coded};
use rustc_apfloat::Round;
use small_formats::saturation::{FiniteNan, Overflow};

/// A rounding mode, and what an overflow gives.
#[derive(Clone, Copy)]
pub struct ConversionMode {
    /// The rounding mode.
    pub round: Round,
    /// What an overflow gives.
    pub overflow: Overflow,
}

/// A format of the values of an array.
#[derive(Clone, Copy)]
pub enum ArrayFormat {
    /// A format that all calls have, or pairs of doubles.
    OfKind(FlaggedKind),
    /// A storage format, one value a byte.
    OfStorage(StoredFormat),
}

/// A conversion of arrays.
#[derive(Clone, Copy)]
pub enum KnownConversion {
    /// Between built-in formats.
    BuiltIn(ArrayConversion),
    /// Into a storage format or out of it.
    Storage(StorageArray),
}

/// An operation on elements of arrays.
#[derive(Clone, Copy)]
pub enum ElementOperation {
    /// An operation on two values.
    OfTwo(Arithmetic),
    /// The product of two values plus a third, rounded once.
    FusedSum,
    /// The square root of a value.
    SquareRoot,
}

/// An operation on arrays.
#[derive(Clone, Copy)]
pub struct MapCall {
    /// The kind of their elements.
    pub kind: FlaggedKind,
    /// The rounding mode.
    pub round: Round,
    /// What is done with each element.
    pub operation: ElementOperation,
}

/// The mode with this code: its lowest eight bits are those of a rounding mode. The next one asks that numbers
/// saturate, the one above it, with it, that infinities do too, and the third, with both, that NaNs become the largest
/// value.
pub fn conversion_mode_coded(code: u32) -> Option<ConversionMode>
    ensures { result ≡ conversion_mode_coded code }
{
    let round = mode_coded(code % 256)?;
    match code / 256 {
        0 => Some(ConversionMode {
            round,
            overflow: Overflow::Rounded,
        }),
        1 => Some(ConversionMode {
            round,
            overflow: Overflow::Saturated,
        }),
        3 => Some(ConversionMode {
            round,
            overflow: Overflow::Finite(FiniteNan::Kept),
        }),
        7 => Some(ConversionMode {
            round,
            overflow: Overflow::Finite(FiniteNan::Largest),
        }),
        _ => None,
    }
}

/// The format of arrays with this code.
fn array_format_coded(code: u32) -> Option<ArrayFormat>
    ensures { result ≡ array_format_coded code }
{
    match FlaggedKind::coded(code) {
        Some(kind) => Some(ArrayFormat::OfKind(kind)),
        None => match StoredFormat::coded(code) {
            Some(format) => Some(ArrayFormat::OfStorage(format)),
            None => None,
        },
    }
}

/// The operation of this code.
fn operation_coded(code: u32) -> Option<ElementOperation>
    ensures { result ≡ operation_coded code }
{
    match code {
        1 => Some(ElementOperation::OfTwo(Arithmetic::Sum)),
        2 => Some(ElementOperation::OfTwo(Arithmetic::Difference)),
        3 => Some(ElementOperation::OfTwo(Arithmetic::Product)),
        4 => Some(ElementOperation::OfTwo(Arithmetic::Quotient)),
        5 => Some(ElementOperation::OfTwo(Arithmetic::NearestRemainder)),
        6 => Some(ElementOperation::OfTwo(Arithmetic::TruncatedRemainder)),
        7 => Some(ElementOperation::FusedSum),
        8 => Some(ElementOperation::SquareRoot),
        _ => None,
    }
}

/// How many bytes a value of the kind has.
pub fn bytes_in(kind: FlaggedKind) -> usize
    ensures is { result ≡ bytes_in kind }
    ensures least { 1 ≤ result }
    ensures greatest { result ≤ 16 }
{
    match kind {
        FlaggedKind::OfFormat(format) => width(format.built_in(), Extended::Packed),
        FlaggedKind::Pairs => 16,
    }
}

/// The conversion from one format to another. There is none of pairs of doubles, and none between storage formats.
fn conversion_between(
    source: ArrayFormat,
    target: ArrayFormat,
    mode: ConversionMode,
) -> Option<KnownConversion>
    ensures { result ≡ conversion_between source target mode }
{
    let ConversionMode { round, overflow } = mode;
    let ends = match (source, target) {
        (
            ArrayFormat::OfKind(FlaggedKind::OfFormat(source)),
            ArrayFormat::OfKind(FlaggedKind::OfFormat(target)),
        ) => {
            return Some(KnownConversion::BuiltIn(ArrayConversion {
                source: source.built_in(),
                target,
                round,
                overflow,
            }));
        }
        (ArrayFormat::OfKind(FlaggedKind::OfFormat(source)), ArrayFormat::OfStorage(target)) =>
            Ends::Into(source.built_in(), target),
        (ArrayFormat::OfStorage(source), ArrayFormat::OfKind(FlaggedKind::OfFormat(target))) =>
            Ends::OutOf(source, target),
        _ => return None,
    };
    Some(KnownConversion::Storage(StorageArray {
        ends,
        extended: Extended::Packed,
        round,
        overflow,
    }))
}

/// The conversion that these codes ask for, of arrays of these lengths, or the code of the first error.
pub fn known_array_conversion(
    source: u32,
    mode: u32,
    target: u32,
    given: usize,
    room: usize,
) -> Result<KnownConversion, u32>
    ensures { result ≡ known_array_conversion (array_format_coded source)
        (conversion_mode_coded mode) (array_format_coded target) given room }
{
    let Some(source) = array_format_coded(source) else {
        return Err(UNKNOWN_FORMAT);
    };
    let Some(mode) = conversion_mode_coded(mode) else {
        return Err(UNKNOWN_MODE);
    };
    let Some(target) = array_format_coded(target) else {
        return Err(UNKNOWN_FORMAT);
    };
    let Some(conversion) = conversion_between(source, target, mode) else {
        return Err(NO_SUCH_OPERATION);
    };
    let widths = conversion.widths();
    if lengths_fit(widths.source, widths.target, given, room) {
        Ok(conversion)
    } else {
        Err(WRONG_LENGTH)
    }
}

impl KnownConversion {
    /// The widths of a value in bytes, before and after its conversion.
    pub fn widths(self) -> Widths
        ensures is { result ≡ conversion_widths self }
        ensures least { (1 ≤ result.source) × (1 ≤ result.target) }
        ensures greatest { (result.source ≤ 16) × (result.target ≤ 16) }
    {
        match self {
            KnownConversion::BuiltIn(conversion) => conversion.widths(),
            KnownConversion::Storage(array) => array.widths(),
        }
    }

    /// Converts `count` values, each in its place, with memory that is lent for a table.
    pub fn convert_with(
        self,
        count: usize,
        input: &[u8],
        output: &mut [u8],
        table: &mut [u8],
    ) -> Counts
        requires input { length input.now ≡ count * (conversion_widths self).source }
        requires output { length output.old ≡ count * (conversion_widths self).target }
        ensures { IsBlock (IsValueConverted self) (conversion_widths self).source
            (conversion_widths self).target count input.now output.new result }
    {
        match self {
            KnownConversion::BuiltIn(conversion) => {
                conversion.convert_with(count, input, output, table)
            }
            KnownConversion::Storage(array) => convert_stored(array, count, input, output),
        }
    }
}

/// Converts values into a storage format or out of it, apart from the conversions of built-in formats, whose code would
/// grow by it.
#[cold]
#[inline(never)]
fn convert_stored(array: StorageArray, count: usize, input: &[u8], output: &mut [u8]) -> Counts
    requires input { length input.now ≡ count * (widths_of array).source }
    requires output { length output.old ≡ count * (widths_of array).target }
    ensures { IsBlock (IsConverted array) (widths_of array).source (widths_of array).target count
        input.now output.new result }
{
    array.convert(count, input, output)
}

/// The operation that these codes ask for, on arrays of these lengths, or the code of the first error.
pub fn known_map(
    format: u32,
    mode: u32,
    operation: u32,
    lengths: (usize, usize, usize),
    room: usize,
) -> Result<MapCall, u32>
    ensures { result ≡ known_map (flagged_kind_coded format) (mode_coded mode)
        (operation_coded operation) lengths room }
{
    let Some(kind) = FlaggedKind::coded(format) else {
        return Err(UNKNOWN_FORMAT);
    };
    let Some(round) = mode_coded(mode) else {
        return Err(UNKNOWN_MODE);
    };
    let Some(operation) = operation_coded(operation) else {
        return Err(NO_SUCH_OPERATION);
    };
    if !has_operation(kind, operation) {
        return Err(NO_SUCH_OPERATION);
    }
    let width = bytes_in(kind);
    let fits = lengths_fit(width, width, lengths.0, room);
    if fits && operands_fit(operands_of(operation), lengths) {
        Ok(MapCall {
            kind,
            round,
            operation,
        })
    } else {
        Err(WRONG_LENGTH)
    }
}

/// Whether the bytes are an integral number of values, and the output has room for as many of the other width.
pub fn lengths_fit(source: usize, target: usize, given: usize, room: usize) -> bool
    requires { (1 ≤ source) × (1 ≤ target) }
    ensures { result ≡ lengths_fit source target given room }
{
    given % source == 0 && given / source <= room / target
}

/// Whether each operand that the operation takes has as many bytes as the first, and the others have none.
fn operands_fit(operands: usize, lengths: (usize, usize, usize)) -> bool
    ensures { result ≡ operands_fit operands lengths }
{
    let (first, second, third) = lengths;
    second == (if operands >= 2 { first } else { 0 })
        && third == (if operands >= 3 { first } else { 0 })
}

/// Whether the kind has the operation.
fn has_operation(kind: FlaggedKind, operation: ElementOperation) -> bool
    ensures { result ≡ has_element_operation kind operation }
{
    match (kind, operation) {
        (FlaggedKind::Pairs, ElementOperation::FusedSum) => false,
        _ => true,
    }
}

/// How many operands it takes.
fn operands_of(operation: ElementOperation) -> usize
    ensures { result ≡ operands_of operation }
{
    match operation {
        ElementOperation::OfTwo(_) => 2,
        ElementOperation::FusedSum => 3,
        ElementOperation::SquareRoot => 1,
    }
}
