//! Codes converted by a table of what each byte becomes, filled by the conversion itself, where there are more than
//! twice as many values as codes.

ghost use Rattle.std.specs.Prelude.{◌≡◌, ◌*◌, ◌^◌, ◌<◌, ◌≤◌, IsTrue, length};
ghost use Rattle.rustc_apfloat.specs.{FlaggedTypes.constants_of, Lawful.Constants};
ghost use Rattle.rustc_apfloat.specs.declared.Round.{Round as Mode};
ghost use Rattle.small_formats.specs.declared.saturation.Overflow.{Overflow as OverflowRule};
ghost use Rattle.apfloat_arrays.specs.declared.stored.formats.StoredFormat.{StoredFormat as Stored};
ghost use Rattle.apfloat_arrays.specs.{Blocks.IsBlock, Tables.IsResultTable, stored.Arrays.IsLoaded};
ghost use Rattle.apfloat_arrays.specs.stored.{Arrays.IsLoadedIn, CodeTables.AreCodeEntries, Formats.bits_in};

use crate::byte_tables::{ByteResults, PLACES, convert_by_table};
use crate::bytes::write_number;
use crate::converted::Converted;
use crate::counts::{Counts, Outcome};
use crate::each::ValueConversion;
use crate::entries::{ENTRY, byte_of};
use crate::stored::formats::StoredFormat;
use crate::tables::{Results, write_result};
use rustc_apfloat::ieee::{Flagged, IeeeFloat};
use rustc_apfloat::{Float, Round, StatusAnd};
use small_formats::saturation::Overflow;
use std::marker::PhantomData;

/// How many values it takes less time to convert one by one than to copy what codes become to all their bytes.
const FEWEST: usize = 32;

/// Whether there are enough values to fill the table, which has room for results of that many bytes.
#[inline(always)]
pub(crate) fn has_code_table(source: StoredFormat, width: usize, count: usize) -> bool
    ensures { IsTrue result → width ≤ 16 }
{
    (width <= 16) & (count >= FEWEST + 2 * codes_of(source))
}

/// How many codes a format has. The bits of a byte above those of a code are ignored.
fn codes_of(format: StoredFormat) -> usize
    ensures is { result ≡ 2 ^ bits_in format }
    ensures most { result ≤ 256 }
{
    match format {
        StoredFormat::E2M1FN => 16,
        StoredFormat::E2M3FN | StoredFormat::E3M2FN => 64,
        StoredFormat::UE4M3 => 128,
        StoredFormat::E3M4 | StoredFormat::E8M0FNU => 256,
    }
}

/// The conversion of codes to `T`.
#[derive(Drop)]
pub(crate) struct Codes<T: Flagged> {
    /// Their format.
    pub source: StoredFormat,
    /// What a number that overflows becomes.
    pub overflow: Overflow,
    /// The rounding mode.
    pub round: Round,
    /// The target format.
    pub target: PhantomData<T>,
}

impl<T: Flagged> ValueConversion for Codes<T> {
    ghost can = { λ it source target. (T.PRECISION < T.BITS) × (source ≡ 1)
        × (T.BITS ≤ 8 * target) };

    ghost gives = { λ it. IsLoadedIn it.overflow it.source (constants_of T.Flagged) it.round };

    #[inline(always)]
    fn convert(&self, input: &[u8], output: &mut [u8]) -> Outcome {
        let code = byte_of(input) as u8;
        let answer = load_code::<T>(self.source, self.overflow, self.round, code);
        write_number(answer.bits, output);
        answer.outcome
    }
}

impl<T: Flagged> Results for Codes<T> {
    ghost bits = { T.BITS };

    ghost has = { λ it place. (T.PRECISION < T.BITS) × (place < 256) };

    ghost gives = { λ it. IsLoaded it.overflow it.source (constants_of T.Flagged) it.round };

    #[inline(always)]
    fn bits() -> usize {
        T::BITS
    }

    #[inline(always)]
    fn result_in(&self, place: usize) -> Converted {
        load_code::<T>(self.source, self.overflow, self.round, place as u8)
    }

    ghost fits = { λ it place code outcome made. made.is_encoded.below };
}

impl<T: Flagged> ByteResults for Codes<T> {
    fn fill_bytes(&self, table: &mut [u8]) {
        let codes = codes_of(self.source);
        fill_codes(self, codes, table);
        copy_codes(codes, table);
    }
}

/// Converts `count` codes, each in its place.
#[inline(never)]
pub(crate) fn load_codes<T: Flagged>(
    codes: &Codes<T>,
    width: usize,
    count: usize,
    input: &[u8],
    output: &mut [u8],
) -> Counts
    requires written { T.PRECISION < T.BITS }
    requires target { T.BITS ≤ 8 * width }
    requires few { width ≤ 16 }
    requires input { length input.now ≡ count * 1 }
    requires output { length output.old ≡ count * width }
    ensures { IsBlock
        (IsLoadedIn codes.now.overflow codes.now.source (constants_of T.Flagged) codes.now.round)
        1 width count input.now output.new result }
{
    convert_by_table(codes, width, count, input, output)
}

/// Fills the other places: the bits of a byte above those of a code are ignored.
fn copy_codes(codes: usize, table: &mut [u8])
    requires codes { codes ≤ 256 }
    requires table { length table.old ≡ 256 * 8 }
    ensures { (overflow : OverflowRule) (format : Stored) (d : Constants) (mode : Mode)
        → codes ≡ 2 ^ bits_in format → AreCodeEntries overflow format d mode codes table.old
        → AreCodeEntries overflow format d mode 256 table.new }
{
    let mut entry = [0_u8; ENTRY];
    for place in codes..PLACES {
        let (like, to) = ((place - codes) * ENTRY, place * ENTRY);
        entry.copy_from_slice(&table[like..like + ENTRY]);
        let copy = &mut table[to..to + ENTRY];
        copy.copy_from_slice(&entry);
    }
}

/// Fills the places below `codes`.
fn fill_codes<T: Flagged>(results: &Codes<T>, codes: usize, table: &mut [u8])
    requires written { T.PRECISION < T.BITS }
    requires few { T.BITS ≤ 32 }
    requires codes { codes ≤ 256 }
    requires table { length table.old ≡ 256 * 8 }
    ensures { AreCodeEntries results.now.overflow results.now.source (constants_of T.Flagged)
        results.now.round codes table.new }
{
    for place in 0..codes {
        let from = place * ENTRY;
        write_result(results.result_in(place), &mut table[from..from + ENTRY]);
    }
}

/// What a byte becomes.
pub(crate) fn load_code<T: Flagged>(
    source: StoredFormat,
    overflow: Overflow,
    round: Round,
    code: u8,
) -> Converted
    requires { T.PRECISION < T.BITS }
    ensures { IsLoaded overflow source (constants_of T.Flagged) round code result.bits
        result.outcome }
{
    let mut loses_info = false;
    let answer: StatusAnd<IeeeFloat<T>> = source.load(code, overflow, round, &mut loses_info);
    Converted {
        bits: answer.value.to_bits(),
        outcome: Outcome {
            status: answer.status,
            is_nan: answer.value.is_nan(),
        },
    }
}
