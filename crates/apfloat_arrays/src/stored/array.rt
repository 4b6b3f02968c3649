//! Conversion of arrays, in bytes that the caller lends.

ghost use Rattle.std.specs.Prelude.{◌≡◌, ◌*◌, ◌<◌, ◌≤◌, length};
ghost use Rattle.rustc_apfloat.specs.Types.{constants_of};
ghost use Rattle.formats_at_run_time.specs.FormatKinds.{IfFormat};
ghost use Rattle.apfloat_arrays.specs.{Blocks.IsBlock, Bytes.number_of};
ghost use Rattle.apfloat_arrays.specs.stored.Arrays.{IsConverted, IsLoadedIn, IsStoredIn, widths_of};
ghost use Rattle.apfloat_arrays.specs.stored.NumberArrays.{AreStorable, AreStored};

use crate::each::{ValueConversion, convert_each};
use crate::stored::code_tables::{Codes, has_code_table, load_codes};
use crate::stored::formats::StoredFormat;
use crate::stored::number_arrays::store_numbers;
use crate::{Counts, Extended, Outcome, Widths, number_of, width, write_number};
use formats_at_run_time::{BuiltInFormat, FlaggedFormat, ReadsInFormat, WritesInFormat};
use rustc_apfloat::ieee::{Flagged, IeeeFloat, Semantics};
use rustc_apfloat::{Float, Round};
use small_formats::saturation::Overflow;
use std::marker::PhantomData;

/// The source and the target format, of which one is a storage format. The rule of flags is that of the target.
#[derive(Clone, Copy)]
pub enum Ends {
    /// Into a storage format.
    Into(BuiltInFormat, StoredFormat),
    /// Out of a storage format.
    OutOf(StoredFormat, FlaggedFormat),
}

/// A conversion of arrays into a storage format or out of it. A value of a storage format takes one byte; the bits
/// above those of the format are ignored when read, and written as 0.
#[derive(Clone, Copy)]
pub struct StorageArray {
    /// The formats.
    pub ends: Ends,
    /// The width of a value of the x87 format.
    pub extended: Extended,
    /// The rounding mode.
    pub round: Round,
    /// What a number that overflows becomes.
    pub overflow: Overflow,
}

impl StorageArray {
    /// The widths of a value in bytes, before and after its conversion.
    pub fn widths(self) -> Widths
        ensures is { result ≡ widths_of self }
        ensures least { (1 ≤ result.source) × (1 ≤ result.target) }
        ensures greatest { (result.source ≤ 16) × (result.target ≤ 16) }
    {
        match self.ends {
            Ends::Into(source, _) => Widths {
                source: width(source, self.extended),
                target: 1,
            },
            Ends::OutOf(_, target) => Widths {
                source: 1,
                target: width(target.built_in(), self.extended),
            },
        }
    }

    /// Converts `count` values, each in its place.
    pub fn convert(self, count: usize, input: &[u8], output: &mut [u8]) -> Counts
        requires input { length input.now ≡ count * (widths_of self).source }
        requires output { length output.old ≡ count * (widths_of self).target }
        ensures { IsBlock (IsConverted self) (widths_of self).source (widths_of self).target count
            input.now output.new result }
    {
        let StorageArray {
            ends,
            extended,
            round,
            overflow,
        } = self;
        match ends {
            Ends::Into(source, target) => {
                let call = StoreCall {
                    target,
                    round,
                    overflow,
                    width: width(source, extended),
                    count,
                    input,
                };
                source.read(call, output)
            }
            Ends::OutOf(source, target) => {
                let call = LoadCall {
                    source,
                    round,
                    overflow,
                    width: width(target.built_in(), extended),
                    count,
                    input,
                };
                target.write(call, output)
            }
        }
    }
}

/// The call that converts an array into a storage format, made at the type of the source format.
#[derive(Clone, Copy)]
pub(crate) struct StoreCall<'a> {
    /// The storage format.
    pub target: StoredFormat,
    /// The rounding mode.
    pub round: Round,
    /// What a number that overflows becomes.
    pub overflow: Overflow,
    /// The width of a value.
    pub width: usize,
    /// The number of values.
    pub count: usize,
    /// Their bytes.
    pub input: &'a [u8],
}

/// The call that converts an array out of a storage format, made at the type of the target format.
#[derive(Clone, Copy)]
struct LoadCall<'a> {
    source: StoredFormat,
    round: Round,
    overflow: Overflow,
    width: usize,
    count: usize,
    input: &'a [u8],
}

impl ReadsInFormat for StoreCall<'_> {
    type Output = Counts;

    ghost can = { λ it kind old. (it.width ≤ 16)
        × (length it.input.now ≡ it.count * it.width)
        × (length old ≡ it.count * 1) };

    ghost gives = { λ it kind old new counts. IfFormat kind
        (λ c. IsBlock (IsStoredIn it.overflow c it.target it.round) it.width 1 it.count
        it.input.now new counts) };

    fn read_in_format<S: Semantics>(self, bytes: &mut [u8]) -> Counts {
        if let Some(counts) = store_numbers::<S>(self, bytes) {
            counts
        } else {
            store_slowly::<S>(self, bytes)
        }
    }
}

/// Converts values into a storage format, each in its place, in the general way. In line, since the fields of a call in
/// memory would be read again for each value.
#[inline(always)]
pub(crate) fn store_slowly<S: Semantics>(call: StoreCall, output: &mut [u8]) -> Counts
    requires { AreStorable (constants_of S.Semantics) call output.old }
    ensures { AreStored (constants_of S.Semantics) call.entry output.new result }
{
    let stored = Stored::<S> {
        target: call.target,
        round: call.round,
        overflow: call.overflow,
        source: PhantomData,
    };
    let widths = Widths {
        source: call.width,
        target: 1,
    };
    convert_each(&stored, widths, call.count, call.input, output)
}

impl WritesInFormat for LoadCall<'_> {
    type Output = Counts;

    ghost can = { λ it kind old. (length it.input.now ≡ it.count * 1)
        × (length old ≡ it.count * it.width)
        × IfFormat kind (λ d. d.bits ≤ 8 * it.width) };

    ghost gives = { λ it kind old new counts. IfFormat kind
        (λ d. IsBlock (IsLoadedIn it.overflow it.source d it.round) 1 it.width it.count
        it.input.now new counts) };

    fn write_in_format<T: Flagged>(self, bytes: &mut [u8]) -> Counts {
        let LoadCall {
            source,
            round,
            overflow,
            width,
            count,
            input,
        } = self;
        let codes = Codes::<T> {
            source,
            overflow,
            round,
            target: PhantomData,
        };
        if has_code_table(source, width, count) {
            return load_codes(&codes, width, count, input, bytes);
        }
        let widths = Widths {
            source: 1,
            target: width,
        };
        convert_each(&codes, widths, count, input, bytes)
    }
}

/// The conversion of values of `S` into a storage format.
#[derive(Drop)]
struct Stored<S: Semantics> {
    target: StoredFormat,
    round: Round,
    overflow: Overflow,
    source: PhantomData<S>,
}

impl<S: Semantics> ValueConversion for Stored<S> {
    ghost can = { λ it source target. (S.PRECISION < S.BITS) × (source ≤ 16) × (target ≡ 1) };

    ghost gives = { λ it. IsStoredIn it.overflow (constants_of S.Semantics) it.target it.round };

    #[inline(always)]
    fn convert(&self, input: &[u8], output: &mut [u8]) -> Outcome {
        store_value::<S>(self.target, self.round, self.overflow, input, output)
    }
}

/// Converts a value into a storage format.
pub(crate) fn store_value<S: Semantics>(
    target: StoredFormat,
    round: Round,
    overflow: Overflow,
    input: &[u8],
    output: &mut [u8],
) -> Outcome
    requires read { S.PRECISION < S.BITS }
    requires input { length input.now ≤ 16 }
    requires output { length output.old ≡ 1 }
    ensures { IsStoredIn overflow (constants_of S.Semantics) target round input.now output.new
        result }
{
    let x = IeeeFloat::<S>::from_bits(number_of(input));
    let answer = target.store(overflow, round, x);
    write_number(u128::from(answer.value), output);
    Outcome {
        status: answer.status,
        is_nan: target.is_nan(answer.value),
    }
}
