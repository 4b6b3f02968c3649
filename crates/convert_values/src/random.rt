//! Conversions of streams that random digits round.

ghost use Rattle.std.specs.Prelude.{◌≡◌, ◌*◌, ◌/◌, ◌^◌, ◌<◌, ◌≤◌, length};
ghost use Rattle.formats_at_run_time.specs.FormatKinds.{IfFormat};
ghost use Rattle.apfloat_arrays.specs.stored.Formats.{bits_in as stored_bits};
ghost use Rattle.convert_values.specs.RandomWidths.{bits_in, random_widths};

use crate::random_numbers::mode_at;
use apfloat_arrays::stored::StoredFormat;
use apfloat_arrays::{
    Converted, ConvertedBlock, Counts, Extended, Outcome, Widths, number_of, width, write_number,
};
use formats_at_run_time::{BuiltInFormat, BuiltInKind, InFormat};
use rustc_apfloat::ieee::{IeeeFloat, Semantics};
use rustc_apfloat::{Float, StatusAnd};
use small_formats::saturation::{Overflow, ValueClass, treat};
use small_formats::stochastic::{convert_by, e3m4_by, unsigned_by};
use small_formats::{
    ConversionRound, E2M1FN, E2M3FN, E3M2FN, E8M0FNU, NanResult, StorageFormat, StoredFloat,
};

/// A format into which random digits round.
#[derive(Clone, Copy)]
pub enum RandomTarget {
    /// A built-in format.
    BuiltIn(BuiltInFormat),
    /// A storage format.
    Stored(StoredFormat),
}

impl RandomTarget {
    /// The format of this word, if random digits round into it.
    pub fn named(word: &str) -> Option<RandomTarget> {
        match StoredFormat::named(word) {
            Some(format) => Some(RandomTarget::Stored(format)),
            None => Some(RandomTarget::BuiltIn(BuiltInKind::named(word)?.format()?)),
        }
    }
}

/// A conversion of a stream, each value of which is rounded with random digits of its own.
#[derive(Clone, Copy)]
pub struct RandomConversion {
    /// The source format.
    pub source: BuiltInFormat,
    /// The target format.
    pub target: RandomTarget,
    /// The width of a value of the x87 format.
    pub extended: Extended,
    /// What a number that overflows becomes.
    pub overflow: Overflow,
    /// The seed of the random numbers.
    pub seed: u64,
}

impl RandomConversion {
    /// The widths of a value in bytes, before and after its conversion.
    pub fn widths(self) -> Widths
        ensures is { result ≡ random_widths self }
        ensures least { (1 ≤ result.source) × (1 ≤ result.target) }
        ensures greatest { (result.source ≤ 16) × (result.target ≤ 16) }
    {
        let source = width(self.source, self.extended);
        match self.target {
            RandomTarget::BuiltIn(format) => Widths {
                source,
                target: width(format, self.extended),
            },
            RandomTarget::Stored(_) => Widths { source, target: 1 },
        }
    }

    /// Converts the complete values in `read`, each in its place in `written`, which must have room for them. The first
    /// has that position in the stream.
    pub fn convert(self, first: u64, read: &[u8], written: Vec<u8>) -> ConvertedBlock
        requires { (length read.now / (random_widths self).source) * (random_widths self).target
            ≤ length written.items }
        ensures room { length result.buffer.items ≡ length written.items }
        ensures within { result.written ≤ length result.buffer.items }
    {
        let widths = self.widths();
        let count = read.len() / widths.source;
        let whole = count * widths.source;
        let filled = count * widths.target;
        let mut buffer = written;
        let front = &mut buffer.as_mut_slice()[..filled];
        let counts = self.convert_each(first, widths, count, &read[..whole], front);
        ConvertedBlock {
            counts,
            buffer,
            written: filled,
            left_over: read.len() - whole,
        }
    }

    /// Converts `count` values, each in its place.
    fn convert_each(
        self,
        first: u64,
        widths: Widths,
        count: usize,
        input: &[u8],
        output: &mut [u8],
    ) -> Counts
        requires widths { widths ≡ random_widths self }
        requires input { length input.now ≡ count * widths.source }
        requires output { length output.old ≡ count * widths.target }
    {
        let mut counts = Counts::NONE;
        for index in 0..count {
            let (from, to) = (index * widths.source, index * widths.target);
            let source = &input[from..from + widths.source];
            let target = &mut output[to..to + widths.target];
            let mode = mode_at(self.seed, first.wrapping_add(index as u64));
            counts.add(counted(self.convert_value(mode, source, target)));
        }
        counts
    }

    /// Converts one value.
    fn convert_value(self, mode: ConversionRound, input: &[u8], output: &mut [u8]) -> Outcome
        requires input { length input.now ≡ (random_widths self).source }
        requires output { length output.old ≡ (random_widths self).target }
    {
        let answer = self.source.run(FromCall {
            target: self.target,
            overflow: self.overflow,
            mode,
            bits: number_of(input),
        });
        write_number(answer.bits, output);
        answer.outcome
    }
}

/// The counts of one value.
fn counted(outcome: Outcome) -> Counts {
    let mut counts = Counts::NONE;
    counts.count(outcome);
    counts
}

/// The call that converts a value, made at the type of the source format.
#[derive(Clone, Copy)]
struct FromCall {
    target: RandomTarget,
    overflow: Overflow,
    mode: ConversionRound,
    bits: u128,
}

impl InFormat for FromCall {
    type Output = Converted;

    ghost gives = { λ it kind answer. answer.bits < 2 ^ bits_in it.target };

    fn in_format<S: Semantics>(self) -> Converted {
        let x = IeeeFloat::<S>::from_bits(self.bits);
        let (mode, overflow) = (self.mode, self.overflow);
        match self.target {
            RandomTarget::BuiltIn(format) => format.run(IntoCall { x, mode, overflow }),
            RandomTarget::Stored(format) => as_stored(format, x, mode, overflow),
        }
    }
}

/// The call that converts a value of the format `S`, made at the type of the target format.
#[derive(Drop)]
struct IntoCall<S: Semantics> {
    x: IeeeFloat<S>,
    mode: ConversionRound,
    overflow: Overflow,
}

impl<S: Semantics> InFormat for IntoCall<S> {
    type Output = Converted;

    ghost gives = { λ it kind answer. IfFormat kind (λ d. answer.bits < 2 ^ d.bits) };

    fn in_format<T: Semantics>(self) -> Converted {
        let IntoCall { x, mode, overflow } = self;
        let mut loses_info = false;
        let own: StatusAnd<IeeeFloat<T>> = convert_by(x, mode, &mut loses_info);
        let class = ValueClass::of(x.category());
        let answer = treat(overflow, class, x.is_negative(), own, &mut loses_info);
        Converted {
            bits: answer.value.to_bits(),
            outcome: Outcome {
                status: answer.status,
                is_nan: answer.value.is_nan(),
            },
        }
    }
}

/// A value as a code of the element format `F`.
fn element<S: Semantics, F: StorageFormat>(x: IeeeFloat<S>, mode: ConversionRound) -> StatusAnd<u8>
    ensures { result.value < 2 ^ F.BITS }
{
    let mut loses_info = false;
    let answer = StoredFloat::<F>::from_value_by(x, mode, NanResult::Zero, &mut loses_info);
    answer.status.and(answer.value.to_bits())
}

/// A value as a code of a storage format, rounded once.
fn code_by<S: Semantics>(
    format: StoredFormat,
    x: IeeeFloat<S>,
    mode: ConversionRound,
) -> StatusAnd<u8>
    ensures { result.value < 2 ^ stored_bits format }
{
    let mut loses_info = false;
    match format {
        StoredFormat::E2M1FN => element::<S, E2M1FN>(x, mode),
        StoredFormat::E2M3FN => element::<S, E2M3FN>(x, mode),
        StoredFormat::E3M2FN => element::<S, E3M2FN>(x, mode),
        StoredFormat::E3M4 => {
            let answer = e3m4_by(x, mode, &mut loses_info);
            answer.status.and(answer.value.to_bits())
        }
        StoredFormat::E8M0FNU => {
            let answer = E8M0FNU::from_value_by(x, mode, &mut loses_info);
            answer.status.and(answer.value.to_bits())
        }
        StoredFormat::UE4M3 => {
            let answer = unsigned_by(x, mode, &mut loses_info);
            answer.status.and(answer.value.to_bits())
        }
    }
}

/// A value as a code of a storage format, rounded once, with this treatment of overflow, and its outcome.
fn as_stored<S: Semantics>(
    format: StoredFormat,
    x: IeeeFloat<S>,
    mode: ConversionRound,
    overflow: Overflow,
) -> Converted
    ensures { result.bits < 2 ^ stored_bits format }
{
    let own = code_by(format, x, mode);
    let class = ValueClass::of(x.category());
    let answer = format.treated(overflow, class, x.is_negative(), own);
    Converted {
        bits: u128::from(answer.value),
        outcome: Outcome {
            status: answer.status,
            is_nan: format.is_nan(answer.value),
        },
    }
}
