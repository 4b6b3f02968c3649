//! The conversions of streams: between built-in formats, into a storage format or out of it, into blocks or out of
//! them, or with random digits.

ghost use Rattle.std.specs.Prelude.{◌≡◌, ◌*◌, ◌/◌, ◌≤◌, length};
ghost use Rattle.apfloat_arrays.specs.stored.Arrays.{widths_of};
ghost use Rattle.convert_values.specs.StreamWidths.{stream_widths};

use crate::blocks::BlockConversion;
use crate::random::{RandomConversion, RandomTarget};
use apfloat_arrays::stored::{Ends, StorageArray, StoredFormat};
use apfloat_arrays::{Conversion, ConvertedBlock, Extended, Widths};
use formats_at_run_time::{BuiltInFormat, BuiltInKind, FlaggedFormat, mode_named};
use small_formats::saturation::Overflow;

/// A conversion of a stream.
#[derive(Clone, Copy)]
pub enum StreamConversion {
    /// Between built-in formats; the second field says what a number that overflows becomes.
    BuiltIn(Conversion, Overflow),
    /// Into a storage format or out of it.
    Stored(StorageArray),
    /// Into blocks or out of them.
    Blocks(BlockConversion),
    /// With random digits.
    Random(RandomConversion),
}

/// The built-in format of this word.
fn built_in_named(word: &str) -> Option<BuiltInFormat> {
    BuiltInKind::named(word)?.format()
}

/// The formats of these words, if one of them names a storage format and the other a built-in one.
fn ends_named(source: &str, target: &str) -> Option<Ends> {
    match StoredFormat::named(source) {
        Some(stored) => {
            let target = built_in_named(target)?;
            Some(Ends::OutOf(stored, FlaggedFormat::BuiltIn(target)))
        }
        None => {
            let source = built_in_named(source)?;
            Some(Ends::Into(source, StoredFormat::named(target)?))
        }
    }
}

impl StreamConversion {
    /// The conversion from the format of the first word to that of the second, in the mode of the third.
    pub fn named(
        extended: Extended,
        overflow: Overflow,
        source: &str,
        target: &str,
        mode: &str,
    ) -> Option<StreamConversion> {
        if let Some(conversion) = Conversion::named(extended, source, target, mode) {
            return Some(StreamConversion::BuiltIn(conversion, overflow));
        }
        Some(StreamConversion::Stored(StorageArray {
            ends: ends_named(source, target)?,
            extended,
            round: mode_named(mode)?,
            overflow,
        }))
    }

    /// The conversion with random digits from the format of the first word to that of the second.
    pub fn random(
        extended: Extended,
        overflow: Overflow,
        seed: u64,
        source: &str,
        target: &str,
    ) -> Option<StreamConversion> {
        Some(StreamConversion::Random(RandomConversion {
            source: built_in_named(source)?,
            target: RandomTarget::named(target)?,
            extended,
            overflow,
            seed,
        }))
    }

    /// How many values are converted together: those of a block, or one.
    pub fn values_together(self) -> usize
        ensures { 1 ≤ result }
    {
        match self {
            StreamConversion::Blocks(blocks) => blocks.form.length,
            StreamConversion::BuiltIn(_, _)
            | StreamConversion::Stored(_)
            | StreamConversion::Random(_) => 1,
        }
    }

    /// What is converted together.
    pub fn unit(self) -> &'static str {
        match self {
            StreamConversion::Blocks(_) => "block",
            StreamConversion::BuiltIn(_, _)
            | StreamConversion::Stored(_)
            | StreamConversion::Random(_) => "value",
        }
    }

    /// The widths in bytes of what is converted together, before and after its conversion.
    pub fn widths(self) -> Widths
        ensures is { result ≡ stream_widths self }
        ensures least { 1 ≤ result.source }
        ensures greatest { (result.source ≤ 16384) × (result.target ≤ 16384) }
    {
        match self {
            StreamConversion::BuiltIn(conversion, _) => conversion.widths(),
            StreamConversion::Stored(array) => array.widths(),
            StreamConversion::Blocks(blocks) => blocks.widths(),
            StreamConversion::Random(conversion) => conversion.widths(),
        }
    }

    /// Converts the complete values or blocks in `read`, each in its place in `written`, which must have room for them.
    /// The first value has that position in the stream.
    pub fn convert(self, first: u64, read: &[u8], written: Vec<u8>) -> ConvertedBlock
        requires { (length read.now / (stream_widths self).source) * (stream_widths self).target
            ≤ length written.items }
        ensures room { length result.buffer.items ≡ length written.items }
        ensures within { result.written ≤ length result.buffer.items }
    {
        match self {
            StreamConversion::BuiltIn(conversion, overflow) => {
                conversion.convert_by(overflow, read, written)
            }
            StreamConversion::Stored(array) => convert_block(array, read, written),
            StreamConversion::Blocks(blocks) => blocks.convert(read, written),
            StreamConversion::Random(conversion) => conversion.convert(first, read, written),
        }
    }
}

/// Converts the complete values in `read`, by arrays.
fn convert_block(array: StorageArray, read: &[u8], written: Vec<u8>) -> ConvertedBlock
    requires { (length read.now / (widths_of array).source) * (widths_of array).target
        ≤ length written.items }
    ensures room { length result.buffer.items ≡ length written.items }
    ensures within { result.written ≤ length result.buffer.items }
{
    let widths = array.widths();
    let count = read.len() / widths.source;
    let whole = count * widths.source;
    let filled = count * widths.target;
    let mut buffer = written;
    let front = &mut buffer.as_mut_slice()[..filled];
    let counts = array.convert(count, &read[..whole], front);
    ConvertedBlock {
        counts,
        buffer,
        written: filled,
        left_over: read.len() - whole,
    }
}
