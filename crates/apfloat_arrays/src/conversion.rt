//! Blocks of values from any format to any other.

ghost use Rattle.std.specs.Prelude.{◌≡◌, ◌+◌, ◌*◌, ◌/◌, ◌≤◌, length, take};
ghost use Rattle.formats_at_run_time.specs.BuiltIns.{constants_in};
ghost use Rattle.apfloat_arrays.specs.Words.{conversion_named, format_named};
ghost use Rattle.apfloat_arrays.specs.{Widths.source_width, Widths.target_width, Values.IsConvertedBy, Blocks.IsBlock};

use crate::block_call::BlockCall;
use crate::counts::Counts;
use crate::widths::{Extended, Widths, width};
use formats_at_run_time::{BuiltInFormat, BuiltInKind, mode_named};
use rustc_apfloat::Round;
use small_formats::saturation::Overflow;

/// The source and the target format, the rounding mode, and the width of a value of the x87 format.
#[derive(Clone, Copy)]
pub struct Conversion {
    /// The source format.
    pub source: BuiltInFormat,
    /// The target format.
    pub target: BuiltInFormat,
    /// The rounding mode.
    pub round: Round,
    /// The width of a value of the x87 format.
    pub extended: Extended,
}

impl Conversion {
    /// The conversion from the format of the first word to that of the second, in the mode of the third.
    pub fn named(extended: Extended, source: &str, target: &str, mode: &str) -> Option<Conversion>
        ensures { result ≡ conversion_named extended source.now target.now mode.now }
    {
        Some(Conversion {
            source: format_named(source)?,
            target: format_named(target)?,
            round: mode_named(mode)?,
            extended,
        })
    }

    /// The widths of a value in bytes, before and after its conversion.
    #[inline]
    pub fn widths(self) -> Widths
        ensures source { result.source ≡ source_width self }
        ensures target { result.target ≡ target_width self }
        ensures least { 1 ≤ result.source }
        ensures greatest { (result.source ≤ 16) × (result.target ≤ 16) }
    {
        Widths {
            source: width(self.source, self.extended),
            target: width(self.target, self.extended),
        }
    }

    /// Converts the complete values in `read`, each in its place in `written`, which must have room for them; the bytes
    /// after them are unspecified. `overflow` says what a number that overflows becomes.
    pub fn convert_by(self, overflow: Overflow, read: &[u8], written: Vec<u8>) -> ConvertedBlock
        requires { (length read.now / source_width self) * target_width self
            ≤ length written.items }
        ensures parts { let count = length read.now / source_width self in
            (result.written ≡ count * target_width self)
            × (result.left_over + count * source_width self ≡ length read.now) }
        ensures room { length result.buffer.items ≡ length written.items }
        ensures within { result.written ≤ length result.buffer.items }
        ensures block { let count = length read.now / source_width self in
            let c = constants_in self.source in let d = constants_in self.target in
            IsBlock (IsConvertedBy overflow c d self.round) (source_width self)
            (target_width self) count (take (count * source_width self) read.now)
            (take result.written result.buffer.items) result.counts }
    {
        let widths = self.widths();
        let count = read.len() / widths.source;
        let whole = count * widths.source;
        let call = BlockCall {
            conversion: self,
            overflow,
            count,
            input: &read[..whole],
            output: written,
        };
        let answer = self.source.run(call);
        ConvertedBlock {
            counts: answer.counts,
            buffer: answer.output,
            written: count * widths.target,
            left_over: read.len() - whole,
        }
    }
}

/// The outcome of converting a block.
#[derive(Drop)]
pub struct ConvertedBlock {
    /// The counts of its outcomes.
    pub counts: Counts,
    /// The buffer that was passed, which begins with the converted values.
    pub buffer: Vec<u8>,
    /// The number of bytes that the converted values take.
    pub written: usize,
    /// The number of input bytes after the last complete value.
    pub left_over: usize,
}

/// The format of this word.
fn format_named(word: &str) -> Option<BuiltInFormat>
    ensures { result ≡ format_named word.now }
{
    BuiltInKind::named(word)?.format()
}
