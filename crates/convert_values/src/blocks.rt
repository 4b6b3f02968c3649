//! Streams of blocks with a common scale: values are quantized to them, or taken out of them.

ghost use Rattle.std.specs.Prelude.{◌≡◌, ◌+◌, ◌*◌, ◌/◌, ◌≤◌, length, take};

use crate::block_form::{BlockForm, LONGEST, scale_in};
use apfloat_arrays::scaled_blocks::{Dequantization, Quantization};
use apfloat_arrays::{ConvertedBlock, Counts, Extended, Widths, width};
use formats_at_run_time::{BuiltInFormat, FlaggedFormat};
use rustc_apfloat::Round;
use small_formats::blocks::ScaleRule;

/// Which way blocks are converted.
#[derive(Clone, Copy)]
pub enum BlockWay {
    /// Values become blocks.
    Quantize,
    /// Blocks become values.
    Dequantize,
}

/// The conversion of values to blocks, or of blocks to values.
#[derive(Clone, Copy)]
pub struct BlockConversion {
    /// The form of the blocks.
    pub form: BlockForm,
    /// Which way they are converted.
    pub way: BlockWay,
    /// The format of the values.
    pub format: BuiltInFormat,
    /// The rounding mode.
    pub round: Round,
}

impl BlockConversion {
    ghost use Rattle.convert_values.specs.Blocks.{AreBlocksConverted, IsConverted, IsDequantizedFrom, IsQuantizedIn};
    ghost use Rattle.convert_values.specs.Blocks.{block_size, block_widths, values_size};

    /// How many bytes the values of a block take.
    fn values_size(self) -> usize
        ensures is { result ≡ values_size self }
        ensures some { 1 ≤ result }
        ensures few { result ≤ 16384 }
    {
        self.form.length * width(self.format, Extended::Packed)
    }

    /// The widths in bytes of what becomes a block, or of a block and of what becomes of it.
    pub fn widths(self) -> Widths
        ensures is { result ≡ block_widths self }
        ensures least { 1 ≤ result.source }
        ensures greatest { (result.source ≤ 16384) × (result.target ≤ 16384) }
    {
        let values = self.values_size();
        let block = 1 + self.form.packed_size();
        match self.way {
            BlockWay::Quantize => Widths {
                source: values,
                target: block,
            },
            BlockWay::Dequantize => Widths {
                source: block,
                target: values,
            },
        }
    }

    /// Converts the complete blocks in `read`, or the values of complete blocks, each block in its place in `written`,
    /// which must have room for them.
    pub fn convert(self, read: &[u8], written: Vec<u8>) -> ConvertedBlock
        requires { length read.now / (block_widths self).source * (block_widths self).target
            ≤ length written.items }
        ensures room { length result.buffer.items ≡ length written.items }
        ensures within { result.written ≤ length result.buffer.items }
        ensures parts { let count = length read.now / (block_widths self).source in
            (result.written ≡ count * (block_widths self).target)
            × (result.left_over + count * (block_widths self).source ≡ length read.now) }
        ensures blocks { let count = length read.now / (block_widths self).source in
            AreBlocksConverted self count (take (count * (block_widths self).source) read.now)
            (take result.written result.buffer.items) result.counts }
    {
        let widths = self.widths();
        let count = read.len() / widths.source;
        let whole = count * widths.source;
        let filled = count * widths.target;
        let mut buffer = written;
        let front = buffer.as_mut_slice();
        let counts = self.convert_front(count, widths, &read[..whole], front);
        ConvertedBlock {
            counts,
            buffer,
            written: filled,
            left_over: read.len() - whole,
        }
    }

    /// Converts so many blocks to the front of a buffer.
    fn convert_front(self, count: usize, widths: Widths, read: &[u8], buffer: &mut [u8]) -> Counts
        requires widths { widths ≡ block_widths self }
        requires read { length read.now ≡ count * widths.source }
        requires room { count * widths.target ≤ length buffer.old }
        ensures { AreBlocksConverted self count read.now (take (count * widths.target) buffer.new)
            result }
    {
        let front = &mut buffer[..count * widths.target];
        self.convert_each(count, widths, read, front)
    }

    /// Converts so many blocks.
    fn convert_each(self, count: usize, widths: Widths, read: &[u8], written: &mut [u8]) -> Counts
        requires widths { widths ≡ block_widths self }
        requires read { length read.now ≡ count * widths.source }
        requires written { length written.old ≡ count * widths.target }
        ensures { AreBlocksConverted self count read.now written.new result }
    {
        let mut counts = Counts::NONE;
        for index in 0..count {
            let (from, to) = (index * widths.source, index * widths.target);
            let place = &mut written[to..to + widths.target];
            counts.add(self.convert_one(&read[from..from + widths.source], place));
        }
        counts
    }

    /// Converts a block.
    fn convert_one(self, read: &[u8], written: &mut [u8]) -> Counts
        requires read { length read.now ≡ (block_widths self).source }
        requires written { length written.old ≡ (block_widths self).target }
        ensures { IsConverted self read.now written.new result }
    {
        match self.way {
            BlockWay::Quantize => self.quantize(read, written),
            BlockWay::Dequantize => self.dequantize(read, written),
        }
    }

    /// Quantizes the values of a block.
    fn quantize(self, values: &[u8], bytes: &mut [u8]) -> Counts
        requires values { length values.now ≡ values_size self }
        requires bytes { length bytes.old ≡ block_size self.form }
        ensures { IsQuantizedIn self values.now bytes.new result }
    {
        let BlockForm { format, length } = self.form;
        let quantization = Quantization {
            source: self.format,
            format,
            rule: ScaleRule::Floor,
            length,
            round: self.round,
        };
        let mut scale = [0u8];
        let mut room = [0u8; LONGEST];
        let codes = &mut room[..length];
        let counts = quantization.quantize(values, &mut scale, codes).unwrap();
        self.form.write(scale[0], codes, bytes);
        counts
    }

    /// Takes the values out of a block.
    fn dequantize(self, bytes: &[u8], values: &mut [u8]) -> Counts
        requires bytes { length bytes.now ≡ block_size self.form }
        requires values { length values.old ≡ values_size self }
        ensures { IsDequantizedFrom self bytes.now values.new result }
    {
        let BlockForm { format, length } = self.form;
        let dequantization = Dequantization {
            format,
            length,
            target: FlaggedFormat::BuiltIn(self.format),
            round: self.round,
        };
        let mut room = [0u8; LONGEST];
        let codes = &mut room[..length];
        let scale = scale_in(format, self.form.read(bytes, codes));
        dequantization.dequantize(&[scale], codes, values).unwrap()
    }
}
