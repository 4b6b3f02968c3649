//! How a block lies in bytes.

ghost use Rattle.std.specs.Prelude.{◌≡◌, ◌+◌, ◌*◌, ◌%◌, ◌^◌, ◌<◌, ◌≤◌, ◌↔◌, true, All, length, IfSome, IsSome};
ghost use Rattle.apfloat_arrays.specs.scaled_blocks.Formats.{has_scale};
ghost use Rattle.convert_values.specs.BlockFormats.{element_of, scale_in, standard_length};
ghost use Rattle.small_formats.specs.{blocks.Elements.width, packing.Packed.ArePacked};

use apfloat_arrays::scaled_blocks::BlockFormat;
use small_formats::blocks::{BLOCK, ElementFormat, NVFP4_BLOCK};
use small_formats::packing::{pack_fours, pack_sixes, unpack_fours, unpack_sixes};

/// The greatest number of elements of a block.
pub const LONGEST: usize = 1024;

/// A form of blocks. The codes of a block fill whole bytes, after the byte of its scale.
#[derive(Clone, Copy)]
pub struct BlockForm {
    /// The format of the scales and the elements.
    pub format: BlockFormat,
    /// How many elements a block has.
    pub length: usize,
    ghost some: { 1 ≤ length },
    ghost few: { length ≤ 1024 },
    ghost whole: { width (element_of format) * length % 8 ≡ 0 },
    ghost scaled: { has_scale format ≡ true },
}

/// The format of the elements.
fn element_of(format: BlockFormat) -> ElementFormat
    ensures { result ≡ element_of format }
{
    match format {
        BlockFormat::Mx(element) => element,
        BlockFormat::Nvfp4(_) => ElementFormat::E2M1FN,
    }
}

/// The code of the scale in a byte. NVFP4's has no sign, so that the highest bit is ignored.
pub fn scale_in(format: BlockFormat, byte: u8) -> u8
    ensures { result ≡ scale_in format byte }
{
    match format {
        BlockFormat::Mx(_) => byte,
        BlockFormat::Nvfp4(_) => byte % 128,
    }
}

impl BlockForm {
    ghost use Rattle.convert_values.specs.Blocks.{IsBlockInBytes, packed_size};

    /// The form of blocks with so many elements, if their codes fill whole bytes.
    pub fn new(format: BlockFormat, length: usize) -> Option<BlockForm>
        requires some { 1 ≤ length }
        requires few { length ≤ 1024 }
        requires scaled { has_scale format ≡ true }
        ensures whole { IsSome result ↔ (width (element_of format) * length % 8 ≡ 0) }
        ensures form { IfSome result (λ form. (form.format ≡ format) × (form.length ≡ length)) }
    {
        if element_of(format).bits() as usize * length % 8 != 0 {
            return None;
        }
        Some(BlockForm { format, length })
    }

    /// The form of blocks with 32 elements, as in OCP Microscaling Formats 1.0, or in NVFP4 with 16.
    pub fn standard(format: BlockFormat) -> BlockForm
        requires { has_scale format ≡ true }
        ensures format { result.format ≡ format }
        ensures length { result.length ≡ standard_length format }
    {
        match format {
            BlockFormat::Mx(_) => BlockForm {
                format,
                length: BLOCK,
            },
            BlockFormat::Nvfp4(_) => BlockForm {
                format,
                length: NVFP4_BLOCK,
            },
        }
    }

    /// How many bytes the codes of a block take.
    pub fn packed_size(self) -> usize
        ensures is { result ≡ packed_size self }
        ensures few { result ≤ 1024 }
    {
        element_of(self.format).bits() as usize * self.length / 8
    }

    /// Writes a block: its scale, and its packed codes.
    pub fn write(self, scale: u8, codes: &[u8], bytes: &mut [u8])
        requires codes { length codes.now ≡ self.length }
        requires narrow { All (λ code. code < 2 ^ width (element_of self.format)) codes.now }
        requires bytes { length bytes.old ≡ 1 + packed_size self }
        ensures { IsBlockInBytes (element_of self.format) scale codes.now bytes.new }
    {
        bytes[0] = scale;
        self.pack(codes, &mut bytes[1..]);
    }

    /// Reads a block: returns its scale, and unpacks its codes.
    pub fn read(self, bytes: &[u8], codes: &mut [u8]) -> u8
        requires bytes { length bytes.now ≡ 1 + packed_size self }
        requires codes { length codes.old ≡ self.length }
        ensures { IsBlockInBytes (element_of self.format) result codes.new bytes.now }
    {
        self.unpack(&bytes[1..], codes);
        bytes[0]
    }

    /// Packs the codes of a block.
    fn pack(self, codes: &[u8], bytes: &mut [u8])
        requires codes { length codes.now ≡ self.length }
        requires narrow { All (λ code. code < 2 ^ width (element_of self.format)) codes.now }
        requires bytes { length bytes.old ≡ packed_size self }
        ensures { ArePacked (width (element_of self.format)) codes.now bytes.new }
    {
        match element_of(self.format) {
            ElementFormat::E2M1FN => pack_fours(codes, bytes).unwrap(),
            ElementFormat::E2M3FN | ElementFormat::E3M2FN => pack_sixes(codes, bytes).unwrap(),
            ElementFormat::E4M3FN | ElementFormat::E5M2 => bytes.copy_from_slice(codes),
        }
    }

    /// Unpacks the codes of a block.
    fn unpack(self, bytes: &[u8], codes: &mut [u8])
        requires bytes { length bytes.now ≡ packed_size self }
        requires codes { length codes.old ≡ self.length }
        ensures { ArePacked (width (element_of self.format)) codes.new bytes.now }
    {
        match element_of(self.format) {
            ElementFormat::E2M1FN => unpack_fours(bytes, codes).unwrap(),
            ElementFormat::E2M3FN | ElementFormat::E3M2FN => unpack_sixes(bytes, codes).unwrap(),
            ElementFormat::E4M3FN | ElementFormat::E5M2 => codes.copy_from_slice(bytes),
        }
    }
}
