//! Exact dot products of vectors in blocks of small elements with common scales: of the Open Compute Project's
//! microscaling formats (MX), and of NVFP4.

ghost use Rattle.std.specs.Prelude.{◌≡◌, ℕ, ◌^◌, ◌<◌, IsTrue, ◌↔◌, [], ◌∷◌, length};
ghost use Rattle.apfloat_ieee.specs.FlaggedTypes.{format_of};
ghost use Rattle.exact_reductions.specs.BlockDots.{AreCodes, IsDotCall, IsVector, scaled_value, tensor_of, value_at};

use crate::exact_sum::ExactSum;
use crate::reductions::NARROW_WORDS;
use apfloat_base::{Float, Round, StatusAnd};
use apfloat_ieee::built_in_formats::{Double, DoubleS, Single};
use apfloat_ieee::{Flagged, IeeeFloat};
use small_formats::blocks::{ElementFormat, is_positive, nvfp4_scaled, scaled};
use small_formats::packing::are_narrow;

/// What the scales and the elements of a vector are.
#[derive(Clone, Copy)]
pub enum BlockScaling {
    /// Those of a microscaling format: a scale is a power of two, a code of `E8M0FNU`.
    Mx(ElementFormat),
    /// Those of NVFP4, with the bits of a positive `Single`, the scale of the tensor: a scale is a number of
    /// `Float8E4M3FN` without a sign, and an element one of `E2M1FN`.
    Nvfp4(u32),
}

/// A vector in blocks.
#[derive(Clone, Copy)]
pub struct BlockVector<'a> {
    /// What its scales and elements are.
    pub scaling: BlockScaling,
    /// How many elements a block has.
    pub length: usize,
    /// The code of the scale of each block.
    pub scales: &'a [u8],
    /// The codes of the elements, each in the lowest bits of a byte.
    pub codes: &'a [u8],
}

/// Why a dot product was refused.
#[derive(Clone, Copy, PartialEq, Eq, Debug)]
pub enum DotError {
    /// Of one of the vectors, blocks have no elements, there are not as many codes as its blocks have elements, a code
    /// has more bits than its format, or the scale of the tensor is not a positive number.
    NotBlocks,
    /// The vectors have different numbers of elements.
    LengthsDiffer,
}

/// The scale of a tensor, by its bits.
fn tensor_of(bits: u32) -> Single
    ensures { result ≡ tensor_of bits }
{
    Single::from_bits(u128::from(bits))
}

impl BlockScaling {
    /// Whether the tensor has a positive scale, and no code has more bits than its format.
    fn are_codes(self, scales: &[u8], codes: &[u8]) -> bool
        ensures { IsTrue result ↔ AreCodes self scales.now codes.now }
    {
        match self {
            BlockScaling::Mx(element) => are_narrow(element.bits(), codes),
            BlockScaling::Nvfp4(tensor) => {
                is_positive(tensor_of(tensor)) && are_narrow(7, scales) && are_narrow(4, codes)
            }
        }
    }

    /// An element times its scales, which `Double` has.
    fn scaled(self, scale: u8, code: u8) -> Double
        requires { AreCodes self (scale ∷ []) (code ∷ []) }
        ensures { result ≡ scaled_value self scale code }
    {
        let round = Round::TowardZero;
        match self {
            BlockScaling::Mx(element) => scaled::<DoubleS>(element, scale, code, round).value,
            BlockScaling::Nvfp4(tensor) => {
                nvfp4_scaled::<DoubleS>(scale, tensor_of(tensor), code, round).value
            }
        }
    }
}

impl BlockVector<'_> {
    /// Whether blocks have elements, each of them a code, and each block a scale.
    fn is_vector(self) -> bool
        ensures { IsTrue result ↔ IsVector self.entry }
    {
        match self.scales.len().checked_mul(self.length) {
            Some(count) => {
                self.length > 0
                    && count == self.codes.len()
                    && self.scaling.are_codes(self.scales, self.codes)
            }
            None => false,
        }
    }

    /// An element times its scales.
    fn value(self, index: usize) -> Double
        requires vector { IsVector self }
        requires within { index < length self.codes.now }
        ensures { result ≡ value_at self.entry index }
    {
        self.scaling
            .scaled(self.scales[index / self.length], self.codes[index])
    }
}

/// The dot product of two vectors in blocks (IEEE 754-2019 9.4, dot), rounded once to the format `T`: the exact sum of
/// the products of the elements at the same places, each times its scales. Their blocks may differ in format and
/// length.
///
/// An element that is a NaN, a scale that is one, and the product of an infinity and a zero make it the quiet NaN
/// without a payload. Such a product raises INVALID_OP, as do infinities of both signs; an infinity raises INEXACT in a
/// target without infinities. An exact zero is +0, or -0 toward negative, but a sum of zeros of one sign keeps it;
/// without elements it is +0.
///
/// # Errors
///
/// `NotBlocks` unless both are vectors of their formats, `LengthsDiffer` if they have different numbers of elements.
pub fn dot_blocks_r<T: Flagged>(
    x: BlockVector,
    y: BlockVector,
    round: Round,
) -> Result<StatusAnd<IeeeFloat<T>>, DotError>
    ensures { IsDotCall (format_of T.Flagged) round x.entry y.entry result }
{
    if !x.is_vector() {
        return Err(DotError::NotBlocks);
    }
    if !y.is_vector() {
        return Err(DotError::NotBlocks);
    }
    if x.codes.len() != y.codes.len() {
        return Err(DotError::LengthsDiffer);
    }
    let mut sum = ExactSum::<DoubleS, NARROW_WORDS>::new();
    for index in 0..x.codes.len() {
        sum.add_product(x.value(index), y.value(index));
    }
    Ok(sum.rounded_to(round))
}
