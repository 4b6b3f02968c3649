//! Formats of blocks.

ghost use Rattle.std.specs.Prelude.{◌≡◌, true, false};
ghost use Rattle.rustc_apfloat.specs.{Flags.bits_of, FlaggedTypes.constants_of, Lawful.format_with};
ghost use Rattle.apfloat_arrays.specs.scaled_blocks.Formats.{AreNarrow, AreWide, HasScale, IsNarrow, IsScaledIn};
ghost use Rattle.apfloat_arrays.specs.scaled_blocks.Formats.{has_scale, nan_scale, tensor_of};

use rustc_apfloat::ieee::{Flagged, IeeeFloat, Single};
use rustc_apfloat::{Float, Round, StatusAnd};
use small_formats::blocks::{ElementFormat, is_positive, nvfp4_scaled, scaled};
use small_formats::packing::are_narrow;

/// What the scales and the elements of blocks are.
#[derive(Clone, Copy)]
pub enum BlockFormat {
    /// Those of a microscaling format: a scale is a power of two, a code of `E8M0FNU`.
    Mx(ElementFormat),
    /// Those of NVFP4, with the bits of a positive `Single`, the scale of the tensor: a scale is a number of
    /// `Float8E4M3FN` without a sign, and an element one of `E2M1FN`.
    Nvfp4(u32),
}

/// The scale of a tensor, by its bits.
pub(crate) fn tensor_of(bits: u32) -> Single
    ensures { result ≡ tensor_of bits }
{
    Single::from_bits(u128::from(bits))
}

impl BlockFormat {
    /// The code of the scale that is a NaN.
    pub(crate) fn nan_scale(self) -> u8
        ensures { result ≡ nan_scale self }
    {
        match self {
            BlockFormat::Mx(_) => 255,
            BlockFormat::Nvfp4(_) => 127,
        }
    }

    /// Whether the scale of the tensor, if there is one, is a positive number.
    pub(crate) fn has_scale(self) -> bool
        ensures test { result ≡ has_scale self }
        ensures positive { result ≡ true → HasScale self }
    {
        match self {
            BlockFormat::Mx(_) => true,
            BlockFormat::Nvfp4(tensor) => is_positive(tensor_of(tensor)),
        }
    }

    /// Whether no code has more bits than its format.
    pub(crate) fn are_narrow(self, scales: &[u8], codes: &[u8]) -> bool
        ensures yes { result ≡ true → AreNarrow self scales.now codes.now }
        ensures no { result ≡ false → AreWide self scales.now codes.now }
    {
        match self {
            BlockFormat::Mx(element) => are_narrow(element.bits(), codes),
            BlockFormat::Nvfp4(_) => are_narrow(7, scales) && are_narrow(4, codes),
        }
    }

    /// An element times its scales, rounded once.
    pub(crate) fn scaled<T: Flagged>(
        self,
        scale: u8,
        code: u8,
        round: Round,
    ) -> StatusAnd<IeeeFloat<T>>
        requires format { HasScale self }
        requires narrow { IsNarrow self scale code }
        ensures { IsScaledIn self (format_with (constants_of T.Flagged)) round scale code result.value
            (bits_of result.status) }
    {
        match self {
            BlockFormat::Mx(element) => scaled(element, scale, code, round),
            BlockFormat::Nvfp4(tensor) => nvfp4_scaled(scale, tensor_of(tensor), code, round),
        }
    }
}
