//! The formats of the library.

pub mod basic;
pub mod extended;
pub mod more;
pub mod short;

use crate::IeeeFloat;
pub use basic::{DoubleS, HalfS, QuadS, SingleS};
pub use extended::X87DoubleExtendedS;
pub use more::{Float8E4M3B11FNUZS, Float8E4M3S, Float8E5M2FNUZS, FloatTF32S};
pub use short::{BFloatS, Float8E4M3FNS, Float8E4M3FNUZS, Float8E5M2S};

/// Binary16.
pub type Half = IeeeFloat<HalfS>;

/// Binary32.
pub type Single = IeeeFloat<SingleS>;

/// Binary64.
pub type Double = IeeeFloat<DoubleS>;

/// Binary128.
pub type Quad = IeeeFloat<QuadS>;

/// Bfloat16: the upper half of a binary32.
pub type BFloat = IeeeFloat<BFloatS>;

/// Eight bits: the upper half of a binary16, with five exponent bits.
pub type Float8E5M2 = IeeeFloat<Float8E5M2S>;

/// Eight bits, four of them the exponent, without infinities.
pub type Float8E4M3FN = IeeeFloat<Float8E4M3FNS>;

/// Eight bits, four of them the exponent, without infinities and without a negative zero.
pub type Float8E4M3FNUZ = IeeeFloat<Float8E4M3FNUZS>;

/// Eight bits, four of them the exponent, with infinities.
pub type Float8E4M3 = IeeeFloat<Float8E4M3S>;

/// Eight bits, five of them the exponent, without infinities and without a negative zero.
pub type Float8E5M2FNUZ = IeeeFloat<Float8E5M2FNUZS>;

/// Eight bits, four of them the exponent, of bias 11, without infinities and without a negative zero.
pub type Float8E4M3B11FNUZ = IeeeFloat<Float8E4M3B11FNUZS>;

/// Nineteen bits: the exponents of binary32 and the digits of binary16.
pub type FloatTF32 = IeeeFloat<FloatTF32S>;

/// The 80-bit extended format of the x87.
pub type X87DoubleExtended = IeeeFloat<X87DoubleExtendedS>;
