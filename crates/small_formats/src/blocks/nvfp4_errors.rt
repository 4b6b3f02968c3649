//! Why a tensor or a block of NVFP4 was refused.

/// Why a tensor or a block of NVFP4 was refused.
#[derive(Clone, Copy, PartialEq, Eq, Debug)]
pub enum Nvfp4Error {
    /// The block has no elements.
    Empty,
    /// There are not as many codes as values.
    Lengths,
    /// The scale of the tensor is not a positive number.
    TensorScale,
    /// The scale of the block has a sign: its code is above 127.
    BlockScale,
    /// A code has more than 4 bits.
    CodeTooWide,
    /// A value of the tensor is an infinity or a NaN.
    NotFinite,
}
