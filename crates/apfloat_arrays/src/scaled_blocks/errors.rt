//! Why nothing was written.

/// Why an array was refused.
#[derive(Clone, Copy, PartialEq)]
pub enum ArrayError {
    /// A block has no elements.
    EmptyBlock,
    /// The length of a block does not divide the number of values.
    Uneven,
    /// The bytes of the values end inside one, or there are not as many codes as values or scales as blocks.
    Lengths,
    /// The scale of the tensor is not a positive number.
    TensorScale,
    /// A code has more bits than the element format, or a scale of NVFP4 has a sign.
    CodeTooWide,
}
