//! Why nothing was written.

/// Why a block was refused.
#[derive(Clone, Copy, PartialEq, Eq, Debug)]
pub enum BlockError {
    /// The block has no elements.
    Empty,
    /// There are not as many codes as values.
    Lengths,
    /// A code has more bits than the element format.
    CodeTooWide,
}
