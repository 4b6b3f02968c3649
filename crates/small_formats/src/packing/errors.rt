//! Why nothing was written.

/// Why codes were not packed or unpacked.
#[derive(Clone, Copy, PartialEq, Eq, Debug)]
pub enum PackingError {
    /// The codes do not fill whole groups of bytes: of 4 bits their number is odd, of 6 bits not a multiple of four.
    Uneven,
    /// The bytes are not as many as the codes fill.
    Lengths,
    /// A code has more bits.
    CodeTooWide,
}
