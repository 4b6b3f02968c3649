//! The result of a call from bits to bits.

use apfloat_base::Status;

/// The bits of a value, and the flags that its operation raised.
#[derive(Clone, Copy)]
pub struct Encoded {
    /// The canonical encoding of the value.
    pub bits: u128,
    /// The flags that the operation raised.
    pub status: Status,
}
