//! What is converted between two formats, and how.

use rustc_apfloat::Round;
use small_formats::saturation::Overflow;

/// An array of values, and how they are converted.
#[derive(Clone, Copy)]
pub struct Task<'a> {
    /// What a number that overflows becomes.
    pub overflow: Overflow,
    /// The rounding mode.
    pub round: Round,
    /// The number of values.
    pub count: usize,
    /// Their bytes.
    pub input: &'a [u8],
}
