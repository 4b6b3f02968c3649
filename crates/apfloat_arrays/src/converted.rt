//! A converted value as bits.

use crate::counts::Outcome;

/// The bits of a converted value, and the outcome of its conversion.
#[derive(Clone, Copy)]
pub struct Converted {
    /// The bits of its encoding.
    pub bits: u128,
    /// The outcome.
    pub outcome: Outcome,
}
