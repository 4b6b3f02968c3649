//! What is lost when digits are cut off: the position of a magnitude between two neighbouring grid points.
//!
//! ```text
//!   significand             significand + 1/2             significand + 1
//!        |--------------------------|--------------------------|
//!   ExactlyZero   LessThanHalf  ExactlyHalf    MoreThanHalf
//! ```
//!
//! A magnitude at the upper point has the next significand, with nothing lost.

/// What was cut off, compared with one unit of the last kept digit. It holds the same information as a guard bit and a
/// sticky bit.
#[derive(Clone, Copy, PartialEq, Eq)]
pub enum Loss {
    /// Nothing.
    ExactlyZero,
    /// More than nothing, less than half a unit.
    LessThanHalf,
    /// Exactly half a unit.
    ExactlyHalf,
    /// More than half a unit, less than a whole one.
    MoreThanHalf,
}
