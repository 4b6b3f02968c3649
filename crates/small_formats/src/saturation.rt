//! Conversions that saturate, from the result of a conversion that does not.

mod saturation;

pub use saturation::{FiniteNan, Overflow, ValueClass, convert_by, largest_of_sign, treat};
