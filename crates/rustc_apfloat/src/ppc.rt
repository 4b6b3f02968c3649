//! Pairs of doubles.

pub use crate::double_doubles::{DoubleDouble, DoubleFloat, FallbackExtendedS, FallbackS};
