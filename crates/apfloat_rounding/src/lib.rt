//! Unpacked values of one format: their stored form, the one rounding kernel, and their bits.
//!
//! Nothing here is generic. The functions take a `Shape`, which holds the constants of a format that rounding reads,
//! and `Unpacked` values; `apfloat_ieee` supplies the constants of a type.
#![tactic(auto)]

pub mod bits;
pub mod exponents;
pub mod nans;
pub mod payloads;
pub mod rounding;
pub mod shape;
pub mod unpacked;
