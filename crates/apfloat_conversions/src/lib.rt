//! Conversions of unpacked values: to and from integers, to other formats, scaling by powers of two, and the next value
//! up.
//!
//! Nothing here is generic. Each operation returns what the model says for its operands, including NaNs, infinities and
//! zeros; `apfloat_ieee` supplies the constants of a type.
//!
//! `hex_texts` reads hexadecimal numbers, infinities and NaNs; `decimal_texts` the exponents of decimals.
#![tactic(auto)]

pub mod between_formats;
pub mod decimal_texts;
mod held;
pub mod hex_texts;
pub mod integers;
pub mod integral;
pub mod neighbours;
pub mod scaling;
pub mod whole;
