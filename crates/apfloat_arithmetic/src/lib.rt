//! Arithmetic on unpacked values of one format: sums, products, quotients, fused sums, remainders, and the order of
//! values.
//!
//! Nothing here is generic. Each operation returns what the model says for its operands, including NaNs, infinities and
//! zeros; `apfloat_ieee` supplies the constants of a type.
//!
//! `other_formats` has the operations whose result is of another format than their operands.
#![tactic(auto)]

pub mod classes;
pub mod exact;
pub mod fused;
pub mod inverses;
pub mod order;
pub mod other_formats;
pub mod products;
pub mod quotients;
pub mod remainders;
pub mod roots;
pub mod signs;
mod specials;
pub mod sums;
mod terms;
pub mod wide_fused;
pub mod wide_products;
