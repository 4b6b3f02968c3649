//! Operations whose result is of another format than their operands (IEEE 754-2019 5.4.1, formatOf): sums, products,
//! quotients, square roots and fused sums of unpacked values, each of a format of its own, rounded once to the format
//! of the result.
//!
//! An operand is taken out of its format first (`operands`): a number gets all 125 digits that a format may have, so
//! that its sums, products and quotients have enough digits for each target, and a NaN becomes the one that it is
//! converted to. Nothing here is generic; `apfloat_ieee` supplies the constants of the types.

pub mod fused;
pub mod operands;
pub mod products;
pub mod quotients;
mod results;
pub mod roots;
pub mod sums;
pub mod theorems;
mod totals;
