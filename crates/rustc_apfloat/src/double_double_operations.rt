//! Operations on pairs of doubles beyond those of `Float`: conversions to and from every format, and fused sums.
//!
//! They are made of the public calls of `Double`, of the wide format and of pairs; each result is rounded once.

mod conversions;
mod fused;
mod theorems;
mod wide;

pub use conversions::{pair_from_format, pair_to_format};
pub use fused::{pair_mul_add, pair_mul_add_r};
pub use theorems::{numbers_are_delivered, operations_have_one_answer};
