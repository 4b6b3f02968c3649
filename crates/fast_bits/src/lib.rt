//! Sums, differences, products, quotients, fused sums, roots and conversions from encodings to encodings, for callers
//! that have bits and want bits.
//!
//! A value is unpacked to compute with it, and packed to write its bits, and both ways treat zeros, denormal numbers,
//! infinities and NaNs apart. Where operands and the result are normal numbers of formats of at most 64 bits with an
//! implied integer bit, none of that is needed: the fields give the significands, and the rounded significand is added
//! to its place. All other cases are left to `IeeeFloat`.
//!
//! `lanes` converts finite singles to formats of few digits by steps that are the same for each number, and `words`
//! rounds a number's significand by such steps.
#![tactic(auto)]

mod addends;
mod conversions;
mod cuts;
mod encoded;
mod fused;
mod integers;
mod integral;
pub mod lanes;
mod numbers;
mod order;
mod products;
mod quotients;
mod roots;
mod sums;
mod theorems;
mod totals;
pub mod words;

pub use conversions::convert_normal;
pub use encoded::Encoded;
pub use fused::multiply_add_normal;
pub use integers::{signed_of_bits, unsigned_of_bits};
pub use integral::round_number;
pub use numbers::{biased_exponent, fits_word, is_minus, word_of};
pub use order::{compare_bits, has_ordered_words};
pub use products::{multiply_bits, multiply_normal};
pub use quotients::divide_normal;
pub use roots::root_bits;
pub use sums::{add_bits, add_normal, subtract_bits, subtract_normal};
pub use theorems::encoded_answers_are_unique;
pub use totals::encode_odd;
