//! The decimal digits of a value, to any number of digits, written into a buffer of the caller.
//!
//! `write_digits` writes as many digits as the buffer has room for: those of the value, rounded once. The value divided
//! by the power of ten above its first digit is a quotient of two large integers (`fractions`), whose digits are found
//! nine at a time by long division (`quotients`). Where the rounding mode asks for the next number, it carries through
//! the digits (`carries`). `digit_count` says how many digits a value has (`counted`).
//!
//! The exponents of the formats are within those of `Quad`.

mod carries;
mod counted;
mod fractions;
mod quotients;
mod written;

pub use counted::{digit_count, digit_count_once, exact_at_count};
pub use written::{Written, write_digits, written_once};
