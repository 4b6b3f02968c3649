//! Decimals: their texts, and their values in a format, by exact integer arithmetic without allocation.
//!
//! Reading: `read_decimal` reads a text of any length (`texts`), and `from_decimal` rounds a `Decimal` (`decimal`).
//! Both find the digits times a power of ten as a binary significand (`scaling`): by a multiplication with a table of
//! powers of five (`powers_of_five`) if bounds of the product settle the result (`bounded_cut`), as Eisel and Lemire
//! do, and otherwise by an exact division, in 128 binary digits (`short_division`) or in words on the stack
//! (`long_division`, `large`). Before that, for digits of one word, the first 64 binary digits of that product are
//! tried (`word_scaling`). `FromStr` of a `Decimal` keeps the digits of its text (`parsing`). For callers that want
//! bits, `short_numeral` reads a short text, and `rounded_to_odd` gives its number for a rounding of theirs.
//!
//! Writing: `shortest` finds the shortest decimal that reads back as a value: from the interval of the numbers that are
//! rounded to it (`shortest_interval`), or from its first digits (`shortest_guess`, `shortest_decimal`). `rounded`
//! rounds a value to a number of digits, from its first digits too (`rounded_decimal`, `leading_digits`), and `exact`
//! gives the decimal that equals a value (`exact_decimal`). `formatting` produces the text of a `Decimal`, which
//! `Display` writes. `round_trips` states what holds for values that are read back.
//!
//! `apfloat_digits::decimal`, which writes any number of digits, uses the large integers, the exponents, and the places
//! of the first and the last digit of a value.
//!
//! The exponents of the formats are within those of `Quad`.
#![tactic(auto)]

mod bounded_cut;
mod decimal;
mod exact_decimal;
pub mod exponents;
pub mod formatting;
pub mod large;
mod leading_digits;
mod long_division;
mod parsing;
mod powers_of_five;
mod round_trips;
mod rounded_decimal;
mod scaling;
mod short_division;
mod shortest_decimal;
mod shortest_guess;
mod shortest_interval;
mod texts;
mod word_scaling;

pub use decimal::{Decimal, built_in_formats, from_decimal};
pub use exact_decimal::{exact, exact_once, last_place};
pub use long_division::loss_of;
pub use parsing::{DecimalError, decimal_text_once, one_reading, written_text};
pub use round_trips::shortest_reads_back;
pub use rounded_decimal::{rounded, rounded_once};
pub use shortest_decimal::{first_place, shortest, shortest_once};
pub use texts::short_numerals::{ShortNumeral, short_numeral};
pub use texts::{read_decimal, read_decimal_ascii};
pub use word_scaling::{Odd, rounded_to_odd};
