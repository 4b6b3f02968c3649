//! Arrays of values of storage formats, one a byte, converted to and from the values of every built-in format.

mod array;
mod by_mode;
mod code_tables;
mod e3m4_arrays;
mod formats;
mod loading;
mod number_arrays;
pub(crate) mod number_codes;
mod numbers;
mod storing;

pub use array::{Ends, StorageArray};
pub use by_mode::{EachRound, ModeConversion};
pub use formats::StoredFormat;
