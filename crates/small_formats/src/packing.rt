//! Codes of 4 and 6 bits packed into bytes: two in one byte, and four in three, each from its lowest bit on, from the
//! lowest bit of the first byte on. Unpacked codes stand one in a byte, in its lowest bits, with zeros above.

mod errors;
mod fours;
mod narrow;
mod sixes;
mod theorems;

pub use errors::PackingError;
pub use fours::{pack_fours, unpack_fours};
pub use narrow::are_narrow;
pub use sixes::{pack_sixes, unpack_sixes};
pub use theorems::packed_codes_have_one_answer;
