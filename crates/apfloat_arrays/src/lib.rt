//! Blocks of values in consecutive bytes, converted from any built-in format to any other.
//!
//! `stored` has arrays of values of storage formats, and `scaled_blocks` arrays in blocks with a common scale.
#![tactic(auto)]

mod array;
mod block_call;
mod blocks;
mod byte_sources;
mod byte_tables;
mod bytes;
mod conversion;
mod converted;
mod counts;
mod each;
mod entries;
mod far_numbers;
mod lent_tables;
mod one_by_one;
mod one_value;
pub mod scaled_blocks;
mod short_singles;
mod short_sources;
mod single_blocks;
mod single_plans;
mod single_targets;
mod singles;
mod specials;
pub mod stored;
mod tables;
mod tallies;
mod task;
mod widths;

pub use array::ArrayConversion;
pub use blocks::{convert_block_by, one_block};
pub use bytes::{number_of, write_number};
pub use conversion::{Conversion, ConvertedBlock};
pub use converted::Converted;
pub use counts::{Counts, Outcome};
pub use entries::{BytePairs, ENTRY, TablePlaces, look_up, write_entry};
pub use tallies::{Tally, mark_of};
pub use widths::{Extended, Widths, width};
