//! Conversions to any format by the modes of conversions (`small_formats::ConversionRound`): the five of IEEE 754,
//! to odd, and with random digits.
//!
//! Random digits choose one of the two neighbours of a number (`directions`), by the digits that the target does not
//! keep (`crate::cuts`). The conversion in the directed mode that leads to that neighbour does the rest (`by_mode`).
//! Two storage formats have the numbers of a format of the model, and are converted into by way of it (`elements`).

mod by_mode;
mod directions;
mod elements;
mod theorems;

pub use by_mode::convert_by;
pub use elements::{e3m4_by, unsigned_by};
pub use theorems::{
    e3m4_conversions_by_mode_have_one_answer, mode_conversions_are_conversions,
    mode_conversions_have_one_answer, unsigned_conversions_by_mode_have_one_answer,
};
