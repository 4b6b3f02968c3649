//! Storage formats: values of few bits that are stored and converted.
//!
//! `StoredFloat<F>` is a value in at most 8 bits, all of whose codes are numbers, such as the 4- and 6-bit elements of
//! the Open Compute Project's microscaling formats (`named`): `E2M1FN`, `E2M3FN`, `E3M2FN`. `E8M0FNU` is a scale that
//! is a power of two (`scales`), and `UE4M3` one with a significand (`unsigned`). `Float8E3M4` has infinities and NaNs
//! too (`float8_e3m4`).
//!
//! `arithmetic` has their operations: each is computed in a wider format, rounded to odd there, and rounded once.
//! `from_stored` converts between them, `extrema` has minima and maxima.
//!
//! `from_value_by` has two more modes, to odd and with random digits (`modes`); `from_quotient` rounds the quotient of
//! two values (`quotients`).
//!
//! `published` states what the documents that define the named ones say of them.
//!
//! A conversion from any format is rounded once (`picks`): the digits of the value are cut at the last one that the
//! format keeps there (`cuts`), and the mode moves them or not.
//!
//! `stochastic` converts with random digits and to odd, `saturation` says what a conversion that saturates gives,
//! `packing` packs codes of 4 and 6 bits into bytes, and `blocks` has blocks of elements with a common scale.
#![tactic(auto)]

pub mod arithmetic;
pub mod blocks;
pub mod cuts;
mod extrema;
pub mod float8_e3m4;
mod format;
mod from_stored;
mod from_value;
mod from_value_by;
pub mod grid_points;
mod modes;
mod named;
pub mod packing;
pub mod picks;
mod published;
mod quanta;
mod quotients;
pub mod saturation;
mod scales;
pub mod statuses;
pub mod stochastic;
mod stored;
mod theorems;
mod to_value;
pub mod unsigned;

pub use float8_e3m4::Float8E3M4;
pub use format::StorageFormat;
pub use modes::{ConversionRound, NanResult, RandomDigits, RandomError};
pub use named::{E2M1FN, E2M3FN, E3M2FN};
pub use published::{
    block_lengths_are_published, e3m4_is_that_of_llvm, elements_are_those_of_ocp,
    scales_are_those_of_ocp, unsigned_scales_are_those_of_nvfp4,
};
pub use quanta::{InQuanta, in_quanta};
pub use scales::E8M0FNU;
pub use stored::StoredFloat;
pub use theorems::{
    codes_are_in_order, conversions_by_mode_have_one_answer, conversions_have_one_answer,
    e3m4_conversions_have_one_answer, exact_values_never_move, extrema_have_one_answer,
    picks_are_those_of_the_model, quotients_have_one_answer, random_numbers_are_counted,
    scales_by_mode_are_scales, scales_by_mode_have_one_answer, scales_have_one_answer,
    stored_results_have_one_answer, unsigned_conversions_have_one_answer,
};
pub use unsigned::UE4M3;
