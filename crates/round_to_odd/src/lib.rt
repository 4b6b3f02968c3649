//! Rounding to odd, for every format: of the answer toward zero, of integers out and in, and of rounding to an integral
//! value; and the second rounding of a result that was rounded to odd.
//!
//! An inexact result becomes the one of its two neighbours whose last digit is odd. Two more digits than another format
//! then tell all that a rounding to that format has to know, so that rounding again is rounding once
//! (`round_odd_to`). IEEE 754-2019 has no such mode; POWER, s390x and Arm have instructions that round so.
#![tactic(auto)]

mod again;
mod numbers;
mod odd;
mod theorems;
mod whole_numbers;

pub use again::round_odd_to;
pub use odd::to_odd;
pub use theorems::{
    formats_have_room, half_has_no_room_for_bfloat, odd_integral_roundings_have_one_answer,
    odd_of_truncated_is_odd, odd_roundings_have_one_answer, rounding_again_is_rounding_once,
    rounding_roots_again_is_rounding_once, second_roundings_have_one_answer,
};
pub use whole_numbers::{
    from_i128_odd, from_u128_odd, round_to_odd_integral, to_i128_odd, to_u128_odd,
};
