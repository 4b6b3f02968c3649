//! Operations of IEEE 754-2019 that `Float` lacks, for every format: the 22 comparison predicates (5.6.1, 5.11),
//! `total_order` (5.10), `class_of` and the other general operations on one value (5.7.2), the conformance predicates
//! (5.7.1), the operations on flags (5.7.4), minima and maxima with their flags (9.6), logB with its flags (5.3.3),
//! rounding to integral values without INEXACT (5.9), and conversions to integers with it and without it (5.8).
//!
//! `<`, `==` and `partial_cmp` of `IeeeFloat` return no status; the predicates here do.
//!
//! `augmented` has augmented sums and products (9.5), and payloads of NaNs as values (9.7).
#![tactic(auto)]

pub mod augmented;
mod classes;
mod comparisons;
mod exponents;
mod extrema;
mod predicates;
mod status_flags;
mod theorems;
mod total_orders;
mod two_formats;
mod versions;
mod whole_numbers;

pub use classes::{Class, class_of, is_canonical, is_canonical_encoding, radix};
pub use comparisons::{
    compare, compare_quiet_equal, compare_quiet_greater, compare_quiet_greater_equal,
    compare_quiet_greater_unordered, compare_quiet_less, compare_quiet_less_equal,
    compare_quiet_less_unordered, compare_quiet_not_equal, compare_quiet_not_greater,
    compare_quiet_not_less, compare_quiet_ordered, compare_quiet_unordered,
    compare_signaling_equal, compare_signaling_greater, compare_signaling_greater_equal,
    compare_signaling_greater_unordered, compare_signaling_less, compare_signaling_less_equal,
    compare_signaling_less_unordered, compare_signaling_not_equal, compare_signaling_not_greater,
    compare_signaling_not_less,
};
pub use exponents::{integer_log_b, log_b};
pub use extrema::{
    Extremum, extremum_number_of, extremum_of, maximum_magnitude_number_of, maximum_magnitude_of,
    maximum_number_of, maximum_of, minimum_magnitude_number_of, minimum_magnitude_of,
    minimum_number_of, minimum_of,
};
pub use predicates::{OnNan, Predicate, Relations};
pub use status_flags::{
    lower_flags, raise_flags, restore_flags, save_all_flags, test_flags, test_saved_flags,
};
pub use theorems::{
    comparisons_between_have_one_answer, comparisons_have_one_answer, flags_go_together,
    integer_conversions_have_one_answer, integer_logarithms_have_one_answer,
    integral_roundings_have_one_answer, logarithms_have_one_answer, one_format_agrees,
    scalings_agree, scalings_have_one_answer, total_order_is_total,
};
pub use total_orders::{total_cmp, total_order, total_order_mag};
pub use two_formats::{compare_between, relation_between};
pub use versions::{is_754_version_1985, is_754_version_2008, is_754_version_2019};
pub use whole_numbers::{
    convert_to_signed, convert_to_signed_exact, convert_to_unsigned, convert_to_unsigned_exact,
    round_to_integral_in,
};
