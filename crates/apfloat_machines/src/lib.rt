//! What processors do where IEEE 754 leaves a choice: which NaN is delivered, which integer an invalid conversion
//! gives, which of two operands is the minimum, and how denormal numbers are flushed to zero.
//!
//! An interpreter of instructions computes with `IeeeFloat`, and passes operands and answer to `settled` or one of the
//! functions beside it: it returns what the machine gives, with its flags. `docs/MACHINES.md` has what to call for each
//! instruction.
#![tactic(auto)]

mod alternative_half;
mod conversions;
mod extended;
mod flushing;
mod fused;
mod machine;
mod minima;
mod modulo;
mod nans;
mod ranges;
mod theorems;
mod whole_numbers;
mod wrapping;

pub use alternative_half::{from_alternative_half, to_alternative_half};
pub use conversions::{is_lost_nan, settled_conversion};
pub use extended::extended_product;
pub use flushing::{Flush, flushed, has_denormal, without_denormal};
pub use fused::settled_fused;
pub use machine::{
    Contradiction, FusedOrder, Machine, NanChoice, WholeOfNan, machines_are_those_of_the_tables,
};
pub use minima::{MinimumRule, greatest, least};
pub use modulo::to_signed_modulo;
pub use nans::{default_nan, machine_nan, negated_number, settled, settled_unary};
pub use ranges::{RangeRule, RangeSign, range};
pub use theorems::{
    conversions_have_one_answer, flags_go_together, flushed_fused_sums_are_settled,
    flushed_machine_operations_have_one_answer, flushed_operations_have_one_answer,
    fused_sums_have_one_answer, operations_have_one_answer, whole_numbers_have_one_answer,
    wrapped_answers_are_exact,
};
pub use whole_numbers::{settled_signed, settled_unsigned};
pub use wrapping::{Unbounded, wrapped};
